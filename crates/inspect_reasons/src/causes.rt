//! What each rule asks for.
ghost use Rattle.inspect_known.specs.Sights.{IsSeen};

use crate::accesses::{Asked, push_access};
use crate::registers::push_reserved;
use crate::services::push_service;
use crate::shapes::push_shape;
use crate::tagged::push_tagged;
use crate::targets::push_target;
use crate::undefined::push_undefined;
use crate::unwritable::push_strange_cells;
use crate::words::{not_admitted_text, push_spelling};
use inspect_known::Sight;
use sbx_image::Image;
use sbx_rules::Cause;
use std::alloc::AllocError;

/// What mends a word that breaks a rule whose two sides the ranges tell.
fn mending(cause: Cause) -> &'static str {
    match cause {
        Cause::ZeroDivisor =>
            "a division by 0 traps: compare the divisor with 0, and divide in a block where it isn't 0\n",
        Cause::RunsPastEnd =>
            "behind it stands no word of the function: end that with `ta 0`, a return or a branch\n",
        Cause::BadEntry =>
            "a run begins in the first function, which has no parameters, and ends with `ta 0`\n",
        Cause::UnkeptResults =>
            "the caller takes the results for granted: a wider `.result`, or a value within\n",
        _ => "",
    }
}

/// Pushes what a rule asks for at the word that breaks it, with the word's own values, and what would mend it: of each
/// rule but those of fuel, stack room and depth, and of cells that are listed well, which have two sides. `address` is
/// the word's.
pub fn push_reason(
    out: &mut String,
    image: &Image,
    cause: Cause,
    address: u32,
    sight: &Sight,
) -> Result<(), AllocError>
    requires { IsSeen image.now sight.now }
{
    let spot = &sight.spot;
    match cause {
        Cause::NotAnInstruction => push_spelling(out, spot.word),
        Cause::NotAdmitted => out.push_str(not_admitted_text(&spot.operation)),
        Cause::BadShape => push_shape(out, image, spot),
        Cause::BadBranch | Cause::BadCall => push_target(out, image, spot, address),
        Cause::UndefinedRead => push_undefined(out, image, sight),
        Cause::ReservedRegister => push_reserved(out, image, spot),
        Cause::Misaligned => push_access(out, image, sight, Asked::Alignment),
        Cause::OutOfBounds => push_access(out, image, sight, Asked::Place),
        Cause::TagOverflow => push_tagged(out, sight),
        Cause::UndeclaredService => push_service(out, image.services(), spot),
        Cause::UnkeptCells => push_strange_cells(out, image, spot),
        _ => out.push_str(mending(cause)),
    }
}

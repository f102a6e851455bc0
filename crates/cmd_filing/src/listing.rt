//! The command `list`.
ghost use Rattle.std.specs.Prelude.{◌≡◌, IfErr, IfSome, OnOk};
ghost use Rattle.cmd_stops.specs.Stops.{IsOfOutput, IsTrueOfImage};
ghost use Rattle.cmd_filing.specs.Files.{BeginsListing, FrontLeft, IsImage, Listed};

use crate::images::image_in;
use cmd_listing::put_listing;
use cmd_stops::CommandStop;
use std::alloc::Global;
use std::io::{Read, Write};

/// Lists the code of the image of a file.
#[tactic(auto, using(crate::proofs::Fronts::listed_on, crate::proofs::Fronts::listing_begun))]
pub fn list_file<F: Read, O: Write>(
    alloc: Global,
    file: &mut F,
    out: &mut O,
) -> Result<(), CommandStop>
    ensures image { OnOk result (IfSome (F.remaining file.old) IsImage) }
    ensures listed { OnOk result (Listed (F.remaining file.old) (O.contents out.old) (O.contents out.new)) }
    ensures stop { IfErr result (λ stop. IfSome (F.remaining file.old) (IsTrueOfImage stop)) }
    ensures untouched { IfErr result (λ stop. (IsOfOutput stop → ⊥) → out.new ≡ out.old) }
    ensures left { IfErr result
        (FrontLeft BeginsListing (F.remaining file.old) (O.contents out.old) (O.contents out.new)) }
{
    let image = image_in(alloc, file)?;
    let _count = image.word_count();
    match put_listing(image.words(), out) {
        Ok(()) => Ok(()),
        Err(_) => Err(CommandStop::Output),
    }
}

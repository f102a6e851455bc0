//! The image that a source means.
ghost use Rattle.std.specs.Prelude.{◌≡◌, ◌+◌, ℕ, IfErr, List, length};
ghost use Rattle.sbx_asm.specs.Items.{items_of};
ghost use Rattle.sbx_asm.specs.Images.{source_image, Gives, IsOfTheWhole};

use crate::checking::check;
use crate::fault::{AsmFault, least_of};
use crate::finish::judged;
use crate::parts::parts_of;
use crate::reading::Line;
use crate::survey::survey_lines;
use crate::text::Text;
use sbx_image::Image;
use std::alloc::Global;

/// The image that lines of a source mean.
fn image_of(alloc: Global, lines: &[Line<'_, '_>]) -> Result<Image, AsmFault>
    ensures { (source : List ℕ) → lines.now ≡ items_of source → Gives result (source_image source) }
{
    let survey = survey_lines(alloc, lines)?;
    let repeated = least_of(survey.repeats.as_slice());
    let checked = check(alloc, &survey.table, repeated, lines)?;
    match checked.fault {
        Some(fault) => Err(fault),
        None => {
            let parts = parts_of(alloc, &survey.table, checked.words, lines)?;
            judged(lines.len() + 1, parts)
        }
    }
}

/// The image that a source means.
///
/// # Errors
/// The fault of the least line, there a cause of the text before one of the syntax before the others, and of these the
/// one of least number; a fault of the whole at the line after the last: `Directive` where no line is a `.function`,
/// else `Limit`, where the data take more than 64 pages. `Memory`, at line 0, may come in the place of any answer.
pub fn assemble(alloc: Global, source: &[u8]) -> Result<Image, AsmFault>
    ensures exact { Gives result (source_image source.now) }
    ensures whole { IfErr result (λ fault. fault.line ≡ length (items_of source.now) + 1 →
        IsOfTheWhole (items_of source.now) fault.cause) }
{
    let text = Text::read(alloc, source)?;
    let lines = text.lines(alloc)?;
    image_of(alloc, lines.as_slice())
}

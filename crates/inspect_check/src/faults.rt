//! The faults of a source.
ghost use Rattle.std.specs.Prelude.{◌≡◌, ◌⊎◌, ◌∷◌, ◌++◌, [], Err, IfOk, List, MatchResult, Ok};
ghost use Rattle.want.specs.Wants.{refused};
ghost use Rattle.sbx_asm.specs.declared.fault.Cause.TheVariants.{Memory};
ghost use Rattle.sbx_asm.specs.Items.{Item, each, items_of};
ghost use Rattle.sbx_asm.specs.Addresses.{code_address, labels_at};
ghost use Rattle.sbx_asm.specs.Images.{source_image};
ghost use Rattle.sbx_asm.specs.Rules.{at};
ghost use Rattle.sbx_asm.specs.Kept.{IsSurvey, worth};
ghost use Rattle.inspect_check.specs.Alone.{cause_behind, found_at};
ghost use Rattle.inspect_check.specs.Faults.{AreTold, found_behind};

use crate::alone::{cause_alone, is_told, with_label};
use sbx_asm::{AsmFault, Cause, Line, LocationCounter, Survey, Text, assemble, survey_lines};
use sbx_image::Image;
use std::alloc::{AllocError, Global};

/// The faults of a source that means no image.
#[derive(Drop)]
pub struct Faults {
    /// The one that `assemble` tells.
    pub first: AsmFault,
    /// Those of lines behind it, in the order of the lines, one of a line.
    pub others: Vec<AsmFault>,
}

/// Why a line at an address of the code is told by itself, if it stands behind another line.
fn cause_behind(survey: &Survey<'_>, behind: usize, here: u32, line: &Line<'_, '_>) -> Option<Cause>
    ensures { (before : List Item) → here ≡ code_address before →
        result ≡ cause_behind (worth survey.now.table) survey.now.repeats.items behind before line.now }
{
    let number = line.number();
    if behind < number {
        let again = is_told(survey.repeats.as_slice(), number);
        with_label(again, cause_alone(&survey.table, here, line))
    } else {
        None
    }
}

/// Adds what a line is told for by itself, if it stands behind another line.
fn push_found(
    found: &mut Vec<AsmFault>,
    survey: &Survey<'_>,
    behind: usize,
    here: u32,
    line: &Line<'_, '_>,
) -> Result<(), AllocError>
    ensures { IfOk result (λ _. (before after : List Item) → here ≡ code_address before →
        found.new.items ≡
        found.old.items ++ found_at (worth survey.now.table) survey.now.repeats.items behind before line.now after) }
{
    match cause_behind(survey, behind, here, line) {
        Some(cause) => {
            let line = line.number();
            found.push(AsmFault { line, cause })?;
            Ok(())
        }
        None => Ok(()),
    }
}

/// What the lines of a source are told for by themselves, behind the line of a number.
pub fn faults_behind(
    alloc: Global,
    survey: &Survey<'_>,
    behind: usize,
    lines: &[Line<'_, '_>],
) -> Result<Vec<AsmFault>, AllocError>
    ensures { IfOk result (λ found. IsSurvey (each labels_at [] lines.now) survey.now →
        found.items ≡ found_behind behind lines.now) }
{
    let mut found = Vec::new(alloc);
    let mut place = LocationCounter::start();
    for line in lines {
        push_found(&mut found, survey, behind, place.next_word, line)?;
        place = place.after(line);
    }
    Ok(found)
}

/// The faults of a source's lines by themselves, behind the line of a number.
fn others_behind(alloc: Global, source: &[u8], line: usize) -> Result<Vec<AsmFault>, AllocError>
    ensures { IfOk result (λ others. others.items ≡ found_behind line (items_of source.now)) }
{
    let text = Text::read(alloc, source)?;
    let lines = text.lines(alloc)?;
    let survey = survey_lines(alloc, lines.as_slice())?;
    faults_behind(alloc, &survey, line, lines.as_slice())
}

/// The faults of a source, unless the first is want of memory.
#[tactic(auto, using(crate::proofs::Telling::told_first))]
fn faults_from(alloc: Global, source: &[u8], first: AsmFault) -> Result<Faults, AllocError>
    requires { (first ≡ at 0 (Memory refused)) ⊎ (source_image source.now ≡ Err first) }
    ensures { IfOk result (λ faults. AreTold source.now faults) }
{
    match first.cause {
        Cause::Memory(want) => Err(AllocError::from(want)),
        _ => {
            let others = others_behind(alloc, source, first.line)?;
            Ok(Faults { first, others })
        }
    }
}

/// The image that a source means; else its faults, of which the first is what `assemble` tells, and the others are
/// those of the lines behind it that stand by themselves: of their text, of a statement, of operands and values, and
/// labels that stand before already. It fails where memory is refused.
pub fn judge(alloc: Global, source: &[u8]) -> Result<Result<Image, Faults>, AllocError>
    ensures { IfOk result
        (λ judged. MatchResult judged (λ image. source_image source.now ≡ Ok image) (AreTold source.now)) }
{
    match assemble(alloc, source) {
        Ok(image) => Ok(Ok(image)),
        Err(first) => Ok(Err(faults_from(alloc, source, first)?)),
    }
}

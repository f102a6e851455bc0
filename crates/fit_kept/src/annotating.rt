//! A source with what was found of its program.
ghost use Rattle.std.specs.Prelude.{◌≡◌, IfOk, IsOk};
ghost use Rattle.sbx_asm.specs.Items.{lines_of};
ghost use Rattle.sbx_asm.specs.Images.{source_image};
ghost use Rattle.fit_kept.specs.Lines.{IsAnnotated, without};

use crate::annotation::{Addition, FunctionTotal};
use crate::inserting::insert;
use fit_code::Fault;
use sbx_asm::{AsmFault, assemble};
use std::alloc::Global;

/// Why there is no annotated source.
#[derive(Drop)]
pub enum AnnotationRefusal {
    /// The assembler refuses the source.
    Source(AsmFault),
    /// A word has no place in a program, something that was found none in the source, or memory was refused.
    Program(Fault),
    /// With its annotations the assembler would refuse it, at a line of what would be made.
    Made(AsmFault),
}

/// A source with what was found of its program, in whatever way: nothing of that is trusted. What is made means an
/// image, and without its annotations it is the source without its own.
///
/// # Errors
/// `Program` as `insert` refuses what was found. `Made` where the annotations pass another limit of the language. Asked
/// of memory in each.
#[tactic(auto, using(crate::proofs::ByLines::taken_out))]
pub fn annotate(
    alloc: Global,
    source: &[u8],
    additions: &[Addition],
    totals: &[FunctionTotal],
) -> Result<Vec<u8>, AnnotationRefusal>
    ensures stays { IfOk result (λ made. IsAnnotated (lines_of source.now) (lines_of made.items)) }
    ensures without { IfOk result (λ made. without (lines_of made.items) ≡ without (lines_of source.now)) }
    ensures means { IfOk result (λ made. IsOk (source_image made.items)) }
{
    let made = match insert(alloc, source, additions, totals) {
        Ok(made) => made,
        Err(fault) => return Err(AnnotationRefusal::Program(fault)),
    };
    match assemble(alloc, made.as_slice()) {
        Ok(_image) => Ok(made),
        Err(fault) => Err(AnnotationRefusal::Made(fault)),
    }
}

//! The test that a source with annotations is the source that was given.
ghost use Rattle.std.specs.Prelude.{IsTrue, IfOk, IfSome};
ghost use Rattle.sbx_asm.specs.Items.{lines_of};
ghost use Rattle.fit_kept.specs.Lines.{IsAnnotated, Takes};

use crate::lines::{fills, is_annotation};
use sbx_asm::first_line;
use std::alloc::{AllocError, Global};

/// What of a source is left for what stands behind a line of the annotated one. None where the line is neither its
/// first one nor an annotation, or memory was refused, which is noted.
#[tactic(auto, using(crate::proofs::ByLines::takes_kept, crate::proofs::ByLines::takes_annotation))]
fn left_behind<'s>(
    alloc: Global,
    source: &'s [u8],
    line: &[u8],
    lacks: &mut bool,
) -> Option<&'s [u8]>
    ensures { IfSome result (λ left. Takes (lines_of source.now) line.now (lines_of left.now)) }
{
    if !source.is_empty() {
        let (old, after) = first_line(source);
        if old == line || fills(alloc, old, line, lacks) {
            return Some(after);
        }
    }
    if is_annotation(alloc, line, lacks) {
        Some(source)
    } else {
        None
    }
}

/// Whether a text is a source with annotations: each line of the source stands there, in their order, but for a
/// function's numbers, and all else are annotations.
pub fn is_annotated(alloc: Global, source: &[u8], text: &[u8]) -> Result<bool, AllocError>
    ensures { IfOk result (λ answer. IsTrue answer → IsAnnotated (lines_of source.now) (lines_of text.now)) }
{
    let (mut left, mut rest) = (source, text);
    let mut lacks = false;
    'lines: while !rest.is_empty() {
        let (line, after) = first_line(rest);
        let Some(others) = left_behind(alloc, left, line, &mut lacks) else {
            return if lacks { Err(AllocError) } else { Ok(false) };
        };
        left = others;
        rest = after;
    }
    if lacks {
        return Err(AllocError);
    }
    Ok(left.is_empty())
}

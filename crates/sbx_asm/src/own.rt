//! The lines that belong to a function or to a block.
ghost use Rattle.std.specs.Prelude.{◌≡◌};
ghost use Rattle.sbx_asm.specs.Items.{up_to, ends_function, ends_block};

use crate::kinds::{ends_block, ends_function};
use crate::reading::Line;

/// The lines up to the next `.function`.
pub fn up_to_function<'l, 'a, 't>(lines: &'l [Line<'a, 't>]) -> &'l [Line<'a, 't>]
    ensures { result.now ≡ up_to ends_function lines.now }
{
    for (at, line) in lines.iter().enumerate() {
        if ends_function(line) {
            return &lines[..at];
        }
    }
    lines
}

/// The lines up to the next `.block` or `.function`.
pub fn up_to_block<'l, 'a, 't>(lines: &'l [Line<'a, 't>]) -> &'l [Line<'a, 't>]
    ensures { result.now ≡ up_to ends_block lines.now }
{
    for (at, line) in lines.iter().enumerate() {
        if ends_block(line) {
            return &lines[..at];
        }
    }
    lines
}

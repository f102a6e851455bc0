//! Registers that a function may have no use for.
use fit_code::{Function, RegisterSet};
use v8_formats::Reg;

/// Of a function with a window, from the last choice on, globals, which calls don't keep, ins but those of results, and
/// locals.
const FRAMED: &[u8] = &[1, 2, 3, 4, 26, 27, 28, 29, 16, 17, 18, 19, 20, 21, 22, 23];

/// Of a leaf, outs but those of results, and globals.
const LEAF: &[u8] = &[10, 11, 12, 13, 1, 2, 3, 4];

/// A register that a function has no use for; none where it uses all. A call leaves nothing in outs and globals.
pub fn free_register(function: &Function) -> Option<Reg> {
    let mut named = function.named();
    if function.calls() {
        named.add(RegisterSet::LOST_BY_CALL);
    }
    named.last_free(if function.framed { FRAMED } else { LEAF })
}

// The name that a statement begins with.
ghost use Rattle.std.specs.Prelude.{◌≡◌, ℕ, ◌+◌, ◌<◌, ◌≤◌, List, map, IfSome, length};
ghost use Rattle.std.specs.List.{position_from};
ghost use Rattle.std.specs.Str.{bytes_eq};
ghost use Rattle.v8_forms.specs.Forms.{form_of, suffixes};
ghost use Rattle.v8_syntax.specs.Statements.{named};

use crate::word::{after_first, bytes_between, is_same};
use v8_forms::{Row, suffixes};

/// Which of some suffixes it is, the first by that number.
fn numbered(from: u32, suffixes: &[&str], name: &[u8]) -> Option<u32>
    requires room { from + length suffixes.now ≤ 16 }
    ensures value { result ≡ position_from (λ suffix. bytes_eq suffix name.now) from (map (λ s. s.now) suffixes.now) }
    ensures bound { IfSome result (λ k. k < 16) }
{
    let (suffix, others) = suffixes.split_first()?;
    if is_same(suffix.as_bytes(), name) {
        Some(from)
    } else {
        numbered(from + 1, others, name)
    }
}

/// The condition under which a form has that name: 0 where it has none.
pub fn named(row: &Row, name: &[u8]) -> Option<u32>
    ensures value { result ≡ named (form_of row.now) name.now }
    ensures bound { IfSome result (λ k. k < 16) }
{
    if !row.conditional {
        is_same(row.name.as_bytes(), name).then_some(0)
    } else if is_same(row.name.as_bytes(), bytes_between(name, 0, 1)) {
        numbered(0, suffixes(), after_first(name))
    } else {
        None
    }
}

//! What a branch lets know on each of its ways.
ghost use Rattle.std.specs.Prelude.{◌≡◌, Some, true};
ghost use Rattle.sbx_range.specs.Refining.{refine};
ghost use Rattle.sbx_domain.specs.Refining.{in_both, is_same};

use crate::relation::Related;
use sbx_range::{Pair, Range, common, refine};
use v8_word::Cond;

fn is_same(x: Related, y: Related) -> bool
    ensures { result ≡ is_same x y }
{
    match (x, y) {
        (Related::Location(x), Related::Location(y)) => x == y,
        _ => false,
    }
}

/// What two ranges share, on both sides.
#[tactic(auto, unfolding(sbx_range::specs::Refining::both_of))]
fn shared(pair: Pair) -> Option<Pair>
    ensures { result ≡ in_both true (Some pair) }
{
    match common(pair.left, pair.right) {
        Some(range) => Some(Pair {
            left: range,
            right: range,
        }),
        None => None,
    }
}

/// The ranges of two operands where a condition holds of the codes of the first less the second.
pub(crate) fn refined_pair(cond: Cond, x: Related, y: Related, a: Range, b: Range) -> Option<Pair>
    ensures { result ≡ in_both (is_same x y) (refine cond a b) }
{
    match refine(cond, a, b) {
        Some(pair) if is_same(x, y) => shared(pair),
        pair => pair,
    }
}

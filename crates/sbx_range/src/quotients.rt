//! Ranges of quotients.
ghost use Rattle.std.specs.Prelude.{◌≡◌, ◌<ℤ◌, pos, int_div};
ghost use Rattle.sbx_range.specs.Rows.{divides_naturals, excludes_zero, range_divide};

use crate::bounds::{all, is_natural, is_zero};
use sbx_image::Range;

fn divides_naturals(y: Range, a: Range, b: Range) -> bool
    ensures { result ≡ divides_naturals y a b }
{
    is_zero(y) && is_natural(a) && b.lo > 0 && b.hi > 0
}

/// Whether no number of a divisor's range is 0.
pub fn excludes_zero(b: Range) -> bool
    ensures { result ≡ excludes_zero b }
{
    b.lo > 0 || b.hi < 0
}

/// A quotient, rounded toward zero.
fn quotient(a: i32, b: i32) -> i32
    requires { pos 0 <ℤ b }
    ensures { result ≡ int_div a b }
{
    a / b
}

/// UDIV and SDIV of `a` below Y, by `b`: where Y is 0, `a` is never negative and `b` positive, from the lower end by
/// the upper to the upper end by the lower, rounded down; else all words.
#[tactic(auto, unfolding(crate::specs::Rows::range_divide))]
pub fn range_divide(y: Range, a: Range, b: Range) -> Range
    ensures { result ≡ range_divide y a b }
{
    if divides_naturals(y, a, b) {
        Range {
            lo: quotient(a.lo, b.hi),
            hi: quotient(a.hi, b.lo),
            alignment: 0,
        }
    } else {
        all(0)
    }
}

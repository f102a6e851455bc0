//! Ranges of AND, OR, XOR and ANDN.
ghost use Rattle.std.specs.Prelude.{◌≡◌, ◌<◌, ◌^◌, pos};
ghost use Rattle.sbx_range.specs.Rows.{natural_of, ones_above, ones_of, range_and, range_andn, range_or, range_xor};

use crate::bounds::{all, greatest_alignment, is_natural, is_zero, least_alignment};
use sbx_image::Range;

/// A number, or 0 for a negative one.
fn natural_of(number: i32) -> u32
    ensures value { result ≡ natural_of number }
    ensures bound { result < 2 ^ 31 }
{
    if number < 0 {
        0
    } else {
        number.cast_unsigned()
    }
}

/// The least number of the form 2^k - 1 that isn't below this one.
fn ones_above(number: u32) -> i32
    requires { number < 2 ^ 31 }
    ensures { result ≡ pos (ones_above number) }
{
    ((1u64 << (32 - number.leading_zeros())) - 1) as i32
}

/// The same for the greater of two upper ends.
fn ones_of(a: Range, b: Range) -> i32
    ensures { result ≡ ones_of a b }
{
    ones_above(natural_of(a.hi).max(natural_of(b.hi)))
}

/// OR: the other operand where one is 0; where no number is negative, from the greater lower end to all ones below the
/// first power of two above both; with the lesser alignment.
#[tactic(auto, unfolding(crate::specs::Rows::range_or))]
pub fn range_or(a: Range, b: Range) -> Range
    ensures { result ≡ range_or a b }
{
    let alignment = least_alignment(a, b);
    if is_zero(a) {
        b
    } else if is_zero(b) {
        a
    } else if is_natural(a) && is_natural(b) {
        Range {
            lo: a.lo.max(b.lo),
            hi: ones_of(a, b),
            alignment,
        }
    } else {
        all(alignment)
    }
}

/// XOR: where no number is negative, from 0 to all ones below the first power of two above both; with the lesser
/// alignment.
#[tactic(auto, unfolding(crate::specs::Rows::range_xor))]
pub fn range_xor(a: Range, b: Range) -> Range
    ensures { result ≡ range_xor a b }
{
    let alignment = least_alignment(a, b);
    if is_natural(a) && is_natural(b) {
        Range {
            lo: 0,
            hi: ones_of(a, b),
            alignment,
        }
    } else {
        all(alignment)
    }
}

/// AND: from 0 to the lesser upper end of those that are never negative, with the greater alignment.
#[tactic(auto, unfolding(crate::specs::Rows::range_and))]
pub fn range_and(a: Range, b: Range) -> Range
    ensures { result ≡ range_and a b }
{
    let alignment = greatest_alignment(a, b);
    if is_natural(a) && is_natural(b) {
        Range {
            lo: 0,
            hi: a.hi.min(b.hi),
            alignment,
        }
    } else if is_natural(a) {
        Range {
            lo: 0,
            hi: a.hi,
            alignment,
        }
    } else if is_natural(b) {
        Range {
            lo: 0,
            hi: b.hi,
            alignment,
        }
    } else {
        all(alignment)
    }
}

/// ANDN: from 0 to the first operand's upper end, where that operand is never negative, with its alignment.
#[tactic(auto, unfolding(crate::specs::Rows::range_andn))]
pub fn range_andn(a: Range) -> Range
    ensures { (b : Range) → result ≡ range_andn a b }
{
    if is_natural(a) {
        Range {
            lo: 0,
            hi: a.hi,
            alignment: a.alignment,
        }
    } else {
        all(a.alignment)
    }
}

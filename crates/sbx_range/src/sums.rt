//! Ranges of sums, differences and products.
ghost use Rattle.std.specs.Prelude.{◌≡◌, ◌+◌, ◌+ℤ◌, ◌-ℤ◌, ◌*ℤ◌, min};
ghost use Rattle.sbx_range.specs.Rows.{differences_fit, greatest_of, greatest_product, least_of, least_product};
ghost use Rattle.sbx_range.specs.Rows.{range_add, range_smul, range_sub, range_umul, sums_fit};

use crate::bounds::{all, fit, is_natural, is_signed_word, least_alignment};
use sbx_image::Range;

fn sum(a: i32, b: i32) -> i64
    ensures { result ≡ a +ℤ b }
{
    i64::from(a) + i64::from(b)
}

fn difference(a: i32, b: i32) -> i64
    ensures { result ≡ a -ℤ b }
{
    i64::from(a) - i64::from(b)
}

/// Whether each sum of a number of `a` and one of `b` is a signed word.
pub fn sums_fit(a: Range, b: Range) -> bool
    ensures { result ≡ sums_fit a b }
{
    is_signed_word(sum(a.lo, b.lo)) && is_signed_word(sum(a.hi, b.hi))
}

/// Whether each difference of a number of `a` and one of `b` is a signed word.
pub fn differences_fit(a: Range, b: Range) -> bool
    ensures { result ≡ differences_fit a b }
{
    is_signed_word(difference(a.lo, b.hi)) && is_signed_word(difference(a.hi, b.lo))
}

/// ADD: the sums of the ends, with the lesser alignment.
#[tactic(auto, unfolding(crate::specs::Rows::range_add))]
pub fn range_add(a: Range, b: Range) -> Range
    ensures { result ≡ range_add a b }
{
    let alignment = least_alignment(a, b);
    fit(sum(a.lo, b.lo), sum(a.hi, b.hi), alignment)
}

/// SUB: the ends less the other ends, with the lesser alignment.
#[tactic(auto, unfolding(crate::specs::Rows::range_sub))]
pub fn range_sub(a: Range, b: Range) -> Range
    ensures { result ≡ range_sub a b }
{
    let lo = difference(a.lo, b.hi);
    fit(lo, difference(a.hi, b.lo), least_alignment(a, b))
}

/// The sum of two alignments, at most 3.
pub fn capped_sum(a: u8, b: u8) -> u8
    ensures { result ≡ min 3 (a + b) }
{
    a.saturating_add(b).min(3)
}

fn product(a: i32, b: i32) -> i64
    ensures { result ≡ a *ℤ b }
{
    i64::from(a) * i64::from(b)
}

#[tactic(auto, unfolding(crate::specs::Rows::least_of))]
fn least_of(p: i64, q: i64, r: i64, s: i64) -> i64
    ensures { result ≡ least_of p q r s }
{
    p.min(q).min(r.min(s))
}

#[tactic(auto, unfolding(crate::specs::Rows::greatest_of))]
fn greatest_of(p: i64, q: i64, r: i64, s: i64) -> i64
    ensures { result ≡ greatest_of p q r s }
{
    p.max(q).max(r.max(s))
}

#[tactic(auto, unfolding(crate::specs::Rows::least_product))]
fn least_product(a: Range, b: Range) -> i64
    ensures { result ≡ least_product a b }
{
    least_of(
        product(a.lo, b.lo),
        product(a.lo, b.hi),
        product(a.hi, b.lo),
        product(a.hi, b.hi),
    )
}

#[tactic(auto, unfolding(crate::specs::Rows::greatest_product))]
fn greatest_product(a: Range, b: Range) -> i64
    ensures { result ≡ greatest_product a b }
{
    greatest_of(
        product(a.lo, b.lo),
        product(a.lo, b.hi),
        product(a.hi, b.lo),
        product(a.hi, b.hi),
    )
}

/// SMUL: from the least to the greatest product of two ends, with the alignments added.
#[tactic(auto, unfolding(crate::specs::Rows::range_smul))]
pub fn range_smul(a: Range, b: Range) -> Range
    ensures { result ≡ range_smul a b }
{
    fit(
        least_product(a, b),
        greatest_product(a, b),
        capped_sum(a.alignment, b.alignment),
    )
}

/// UMUL: the products of the ends where no number is negative, else all words, with the alignments added.
#[tactic(auto, unfolding(crate::specs::Rows::range_umul))]
pub fn range_umul(a: Range, b: Range) -> Range
    ensures { result ≡ range_umul a b }
{
    let alignment = capped_sum(a.alignment, b.alignment);
    if is_natural(a) && is_natural(b) {
        fit(product(a.lo, b.lo), product(a.hi, b.hi), alignment)
    } else {
        all(alignment)
    }
}

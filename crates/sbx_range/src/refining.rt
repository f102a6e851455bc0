//! What a condition says of the ranges of two words that were compared.
ghost use Rattle.std.specs.Prelude.{◌≡◌, ◌≤◌, pos, negsuc, ◌+ℤ◌, ◌-ℤ◌, ◌≤ℤ◌, if◌then◌else◌};
ghost use Rattle.std.specs.Int.{int_max, int_min};
ghost use Rattle.sbx_range.specs.Ranges.{range};
ghost use Rattle.sbx_range.specs.Refining.{above_unsigned, below, below_unsigned, both_of, common, from_zero};
ghost use Rattle.sbx_range.specs.Refining.{left_below, lowered, narrowed, narrowed_by_value, pair, raised, refine};
ghost use Rattle.sbx_range.specs.Refining.{refine_by_value, right_below, some_pair, some_range, turned, without};

use crate::bounds::{greatest_alignment, is_natural, is_single, known};
use sbx_image::Range;
use v8_alu::Cond;

/// The ranges of two words that were compared.
#[derive(Clone, Copy)]
pub struct Pair {
    pub left: Range,
    pub right: Range,
}

/// The range of these ends, where it isn't empty.
#[tactic(auto, unfolding(crate::specs::Refining::some_range))]
fn between(lo: i64, hi: i64, alignment: u8) -> Option<Range>
    requires low { negsuc 2147483647 ≤ℤ lo }
    requires high { hi ≤ℤ pos 2147483647 }
    ensures { result ≡ some_range (range lo hi alignment) }
{
    if hi < lo {
        None
    } else {
        Some(Range {
            lo: lo as i32,
            hi: hi as i32,
            alignment,
        })
    }
}

#[tactic(auto, unfolding(crate::specs::Refining::some_range))]
fn some_range(a: Range) -> Option<Range>
    ensures { result ≡ some_range a }
{
    if a.hi < a.lo { None } else { Some(a) }
}

#[tactic(auto, unfolding(crate::specs::Refining::both_of))]
fn both_of(left: Option<Range>, right: Option<Range>) -> Option<Pair>
    ensures { result ≡ both_of left right }
{
    match (left, right) {
        (Some(left), Some(right)) => Some(Pair { left, right }),
        _ => None,
    }
}

/// An upper end, at most another number less `d`.
fn upper(hi: i32, other: i32, d: u8) -> i64
    ensures value { result ≡ int_min hi (other -ℤ pos d) }
    ensures bound { result ≤ℤ hi }
{
    i64::from(hi).min(i64::from(other) - i64::from(d))
}

/// A lower end, at least another number and `d`.
fn lower(lo: i32, other: i32, d: u8) -> i64
    ensures value { result ≡ int_max lo (other +ℤ pos d) }
    ensures bound { lo ≤ℤ result }
{
    i64::from(lo).max(i64::from(other) + i64::from(d))
}

#[tactic(auto, unfolding(crate::specs::Refining::left_below))]
fn left_below(d: u8, a: Range, b: Range) -> Option<Range>
    ensures { result ≡ some_range (left_below d a b) }
{
    between(i64::from(a.lo), upper(a.hi, b.hi, d), a.alignment)
}

#[tactic(auto, unfolding(crate::specs::Refining::right_below))]
fn right_below(d: u8, a: Range, b: Range) -> Option<Range>
    ensures { result ≡ some_range (right_below d a b) }
{
    between(lower(b.lo, a.lo, d), i64::from(b.hi), b.alignment)
}

/// The left at least `d` below the right.
#[tactic(auto, unfolding(crate::specs::Refining::below, crate::specs::Refining::some_pair))]
fn below(d: u8, a: Range, b: Range) -> Option<Pair>
    ensures { result ≡ some_pair (below d a b) }
{
    both_of(left_below(d, a, b), right_below(d, a, b))
}

/// The left at least `d` above the right.
#[tactic(auto, unfolding(crate::specs::Refining::below, crate::specs::Refining::some_pair))]
fn above(d: u8, a: Range, b: Range) -> Option<Pair>
    ensures { result ≡ some_pair (turned (below d b a)) }
{
    both_of(right_below(d, b, a), left_below(d, b, a))
}

fn from_zero(a: Range) -> Range
    ensures { result ≡ from_zero a }
{
    Range {
        lo: a.lo.max(0),
        ..a
    }
}

#[tactic(auto, unfolding(crate::specs::Refining::some_pair))]
fn unchanged(a: Range, b: Range) -> Option<Pair>
    ensures { result ≡ some_pair (pair a b) }
{
    both_of(some_range(a), some_range(b))
}

/// The same of unsigned words.
#[tactic(auto, unfolding(crate::specs::Refining::below_unsigned))]
fn below_unsigned(d: u8, a: Range, b: Range) -> Option<Pair>
    ensures { result ≡ some_pair (below_unsigned d a b) }
{
    if is_natural(b) {
        below(d, from_zero(a), b)
    } else {
        unchanged(a, b)
    }
}

#[tactic(auto, unfolding(crate::specs::Refining::above_unsigned))]
fn above_unsigned(d: u8, a: Range, b: Range) -> Option<Pair>
    ensures { result ≡ some_pair (above_unsigned d a b) }
{
    if is_natural(a) && is_natural(b) {
        above(d, a, b)
    } else {
        unchanged(a, b)
    }
}

/// What two ranges share.
#[tactic(auto, unfolding(crate::specs::Refining::common))]
pub fn common(a: Range, b: Range) -> Option<Range>
    ensures { result ≡ some_range (common a b) }
{
    some_range(Range {
        lo: a.lo.max(b.lo),
        hi: a.hi.min(b.hi),
        alignment: greatest_alignment(a, b),
    })
}

fn raised(lo: i32, number: i32) -> i64
    ensures value { result ≡ raised lo number }
    ensures bound { lo ≤ℤ result }
{
    if lo == number {
        i64::from(lo) + 1
    } else {
        i64::from(lo)
    }
}

fn lowered(hi: i32, number: i32) -> i64
    ensures value { result ≡ lowered hi number }
    ensures bound { result ≤ℤ hi }
{
    if hi == number {
        i64::from(hi) - 1
    } else {
        i64::from(hi)
    }
}

/// A range without the one number of another, where that is one of its ends.
#[tactic(auto, unfolding(crate::specs::Refining::without))]
fn without(a: Range, b: Range) -> Option<Range>
    ensures { result ≡ some_range (without a b) }
{
    if is_single(b) {
        between(raised(a.lo, b.lo), lowered(a.hi, b.lo), a.alignment)
    } else {
        some_range(a)
    }
}

#[tactic(auto, unfolding(crate::specs::Refining::some_pair))]
fn equal(a: Range, b: Range) -> Option<Pair>
    ensures { result ≡ some_pair (pair (common a b) (common a b)) }
{
    let both = common(a, b);
    both_of(both, both)
}

#[tactic(auto, unfolding(crate::specs::Refining::some_pair))]
fn unequal(a: Range, b: Range) -> Option<Pair>
    ensures { result ≡ some_pair (pair (without a b) (without b a)) }
{
    both_of(without(a, b), without(b, a))
}

/// The ranges of two words where a condition holds of the codes of the first less the second (SUBcc), or none where it
/// can't hold.
#[tactic(auto, unfolding(crate::specs::Refining::refine, crate::specs::Refining::narrowed))]
pub fn refine(cond: Cond, a: Range, b: Range) -> Option<Pair>
    ensures { result ≡ refine cond a b }
{
    match cond {
        Cond::Equal => equal(a, b),
        Cond::NotEqual => unequal(a, b),
        Cond::Less => below(1, a, b),
        Cond::LessOrEqual => below(0, a, b),
        Cond::Greater => above(1, a, b),
        Cond::GreaterOrEqual => above(0, a, b),
        Cond::CarrySet => below_unsigned(1, a, b),
        Cond::LessOrEqualUnsigned => below_unsigned(0, a, b),
        Cond::CarryClear => above_unsigned(0, a, b),
        Cond::GreaterUnsigned => above_unsigned(1, a, b),
        _ => unchanged(a, b),
    }
}

fn negative(a: Range) -> Option<Range>
    ensures { result ≡ some_range (range a.lo (int_min a.hi (negsuc 0)) a.alignment) }
{
    some_range(Range {
        hi: a.hi.min(-1),
        ..a
    })
}

/// The range of a word where a condition holds of codes whose N and Z are the word's, or none where it can't hold.
#[tactic(auto, unfolding(crate::specs::Refining::refine_by_value, crate::specs::Refining::narrowed_by_value))]
pub fn refine_by_value(cond: Cond, a: Range) -> Option<Range>
    ensures { result ≡ refine_by_value cond a }
{
    match cond {
        Cond::Equal => common(a, known(0)),
        Cond::NotEqual => without(a, known(0)),
        Cond::Negative => negative(a),
        Cond::Positive => some_range(from_zero(a)),
        _ => some_range(a),
    }
}

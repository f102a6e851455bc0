//! Ranges of shifts.
ghost use Rattle.std.specs.Prelude.{◌≡◌, ◌<◌, ◌≤◌, ◌-◌, ◌^◌, pos, ◌*ℤ◌, ◌≤ℤ◌};
ghost use Rattle.sbx_range.specs.Rows.{count_of, halved, halved_range, range_sll, range_sra, range_srl, right_else};

use crate::bounds::{all, fit, is_natural, is_single, word_of};
use crate::sums::capped_sum;
use sbx_image::Range;

/// By how many bits the one number of a range shifts: its low five bits.
fn count_of(b: Range) -> u32
    ensures value { result ≡ count_of b }
    ensures bound { result < 32 }
{
    word_of(b) & 31
}

fn power(k: u32) -> i64
    requires { k ≤ 32 }
    ensures value { result ≡ pos (2 ^ k) }
    ensures bound { result ≤ℤ pos (2 ^ 32) }
    ensures some { pos 1 ≤ℤ result }
{
    1i64 << k
}

fn shifted_up(number: i32, k: u32) -> i64
    requires { k < 32 }
    ensures { result ≡ number *ℤ pos (2 ^ k) }
{
    i64::from(number) * power(k)
}

/// SLL by a known count: the ends times a power of two, the count added to the alignment; else all words.
#[tactic(auto, unfolding(crate::specs::Rows::range_sll))]
pub fn range_sll(a: Range, b: Range) -> Range
    ensures { result ≡ range_sll a b }
{
    if is_single(b) {
        let k = count_of(b);
        fit(
            shifted_up(a.lo, k),
            shifted_up(a.hi, k),
            capped_sum(a.alignment, k as u8),
        )
    } else {
        all(a.alignment)
    }
}

/// A number divided by 2^k, rounded down.
fn halved(number: i32, k: u32) -> i32
    requires { k < 32 }
    ensures { result ≡ halved number k }
{
    number >> k
}

/// The ends divided by 2^k, rounded down, and the alignment less k.
fn halved_range(a: Range, k: u32) -> Range
    requires { k < 32 }
    ensures { result ≡ halved_range a k }
{
    Range {
        lo: halved(a.lo, k),
        hi: halved(a.hi, k),
        alignment: a.alignment.saturating_sub(k as u8),
    }
}

/// A shift to the right by a count that isn't known.
fn right_else(a: Range) -> Range
    ensures { result ≡ right_else a }
{
    if is_natural(a) {
        Range {
            lo: 0,
            hi: a.hi,
            alignment: 0,
        }
    } else {
        all(0)
    }
}

/// SRL by a known count: the ends divided, or where the operand can be negative, all words with so many zero bits in
/// front.
#[tactic(auto, unfolding(crate::specs::Rows::range_srl))]
pub fn range_srl(a: Range, b: Range) -> Range
    ensures { result ≡ range_srl a b }
{
    if is_single(b) {
        let k = count_of(b);
        if is_natural(a) || k == 0 {
            halved_range(a, k)
        } else {
            fit(0, power(32 - k) - 1, a.alignment.saturating_sub(k as u8))
        }
    } else {
        right_else(a)
    }
}

/// SRA by a known count: the ends divided, rounded down.
#[tactic(auto, unfolding(crate::specs::Rows::range_sra))]
pub fn range_sra(a: Range, b: Range) -> Range
    ensures { result ≡ range_sra a b }
{
    if is_single(b) {
        halved_range(a, count_of(b))
    } else {
        right_else(a)
    }
}

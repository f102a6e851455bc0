// Quotients of 64 bits by 32, as the nearest word (appendix B, "Divide Instructions").
ghost use Rattle.std.specs.Prelude.{◌≡◌, ℕ, ◌+◌, ◌-◌, ◌*◌, ◌/◌, ◌%◌, ◌^◌, ◌<◌, ◌≤◌, not, pos, negsuc, min, neg_ℤ};
ghost use Rattle.std.specs.Prelude.{nat_le, false, if◌then◌else◌};
ghost use Rattle.v8_alu.specs.Results.{dividend, is_signed_word, nearest_word, quotient, signed_quotient};

use crate::sums::signed;

fn dividend(y: u32, a: u32) -> u64
    ensures { result ≡ dividend y a }
{
    (u64::from(y) << 32) | u64::from(a)
}

/// A quotient that fits a word, else the greatest word.
pub fn unsigned_quotient(y: u32, a: u32, b: u32) -> (u32, bool)
    requires { 0 < b }
    ensures value { result.0 ≡ min (quotient y a b) (2 ^ 32 - 1) }
    ensures overflow { result.1 ≡ nat_le (2 ^ 32) (quotient y a b) }
{
    let exact = dividend(y, a) / u64::from(b);
    if exact > 0xffff_ffff {
        (u32::MAX, true)
    } else {
        (exact as u32, false)
    }
}

/// The signed word nearest to a number that is given by sign and magnitude, and whether it is another number.
fn nearest(negative: bool, magnitude: u64) -> (u32, bool)
    ensures value { result.0 ≡ nearest_word (if negative then neg_ℤ (pos magnitude) else pos magnitude) }
    ensures overflow { result.1 ≡ not (is_signed_word (if negative then neg_ℤ (pos magnitude) else pos magnitude)) }
{
    if negative {
        if magnitude > 0x8000_0000 {
            (0x8000_0000, true)
        } else {
            (0u32.wrapping_sub(magnitude as u32), false)
        }
    } else if magnitude > 0x7fff_ffff {
        (0x7fff_ffff, true)
    } else {
        (magnitude as u32, false)
    }
}

/// The signed quotient, rounded toward zero, as the nearest word, and whether it is another number.
#[tactic(auto, using(crate::proofs::Signs::quotients))]
pub fn signed_quotient(y: u32, a: u32, b: u32) -> (u32, bool)
    requires { 0 < b }
    ensures value { result.0 ≡ nearest_word (signed_quotient y a b) }
    ensures overflow { result.1 ≡ not (is_signed_word (signed_quotient y a b)) }
{
    let dividend = dividend(y, a).cast_signed();
    let divisor = signed(b);
    let negative = dividend.is_negative() != divisor.is_negative();
    nearest(negative, dividend.unsigned_abs() / divisor.unsigned_abs())
}

// Sums and differences with their codes, and tags (appendix B, "Add Instructions", "Subtract Instructions").
ghost use Rattle.std.specs.Prelude.{◌≡◌, ℕ, ◌+◌, ◌-◌, ◌*◌, ◌/◌, ◌%◌, ◌^◌, ◌<◌, ◌≤◌, not, pos, negsuc, ◌+ℤ◌, ◌-ℤ◌, ◌≤ℤ◌};
ghost use Rattle.std.specs.Prelude.{◌<ℤ◌, nat_le, nat_lt};
ghost use Rattle.v8_alu.specs.Outcomes.{tagged_codes};
ghost use Rattle.v8_alu.specs.Results.{codes, difference, difference_codes, from_flag, is_signed_word, is_tagged};
ghost use Rattle.v8_alu.specs.Results.{signed, sum, sum_codes};

use v8_word::Icc;

/// The codes of a value, with these for overflow and carry.
pub fn codes(value: u32, v: bool, c: bool) -> Icc
    ensures { result ≡ codes value v c }
{
    Icc {
        n: value >> 31 == 1,
        z: value == 0,
        v,
        c,
    }
}

/// Whether a number is no signed word.
fn overflows(exact: i64) -> bool
    ensures { result ≡ not (is_signed_word exact) }
{
    exact < -0x8000_0000 || exact > 0x7fff_ffff
}

/// A word as a signed number.
pub fn signed(word: u32) -> i64
    ensures value { result ≡ signed word }
    ensures low { negsuc 2147483647 ≤ℤ result }
    ensures high { result <ℤ pos 2147483648 }
{
    i64::from(word.cast_signed())
}

fn exact_sum(a: u32, b: u32, carry: bool) -> i64
    ensures { result ≡ signed a +ℤ signed b +ℤ pos (from_flag carry) }
{
    let exact = signed(a) + signed(b);
    if carry { exact + 1 } else { exact }
}

fn sum_overflows(a: u32, b: u32, carry: bool) -> bool
    ensures { result ≡ not (is_signed_word (signed a +ℤ signed b +ℤ pos (from_flag carry))) }
{
    overflows(exact_sum(a, b, carry))
}

fn carries(a: u32, b: u32, carry: bool) -> bool
    ensures { result ≡ nat_le (2 ^ 32) (a + b + from_flag carry) }
{
    u64::from(a) + u64::from(b) + u64::from(carry) > 0xffff_ffff
}

/// The sum of two words and a carry, with its codes.
pub fn add(a: u32, b: u32, carry: bool) -> (u32, Icc)
    ensures value { result.0 ≡ sum a b carry }
    ensures codes { result.1 ≡ sum_codes a b carry }
{
    let value = a.wrapping_add(b).wrapping_add(u32::from(carry));
    (
        value,
        codes(value, sum_overflows(a, b, carry), carries(a, b, carry)),
    )
}

fn exact_difference(a: u32, b: u32, borrow: bool) -> i64
    ensures { result ≡ signed a -ℤ signed b -ℤ pos (from_flag borrow) }
{
    let exact = signed(a) - signed(b);
    if borrow { exact - 1 } else { exact }
}

fn difference_overflows(a: u32, b: u32, borrow: bool) -> bool
    ensures { result ≡ not (is_signed_word (signed a -ℤ signed b -ℤ pos (from_flag borrow))) }
{
    overflows(exact_difference(a, b, borrow))
}

fn borrows(a: u32, b: u32, borrow: bool) -> bool
    ensures { result ≡ nat_lt a (b + from_flag borrow) }
{
    u64::from(a) < u64::from(b) + u64::from(borrow)
}

/// The difference of two words less a borrow, with its codes.
pub fn subtract(a: u32, b: u32, borrow: bool) -> (u32, Icc)
    ensures value { result.0 ≡ difference a b borrow }
    ensures codes { result.1 ≡ difference_codes a b borrow }
{
    let value = a.wrapping_sub(b).wrapping_sub(u32::from(borrow));
    (
        value,
        codes(
            value,
            difference_overflows(a, b, borrow),
            borrows(a, b, borrow),
        ),
    )
}

/// Whether the low two bits of an operand aren't 0.
fn is_tagged(a: u32, b: u32) -> bool
    ensures { result ≡ is_tagged a b }
{
    a & 3 != 0 || b & 3 != 0
}

/// Codes whose overflow also tells of a tag that isn't 0.
pub fn tagged_codes(a: u32, b: u32, icc: Icc) -> Icc
    ensures { result ≡ tagged_codes a b icc }
{
    Icc {
        v: icc.v || is_tagged(a, b),
        ..icc
    }
}

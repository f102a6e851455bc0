// Numbers, ranges and locations among the operands of a directive.
ghost use Rattle.std.specs.Prelude.{◌≡◌, ◌≤◌, ◌+◌, ℕ, pos, negsuc, ◌≤ℤ◌, IfSome, [], ◌∷◌};
ghost use Rattle.sbx_directives.specs.Directives.{integer_in, natural_in, range_of, coefficient, plain_name, slot};
ghost use Rattle.sbx_directives.specs.Directives.{location, behind};

use crate::directive::{Name, text_of};
use crate::operand::{Operand, next_operand, one};
use sbx_image::Range;
use sbx_text::Token;
use v8_syntax::is_same;

/// A number from `low` to `high`.
#[tactic(auto, unfolding(crate::specs::Directives::integer_in))]
pub fn integer_in(low: i64, high: i64, operand: Operand) -> Option<i64>
    ensures value { result ≡ integer_in low high operand }
    ensures least { IfSome result (λ z. low ≤ℤ z) }
    ensures greatest { IfSome result (λ z. z ≤ℤ high) }
{
    match operand {
        Operand::Number(number) if i128::from(low) <= number && number <= i128::from(high) => {
            Some(number as i64)
        }
        _ => None,
    }
}

/// A number that is not negative, from `low` to `high`.
#[tactic(auto, unfolding(crate::specs::Directives::natural_in))]
pub fn natural_in(low: u64, high: u64, operand: Operand) -> Option<u64>
    ensures value { result ≡ natural_in low high operand }
    ensures greatest { IfSome result (λ n. n ≤ high) }
{
    match operand {
        Operand::Number(number) if i128::from(low) <= number && number <= i128::from(high) => {
            Some(number as u64)
        }
        _ => None,
    }
}

/// A number of 32 bits, signed.
pub fn signed_word(operand: Operand) -> Option<i32>
    ensures { result ≡ integer_in (negsuc 2147483647) (pos 2147483647) operand }
{
    let number = integer_in(-0x8000_0000, 0x7fff_ffff, operand)?;
    Some(number as i32)
}

/// The range that `LO,HI,AL` are, `LO` at most `HI`.
#[tactic(auto, unfolding(crate::specs::Directives::range_of))]
fn range_with(low: Operand, high: Operand, alignment: Operand) -> Option<Range>
    ensures { result ≡ range_of (low ∷ high ∷ alignment ∷ []) }
{
    let lo = signed_word(low)?;
    let hi = signed_word(high)?;
    let alignment = natural_in(0, 3, alignment)? as u8;
    (lo <= hi).then_some(Range { lo, hi, alignment })
}

/// `LO,HI,AL` behind a first token, `LO` at most `HI`.
#[tactic(auto, unfolding(crate::specs::Directives::range_of))]
pub fn range_of(line: &[u8], tokens: &[Token]) -> Option<Range>
    ensures { result ≡ range_of (behind line.now tokens.now) }
{
    let Some((low, rest)) = next_operand(line, tokens) else {
        return None;
    };
    let Some((high, rest)) = next_operand(line, rest) else {
        return None;
    };
    range_with(low, high, one(line, rest)?)
}

/// Any number of 32 bits but 0, signed.
pub fn coefficient(operand: Operand) -> Option<i32>
    ensures { result ≡ coefficient operand }
{
    let number = signed_word(operand)?;
    (number != 0).then_some(number)
}

/// A name alone.
pub fn plain_name(operand: Operand) -> Option<Name>
    ensures { result ≡ plain_name operand }
{
    match operand {
        Operand::Name(name) => Some(name),
        _ => None,
    }
}

/// The location of the frame word `slot k`.
fn slot(name: &[u8], number: u64) -> Option<u16>
    ensures { result ≡ slot name.now number }
{
    if is_same(name, b"slot") && number <= 1007 {
        Some(32 + number as u16)
    } else {
        None
    }
}

/// A register but %g0, or a frame word.
#[tactic(auto, unfolding(crate::specs::Directives::location))]
pub fn location(line: &[u8], operand: Operand) -> Option<u16>
    ensures { result ≡ location line.now operand }
{
    match operand {
        Operand::Register(register) => {
            let register = u16::from(register.number());
            (register != 0).then_some(register)
        }
        Operand::Counted(name, number) => slot(text_of(line, name), number),
        Operand::Difference(name, number) => {
            if number == 0 {
                slot(text_of(line, name), number)
            } else {
                None
            }
        }
        _ => None,
    }
}

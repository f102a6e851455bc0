//! Results and condition codes.
ghost use Rattle.std.specs.Prelude.{◌<◌};

/// N, Z, V and C in bits 3 to 0.
#[inline(always)]
pub fn logic_codes(value: u32) -> u32 {
    ((value >> 31) << 3) | (u32::from(value == 0) << 2)
}

#[inline(always)]
pub fn sum(a: u32, b: u32, carry: u32) -> (u32, u32) {
    let exact = u64::from(a) + u64::from(b) + u64::from(carry);
    let value = (exact & 0xFFFF_FFFF) as u32;
    let overflow = ((a ^ value) & (b ^ value)) >> 31;
    let carried = ((exact >> 32) & 1) as u32;
    (value, logic_codes(value) | (overflow << 1) | carried)
}

#[inline(always)]
pub fn difference(a: u32, b: u32, borrow: u32) -> (u32, u32) {
    let value = a.wrapping_sub(b).wrapping_sub(borrow);
    let overflow = ((a ^ b) & (a ^ value)) >> 31;
    let borrowed = u32::from(u64::from(a) < u64::from(b) + u64::from(borrow));
    (value, logic_codes(value) | (overflow << 1) | borrowed)
}

/// A product's high and low words.
#[inline(always)]
pub fn product(signed: bool, a: u32, b: u32) -> (u32, u32) {
    let exact = u64::from(a) * u64::from(b);
    let (high, low) = ((exact >> 32) as u32, (exact & 0xFFFF_FFFF) as u32);
    if !signed {
        return (high, low);
    }
    let of_a = if a >> 31 == 1 { b } else { 0 };
    let of_b = if b >> 31 == 1 { a } else { 0 };
    (high.wrapping_sub(of_a).wrapping_sub(of_b), low)
}

/// A quotient of 64 bits by a word that isn't 0, and whether it fits no word.
#[inline(always)]
pub fn quotient(signed: bool, y: u32, a: u32, b: u32) -> (u32, bool)
    requires { 0 < b }
{
    let dividend = (u64::from(y) << 32) | u64::from(a);
    if !signed {
        let exact = dividend / u64::from(b);
        return if exact > 0xFFFF_FFFF {
            (u32::MAX, true)
        } else {
            (exact as u32, false)
        };
    }
    let negative = (y ^ b) >> 31 == 1;
    let magnitude = size(dividend)
        / u64::from(if b >> 31 == 1 {
            0u32.wrapping_sub(b)
        } else {
            b
        });
    let most = if negative { 0x8000_0000 } else { 0x7FFF_FFFF };
    let value = magnitude.min(most) as u32;
    let value = if negative {
        0u32.wrapping_sub(value)
    } else {
        value
    };
    (value, magnitude > most)
}

/// How far a signed number is from 0.
#[inline(always)]
fn size(number: u64) -> u64 {
    if number >> 63 == 1 {
        0u64.wrapping_sub(number)
    } else {
        number
    }
}

/// A field of so many bits as a signed number.
#[inline(always)]
pub fn signed_field(field: u32, sign: u32) -> u32 {
    (field ^ sign).wrapping_sub(sign)
}

#[inline(always)]
pub fn shifted_right(a: u32, count: u32) -> u32 {
    let count = count & 31;
    let fill = if a >> 31 == 1 {
        !(u32::MAX >> count)
    } else {
        0
    };
    (a >> count) | fill
}

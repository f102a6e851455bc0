// What the operands of a form are in a word.
ghost use Rattle.std.specs.Prelude.{◌≡◌, ℕ, ◌+◌, ◌-◌, ◌*◌, ◌/◌, ◌%◌, ◌^◌, ◌<◌, ◌≤◌, List, map, MatchOption, None, Some};
ghost use Rattle.std.specs.List.{find};
ghost use Rattle.v8_word.specs.Word.{bits_of};
ghost use Rattle.v8_forms.specs.Forms.{form_of, plus};
ghost use Rattle.v8_forms.specs.Text.{annuls, condition_in, far, filled, is_word_of, near, native_of, number_in};
ghost use Rattle.v8_forms.specs.Text.{operand_in, register_in, special_in, value, values};

use crate::bits::{
    annul_bit, elsewhere_bits, low_bits, operand_bits, scale, special_number, sum_bits,
};
use crate::part::{Field, Part, Range, Special};
use crate::rows::{Row, natives};
use v8_formats::Operand;
use v8_word::{Reg, bits_of, flag_at, reg_at, simm13};

/// A register of the word.
pub fn register_in(field: Field, word: u32) -> Reg
    ensures { result ≡ register_in field word }
{
    match field {
        Field::Rd => reg_at(word, 25),
        Field::Rs1 | Field::Rs1AndRd => reg_at(word, 14),
        Field::Rs2 | Field::Rs2AndRd => reg_at(word, 0),
    }
}

/// The state register of the word.
pub fn special_in(word: u32) -> Special
    ensures { result ≡ special_in word }
{
    match bits_of(word, 19, 2) {
        0 => Special::Y,
        1 => Special::Psr,
        2 => Special::Wim,
        _ => Special::Tbr,
    }
}

/// A number of the word.
pub fn number_in(range: Range, word: u32) -> u32
    ensures { result ≡ number_in range word }
{
    match range {
        Range::Signed => simm13(word),
        Range::Count => bits_of(word, 0, 5),
        Range::Trap => bits_of(word, 0, 7),
        Range::High => bits_of(word, 0, 22),
        Range::Space => space_in(word),
        Range::Whole => word,
    }
}

/// The address space of the word.
pub fn space_in(word: u32) -> u32
    ensures value { result ≡ bits_of word 5 8 }
    ensures bound { result < 2 ^ 8 }
{
    bits_of(word, 5, 8)
}

/// The second operand of the word.
pub fn operand_in(range: Range, word: u32) -> Operand
    ensures { result ≡ operand_in range word }
{
    if bits_of(word, 13, 1) == 1 {
        Operand::Immediate(number_in(range, word))
    } else {
        Operand::Register(reg_at(word, 0))
    }
}

/// The displacement of a branch.
pub fn near(word: u32) -> u32
    ensures { result ≡ near word }
{
    let field = bits_of(word, 0, 22);
    if field < 0x20_0000 {
        field
    } else {
        field + 0xffc0_0000
    }
}

/// The displacement of a call.
pub fn far(word: u32) -> u32
    ensures { result ≡ far word }
{
    let field = bits_of(word, 0, 30);
    if field < 0x2000_0000 {
        field
    } else {
        field + 0xc000_0000
    }
}

/// Whether a branch annuls.
pub fn annuls(word: u32) -> bool
    ensures { result ≡ annuls word }
{
    bits_of(word, 29, 1) == 1
}

fn value(part: &Part, word: u32) -> u32
    ensures { result ≡ value part.now word }
{
    match part {
        Part::Register(field) => { u32::from(register_in(*field, word).number()) * scale(*field) }
        Part::State => special_number(special_in(word)) * 0x8_0000,
        Part::Second(range) => operand_bits(&operand_in(*range, word)),
        Part::Address(range) => sum_bits(reg_at(word, 14), &operand_in(*range, word)),
        Part::Memory => sum_bits(reg_at(word, 14), &operand_in(Range::Signed, word)),
        Part::Elsewhere => elsewhere_bits(reg_at(word, 14), reg_at(word, 0), space_in(word)),
        Part::Number(range) => low_bits(*range, number_in(*range, word)),
        Part::Call => far(word) % 0x4000_0000,
        Part::Branch => annul_bit(annuls(word)) + near(word) % 0x40_0000,
    }
}

fn values(parts: &[Part], word: u32) -> u32
    ensures { result ≡ values parts.now word }
{
    match parts.split_first() {
        Some((part, others)) => value(part, word).wrapping_add(values(others, word)),
        None => 0,
    }
}

/// The number of the condition of a word.
pub fn condition_in(row: &Row, word: u32) -> u32
    ensures value { result ≡ condition_in (form_of row.now) word }
    ensures bound { result < 16 }
{
    if row.conditional {
        bits_of(word, 25, 4)
    } else {
        0
    }
}

/// The word of a form with a condition, and with what its operands fill.
pub fn filled(row: &Row, condition: u32, operands: u32) -> u32
    requires { condition < 16 }
    ensures { result ≡ filled (form_of row.now) condition operands }
{
    row.word
        .wrapping_add((condition * 0x200_0000).wrapping_add(operands))
}

fn is_word_of(row: &Row, word: u32) -> bool
    ensures { result ≡ is_word_of (form_of row.now) word }
{
    filled(row, condition_in(row, word), values(row.parts, word)) == word
}

fn first_with(rows: &[Row], word: u32) -> Option<Row>
    ensures { MatchOption result (find (λ f. is_word_of f word) (map form_of rows.now) ≡ None)
        (λ r. find (λ f. is_word_of f word) (map form_of rows.now) ≡ Some (form_of r)) }
{
    match rows.split_first() {
        Some((row, others)) => {
            if is_word_of(row, word) {
                Some(*row)
            } else {
                first_with(others, word)
            }
        }
        None => None,
    }
}

/// The form of a word, if it is an instruction's.
#[tactic(auto, unfolding(crate::specs::Text::native_of))]
pub fn native_of(word: u32) -> Option<Row>
    ensures { MatchOption result (native_of word ≡ None) (λ r. native_of word ≡ Some (form_of r)) }
{
    first_with(natives(), word)
}

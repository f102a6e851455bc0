// The text of an instruction.
ghost use Rattle.std.specs.Prelude.{◌≡◌, ℕ, ◌+◌, ◌-◌, ◌*◌, ◌/◌, ◌%◌, ◌^◌, ◌<◌, ◌≤◌, ◌++◌, ◌∷◌, [], length, codes, true};
ghost use Rattle.std.specs.Fmt.{decimal, digit_glyph};
ghost use Rattle.arrayvec.specs.ArrayString.{array_string_len};
ghost use Rattle.v8_formats.specs.Spelling.{spelling};
ghost use Rattle.v8_formats.specs.declared.instr.Operand.TheVariants as operands;
ghost use Rattle.v8_forms.specs.Forms.{form_of};
ghost use Rattle.v8_forms.specs.Text.{group_text, register_text, special_text, signed_text, offset_text, operand_text};
ghost use Rattle.v8_forms.specs.Text.{address_text, memory_text, target_text, part_text, lead_text, behind_text};
ghost use Rattle.v8_forms.specs.Text.{operands_text, suffix_text, form_text, hexadecimal, text_of};

use crate::fields::{
    annuls, far, native_of, near, number_in, operand_in, register_in, space_in, special_in,
};
use crate::part::{Part, Range, Special};
use crate::rows::{Row, suffix};
use arrayvec::ArrayString;
use v8_formats::{Instr, Operand, encode};
use v8_word::{Reg, bits_of, reg_at};

fn push_digit(out: &mut ArrayString<64>, digit: u32)
    requires room { array_string_len out.old + 1 ≤ 64 }
    requires small { digit < 16 }
    ensures bytes { out.new.bytes ≡ out.old.bytes ++ digit_glyph true digit ∷ [] }
    ensures len { array_string_len out.new ≡ array_string_len out.old + 1 }
{
    let glyph = if digit < 10 { 48 + digit } else { 55 + digit };
    out.push((glyph as u8) as char);
}

#[tactic(auto, using(crate::proofs::Decimal::decimal_laws))]
fn push_digits(out: &mut ArrayString<64>, n: u32)
    requires { array_string_len out.old + length (decimal n) ≤ 64 }
    ensures bytes { out.new.bytes ≡ out.old.bytes ++ decimal n }
    ensures len { array_string_len out.new ≡ array_string_len out.old + length (decimal n) }
{
    if n < 10 {
        push_digit(out, n)
    } else {
        push_digits(out, n / 10);
        push_digit(out, n % 10)
    }
}

#[tactic(auto, using(crate::proofs::Decimal::decimal_laws))]
fn push_decimal(out: &mut ArrayString<64>, n: u32)
    requires { array_string_len out.old + 10 ≤ 64 }
    ensures bytes { out.new.bytes ≡ out.old.bytes ++ decimal n }
    ensures grows { array_string_len out.new ≤ array_string_len out.old + 10 }
{
    push_digits(out, n)
}

fn group_text(group: u8) -> &'static str
    ensures text { result.now ≡ group_text group }
    ensures len { length result.now ≡ 2 }
{
    match group {
        0 => "%g",
        1 => "%o",
        2 => "%l",
        _ => "%i",
    }
}

fn push_grouped(out: &mut ArrayString<64>, number: u8)
    requires room { array_string_len out.old + 3 ≤ 64 }
    ensures bytes { out.new.bytes ≡ out.old.bytes ++ (group_text (number / 8) ++ (48 + number % 8) ∷ []) }
    ensures grows { array_string_len out.new ≤ array_string_len out.old + 3 }
{
    out.push_str(group_text(number / 8));
    push_digit(out, u32::from(number % 8));
}

fn push_register(out: &mut ArrayString<64>, register: Reg)
    requires { array_string_len out.old + 3 ≤ 64 }
    ensures bytes { out.new.bytes ≡ out.old.bytes ++ register_text register }
    ensures grows { array_string_len out.new ≤ array_string_len out.old + 3 }
{
    match register.number() {
        14 => out.push_str("%sp"),
        30 => out.push_str("%fp"),
        number => push_grouped(out, number),
    }
}

fn special_text(special: Special) -> &'static str
    ensures text { result.now ≡ special_text special }
    ensures short { length result.now ≤ 4 }
{
    match special {
        Special::Y => "%y",
        Special::Psr => "%psr",
        Special::Wim => "%wim",
        Special::Tbr => "%tbr",
    }
}

fn push_signed(out: &mut ArrayString<64>, word: u32)
    requires { array_string_len out.old + 11 ≤ 64 }
    ensures bytes { out.new.bytes ≡ out.old.bytes ++ signed_text word }
    ensures grows { array_string_len out.new ≤ array_string_len out.old + 11 }
{
    if word < 0x8000_0000 {
        push_decimal(out, word)
    } else {
        out.push_str("-");
        push_decimal(out, 0u32.wrapping_sub(word))
    }
}

fn push_offset(out: &mut ArrayString<64>, word: u32)
    requires { array_string_len out.old + 11 ≤ 64 }
    ensures bytes { out.new.bytes ≡ out.old.bytes ++ offset_text word }
    ensures grows { array_string_len out.new ≤ array_string_len out.old + 11 }
{
    if word < 0x8000_0000 {
        out.push_str("+");
        push_decimal(out, word)
    } else {
        out.push_str("-");
        push_decimal(out, 0u32.wrapping_sub(word))
    }
}

fn push_operand(out: &mut ArrayString<64>, operand: &Operand)
    requires { array_string_len out.old + 11 ≤ 64 }
    ensures bytes { out.new.bytes ≡ out.old.bytes ++ operand_text operand.now }
    ensures grows { array_string_len out.new ≤ array_string_len out.old + 11 }
{
    match operand {
        Operand::Register(rs2) => push_register(out, *rs2),
        Operand::Immediate(word) => push_signed(out, *word),
    }
}

fn push_address(out: &mut ArrayString<64>, rs1: Reg, operand2: &Operand)
    requires { array_string_len out.old + 14 ≤ 64 }
    ensures bytes { out.new.bytes ≡ out.old.bytes ++ address_text rs1 operand2.now }
    ensures grows { array_string_len out.new ≤ array_string_len out.old + 14 }
{
    push_register(out, rs1);
    match operand2 {
        Operand::Register(rs2) => {
            out.push_str("+");
            push_register(out, *rs2)
        }
        Operand::Immediate(word) => push_offset(out, *word),
    }
}

fn push_memory(out: &mut ArrayString<64>, rs1: Reg, operand2: &Operand)
    requires { array_string_len out.old + 16 ≤ 64 }
    ensures bytes { out.new.bytes ≡ out.old.bytes ++ memory_text rs1 operand2.now }
    ensures grows { array_string_len out.new ≤ array_string_len out.old + 16 }
{
    out.push_str("[");
    push_address(out, rs1, operand2);
    out.push_str("]");
}

fn push_target(out: &mut ArrayString<64>, displacement: u32)
    requires { array_string_len out.old + 12 ≤ 64 }
    ensures bytes { out.new.bytes ≡ out.old.bytes ++ target_text displacement }
    ensures grows { array_string_len out.new ≤ array_string_len out.old + 12 }
{
    out.push_str(".");
    push_offset(out, displacement.wrapping_mul(4));
}

#[tactic(auto, using(crate::proofs::Decimal::decimal_laws))]
fn push_elsewhere(out: &mut ArrayString<64>, rs1: Reg, rs2: Reg, asi: u32)
    requires room { array_string_len out.old + 16 ≤ 64 }
    requires small { asi < 2 ^ 8 }
    ensures bytes { out.new.bytes ≡ out.old.bytes ++ (memory_text rs1 (operands.Register rs2) ++ codes " " ++ decimal asi) }
    ensures grows { array_string_len out.new ≤ array_string_len out.old + 16 }
{
    out.push_str("[");
    push_register(out, rs1);
    out.push_str("+");
    push_register(out, rs2);
    out.push_str("] ");
    push_digits(out, asi)
}

#[tactic(auto, using(crate::proofs::Decimal::decimal_laws))]
fn push_part(out: &mut ArrayString<64>, part: &Part, word: u32)
    requires { array_string_len out.old + 16 ≤ 64 }
    ensures bytes { out.new.bytes ≡ out.old.bytes ++ part_text part.now word }
    ensures grows { array_string_len out.new ≤ array_string_len out.old + 16 }
{
    match part {
        Part::Register(field) => push_register(out, register_in(*field, word)),
        Part::State => out.push_str(special_text(special_in(word))),
        Part::Second(range) => push_operand(out, &operand_in(*range, word)),
        Part::Address(range) => push_address(out, reg_at(word, 14), &operand_in(*range, word)),
        Part::Memory => push_memory(out, reg_at(word, 14), &operand_in(Range::Signed, word)),
        Part::Elsewhere => push_elsewhere(out, reg_at(word, 14), reg_at(word, 0), space_in(word)),
        Part::Number(range) => push_decimal(out, number_in(*range, word)),
        Part::Call => push_target(out, far(word)),
        Part::Branch => push_target(out, near(word)),
    }
}

fn lead_text(part: &Part, word: u32) -> &'static str
    ensures text { result.now ≡ lead_text part.now word }
    ensures short { length result.now ≤ 3 }
{
    match part {
        Part::Branch if annuls(word) => ",a ",
        _ => " ",
    }
}

fn push_behind(out: &mut ArrayString<64>, parts: &[Part], word: u32)
    requires { array_string_len out.old + 17 * length parts.now ≤ 64 }
    ensures bytes { out.new.bytes ≡ out.old.bytes ++ behind_text parts.now word }
{
    if let Some((part, others)) = parts.split_first() {
        out.push_str(",");
        push_part(out, part, word);
        push_behind(out, others, word);
    }
}

fn push_operands(out: &mut ArrayString<64>, parts: &[Part], word: u32)
    requires { array_string_len out.old + 2 + 17 * length parts.now ≤ 64 }
    ensures bytes { out.new.bytes ≡ out.old.bytes ++ operands_text parts.now word }
{
    if let Some((part, others)) = parts.split_first() {
        out.push_str(lead_text(part, word));
        push_part(out, part, word);
        push_behind(out, others, word);
    }
}

/// Pushes the eight hexadecimal digits of a word, 0 to 9 and A to F.
pub fn push_hexadecimal(out: &mut ArrayString<64>, word: u32)
    requires room { array_string_len out.old + 8 ≤ 64 }
    ensures bytes { out.new.bytes ≡ out.old.bytes ++ hexadecimal word }
    ensures len { array_string_len out.new ≡ array_string_len out.old + 8 }
{
    push_digit(out, word / 0x1000_0000 % 16);
    push_digit(out, word / 0x100_0000 % 16);
    push_digit(out, word / 0x10_0000 % 16);
    push_digit(out, word / 0x1_0000 % 16);
    push_digit(out, word / 0x1000 % 16);
    push_digit(out, word / 0x100 % 16);
    push_digit(out, word / 0x10 % 16);
    push_digit(out, word % 16);
}

fn push_word(out: &mut ArrayString<64>, word: u32)
    requires { array_string_len out.old + 16 ≤ 64 }
    ensures bytes { out.new.bytes ≡ out.old.bytes ++ (codes ".word 0x" ++ hexadecimal word) }
{
    out.push_str(".word 0x");
    push_hexadecimal(out, word);
}

/// The suffix of the condition of a word, where its form has one.
fn suffix_text(conditional: bool, word: u32) -> &'static str
    ensures text { result.now ≡ suffix_text conditional word }
    ensures short { length result.now ≤ 3 }
{
    if conditional {
        suffix(bits_of(word, 25, 4))
    } else {
        ""
    }
}

/// The text of a word of a form.
fn push_form(out: &mut ArrayString<64>, row: &Row, word: u32)
    requires empty { out.old.bytes ≡ [] }
    requires room { length row.now.name.now + 5 + 17 * length row.now.parts.now ≤ 64 }
    ensures { out.new.bytes ≡ form_text (form_of row.now) word }
{
    out.push_str(row.name);
    out.push_str(suffix_text(row.conditional, word));
    push_operands(out, row.parts, word);
}

/// The text of an instruction, in the place of what `out` held (appendix A): decimal numbers, targets as `.+N` and
/// `.-N` in bytes, no synthetic form. A word without syntax is `.word 0x` and eight digits. It takes no memory and
/// always fits.
#[tactic(auto, unfolding(crate::specs::Text::text_of))]
pub fn print_instr(instr: &Instr, out: &mut ArrayString<64>)
    ensures { out.new.bytes ≡ text_of instr.now }
{
    out.clear();
    let word = encode(instr);
    match native_of(word) {
        Some(row) => push_form(out, &row, word),
        None => push_word(out, word),
    }
}

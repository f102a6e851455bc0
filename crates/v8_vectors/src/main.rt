//! Compares results and words with those of other tools, a line each on standard input: prints each line that differs,
//! and how many agree. Which tools gave them is told at `results` and `words`.
//!
//! A line with a tab has words in hexadecimal before it, and the statement that they were made of behind it. Any other
//! is `op a b icc y value icc y`: the operation, its operands, the codes and Y before it, and the value, the codes and
//! Y after it, in hexadecimal; codes are one digit, N 8, Z 4, V 2, C 1.
#![tactic(auto)]

ghost use Rattle.std.specs.Prelude.{◌≡◌, ◌^◌, ◌<◌, ◌≤◌, ◌↔◌, IfOk, IfSome, IsNone, IsTrue, MatchOption};
ghost use Rattle.std.specs.Option.{SomeIff};
ghost use Rattle.std.specs.Str.Parse.{IsNumeral, digits_value};
ghost use Rattle.v8_vectors.specs.Pieces.{ArePieces, AreSpelledAgain, AreWords, digit_of};

mod results;
mod words;

use results::{Case, Operation};
use std::alloc::{AllocError, Global};
use std::io::{self, BufRead};
use v8_alu::{AluOut, Division, Op, TaggedOp};
use v8_word::{Icc, flag_at};
use words::is_spelled_again;

/// The word that a text spells by hexadecimal digits alone; none where it has more than 32 bits.
fn hexadecimal(text: &str) -> Option<u32>
    ensures { SomeIff result (IsNumeral 16 text.now × (digits_value 16 text.now < 2 ^ 32))
        (digits_value 16 text.now) }
{
    if text.as_bytes().first() == Some(&b'+') {
        return None;
    }
    u32::from_str_radix(text, 16).ok()
}

/// The condition codes that a digit spells.
#[tactic(auto, using(crate::proofs::Readings::digit_of_flags))]
fn codes(digit: u32) -> Option<Icc>
    ensures { MatchOption result (16 ≤ digit) (λ icc. digit_of icc ≡ digit) }
{
    (digit < 16).then_some(Icc {
        n: flag_at(digit, 3),
        z: flag_at(digit, 2),
        v: flag_at(digit, 1),
        c: flag_at(digit, 0),
    })
}

/// The operations, by their names.
const OPERATIONS: [(&str, Operation); 34] = [
    ("add", Operation::Plain(Op::Add)),
    ("addcc", Operation::Plain(Op::AddCc)),
    ("addx", Operation::Plain(Op::Addx)),
    ("addxcc", Operation::Plain(Op::AddxCc)),
    ("sub", Operation::Plain(Op::Sub)),
    ("subcc", Operation::Plain(Op::SubCc)),
    ("subx", Operation::Plain(Op::Subx)),
    ("subxcc", Operation::Plain(Op::SubxCc)),
    ("and", Operation::Plain(Op::And)),
    ("andcc", Operation::Plain(Op::AndCc)),
    ("andn", Operation::Plain(Op::Andn)),
    ("andncc", Operation::Plain(Op::AndnCc)),
    ("or", Operation::Plain(Op::Or)),
    ("orcc", Operation::Plain(Op::OrCc)),
    ("orn", Operation::Plain(Op::Orn)),
    ("orncc", Operation::Plain(Op::OrnCc)),
    ("xor", Operation::Plain(Op::Xor)),
    ("xorcc", Operation::Plain(Op::XorCc)),
    ("xnor", Operation::Plain(Op::Xnor)),
    ("xnorcc", Operation::Plain(Op::XnorCc)),
    ("sll", Operation::Plain(Op::Sll)),
    ("srl", Operation::Plain(Op::Srl)),
    ("sra", Operation::Plain(Op::Sra)),
    ("umul", Operation::Plain(Op::Umul)),
    ("umulcc", Operation::Plain(Op::UmulCc)),
    ("smul", Operation::Plain(Op::Smul)),
    ("smulcc", Operation::Plain(Op::SmulCc)),
    ("mulscc", Operation::Plain(Op::MulsCc)),
    ("udiv", Operation::Quotient(Division::Udiv)),
    ("udivcc", Operation::Quotient(Division::UdivCc)),
    ("sdiv", Operation::Quotient(Division::Sdiv)),
    ("sdivcc", Operation::Quotient(Division::SdivCc)),
    ("taddcc", Operation::Tagged(TaggedOp::TaggedAdd)),
    ("tsubcc", Operation::Tagged(TaggedOp::TaggedSub)),
];

/// The operation of this name.
fn operation(name: &str) -> Option<Operation> {
    for (known, operation) in &OPERATIONS {
        if *known == name {
            return Some(*operation);
        }
    }
    None
}

/// The condition codes that a field spells.
fn codes_in(field: &str) -> Option<Icc> {
    codes(hexadecimal(field)?)
}

/// What was left, by the last three fields of a line; none if they aren't read.
fn left(value: &str, icc: &str, y: &str) -> Option<AluOut> {
    match (hexadecimal(value), codes_in(icc), hexadecimal(y)) {
        (Some(value), Some(icc), Some(y)) => Some(AluOut { value, icc, y }),
        _ => None,
    }
}

/// The case of a line's eight fields; none if they aren't read.
fn case_of(fields: &[&str]) -> Option<Case> {
    let [name, a, b, icc, y, value, icc_after, y_after] = fields else {
        return None;
    };
    let there = left(value, icc_after, y_after)?;
    let operation = operation(name)?;
    match (
        hexadecimal(a),
        hexadecimal(b),
        codes_in(icc),
        hexadecimal(y),
    ) {
        (Some(a), Some(b), Some(icc), Some(y)) => Some(Case {
            operation,
            a,
            b,
            icc,
            y,
            there,
        }),
        _ => None,
    }
}

/// Whether each word is an instruction that is spelled so; none if one isn't read, or there is none.
fn words_agree(words: &[&str]) -> Option<bool>
    ensures none { IsNone result ↔ ¬ AreWords words.now }
    ensures some { IfSome result (λ all. IsTrue all ↔ AreSpelledAgain words.now) }
{
    if words.is_empty() {
        return None;
    }
    let mut all = true;
    for text in words {
        all &= is_spelled_again(hexadecimal(text)?);
    }
    Some(all)
}

/// The pieces of a text between white space.
fn pieces(alloc: Global, text: &str) -> Result<Vec<&str>, AllocError>
    ensures { IfOk result (λ found. ArePieces text.now found.items) }
{
    let mut found = Vec::new(alloc);
    for piece in text.split_whitespace() {
        found.push(piece)?;
    }
    Ok(found)
}

/// Whether the case of a line's fields holds; none if they aren't read.
fn case_agrees(fields: &[&str]) -> Option<bool> {
    Some(case_of(fields)?.holds())
}

/// Whether a line agrees; none if it isn't read.
fn agrees(alloc: Global, line: &str) -> Result<Option<bool>, AllocError> {
    match line.split_once('\t') {
        Some((spelled, _)) => Ok(words_agree(&pieces(alloc, spelled)?)),
        None => Ok(case_agrees(&pieces(alloc, line)?)),
    }
}

/// Whether a line agrees. One that doesn't is printed.
fn compare(rt: &HostRuntime, line: &str) -> io::Result<bool> {
    let told = match agrees(rt.alloc(), line)? {
        Some(true) => return Ok(true),
        Some(false) => "differs",
        None => "not read",
    };
    println!(rt; "{told}: {line}")?;
    Ok(false)
}

/// Compares the lines of a reader, and gives how many agree, and how many there are. The reader's type stays open here,
/// so that what stands in it takes no part in the proof.
fn compare_lines<R: BufRead + Drop>(rt: &HostRuntime, reader: R) -> io::Result<(u64, u64)> {
    let mut agreed = 0u64;
    let mut lines = 0u64;
    for line in reader.lines(rt.alloc()) {
        lines = lines.saturating_add(1);
        if compare(rt, line?.as_str())? {
            agreed = agreed.saturating_add(1);
        }
    }
    Ok((agreed, lines))
}

fn main(rt: HostRuntime) -> io::Result<()> {
    let (agreed, lines) = compare_lines(&rt, rt.reader())?;
    println!(rt; "{agreed} of {lines} lines agree")
}

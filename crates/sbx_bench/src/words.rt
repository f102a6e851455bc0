//! Words that are decoded and encoded again, and operations whose results are computed.

use v8_alu::{Op, alu};
use v8_formats::{decode, encode};
use v8_word::Icc;

/// What is done with words, those of a linear congruential generator.
#[derive(Clone, Copy)]
pub enum Work {
    /// Each is decoded, and encoded again.
    Words,
    /// Each is an operand of an operation, which takes what the one before gave.
    Results,
}

const OPERATIONS: [Op; 30] = [
    Op::Add,
    Op::AddCc,
    Op::Addx,
    Op::AddxCc,
    Op::Sub,
    Op::SubCc,
    Op::Subx,
    Op::SubxCc,
    Op::And,
    Op::AndCc,
    Op::Andn,
    Op::AndnCc,
    Op::Or,
    Op::OrCc,
    Op::Orn,
    Op::OrnCc,
    Op::Xor,
    Op::XorCc,
    Op::Xnor,
    Op::XnorCc,
    Op::Sll,
    Op::Srl,
    Op::Sra,
    Op::Umul,
    Op::UmulCc,
    Op::Smul,
    Op::SmulCc,
    Op::TaddCc,
    Op::TsubCc,
    Op::MulsCc,
];

/// The word after a word.
fn next(word: u32) -> u32 {
    word.wrapping_mul(1_664_525).wrapping_add(1_013_904_223)
}

/// A checksum of so many words, decoded and encoded again.
fn spelled_again(count: u64) -> u32 {
    let mut word = 1u32;
    let mut sum = 0u32;
    for _ in 0..count {
        word = next(word);
        sum = sum.wrapping_mul(31) ^ encode(&decode(word));
    }
    sum
}

/// A checksum of so many results.
fn computed(count: u64) -> u32 {
    let mut word = 1u32;
    let mut sum = 0u32;
    let mut icc = Icc::default();
    let mut y = 0u32;
    for _ in 0..count {
        word = next(word);
        let op = OPERATIONS[(word >> 24) as usize % OPERATIONS.len()];
        let out = alu(op, sum, word, icc, y);
        sum = out.value ^ word;
        icc = out.icc;
        y = out.y;
    }
    sum ^ y
}

impl Work {
    /// Does it with so many words, and gives a checksum.
    pub fn checksum(self, count: u64) -> u32 {
        match self {
            Work::Words => spelled_again(count),
            Work::Results => computed(count),
        }
    }
}

//! The table of ranges, by operations of the result table.
ghost use Rattle.std.specs.Prelude.{◌≡◌};
ghost use Rattle.sbx_range.specs.Rows.{range_divide};
ghost use Rattle.sbx_range.specs.Table.{is_computed, no_codes, range_of, range_of_address, range_of_tagged};
ghost use Rattle.sbx_range.specs.Table.{range_of_written_y, range_of_y, row_of, tagged_fits, writes_y};

use crate::bounds::{all, is_single, known, least_alignment, word_of};
use crate::logic::{range_and, range_andn, range_or, range_xor};
use crate::quotients::range_divide;
use crate::shifts::{range_sll, range_sra, range_srl};
use crate::sums::{differences_fit, range_add, range_smul, range_sub, range_umul, sums_fit};
use sbx_image::Range;
use v8_alu::{Icc, Op, TaggedOp, alu};

/// What LDUB and LDSTUB load.
pub const UNSIGNED_BYTE: Range = Range {
    lo: 0,
    hi: 255,
    alignment: 0,
};

/// What LDUH loads.
pub const UNSIGNED_HALF: Range = Range {
    lo: 0,
    hi: 65_535,
    alignment: 0,
};

/// What LDSB loads.
pub const SIGNED_BYTE: Range = Range {
    lo: -128,
    hi: 127,
    alignment: 0,
};

/// What LDSH loads.
pub const SIGNED_HALF: Range = Range {
    lo: -32_768,
    hi: 32_767,
    alignment: 0,
};

/// What the service get gives: a byte, or FFFFFFFF at the end of input.
pub const BYTE_OR_END: Range = Range {
    lo: -1,
    hi: 255,
    alignment: 0,
};

/// Whether an operation's result is computed where both operands are known words.
fn is_computed(op: Op) -> bool
    ensures { result ≡ is_computed op }
{
    matches!(
        op,
        Op::Add
            | Op::AddCc
            | Op::Sub
            | Op::SubCc
            | Op::And
            | Op::AndCc
            | Op::Andn
            | Op::AndnCc
            | Op::Or
            | Op::OrCc
            | Op::Orn
            | Op::OrnCc
            | Op::Xor
            | Op::XorCc
            | Op::Xnor
            | Op::XnorCc
            | Op::Sll
            | Op::Srl
            | Op::Sra
    )
}

#[tactic(auto, unfolding(crate::specs::Table::row_of))]
fn row_of(op: Op, a: Range, b: Range) -> Range
    ensures { result ≡ row_of op a b }
{
    match op {
        Op::Add | Op::AddCc | Op::TaddCc => range_add(a, b),
        Op::Sub | Op::SubCc | Op::TsubCc => range_sub(a, b),
        Op::Or | Op::OrCc => range_or(a, b),
        Op::Xor | Op::XorCc => range_xor(a, b),
        Op::And | Op::AndCc => range_and(a, b),
        Op::Andn | Op::AndnCc => range_andn(a),
        Op::Sll => range_sll(a, b),
        Op::Srl => range_srl(a, b),
        Op::Sra => range_sra(a, b),
        Op::Smul | Op::SmulCc => range_smul(a, b),
        Op::Umul | Op::UmulCc => range_umul(a, b),
        _ => all(0),
    }
}

const NO_CODES: Icc = Icc {
    n: false,
    z: false,
    v: false,
    c: false,
};

/// The range of what an operation leaves in its destination, by the ranges of its operands.
#[tactic(auto, unfolding(crate::specs::Table::range_of))]
pub fn range_of(op: Op, a: Range, b: Range) -> Range
    ensures { result ≡ range_of op a b }
{
    if is_computed(op) && (is_single(a) && is_single(b)) {
        known(alu(op, word_of(a), word_of(b), NO_CODES, 0).value)
    } else {
        row_of(op, a, b)
    }
}

/// The range of what TADDccTV or TSUBccTV leaves in its destination, where it has a result.
pub fn range_of_tagged(op: TaggedOp, a: Range, b: Range) -> Range
    ensures { result ≡ range_of_tagged op a b }
{
    match op {
        TaggedOp::TaggedAdd => range_add(a, b),
        TaggedOp::TaggedSub => range_sub(a, b),
    }
}

/// Whether TADDccTV or TSUBccTV has a result for all words of these ranges: the low two bits of both are 0, and no sum
/// or difference overflows.
pub fn tagged_fits(op: TaggedOp, a: Range, b: Range) -> bool
    ensures { result ≡ tagged_fits op a b }
{
    least_alignment(a, b) >= 2
        && match op {
            TaggedOp::TaggedAdd => sums_fit(a, b),
            TaggedOp::TaggedSub => differences_fit(a, b),
        }
}

/// The range of a division's quotient: of the word `a` below Y, by `b`.
pub fn range_of_division(y: Range, a: Range, b: Range) -> Range
    ensures { result ≡ range_divide y a b }
{
    range_divide(y, a, b)
}

/// The range of an address, the sum of two operands.
pub fn range_of_address(a: Range, b: Range) -> Range
    ensures { result ≡ range_of_address a b }
{
    range_of(Op::Add, a, b)
}

/// The range of Y after an operation: all words after multiplications and the multiply step, else as before.
pub fn range_of_y(op: Op, y: Range) -> Range
    ensures { result ≡ range_of_y op y }
{
    if matches!(
        op,
        Op::Umul | Op::UmulCc | Op::Smul | Op::SmulCc | Op::MulsCc
    ) {
        all(0)
    } else {
        y
    }
}

/// The range of Y after WRY: the XOR of two known words, else all words.
#[tactic(auto, unfolding(crate::specs::Table::range_of_written_y))]
pub fn range_of_written_y(a: Range, b: Range) -> Range
    ensures { result ≡ range_of_written_y a b }
{
    if is_single(a) && is_single(b) {
        known(alu(Op::Xor, word_of(a), word_of(b), NO_CODES, 0).value)
    } else {
        all(0)
    }
}

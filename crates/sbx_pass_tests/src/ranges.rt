//! The table of ranges, row by row, with its edges.
use crate::reading::{Table, are_so};
use sbx_range::{
    BYTE_OR_END, Range, SIGNED_HALF, all, differences_fit, excludes_zero, is_single, is_within,
    known, range_of_address, range_of_division, range_of_written_y, range_of_y, sums_fit,
    tagged_fits,
};
use v8_alu::{Op, TaggedOp};

const ADD: &str = "0 10 2  5 7 3  5 17 2
    0 2147483646 1  1 1 0  1 2147483647 0
    0 2147483647 1  1 1 1  -2147483648 2147483647 1
    -2147483648 0 2  -8 -8 3  -2147483648 2147483647 2
    5 5 0  3 3 0  8 8 3
    -2147483647 0 0  -1 -1 0  -2147483648 -1 0
    2147483647 2147483647 0  1 1 0  -2147483648 -2147483648 3";

const TADD_CC: &str = "4 4 2  4 4 2  8 8 2";

const ADDX: &str = "1 1 0  1 1 0  -2147483648 2147483647 0";

const SUB: &str = "10 20 2  1 5 1  5 19 1
    0 2147483646 0  -1 0 0  0 2147483647 0
    0 2147483647 0  -1 0 0  -2147483648 2147483647 0
    3 3 0  5 5 0  -2 -2 1
    -2147483647 0 0  0 1 0  -2147483648 0 0
    -2147483648 0 0  0 1 0  -2147483648 2147483647 0";

const TSUB_CC: &str = "8 8 3  4 4 2  4 4 2";

const SUBX_CC: &str = "1 1 0  1 1 0  -2147483648 2147483647 0";

const OR: &str = "0 0 3  -5 9 0  -5 9 0
    1 5 0  8 9 3  8 15 0
    0 2147483647 2  4 4 2  4 2147483647 2
    0 8 3  0 7 0  0 15 0
    0 7 0  1 2 0  1 7 0
    -1 5 1  1 2 1  -2147483648 2147483647 1
    5 5 0  3 3 0  7 7 0
    -5 9 1  0 0 3  -5 9 1";

const XOR: &str = "1 5 0  8 9 0  0 15 0
    0 2147483647 1  0 2147483647 1  0 2147483647 1
    0 5 0  -1 2 0  -2147483648 2147483647 0
    6 6 1  6 6 1  0 0 3
    0 1073741824 0  1 2 0  0 2147483647 0";

const AND: &str = "3 12 0  1 9 2  0 9 2
    -8 100 3  0 6 1  0 6 3
    -1 5 0  -1 9 2  -2147483648 2147483647 2
    -1 -1 0  12 12 2  12 12 2
    0 6 1  -8 100 3  0 6 3";

const ANDN: &str = "0 9 2  -4 4 0  0 9 2
    15 15 0  3 3 0  12 12 2
    -1 9 2  0 1 0  -2147483648 2147483647 2";

const ORN: &str = "0 0 3  0 0 3  -1 -1 0
    0 1 0  0 0 3  -2147483648 2147483647 0";

const XNOR: &str = "5 5 0  5 5 0  -1 -1 0
    4 8 2  4 4 2  -2147483648 2147483647 0";

const SLL: &str = "1 3 0  2 2 1  4 12 2
    -3 -1 0  4 4 2  -48 -16 3
    0 1073741823 0  1 1 0  0 2147483646 1
    0 1073741824 0  1 1 0  -2147483648 2147483647 1
    -1073741824 0 0  1 1 0  -2147483648 0 1
    -1073741825 0 0  1 1 0  -2147483648 2147483647 1
    1 2 0  33 33 0  2 4 1
    -1 0 0  -1 -1 0  -2147483648 0 3
    0 1 0  -1 -1 0  -2147483648 2147483647 3
    0 1 1  0 1 0  -2147483648 2147483647 1
    1 1 0  31 31 0  -2147483648 -2147483648 3";

const SRL: &str = "8 17 3  2 2 1  2 4 1
    -8 8 3  0 0 3  -8 8 3
    -8 8 3  1 1 0  0 2147483647 2
    -8 8 1  28 28 2  0 15 0
    -1 5 0  31 31 0  0 1 0
    0 9 3  1 2 0  0 9 0
    -1 9 3  1 2 0  -2147483648 2147483647 0
    -1 -1 0  28 28 2  15 15 0";

const SRA: &str = "-7 -1 0  1 1 0  -4 -1 0
    -8 7 3  2 2 1  -2 1 1
    -5 5 0  31 31 0  -1 0 0
    3 9 0  0 4 0  0 9 0
    -3 9 2  0 4 0  -2147483648 2147483647 0
    -7 -7 0  1 1 0  -4 -4 2";

const SMUL: &str = "-3 2 0  -5 7 0  -21 15 0
    4 8 2  4 8 2  16 64 3
    0 65536 0  0 32767 0  0 2147418112 0
    0 65536 0  0 32768 0  -2147483648 2147483647 0
    -65536 0 0  0 32768 0  -2147483648 0 0
    2 2 1  6 6 1  12 12 2
    -4 -2 1  -3 -1 0  2 12 1";

const UMUL: &str = "2 3 0  4 5 0  8 15 0
    0 65536 0  0 32768 0  -2147483648 2147483647 0
    -1 3 1  4 4 2  -2147483648 2147483647 3";

const MULS_CC: &str = "1 1 0  1 1 0  -2147483648 2147483647 0";

const QUOTIENTS: &str = "100 200 2  3 7 0  14 66 0
    0 2147483647 0  1 1 0  0 2147483647 0
    7 7 0  2 2 1  3 3 0
    -1 200 0  3 7 0  -2147483648 2147483647 0
    100 200 2  0 7 0  -2147483648 2147483647 0
    100 200 2  -7 -3 0  -2147483648 2147483647 0
    100 200 2  1 0 0  -2147483648 2147483647 0";

const TAGGED_ADD: &str = "0 8 2  4 8 3  4 16 2
    4 4 2  4 4 2  8 8 2";

const TAGGED_SUB: &str = "0 8 2  4 8 2  -8 4 2";

const ROWS_OF_SUMS_AND_DIFFERENCES: [(Table, &str); 8] = [
    (Table::Results(Op::Add), ADD),
    (Table::Results(Op::AddCc), ADD),
    (Table::Results(Op::TaddCc), TADD_CC),
    (Table::Results(Op::Addx), ADDX),
    (Table::Results(Op::Sub), SUB),
    (Table::Results(Op::SubCc), SUB),
    (Table::Results(Op::TsubCc), TSUB_CC),
    (Table::Results(Op::SubxCc), SUBX_CC),
];

#[test]
fn sums_and_differences(rt: HostRuntime) {
    are_so(&rt, &ROWS_OF_SUMS_AND_DIFFERENCES);
}

const ROWS_OF_BITS: [(Table, &str); 6] = [
    (Table::Results(Op::Or), OR),
    (Table::Results(Op::OrCc), OR),
    (Table::Results(Op::Xor), XOR),
    (Table::Results(Op::XorCc), XOR),
    (Table::Results(Op::And), AND),
    (Table::Results(Op::AndCc), AND),
];

#[test]
fn bits(rt: HostRuntime) {
    are_so(&rt, &ROWS_OF_BITS);
}

const ROWS_OF_COMPLEMENTS: [(Table, &str); 6] = [
    (Table::Results(Op::Andn), ANDN),
    (Table::Results(Op::AndnCc), ANDN),
    (Table::Results(Op::Orn), ORN),
    (Table::Results(Op::OrnCc), ORN),
    (Table::Results(Op::Xnor), XNOR),
    (Table::Results(Op::XnorCc), XNOR),
];

#[test]
fn complements(rt: HostRuntime) {
    are_so(&rt, &ROWS_OF_COMPLEMENTS);
}

const ROWS_OF_SHIFTS_AND_PRODUCTS: [(Table, &str); 8] = [
    (Table::Results(Op::Sll), SLL),
    (Table::Results(Op::Srl), SRL),
    (Table::Results(Op::Sra), SRA),
    (Table::Results(Op::Smul), SMUL),
    (Table::Results(Op::SmulCc), SMUL),
    (Table::Results(Op::Umul), UMUL),
    (Table::Results(Op::UmulCc), UMUL),
    (Table::Results(Op::MulsCc), MULS_CC),
];

#[test]
fn shifts_and_products(rt: HostRuntime) {
    are_so(&rt, &ROWS_OF_SHIFTS_AND_PRODUCTS);
}

const ROWS_OF_QUOTIENTS_AND_TAGGED_OPERATIONS: [(Table, &str); 3] = [
    (Table::Quotients, QUOTIENTS),
    (Table::Tagged(TaggedOp::TaggedAdd), TAGGED_ADD),
    (Table::Tagged(TaggedOp::TaggedSub), TAGGED_SUB),
];

#[test]
fn quotients_and_tagged_operations(rt: HostRuntime) {
    are_so(&rt, &ROWS_OF_QUOTIENTS_AND_TAGGED_OPERATIONS);
}

const FOUR: Range = Range {
    lo: 4,
    hi: 8,
    alignment: 2,
};

const EVEN: Range = Range {
    lo: 4,
    hi: 8,
    alignment: 1,
};

const LOW: Range = Range {
    lo: i32::MIN,
    hi: 0,
    alignment: 2,
};

const HIGH: Range = Range {
    lo: 0,
    hi: 0x7fff_fffc,
    alignment: 2,
};

/// Whether operands of which one is not a multiple of 4, or whose sum or difference is past the ends, may have no
/// tagged result.
fn may_trap() -> bool {
    let (add, sub) = (TaggedOp::TaggedAdd, TaggedOp::TaggedSub);
    !(tagged_fits(add, FOUR, EVEN)
        || tagged_fits(sub, EVEN, FOUR)
        || tagged_fits(add, HIGH, FOUR)
        || tagged_fits(sub, LOW, FOUR))
}

#[test]
fn results_that_may_be_missing(rt: HostRuntime) {
    assert!(rt; may_trap() && !sums_fit(HIGH, FOUR) && differences_fit(HIGH, FOUR));
    assert!(rt; excludes_zero(FOUR) && !excludes_zero(LOW) && !excludes_zero(HIGH));
}

/// Every word.
const EVERY_WORD: Range = Range {
    lo: i32::MIN,
    hi: i32::MAX,
    alignment: 0,
};

const FIVE: Range = Range {
    lo: 5,
    hi: 5,
    alignment: 0,
};

const PLACE: Range = Range {
    lo: 0x8_0000,
    hi: 0x8_0010,
    alignment: 2,
};

const NEXT_PLACE: Range = Range {
    lo: 0x8_0005,
    hi: 0x8_0015,
    alignment: 0,
};

/// Whether Y is any word after a step of a multiplication, and as it was after a sum.
fn is_y() -> bool {
    range_of_y(Op::MulsCc, FOUR) == all(0) && range_of_y(Op::Addx, FOUR) == FOUR
}

/// Whether words that are written to Y are known where both are.
fn is_written_y() -> bool {
    range_of_written_y(FIVE, FIVE) == known(0) && range_of_written_y(FIVE, FOUR) == all(0)
}

#[test]
fn y_and_addresses(rt: HostRuntime) {
    assert!(rt; is_y() && is_written_y());
    assert!(rt; range_of_division(FOUR, FOUR, FOUR) == all(0));
    assert!(rt; range_of_address(PLACE, FIVE) == NEXT_PLACE);
}

const KNOWN: [(u32, Range); 4] = [
    (
        0,
        Range {
            lo: 0,
            hi: 0,
            alignment: 3,
        },
    ),
    (
        0x8000_0000,
        Range {
            lo: i32::MIN,
            hi: i32::MIN,
            alignment: 3,
        },
    ),
    (
        0xffff_fffc,
        Range {
            lo: -4,
            hi: -4,
            alignment: 2,
        },
    ),
    (
        7,
        Range {
            lo: 7,
            hi: 7,
            alignment: 0,
        },
    ),
];

#[test]
fn known_words(rt: HostRuntime) {
    for &(word, want) in &KNOWN {
        assert!(rt; known(word) == want && is_single(want), "{word}");
    }
}

/// Ranges, and whether the first is within the second.
const WITHIN: [(Range, Range, bool); 7] = [
    (FOUR, EVEN, true),
    (FOUR, HIGH, true),
    (EVEN, FOUR, false),
    (LOW, HIGH, false),
    (HIGH, LOW, false),
    (SIGNED_HALF, EVERY_WORD, true),
    (BYTE_OR_END, FOUR, false),
];

#[test]
fn wider_ranges(rt: HostRuntime) {
    for &(inner, outer, within) in &WITHIN {
        assert!(rt;
            is_within(inner, outer) == within,
            "{} {}",
            inner.lo,
            outer.lo
        );
    }
    assert!(rt; all(0) == EVERY_WORD && !is_single(FOUR));
}

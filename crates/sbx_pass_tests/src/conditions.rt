//! Refinement, condition by condition: two ranges, and what is left of them where the condition holds, or nothing where
//! it can't.
use crate::reading::{Table, are_so};
use sbx_range::{Range, common};
use v8_word::Cond;

const EQUAL: &str = "0 10 0  5 20 2  5 10 2  5 10 2
    0 4 0  5 9 0
    0 0 3  5 5 0";

const NOT_EQUAL: &str = "0 10 0  10 10 1  0 9 0  10 10 1
    0 8 3  0 0 3  1 8 3  0 0 3
    0 10 0  5 5 0  0 10 0  5 5 0
    5 5 0  5 9 0  5 5 0  6 9 0
    0 10 0  0 4 0  0 10 0  0 4 0
    5 5 0  5 5 0
    2147483647 2147483647 0  2147483647 2147483647 0";

const LESS: &str =
    "-2147483648 2147483647 0  -2147483648 2147483647 0  -2147483648 2147483646 0  -2147483647 2147483647 0
    0 10 1  0 10 2  0 9 1  1 10 2
    5 9 0  0 5 0
    0 5 0  -2147483648 -2147483648 3
    2147483647 2147483647 0  0 5 0";

const LESS_OR_EQUAL: &str = "0 10 0  3 5 0  0 5 0  3 5 0
    5 9 0  0 5 0  5 5 0  5 5 0
    5 9 0  0 4 0";

const GREATER: &str = "0 10 0  0 10 0  1 10 0  0 9 0
    0 5 0  5 9 0";

const GREATER_OR_EQUAL: &str = "0 10 0  3 20 0  3 10 0  3 10 0
    0 4 0  5 9 0";

const CARRY_SET: &str = "-5 10 0  0 8 0  0 7 0  1 8 0
    0 10 0  -1 8 0  0 10 0  -1 8 0
    -5 -1 0  0 8 0";

const LESS_OR_EQUAL_UNSIGNED: &str = "-5 10 0  0 8 0  0 8 0  0 8 0
    0 10 0  -1 8 0  0 10 0  -1 8 0";

const CARRY_CLEAR: &str = "0 10 0  3 15 0  3 10 0  3 10 0
    -1 10 0  3 5 0  -1 10 0  3 5 0";

const GREATER_UNSIGNED: &str = "0 10 0  3 15 0  4 10 0  3 9 0
    0 10 0  -3 5 0  0 10 0  -3 5 0";

const UNCHANGED: &str = "-1 5 0  2 3 0  -1 5 0  2 3 0
    5 4 0  2 3 0";

const ROWS_OF_COMPARED: [(Table, &str); 10] = [
    (Table::Pairs(Cond::Equal), EQUAL),
    (Table::Pairs(Cond::NotEqual), NOT_EQUAL),
    (Table::Pairs(Cond::Less), LESS),
    (Table::Pairs(Cond::LessOrEqual), LESS_OR_EQUAL),
    (Table::Pairs(Cond::Greater), GREATER),
    (Table::Pairs(Cond::GreaterOrEqual), GREATER_OR_EQUAL),
    (Table::Pairs(Cond::CarrySet), CARRY_SET),
    (
        Table::Pairs(Cond::LessOrEqualUnsigned),
        LESS_OR_EQUAL_UNSIGNED,
    ),
    (Table::Pairs(Cond::CarryClear), CARRY_CLEAR),
    (Table::Pairs(Cond::GreaterUnsigned), GREATER_UNSIGNED),
];

#[test]
fn compared(rt: HostRuntime) {
    are_so(&rt, &ROWS_OF_COMPARED);
}

const ROWS_OF_OTHER_CONDITIONS: [(Table, &str); 6] = [
    (Table::Pairs(Cond::Never), UNCHANGED),
    (Table::Pairs(Cond::Negative), UNCHANGED),
    (Table::Pairs(Cond::OverflowSet), UNCHANGED),
    (Table::Pairs(Cond::Always), UNCHANGED),
    (Table::Pairs(Cond::Positive), UNCHANGED),
    (Table::Pairs(Cond::OverflowClear), UNCHANGED),
];

#[test]
fn other_conditions(rt: HostRuntime) {
    are_so(&rt, &ROWS_OF_OTHER_CONDITIONS);
}

const ROWS_OF_BY_VALUE: [(Table, &str); 6] = [
    (
        Table::Values(Cond::Equal),
        "-5 5 0  0 0 3
            1 5 0",
    ),
    (
        Table::Values(Cond::NotEqual),
        "0 5 2  1 5 2
            -5 0 0  -5 -1 0
            -5 5 0  -5 5 0
            0 0 3",
    ),
    (
        Table::Values(Cond::Negative),
        "-5 5 1  -5 -1 1
            0 5 0",
    ),
    (
        Table::Values(Cond::Positive),
        "-5 5 1  0 5 1
            -5 -1 0",
    ),
    (Table::Values(Cond::Less), "-5 5 0  -5 5 0"),
    (Table::Values(Cond::CarrySet), "-5 5 0  -5 5 0"),
];

#[test]
fn by_value(rt: HostRuntime) {
    are_so(&rt, &ROWS_OF_BY_VALUE);
}

const LOW: Range = Range {
    lo: 0,
    hi: 9,
    alignment: 1,
};

const HIGH: Range = Range {
    lo: 4,
    hi: 20,
    alignment: 2,
};

const SHARED: Range = Range {
    lo: 4,
    hi: 9,
    alignment: 2,
};

#[test]
fn what_two_ranges_share(rt: HostRuntime) {
    assert!(rt; common(LOW, HIGH) == Some(SHARED));
}

//! Rows of numbers between blanks, a row a line. A range is three numbers: its ends and its alignment.
use sbx_range::{
    Pair, Range, range_of, range_of_division, range_of_tagged, refine, refine_by_value, tagged_fits,
};
use std::process::Abort;
use std::str::SplitWhitespace;
use v8_alu::{Op, TaggedOp};
use v8_word::Cond;

/// What a table's rows tell of.
#[derive(Clone, Copy)]
pub enum Table {
    /// Two operands' ranges, and the result's.
    Results(Op),
    /// The same where every word of the operands has a result.
    Tagged(TaggedOp),
    /// The same of quotients where Y is 0.
    Quotients,
    /// Two compared ranges, and the two that are left, or nothing.
    Pairs(Cond),
    /// A range, and the one that is left, or nothing.
    Values(Cond),
}

fn next_number(pieces: &mut SplitWhitespace<'_>) -> Option<i32> {
    pieces.next()?.parse().ok()
}

fn next_range(pieces: &mut SplitWhitespace<'_>) -> Option<Range> {
    let lo = next_number(pieces)?;
    let hi = next_number(pieces)?;
    let alignment = u8::try_from(next_number(pieces)?).ok()?;
    Some(Range { lo, hi, alignment })
}

fn is_pair(got: Option<Pair>, left: Option<Range>, right: Option<Range>) -> bool {
    match got {
        Some(pair) => Some(pair.left) == left && Some(pair.right) == right,
        None => left.is_none(),
    }
}

/// Whether these are the ranges of a row: what is left of the first, of the first two, or what an operation makes of
/// them.
fn agrees(
    table: Table,
    x: Range,
    y: Option<Range>,
    want: Option<Range>,
    last: Option<Range>,
) -> bool {
    let zero = Range {
        lo: 0,
        hi: 0,
        alignment: 3,
    };
    match (table, y) {
        (Table::Results(op), Some(y)) => Some(range_of(op, x, y)) == want,
        (Table::Tagged(op), Some(y)) => {
            tagged_fits(op, x, y) && Some(range_of_tagged(op, x, y)) == want
        }
        (Table::Quotients, Some(y)) => Some(range_of_division(zero, x, y)) == want,
        (Table::Pairs(cond), Some(y)) => is_pair(refine(cond, x, y), want, last),
        (Table::Values(cond), left) => refine_by_value(cond, x) == left,
        _ => false,
    }
}

fn holds(table: Table, line: &str) -> bool {
    let mut pieces = line.split_whitespace();
    match next_range(&mut pieces) {
        Some(x) => {
            let y = next_range(&mut pieces);
            let want = next_range(&mut pieces);
            agrees(table, x, y, want, next_range(&mut pieces))
        }
        None => false,
    }
}

/// The first row that isn't so; empty where there is none.
fn wrong_row<'a>(table: Table, rows: &'a str) -> &'a str {
    for line in rows.lines() {
        if !holds(table, line) {
            return line;
        }
    }
    ""
}

/// Asserts that the rows of these tables are so.
pub(crate) fn are_so(rt: &impl Abort, tables: &[(Table, &str)]) {
    for &(table, rows) in tables {
        let wrong = wrong_row(table, rows);
        assert!(rt; wrong.is_empty(), "{wrong}");
    }
}

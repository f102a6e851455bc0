//! What the verifier knows between two words, worked out by hand. Tests pass where memory is refused.
use crate::known::{Row, first_wrong, has_least, range};
use crate::programs::{
    COMPARED, EIGHT, FRAME_WORDS, HIGH_WORDS_AND_Y, ITSELF, LEAST, LOADS, NINE, NO_FRAME_WORDS,
    NO_LOCATIONS, QUOTIENTS, RETURNED, SAVED, SET, SIGN, SUMS, TWO, UNRELATED, UNSET, WINDOWS,
};
use sbx_domain::State;
use sbx_image::Cell;
use std::process::Abort;
use v8_alu::Op;
use v8_formats::{Operand, Three};
use v8_word::{Cond, Reg};

/// The name of a program, the cells that it starts with, and its rows.
type Program = (&'static str, &'static [Cell], &'static [Row]);

static PROGRAMS: [Program; 18] = [
    ("set", &[], &SET),
    ("no locations", &[], &NO_LOCATIONS),
    ("unset", &[], &UNSET),
    ("unrelated", &[], &UNRELATED),
    ("itself", &[], &ITSELF),
    ("sign", &[], &SIGN),
    ("frame words", &[], &FRAME_WORDS),
    ("no frame words", &[], &NO_FRAME_WORDS),
    ("loads", &[], &LOADS),
    ("high words and Y", &[], &HIGH_WORDS_AND_Y),
    ("quotients", &[], &QUOTIENTS),
    ("saved", &[], &SAVED),
    ("sums", &TWO, &SUMS),
    ("least", &TWO, &LEAST),
    ("eight", &NINE, &EIGHT),
    ("compared", &TWO, &COMPARED),
    ("windows", &TWO, &WINDOWS),
    ("returned", &TWO, &RETURNED),
];

/// The number of a program's first wrong row.
fn wrong(state: &mut State, cells: &[Cell], rows: &[Row]) -> Option<usize> {
    state.start(cells);
    first_wrong(state, rows)
}

/// The programs. A function that names a table costs the prover by all that stands in it, so this one does nothing
/// else.
fn all_programs() -> &'static [Program] {
    &PROGRAMS
}

/// Asserts that no program has a wrong row.
fn are_right(rt: &impl Abort, state: &mut State, programs: &[Program]) {
    for (name, cells, rows) in programs {
        if let Some(row) = wrong(state, cells, rows) {
            panic!(rt; "{name}, row {row}");
        }
    }
}

#[test]
fn programs(rt: HostRuntime) {
    if let Ok(mut state) = State::new(rt.alloc()) {
        are_right(&rt, &mut state, all_programs());
    }
}

/// A word, a condition, and what is left of 0 to 10 where the condition holds after a comparison with the word.
type Comparison = (u32, Cond, Option<(i32, i32)>);

const COMPARISONS: [Comparison; 8] = [
    (5, Cond::Less, Some((0, 4))),
    (5, Cond::GreaterOrEqual, Some((5, 10))),
    (5, Cond::Equal, Some((5, 5))),
    (10, Cond::NotEqual, Some((0, 9))),
    (11, Cond::Equal, None),
    (0x7FFF_FFFF, Cond::Greater, None),
    (0x8000_0000, Cond::Less, None),
    (0x8000_0000, Cond::CarrySet, Some((0, 10))),
];

/// What is left of %o0, 0 to 10, after a comparison with a word and a branch.
fn left_of(state: &mut State, word: u32, cond: Cond) -> Option<(i32, i32)> {
    state.set(8, Some(range((0, 10, 0))));
    let fields = Three {
        rd: Reg::G0,
        rs1: Reg::new(8)?,
        operand2: Operand::Immediate(word),
    };
    state.compute(Op::SubCc, &fields);
    if !state.refine(cond) {
        return None;
    }
    let left = state.range(8)?;
    Some((left.lo, left.hi))
}

/// Asserts that what is left after each comparison is as told.
fn are_left(rt: &impl Abort, state: &mut State) {
    for &(word, cond, want) in &COMPARISONS {
        assert!(rt; left_of(state, word, cond) == want, "{word:08X} {cond:?}");
    }
}

#[test]
fn branches_after_a_comparison(rt: HostRuntime) {
    if let Ok(mut state) = State::new(rt.alloc()) {
        are_left(&rt, &mut state);
    }
}

/// Whether a copy of a state is equal, whatever was known before, and a form is least over another state's ranges.
fn copies(state: &mut State, other: &mut State) -> bool {
    state.start(&TWO);
    other.set(7, Some(range((1, 1, 0))));
    state.copy_to(other);
    let is_copied = other.range(8) == Some(range((0, 10, 0))) && other.range(7).is_none();
    other.start(&[]);
    is_copied
        && first_wrong(state, &LEAST).is_none()
        && has_least(state, 9, other, 7)
        && first_wrong(state, &SET[4..8]).is_none()
        && is_set_in_copy(state, other)
}

/// Whether a state's first and last location, Y and codes are in its copy.
fn is_set_in_copy(state: &State, other: &mut State) -> bool {
    state.copy_to(other);
    first_wrong(other, &SET[8..]).is_none()
}

#[test]
fn a_copy_is_equal(rt: HostRuntime) {
    if let Ok(mut state) = State::new(rt.alloc()) {
        if let Ok(mut other) = State::new(rt.alloc()) {
            assert!(rt; copies(&mut state, &mut other));
        }
    }
}

/// Whether a range without numbers is found where a location has it, and only then.
fn finds_empty(state: &mut State, location: u16) -> bool {
    state.start(&TWO);
    let before = state.has_empty_range();
    state.set(location, Some(range((1, 0, 0))));
    let there = state.has_empty_range();
    state.set(location, Some(range((1, 1, 0))));
    !before && there && !state.has_empty_range()
}

#[test]
fn an_empty_range_is_found(rt: HostRuntime) {
    if let Ok(mut state) = State::new(rt.alloc()) {
        assert!(rt; finds_empty(&mut state, 1));
        assert!(rt; finds_empty(&mut state, 1_039));
    }
}

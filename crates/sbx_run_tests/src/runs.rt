//! Runs of accepted images, on each count of windows.
ghost use Rattle.std.specs.Prelude.{◌≤◌};

use crate::calls::{finished_on, judged, raw_on};
use crate::sources::{
    BARE, BETWEEN_REGIONS, BYTES, CALLED, CALLER, CALLER_OF_39, CALLS, CHAIN, CHAIN_REST, COPY,
    COUNTDOWN, COUNTDOWN_REST, ECHO, EXITS, FRAMED, HELLO, INCREMENT, LINKS, LONG_ECHO, Links,
    RESULT, RESULT_LINKS, ROUNDS, ROUNDS_LINKS, Source, TWO_REGIONS, WORD_OUT,
};
use sbx_image::Image;
use sbx_run::{Accepted, Ending, Finished, PageUse, Raw, budget, run_windows};
use std::alloc::{AllocError, Global};
use std::process::Abort;
use std::test::Fail;
use v8_word::TrapType;

/// What a source's image gives on an input: its budget, the exit word, the output, the turns where there are windows
/// enough, the overflows on four windows, how many of them each window more spares, whether the stack's last page is
/// used, and which pages of the data are, and are written.
#[derive(Clone, Copy)]
pub(crate) struct Row<'a> {
    pieces: &'static [&'static str],
    links: Option<&'static Links>,
    budget: u64,
    input: &'a [u8],
    status: u32,
    output: &'a [u8],
    turns: u64,
    overflows: u64,
    spared: u64,
    stack: bool,
    data: (u64, u64),
}

/// Nothing is put in or out, and four windows suffice.
const QUIET: Row<'static> = Row {
    pieces: &[],
    links: None,
    budget: 100,
    input: b"",
    status: 0,
    output: b"",
    turns: 0,
    overflows: 0,
    spared: 0,
    stack: false,
    data: (0, 0),
};

pub(crate) static HI: Row<'static> = Row {
    output: b"Hi",
    pieces: &[BARE, HELLO],
    budget: 100,
    turns: 16,
    ..QUIET
};

pub(crate) static COPIES: Row<'static> = Row {
    input: b"A",
    output: b"A",
    pieces: &[BARE, COPY],
    budget: 100,
    turns: 14,
    ..QUIET
};

const ECHO_OF_ABC: Row<'static> = Row {
    input: b"abc",
    output: b"abc",
    pieces: &[ECHO],
    budget: 16030,
    turns: 62,
    ..QUIET
};

pub(crate) static ECHOES: Row<'static> = ECHO_OF_ABC;

const ECHO_OF_NONE: Row<'static> = Row {
    input: b"",
    output: b"",
    turns: 14,
    ..ECHO_OF_ABC
};

pub(crate) static SILENT: Row<'static> = ECHO_OF_NONE;

static INCREMENTS: Row<'static> = Row {
    output: b"!",
    pieces: &[CALLER_OF_39, CALLER, BYTES, INCREMENT],
    budget: 39,
    turns: 15,
    ..QUIET
};

/// A byte of a region that may be read alone is put out, and stored into one that may be written, which is all on the
/// next page.
const ON_TWO_PAGES: Row<'static> = Row {
    output: b"H",
    pieces: &[TWO_REGIONS, BETWEEN_REGIONS, " stb %o0,[%g2+7]\n", EXITS],
    budget: 13,
    turns: 13,
    data: (3, 2),
    ..QUIET
};

pub(crate) static REGIONS: Row<'static> = ON_TWO_PAGES;

/// The same with a store into the first region.
static STORED: Row<'static> = Row {
    pieces: &[TWO_REGIONS, BETWEEN_REGIONS, " stb %o0,[%g1]\n", EXITS],
    ..ON_TWO_PAGES
};

pub(crate) static CHAINED: Row<'static> = Row {
    output: b"!",
    overflows: 38,
    pieces: &[CHAIN, CHAIN_REST],
    links: Some(&LINKS),
    budget: 2102,
    turns: 206,
    spared: 1,
    stack: true,
    ..QUIET
};

static ROWS: [Row<'static>; 9] = [
    Row {
        output: b"\xff",
        pieces: &[BARE, COPY],
        budget: 100,
        turns: 14,
        ..QUIET
    },
    Row {
        status: 1029,
        pieces: &[BARE, " sethi 1,%o0\n add %o0,5,%o0\n ta 0\n"],
        budget: 100,
        turns: 5,
        ..QUIET
    },
    ECHO_OF_ABC,
    ECHO_OF_NONE,
    Row {
        status: 33,
        output: b"!",
        pieces: &[COUNTDOWN, ".term %l0,4\n", COUNTDOWN_REST],
        budget: 75,
        turns: 51,
        ..QUIET
    },
    // a word of the frame is read after it was written
    Row {
        stack: true,
        pieces: &[FRAMED, " st %g0,[%sp+64]\n ld [%sp+64],%o0\n ta 0\n"],
        budget: 100,
        turns: 6,
        ..QUIET
    },
    // the underflow is in the slot
    Row {
        status: 42,
        output: b"!",
        overflows: 38,
        pieces: &[CHAIN, RESULT],
        links: Some(&RESULT_LINKS),
        budget: 2102,
        turns: 206,
        spared: 1,
        stack: true,
        ..QUIET
    },
    // two rounds of a chain
    Row {
        output: b"\x00\x00\x00\x91",
        overflows: 75,
        pieces: &[
            ".services exit,get,put\n.function main,framed,96,3840,4197\n",
            ".fuel 4197\n save %sp,-96,%sp\n set 2,%l0\n",
            ROUNDS,
            WORD_OUT,
        ],
        links: Some(&ROUNDS_LINKS),
        budget: 4197,
        turns: 429,
        spared: 2,
        stack: true,
        ..QUIET
    },
    // five rounds of calls with a frame and without
    Row {
        output: b"\x00\x01H\xbe",
        pieces: &[
            ".services exit,get,put\n.function main,framed,96,192,370\n",
            ".fuel 370\n save %sp,-96,%sp\n set 5,%l0\n",
            CALLS,
            WORD_OUT,
            CALLED,
        ],
        budget: 370,
        turns: 106,
        ..QUIET
    },
];

/// Workloads: they are accepted, and too long to be run.
static LONG: [Row<'static>; 2] = [
    Row {
        pieces: &[
            ".services exit,get,put\n.function main,framed,96,3840,62130056\n",
            ".fuel 62130056\n save %sp,-96,%sp\n set 30000,%l0\n",
            ROUNDS,
            WORD_OUT,
        ],
        links: Some(&ROUNDS_LINKS),
        budget: 62_130_056,
        ..QUIET
    },
    Row {
        pieces: &[
            ".services exit,get,put\n.function main,framed,96,192,189000056\n",
            ".fuel 189000056\n save %sp,-96,%sp\n set 3000000,%l0\n",
            CALLS,
            WORD_OUT,
            CALLED,
        ],
        budget: 189_000_056,
        ..QUIET
    },
];

impl Row<'_> {
    /// The overflows, underflows and turns on so many windows. The first function's SAVE is never undone, so there is
    /// an underflow less; and each of them takes 24 turns, its trap and the handler's 23.
    fn counts_on(&self, windows: u32) -> (u64, u64, u64) {
        let more = u64::from(windows.saturating_sub(4));
        let overflows = self
            .overflows
            .saturating_sub(self.spared.saturating_mul(more));
        let underflows = overflows.saturating_sub(1);
        let traps = overflows.saturating_add(underflows);
        let turns = self.turns.saturating_add(traps.saturating_mul(24));
        (overflows, underflows, turns)
    }

    /// Whether there is no overflow and no underflow on four windows.
    pub(crate) fn is_quiet(&self) -> bool {
        let (overflows, underflows, _turns) = self.counts_on(4);
        overflows == 0 && underflows == 0
    }

    /// The pages that are used: the first of the code, those of the data, and the last of the stack.
    fn pages(&self) -> PageUse {
        let last = if self.stack { 1 << 63 } else { 0 };
        PageUse {
            referenced: [1, self.data.0, last],
            modified: [0, self.data.1, last],
        }
    }

    /// The source's image, if it means one.
    pub(crate) fn image(&self, alloc: Global) -> Option<Image> {
        let source = Source {
            pieces: self.pieces,
            links: self.links,
        };
        source.image(alloc)
    }

    /// The image, if it is accepted.
    pub(crate) fn accepted(&self, alloc: Global) -> Option<Accepted> {
        match self.image(alloc) {
            Some(image) => accepted_of(alloc, image),
            None => None,
        }
    }

    /// Whether this is what a run on so many windows gives.
    pub(crate) fn is(&self, finished: &Finished, windows: u32) -> bool {
        let counts = (finished.overflows, finished.underflows, finished.turns);
        finished.status == self.status
            && finished.output.as_slice() == self.output
            && counts == self.counts_on(windows)
            && finished.pages == self.pages()
    }
}

/// The image, if it is accepted.
pub(crate) fn accepted_of(alloc: Global, image: Image) -> Option<Accepted> {
    judged(alloc, image).ok()
}

/// Whether the run on `N` windows gives what the row says.
fn runs_on<const N: usize>(alloc: Global, windows: u32, accepted: &Accepted, row: &Row<'_>) -> bool
    requires { (4 ≤ N) × (N ≤ 32) }
{
    match finished_on::<N>(alloc, accepted, row.input) {
        Some(finished) => row.is(&finished, windows),
        None => false,
    }
}

/// Whether there is a run on so many windows, and it gives what the row says.
fn runs_by_number(alloc: Global, windows: u32, accepted: &Accepted, row: &Row<'_>) -> Option<bool> {
    match run_windows(alloc, windows, accepted, row.input) {
        Some(Ok(finished)) => Some(row.is(&finished, windows)),
        Some(Err(_fault)) => Some(false),
        None => None,
    }
}

/// Whether there is a run on each of these counts of windows, and it gives what the row says.
fn runs_by_numbers(alloc: Global, counts: &[u32], accepted: &Accepted, row: &Row<'_>) -> bool {
    for windows in counts {
        if runs_by_number(alloc, *windows, accepted, row) != Some(true) {
            return false;
        }
    }
    true
}

/// Whether all of these runs do, and on no other count of windows there is one.
pub(crate) fn runs_everywhere(alloc: Global, accepted: &Accepted, row: &Row<'_>) -> bool {
    budget(accepted.image()) == row.budget
        && runs_on::<4>(alloc, 4, accepted, row)
        && runs_on::<8>(alloc, 8, accepted, row)
        && runs_on::<32>(alloc, 32, accepted, row)
        && runs_by_numbers(alloc, &[4, 8, 19, 32], accepted, row)
        && runs_by_number(alloc, 3, accepted, row).is_none()
        && runs_by_number(alloc, 33, accepted, row).is_none()
}

/// Whether the row's image is accepted, and runs so everywhere.
fn is_so(alloc: Global, row: &Row<'_>) -> bool {
    match row.accepted(alloc) {
        Some(accepted) => runs_everywhere(alloc, &accepted, row),
        None => false,
    }
}

/// Whether the rows that other tests run as well are so.
fn are_so(alloc: Global) -> bool {
    is_so(alloc, &HI)
        && is_so(alloc, &COPIES)
        && is_so(alloc, &INCREMENTS)
        && is_so(alloc, &REGIONS)
        && is_so(alloc, &CHAINED)
}

/// Each row is so.
fn are_all_so(rt: &impl Abort, alloc: Global, rows: &[Row<'_>]) {
    for row in rows {
        assert!(rt; is_so(alloc, row), "{} {}", row.budget, row.turns);
    }
}

#[test]
fn runs_accepted_images(rt: HostRuntime) {
    are_all_so(&rt, rt.alloc(), &ROWS);
    assert!(rt; are_so(rt.alloc()));
}

/// The counts of windows that there are.
static COUNTS: [u32; 29] = [
    4, 5, 6, 7, 8, 9, 10, 11, 12, 13, 14, 15, 16, 17, 18, 19, 20, 21, 22, 23, 24, 25, 26, 27, 28,
    29, 30, 31, 32,
];

/// Whether the row's image gives the row on each count of windows.
fn is_so_by_numbers(alloc: Global, row: &Row<'_>) -> bool {
    match row.accepted(alloc) {
        Some(accepted) => runs_by_numbers(alloc, &COUNTS, &accepted, row),
        None => false,
    }
}

#[test]
fn runs_on_each_count_of_windows(rt: HostRuntime) {
    assert!(rt; is_so_by_numbers(rt.alloc(), &CHAINED));
}

/// Bytes that differ from each other, so many.
fn bytes_of(alloc: Global, count: u32) -> Result<Vec<u8>, AllocError> {
    let mut bytes = Vec::new(alloc);
    for number in 0..count {
        bytes.push((number % 251) as u8)?;
    }
    Ok(bytes)
}

/// Whether this input comes back as this output.
fn echoes_as(alloc: Global, input: &[u8], output: &[u8]) -> bool {
    let row = Row {
        input,
        output,
        turns: 16006,
        ..ECHO_OF_ABC
    };
    is_so(alloc, &row)
}

/// Whether 1,000 bytes of 2,000 come back.
fn cuts_its_input(alloc: Global) -> Result<bool, Fail> {
    let input = bytes_of(alloc, 2000)?;
    let output = bytes_of(alloc, 1000)?;
    Ok(echoes_as(alloc, &input, &output))
}

/// Whether the run of the row's image on eight windows gives what the row says.
fn is_so_on_8(alloc: Global, row: &Row<'_>) -> bool {
    match row.accepted(alloc) {
        Some(accepted) => runs_on::<8>(alloc, 8, &accepted, row),
        None => false,
    }
}

/// Whether all of 3 MiB of bytes come back.
fn gives_back(alloc: Global, bytes: &[u8]) -> bool {
    let row = Row {
        pieces: &[LONG_ECHO],
        budget: 50_331_678,
        input: bytes,
        output: bytes,
        turns: 50_331_654,
        ..QUIET
    };
    is_so_on_8(alloc, &row)
}

/// Whether 3 MiB come back.
fn keeps_long_outputs(alloc: Global) -> bool {
    match bytes_of(alloc, 3_145_728) {
        Ok(bytes) => gives_back(alloc, bytes.as_slice()),
        Err(AllocError) => false,
    }
}

#[test]
fn long_outputs_are_kept(rt: HostRuntime) {
    assert!(rt; keeps_long_outputs(rt.alloc()));
}

#[test]
fn echoes_end(rt: HostRuntime) -> Result<(), Fail> {
    assert!(rt; cuts_its_input(rt.alloc())?);
    Ok(())
}

/// Whether an accepted image declares this budget, and comes back as the other.
fn comes_back(accepted: Accepted, budget_told: u64, other: &Image) -> bool {
    let is_budget = budget(accepted.image()) == budget_told;
    let image = accepted.into_image();
    image.words() == other.words() && is_budget
}

/// Whether the row's image is accepted, and comes back as the other.
fn is_accepted_as(alloc: Global, row: &Row<'_>, other: &Image) -> bool {
    match row.accepted(alloc) {
        Some(accepted) => comes_back(accepted, row.budget, other),
        None => false,
    }
}

/// Whether the row's image is accepted with its budget, and comes back.
fn is_accepted(alloc: Global, row: &Row<'_>) -> bool {
    match row.image(alloc) {
        Some(other) => is_accepted_as(alloc, row, &other),
        None => false,
    }
}

#[test]
fn accepts_workloads(rt: HostRuntime) {
    for row in &LONG {
        assert!(rt; is_accepted(rt.alloc(), row), "{}", row.budget);
    }
}

/// Whether a raw run puts `!` out, and exits with 0 after 15 turns.
fn increments(raw: &Raw) -> bool {
    let told = &raw.outcome;
    told.ending == Ending::Exit(0)
        && (told.turns, told.overflows, told.underflows) == (15, 0, 0)
        && raw.output.as_slice() == b"!".as_slice()
}

/// Whether the raw run on `N` windows does.
fn increments_on<const N: usize>(alloc: Global, image: &Image) -> bool
    requires { (4 ≤ N) × (N ≤ 32) }
{
    match raw_on::<N>(alloc, image) {
        Some(raw) => increments(&raw),
        None => false,
    }
}

/// Whether the raw run on each of these counts of windows does.
macro_rules! increments_on_all {
    ($alloc:ident, $image:ident: $($count:literal)*) => {
        $(increments_on::<$count>($alloc, $image) &&)* true
    };
}

fn increments_on_4_to_10(alloc: Global, image: &Image) -> bool {
    increments_on_all!(alloc, image: 4 5 6 7 8 9 10)
}

fn increments_on_11_to_17(alloc: Global, image: &Image) -> bool {
    increments_on_all!(alloc, image: 11 12 13 14 15 16 17)
}

fn increments_on_18_to_24(alloc: Global, image: &Image) -> bool {
    increments_on_all!(alloc, image: 18 19 20 21 22 23 24)
}

fn increments_on_25_to_32(alloc: Global, image: &Image) -> bool {
    increments_on_all!(alloc, image: 25 26 27 28 29 30 31 32)
}

/// Whether the raw run on each count of windows that there is does.
fn increments_on_each(alloc: Global, image: &Image) -> bool {
    increments_on_4_to_10(alloc, image)
        && increments_on_11_to_17(alloc, image)
        && increments_on_18_to_24(alloc, image)
        && increments_on_25_to_32(alloc, image)
}

/// Whether each raw run of the row's image does.
fn increments_raw(alloc: Global, row: &Row<'_>) -> bool {
    match row.image(alloc) {
        Some(image) => increments_on_each(alloc, &image),
        None => false,
    }
}

#[test]
fn raw_runs_agree(rt: HostRuntime) {
    assert!(rt; increments_raw(rt.alloc(), &INCREMENTS));
}

/// Whether a raw run puts the first byte out, and ends at a store for which there is no right: a protection error at
/// level 3 of a store to user data, whose address is known (appendix H).
fn is_trapped(raw: &Raw) -> bool {
    let told = &raw.outcome;
    told.ending == Ending::Trapped(TrapType::DATA_ACCESS_EXCEPTION)
        && (told.turns, told.overflows, told.underflows) == (11, 0, 0)
        && raw.output.as_slice() == b"H".as_slice()
        && raw.fault_status == 0x0000_038A
}

/// Whether the raw run of the image does.
fn traps_on_8(alloc: Global, image: &Image) -> bool {
    match raw_on::<8>(alloc, image) {
        Some(raw) => is_trapped(&raw),
        None => false,
    }
}

/// Whether the raw run of the row's image does.
fn traps(alloc: Global, row: &Row<'_>) -> bool {
    match row.image(alloc) {
        Some(image) => traps_on_8(alloc, &image),
        None => false,
    }
}

#[test]
fn a_store_to_what_is_read_alone_traps(rt: HostRuntime) {
    assert!(rt; traps(rt.alloc(), &STORED));
}

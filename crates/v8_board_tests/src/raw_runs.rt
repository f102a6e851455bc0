//! Raw runs, with their ends.
ghost use Rattle.std.specs.Prelude.{◌≤◌, ℕ};

use crate::images::{EXIT, End, GET, GREETING, LOADS, NOP, PUT, STORES_AFTER_A_LOAD, image};
use crate::programs::Shape;
use crate::rows::Code;
use sbx_image::Image;
use sbx_raw::{Outcome, PageUse, Raw, run_raw};
use std::alloc::{AllocError, Global};
use std::process::Abort;
use std::test::Fail;

/// A program with its data, on so many windows, with this input and at most so many turns; and how its raw run ends:
/// with its turns, overflows and underflows, the fault status, the output, and where they are told the pages that were
/// referenced and modified.
struct Run {
    code: Code,
    data: &'static [u8],
    windows: u32,
    input: &'static [u8],
    limit: u64,
    end: End,
    counts: [u64; 3],
    status: u32,
    output: &'static [u8],
    pages: Option<PageUse>,
}

/// Words at four windows, without data, input and output.
macro_rules! words {
    ($words:expr, $limit:expr => $end:expr, $counts:expr, $status:expr) => {
        Run {
            code: Code::Words($words),
            data: &[],
            windows: 4,
            input: b"",
            limit: $limit,
            end: $end,
            counts: $counts,
            status: $status,
            output: b"",
            pages: None,
        }
    };
}

/// A chain, which puts `!` out.
macro_rules! chain {
    ($shape:expr, $windows:expr => $status:expr, $counts:expr) => {
        Run {
            code: Code::Chain($shape),
            data: &[],
            windows: $windows,
            input: b"",
            limit: 10_000,
            end: End::Exit($status),
            counts: $counts,
            status: 0,
            output: b"!",
            pages: None,
        }
    };
}

/// Words over eight bytes of data, which reference a page of code and one of data.
macro_rules! over_data {
    ($words:expr, $windows:expr => $turns:expr, $modified:expr) => {
        Run {
            code: Code::Words($words),
            data: &[0; 8],
            windows: $windows,
            input: b"",
            limit: 100,
            end: End::Exit(0),
            counts: [$turns, 0, 0],
            status: 0,
            output: b"",
            pages: Some(PageUse {
                referenced: [1, 1, 0],
                modified: $modified,
            }),
        }
    };
}

/// Whatever the machine keeps of a page, a store after a load of it marks it as modified.
///
/// Windows are stored and loaded where there are too few, and every function of a chain returns to its caller. Of the
/// 40 SAVEs all but the first N - 2 overflow, and of the 39 RESTOREs all but the first N - 2 underflow; each takes 24
/// turns more, the trap and the handler's 23.
static RUNS: [Run; 21] = [
    // as many turns as a second takes
    words!(&[0x1080_0000, NOP], 20_000_000 => End::Limit, [20_000_000, 0, 0], 0),
    words!(&[0x1080_0000, NOP], 10 => End::Limit, [10, 0, 0], 0),
    words!(&[0x1D3C_0040, 0x1080_0000, 0x9DE3_A000], 100 => End::ErrorMode(0x09), [19, 1, 0], 0x3B6),
    words!(&[0x1D00_0100, 0x1080_0000, 0x9DE3_A000], 100 => End::ErrorMode(0x09), [19, 1, 0], 0x3AA),
    words!(&[0x033C_0000, 0xC400_4000], 100 => End::Trapped(0x09), [4, 0, 0], 0x30E),
    words!(&[0x0300_0100, 0xC020_4000], 100 => End::Trapped(0x09), [4, 0, 0], 0x38A),
    words!(&[0xC400_0000], 100 => End::Trapped(0x09), [3, 0, 0], 0x206),
    words!(&[0xC218_2001], 100 => End::Trapped(0x02), [3, 0, 0], 0),
    // udiv %g0,%g0,%g1
    words!(&[0x8270_0000], 100 => End::Trapped(0x2A), [3, 0, 0], 0),
    // taddcctv %g0,1,%g1
    words!(&[0x8310_2001], 100 => End::Trapped(0x0A), [3, 0, 0], 0),
    Run {
        code: Code::Words(&GREETING),
        data: &[],
        windows: 8,
        input: b"",
        limit: 100,
        end: End::Exit(0),
        counts: [16, 0, 0],
        status: 0,
        output: b"Hi",
        pages: Some(PageUse {
            referenced: [1, 0, 0],
            modified: [0, 0, 0],
        }),
    },
    // What is got is put out, and the end of the input is the exit word: 5 turns for each get and put, 3 for the exit.
    Run {
        code: Code::Words(&[GET, PUT, GET, PUT, GET, EXIT]),
        data: &[],
        windows: 8,
        input: b"ab",
        limit: 100,
        end: End::Exit(0xFFFF_FFFF),
        counts: [28, 0, 0],
        status: 0,
        output: b"ab",
        pages: None,
    },
    chain!(Shape::Plain, 4 => 0, [2006, 38, 37]),
    chain!(Shape::Plain, 5 => 0, [1958, 37, 36]),
    chain!(Shape::Plain, 6 => 0, [1910, 36, 35]),
    chain!(Shape::Plain, 32 => 0, [662, 10, 9]),
    chain!(Shape::Result, 4 => 42, [2006, 38, 37]),
    over_data!(&STORES_AFTER_A_LOAD, 4 => 7, [0, 1, 0]),
    over_data!(&STORES_AFTER_A_LOAD, 8 => 7, [0, 1, 0]),
    over_data!(&STORES_AFTER_A_LOAD, 32 => 7, [0, 1, 0]),
    over_data!(&LOADS, 4 => 6, [0, 0, 0]),
];

/// Whether a raw run is that of a row.
fn is(raw: &Raw, run: &Run) -> bool {
    let [turns, overflows, underflows] = run.counts;
    let wanted = Outcome {
        ending: run.end.ending(),
        turns,
        overflows,
        underflows,
    };
    raw.outcome == wanted
        && raw.fault_status == run.status
        && raw.output.as_slice() == run.output
        && (run.pages.is_none() || run.pages == Some(raw.pages))
}

/// The raw run of an image on `N` windows.
fn run_on<const N: usize>(
    alloc: Global,
    image: &Image,
    input: &[u8],
    limit: u64,
) -> Result<Raw, Fail>
    requires { (4 ≤ N) × (N ≤ 32) }
{
    Ok(run_raw::<N>(alloc, image, input, limit)?)
}

/// The raw run of an image as a row has it.
fn raw_of(alloc: Global, image: &Image, run: &Run) -> Result<Raw, Fail> {
    match run.windows {
        4 => run_on::<4>(alloc, image, run.input, run.limit),
        5 => run_on::<5>(alloc, image, run.input, run.limit),
        6 => run_on::<6>(alloc, image, run.input, run.limit),
        8 => run_on::<8>(alloc, image, run.input, run.limit),
        _ => run_on::<32>(alloc, image, run.input, run.limit),
    }
}

/// Whether the raw run of an image ends as its row says.
fn ends_so(alloc: Global, image: &Image, run: &Run) -> Result<bool, Fail> {
    let raw = raw_of(alloc, image, run)?;
    Ok(is(&raw, run))
}

/// Whether the raw run of a row ends as it says.
fn agrees(alloc: Global, run: &Run) -> Result<bool, Fail> {
    let image = run.code.image(alloc, run.data)?;
    ends_so(alloc, &image, run)
}

/// Asserts that each row's does.
fn agree(rt: &impl Abort, alloc: Global, rows: &[Run]) -> Result<(), Fail> {
    for number in 0..rows.len() {
        assert!(rt; agrees(alloc, &rows[number])?, "{number}");
    }
    Ok(())
}

#[test]
fn raw_runs_end_as_worked_out(rt: HostRuntime) -> Result<(), Fail> {
    agree(&rt, rt.alloc(), &RUNS)
}

/// So many bytes, each of which differs from its neighbours.
fn bytes_of(alloc: Global, count: u32) -> Result<Vec<u8>, AllocError> {
    let mut bytes = Vec::new(alloc);
    for number in 0..count {
        bytes.push((number % 251) as u8)?;
    }
    Ok(bytes)
}

/// The raw run of 37,748,736 turns of a loop of 12 turns that gets a byte and puts it out.
fn long_echo(alloc: Global, input: &[u8]) -> Result<Raw, Fail> {
    // ta 1; ta 2; ba .-8; nop
    let image = image(alloc, &[GET, PUT, 0x10BF_FFFE, NOP], &[])?;
    run_on::<8>(alloc, &image, input, 37_748_736)
}

/// Whether a raw run of so many turns has put this out.
fn gives(raw: &Raw, output: &[u8], turns: u64) -> bool {
    raw.output.as_slice() == output && raw.outcome.turns == turns
}

/// Whether the loop gives all of 3 MiB back.
fn gives_back(alloc: Global) -> Result<bool, Fail> {
    let input = bytes_of(alloc, 3_145_728)?;
    let raw = long_echo(alloc, &input)?;
    Ok(gives(&raw, &input, 37_748_736))
}

#[test]
fn long_outputs_are_kept(rt: HostRuntime) -> Result<(), Fail> {
    assert!(rt; gives_back(rt.alloc())?);
    Ok(())
}

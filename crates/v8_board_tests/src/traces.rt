//! Traces, line by line.
ghost use Rattle.std.specs.Prelude.{◌≤◌, ℕ};

use crate::images::{EXIT, GREETING, NOP, image};
use sbx_raw::{Ending, Line, Outcome, RunFault, make_line, trace};
use std::alloc::Global;
use std::io::{self, Write};
use std::process::Abort;
use std::test::Fail;
use v8_core::{Event, Turn};
use v8_word::TrapType;

const GREETING_TRACE: &[u8] = b"0000000001 00 u 00040000 90102048 ran
0000000002 00 u 00040004 91D02002 trap 82
0000000003 07 s F0000820 273C0040 ran
0000000004 07 s F0000824 F024E004 ran
0000000005 07 s F0000828 81C48000 ran
0000000006 07 s F000082C 81CCA004 ran
0000000007 00 u 00040008 90102069 ran
0000000008 00 u 0004000C 91D02002 trap 82
0000000009 07 s F0000820 273C0040 ran
0000000010 07 s F0000824 F024E004 ran
0000000011 07 s F0000828 81C48000 ran
0000000012 07 s F000082C 81CCA004 ran
0000000013 00 u 00040010 90102000 ran
0000000014 00 u 00040014 91D02000 trap 80
0000000015 07 s F0000800 273C0040 ran
0000000016 07 s F0000804 F024E008 exit 00000000
";

/// Words with the trace of at most so many of their turns at eight windows.
struct Traced {
    words: &'static [u32],
    limit: u64,
    text: &'static [u8],
}

static TRACES: [Traced; 5] = [
    Traced {
        words: &GREETING,
        limit: 100_000,
        text: GREETING_TRACE,
    },
    Traced {
        words: &GREETING,
        limit: 0,
        text: b"",
    },
    Traced {
        words: &GREETING,
        limit: 2,
        text: b"0000000001 00 u 00040000 90102048 ran\n0000000002 00 u 00040004 91D02002 trap 82\n",
    },
    Traced {
        words: &[0xC400_0000],
        limit: 100,
        text: b"0000000001 00 u 00040000 C4000000 trap 09
0000000002 07 s F0000090 273C0040 ran
0000000003 07 s F0000094 C024E00C stopped
",
    },
    // ba,a .+8
    Traced {
        words: &[0x3080_0002, NOP, EXIT],
        limit: 3,
        text: b"0000000001 00 u 00040000 30800002 ran
0000000002 00 u 00040004 -------- annulled
0000000003 00 u 00040008 91D02000 trap 80
",
    },
];

/// What is asked of a trace's outcome.
#[derive(Clone, Copy)]
enum Wanted {
    /// That there is one.
    Whole,
    /// So many turns.
    Turns(u64),
    /// The limit, after so many turns.
    Limit(u64),
    /// Error mode, by a trap of this number.
    ErrorMode(u8),
    /// That the writer failed.
    Failure,
}

/// Whether the outcome of a whole trace is as asked.
fn is_whole(outcome: &Outcome, wanted: Wanted) -> bool {
    match wanted {
        Wanted::Whole => true,
        Wanted::Turns(turns) => outcome.turns == turns,
        Wanted::Limit(turns) => outcome.ending == Ending::Limit && outcome.turns == turns,
        Wanted::ErrorMode(number) => outcome.ending == Ending::ErrorMode(TrapType::new(number)),
        Wanted::Failure => false,
    }
}

/// Whether a trace is told as asked.
fn is_told(told: &Result<Outcome, RunFault>, wanted: Wanted) -> bool {
    match told {
        Ok(outcome) => is_whole(outcome, wanted),
        Err(fault) => *fault == RunFault::Writer && matches!(wanted, Wanted::Failure),
    }
}

/// Traces at most so many turns of raw words on `N` windows, without input, and tells whether the outcome is as asked.
fn trace_words<const N: usize, W: Write>(
    alloc: Global,
    words: &[u32],
    limit: u64,
    wanted: Wanted,
    out: &mut W,
) -> Result<bool, Fail>
    requires { (4 ≤ N) × (N ≤ 32) }
{
    let image = image(alloc, words, &[])?;
    let told = trace::<N, W>(alloc, &image, b"", limit, out);
    Ok(is_told(&told, wanted))
}

/// Whether the trace of a row is its text.
fn agrees(alloc: Global, row: &Traced) -> Result<bool, Fail> {
    let mut out = Vec::new(alloc);
    let is_traced = trace_words::<8, Vec<u8>>(
        alloc,
        row.words,
        row.limit,
        Wanted::Whole,
        &mut out,
    )?;
    Ok(is_traced && out.as_slice() == row.text)
}

/// Asserts that each row's is.
fn agree(rt: &impl Abort, alloc: Global, rows: &[Traced]) -> Result<(), Fail> {
    for number in 0..rows.len() {
        assert!(rt; agrees(alloc, &rows[number])?, "{number}");
    }
    Ok(())
}

#[test]
fn traces_have_a_line_a_turn(rt: HostRuntime) -> Result<(), Fail> {
    agree(&rt, rt.alloc(), &TRACES)
}

/// Whether the trace of SAVEs with the stack pointer at the device ends in error mode, and with the line that tells it.
fn tells_error_mode(alloc: Global) -> Result<bool, Fail> {
    let mut out = Vec::new(alloc);
    let words = [0x1D3C_0040, 0x1080_0000, 0x9DE3_A000];
    let wanted = Wanted::ErrorMode(0x09);
    let is_traced = trace_words::<4, Vec<u8>>(alloc, &words, 100, wanted, &mut out)?;
    let line = b"\n0000000019 00 s F0001020 E03BA000 error 09\n";
    Ok(is_traced && out.as_slice().ends_with(line))
}

/// The store of an overflow fails, and ends in error mode.
#[test]
fn error_mode_is_traced(rt: HostRuntime) -> Result<(), Fail> {
    assert!(rt; tells_error_mode(rt.alloc())?);
    Ok(())
}

/// Counts the bytes that it takes, and keeps none.
#[derive(Drop)]
struct Counter {
    count: u64,
}

impl Write for Counter {
    fn write(&mut self, buf: &[u8]) -> io::Result<usize> {
        self.count = self.count.saturating_add(buf.len() as u64);
        Ok(buf.len())
    }

    fn flush(&mut self) -> io::Result<()> {
        Ok(())
    }
}

/// A loop of two turns, traced two million turns long, has as many lines, each of 38 bytes.
#[test]
fn long_traces_have_a_line_a_turn(rt: HostRuntime) -> Result<(), Fail> {
    let mut out = Counter { count: 0 };
    let wanted = Wanted::Limit(2_000_000);
    let is_traced = trace_words::<8, Counter>(
        rt.alloc(),
        &[0x1080_0000, NOP],
        2_000_000,
        wanted,
        &mut out,
    )?;
    assert!(rt; is_traced && out.count == 76_000_000);
    Ok(())
}

/// Takes at most seven bytes a call, until there is no more room; then it fails or takes none.
#[derive(Drop)]
struct Narrow {
    kept: Vec<u8>,
    room: usize,
    fails: bool,
}

impl Narrow {
    fn is_broken(&self) -> bool {
        self.room == 0 && self.fails
    }
}

impl Write for Narrow {
    fn write(&mut self, buf: &[u8]) -> io::Result<usize> {
        if self.is_broken() {
            return Err(io::Error::from(io::ErrorKind::Other));
        }
        let count = buf.len().min(7).min(self.room);
        self.kept.extend_from_slice(&buf[..count])?;
        self.room -= count;
        Ok(count)
    }

    fn flush(&mut self) -> io::Result<()> {
        if self.is_broken() {
            return Err(io::Error::from(io::ErrorKind::Other));
        }
        Ok(())
    }
}

/// Whether a writer has taken as many bytes as it had room for, and they are the front of the greeting's trace.
fn has_the_front(out: &Narrow, room: usize) -> bool {
    GREETING_TRACE.starts_with(out.kept.as_slice()) && out.kept.len() == room
}

/// Whether a writer with this room gets the front of the greeting's trace, and the whole of it where there is room.
fn gets_the_front(alloc: Global, room: usize, fails: bool, whole: bool) -> Result<bool, Fail> {
    let mut out = Narrow {
        kept: Vec::new(alloc),
        room,
        fails,
    };
    let wanted = if whole {
        Wanted::Turns(16)
    } else {
        Wanted::Failure
    };
    let is_traced = trace_words::<8, Narrow>(alloc, &GREETING, 100, wanted, &mut out)?;
    Ok(is_traced && has_the_front(&out, room))
}

/// How much room a writer has, whether it fails or takes nothing where that is used up, and whether it gets the whole
/// trace.
const FRONTS: [(usize, bool, bool); 5] = [
    (60, true, false),
    (60, false, false),
    (0, true, false),
    (GREETING_TRACE.len(), true, false),
    (GREETING_TRACE.len(), false, true),
];

/// What a writer took before it failed is the front of the trace.
#[test]
fn a_failing_writer_keeps_the_front(rt: HostRuntime) -> Result<(), Fail> {
    for &(room, fails, whole) in &FRONTS {
        assert!(rt;
            gets_the_front(rt.alloc(), room, fails, whole)?,
            "{room} {fails}"
        );
    }
    Ok(())
}

/// Numbers of turns with their lines.
const GREAT: [(u64, &[u8]); 3] = [
    (
        9_999_999_999,
        b"9999999999 31 s FFFFFFFC -------- trap FF\n",
    ),
    (
        10_000_000_000,
        b"10000000000 31 s FFFFFFFC -------- trap FF\n",
    ),
    (
        u64::MAX,
        b"18446744073709551615 31 s FFFFFFFC -------- trap FF\n",
    ),
];

/// Whether the line of a turn of this number is this text.
fn is_line(line: &mut Line, number: u64, text: &[u8]) -> bool {
    let turn = Turn {
        event: Event::Trapped(TrapType::new(0xFF)),
        cwp: 31,
        user: false,
        pc: 0xFFFF_FFFC,
        word: None,
        access: None,
    };
    make_line(line, number, &turn);
    line.as_slice() == text
}

/// Numbers of more than ten digits have as many as they need.
#[test]
fn great_numbers_are_whole(rt: HostRuntime) {
    let mut line = Line::new();
    for &(number, text) in &GREAT {
        assert!(rt; is_line(&mut line, number, text), "{number}");
    }
}

//! Rows of runs over streams.
ghost use Rattle.std.specs.Prelude.{◌≤◌};

use crate::calls::finished_on;
use crate::runs::accepted_of;
use crate::sources::{ECHO, THREE, assembled};
use crate::streams::{Sink, Source};
use sbx_stream::{Accepted, Finished, RunFault, run_stream};
use std::alloc::Global;
use std::process::Abort;

/// A source, what a reader and a writer do, and what comes of it. The reader gives the input, and then ends, or is
/// broken; the writer takes so many bytes, and then takes none, or is broken.
#[derive(Clone, Copy)]
struct Row<'a> {
    source: &'static str,
    input: &'a [u8],
    reader_breaks: bool,
    room: usize,
    writer_breaks: bool,
    fault: Option<RunFault>,
    written: &'a [u8],
    status: u32,
    turns: u64,
    reads: u64,
    writes: u64,
}

/// An echo of nothing: its reader is asked for the end, and no stream fails.
const SILENT: Row<'static> = Row {
    source: ECHO,
    input: b"",
    reader_breaks: false,
    room: 5000,
    writer_breaks: false,
    fault: None,
    written: b"",
    status: 0,
    turns: 14,
    reads: 1,
    writes: 0,
};

static ECHOES: [Row<'static>; 2] = [
    SILENT,
    Row {
        input: b"abc",
        written: b"abc",
        turns: 62,
        reads: 4,
        writes: 3,
        ..SILENT
    },
];

/// A reader that breaks before it gives a byte.
const UNREAD: Row<'static> = Row {
    reader_breaks: true,
    fault: Some(RunFault::Reader),
    ..SILENT
};

/// A writer that takes one byte, and then none.
const UNWRITTEN: Row<'static> = Row {
    input: b"abc",
    room: 1,
    fault: Some(RunFault::Writer),
    written: b"a",
    reads: 2,
    writes: 2,
    ..SILENT
};

static BROKEN: [Row<'static>; 5] = [
    Row {
        input: b"ab",
        written: b"ab",
        reads: 3,
        writes: 2,
        ..UNREAD
    },
    UNREAD,
    UNWRITTEN,
    Row {
        writer_breaks: true,
        ..UNWRITTEN
    },
    Row {
        room: 0,
        written: b"",
        reads: 1,
        writes: 1,
        ..UNWRITTEN
    },
];

/// Three bytes are asked for, and the third is told: none.
const NO_THIRD: Row<'static> = Row {
    source: THREE,
    status: 0xFFFF_FFFF,
    turns: 18,
    ..SILENT
};

static ENDED: [Row<'static>; 3] = [
    NO_THIRD,
    Row {
        input: b"a",
        reads: 2,
        ..NO_THIRD
    },
    Row {
        input: b"abc",
        status: 0x63,
        reads: 3,
        ..NO_THIRD
    },
];

/// Whether a run over streams gave what the row says, and what a run alone, over the same bytes in memory, gave.
fn are_alike(finished: &Finished, alone: &Finished, row: &Row<'_>) -> bool {
    row.fault.is_none()
        && finished.status == row.status
        && finished.turns == row.turns
        && finished.output.is_empty()
        && alone.status == finished.status
        && alone.turns == finished.turns
        && alone.overflows == finished.overflows
        && alone.underflows == finished.underflows
        && alone.pages == finished.pages
        && alone.output.as_slice() == row.written
}

/// Whether a run gave what the row says, and what a run over the same bytes in memory gives.
fn gave<const N: usize>(
    alloc: Global,
    accepted: &Accepted,
    finished: &Finished,
    row: &Row<'_>,
) -> bool
    requires { (4 ≤ N) × (N ≤ 32) }
{
    match finished_on::<N>(alloc, accepted, row.input) {
        Some(alone) => are_alike(finished, &alone, row),
        None => false,
    }
}

/// Whether reader and writer were asked as the row says: for a byte at a time, and for no flush.
fn asked(reader: &Source<'_>, writer: &Sink, row: &Row<'_>) -> bool {
    reader.reads == row.reads
        && reader.asked == row.reads
        && writer.writes == row.writes
        && writer.took(row.written)
        && writer.flushes == 0
}

/// Whether the run on `N` windows is what the row says.
fn runs_on<const N: usize>(alloc: Global, accepted: &Accepted, row: &Row<'_>) -> bool
    requires { (4 ≤ N) × (N ≤ 32) }
{
    let mut reader = Source::new(row.input, row.reader_breaks);
    let mut writer = Sink::new(row.room, row.writer_breaks);
    let so = match run_stream::<N, Source<'_>, Sink>(alloc, accepted, &mut reader, &mut writer) {
        Ok(finished) => gave::<N>(alloc, accepted, &finished, row),
        Err(fault) => row.fault == Some(fault),
    };
    so && asked(&reader, &writer, row)
}

/// The image of a source, if it is accepted.
fn accepted_in(alloc: Global, source: &str) -> Option<Accepted> {
    accepted_of(alloc, assembled(alloc, source.as_bytes())?)
}

/// Whether the row's source is accepted, and runs so on few windows and on many.
fn is_so(alloc: Global, row: &Row<'_>) -> bool {
    match accepted_in(alloc, row.source) {
        Some(accepted) => {
            runs_on::<4>(alloc, &accepted, row)
                && runs_on::<8>(alloc, &accepted, row)
                && runs_on::<32>(alloc, &accepted, row)
        }
        None => false,
    }
}

/// Each row is so.
fn are_so(rt: &impl Abort, alloc: Global, rows: &[Row<'_>]) {
    for row in rows {
        assert!(rt; is_so(alloc, row), "{} {}", row.reads, row.writes);
    }
}

/// A thousand bytes, and as many that are never read.
const LONG: [u8; 2000] = [b'x'; 2000];

/// Whether the first half of these bytes comes back.
fn is_cut(alloc: Global, input: &[u8]) -> bool {
    let (written, _unread) = input.split_at(input.len() / 2);
    let row = Row {
        input,
        written,
        turns: 16006,
        reads: 1000,
        writes: 1000,
        ..SILENT
    };
    is_so(alloc, &row)
}

#[test]
fn streams_are_echoed(rt: HostRuntime) {
    are_so(&rt, rt.alloc(), &ECHOES);
    assert!(rt; is_cut(rt.alloc(), &LONG));
}

#[test]
fn broken_streams_end_runs(rt: HostRuntime) {
    are_so(&rt, rt.alloc(), &BROKEN);
}

#[test]
fn ended_inputs_are_not_asked_again(rt: HostRuntime) {
    are_so(&rt, rt.alloc(), &ENDED);
}

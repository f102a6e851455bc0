//! Each call of the file, the input and the output fails in turn.
use super::sources::SOURCE;
use super::streams::ECHO;
use super::words::job_named;
use super::{HELLO, Told, answer_of};
use crate::passing::passes;
use cmd_command::Job;
use std::alloc::Global;
use std::process::Abort;

/// The name of a job, its file, and how many calls it makes of the file, of the input, which has three bytes, and of
/// the output. A read gives a byte, and a further one tells the end; a trace is written line by line, and each output
/// is flushed at its end.
type Row = (&'static str, &'static [u8], [usize; 3]);

const ROWS: [Row; 5] = [
    ("verify", &HELLO, [87, 0, 2]),
    ("list", &HELLO, [87, 0, 7]),
    ("run", &ECHO, [204, 4, 4]),
    ("trace", &HELLO, [87, 4, 17]),
    ("asm", SOURCE, [110, 0, 2]),
];

/// What is told of a call that fails, of the file, the input and the output, by their numbers.
const LINES: [(usize, &[u8]); 3] = [(0, b"file\n"), (1, b"input\n"), (2, b"output\n")];

/// Whether what a job tells with a failed call is this line, and what it has put out is the front of what it puts out
/// otherwise.
fn is_stop(told: &Told, ample: &Told, line: &[u8]) -> bool {
    let whole = ample.out.text();
    told.ended.status == 4 && told.err.has(line) && whole.starts_with(told.out.text())
}

/// Whether a job tells what it tells without a failed call.
fn is_like(told: &Told, ample: &Told) -> bool {
    told.ended.status == 0
        && told.out.flushed
        && told.out.has(ample.out.text())
        && told.err.has(b"")
}

/// The calls that fail, where one of the file, the input or the output is to.
fn failing(stream: usize, call: usize) -> [usize; 3] {
    match stream {
        0 => [call, 0, 0],
        1 => [0, call, 0],
        _ => [0, 0, call],
    }
}

/// Whether a job stops at each of so many calls of the file, the input or the output, and makes no further one.
fn stops_at_each(
    alloc: Global,
    job: &Job<'_>,
    row: &Row,
    ample: &Told,
    stream: usize,
    line: &[u8],
) -> bool {
    let calls = row.2[stream % 3];
    for call in 1..=calls {
        if !is_stop(
            &answer_of(alloc, job, row.1, failing(stream, call)),
            ample,
            line,
        ) {
            return false;
        }
    }
    let further = failing(stream, calls.wrapping_add(1));
    is_like(&answer_of(alloc, job, row.1, further), ample)
}

/// Whether a job is done where no call fails, and stops at each that fails.
fn is_stopped_by_each(alloc: Global, job: &Job<'_>, row: &Row) -> bool {
    let ample = answer_of(alloc, job, row.1, [0, 0, 0]);
    for (stream, line) in &LINES {
        if !stops_at_each(alloc, job, row, &ample, *stream, *line) {
            return false;
        }
    }
    is_like(&ample, &ample)
}

/// The same of the job that a row names.
fn is_stopped(alloc: Global, row: &Row) -> bool {
    match job_named(row.0) {
        Some(job) => is_stopped_by_each(alloc, &job, row),
        None => false,
    }
}

/// Each job is stopped by each call that fails.
fn are_stopped<R: Abort>(rt: &R, alloc: Global, rows: &[Row]) {
    for row in rows {
        passes(rt, row.0, is_stopped(alloc, row));
    }
}

#[test]
fn each_failed_call_is_told(rt: HostRuntime) {
    are_stopped(&rt, rt.alloc(), &ROWS);
}

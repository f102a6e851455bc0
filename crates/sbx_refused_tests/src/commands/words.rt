//! Command lines and what they ask for, by tables that are one text each; also of what is read alone: numbers, and
//! bytes up to a bound.
use super::sources::ASM;
use super::{LIST, RUN, Reader, TRACE, VERIFY};
use crate::passing::passes;
use cmd_command::{ReadFault, read_whole};
use cmd_jobs::{decimal, turns, window_count};
use cmd_words::{Job, Usage, Windows, read_words};
use std::alloc::Global;
use std::process::Abort;

/// Whether a job is the wanted one; where none is wanted, it is not.
fn is_wanted(found: &Job<'_>, job: Option<&Job<'_>>) -> bool {
    match job {
        Some(wanted) => found == wanted,
        None => false,
    }
}

/// Whether it is told, by a text, that words ask for nothing, where they do; none where a growth was refused.
fn is_none_told(usage: &Usage, asks_nothing: bool) -> Option<bool> {
    match usage {
        Usage::Text(text) => Some(asks_nothing && !text.is_empty()),
        Usage::Memory(_) | Usage::NoRoom(_) => None,
    }
}

/// Whether words are read as the job, or as words that ask for nothing; none where a growth was refused.
fn answer_to(alloc: Global, words: &[&str], job: Option<&Job<'_>>) -> Option<bool> {
    match read_words(alloc, words) {
        Ok(found) => Some(is_wanted(&found, job)),
        Err(usage) => is_none_told(&usage, job.is_none()),
    }
}

/// The same of the words of a line.
fn tried(alloc: Global, line: &str, job: Option<&Job<'_>>) -> Option<bool> {
    match line.split_whitespace().collect::<Vec<&str>>(alloc) {
        Ok(words) => answer_to(alloc, words.as_slice(), job),
        Err(_) => None,
    }
}

/// Whether the words of a line are read as wanted. A line whose growth was refused is read once more.
fn is_read(alloc: Global, line: &str, job: Option<&Job<'_>>) -> bool {
    match tried(alloc, line, job) {
        Some(is_read) => is_read,
        None => tried(alloc, line, job) == Some(true),
    }
}

/// Whether the words of a line are read as a run on so many windows.
fn is_run_read(alloc: Global, line: &str, count: Option<u32>) -> bool {
    let Some(count) = count else {
        return is_read(alloc, line, None);
    };
    match Windows::new(count) {
        Some(windows) => is_read(
            alloc,
            line,
            Some(&Job::Run {
                image: "a.img",
                windows,
            }),
        ),
        None => false,
    }
}

/// Whether the words of a line are read as a trace on so many windows, up to so many turns.
fn is_trace_read(alloc: Global, line: &str, numbers: Option<(u32, u64)>) -> bool {
    let Some((count, limit)) = numbers else {
        return is_read(alloc, line, None);
    };
    match Windows::new(count) {
        Some(windows) => is_read(
            alloc,
            line,
            Some(&Job::Trace {
                image: "a.img",
                windows,
                limit,
            }),
        ),
        None => false,
    }
}

/// Lines and the names of their jobs; none for a line that asks for nothing.
const LINES: &str = "asm a.s a.img = asm
asm a.s = none
asm = none
asm a.s a.img b.img = none
run a.img = run
run = none
verify a.img = verify
verify = none
verify --limit 8 a.img = none
list a.img = list
list -- a.img = list
list = none
list a.img b.img = none
list --windows 8 a.img = none
list --help = none
walk a.img = none
help = none
help list = none
--help = none
-h = none
-V = none
 = none
";

/// Lines of `run` and their counts of windows; none for a line that asks for nothing.
const RUNS: &str = "run a.img = 8
run --windows 32 a.img = 32
run --windows 4 a.img = 4
run --windows=5 a.img = 5
run a.img --windows 031 = 31
run --windows 33 a.img = none
run --windows 3 a.img = none
run --windows 0 a.img = none
run --windows 4294967300 a.img = none
run --windows 18446744073709551624 a.img = none
run --windows abc a.img = none
run --windows +8 a.img = none
run --windows= a.img = none
run a.img --windows = none
run --windows 8 --windows 8 a.img = none
run --limit 8 a.img = none
";

/// Lines of `trace`, their counts of windows and their limits; none for a line that asks for nothing.
const TRACES: &str = "trace a.img = 8 100000
trace --limit 8 a.img = 8 8
trace --limit=8 a.img = 8 8
trace a.img --limit 008 = 8 8
trace --limit 0 a.img = 8 0
trace --limit 9999999999 a.img = 8 9999999999
trace --windows 4 a.img = 4 100000
trace --windows 32 --limit 2 a.img = 32 2
trace --limit 2 a.img --windows 31 = 31 2
trace --limit 10000000000 a.img = none
trace --limit +8 a.img = none
trace --limit -8 a.img = none
trace --limit 0x8 a.img = none
trace --limit= a.img = none
trace --limit 8 --limit 8 a.img = none
trace a.img --limit = none
trace a.img b.img = none
trace --limit 8 = none
trace --windows 33 a.img = none
trace --windows 3 --limit 8 a.img = none
";

/// The job of a name.
pub(super) fn job_named(name: &str) -> Option<Job<'static>> {
    match name {
        "asm" => Some(ASM),
        "run" => Some(RUN),
        "verify" => Some(VERIFY),
        "list" => Some(LIST),
        "trace" => Some(TRACE),
        _ => None,
    }
}

/// A count of windows and a limit.
fn numbers_in(text: &str) -> Option<(u32, u64)> {
    let (count, limit) = text.split_once(' ')?;
    match (count.parse(), limit.parse()) {
        (Ok(count), Ok(limit)) => Some((count, limit)),
        _ => None,
    }
}

/// What is read of a reader that fails at a call. Where a growth was refused, it is read once more.
fn read(alloc: Global, bytes: &[u8], most: usize, fails: usize) -> Result<Vec<u8>, ReadFault> {
    match read_whole(alloc, &mut Reader::new(bytes, fails), most) {
        Err(ReadFault::Memory(_)) => read_whole(alloc, &mut Reader::new(bytes, fails), most),
        first => first,
    }
}

/// What is told of the bytes that were read: whether they are all.
fn name_of(is_all: bool) -> &'static str {
    if is_all { "all" } else { "others" }
}

/// What a fault of a reading is called.
fn fault_name(fault: ReadFault) -> &'static str {
    match fault {
        ReadFault::TooLong => "too long",
        ReadFault::Reader => "the reader",
        ReadFault::Memory(_) => "memory",
    }
}

/// What reading bytes, within a bound and up to the call that fails, gives.
fn reading(alloc: Global, bytes: &[u8], most: usize, fails: usize) -> &'static str {
    match read(alloc, bytes, most, fails) {
        Ok(found) => name_of(found.as_slice() == bytes),
        Err(fault) => fault_name(fault),
    }
}

/// Whether the bytes of a row, within its bound and up to the call that fails, are read as wanted.
fn are_bytes_read(alloc: Global, row: &str, wanted: &str) -> bool {
    let Some((bytes, numbers)) = row.split_once(' ') else {
        return false;
    };
    match numbers_in(numbers) {
        Some((most, fails)) => {
            reading(alloc, bytes.as_bytes(), most as usize, fails as usize) == wanted
        }
        None => false,
    }
}

/// The text of an option, where it isn't left out.
fn option_in(text: &str) -> Option<&str> {
    match text {
        "left out" => None,
        _ => Some(text),
    }
}

/// What stands before the `=` of a table's rows.
#[derive(Clone, Copy)]
pub(super) enum Given {
    /// The words of any job; then its name.
    Job,
    /// The words of a run; then its count of windows.
    Run,
    /// The words of a trace; then its count of windows and its limit.
    Trace,
    /// The text of a number up to 9; then the number.
    Decimal,
    /// The text of a limit of turns; then the limit.
    Turns,
    /// The text of a count of windows; then the count.
    Windows,
    /// Bytes, the bound and the call that fails; then `all`, where all bytes are read, or why none are.
    Bytes,
}

/// The count of windows that a text gives.
fn count_in(text: Option<&str>) -> Option<u64> {
    match window_count(text) {
        Some(windows) => Some(u64::from(windows.count())),
        None => None,
    }
}

/// The number that a text gives.
fn number_in(given: Given, text: &str) -> Option<u64> {
    match given {
        Given::Decimal => decimal(text, 9),
        Given::Turns => turns(option_in(text)),
        _ => count_in(option_in(text)),
    }
}

/// Whether a text, which the row gives so, is read as wanted.
fn is_given_read(alloc: Global, given: Given, text: &str, wanted: &str) -> bool {
    match given {
        Given::Job => is_read(alloc, text, job_named(wanted).as_ref()),
        Given::Run => is_run_read(alloc, text, wanted.parse().ok()),
        Given::Trace => is_trace_read(alloc, text, numbers_in(wanted)),
        Given::Bytes => are_bytes_read(alloc, text, wanted),
        _ => number_in(given, text) == wanted.parse().ok(),
    }
}

/// Whether a row is read as it tells.
fn is_row_read(alloc: Global, given: Given, row: &str) -> bool {
    match row.split_once(" = ") {
        Some((text, wanted)) => is_given_read(alloc, given, text, wanted),
        None => false,
    }
}

/// Each row of a table, a line each, is read so.
pub(super) fn are_read<R: Abort>(rt: &R, alloc: Global, given: Given, rows: &str) {
    for row in rows.lines() {
        passes(rt, row, is_row_read(alloc, given, row));
    }
}

#[test]
fn reads_the_words(rt: HostRuntime) {
    are_read(&rt, rt.alloc(), Given::Job, LINES);
}

#[test]
fn reads_a_count_of_windows(rt: HostRuntime) {
    are_read(&rt, rt.alloc(), Given::Run, RUNS);
}

#[test]
fn reads_a_limit(rt: HostRuntime) {
    are_read(&rt, rt.alloc(), Given::Trace, TRACES);
}

//! A chain of calls that is deeper than any count of windows, from its source to its run and its trace.
use super::{Writer, status_on};
use cmd_command::{Job, Windows};
use std::alloc::Global;
use std::io::{self, Write};

const ASM: Job<'static> = Job::Asm {
    source: "chain.s",
    object: "chain.img",
};

/// The first function.
const FIRST: &[u8] = b".services exit,get,put
.function f0,framed,96,3840,2102
.fuel 2102
 save %sp,-96,%sp
 call f1
 nop
 mov 0,%o0
 ta 0
";

/// The last function, which puts out `!`.
const LAST: &[u8] = b".function f39,framed,96,96,57
.fuel 57
 save %sp,-96,%sp
 mov 33,%o0
 ta 2
 ret
 restore
";

/// What the chain puts out.
const PUT_OUT: &[u8] = b"!";

/// Adds a function that calls the next one.
fn push(text: &mut Vec<u8>, function: u64) -> io::Result<()> {
    let below = 39u64.saturating_sub(function);
    let room = below.saturating_mul(96).saturating_add(96);
    let budget = below.saturating_mul(53).saturating_add(57);
    let next = function.saturating_add(1);
    write!(
        text,
        ".function f{function},framed,96,{room},{budget}\n.fuel {budget}\n save %sp,-96,%sp\n call f{next}\n nop\n ret\n restore\n"
    )
}

/// Adds forty functions, each of which calls the next one.
fn push_all(text: &mut Vec<u8>) -> io::Result<()> {
    text.write_all(FIRST)?;
    for function in 1..39u64 {
        push(text, function)?;
    }
    text.write_all(LAST)
}

/// What a job on a file puts out without input, where its status is 0.
fn done(alloc: Global, job: &Job<'_>, mut file: &[u8]) -> Option<Vec<u8>> {
    let mut input: &[u8] = b"";
    let mut out = Vec::new(alloc);
    let mut err = Writer::new(0);
    match status_on(alloc, job, &mut file, &mut input, &mut out, &mut err) {
        0 => Some(out),
        _ => None,
    }
}

/// The chain's image, where all went well.
fn image(alloc: Global) -> Option<Vec<u8>> {
    let mut text = Vec::new(alloc);
    match push_all(&mut text) {
        Ok(()) => done(alloc, &ASM, text.as_slice()),
        Err(_) => None,
    }
}

/// What a job on the chain's image puts out, where all went well.
fn tried(alloc: Global, job: &Job<'_>) -> Option<Vec<u8>> {
    match image(alloc) {
        Some(image) => done(alloc, job, image.as_slice()),
        None => None,
    }
}

/// The same, once more where it wasn't well: a growth may have been refused.
fn answer(alloc: Global, job: &Job<'_>) -> Option<Vec<u8>> {
    match tried(alloc, job) {
        Some(out) => Some(out),
        None => tried(alloc, job),
    }
}

/// How many lines end so.
fn count(text: &str, end: &str) -> usize {
    let mut count = 0usize;
    for line in text.lines() {
        if line.ends_with(end) {
            count = count.wrapping_add(1);
        }
    }
    count
}

/// A count of windows, and the turns, overflows and underflows of the chain on so many.
type Traffic = (u32, usize, usize, usize);

const TRAFFIC: [Traffic; 2] = [(4, 2006, 38, 37), (32, 662, 10, 9)];

/// Whether the chain puts out its byte on so many windows.
fn is_run(alloc: Global, windows: Windows) -> bool {
    let job = Job::Run {
        image: "chain.img",
        windows,
    };
    match answer(alloc, &job) {
        Some(out) => out.as_slice() == PUT_OUT,
        None => false,
    }
}

/// Whether the lines of a trace are those of such traffic, the last of them the exit.
fn has_traffic(text: &str, (_, turns, overflows, underflows): Traffic) -> bool {
    text.ends_with(" exit 00000000\n")
        && count(text, "") == turns
        && count(text, " trap 05") == overflows
        && count(text, " trap 06") == underflows
}

/// The same of bytes, which are text.
fn is_traffic(bytes: &[u8], traffic: Traffic) -> bool {
    match str::from_utf8(bytes) {
        Ok(text) => has_traffic(text, traffic),
        Err(_) => false,
    }
}

/// Whether the chain's trace on so many windows has its traffic.
fn is_traced(alloc: Global, windows: Windows, traffic: Traffic) -> bool {
    let job = Job::Trace {
        image: "chain.img",
        windows,
        limit: 9_999_999_999,
    };
    match answer(alloc, &job) {
        Some(text) => is_traffic(text.as_slice(), traffic),
        None => false,
    }
}

/// Whether the chain runs and is traced as it has to be.
fn is_alike(alloc: Global, traffic: Traffic) -> bool {
    match Windows::new(traffic.0) {
        Some(windows) => is_run(alloc, windows) && is_traced(alloc, windows, traffic),
        None => false,
    }
}

#[test]
fn runs_on_any_count_of_windows(rt: HostRuntime) {
    for traffic in TRAFFIC {
        assert!(rt; is_alike(rt.alloc(), traffic), "on {} windows", traffic.0);
    }
}

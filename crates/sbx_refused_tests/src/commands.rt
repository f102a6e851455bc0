//! Commands on bytes that are or aren't images, over readers and writers that fail at one call.
mod calls;
mod chain;
mod sources;
mod stops;
mod streams;
mod words;

use self::words::{Given, are_read};
use crate::passing::passes;
use cmd_command::{Ended, Job, Windows, command, exit_status};
use std::alloc::Global;
use std::io::{self, Read, Write};
use std::process::Abort;

/// Gives a byte a call, and fails at call `fails`, counted from 1.
#[derive(Clone, Copy)]
struct Reader<'a> {
    bytes: &'a [u8],
    calls: usize,
    fails: usize,
}

impl Reader<'_> {
    fn new(bytes: &[u8], fails: usize) -> Reader<'_> {
        Reader {
            bytes,
            calls: 0,
            fails,
        }
    }
}

impl Read for Reader<'_> {
    fn read(&mut self, buf: &mut [u8]) -> io::Result<usize> {
        self.calls = self.calls.wrapping_add(1);
        if self.calls == self.fails {
            return Err(io::Error::from(io::ErrorKind::Other));
        }
        match self.bytes.split_first() {
            Some((first, rest)) => {
                if buf.is_empty() {
                    return Ok(0);
                }
                buf[0] = *first;
                self.bytes = rest;
                Ok(1)
            }
            None => Ok(0),
        }
    }
}

/// Keeps what is written, up to `most` bytes a call, and fails at call `fails`, counted from 1, flushes among the
/// calls. Its room is its own, so that no refused growth is its. It knows whether it was flushed behind the last write.
#[derive(Clone, Copy)]
struct Writer {
    kept: [u8; 1024],
    count: usize,
    most: usize,
    calls: usize,
    fails: usize,
    flushed: bool,
}

impl Writer {
    fn new(fails: usize) -> Writer {
        Writer {
            kept: [0; 1024],
            count: 0,
            most: usize::MAX,
            calls: 0,
            fails,
            flushed: false,
        }
    }

    /// What was written.
    fn text(&self) -> &[u8] {
        self.kept.get(..self.count).unwrap_or(&self.kept)
    }

    /// Whether these bytes were written.
    fn has(&self, bytes: &[u8]) -> bool {
        self.text() == bytes
    }

    fn call(&mut self) -> io::Result<()> {
        self.calls = self.calls.wrapping_add(1);
        if self.calls == self.fails {
            return Err(io::Error::from(io::ErrorKind::Other));
        }
        Ok(())
    }

    /// Keeps a byte, if there is room.
    fn push(&mut self, byte: u8) {
        if self.count < 1024 {
            self.kept[self.count] = byte;
            self.count += 1;
        }
    }

    /// Keeps bytes where there is room for all of them, and says whether there is.
    fn keep(&mut self, bytes: &[u8]) -> bool {
        if bytes.len() > 1024usize.saturating_sub(self.count) {
            return false;
        }
        for byte in bytes {
            self.push(*byte);
        }
        true
    }
}

impl Write for Writer {
    fn write(&mut self, buf: &[u8]) -> io::Result<usize> {
        self.flushed = false;
        self.call()?;
        let bytes = buf.get(..self.most).unwrap_or(buf);
        if self.keep(bytes) {
            Ok(bytes.len())
        } else {
            Err(io::Error::from(io::ErrorKind::OutOfMemory))
        }
    }

    fn flush(&mut self) -> io::Result<()> {
        self.call()?;
        self.flushed = true;
        Ok(())
    }
}

/// Puts `H` and `i` and exits with 0.
const HELLO: [u8; 86] = [
    0x53, 0x42, 0x58, 0x38, 0x00, 0x01, 0x00, 0x05, 0x00, 0x00, 0x00, 0x06, 0x00, 0x00, 0x00, 0x00,
    0x00, 0x01, 0x00, 0x01, 0x90, 0x10, 0x20, 0x48, 0x91, 0xD0, 0x20, 0x02, 0x90, 0x10, 0x20, 0x69,
    0x91, 0xD0, 0x20, 0x02, 0x90, 0x10, 0x20, 0x00, 0x91, 0xD0, 0x20, 0x00, 0x00, 0x00, 0x00, 0x00,
    0x00, 0x04, 0x00, 0x00, 0x00, 0x00, 0x00, 0x00, 0x00, 0x00, 0x00, 0x00, 0x00, 0x00, 0x00, 0x00,
    0x00, 0x00, 0x00, 0x10, 0x00, 0x01, 0x00, 0x04, 0x00, 0x00, 0x00, 0x00, 0x00, 0x00, 0x00, 0x00,
    0x00, 0x00, 0x00, 0x00, 0x00, 0x10,
];

const VERIFY: Job<'static> = Job::Verify { image: "a.img" };

const RUN: Job<'static> = Job::Run {
    image: "a.img",
    windows: Windows::USUAL,
};

const LIST: Job<'static> = Job::List { image: "a.img" };

const TRACE: Job<'static> = Job::Trace {
    image: "a.img",
    windows: Windows::USUAL,
    limit: 100_000,
};

const TRACE_OF_TWO: Job<'static> = Job::Trace {
    image: "a.img",
    windows: Windows::USUAL,
    limit: 2,
};

const TRACE_OF_NONE: Job<'static> = Job::Trace {
    image: "a.img",
    windows: Windows::USUAL,
    limit: 0,
};

const MEMORY: &[u8] = b"memory\n";

const TWO_TURNS: &[u8] = b"0000000001 00 u 00040000 90102048 ran
0000000002 00 u 00040004 91D02002 trap 82
";

const LAST_TURN: &[u8] = b"\n0000000016 07 s F0000804 F024E008 exit 00000000\n";

const LISTING: &[u8] = b"00040000 90102048 or %g0,72,%o0
00040004 91D02002 ta 2
00040008 90102069 or %g0,105,%o0
0004000C 91D02002 ta 2
00040010 90102000 or %g0,0,%o0
00040014 91D02000 ta 0
";

const FIRST_LINE: &[u8] = b"00040000 90102048 or %g0,72,%o0\n";

/// What a command told: how it ended, and its two outputs.
#[derive(Clone, Copy)]
struct Told {
    ended: Ended,
    out: Writer,
    err: Writer,
}

/// How a job ends. The streams are `dyn` here and below, so that the machines of the counts of windows are compiled
/// once and not for each reader and writer.
fn ended_on(
    alloc: Global,
    job: &Job<'_>,
    mut file: &mut dyn Read,
    mut input: &mut dyn Read,
    mut out: &mut dyn Write,
    mut err: &mut dyn Write,
) -> Ended {
    command(alloc, job, &mut file, &mut input, &mut out, &mut err)
}

/// The exit status of a job.
fn status_on(
    alloc: Global,
    job: &Job<'_>,
    mut file: &mut dyn Read,
    mut input: &mut dyn Read,
    mut out: &mut dyn Write,
    mut err: &mut dyn Write,
) -> u8 {
    exit_status(alloc, job, &mut file, &mut input, &mut out, &mut err)
}

impl Told {
    /// One try of a job on a file and an input, to a writer.
    fn over(
        alloc: Global,
        job: &Job<'_>,
        mut file: Reader<'_>,
        mut input: Reader<'_>,
        mut out: Writer,
    ) -> Told {
        let mut err = Writer::new(0);
        let ended = ended_on(alloc, job, &mut file, &mut input, &mut out, &mut err);
        Told { ended, out, err }
    }

    /// One try of a job on a file, at calls that fail.
    fn of(alloc: Global, job: &Job<'_>, file: &[u8], fails: [usize; 3]) -> Told {
        let [file_fails, input_fails, out_fails] = fails;
        let file = Reader::new(file, file_fails);
        let input = Reader::new(b"abc", input_fails);
        Told::over(alloc, job, file, input, Writer::new(out_fails))
    }

    fn is_want_of_memory(&self) -> bool {
        self.ended.status == 5 && self.err.has(MEMORY)
    }
}

/// What a job tells. Where it tells want of memory, it is tried once more, and what it had put out until then has to be
/// where the whole output begins; every other answer is the first one.
fn answer_of(alloc: Global, job: &Job<'_>, file: &[u8], fails: [usize; 3]) -> Told {
    let first = Told::of(alloc, job, file, fails);
    if !first.is_want_of_memory() {
        return first;
    }
    let second = Told::of(alloc, job, file, fails);
    if second.out.text().starts_with(first.out.text()) {
        second
    } else {
        first
    }
}

/// The calls of the file, the input and the output that fail (0: none), and the status, the output and the line that a
/// job has to end with.
type End = ([usize; 3], u8, &'static [u8], &'static [u8]);

/// Whether a job on a file ends as it has to; where it is done, what it put out has to be flushed.
fn is_ended(alloc: Global, job: &Job<'_>, file: &[u8], end: End) -> bool {
    let (fails, status, out, err) = end;
    let told = answer_of(alloc, job, file, fails);
    told.ended.status == status
        && told.ended.told
        && (status > 1 || told.out.flushed)
        && told.out.has(out)
        && told.err.has(err)
}

/// A job on a file has each of these ends. They are handed over as a slice, and stand apart from the job: a table of
/// jobs that is gone through in a test takes far longer to check.
fn has_ends<R: Abort>(rt: &R, alloc: Global, job: &Job<'_>, file: &[u8], ends: &[End]) {
    for end in ends {
        let [file_fails, input_fails, out_fails] = end.0;
        assert!(rt;
            is_ended(alloc, job, file, *end),
            "at {file_fails}, {input_fails}, {out_fails}"
        );
    }
}

/// The sample with the bytes from `place` on replaced.
fn changed(place: usize, bytes: &[u8]) -> [u8; 86] {
    let mut image = HELLO;
    let mut at = place;
    for byte in bytes {
        if at < 86 {
            image[at] = *byte;
        }
        at = at.wrapping_add(1);
    }
    image
}

/// Bytes, the bound and the call that fails, and what is read: all of them, or why there are none.
const READINGS: &str = " 0 0 = all
abc 3 0 = all
abc 4 0 = all
abc 2 0 = too long
abc 3 1 = the reader
abc 3 4 = the reader
abc 3 5 = all
";

#[test]
fn reads_within_a_bound(rt: HostRuntime) {
    are_read(&rt, rt.alloc(), Given::Bytes, READINGS);
}

/// Texts, and the number that they spell by digits alone, up to 9.
const DECIMALS: &str = "0 = 0
007 = 7
9 = 9
10 = none
 = none
+8 = none
-8 = none
8  = none
0x8 = none
٨ = none
";

#[test]
fn reads_decimal_digits_alone(rt: HostRuntime) {
    are_read(&rt, rt.alloc(), Given::Decimal, DECIMALS);
}

/// Texts, and the limit of turns that they give.
const LIMITS: &str = "left out = 100000
0 = 0
9999999999 = 9999999999
10000000000 = none
+8 = none
 = none
";

#[test]
fn reads_a_limit_of_turns(rt: HostRuntime) {
    are_read(&rt, rt.alloc(), Given::Turns, LIMITS);
}

/// Texts, and the count of windows that they give.
const COUNTS: &str = "left out = 8
4 = 4
32 = 32
008 = 8
3 = none
33 = none
+8 = none
abc = none
";

#[test]
fn reads_a_count_of_windows(rt: HostRuntime) {
    are_read(&rt, rt.alloc(), Given::Windows, COUNTS);
}

/// The sample and a byte after it.
fn longer() -> [u8; 87] {
    let mut image = [0; 87];
    image[..86].copy_from_slice(&HELLO);
    image
}

/// The sample with one param, whose range is from 5 to 4.
const RANGE: [u8; 95] = [
    0x53, 0x42, 0x58, 0x38, 0x00, 0x01, 0x00, 0x05, 0x00, 0x00, 0x00, 0x06, 0x00, 0x00, 0x00, 0x00,
    0x00, 0x01, 0x00, 0x01, 0x90, 0x10, 0x20, 0x48, 0x91, 0xD0, 0x20, 0x02, 0x90, 0x10, 0x20, 0x69,
    0x91, 0xD0, 0x20, 0x02, 0x90, 0x10, 0x20, 0x00, 0x91, 0xD0, 0x20, 0x00, 0x00, 0x01, 0x00, 0x00,
    0x00, 0x04, 0x00, 0x00, 0x00, 0x00, 0x00, 0x00, 0x00, 0x00, 0x00, 0x00, 0x00, 0x00, 0x00, 0x00,
    0x00, 0x00, 0x00, 0x10, 0x00, 0x01, 0x00, 0x00, 0x00, 0x05, 0x00, 0x00, 0x00, 0x04, 0x00, 0x00,
    0x04, 0x00, 0x00, 0x00, 0x00, 0x00, 0x00, 0x00, 0x00, 0x00, 0x00, 0x00, 0x00, 0x00, 0x10,
];

/// The jobs that ask for an image; the first two hold it to the rules.
const IMAGE_JOBS: [Job<'static>; 3] = [VERIFY, RUN, LIST];

/// Whether these jobs all answer with status 2 and the line.
fn all_refuse(alloc: Global, jobs: &[Job<'_>], file: &[u8], line: &'static [u8]) -> bool {
    for job in jobs {
        if !is_ended(alloc, job, file, ([0, 0, 0], 2, b"", line)) {
            return false;
        }
    }
    true
}

/// Whether `verify`, `run` and `list` all answer with status 2 and the line.
fn are_refused(alloc: Global, file: &[u8], line: &'static [u8]) -> bool {
    all_refuse(alloc, &IMAGE_JOBS, file, line)
}

#[test]
fn refuses_an_image_that_is_cut(rt: HostRuntime) {
    for end in 0..86usize {
        assert!(rt;
            are_refused(rt.alloc(), &HELLO[..end], b"image I1\n"),
            "at {end}"
        );
    }
}

/// Whether the sample and a byte after it are refused.
fn is_longer_refused(alloc: Global) -> bool {
    are_refused(alloc, &longer(), b"image I6\n")
}

/// Whether the sample with a param of no number is refused.
fn is_range_refused(alloc: Global) -> bool {
    are_refused(alloc, &RANGE, b"image I8\n")
}

#[test]
fn refuses_what_is_longer(rt: HostRuntime) {
    passes(&rt, "a byte more", is_longer_refused(rt.alloc()));
    passes(&rt, "a param 5 to 4", is_range_refused(rt.alloc()));
}

/// Bytes of the sample that are replaced from a place on, the line that tells of it, and how many bytes the sample has
/// up to the end of its bad field.
type Change = (usize, &'static [u8], &'static [u8], usize);

/// Samples that are no image.
const BAD: [Change; 5] = [
    (0, &[0x54], b"image I2\n", 4),
    (4, &[0, 4], b"image I3\n", 6),
    (6, &[0, 8], b"image I4\n", 8),
    (60, &[0, 0, 1, 0, 0, 0, 0, 0], b"image I5\n", 68),
    (48, &[0, 4, 0, 4], b"image I7\n", 52),
];

/// Samples that break a rule, which is told of whole images.
const RULES: [Change; 4] = [
    // fuel and budget 15
    (
        60,
        &[
            0, 0, 0, 0, 0, 0, 0, 15, 0, 1, 0, 4, 0, 0, 0, 0, 0, 0, 0, 0, 0, 0, 0, 0, 0, 15,
        ],
        b"refused V14 in function 0 at 00040014\n",
        86,
    ),
    // put alone, exit alone
    (6, &[0, 4], b"refused V12 in function 0 at 00040014\n", 86),
    (6, &[0, 1], b"refused V12 in function 0 at 00040004\n", 86),
    // restore %g0,%g0,%g0 with an unused bit set
    (
        20,
        &[0x81, 0xE8, 0, 0x20],
        b"refused V1 in function 0 at 00040000\n",
        86,
    ),
];

/// What is asked of a changed sample.
#[derive(Clone, Copy)]
enum Asked {
    /// Whether `verify`, `run` and `list` all refuse it.
    Refused,
    /// Whether `verify` refuses it once its bad field was read, and no sooner.
    AtOnce,
    /// Whether `verify` and `run` both refuse it.
    Rule,
}

/// Whether a file is refused once so many bytes were read, and no sooner.
fn is_told_after(alloc: Global, file: &[u8], line: &'static [u8], told: usize) -> bool {
    let late = told.wrapping_add(1);
    is_ended(alloc, &VERIFY, file, ([late, 0, 0], 2, b"", line))
        && is_ended(alloc, &VERIFY, file, ([told, 0, 0], 4, b"", b"file\n"))
}

/// Whether a changed sample is as it is asked.
fn is_told(alloc: Global, asked: Asked, change: &Change) -> bool {
    let (place, bytes, line, told) = *change;
    let image = changed(place, bytes);
    match asked {
        Asked::Refused => are_refused(alloc, &image, line),
        Asked::AtOnce => is_told_after(alloc, &image, line, told),
        Asked::Rule => all_refuse(alloc, &IMAGE_JOBS[..2], &image, line),
    }
}

/// Each changed sample is as it is asked.
fn are_told<R: Abort>(rt: &R, alloc: Global, asked: Asked, changes: &[Change]) {
    for change in changes {
        assert!(rt;
            is_told(alloc, asked, change),
            "at {}, after {} bytes",
            change.0,
            change.3
        );
    }
}

#[test]
fn refuses_what_is_bad(rt: HostRuntime) {
    are_told(&rt, rt.alloc(), Asked::Refused, &BAD);
}

#[test]
fn reads_no_further_than_the_bad_field(rt: HostRuntime) {
    are_told(&rt, rt.alloc(), Asked::AtOnce, &BAD);
}

#[test]
fn refuses_what_breaks_a_rule(rt: HostRuntime) {
    are_told(&rt, rt.alloc(), Asked::Rule, &RULES);
}

const LISTS: [End; 8] = [
    ([0, 0, 0], 0, LISTING, b""),
    ([1, 0, 0], 4, b"", b"file\n"),
    ([86, 0, 0], 4, b"", b"file\n"),
    ([87, 0, 0], 4, b"", b"file\n"),
    ([88, 0, 0], 0, LISTING, b""),
    ([0, 0, 1], 4, b"", b"output\n"),
    ([0, 0, 2], 4, FIRST_LINE, b"output\n"),
    ([0, 0, 7], 4, LISTING, b"output\n"),
];

const VERDICTS: [End; 4] = [
    ([0, 0, 0], 0, b"accepted\n", b""),
    ([87, 0, 0], 4, b"", b"file\n"),
    ([0, 0, 1], 4, b"", b"output\n"),
    ([0, 0, 2], 4, b"accepted\n", b"output\n"),
];

/// Ends of `run`, of a program that asks for no input.
const RUNS: [End; 7] = [
    ([0, 0, 0], 0, b"Hi", b""),
    ([87, 1, 1], 4, b"", b"file\n"),
    ([0, 1, 0], 0, b"Hi", b""),
    ([0, 1, 1], 4, b"", b"output\n"),
    ([0, 0, 1], 4, b"", b"output\n"),
    ([0, 0, 2], 4, b"H", b"output\n"),
    ([0, 0, 3], 4, b"Hi", b"output\n"),
];

const TRACES_OF_TWO: [End; 5] = [
    ([0, 0, 0], 0, TWO_TURNS, b""),
    ([87, 1, 1], 4, b"", b"file\n"),
    ([0, 1, 1], 4, b"", b"input\n"),
    ([0, 0, 1], 4, b"", b"output\n"),
    ([0, 0, 3], 4, TWO_TURNS, b"output\n"),
];

const TRACES_OF_NONE: [End; 3] = [
    ([0, 0, 0], 0, b"", b""),
    ([0, 4, 0], 4, b"", b"input\n"),
    ([0, 0, 1], 4, b"", b"output\n"),
];

const TRACES: [End; 1] = [([0, 0, 1], 4, b"", b"output\n")];

#[test]
fn lists_and_verifies_up_to_a_fault(rt: HostRuntime) {
    has_ends(&rt, rt.alloc(), &LIST, &HELLO, &LISTS);
    has_ends(&rt, rt.alloc(), &VERIFY, &HELLO, &VERDICTS);
}

#[test]
fn runs_up_to_a_fault(rt: HostRuntime) {
    has_ends(&rt, rt.alloc(), &RUN, &HELLO, &RUNS);
}

#[test]
fn traces_up_to_a_fault(rt: HostRuntime) {
    has_ends(&rt, rt.alloc(), &TRACE_OF_TWO, &HELLO, &TRACES_OF_TWO);
    has_ends(&rt, rt.alloc(), &TRACE_OF_NONE, &HELLO, &TRACES_OF_NONE);
    has_ends(&rt, rt.alloc(), &TRACE, &HELLO, &TRACES);
}

/// Whether the sample with the exit word 1 ends with it.
fn is_exit_told(alloc: Global) -> bool {
    let one = changed(36, &[0x90, 0x10, 0x20, 0x01]);
    is_ended(alloc, &RUN, &one, ([0, 0, 0], 1, b"Hi", b""))
}

#[test]
fn ends_with_the_exit_word(rt: HostRuntime) {
    passes(&rt, "exit word 1", is_exit_told(rt.alloc()));
}

/// Whether a whole trace of the image in the file is written, and nothing else.
fn is_traced_to_the_end(alloc: Global, file: &[u8]) -> bool {
    let told = answer_of(alloc, &TRACE, file, [0, 0, 0]);
    let lines = told.out.text();
    told.ended.status == 0
        && lines.starts_with(TWO_TURNS)
        && lines.ends_with(LAST_TURN)
        && told.err.has(b"")
}

/// The sample with a budget of 15, which is not accepted.
fn is_little_traced(alloc: Global) -> bool {
    let little = changed(60, &[0, 0, 0, 0, 0, 0, 0, 0x0F]);
    is_traced_to_the_end(alloc, &little)
}

/// A whole trace ends with the exit; the image need not be one that is accepted.
#[test]
fn traces_to_the_end(rt: HostRuntime) {
    passes(&rt, "the sample", is_traced_to_the_end(rt.alloc(), &HELLO));
    passes(&rt, "a budget of 15", is_little_traced(rt.alloc()));
}

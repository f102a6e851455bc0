//! Reports of runs and traces told in words, against texts of a model of the machine that was written apart from it.
ghost use Rattle.std.specs.Prelude.{◌≤◌};

use crate::images::{FOREVER, HELLO, image_of};
use crate::passing::passes;
use crate::sheet::Sheet;
use inspect_run::{Progress, Run, push_run, run_windows, watch_windows};
use sbx_image::Image;
use sbx_raw::RunFault;
use std::alloc::Global;

/// How often a run said how far it had come.
#[derive(Clone, Copy)]
struct Count(u32);

impl Progress for Count {
    fn made(&mut self, _turns: u64) {
        self.0 = self.0.wrapping_add(1);
    }
}

/// The report of a run; nothing where memory was refused.
fn report_of(alloc: Global, windows: u32, limit: u64, run: &Run) -> Option<String>
    requires { (4 ≤ windows) × (windows ≤ 32) }
{
    let mut text = String::new(alloc);
    match push_run(&mut text, windows, limit, run) {
        Ok(()) => Some(text),
        Err(_) => None,
    }
}

/// The report of an image's run on no input; nothing where memory was refused.
fn told_once(
    alloc: Global,
    windows: u32,
    image: &Image,
    limit: u64,
    count: &mut Count,
) -> Option<String>
    requires { (4 ≤ windows) × (windows ≤ 32) }
{
    match run_windows(alloc, windows, image, b"", limit, count) {
        Ok(run) => report_of(alloc, windows, limit, &run),
        Err(_) => None,
    }
}

/// The same; where memory was refused, it is asked for once more, and counted anew.
fn told(alloc: Global, windows: u32, image: &Image, limit: u64, count: &mut Count) -> Option<String>
    requires { (4 ≤ windows) × (windows ≤ 32) }
{
    match told_once(alloc, windows, image, limit, count) {
        Some(text) => Some(text),
        None => {
            count.0 = 0;
            told_once(alloc, windows, image, limit, count)
        }
    }
}

/// What a run of HELLO tells on 8 windows.
const REPORT: &str = "output: 2 bytes
  Hi
end: exit with the word 00000000
turns: 16 of at most 100000, on 8 windows
window traps: 0 overflows, 0 underflows
pages, each a mark: R referenced, M modified
  code  00040000 R...............................................................
  data  00080000 ................................................................
  stack 000C0000 ................................................................
fault status: none
";

/// What its turns are told as.
const TURNS: &str =
    "     1 00 u 00040000 f0+0         or %g0,72,%o0             %o0=00000048  page 00040000: R
     2 00 u 00040004 f0+4         ta 2                      trap 82 trap_instruction  %l1=00040004
       %l2=00040008  PSR=00000087
     3 07 s F0000820 vector 82+0  sethi 3932224,%l3         %l3=F0010000
     4 07 s F0000824 vector 82+4  st %i0,[%l3+4]            puts out 48
     5 07 s F0000828 vector 82+8  jmpl %l2+%g0,%g0
     6 07 s F000082C vector 82+C  rett %l2+4                PSR=00000020
     7 00 u 00040008 f0+8         or %g0,105,%o0            %o0=00000069
     8 00 u 0004000C f0+C         ta 2                      trap 82 trap_instruction  %l1=0004000C
       %l2=00040010  PSR=00000087
     9 07 s F0000820 vector 82+0  sethi 3932224,%l3
    10 07 s F0000824 vector 82+4  st %i0,[%l3+4]            puts out 69
    11 07 s F0000828 vector 82+8  jmpl %l2+%g0,%g0
    12 07 s F000082C vector 82+C  rett %l2+4                PSR=00000020
    13 00 u 00040010 f0+10        or %g0,0,%o0              %o0=00000000
    14 00 u 00040014 f0+14        ta 0                      trap 80 trap_instruction  %l1=00040014
       %l2=00040018  PSR=00000087
    15 07 s F0000800 vector 80+0  sethi 3932224,%l3
    16 07 s F0000804 vector 80+4  st %i0,[%l3+8]            exit 00000000
";

/// Whether the run of an image is told as that of HELLO has to be, which is too short to say how far it has come.
fn is_told(alloc: Global, image: &Image) -> bool {
    let mut count = Count(0);
    match told(alloc, 8, image, 100_000, &mut count) {
        Some(text) => text.as_str() == REPORT && count.0 == 0,
        None => false,
    }
}

#[test]
fn a_run_is_told(rt: HostRuntime) {
    passes(&rt, "the report", holds(rt.alloc(), HELLO, Asked::Report));
}

/// How the report of 3 MiB of output begins.
const LONG_REPORT: &str = "output: 3145728 bytes\n  AAAAAAAAAAAAAAAAAAAAAAAA\n  AAAA";

/// Whether the run of an image is told as one that puts out 3 MiB, and says how far it has come.
fn is_told_at_length(alloc: Global, image: &Image) -> bool {
    let mut count = Count(0);
    match told(alloc, 32, image, 22_020_096, &mut count) {
        Some(text) => text.len() == 3_539_410 && text.starts_with(LONG_REPORT) && count.0 == 5,
        None => false,
    }
}

#[test]
fn three_mebibytes_are_told(rt: HostRuntime) {
    passes(
        &rt,
        "the long report",
        holds(rt.alloc(), FOREVER, Asked::LongReport),
    );
}

/// Tells the turns of an image's run on no input.
fn watch(
    alloc: Global,
    windows: u32,
    image: &Image,
    limit: u64,
    sheet: &mut Sheet,
    count: &mut Count,
) -> Result<(), RunFault>
    requires { (4 ≤ windows) × (windows ≤ 32) }
{
    watch_windows(alloc, windows, image, b"", limit, sheet, count)
}

/// Whether the turns of an image's run on no input are told. Where memory was refused, they are asked for once more,
/// and counted anew; the sheet takes all, so there is no other fault.
fn is_watched(
    alloc: Global,
    windows: u32,
    image: &Image,
    limit: u64,
    sheet: &mut Sheet,
    count: &mut Count,
) -> bool
    requires { (4 ≤ windows) × (windows ≤ 32) }
{
    match watch(alloc, windows, image, limit, sheet, count) {
        Ok(()) => true,
        Err(RunFault::Memory(_)) => {
            *sheet = Sheet::new(usize::MAX);
            count.0 = 0;
            watch(alloc, windows, image, limit, sheet, count).is_ok()
        }
        Err(_) => false,
    }
}

/// Whether the turns of an image's run are told as those of HELLO have to be, and flushed; they are too few to say how
/// far the run has come.
fn are_turns_told(alloc: Global, image: &Image) -> bool {
    let mut sheet = Sheet::new(usize::MAX);
    let mut count = Count(0);
    is_watched(alloc, 8, image, 100_000, &mut sheet, &mut count)
        && sheet.front() == TURNS.as_bytes()
        && sheet.flushed
        && count.0 == 0
}

#[test]
fn turns_are_told(rt: HostRuntime) {
    passes(&rt, "the turns", holds(rt.alloc(), HELLO, Asked::Turns));
}

/// Whether 524,289 turns of an image's run have as many lines or more, none longer than 100 columns, and say twice how
/// far they have come.
fn has_lines_that_fit(alloc: Global, image: &Image) -> bool {
    let mut sheet = Sheet::new(usize::MAX);
    let mut count = Count(0);
    is_watched(alloc, 32, image, 524_289, &mut sheet, &mut count)
        && sheet.longest <= 100
        && sheet.lines >= 524_289
        && count.0 == 2
}

#[test]
fn a_long_trace_has_lines_that_fit(rt: HostRuntime) {
    passes(&rt, "the lines", holds(rt.alloc(), FOREVER, Asked::Lines));
}

/// What is asked of an image.
#[derive(Clone, Copy)]
enum Asked {
    /// Whether its run is told as that of HELLO.
    Report,
    /// Whether its run is told as one that puts out 3 MiB.
    LongReport,
    /// Whether its turns are told as those of HELLO.
    Turns,
    /// Whether the lines of many turns fit.
    Lines,
}

/// Whether what is asked of an image is so.
fn is_so(alloc: Global, image: &Image, asked: Asked) -> bool {
    match asked {
        Asked::Report => is_told(alloc, image),
        Asked::LongReport => is_told_at_length(alloc, image),
        Asked::Turns => are_turns_told(alloc, image),
        Asked::Lines => has_lines_that_fit(alloc, image),
    }
}

/// Whether it is so of the image of these bytes. All questions go through here, since what owns an image takes long to
/// check.
fn holds(alloc: Global, bytes: &[u8], asked: Asked) -> bool {
    match image_of(alloc, bytes) {
        Some(image) => is_so(alloc, &image, asked),
        None => false,
    }
}

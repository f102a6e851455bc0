//! The report of a run.
ghost use Rattle.std.specs.Prelude.{◌≡◌, ◌++◌, OnOk, codes, string_bytes};
ghost use Rattle.inspect_lines.specs.Faults.{status_text};
ghost use Rattle.inspect_lines.specs.Output.{line_end};
ghost use Rattle.inspect_run.specs.Reports.{
  counts_text,
  ending_text,
  error_text,
  exit_text,
  is_test,
  run_text,
  test_name,
  test_text,
  trapped_text,
};

use crate::pages::push_pages;
use crate::run::Run;
use inspect_lines::{FaultStatus, Trap, push_output};
use sbx_raw::Ending;
use std::alloc::AllocError;
use v8_word::TrapType;

/// A trap that stopped the machine, and where its instruction stands.
fn push_trapped(out: &mut String, trap: TrapType, place: u32) -> Result<(), AllocError>
    ensures { OnOk result (string_bytes out.new ≡ string_bytes out.old ++ trapped_text trap place) }
{
    let trap = Trap(trap);
    write!(
        out,
        "stopped by trap {trap} of the instruction at {place:08X}"
    )
}

/// A trap that came while traps were disabled.
fn push_error(out: &mut String, trap: TrapType) -> Result<(), AllocError>
    ensures { OnOk result (string_bytes out.new ≡ string_bytes out.old ++ error_text trap) }
{
    let trap = Trap(trap);
    write!(out, "error mode by trap {trap}")
}

/// What failed, by the number of the test that `fit` added.
fn test_name(kind: u32) -> &'static str
    ensures { result.now ≡ test_name kind }
{
    match kind {
        1 => "an index leaves its object",
        2 => "a pointer leaves the data, isn't aligned, or leads to a constant",
        3 => "a divisor is 0",
        4 => "the loops have used up their turns",
        5 => "calls go too deep",
        9 => "a call through a pointer that is no function's",
        _ => "nothing that has a name",
    }
}

/// Whether a test that `fit` adds has this number.
fn is_test(kind: u32) -> bool
    ensures { result ≡ is_test kind }
{
    kind == 1 || kind == 2 || kind == 3 || kind == 4 || kind == 5 || kind == 9
}

/// What failed, in a line of its own, where an exit word is one of a test: its upper half is the number of that.
fn push_test(out: &mut String, word: u32) -> Result<(), AllocError>
    ensures { OnOk result (string_bytes out.new ≡ string_bytes out.old ++ test_text word) }
{
    let (kind, line) = (word / 0x1_0000, word % 0x1_0000);
    if is_test(kind) {
        let name = test_name(kind);
        write!(out, "\n  as where a test fails, in line {line}: {name}")
    } else {
        Ok(())
    }
}

/// An exit, and the test that its word tells of.
fn push_exit(out: &mut String, word: u32) -> Result<(), AllocError>
    ensures { OnOk result (string_bytes out.new ≡ string_bytes out.old ++ exit_text word) }
{
    write!(out, "exit with the word {word:08X}")?;
    push_test(out, word)
}

/// How a run ended.
fn push_ending(out: &mut String, ending: Ending, place: u32) -> Result<(), AllocError>
    ensures { OnOk result (string_bytes out.new ≡ string_bytes out.old ++ ending_text ending place) }
{
    match ending {
        Ending::Exit(word) => push_exit(out, word),
        Ending::Trapped(trap) => push_trapped(out, trap, place),
        Ending::ErrorMode(trap) => push_error(out, trap),
        Ending::Limit => out.push_str("none: it would go on behind the limit"),
    }
}

/// How a run ended, its turns and its window traps.
fn push_counts(out: &mut String, windows: u32, limit: u64, run: &Run) -> Result<(), AllocError>
    ensures { OnOk result (string_bytes out.new ≡ string_bytes out.old ++ counts_text windows limit run.now) }
{
    let outcome = run.raw.outcome;
    let (turns, overflows, underflows) = (outcome.turns, outcome.overflows, outcome.underflows);
    out.push_str("end: ")?;
    push_ending(out, outcome.ending, run.trapped_at)?;
    writeln!(
        out,
        "\nturns: {turns} of at most {limit}, on {windows} windows\nwindow traps: {overflows} overflows, {underflows} underflows"
    )
}

/// The fault status.
fn push_status(out: &mut String, status: u32) -> Result<(), AllocError>
    ensures { OnOk result (string_bytes out.new ≡ string_bytes out.old ++ (codes "fault status: " ++ (status_text status ++ line_end))) }
{
    let status = FaultStatus(status);
    writeln!(out, "fault status: {status}")
}

/// Tells a run: what it put out, how it ended, its turns and window traps, the pages that it referenced and modified,
/// and its fault status. It fails where memory is refused.
pub fn push_run(out: &mut String, windows: u32, limit: u64, run: &Run) -> Result<(), AllocError>
    ensures { OnOk result (string_bytes out.new ≡ string_bytes out.old ++ run_text windows limit run.now) }
{
    push_output(out, run.raw.output.as_slice())?;
    push_counts(out, windows, limit, run)?;
    push_pages(out, &run.raw.pages)?;
    push_status(out, run.raw.fault_status)
}

//! What a run gave, as an object.
ghost use Rattle.std.specs.Prelude.{◌≡◌, ◌++◌, codes, IfOk, OnOk, string_bytes};
ghost use Rattle.std.specs.List.{flat_map};
ghost use Rattle.json.specs.Json.{string};
ghost use Rattle.json.specs.Tree.{json_tokens};
ghost use Rattle.inspect_lines.specs.Faults.{status_text};
ghost use Rattle.inspect_lines.specs.Marks.{marks_text};
ghost use Rattle.inspect_lines.specs.Words.{byte_text};
ghost use Rattle.inspect_json.specs.Objects.{Adds, IsLine, member_tokens};
ghost use Rattle.inspect_json.specs.Runs.{count_tokens, ending_json, error_json, exit_json, limit_json, pages_json};
ghost use Rattle.inspect_json.specs.Runs.{run_json, status_tokens, trap_tokens, trapped_json};

use crate::members::{
    close_object, line_of, new_line, open_object, put_byte, put_key, put_number, put_text, put_word,
};
use inspect_lines::{FaultStatus, push_marks, trap_name};
use inspect_run::Run;
use json::Writer;
use sbx_raw::{Ending, PageUse};
use std::alloc::{AllocError, Global};
use v8_word::TrapType;

/// Pushes bytes in hexadecimal digits, two of each.
fn push_hexadecimal(text: &mut String, bytes: &[u8]) -> Result<(), AllocError>
    ensures { OnOk result (string_bytes text.new ≡ string_bytes text.old ++ flat_map byte_text bytes.now) }
{
    for byte in bytes {
        write!(text, "{byte:02X}")?;
    }
    Ok(())
}

/// The member of what was put out.
fn put_output(alloc: Global, out: &mut Writer, run: &Run) -> Result<(), AllocError>
    ensures { OnOk result (Adds out.old out.new (member_tokens (codes "output") (string (flat_map byte_text run.now.raw.output.items)))) }
{
    let mut text = String::new(alloc);
    push_hexadecimal(&mut text, run.raw.output.as_slice())?;
    put_text(out, "output", text.as_str())
}

fn put_exit(out: &mut Writer, word: u32) -> Result<(), AllocError>
    ensures { OnOk result (Adds out.old out.new (json_tokens (exit_json word))) }
{
    open_object(out)?;
    put_text(out, "how", "exit")?;
    put_word(out, "word", word)?;
    close_object(out)
}

/// The members of a trap: its number and its name.
fn put_trap(out: &mut Writer, trap: TrapType) -> Result<(), AllocError>
    ensures { OnOk result (Adds out.old out.new (trap_tokens trap)) }
{
    put_byte(out, "trap", trap.number())?;
    put_text(out, "name", trap_name(trap))
}

/// A trap that stopped the machine, and where its instruction stands.
fn put_trapped(out: &mut Writer, trap: TrapType, place: u32) -> Result<(), AllocError>
    ensures { OnOk result (Adds out.old out.new (json_tokens (trapped_json trap place))) }
{
    open_object(out)?;
    put_text(out, "how", "trap")?;
    put_trap(out, trap)?;
    put_word(out, "address", place)?;
    close_object(out)
}

/// A trap that came while traps were disabled.
fn put_error(out: &mut Writer, trap: TrapType) -> Result<(), AllocError>
    ensures { OnOk result (Adds out.old out.new (json_tokens (error_json trap))) }
{
    open_object(out)?;
    put_text(out, "how", "error")?;
    put_trap(out, trap)?;
    close_object(out)
}

fn put_limit(out: &mut Writer) -> Result<(), AllocError>
    ensures { OnOk result (Adds out.old out.new (json_tokens limit_json)) }
{
    open_object(out)?;
    put_text(out, "how", "limit")?;
    close_object(out)
}

/// How a run ended.
fn put_how(out: &mut Writer, ending: Ending, place: u32) -> Result<(), AllocError>
    ensures { OnOk result (Adds out.old out.new (json_tokens (ending_json ending place))) }
{
    match ending {
        Ending::Exit(word) => put_exit(out, word),
        Ending::Trapped(trap) => put_trapped(out, trap, place),
        Ending::ErrorMode(trap) => put_error(out, trap),
        Ending::Limit => put_limit(out),
    }
}

fn put_ending(out: &mut Writer, ending: Ending, place: u32) -> Result<(), AllocError>
    ensures { OnOk result (Adds out.old out.new (member_tokens (codes "end") (ending_json ending place))) }
{
    put_key(out, "end")?;
    put_how(out, ending, place)
}

/// The members that count.
fn put_counts(out: &mut Writer, windows: u32, limit: u64, run: &Run) -> Result<(), AllocError>
    ensures { OnOk result (Adds out.old out.new (count_tokens windows limit run.now)) }
{
    put_number(out, "turns", run.raw.outcome.turns)?;
    put_number(out, "limit", limit)?;
    put_word(out, "windows", windows)?;
    put_number(out, "overflows", run.raw.outcome.overflows)?;
    put_number(out, "underflows", run.raw.outcome.underflows)
}

/// The member of a table: the marks of its pages.
fn put_table(
    alloc: Global,
    out: &mut Writer,
    key: &str,
    referenced: u64,
    modified: u64,
) -> Result<(), AllocError>
    ensures { OnOk result (Adds out.old out.new (member_tokens key.now (string (marks_text referenced modified 64)))) }
{
    let mut text = String::new(alloc);
    push_marks(&mut text, referenced, modified)?;
    put_text(out, key, text.as_str())
}

/// The member of the pages of code, data and stack.
fn put_pages(alloc: Global, out: &mut Writer, pages: &PageUse) -> Result<(), AllocError>
    ensures { OnOk result (Adds out.old out.new (member_tokens (codes "pages") (pages_json pages.now))) }
{
    let (referenced, modified) = (&pages.referenced, &pages.modified);
    put_key(out, "pages")?;
    open_object(out)?;
    put_table(alloc, out, "code", referenced[0], modified[0])?;
    put_table(alloc, out, "data", referenced[1], modified[1])?;
    put_table(alloc, out, "stack", referenced[2], modified[2])?;
    close_object(out)
}

/// The members of the last access that was refused.
fn put_status(alloc: Global, out: &mut Writer, status: u32) -> Result<(), AllocError>
    ensures { OnOk result (Adds out.old out.new (status_tokens status)) }
{
    let shown = FaultStatus(status);
    let text = format!(in alloc; "{shown}")?;
    put_word(out, "fault_status", status)?;
    put_text(out, "fault", text.as_str())
}

/// Writes what a run gave.
fn put_run(
    alloc: Global,
    out: &mut Writer,
    windows: u32,
    limit: u64,
    run: &Run,
) -> Result<(), AllocError>
    ensures { OnOk result (Adds out.old out.new (json_tokens (run_json windows limit run.now))) }
{
    open_object(out)?;
    put_output(alloc, out, run)?;
    put_ending(out, run.raw.outcome.ending, run.trapped_at)?;
    put_counts(out, windows, limit, run)?;
    put_pages(alloc, out, &run.raw.pages)?;
    put_status(alloc, out, run.raw.fault_status)?;
    close_object(out)
}

/// The line of what a run gave: its output, how it ended, its turns and window traps, the pages that it used, and its
/// fault status. It fails where memory is refused.
pub fn run_line(alloc: Global, windows: u32, limit: u64, run: &Run) -> Result<Vec<u8>, AllocError>
    ensures { IfOk result (λ line. IsLine (run_json windows limit run.now) line.items) }
{
    let mut out = new_line(alloc);
    put_run(alloc, &mut out, windows, limit, run)?;
    line_of(out)
}

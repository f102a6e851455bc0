//! What a turn's text begins with.
ghost use Rattle.std.specs.Prelude.{◌≡◌, ◌++◌, OnOk, string_bytes};
ghost use Rattle.inspect_run.specs.Heads.{head_text, instruction_text, place_line, unfetched_text};

use crate::places::place_of;
use crate::sheet::pad;
use arrayvec::ArrayString;
use sbx_image::Function;
use std::alloc::AllocError;
use v8_core::{Event, Turn};
use v8_formats::decode;
use v8_forms::print_instr;

/// The column of the instruction, where what stands before it isn't longer.
const INSTRUCTION: usize = 34;

/// What stands in the place of an instruction that wasn't fetched.
fn unfetched(event: &Event) -> &'static str
    ensures { result.now ≡ unfetched_text event.now }
{
    match event {
        Event::Annulled => "annulled",
        _ => "not fetched",
    }
}

/// Pushes the text of the instruction that a turn fetched.
fn push_instruction(line: &mut String, turn: &Turn) -> Result<(), AllocError>
    ensures { OnOk result
        (string_bytes line.new ≡ string_bytes line.old ++ instruction_text turn.now.word turn.now.event) }
{
    let Some(word) = turn.word else {
        return line.push_str(unfetched(&turn.event));
    };
    let mut text = ArrayString::<64>::new();
    print_instr(&decode(word), &mut text);
    line.push_str(text.as_str())
}

/// Pushes a turn's number, and the window, the mode and the place before it, with a blank behind each.
fn push_place(
    line: &mut String,
    functions: &[Function],
    number: u64,
    turn: &Turn,
) -> Result<(), AllocError>
    ensures { OnOk result (string_bytes line.new ≡ string_bytes line.old ++ place_line functions.now number turn.now) }
{
    let (cwp, pc) = (turn.cwp, turn.pc);
    let mode = if turn.user { "u" } else { "s" };
    let place = place_of(functions, pc);
    write!(line, "{number:6} {cwp:02} {mode} {pc:08X} {place} ")
}

/// Makes the text that a turn's line begins with, in the place of what the line held.
pub fn make_head(
    line: &mut String,
    functions: &[Function],
    number: u64,
    turn: &Turn,
) -> Result<(), AllocError>
    ensures { OnOk result (string_bytes line.new ≡ head_text functions.now number turn.now) }
{
    line.clear();
    push_place(line, functions, number, turn)?;
    pad(line, INSTRUCTION)?;
    push_instruction(line, turn)
}

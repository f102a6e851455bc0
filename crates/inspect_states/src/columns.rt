//! The columns of a line: the state before a turn, the word, and what happened.
ghost use Rattle.std.specs.Prelude.{◌≡◌, ◌++◌, OnOk, string_bytes};
ghost use Rattle.inspect_states.specs.Columns.{columns_text, event_text, outcome_text, place_text, state_text, stop_text};
ghost use Rattle.inspect_states.specs.Columns.{word_column};

use crate::shown::ShownState;
use std::alloc::AllocError;
use v8_core::{Event, Turn};
use v8_mmu::Stop;

/// Pushes the number of a line, the window, PC, nPC and the annul flag, with a blank behind each.
fn push_place(
    line: &mut String,
    number: u64,
    annul: &str,
    shown: &ShownState,
) -> Result<(), AllocError>
    ensures { OnOk result (string_bytes line.new ≡ string_bytes line.old ++ place_text number annul.now shown.now) }
{
    let (cwp, pc, npc) = (shown.psr % 32, shown.pc, shown.npc);
    write!(line, "{number} {cwp:02} {pc:08X} {npc:08X} {annul} ")
}

/// Pushes PSR, WIM, TBR, Y and the fault status, with a blank behind each.
fn push_state(line: &mut String, shown: &ShownState) -> Result<(), AllocError>
    ensures { OnOk result (string_bytes line.new ≡ string_bytes line.old ++ state_text shown.now) }
{
    let (psr, wim, tbr, y, fault) = (shown.psr, shown.wim, shown.tbr, shown.y, shown.fault);
    write!(line, "{psr:08X} {wim:08X} {tbr:08X} {y:08X} {fault:08X} ")
}

/// Pushes the columns that tell a state: the number of the line, the window, PC, nPC, the annul flag, the state
/// registers and Y, and the fault status.
pub fn push_columns(
    line: &mut String,
    number: u64,
    annul: &str,
    shown: &ShownState,
) -> Result<(), AllocError>
    ensures { OnOk result (string_bytes line.new ≡ string_bytes line.old ++ columns_text number annul.now shown.now) }
{
    push_place(line, number, annul, shown)?;
    push_state(line, shown)
}

/// Pushes the word that a turn fetched, and a blank.
fn push_word(line: &mut String, word: Option<u32>) -> Result<(), AllocError>
    ensures { OnOk result (string_bytes line.new ≡ string_bytes line.old ++ word_column word) }
{
    match word {
        Some(word) => write!(line, "{word:08X} "),
        None => line.push_str("-------- "),
    }
}

/// Pushes how the device stopped the machine.
fn push_stop(line: &mut String, stop: &Stop) -> Result<(), AllocError>
    ensures { OnOk result (string_bytes line.new ≡ string_bytes line.old ++ stop_text stop.now) }
{
    match *stop {
        Stop::Exit(word) => write!(line, "exit:{word:08X}"),
        Stop::Trapped => line.push_str("stopped"),
    }
}

/// Pushes what happened in a turn.
fn push_event(line: &mut String, event: &Event) -> Result<(), AllocError>
    ensures { OnOk result (string_bytes line.new ≡ string_bytes line.old ++ event_text event.now) }
{
    match event {
        Event::Ran => line.push_str("ran"),
        Event::Annulled => line.push_str("annulled"),
        Event::Trapped(trap) => {
            let number = trap.number();
            write!(line, "trap:{number:02X}")
        }
        Event::ErrorMode(trap) => {
            let number = trap.number();
            write!(line, "error:{number:02X}")
        }
        Event::Stopped(stop) => push_stop(line, stop),
    }
}

/// Pushes the word that a turn fetched, and what happened.
pub fn push_outcome(line: &mut String, turn: &Turn) -> Result<(), AllocError>
    ensures { OnOk result (string_bytes line.new ≡ string_bytes line.old ++ outcome_text turn.now) }
{
    push_word(line, turn.word)?;
    push_event(line, &turn.event)
}

//! The words of RAM that a machine changed.
ghost use Rattle.std.specs.Prelude.{◌≡◌, ◌≤◌, ◌*◌, ◌++◌, OnOk, string_bytes};
ghost use Rattle.v8_core.specs.Ram.{entry_of};
ghost use Rattle.inspect_machine.specs.Changed.{WORDS, change_text, changes_text};

use std::alloc::AllocError;
use v8_map::RAM;
use v8_mmu::Bus;

/// The words of RAM.
const COUNT: u64 = RAM as u64 / 4;

/// Pushes a line for the word at a place, as a file of a start spells it, where it is another than at first.
fn push_change(
    text: &mut String,
    place: u64,
    first: Option<u32>,
    now: Option<u32>,
) -> Result<(), AllocError>
    ensures { OnOk result (string_bytes text.new ≡ string_bytes text.old ++ change_text place first now) }
{
    let (Some(before), Some(word)) = (first, now) else {
        return Ok(());
    };
    if before == word {
        return Ok(());
    }
    write!(text, "0x{place:08X} 0x{word:08X}\n")
}

/// Pushes a line for each word of RAM that is another than at first.
pub fn push_changes<B: Bus>(text: &mut String, first: &B, now: &B) -> Result<(), AllocError>
    ensures { OnOk result
        (string_bytes text.new ≡
        string_bytes text.old ++ changes_text (B.state first.now).held.ram (B.state now.now).held.ram WORDS) }
{
    for number in 0..COUNT {
        let place = 4 * number;
        push_change(text, place, first.entry(place), now.entry(place))?;
    }
    Ok(())
}

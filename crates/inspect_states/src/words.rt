//! Words of RAM that are others than was told.
ghost use Rattle.std.specs.Prelude.{◌≡◌, ◌++◌, OnOk, string_bytes};
ghost use Rattle.inspect_states.specs.Words.{change_at, told_words, word_item};

use std::alloc::AllocError;
use v8_mmu::Bus;

/// Where the words lie that a turn may have changed: the page entries that its fetch and its data access marked, and
/// the words that it stored to.
#[derive(Clone, Copy)]
pub struct Places {
    pub fetched: Option<u64>,
    pub accessed: Option<u64>,
    pub stored: Option<u64>,
    pub second: Option<u64>,
}

/// Pushes a word of RAM by its physical address.
fn push_item(line: &mut String, letter: &str, place: u64, word: u32) -> Result<(), AllocError>
    ensures { OnOk result (string_bytes line.new ≡ string_bytes line.old ++ word_item letter.now place word) }
{
    write!(line, " {letter}{place:08X}={word:08X}")
}

/// Pushes the word at a place, where it is another than is known, and takes it over.
fn push_change<B: Bus>(
    line: &mut String,
    letter: &str,
    known: &mut B,
    bus: &B,
    place: Option<u64>,
) -> Result<(), AllocError>
    ensures text { OnOk result
        (string_bytes line.new ≡
        string_bytes line.old
        ++ (change_at letter.now (B.state known.old).held.ram (B.state bus.now).held.ram place).0) }
    ensures ram { OnOk result ((B.state known.new).held.ram ≡
        (change_at letter.now (B.state known.old).held.ram (B.state bus.now).held.ram place).1) }
{
    let Some(place) = place else {
        return Ok(());
    };
    let (Some(before), Some(word)) = (known.entry(place), bus.entry(place)) else {
        return Ok(());
    };
    if before == word {
        return Ok(());
    }
    known.set_entry(place, word);
    push_item(line, letter, place, word)
}

/// Pushes the words at some places that are others than is known, and takes them over: page entries first, then what
/// was stored.
pub fn push_words<B: Bus>(
    line: &mut String,
    known: &mut B,
    bus: &B,
    places: &Places,
) -> Result<(), AllocError>
    ensures text { OnOk result
        (string_bytes line.new ≡
        string_bytes line.old ++ (told_words (B.state known.old).held.ram (B.state bus.now).held.ram places.now).0) }
    ensures ram { OnOk result ((B.state known.new).held.ram ≡
        (told_words (B.state known.old).held.ram (B.state bus.now).held.ram places.now).1) }
{
    push_change(line, "e", known, bus, places.fetched)?;
    push_change(line, "e", known, bus, places.accessed)?;
    push_change(line, "m", known, bus, places.stored)?;
    push_change(line, "m", known, bus, places.second)
}

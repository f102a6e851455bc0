//! What a line of a start says.
ghost use Rattle.std.specs.Prelude.{◌≡◌, ◌≢◌, ℕ, ◌≤◌, ◌^◌, [], ◌∷◌, ◌-◌, IfOk, MatchResult, Ok, Err, Some, None};
ghost use Rattle.want.specs.Wants.{refused};
ghost use Rattle.inspect_start.specs.Items.{Gives, IsRight, behind_address, behind_name, bytes_of, item_of, ruled, said_by};
ghost use Rattle.inspect_start.specs.Items.{shown};
ghost use Rattle.inspect_start.specs.Lines.{words_of};

use crate::fault::StartCause;
use crate::lines::{first_word, is_text, text_of};
use crate::names::{StartName, name_of};
use crate::numbers::{MOST_ADDRESS, MOST_WORD, number};
use std::alloc::Global;
use v8_map::RAM;
use want::Want;

/// What a line says.
#[derive(Drop)]
pub enum Item {
    Nothing,
    /// Bytes of RAM, from a physical address on.
    Bytes(u64, Vec<u8>),
    /// The number of what has a name.
    Sets(StartName, u64),
}

/// The bytes of the words of a text, each of which is a number of 32 bits.
fn bytes_of(alloc: Global, text: &[u8]) -> Result<Vec<u8>, StartCause>
    ensures { MatchResult result (λ bytes. bytes_of (words_of text.now) ≡ Some bytes.items)
        (λ cause. cause ≢ StartCause.Memory refused → (cause ≡ StartCause.Number) × (bytes_of (words_of text.now) ≡ None)) }
{
    let mut bytes = Vec::new(alloc);
    let mut rest = text;
    while let Some((word, after)) = first_word(rest) {
        let Some(number) = number(word, MOST_WORD) else {
            return Err(StartCause::Number);
        };
        match bytes.extend_from_slice(&(number as u32).to_be_bytes()) {
            Ok(()) => rest = after,
            Err(error) => return Err(StartCause::Memory(Want::from(error))),
        }
    }
    Ok(bytes)
}

/// What the words behind an address say.
fn behind_address(alloc: Global, at: u64, text: &[u8]) -> Result<Item, StartCause>
    requires { at ≤ 2 ^ 36 - 1 }
    ensures item { Gives shown result (behind_address at (words_of text.now)) }
    ensures right { (windows : ℕ) → IfOk result (λ item. IsRight windows (shown item)) }
{
    if first_word(text).is_none() {
        return Err(StartCause::Count);
    }
    let bytes = bytes_of(alloc, text)?;
    if at % 4 == 0 && at + bytes.len() as u64 <= RAM as u64 {
        Ok(Item::Bytes(at, bytes))
    } else {
        Err(StartCause::Address)
    }
}

/// What a word behind a name says.
fn ruled(windows: u32, name: &StartName, word: &[u8]) -> Result<Item, StartCause>
    ensures item { Gives shown result (behind_name windows name.now (word.now ∷ [])) }
    ensures right { IfOk result (λ item. IsRight windows (shown item)) }
{
    let Some(number) = number(word, name.most()) else {
        return Err(StartCause::Number);
    };
    if name.keeps(windows, number) {
        Ok(Item::Sets(*name, number))
    } else {
        Err(name.rule())
    }
}

/// What the words behind a name say.
fn behind_name(windows: u32, name: &StartName, text: &[u8]) -> Result<Item, StartCause>
    ensures item { Gives shown result (behind_name windows name.now (words_of text.now)) }
    ensures right { IfOk result (λ item. IsRight windows (shown item)) }
{
    let Some((word, after)) = first_word(text) else {
        return Err(StartCause::Count);
    };
    match first_word(after) {
        Some(_) => Err(StartCause::Count),
        None => ruled(windows, name, word),
    }
}

/// What the words of a text say.
fn said_by(alloc: Global, windows: u32, text: &[u8]) -> Result<Item, StartCause>
    ensures item { Gives shown result (said_by windows (words_of text.now)) }
    ensures right { IfOk result (λ item. IsRight windows (shown item)) }
{
    let Some((first, after)) = first_word(text) else {
        return Ok(Item::Nothing);
    };
    match number(first, MOST_ADDRESS) {
        Some(at) => behind_address(alloc, at, after),
        None => match name_of(first) {
            Some(name) => behind_name(windows, &name, after),
            None => Err(StartCause::Name),
        },
    }
}

/// What a line says, on so many windows.
pub fn item_of(alloc: Global, windows: u32, line: &[u8]) -> Result<Item, StartCause>
    ensures item { Gives shown result (item_of windows line.now) }
    ensures right { IfOk result (λ item. IsRight windows (shown item)) }
{
    let text = text_of(line);
    if is_text(text) {
        said_by(alloc, windows, text)
    } else {
        Err(StartCause::Text)
    }
}

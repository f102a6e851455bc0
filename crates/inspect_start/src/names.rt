//! What a line of a start may name.
ghost use Rattle.std.specs.Prelude.{◌≡◌, ◌<◌, ◌≤◌, ◌+◌, ◌∷◌, [], IfSome, map};
ghost use Rattle.std.specs.Str.{bytes_eq};
ghost use Rattle.inspect_start.specs.Names.{beside, groups, keeps, most_of, name_of, numbered, register_named, rule_of};
ghost use Rattle.inspect_start.specs.Names.{suits, without_percent};

use crate::fault::StartCause;
use crate::numbers::{MOST_ADDRESS, MOST_WORD};
use v8_word::{Reg, bits_of};

/// What is set of the state: a field of `ControlValue`.
#[derive(Clone, Copy)]
pub enum StartField {
    Pc,
    Npc,
    Psr,
    Wim,
    Tbr,
    Y,
    /// The context table's physical address.
    Table,
    Context,
}

/// What has a name, and a number behind it.
#[derive(Clone, Copy)]
pub enum StartName {
    /// The window of the registers in the lines below.
    Window,
    Control(StartField),
    /// A register of the window that was named last.
    Register(Reg),
}

static FIELDS: [(&str, StartField); 8] = [
    ("pc", StartField::Pc),
    ("npc", StartField::Npc),
    ("psr", StartField::Psr),
    ("wim", StartField::Wim),
    ("tbr", StartField::Tbr),
    ("y", StartField::Y),
    ("context_table", StartField::Table),
    ("context", StartField::Context),
];

fn is_same(left: &[u8], right: &[u8]) -> bool
    ensures { result ≡ bytes_eq left.now right.now }
{
    left == right
}

/// What stands beside a name in a table.
fn beside<T: Copy>(name: &[u8], rows: &[(&str, T)]) -> Option<T>
    ensures { result ≡ beside name.now (map (λ x. (x.0.now, x.1)) rows.now) }
{
    for (text, item) in rows {
        if is_same(name, text.as_bytes()) {
            return Some(*item);
        }
    }
    None
}

/// The number of a group's first register, by its letter.
fn first_of(letter: u8) -> Option<u8>
    ensures value { result ≡ beside (letter ∷ []) groups }
    ensures bound { IfSome result (λ number. number ≤ 24) }
{
    match letter {
        b'g' => Some(0),
        b'o' => Some(8),
        b'l' => Some(16),
        b'i' => Some(24),
        _ => None,
    }
}

/// The register of a group, of whose first register this is the number, by a digit.
fn numbered(digit: u8, first: u8) -> Option<Reg>
    requires { first ≤ 24 }
    ensures { result ≡ numbered digit first }
{
    match digit {
        b'0'..=b'7' => Reg::new(first + (digit - b'0')),
        _ => None,
    }
}

/// The register that a word names: a letter and a digit, as `%o0`, `%sp` or `%fp`.
fn register_named(word: &[u8]) -> Option<Reg>
    ensures { result ≡ register_named word.now }
{
    if is_same(word, b"%sp") {
        return Some(Reg::SP);
    }
    if is_same(word, b"%fp") {
        return Some(Reg::FP);
    }
    if word.len() != 3 || word[0] != b'%' {
        return None;
    }
    let first = first_of(word[1])?;
    numbered(word[2], first)
}

/// A word without the `%` that may stand before it.
fn without_percent(word: &[u8]) -> &[u8]
    ensures { result.now ≡ without_percent word.now }
{
    match word.strip_prefix(b"%") {
        Some(rest) => rest,
        None => word,
    }
}

/// What a word names.
pub fn name_of(word: &[u8]) -> Option<StartName>
    ensures { result ≡ name_of word.now }
{
    if is_same(word, b"window") {
        return Some(StartName::Window);
    }
    match beside(without_percent(word), &FIELDS) {
        Some(field) => Some(StartName::Control(field)),
        None => match register_named(word) {
            Some(register) => Some(StartName::Register(register)),
            None => None,
        },
    }
}

impl StartField {
    /// Whether a number behind it keeps its rule, on so many windows.
    fn suits(self, windows: u32, number: u64) -> bool
        requires { number ≤ most_of (StartName.Control self) }
        ensures { result ≡ suits windows self number }
    {
        match self {
            StartField::Pc | StartField::Npc | StartField::Table => number % 4 == 0,
            StartField::Psr => bits_of(number as u32, 0, 5) < windows,
            _ => true,
        }
    }
}

impl StartName {
    /// The greatest number that may stand behind it.
    pub fn most(&self) -> u64
        ensures { result ≡ most_of self.now }
    {
        match self {
            StartName::Control(StartField::Table) => MOST_ADDRESS,
            _ => MOST_WORD,
        }
    }

    /// Whether a number behind it keeps its rule, on so many windows.
    pub fn keeps(&self, windows: u32, number: u64) -> bool
        requires { number ≤ most_of self.now }
        ensures { result ≡ keeps windows self.now number }
    {
        match self {
            StartName::Window => number < u64::from(windows),
            StartName::Control(field) => field.suits(windows, number),
            StartName::Register(_) => true,
        }
    }

    /// What is wrong with one that doesn't.
    pub fn rule(&self) -> StartCause
        ensures { result ≡ rule_of self.now }
    {
        match self {
            StartName::Control(StartField::Pc | StartField::Npc | StartField::Table) =>
                StartCause::Place,
            _ => StartCause::Window,
        }
    }
}

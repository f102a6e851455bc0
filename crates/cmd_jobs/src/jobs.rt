//! What a command line may ask for.
ghost use Rattle.std.specs.Prelude.{◌≡◌, ◌≤◌, IfSome, None, Some};
ghost use Rattle.std.specs.Option.{SomeIff};
ghost use Rattle.std.specs.Str.Parse.{IsNumeral, digits_value};

use crate::counts::Windows;

/// One job of the sandbox. Each path that it needs stands in it.
#[derive(Clone, Copy, PartialEq, Eq)]
pub enum Job<'a> {
    /// Assembles the source file to an object file.
    Asm {
        source: &'a str,
        object: &'a str,
    },
    /// Verifies the image file.
    Verify {
        image: &'a str,
    },
    /// Verifies the image file and runs it on so many register windows.
    Run {
        image: &'a str,
        windows: Windows,
    },
    /// Prints the code of the image file.
    List {
        image: &'a str,
    },
    /// Prints a line for each turn of a run of the image file on so many register windows, up to a limit of turns.
    Trace {
        image: &'a str,
        windows: Windows,
        limit: u64,
    },
}

/// The most turns that a trace may be asked for: as many as ten decimal digits count.
pub const MOST_TURNS: u64 = 9_999_999_999;

/// The number that a text spells by decimal digits alone, if it is at most `most`.
pub fn decimal(text: &str, most: u64) -> Option<u64>
    ensures { SomeIff result (IsNumeral 10 text.now × (digits_value 10 text.now ≤ most))
        (digits_value 10 text.now) }
{
    if text.as_bytes().first() == Some(&b'+') {
        return None;
    }
    match u64::from_str_radix(text, 10) {
        Ok(number) if number <= most => Some(number),
        _ => None,
    }
}

/// The limit of turns of a trace where no other is given.
const TURNS: u64 = 100_000;

/// The limit of turns that a text gives: decimal digits alone, up to the most. Without a text it is 100,000.
pub fn turns(text: Option<&str>) -> Option<u64>
    ensures given { IfSome text.entry
        (λ text. SomeIff result (IsNumeral 10 text.now × (digits_value 10 text.now ≤ 9999999999))
        (digits_value 10 text.now)) }
    ensures left_out { text.entry ≡ None → result ≡ Some 100000 }
    ensures range { IfSome result (λ limit. limit ≤ 9999999999) }
{
    match text {
        Some(text) => decimal(text, MOST_TURNS),
        None => Some(TURNS),
    }
}

/// The greatest count of windows.
const MOST_WINDOWS: u64 = 32;

/// The count of windows that a text gives: decimal digits alone, 4 to 32. Without a text it is 8.
pub fn window_count(text: Option<&str>) -> Option<Windows>
    ensures given { IfSome text.entry (λ text. SomeIff result
        (IsNumeral 10 text.now × (4 ≤ digits_value 10 text.now) × (digits_value 10 text.now ≤ 32))
        (digits_value 10 text.now)) }
    ensures left_out { text.entry ≡ None → result ≡ Some 8 }
    ensures range { IfSome result (λ windows. (4 ≤ windows) × (windows ≤ 32)) }
{
    match text {
        Some(text) => match decimal(text, MOST_WINDOWS) {
            Some(number) => Windows::new(number as u32),
            None => None,
        },
        None => Some(Windows::USUAL),
    }
}

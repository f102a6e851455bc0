//! Names and numbers in the source language's own words.
ghost use Rattle.std.specs.Prelude.{◌≡◌, Some};
ghost use Rattle.v8_forms.specs.Text.{group_text};
ghost use Rattle.inspect_image.specs.Names.{bounds_text, location_text};

use sbx_image::Range;
use std::fmt::{self, Display, Formatter, Write};

/// A location by its name: a register, or `slot K` for word K of the frame.
#[derive(Clone, Copy)]
pub struct Location(pub u16);

fn group(number: u16) -> &'static str
    ensures { result.now ≡ group_text number }
{
    match number {
        0 => "%g",
        1 => "%o",
        2 => "%l",
        _ => "%i",
    }
}

impl Display for Location {
    ghost output = { λ l. Some (location_text l.0) };

    fn fmt<W: Write>(&self, f: &mut Formatter<W>) -> fmt::Result {
        let number = self.0;
        match number {
            14 => f.write_str("%sp"),
            30 => f.write_str("%fp"),
            0..=31 => write!(f, "{}{}", group(number / 8), number % 8),
            _ => write!(f, "slot {}", number - 32),
        }
    }
}

/// A range as a cell, a parameter or a result declares it: `LO,HI,AL`.
#[derive(Clone, Copy)]
pub struct Bounds(pub Range);

impl Display for Bounds {
    ghost output = { λ b. Some (bounds_text b.0) };

    fn fmt<W: Write>(&self, f: &mut Formatter<W>) -> fmt::Result {
        let Range { lo, hi, alignment } = self.0;
        write!(f, "{lo},{hi},{alignment}")
    }
}

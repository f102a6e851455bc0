//! Fault statuses in words.
ghost use Rattle.std.specs.Prelude.{◌≡◌, Some};
ghost use Rattle.inspect_lines.specs.Faults.{access_text, error_text, status_text};

use std::fmt::{self, Display, Formatter, Write};
use v8_word::bits_of;

/// A fault status of the reference MMU in words (appendix H): `0000038A: protection at level 3, store to user data`, or
/// `none`.
#[derive(Clone, Copy)]
pub struct FaultStatus(pub u32);

/// The access types.
fn access_text(number: u32) -> &'static str
    ensures { result.now ≡ access_text number }
{
    match number {
        0 => "load from user data",
        1 => "load from supervisor data",
        2 => "load or execute from user instructions",
        3 => "load or execute from supervisor instructions",
        4 => "store to user data",
        5 => "store to supervisor data",
        6 => "store to user instructions",
        _ => "store to supervisor instructions",
    }
}

/// The fault types.
fn error_text(number: u32) -> &'static str
    ensures { result.now ≡ error_text number }
{
    match number {
        0 => "none",
        1 => "invalid address",
        2 => "protection",
        3 => "privilege violation",
        4 => "translation",
        5 => "access bus",
        6 => "internal",
        _ => "reserved",
    }
}

impl Display for FaultStatus {
    ghost output = { λ s. Some (status_text s.0) };

    fn fmt<W: Write>(&self, f: &mut Formatter<W>) -> fmt::Result {
        let status = self.0;
        if status == 0 {
            return f.write_str("none");
        }
        let level = bits_of(status, 8, 2);
        let (error, access) = (
            error_text(bits_of(status, 2, 3)),
            access_text(bits_of(status, 5, 3)),
        );
        write!(f, "{status:08X}: {error} at level {level}, {access}")
    }
}

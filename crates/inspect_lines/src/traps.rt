//! Traps by their names.
ghost use Rattle.std.specs.Prelude.{◌≡◌, Some};
ghost use Rattle.inspect_lines.specs.Words.{trap_name, trap_text};

use std::fmt::{self, Display, Formatter, Write};
use v8_word::TrapType;

/// The name of a trap type, as the manual has it (chapter 7, table 7-1).
pub fn trap_name(trap: TrapType) -> &'static str
    ensures { result.now ≡ trap_name trap }
{
    match trap.number() {
        0x01 => "instruction_access_exception",
        0x02 => "illegal_instruction",
        0x03 => "privileged_instruction",
        0x04 => "fp_disabled",
        0x05 => "window_overflow",
        0x06 => "window_underflow",
        0x07 => "mem_address_not_aligned",
        0x09 => "data_access_exception",
        0x0A => "tag_overflow",
        0x24 => "cp_disabled",
        0x2A => "division_by_zero",
        0x80.. => "trap_instruction",
        _ => "reserved",
    }
}

/// A trap type by number and name: `05 window_overflow`.
#[derive(Clone, Copy)]
pub struct Trap(pub TrapType);

impl Display for Trap {
    ghost output = { λ t. Some (trap_text t.0) };

    fn fmt<W: Write>(&self, f: &mut Formatter<W>) -> fmt::Result {
        let (number, name) = (self.0.number(), trap_name(self.0));
        write!(f, "{number:02X} {name}")
    }
}

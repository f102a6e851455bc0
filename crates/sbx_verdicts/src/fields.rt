//! The fields of a line.
ghost use Rattle.std.specs.Prelude.{◌≤◌, IfOk};
ghost use Rattle.sbx_verdicts.specs.Fields.{AreBytes, Spells};

use crate::faults::LineFault;
use std::alloc::{AllocError, Global};

/// The fields of a text, which stand a space apart.
pub fn fields(alloc: Global, text: &str) -> Result<Vec<&str>, AllocError> {
    text.split(' ').collect(alloc)
}

/// The bytes of a field: two hexadecimal digits each, and `-` where there are none.
pub fn bytes(alloc: Global, field: &str) -> Result<Vec<u8>, LineFault>
    ensures { IfOk result (λ bytes. AreBytes field.now bytes.items) }
{
    if field == "-" {
        return Ok(Vec::new(alloc));
    }
    let mut bytes = vec![in alloc; 0; field.len() / 2]?;
    match hex::decode_to_slice(field, bytes.as_mut_slice()) {
        Ok(()) => Ok(bytes),
        Err(_) => Err(LineFault::NotRead),
    }
}

/// The number of 64 bits that a field spells by digits of this base alone.
fn number(field: &str, base: u32) -> Result<u64, LineFault>
    requires { (2 ≤ base) × (base ≤ 36) }
    ensures { IfOk result (Spells base field.now) }
{
    if field.as_bytes().first() == Some(&b'+') {
        return Err(LineFault::NotRead);
    }
    match u64::from_str_radix(field, base) {
        Ok(number) => Ok(number),
        Err(_) => Err(LineFault::NotRead),
    }
}

/// The number that a field spells by decimal digits alone.
pub fn count(field: &str) -> Result<u64, LineFault>
    ensures { IfOk result (Spells 10 field.now) }
{
    number(field, 10)
}

/// The word that a field spells by digits of this base alone.
pub fn word(field: &str, base: u32) -> Result<u32, LineFault>
    requires { (2 ≤ base) × (base ≤ 36) }
    ensures { IfOk result (Spells base field.now) }
{
    match u32::try_from(number(field, base)?) {
        Ok(word) => Ok(word),
        Err(_) => Err(LineFault::NotRead),
    }
}

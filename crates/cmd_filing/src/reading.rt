//! All bytes of a reader, within a bound.
ghost use Rattle.std.specs.Prelude.{◌≡◌, ◌<◌, ◌≤◌, IfErr, IfOk, IfSome, OnOk, length, vec_len};
ghost use Rattle.std.specs.Io.KnownBytes.{IsAtEnd};
ghost use Rattle.cmd_filing.specs.Reading.{Explains};

use std::alloc::Global;
use std::io::Read;
use want::Want;

/// The most bytes that a source, or the input of a trace, may have.
pub const MOST: usize = 16_777_216;

/// Why the bytes of a reader aren't there.
#[derive(Clone, Copy, PartialEq, Eq)]
pub enum ReadFault {
    /// A read failed.
    Reader,
    /// There are more bytes than the bound allows.
    TooLong,
    /// No memory was left for the bytes.
    Memory(Want),
}

/// All bytes that a reader has left, if they are at most `most`.
pub fn read_whole<R: Read>(alloc: Global, from: &mut R, most: usize) -> Result<Vec<u8>, ReadFault>
    ensures bound { IfOk result (λ bytes. vec_len bytes ≤ most) }
    ensures whole { IfOk result (λ bytes. IfSome (R.remaining from.old) (λ all. bytes.items ≡ all)) }
    ensures end { OnOk result (IsAtEnd (R.remaining from.new)) }
    ensures fault { IfErr result (λ fault. Explains fault most (R.remaining from.old)) }
{
    let mut bytes = Vec::new(alloc);
    let mut piece = [0u8; 4096];
    for _ in 0..u64::MAX {
        let count = match from.read(&mut piece) {
            Ok(0) => return Ok(bytes),
            Ok(count) => count,
            Err(_) => return Err(ReadFault::Reader),
        };
        if count > most - bytes.len() {
            return Err(ReadFault::TooLong);
        }
        match bytes.extend_from_slice(&piece[..count]) {
            Ok(()) => {}
            Err(error) => return Err(ReadFault::Memory(Want::from(error))),
        }
    }
    Err(ReadFault::Reader)
}

//! One byte from a reader, and one to a writer.
ghost use Rattle.std.specs.Prelude.{◌≡◌, ◌∷◌, [], IfErr, IfOk, OnErr, OnOk};
ghost use Rattle.std.specs.Io.KnownBytes.{Appends, Consumes};
ghost use Rattle.engine_stream.specs.Flows.{IsRead};

use sbx_run::RunFault;
use std::io::{Read, Write};

/// Reads a byte; None at the end. It is one read of one byte; whatever its error, it isn't tried again.
pub(crate) fn read_byte<R: Read>(reader: &mut R) -> Result<Option<u8>, RunFault>
    ensures read { IfOk result (IsRead (R.remaining reader.old) (R.remaining reader.new)) }
    ensures nothing { OnErr result (Consumes (R.remaining reader.old) (R.remaining reader.new) []) }
    ensures fault { IfErr result (λ fault. fault ≡ RunFault.Reader) }
{
    let mut byte = [0u8; 1];
    match reader.read(&mut byte) {
        Ok(0) => Ok(None),
        Ok(_one) => Ok(Some(byte[0])),
        Err(_) => Err(RunFault::Reader),
    }
}

/// Writes a byte. It is one write of one byte, and isn't tried again.
pub(crate) fn write_byte<W: Write>(writer: &mut W, byte: u8) -> Result<(), RunFault>
    ensures written { OnOk result (Appends (W.contents writer.old) (W.contents writer.new) (byte ∷ [])) }
    ensures nothing { OnErr result (Appends (W.contents writer.old) (W.contents writer.new) []) }
    ensures fault { IfErr result (λ fault. fault ≡ RunFault.Writer) }
{
    match writer.write(&[byte]) {
        Ok(0) | Err(_) => Err(RunFault::Writer),
        Ok(_one) => Ok(()),
    }
}

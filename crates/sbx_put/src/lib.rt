//! Bytes that are put out, and what a writer has of them where it fails.
#![tactic(auto)]

ghost use Rattle.std.specs.Prelude.{◌≡◌, OnErr, OnOk};
ghost use Rattle.std.specs.Io.KnownBytes.{Appends};
ghost use Rattle.sbx_put.specs.Fronts.{WroteSome};

use std::io::{self, ErrorKind, Write};

/// Writes all bytes. Where the writer fails, or takes none of them, it has the first ones; it isn't tried again,
/// whatever its error.
pub fn put_all<W: Write>(out: &mut W, bytes: &[u8]) -> io::Result<()>
    ensures whole { OnOk result (Appends (W.contents out.old) (W.contents out.new) bytes.now) }
    ensures part { OnErr result (WroteSome (W.contents out.old) (W.contents out.new) bytes.now) }
{
    let mut rest = bytes;
    while !rest.is_empty() {
        match out.write(rest)? {
            0 => return Err(io::Error::from(ErrorKind::WriteZero)),
            count => rest = rest.split_at(count).1,
        }
    }
    Ok(())
}

/// Writes all bytes, through to the end. Where the writer fails it has the first ones: all of them, where it fails to
/// flush.
pub fn put_through<W: Write>(out: &mut W, bytes: &[u8]) -> io::Result<()>
    ensures whole { OnOk result (Appends (W.contents out.old) (W.contents out.new) bytes.now) }
    ensures part { OnErr result (WroteSome (W.contents out.old) (W.contents out.new) bytes.now) }
{
    put_all(out, bytes)?;
    out.flush()
}

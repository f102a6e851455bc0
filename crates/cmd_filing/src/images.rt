//! The image that a file holds.
ghost use Rattle.std.specs.Prelude.{◌≡◌, [], Ok, IfErr, IfOk, IfSome, OnOk};
ghost use Rattle.sbx_image.specs.Reading.{reading};
ghost use Rattle.cmd_stops.specs.Stops.{IsEarly, IsTrueOfImage};

use cmd_stops::CommandStop;
use sbx_image::Image;
use sbx_reader::ImageReader;
use std::alloc::Global;
use std::io::Read;

/// The most bytes that are read of a file at a time.
const PIECE: usize = 4_096;

/// Feeds a reader all bytes that a file has left, piece by piece. It reads no further than the piece with a fault.
fn feed_all<F: Read>(reader: &mut ImageReader, file: &mut F) -> Result<(), CommandStop>
    requires { reader.now ≡ Ok [] }
    ensures fed { OnOk result (IfSome (F.remaining file.old) (λ bytes. reader.new ≡ Ok bytes)) }
    ensures stop { IfErr result (λ stop. IfSome (F.remaining file.old) (IsTrueOfImage stop)) }
    ensures early { IfErr result IsEarly }
{
    let mut piece = [0u8; PIECE];
    for _ in 0..u64::MAX {
        match file.read(&mut piece) {
            Ok(0) => return Ok(()),
            Ok(count) => reader.feed(&piece[..count])?,
            Err(_) => return Err(CommandStop::File),
        }
    }
    Err(CommandStop::File)
}

/// The image that the bytes of a file spell. A fault is told by the piece that brings the last byte of the first bad
/// field, and nothing behind that piece is read.
pub fn image_in<F: Read>(alloc: Global, file: &mut F) -> Result<Image, CommandStop>
    ensures image { IfOk result (λ image. IfSome (F.remaining file.old) (λ bytes. reading bytes ≡ Ok image)) }
    ensures stop { IfErr result (λ stop. IfSome (F.remaining file.old) (IsTrueOfImage stop)) }
    ensures early { IfErr result IsEarly }
{
    let mut reader = ImageReader::new(alloc);
    feed_all(&mut reader, file)?;
    Ok(reader.finish()?)
}

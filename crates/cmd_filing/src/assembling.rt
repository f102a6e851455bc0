//! The command `asm`.
ghost use Rattle.std.specs.Prelude.{◌≡◌, IfErr, IfOk, IfSome, Ok, OnErr, OnOk};
ghost use Rattle.std.specs.Io.KnownBytes.{Appends};
ghost use Rattle.sbx_image.specs.Spelling.{spelling};
ghost use Rattle.sbx_asm.specs.Images.{source_image};
ghost use Rattle.sbx_put.specs.Fronts.{WroteSome};
ghost use Rattle.cmd_stops.specs.Stops.{IsEarly, IsOfOutput, IsTrueOfSource};
ghost use Rattle.cmd_filing.specs.Files.{BeginsObject, FrontLeft, IsSource, Assembled, FitsItsFields};

use crate::reading::{MOST, ReadFault, read_whole};
use cmd_stops::CommandStop;
use sbx_asm::assemble;
use sbx_image::{Image, write};
use sbx_put::put_through;
use std::alloc::Global;
use std::io::{Read, Write};
use want::Want;

/// Tells that each number of an image is one that its field can hold.
fn tells_fields(image: &Image)
    ensures { FitsItsFields image.now }
{
    image.keeps_its_format();
}

/// The image that the source in a file means.
fn source_in<F: Read>(alloc: Global, file: &mut F) -> Result<Image, CommandStop>
    ensures image { IfOk result (λ image. IfSome (F.remaining file.old) (λ bytes. source_image bytes ≡ Ok image)) }
    ensures stop { IfErr result (λ stop. IfSome (F.remaining file.old) (IsTrueOfSource stop)) }
    ensures early { IfErr result IsEarly }
{
    let source = match read_whole(alloc, file, MOST) {
        Ok(source) => source,
        Err(ReadFault::Memory(want)) => return Err(CommandStop::Memory(want)),
        Err(ReadFault::Reader | ReadFault::TooLong) => return Err(CommandStop::File),
    };
    Ok(assemble(alloc, source.as_slice())?)
}

/// Writes all bytes of an object, through to the end. A writer in memory may have no room.
fn store<O: Write>(out: &mut O, bytes: &[u8]) -> Result<(), CommandStop>
    ensures bytes { OnOk result (Appends (O.contents out.old) (O.contents out.new) bytes.now) }
    ensures part { OnErr result (WroteSome (O.contents out.old) (O.contents out.new) bytes.now) }
    ensures stop { IfErr result IsOfOutput }
{
    match put_through(out, bytes) {
        Ok(()) => Ok(()),
        Err(error) => Err(CommandStop::of(&error, CommandStop::Output)),
    }
}

/// Writes the image that the source in a file means.
#[tactic(auto, using(crate::proofs::Sources::assembled_on))]
pub fn assemble_file<F: Read, O: Write>(
    alloc: Global,
    file: &mut F,
    out: &mut O,
) -> Result<(), CommandStop>
    ensures source { OnOk result (IfSome (F.remaining file.old) IsSource) }
    ensures assembled { OnOk result (Assembled (F.remaining file.old) (O.contents out.old) (O.contents out.new)) }
    ensures stop { IfErr result (λ stop. IfSome (F.remaining file.old) (IsTrueOfSource stop)) }
    ensures untouched { IfErr result (λ stop. (IsOfOutput stop → ⊥) → out.new ≡ out.old) }
    ensures left { IfErr result
        (FrontLeft BeginsObject (F.remaining file.old) (O.contents out.old) (O.contents out.new)) }
{
    let image = source_in(alloc, file)?;
    tells_fields(&image);
    match write(&image, alloc) {
        Ok(bytes) => store(out, bytes.as_slice()),
        Err(error) => Err(CommandStop::Memory(Want::from(error))),
    }
}

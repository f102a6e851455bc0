//! A reader that is fed an image piece by piece.
ghost use Rattle.std.specs.Prelude.{◌≡◌, ◌+◌, ◌<◌, ◌≤◌, ◌++◌, [], drop, length, Ok, OnOk, None};
ghost use Rattle.sbx_image.specs.Reading.{Gives};
ghost use Rattle.sbx_reader.specs.Fronts.{Kept, front, kept, IsFed, IsFinished};
ghost use Rattle.sbx_reader.specs.Stages.{GoesOn, IsResumed};

use crate::stages::{Stage, next_item};
use sbx_image::{Image, ImageFault, parse};
use std::alloc::Global;
use std::marker::Model;

/// What was fed so far: the pieces joined or, after a fault, the fault alone. Contracts see that. Beside them stand how
/// many of the bytes were read, up to a whole item, and what comes next.
#[derive(Drop)]
pub struct ImageReader {
    alloc: Global,
    bytes: Vec<u8>,
    at: usize,
    stage: Stage,
    fault: Option<ImageFault>,
}

impl Model for ImageReader {
    ghost use Rattle.std.specs.Prelude.{◌≡◌, None};
    ghost use Rattle.sbx_reader.specs.Fronts.{Kept, kept};
    ghost use Rattle.sbx_reader.specs.Stages.{GoesOn};

    ghost Value = { Kept };

    ghost view = { λ r. kept r.fault r.bytes.items };

    ghost invariant = { λ r. r.fault ≡ None → GoesOn r.stage r.at r.bytes.items };
}

/// Reads on in bytes, whole item by whole item: what comes next, and where. Each item has a byte or more.
fn read_on(
    alloc: Global,
    stage: Stage,
    at: usize,
    bytes: &[u8],
) -> Result<(Stage, usize), ImageFault>
    requires { GoesOn stage at bytes.now }
    ensures { IsResumed bytes.now result }
{
    let mut next = stage;
    let mut place = at;
    while let Some((behind, count)) = next_item(alloc, next, &bytes[place..])? {
        next = behind;
        place += count;
    }
    Ok((next, place))
}

impl ImageReader {
    /// A reader that was fed nothing. It takes no memory.
    pub fn new(alloc: Global) -> ImageReader
        ensures { result ≡ Ok [] }
    {
        ImageReader {
            alloc,
            bytes: Vec::new(alloc),
            at: 0,
            stage: Stage::Front,
            fault: None,
        }
    }

    /// Lets go what was joined, and keeps a fault.
    fn stop(&mut self, fault: ImageFault) -> Result<(), ImageFault>
        ensures told { result ≡ Err fault }
        ensures kept { self.new ≡ Err fault }
    {
        self.bytes = Vec::new(self.alloc);
        self.fault = Some(fault);
        Err(fault)
    }

    /// Joins the next piece, which may have any length. A fault is told by the piece that brings the last byte of the
    /// first bad field: it is the fault of the pieces joined, which further bytes can't mend, so never `Short`; or it
    /// is `Memory` where memory was refused. After a fault this call and `finish` tell that fault again. A piece costs
    /// time by its own length and at most one item more, which is read again: a header with the regions' lengths and
    /// kinds, a function's head with its ranges, or a block.
    pub fn feed(&mut self, piece: &[u8]) -> Result<(), ImageFault>
        ensures { IsFed self.old piece.now result self.new }
    {
        if let Some(fault) = self.fault {
            return Err(fault);
        }
        if let Err(error) = self.bytes.extend_from_slice(piece) {
            return self.stop(error.into());
        }
        match read_on(self.alloc, self.stage, self.at, self.bytes.as_slice()) {
            Ok((stage, at)) => {
                self.stage = stage;
                self.at = at;
                Ok(())
            }
            Err(fault) => self.stop(fault),
        }
    }

    /// The image that all pieces joined spell, or their fault, as `parse` has it of bytes; after a fault that one. It
    /// reads them from the first one.
    pub fn finish(self) -> Result<Image, ImageFault>
        ensures { IsFinished self result }
    {
        let ImageReader {
            alloc,
            bytes,
            at: _,
            stage: _,
            fault,
        } = self;
        match fault {
            Some(fault) => Err(fault),
            None => parse(alloc, bytes.as_slice()),
        }
    }
}

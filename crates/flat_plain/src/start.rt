//! A machine at a start.
ghost use Rattle.std.specs.Prelude.{◌≡◌, ◌∷◌, [], IfOk};
ghost use Rattle.v8_map.specs.declared.TheConstants.{STACK_START};
ghost use Rattle.sbx_flat.specs.Runs.{IsStart};
ghost use Rattle.sbx_flat.specs.States.{State};
ghost use Rattle.flat_plain.specs.Shows.{Shows};

use crate::frames::{Frames, Slots};
use crate::machine::Plain;
use crate::memory::Data;
use sbx_image::Image;
use std::alloc::{AllocError, Global};
use v8_map::{CODE_START, STACK_START};
use v8_word::Icc;

/// One frame of the stack's base; each word that a start leaves open is `fill`, and Y too.
fn first_frame(alloc: Global, fill: u32) -> Frames
    ensures globals { result.globals ≡ 0 ∷ fill ∷ fill ∷ fill ∷ fill ∷ fill ∷ fill ∷ fill ∷ [] }
    ensures outs { result.outs ≡ fill ∷ fill ∷ fill ∷ fill ∷ fill ∷ fill ∷ STACK_START ∷ fill ∷ [] }
    ensures locals { result.locals ≡ fill ∷ fill ∷ fill ∷ fill ∷ fill ∷ fill ∷ fill ∷ fill ∷ [] }
    ensures ins { result.ins ≡ fill ∷ fill ∷ fill ∷ fill ∷ fill ∷ fill ∷ fill ∷ fill ∷ [] }
    ensures slots { result.slots.words.items ≡ [] }
    ensures older { result.older.items ≡ [] }
{
    Frames {
        globals: [0, fill, fill, fill, fill, fill, fill, fill],
        outs: [fill, fill, fill, fill, fill, fill, STACK_START, fill],
        locals: [fill; 8],
        ins: [fill; 8],
        slots: Slots {
            first: 0,
            words: Vec::new(alloc),
        },
        older: Vec::new(alloc),
    }
}

impl<'a> Plain<'a> {
    /// The machine at a start of the image on this input, where each open word is `fill`.
    pub fn new(
        alloc: Global,
        image: &Image,
        input: &'a [u8],
        fill: u32,
    ) -> Result<Plain<'a>, AllocError>
        ensures { IfOk result (λ machine. (s : State) × IsStart image.now input.now s × Shows machine s) }
    {
        let memory = Data::of(alloc, image.regions())?;
        Ok(Plain {
            pc: CODE_START,
            npc: CODE_START + 4,
            annulled: false,
            icc: Icc {
                n: false,
                z: false,
                v: false,
                c: false,
            },
            y: fill,
            frames: first_frame(alloc, fill),
            memory,
            input,
            output: Vec::new(alloc),
            exit: None,
        })
    }

    /// The bytes that were put out so far.
    pub fn output(&self) -> &[u8]
        ensures { result.now ≡ self.now.output.items }
    {
        self.output.as_slice()
    }

    /// The exit word, once there is one.
    pub fn exit(&self) -> Option<u32>
        ensures { result ≡ self.now.exit }
    {
        self.exit
    }
}

//! The command `verify`.
ghost use Rattle.std.specs.Prelude.{◌≡◌, IfErr, IfOk, IfSome, Ok, OnOk, codes};
ghost use Rattle.std.specs.Io.KnownBytes.{Appends};
ghost use Rattle.sbx_image.specs.Reading.{reading};
ghost use Rattle.sbx_rules.specs.Verdicts.{Checked};
ghost use Rattle.cmd_stops.specs.Stops.{IsEarly, IsOfOutput, IsTrueOf};
ghost use Rattle.cmd_filing.specs.Files.{BeginsVerdict, FrontLeft, IsAccepted};

use crate::images::image_in;
use cmd_stops::CommandStop;
use sbx_put::put_through;
use sbx_verify::{Accepted, Cause, verify};
use std::alloc::Global;
use std::io::{Read, Write};

/// The image of a file, where it breaks no rule.
#[tactic(auto, using(crate::proofs::Accepting::broken))]
pub fn accepted_in<F: Read>(alloc: Global, file: &mut F) -> Result<Accepted, CommandStop>
    ensures accepted { IfOk result (λ accepted. IfSome (F.remaining file.old)
        (λ bytes. (reading bytes ≡ Ok accepted) × Checked accepted)) }
    ensures stop { IfErr result (λ stop. IfSome (F.remaining file.old) (IsTrueOf stop)) }
    ensures early { IfErr result IsEarly }
{
    let image = image_in(alloc, file)?;
    match verify(alloc, image) {
        Ok(accepted) => Ok(accepted),
        Err((_image, refusal)) => match refusal.cause {
            Cause::NoMemory(want) => Err(CommandStop::Memory(want)),
            _ => Err(CommandStop::Refused(refusal)),
        },
    }
}

/// Verifies the image of a file, and says so where it is accepted.
#[tactic(auto, using(crate::proofs::Fronts::verdict_begun))]
pub fn verify_file<F: Read, O: Write>(
    alloc: Global,
    file: &mut F,
    out: &mut O,
) -> Result<(), CommandStop>
    ensures accepted { OnOk result (IfSome (F.remaining file.old) IsAccepted) }
    ensures stop { IfErr result (λ stop. IfSome (F.remaining file.old) (IsTrueOf stop)) }
    ensures line { OnOk result (Appends (O.contents out.old) (O.contents out.new) (codes "accepted\n")) }
    ensures untouched { IfErr result (λ stop. (IsOfOutput stop → ⊥) → out.new ≡ out.old) }
    ensures left { IfErr result
        (FrontLeft BeginsVerdict (F.remaining file.old) (O.contents out.old) (O.contents out.new)) }
{
    let _accepted = accepted_in(alloc, file)?;
    match put_through(out, b"accepted\n") {
        Ok(()) => Ok(()),
        Err(_) => Err(CommandStop::Output),
    }
}

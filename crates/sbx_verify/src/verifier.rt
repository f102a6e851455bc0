//! The verdict on an image.
ghost use Rattle.std.specs.Prelude.{◌≡◌, IfErr, IfOk};
ghost use Rattle.sbx_flat.specs.Runs.{FlatSafe};
ghost use Rattle.sbx_sound.specs.Verdicts.{Checked};
ghost use Rattle.sbx_sound.specs.Law.{IsFormed};
ghost use Rattle.sbx_depth.specs.Law.{DepthIsEnough};
ghost use Rattle.sbx_verify.specs.Refusals.{IsRefusal, no_memory};

use sbx_depth::laws::declared_depth_is_enough;
use sbx_image::Image;
use sbx_pass::first_fault;
use sbx_sound::laws::checked_is_safe;
use sbx_sound::{Cause, Refusal};
use std::alloc::{AllocError, Global};
use std::marker::Model;
use want::Want;

/// An image that breaks no rule. Contracts see its parts.
#[derive(Drop)]
pub struct Accepted {
    image: Image,
}

impl Model for Accepted {
    ghost use Rattle.sbx_image.specs.Parts.{Parts};
    ghost use Rattle.sbx_sound.specs.Verdicts.{Checked};

    ghost Value = { Parts };

    ghost view = { λ a. a.image };

    ghost invariant = { λ a. Checked a.image };
}

impl Accepted {
    /// The image. It is safe: on the flat machine each run of it ends within its budget, with one output and status. Of
    /// version 3 no run overflows or underflows a window where there are two more than its first function's declared
    /// depth.
    pub fn image(&self) -> &Image
        ensures image { result.now ≡ self.now }
        ensures checked { Checked self.now }
        ensures safe { FlatSafe self.now }
        ensures depth { DepthIsEnough self.now }
    {
        tells_form(&self.image);
        checked_is_safe();
        declared_depth_is_enough();
        &self.image
    }

    /// The image, no longer known to keep the rules.
    pub fn into_image(self) -> Image
        ensures { result ≡ self }
    {
        let Accepted { image } = self;
        image
    }
}

/// Tells that an image has the form which the rules speak of.
fn tells_form(image: &Image)
    ensures { IsFormed image.now }
{
    image.keeps_its_format();
}

/// What is told where memory is refused.
fn no_memory(error: AllocError) -> Refusal
    ensures { result ≡ no_memory }
{
    Refusal {
        function: 0,
        address: 0,
        cause: Cause::NoMemory(Want::from(error)),
    }
}

/// Accepts exactly the images that break no rule, and these are safe: on the flat machine each run ends within the
/// budget, with one output and status. Else it gives the image back, with the broken rule of least number at the least
/// address, or with `Cause::NoMemory` where memory was refused.
pub fn verify(alloc: Global, image: Image) -> Result<Accepted, (Image, Refusal)>
    ensures accepted { IfOk result (λ accepted. (accepted ≡ image) × Checked image) }
    ensures safe { IfOk result (λ _. FlatSafe image) }
    ensures refused { IfErr result (λ back. (back.0 ≡ image) × IsRefusal image back.1) }
{
    tells_form(&image);
    checked_is_safe();
    match first_fault(alloc, &image) {
        Ok(None) => Ok(Accepted { image }),
        Ok(Some(refusal)) => Err((image, refusal)),
        Err(error) => Err((image, no_memory(error))),
    }
}

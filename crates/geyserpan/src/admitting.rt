//! What is made of the bytes of a stranger's image.
ghost use Rattle.std.specs.Prelude.{◌≡◌, Ok, IfOk, IfErr};
ghost use Rattle.sbx_image.specs.Reading.{reading};
ghost use Rattle.sbx_flat.specs.Runs.{FlatSafe};
ghost use Rattle.geyserpan.specs.Denials.{Explains, Grants, IsAdmitted, IsLack};
ghost use Rattle.geyserpan.specs.declared.terms.Terms.{Terms};

use crate::terms::Terms;
use sbx_image::{ImageFault, parse};
use sbx_run::{Accepted, Refusal, budget};
use sbx_verify::verify;
use std::alloc::Global;

/// Why an image isn't run. Want of memory is told as I9 or V19.
#[derive(Clone, Copy)]
pub enum Denial {
    /// The bytes are no image.
    Image(ImageFault),
    /// The image breaks a rule.
    Refused(Refusal),
    /// The terms' count of windows is below 4 or above 32.
    Windows,
    /// It declares a service that isn't granted.
    Services,
    /// It declares more turns than are granted.
    Turns,
}

/// What an accepted image declares, and the terms don't grant.
#[derive(Clone, Copy)]
pub enum Lack {
    Services,
    Turns,
}

/// The accepted image of these bytes, or why there is none.
pub fn judge(alloc: Global, bytes: &[u8]) -> Result<Accepted, Denial>
    ensures accepted { IfOk result (λ accepted. (reading bytes.now ≡ Ok accepted) × FlatSafe accepted) }
    ensures denied { IfErr result (λ denial. (terms : Terms) → Explains bytes.now terms denial) }
{
    let image = parse(alloc, bytes).map_err(Denial::Image)?;
    verify(alloc, image).map_err(|back| Denial::Refused(back.1))
}

/// The accepted image of these bytes, where it asks for no more than the terms grant; else the first reason not to run
/// it.
pub fn admit(alloc: Global, bytes: &[u8], terms: &Terms) -> Result<Accepted, Denial>
    ensures admitted { IfOk result (IsAdmitted bytes.now terms.now) }
    ensures denied { IfErr result (Explains bytes.now terms.now) }
{
    if terms.windows < 4 || 32 < terms.windows {
        return Err(Denial::Windows);
    }
    let accepted = judge(alloc, bytes)?;
    match grant(&accepted, terms) {
        Ok(()) => Ok(accepted),
        Err(Lack::Services) => Err(Denial::Services),
        Err(Lack::Turns) => Err(Denial::Turns),
    }
}

/// Compares what an accepted image declares with what is granted; the first that isn't is told.
pub fn grant(accepted: &Accepted, terms: &Terms) -> Result<(), Lack>
    ensures granted { IfOk result (λ _. Grants terms.now accepted.now) }
    ensures lacking { IfErr result (IsLack terms.now accepted.now) }
{
    let services = u32::from(accepted.image().services().0);
    if terms.services & services != services {
        return Err(Lack::Services);
    }
    if terms.turns < budget(accepted.image()) {
        return Err(Lack::Turns);
    }
    Ok(())
}

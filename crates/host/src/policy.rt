//! What a host grants, and what it makes of the bytes of a stranger's image.
ghost use Rattle.std.specs.Prelude.{IfErr, IfOk};
ghost use Rattle.host.specs.Policies.{Explains, IsAdmitted};

use bitflags::Flags;
use sbx_image::parse;
use sbx_run::{Accepted, ImageFault, Refusal, Services, budget};
use sbx_verify::verify;
use std::alloc::Global;
use std::fmt::{self, Display, Formatter, Write};

/// What a host grants an image: the services that it may ask for, and the turns that it may take.
#[derive(Clone, Copy)]
pub struct Policy {
    pub services: Services,
    pub turns: u64,
}

/// What is granted where nobody says otherwise: to read, to write and to end, and as many turns as an image of `cc`
/// asks for.
pub const POLICY: Policy = Policy {
    services: Services(7),
    turns: 1_000_000_000,
};

/// Why an image isn't run. Want of memory is told as I9 or V19.
#[derive(Clone, Copy)]
pub enum Denial {
    /// The bytes are no image.
    Image(ImageFault),
    /// The image breaks a rule.
    Refused(Refusal),
    /// It declares these services, and one of them isn't granted.
    Services(Services),
    /// It declares so many turns, more than are granted.
    Turns(u64),
}

impl Display for Denial {
    fn fmt<W: Write>(&self, f: &mut Formatter<W>) -> fmt::Result {
        match self {
            Denial::Image(fault) => write!(f, "image {fault}"),
            Denial::Refused(refusal) => write!(f, "{refusal}"),
            Denial::Services(_) => f.write_str("it asks for a service that isn't granted"),
            Denial::Turns(turns) => write!(f, "it asks for {turns} turns"),
        }
    }
}

/// The accepted image of these bytes, where it asks for no more than the policy grants; else the first reason not
/// to run it.
pub fn admit(alloc: Global, policy: Policy, bytes: &[u8]) -> Result<Accepted, Denial>
    ensures admitted { IfOk result (IsAdmitted policy bytes.now) }
    ensures denied { IfErr result (Explains policy bytes.now) }
{
    let image = parse(alloc, bytes).map_err(Denial::Image)?;
    let accepted = verify(alloc, image).map_err(|back| Denial::Refused(back.1))?;
    let (services, turns) = (accepted.image().services(), budget(accepted.image()));
    if !policy.services.contains(services) {
        return Err(Denial::Services(services));
    }
    if turns > policy.turns {
        return Err(Denial::Turns(turns));
    }
    Ok(accepted)
}

//! Verdicts on images, as the verifier tells them and as lines spell them.
ghost use Rattle.std.specs.Prelude.{◌≡◌, ◌↔◌, IfOk, IsTrue, string_bytes};
ghost use Rattle.sbx_verdicts.specs.Verdicts.{IsVerdict, spelling};

use crate::faults::LineFault;
use sbx_image::parse;
use sbx_run::{Accepted, Refusal};
use sbx_verify::verify;
use std::alloc::{AllocError, Global};

/// The verifier's verdict on an image.
#[derive(Drop)]
pub enum Verdict {
    Accepted(Accepted),
    Refused(Refusal),
}

/// The verdict on the image that these bytes spell.
pub fn verdict_on(alloc: Global, bytes: &[u8]) -> Result<Verdict, LineFault>
    ensures { IfOk result (IsVerdict bytes.now) }
{
    let image = parse(alloc, bytes)?;
    match verify(alloc, image) {
        Ok(accepted) => Ok(Verdict::Accepted(accepted)),
        Err((_image, refusal)) => Ok(Verdict::Refused(refusal)),
    }
}

/// A verdict as a line spells it: `accepted`, or the rule, the function and the address.
fn spelled(alloc: Global, verdict: &Verdict) -> Result<String, AllocError>
    ensures { IfOk result (λ text. string_bytes text ≡ spelling verdict.now) }
{
    match verdict {
        Verdict::Accepted(_) => "accepted".to_string(alloc),
        Verdict::Refused(refusal) => {
            let cause = refusal.cause;
            let function = refusal.function;
            let address = refusal.address;
            format!(in alloc; "{cause} {function} {address:08X}")
        }
    }
}

/// Whether a verdict is the one that a text spells.
pub fn is_spelled(alloc: Global, verdict: &Verdict, text: &str) -> Result<bool, AllocError>
    ensures { IfOk result (λ same. IsTrue same ↔ (spelling verdict.now ≡ text.now)) }
{
    let told = spelled(alloc, verdict)?;
    Ok(told.as_str() == text)
}

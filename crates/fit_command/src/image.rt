//! The image of a source: assembled, and verified by the proved verifier. No bytes are given of an image that it
//! refuses.
ghost use Rattle.std.specs.Prelude.{◌≡◌, IfOk, IsOk};
ghost use Rattle.sbx_image.specs.Spelling.{spelling};
ghost use Rattle.sbx_asm.specs.Images.{source_image};
ghost use Rattle.sbx_rules.specs.Verdicts.{Checked};

use crate::files::{NO_MEMORY, write_image};
use crate::words::Arguments;
use sbx_asm::{AsmFault, Cause, assemble};
use sbx_image::write;
use sbx_verify::{Cause as Rule, Refusal, verify};
use std::alloc::{AllocError, Global};
use std::fmt::{self, Display, Formatter, Write};

/// The exit status where what was made isn't accepted.
const NOT_ACCEPTED: u8 = 6;

/// Why there is no image of a source. Its text is the line of `sandbox asm`, or of `sandbox verify`.
#[derive(Clone, Copy)]
pub enum NoImage {
    /// The assembler refuses the source.
    Source(AsmFault),
    /// The image breaks a rule.
    Refused(Refusal),
    /// Memory was refused.
    Memory,
}

impl Display for NoImage {
    fn fmt<W: Write>(&self, f: &mut Formatter<W>) -> fmt::Result {
        match self {
            NoImage::Source(fault) => write!(f, "{fault}"),
            NoImage::Refused(refusal) => write!(f, "{refusal}"),
            NoImage::Memory => f.write_str("memory"),
        }
    }
}

impl From<AsmFault> for NoImage {
    fn from(fault: AsmFault) -> NoImage {
        match fault.cause {
            Cause::Memory(_) => NoImage::Memory,
            _ => NoImage::Source(fault),
        }
    }
}

impl From<Refusal> for NoImage {
    fn from(refusal: Refusal) -> NoImage {
        match refusal.cause {
            Rule::NoMemory(_) => NoImage::Memory,
            _ => NoImage::Refused(refusal),
        }
    }
}

impl From<AllocError> for NoImage {
    fn from(_error: AllocError) -> NoImage {
        NoImage::Memory
    }
}

/// The bytes of the image that a source means, which breaks no rule.
///
/// # Errors
/// `Source` and `Refused` as the assembler and the verifier say. `Memory` may come in the place of any answer.
pub fn image_bytes(alloc: Global, source: &[u8]) -> Result<Vec<u8>, NoImage>
    ensures source { IfOk result (λ _. IsOk (source_image source.now)) }
    ensures spelled { IfOk result (λ bytes. IfOk (source_image source.now) (λ parts. bytes.items ≡ spelling parts)) }
    ensures checked { IfOk result (λ _. IfOk (source_image source.now) Checked) }
{
    let image = match verify(alloc, assemble(alloc, source)?) {
        Ok(accepted) => accepted.into_image(),
        Err((_image, refusal)) => return Err(NoImage::from(refusal)),
    };
    Ok(write(&image, alloc)?)
}

/// Makes an image of the source that was made, and writes it where it is accepted; else that is told. Gives the exit
/// status.
pub fn finish_image(rt: &HostRuntime, words: &Arguments<'_>, path: &str, text: &[u8]) -> u8 {
    match image_bytes(rt.alloc(), text) {
        Ok(bytes) => write_image(rt, words, path, bytes.as_slice()),
        Err(NoImage::Memory) => NO_MEMORY,
        Err(lack) => {
            let _ = eprintln!(rt; "fit: {path}: what was made isn't accepted: {lack}");
            NOT_ACCEPTED
        }
    }
}

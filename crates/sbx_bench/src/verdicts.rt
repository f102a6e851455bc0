//! How long verification takes.
ghost use Rattle.std.specs.Prelude.{◌≡◌, IfOk, MatchOption, length};
ghost use Rattle.sbx_rules.specs.Verdicts.{Checked};
ghost use Rattle.sbx_verify.specs.Refusals.{IsRefusal};

use sbx_image::Image;
use sbx_verify::{Refusal, verify};
use std::alloc::Global;
use std::io;
use std::time::Instant;

/// How often an image is verified; the least time counts.
const ROUNDS: usize = 5;

/// What verification told of an image, and how long it took.
#[derive(Clone, Copy)]
pub struct Verdict {
    /// How many words the image has.
    pub words: u32,
    /// None where the image is accepted.
    pub refusal: Option<Refusal>,
    /// In microseconds.
    pub time: u128,
}

/// An image, and why it is refused, if it is.
fn judged(alloc: Global, image: Image) -> (Image, Option<Refusal>)
    ensures image { result.0 ≡ image }
    ensures refusal { MatchOption result.1 (Checked image) (IsRefusal image) }
{
    match verify(alloc, image) {
        Ok(accepted) => (accepted.into_image(), None),
        Err((image, refusal)) => (image, Some(refusal)),
    }
}

/// The least time that an image's verification takes, in microseconds.
fn least_time(rt: &HostRuntime, mut image: Image) -> io::Result<u128> {
    let mut least = u128::MAX;
    for _ in 0..ROUNDS {
        let begin = Instant::now(rt)?;
        image = judged(rt.alloc(), image).0;
        least = least.min(begin.elapsed(rt)?.as_micros());
    }
    Ok(least)
}

/// Verifies an image a few times.
pub fn timed_verdict(rt: &HostRuntime, image: Image) -> io::Result<Verdict>
    ensures words { IfOk result (λ verdict. verdict.words ≡ length image.words) }
    ensures refusal { IfOk result (λ verdict. MatchOption verdict.refusal (Checked image) (IsRefusal image)) }
{
    let words = image.word_count();
    let (image, refusal) = judged(rt.alloc(), image);
    let time = least_time(rt, image)?;
    Ok(Verdict {
        words,
        refusal,
        time,
    })
}

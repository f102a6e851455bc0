//! The calls, for tests that need nothing of what their contracts promise: who makes a call has its whole contract to
//! prove with.
ghost use Rattle.std.specs.Prelude.{◌≤◌};

use sbx_batch::{Batch, run_batch};
use sbx_image::{Image, ImageFault, parse};
use sbx_run::{Accepted, Finished, Raw, Refusal, run_accepted, run_raw};
use sbx_verify::verify;
use std::alloc::Global;

/// The image of these bytes.
pub(crate) fn read(alloc: Global, bytes: &[u8]) -> Result<Image, ImageFault> {
    parse(alloc, bytes)
}

/// The image as an accepted one, or as it was and why it is refused.
pub(crate) fn judged(alloc: Global, image: Image) -> Result<Accepted, (Image, Refusal)> {
    verify(alloc, image)
}

/// What a run on `N` windows gives, if it ends.
pub(crate) fn finished_on<const N: usize>(
    alloc: Global,
    accepted: &Accepted,
    input: &[u8],
) -> Option<Finished>
    requires { (4 ≤ N) × (N ≤ 32) }
{
    run_accepted::<N>(alloc, accepted, input).ok()
}

/// What a raw run on `N` windows, without input, gives within 1,000 turns.
pub(crate) fn raw_on<const N: usize>(alloc: Global, image: &Image) -> Option<Raw>
    requires { (4 ≤ N) × (N ≤ 32) }
{
    run_raw::<N>(alloc, image, b"", 1000).ok()
}

/// What the runs of a list on one board of `N` windows give, if they end.
pub(crate) fn answers_on<const N: usize>(alloc: Global, list: &[Batch<'_>]) -> Option<Vec<Finished>>
    requires { (4 ≤ N) × (N ≤ 32) }
{
    run_batch::<N>(alloc, list).ok()
}

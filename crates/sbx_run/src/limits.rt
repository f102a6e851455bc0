//! The limits of the format that a run rests on.
ghost use Rattle.std.specs.List.{AllByRecursion};
ghost use Rattle.sbx_flat.specs.Runs.{AreBytes};
ghost use Rattle.sbx_image.specs.Spelling.{IsTypedRegion};
ghost use Rattle.sbx_shows.specs.WholeRuns.{IsImage};

use sbx_image::{Image, Region};
use sbx_verify::budget;

/// Tells that the elements are bytes, which is known of each one that is read.
fn tells_bytes(bytes: &[u8])
    ensures { AreBytes bytes.now }
{
    let _ = bytes;
}

/// Tells it of the bytes of each region.
fn tells_regions(regions: &[Region])
    ensures { AllByRecursion IsTypedRegion regions.now }
{
    for region in regions {
        tells_bytes(region.bytes.as_slice());
    }
}

/// Tells that an image keeps these limits, which each of its readers says for itself.
pub fn tells_limits(image: &Image)
    ensures { IsImage image.now }
{
    let _words = image.word_count();
    tells_regions(image.regions());
    let _pages = image.stack_pages();
    let _turns = budget(image);
}

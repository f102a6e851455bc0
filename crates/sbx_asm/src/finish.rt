//! The image of parts, or why they are none.
ghost use Rattle.std.specs.Prelude.{◌≡◌, length, nat_lt, None};
ghost use Rattle.sbx_image.specs.Regions.{page_rights};
ghost use Rattle.sbx_asm.specs.Images.{judged, whole_cause};

use crate::fault::{AsmFault, Cause};
use sbx_image::{Image, Parts, Region};
use sbx_parts::pages_for;

/// The most pages that the regions of an image take in all.
const PAGES: usize = 64;

/// Whether regions take more pages than an image may have.
fn pass_pages(regions: &[Region]) -> bool
    ensures { result ≡ nat_lt 64 (length (page_rights regions.now)) }
{
    let mut left = PAGES;
    for region in regions {
        let pages = pages_for(region.bytes.len());
        if pages > left {
            return true;
        }
        left -= pages;
    }
    false
}

/// Why parts of lines without faults are no image.
fn whole_cause(parts: &Parts) -> Cause
    ensures { result ≡ whole_cause parts.now }
{
    if parts.functions.len() > 0 && pass_pages(parts.regions.as_slice()) {
        Cause::Limit
    } else {
        Cause::Directive
    }
}

/// The image of the parts of lines without faults; else a fault at the line after the last.
pub fn judged(after: usize, parts: Parts) -> Result<Image, AsmFault>
    ensures { result ≡ judged after None parts }
{
    match Image::from_parts(parts) {
        Ok(image) => Ok(image),
        Err((parts, _)) => Err(AsmFault {
            line: after,
            cause: whole_cause(&parts),
        }),
    }
}

//! The two sides of the rule of call depth.
ghost use Rattle.inspect_known.specs.Sights.{IsSeen};

use inspect_known::{DepthSides, Sight, call_depth, entry_depth};
use sbx_image::Image;
use std::alloc::AllocError;

/// The two sides; an arrow marks where the depth isn't enough.
fn push_sides(out: &mut String, sides: DepthSides, asker: &str) -> Result<(), AllocError> {
    let DepthSides { depth, needed } = sides;
    let mark = if needed > depth { "   <-" } else { "" };
    writeln!(out, "  {depth}, and {needed} is asked for {asker}{mark}")
}

/// The two sides of the rule of call depth: at the function's entry, and at a call.
pub(crate) fn push_depths(out: &mut String, image: &Image, sight: &Sight) -> Result<(), AllocError>
    requires { IsSeen image.now sight.now }
{
    out.push_str("\nthe declared depth is\n")?;
    push_sides(
        out,
        entry_depth(image, sight),
        "by the function's own frame",
    )?;
    if sight.spot.callee.is_none() {
        return Ok(());
    }
    push_sides(out, call_depth(image, sight), "by 1 and the callee's depth")
}

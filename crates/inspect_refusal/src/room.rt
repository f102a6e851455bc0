//! The two sides of the rule of stack room.
ghost use Rattle.inspect_known.specs.Sights.{IsSeen};

use inspect_known::{RoomSides, Sight, call_room, entry_room, stack_room};
use sbx_image::Image;
use std::alloc::AllocError;

/// The two sides; an arrow marks where the room isn't enough.
fn push_sides(out: &mut String, sides: RoomSides, asker: &str) -> Result<(), AllocError> {
    let RoomSides { room, needed } = sides;
    let mark = if needed > room { "   <-" } else { "" };
    writeln!(
        out,
        "  {room} bytes, and {needed} are asked for {asker}{mark}"
    )
}

/// The two sides of the rule of stack room: at the function's entry, at that of function 0, and at a call.
pub(crate) fn push_room(out: &mut String, image: &Image, sight: &Sight) -> Result<(), AllocError>
    requires { IsSeen image.now sight.now }
{
    out.push_str("\nthere are\n")?;
    push_sides(out, entry_room(image, sight), "by the frame")?;
    if sight.spot.function == 0 {
        push_sides(out, stack_room(image, sight), "of the stack by function 0")?;
    }
    if sight.spot.callee.is_none() {
        return Ok(());
    }
    push_sides(out, call_room(image, sight), "by the frame and the callee")
}

//! Room of the caller's, to whose front a text is written.
ghost use Rattle.std.specs.Prelude.{◌≡◌, ◌≢◌, ◌<◌, ◌++◌, drop, length};

use crate::denied::{OK, ROOM};

/// Writes a text to the front of a room, if it fits, and tells how long it is. What is behind it stays.
pub fn hand_on(text: &[u8], room: &mut [u8], needed: &mut u64) -> u32
    ensures handed { result ≡ OK → room.new ≡ text.now ++ drop (length text.now) room.old }
    ensures stays { result ≢ OK → room.new ≡ room.old }
    ensures small { result ≢ OK → (result ≡ ROOM) × (length room.old < length text.now) }
    ensures needed { needed.new ≡ length text.now }
{
    *needed = text.len() as u64;
    if room.len() < text.len() {
        return ROOM;
    }
    let (front, _behind) = room.split_at_mut(text.len());
    front.copy_from_slice(text);
    OK
}

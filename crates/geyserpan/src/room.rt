//! Room of the caller's.
ghost use Rattle.std.specs.Prelude.{◌≡◌, ◌≢◌, ◌++◌, ◌<◌, ◌≤◌, drop, length, true, false};
ghost use Rattle.geyserpan.specs.Reports.{Hands, IsHandStatus};

use crate::statuses::{HANDLE, OK, OUTPUT, ROOM};

/// Writes bytes to the front of a room, if they fit; what is behind them stays. Else nothing is written.
pub fn put_front(room: &mut [u8], bytes: &[u8]) -> bool
    ensures fits { result ≡ true → room.new ≡ bytes.now ++ drop (length bytes.now) room.old }
    ensures stays { result ≡ false → (room.new ≡ room.old) × (length room.old < length bytes.now) }
{
    if room.len() < bytes.len() {
        return false;
    }
    let (front, _behind) = room.split_at_mut(bytes.len());
    front.copy_from_slice(bytes);
    true
}

/// Hands the output of a run on, where it is no longer than is granted and the room has place for all of it.
pub fn hand_on(output: &[u8], most: u64, room: &mut [u8]) -> u32
    ensures handed { result ≡ OK → Hands output.now room.old room.new }
    ensures stays { result ≢ OK → room.new ≡ room.old }
    ensures granted { result ≡ OK → length output.now ≤ most }
    ensures longer { result ≡ OUTPUT → most < length output.now }
    ensures small { result ≡ ROOM → length room.old < length output.now }
    ensures one { IsHandStatus result }
    ensures holds { result ≢ HANDLE }
{
    if most < output.len() as u64 {
        return OUTPUT;
    }
    if put_front(room, output) { OK } else { ROOM }
}

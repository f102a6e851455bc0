//! The calls that name images and exit words.
ghost use Rattle.std.specs.Prelude.{◌≡◌, ◌≢◌, ◌<◌, length};
ghost use Rattle.sha2.specs.Sha256.{sha256};
ghost use Rattle.geyserpan.specs.Names.{test_of};
ghost use Rattle.geyserpan.specs.Reports.{Hands};

use crate::room::put_front;
use crate::statuses::{OK, ROOM};
use sha2::{Digest, Sha256};

/// Writes the SHA-256 of some bytes to the front of the room.
#[unsafe(no_mangle)]
pub extern "C" fn geyserpan_sha256(bytes: &[u8], room: &mut [u8]) -> u32
    ensures named { result ≡ OK → Hands (sha256 bytes.now) room.old room.new }
    ensures small { result ≢ OK → (result ≡ ROOM) × (room.new ≡ room.old) × (length room.old < 32) }
{
    let hash: [u8; 32] = Sha256::digest(bytes);
    if put_front(room, hash.as_slice()) {
        OK
    } else {
        ROOM
    }
}

/// The kind of the test by which a run with this exit word ended, 0 where it is no such word.
#[unsafe(no_mangle)]
pub extern "C" fn geyserpan_exit_kind(word: u32) -> u32
    ensures { result ≡ test_of word }
{
    let kind = word / 0x1_0000;
    if (1 <= kind && kind <= 5) || kind == 9 {
        kind
    } else {
        0
    }
}

//! The calls that tell of the library, and of statuses in words.
ghost use Rattle.std.specs.Prelude.{◌≡◌, ◌<◌, codes, length};

use crate::facts::Facts;
use crate::room::put_front;
use crate::telling::{line_of, terms_line_of};
use crate::terms::{Terms, Why};

/// The number of these calls. It rises where a struct, a status or a call changes its meaning.
const ABI: u32 = 1;

/// The version of the sources.
const VERSION: &str = "0.1.0";

/// The number of these calls.
#[unsafe(no_mangle)]
pub extern "C" fn geyserpan_abi() -> u32
    ensures { result ≡ 1 }
{
    ABI
}

/// Writes the version of the sources to the front of the room, and gives its length. Where the room is smaller nothing
/// is written.
#[unsafe(no_mangle)]
pub extern "C" fn geyserpan_version(room: &mut [u8]) -> usize
    ensures stays { length room.old < result → room.new ≡ room.old }
{
    let _ = put_front(room, VERSION.as_bytes());
    VERSION.len()
}

/// Writes what a status means to the front of the room, and gives its length. Where the room is smaller nothing is
/// written.
#[unsafe(no_mangle)]
pub extern "C" fn geyserpan_why_text(status: u32, why: &Why, room: &mut [u8]) -> usize
    ensures stays { length room.old < result → room.new ≡ room.old }
{
    let line = line_of(status, why);
    let _ = put_front(room, line.as_str().as_bytes());
    line.len()
}

/// Writes what a status of terms means, with both numbers, to the front of the room, and gives its length. Where the
/// room is smaller nothing is written.
#[unsafe(no_mangle)]
pub extern "C" fn geyserpan_terms_text(
    status: u32,
    facts: &Facts,
    terms: &Terms,
    room: &mut [u8],
) -> usize
    ensures stays { length room.old < result → room.new ≡ room.old }
{
    let line = terms_line_of(status, facts, terms);
    let _ = put_front(room, line.as_str().as_bytes());
    line.len()
}

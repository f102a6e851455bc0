//! What a call answers. The header says of each status what it means and what is left after it.

/// The call did what it is for.
pub const OK: u32 = 0;
/// The bytes are no image.
pub const NO_IMAGE: u32 = 1;
/// The image breaks a rule.
pub const REFUSED: u32 = 2;
/// Memory was refused.
pub const MEMORY: u32 = 3;
/// A count of windows below 4 or above 32, or of a run in pieces another one than 8.
pub const WINDOWS: u32 = 4;
/// The image declares a service that isn't granted.
pub const SERVICES: u32 = 5;
/// The image declares more turns than are granted.
pub const TURNS: u32 = 6;
/// The room is too small.
pub const ROOM: u32 = 7;
/// A run in pieces has ended.
pub const ENDED: u32 = 8;
/// The whole piece is read, more has to come, and a byte is asked for.
pub const WANTS: u32 = 9;
/// The room is full, and there is more to put out.
pub const FULL: u32 = 10;
/// As many turns as were allowed are made, or put by.
pub const PAUSED: u32 = 11;
/// The handle holds no image, no run or no board.
pub const HANDLE: u32 = 12;
/// A source has a fault.
pub const SOURCE: u32 = 13;
/// The output is longer than is granted.
pub const OUTPUT: u32 = 14;
/// A run in pieces can't be vouched for any more.
pub const LOST: u32 = 15;

//! Bytes between a board's port and the pieces of input and output that a caller has.
ghost use Rattle.std.specs.Prelude.{◌≡◌, ◌≢◌, ◌<◌, ◌≤◌, ◌+◌, ◌++◌, ◌∷◌, [], drop, length, take, true, false};
ghost use Rattle.std.specs.Prelude.{slice_index, IfSome, IsNone};
ghost use Rattle.sbx_port.specs.Following.{with_input, with_output};
ghost use Rattle.sbx_port.specs.Ports.{unknown};

use sbx_port::Mailbox;
use v8_board::Board;

/// Takes what a board has put out to the room behind the bytes that were written, and tells how many there are then:
/// None where the room is full, and then the board keeps it. Failures of its port are counted anew.
pub fn deliver<const N: usize>(
    board: &mut Board<N, Mailbox>,
    room: &mut [u8],
    written: usize,
) -> Option<usize>
    requires { written ≤ length room.old }
    ensures taken { IfSome result (λ now. (board.new.state ≡ with_output board.old.state []) × (board.new.failed ≡ 0)) }
    ensures within { IfSome result (λ now. now ≤ length room.new) }
    ensures more { IfSome result (λ now. written ≤ now) }
    ensures put { IfSome result
        (λ now. take now room.new ≡ take written room.old ++ board.old.state.world.memory.device.output) }
    ensures behind { IfSome result (λ now. drop now room.new ≡ drop now room.old) }
    ensures kept { IsNone result → (board.new ≡ board.old) × (room.new ≡ room.old) }
    ensures full { IsNone result → (written ≡ length room.old) × (board.old.state.world.memory.device.output ≢ []) }
{
    let now = match board.port().slot() {
        Some(byte) => {
            if room.len() <= written {
                return None;
            }
            room[written] = byte;
            written + 1
        }
        None => written,
    };
    board.port_mut().empty();
    Some(now)
}

/// Tells a board that waits the next byte of its input.
pub fn give<const N: usize>(board: &mut Board<N, Mailbox>, byte: u8)
    requires { board.old.state.world.memory.device.output ≡ [] }
    ensures told { board.new.state ≡ with_input board.old.state (byte ∷ unknown) }
    ensures small { byte < 256 }
    ensures served { board.new.failed ≡ 0 }
{
    board.port_mut().give(byte);
}

/// Tells a board that waits that its input has ended.
pub fn end<const N: usize>(board: &mut Board<N, Mailbox>)
    requires { board.old.state.world.memory.device.output ≡ [] }
    ensures told { board.new.state ≡ with_input board.old.state [] }
    ensures served { board.new.failed ≡ 0 }
{
    board.port_mut().end();
}

/// Gives a board an input of which nothing is known, and takes away what was put out. Registers, Y and RAM stay.
pub fn set_back<const N: usize>(board: &mut Board<N, Mailbox>)
    ensures told { board.new.state ≡ with_input (with_output board.old.state []) unknown }
    ensures served { board.new.failed ≡ 0 }
{
    *board.port_mut() = Mailbox::new();
}

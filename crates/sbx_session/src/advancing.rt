//! Turns of a board, so many at most.
ghost use Rattle.std.specs.Prelude.{◌≡◌, ◌≢◌, ◌<◌, ◌≤◌, ◌+◌, ◌^◌, ℕ, [], true, false};
ghost use Rattle.v8_board.specs.Contains.{Keeps};
ghost use Rattle.sbx_port.specs.Streams.{IsSlice};
ghost use Rattle.sbx_session.specs.Steps.{AsksByte};

use sbx_port::Mailbox;
use v8_board::Board;

/// What some turns came to: how many they were, or as many as were allowed where the machine has ended, and whether the
/// next one lacks a byte of input and none is to be put out before it.
#[derive(Clone, Copy)]
pub struct Slice {
    pub turns: u64,
    pub lacks: bool,
}

/// How many turns may be made of those that are left: so few that the board's count tells, where they are cut short,
/// how many were.
fn most(left: u64, counted: u64) -> u64
    ensures some { 0 < left → 0 < result }
    ensures within { result ≤ left }
    ensures told { (k : ℕ) → k < result → counted + k < 2 ^ 64 }
{
    left.min((u64::MAX - counted).max(1))
}

/// How many turns a board has counted.
#[tactic(auto, unfolding(v8_board::specs::Runs::outcome_of))]
pub fn count<const N: usize>(board: &Board<N, Mailbox>) -> u64
    ensures { result ≡ board.now.state.counts.turns }
{
    board.outcome().turns
}

/// Whether a board whose port has failed waits for a byte of input: if not, it holds one of output.
fn waits<const N: usize>(board: &Board<N, Mailbox>) -> bool
    requires { 0 < board.now.failed }
    ensures asks { result ≡ true → AsksByte N board.now }
    ensures holds { result ≡ false → board.now.state.world.memory.device.output ≢ [] }
{
    let port = board.port();
    port.lacks() && port.slot().is_none()
}

/// Turns of a board, at most so many: it stops with the machine, and where the port can't do what the next turn asks.
pub fn advance<const N: usize>(board: &mut Board<N, Mailbox>, left: u64) -> Slice
    requires served { board.old.failed ≡ 0 }
    requires empty { board.old.state.world.memory.device.output ≡ [] }
    requires some { 0 < left }
    ensures made { IsSlice N left board.old.state result.turns board.new.state }
    ensures lacks { result.lacks ≡ true → AsksByte N board.new }
    ensures goes { result.lacks ≡ false → 0 < result.turns }
    ensures known { board.old.state.world.memory.device.input ≡ [] → result.lacks ≡ false }
    ensures contained { Keeps N board.old.state board.new.state }
{
    let counted = count(board);
    let most = most(left, counted);
    match board.run(most) {
        Ok(_told) => Slice {
            turns: most,
            lacks: false,
        },
        Err(_fault) => Slice {
            turns: count(board) - counted,
            lacks: waits(board),
        },
    }
}

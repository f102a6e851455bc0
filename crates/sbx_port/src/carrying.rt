//! Runs of a board over a reader and a writer.
ghost use Rattle.std.specs.Prelude.{◌≡◌, ◌≢◌, ◌<◌, ◌≤◌, ◌+◌, ◌^◌, ◌∷◌, ℕ, [], true, false, IfErr, IfOk, None, OnErr};
ghost use Rattle.std.specs.Prelude.{OnOk};
ghost use Rattle.std.specs.Io.KnownBytes.{Appends, Consumes};
ghost use Rattle.v8_board.specs.Seen.{ending_of};
ghost use Rattle.sbx_port.specs.Following.{Fine, with_input, with_output};
ghost use Rattle.sbx_port.specs.Ports.{unknown};
ghost use Rattle.sbx_port.specs.Streams.{IsFed, IsHalted, IsSlice, RunsAs, RunsOn, Streamed};

use crate::mailbox::Mailbox;
use std::io::{Read, Write};
use v8_board::Board;

/// So many turns at most a board is run before what it has put out is written.
const SLICE: u64 = 4096;

/// Which stream ended a run before its end.
#[derive(Clone, Copy)]
pub enum StreamFault {
    /// The input can't be read.
    Reader,
    /// The output can't be written.
    Writer,
}

/// What a slice of a run came to: its turns, or as many as were allowed where the machine has ended, and whether the
/// next one lacks a byte of input.
#[derive(Clone, Copy)]
struct Slice {
    turns: u64,
    lacks: bool,
}

/// Tells a board the next byte of its input, and takes away what it has put out.
fn tell_byte<const N: usize>(board: &mut Board<N, Mailbox>, byte: u8)
    ensures told { board.new.state ≡ with_input (with_output board.old.state []) (byte ∷ unknown) }
    ensures small { byte < 256 }
    ensures served { board.new.failed ≡ 0 }
{
    board.port_mut().give(byte);
}

/// Tells a board that its input has ended, and takes away what it has put out.
fn tell_end<const N: usize>(board: &mut Board<N, Mailbox>)
    ensures told { board.new.state ≡ with_input (with_output board.old.state []) [] }
    ensures served { board.new.failed ≡ 0 }
{
    board.port_mut().end();
}

/// Takes away what a board has put out, if it has.
fn empty<const N: usize>(board: &mut Board<N, Mailbox>)
    requires served { board.old.state.world.memory.device.output ≡ [] → board.old.failed ≡ 0 }
    ensures emptied { board.new.state ≡ with_output board.old.state [] }
    ensures served { board.new.failed ≡ 0 }
{
    if board.port().slot().is_some() {
        board.port_mut().empty();
    }
}

/// How many turns a slice may have of those that are left: so few that the board's count tells, where they are cut
/// short, how many were made.
fn most(left: u64, counted: u64) -> u64
    ensures some { 0 < left → 0 < result }
    ensures within { result ≤ left }
    ensures told { (k : ℕ) → k < result → counted + k < 2 ^ 64 }
{
    left.min(SLICE).min((u64::MAX - counted).max(1))
}

/// How many turns a board has counted.
#[tactic(auto, unfolding(v8_board::specs::Runs::outcome_of))]
fn count<const N: usize>(board: &Board<N, Mailbox>) -> u64
    ensures { result ≡ board.now.state.counts.turns }
{
    board.outcome().turns
}

/// A slice of a run, of at most so many turns: it ends early with the machine, and where the port can't do what the
/// next turn asks.
fn advance<const N: usize>(board: &mut Board<N, Mailbox>, left: u64) -> Slice
    requires served { board.old.failed ≡ 0 }
    requires empty { board.old.state.world.memory.device.output ≡ [] }
    requires some { 0 < left }
    ensures made { IsSlice N left board.old.state result.turns board.new.state }
    ensures lacks { result.lacks ≡ true → board.new.state.world.memory.device.input ≡ unknown }
    ensures goes { result.lacks ≡ false → 0 < result.turns }
    ensures served { result.lacks ≡ false → board.new.state.world.memory.device.output ≡ [] → board.new.failed ≡ 0 }
{
    let counted = count(board);
    let most = most(left, counted);
    match board.run(most) {
        Ok(_told) => Slice {
            turns: most,
            lacks: false,
        },
        Err(_fault) => Slice {
            turns: count(board) - counted,
            lacks: board.port().lacks(),
        },
    }
}

/// Reads a byte for a board that waits for one, after what it has put out was written: true where the input has ended.
/// It is one read of one byte; whatever its error, it isn't tried again.
fn feed<const N: usize, R: Read>(
    board: &mut Board<N, Mailbox>,
    reader: &mut R,
) -> Result<bool, StreamFault>
    ensures fed { IfOk result
        (λ ended. IsFed N ended (with_output board.old.state []) board.new.state (R.remaining reader.old)
        (R.remaining reader.new)) }
    ensures served { OnOk result (board.new.failed ≡ 0) }
    ensures nothing { OnErr result (Consumes (R.remaining reader.old) (R.remaining reader.new) []) }
    ensures fault { IfErr result (λ fault. fault ≡ StreamFault.Reader) }
{
    let mut byte = [0u8; 1];
    match reader.read(&mut byte) {
        Ok(0) => {
            tell_end(board);
            Ok(true)
        }
        Ok(_one) => {
            tell_byte(board, byte[0]);
            Ok(false)
        }
        Err(_) => Err(StreamFault::Reader),
    }
}

/// Writes the byte that a board has put out, if it has. It is one write of one byte, and isn't tried again.
fn deliver<const N: usize, W: Write>(
    board: &Board<N, Mailbox>,
    writer: &mut W,
) -> Result<(), StreamFault>
    ensures written { OnOk result
        (Appends (W.contents writer.old) (W.contents writer.new) board.now.state.world.memory.device.output) }
    ensures nothing { OnErr result (Appends (W.contents writer.old) (W.contents writer.new) []) }
    ensures held { OnErr result (board.now.state.world.memory.device.output ≢ []) }
    ensures fault { IfErr result (λ fault. fault ≡ StreamFault.Writer) }
{
    match board.port().slot() {
        Some(byte) => match writer.write(&[byte]) {
            Ok(0) | Err(_) => Err(StreamFault::Writer),
            Ok(_one) => Ok(()),
        },
        None => Ok(()),
    }
}

/// Writes what a board has put out, and then reads a byte, if one is lacking. Tells whether the input's end is known:
/// an input that has ended isn't asked again.
#[tactic(auto, using(crate::proofs::Tracked::consumes_nothing))]
fn exchange<const N: usize, R: Read, W: Write>(
    board: &mut Board<N, Mailbox>,
    lacks: bool,
    met: bool,
    reader: &mut R,
    writer: &mut W,
) -> Result<bool, StreamFault>
    requires served { lacks ≡ false → board.old.state.world.memory.device.output ≡ [] → board.old.failed ≡ 0 }
    ensures fed { IfOk result (λ now_met. lacks ≡ true →
        IsFed N now_met (with_output board.old.state []) board.new.state (R.remaining reader.old)
        (R.remaining reader.new)) }
    ensures kept { IfOk result (λ now_met. lacks ≡ false →
        (now_met ≡ met) × (board.new.state ≡ with_output board.old.state [])
        × Consumes (R.remaining reader.old) (R.remaining reader.new) []) }
    ensures served { OnOk result (board.new.failed ≡ 0) }
    ensures written { OnOk result
        (Appends (W.contents writer.old) (W.contents writer.new) board.old.state.world.memory.device.output) }
    ensures read { OnErr result (Consumes (R.remaining reader.old) (R.remaining reader.new) []) }
    ensures halted { IfErr result
        (λ fault. IsHalted fault lacks (W.contents writer.old)
        (W.contents writer.new) board.old.state.world.memory.device.output) }
{
    deliver(board, writer)?;
    if lacks {
        return feed(board, reader);
    }
    empty(board);
    Ok(met)
}

/// Sees after a slice that nobody but a reader has ended the input. It is what no turn does.
fn look<const N: usize>(board: &Board<N, Mailbox>, met: bool) -> Result<(), StreamFault>
    ensures fine { OnOk result (Fine met [] board.now.state.world.memory.device) }
    ensures not_met { OnErr result (met ≡ false) }
    ensures fault { IfErr result (λ fault. fault ≡ StreamFault.Reader) }
{
    if !met && board.port().has_ended() {
        return Err(StreamFault::Reader);
    }
    Ok(())
}

/// Runs a board to an end, but at most so many turns, over a reader and a writer: a byte is read where the program asks
/// for one and none is known, and a byte that it puts out is written before the next one is put out or one is read, and
/// at latest some thousands of turns later. Nothing is flushed. On a fault what was written stays written, and the
/// board is of no further use. Nothing grows with the input or the output.
pub fn carry<const N: usize, R: Read, W: Write>(
    board: &mut Board<N, Mailbox>,
    limit: u64,
    reader: &mut R,
    writer: &mut W,
) -> Result<(), StreamFault>
    requires waiting { board.old.state.world.memory.device.input ≡ unknown }
    requires empty { board.old.state.world.memory.device.output ≡ [] }
    requires served { board.old.failed ≡ 0 }
    ensures whole { OnOk result
        (Streamed (R.remaining reader.old) (R.remaining reader.new) (W.contents writer.old) (W.contents writer.new)
        (RunsAs N board.old.state limit board.new.state)) }
    ensures part { IfErr result
        (λ fault. Streamed (R.remaining reader.old) (R.remaining reader.new) (W.contents writer.old)
        (W.contents writer.new)
        (RunsOn N board.old.state limit fault)) }
{
    let mut left = limit;
    let mut met = false;
    while left > 0 {
        let None = board.ending() else {
            return Ok(());
        };
        let slice = advance(board, left);
        left -= slice.turns;
        look(board, met)?;
        met = exchange(board, slice.lacks, met, reader, writer)?;
    }
    Ok(())
}

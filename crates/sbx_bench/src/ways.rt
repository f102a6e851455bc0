//! The ways to drive a board of eight windows, and what each tells.
ghost use Rattle.std.specs.Prelude.{◌≡◌, ℕ, [], IfOk, vec_len};
ghost use Rattle.v8_board.specs.Seen.{State};
ghost use Rattle.v8_board.specs.Runs.{IsRun, state_after};
ghost use Rattle.sbx_raw.specs.Runs.{IsRaw};
ghost use Rattle.sbx_raw.specs.declared.raw.Raw.{Raw};
ghost use Rattle.sbx_bench.specs.declared.tally.Tally.{Tally};
ghost use Rattle.sbx_bench.specs.declared.ways.Told.TheVariants as tells;
ghost use Rattle.sbx_bench.specs.Ways.{IsToldBy, register_of};

use crate::plain::Plain;
use crate::tally::Tally;
use sbx_image::Image;
use sbx_raw::{RunFault, SlicePort, begun, fault_of, run_raw, trace};
use std::alloc::Global;
use std::fmt::{self, Formatter, Write};
use v8_board::Board;
use v8_word::Reg;

/// How the board is driven.
#[derive(Clone, Copy)]
pub enum Way {
    /// Turn by turn.
    Step,
    /// All in one run.
    Run,
    /// A raw run, loading included.
    Raw,
    /// A trace, whose text is counted and not kept.
    Trace,
    /// The plain interpreter, from the board's RAM on, with which the others' speed is compared.
    Plain,
}

/// The register that the loops count down, %g3.
const COUNTER: u8 = 3;

/// What a way tells when it is done.
#[derive(Clone, Copy)]
pub enum Told {
    /// The turns that the board counted, and the register that the loop counts down.
    Register { turns: u64, counter: u32 },
    /// The turns that the outcome counts, and the bytes that the program put out.
    Output { turns: u64, bytes: usize },
    /// The text that was written.
    Text(Tally),
}

impl fmt::Display for Told {
    fn fmt<W: Write>(&self, f: &mut Formatter<W>) -> fmt::Result {
        match self {
            Told::Register { turns, counter } => write!(f, "{turns} turns, %g3 {counter:08x}"),
            Told::Output { turns, bytes } => write!(f, "{turns} turns, {bytes} bytes put out"),
            Told::Text(Tally { bytes, lines }) => write!(f, "{lines} lines, {bytes} bytes"),
        }
    }
}

/// What the board counted, and %g3.
fn register(board: &Board<8, SlicePort<'_>>) -> Told
    ensures { result ≡ register_of board.now.state }
{
    Told::Register {
        turns: board.outcome().turns,
        counter: board.reg(Reg::new(COUNTER).unwrap()),
    }
}

fn step(mut board: Board<8, SlicePort<'_>>, turns: u64) -> Result<Told, RunFault>
    ensures { IfOk result (λ told. told ≡ register_of (state_after 8 turns board.entry.state)) }
{
    for _ in 0..turns {
        match board.step() {
            Ok(_turn) => {}
            Err(fault) => return Err(fault_of(&board, fault)),
        }
    }
    Ok(register(&board))
}

fn run(mut board: Board<8, SlicePort<'_>>, turns: u64) -> Result<Told, RunFault>
    ensures { IfOk result (λ told. (end : State 8) × IsRun 8 turns board.entry.state end × (told ≡ register_of end)) }
{
    match board.run(turns) {
        Ok(_outcome) => Ok(register(&board)),
        Err(fault) => Err(fault_of(&board, fault)),
    }
}

fn raw(alloc: Global, image: &Image, turns: u64) -> Result<Told, RunFault>
    ensures { IfOk result (λ told. (raw : Raw) × IsRaw 8 image.now [] turns raw
        × (told ≡ tells.Output raw.outcome.turns (vec_len raw.output))) }
{
    match run_raw::<8>(alloc, image, b"", turns) {
        Ok(raw) => Ok(Told::Output {
            turns: raw.outcome.turns,
            bytes: raw.output.len(),
        }),
        Err(fault) => Err(fault),
    }
}

fn text(alloc: Global, image: &Image, turns: u64) -> Result<Told, RunFault>
    ensures { IfOk result (λ told. (tally : Tally) × (told ≡ tells.Text tally)) }
{
    let mut tally = Tally::default();
    match trace::<8, Tally>(alloc, image, b"", turns, &mut tally) {
        Ok(_outcome) => Ok(Told::Text(tally)),
        Err(fault) => Err(fault),
    }
}

/// Runs the plain interpreter from a board's RAM on.
fn plain(board: &Board<8, SlicePort<'_>>, alloc: Global, turns: u64) -> Result<Told, RunFault>
    ensures { IfOk result (λ told. (made counter : ℕ) × (told ≡ tells.Register made counter)) }
{
    let mut plain = Plain::new(alloc)?;
    for k in 0..0x4_0000u64 {
        if let Some(word) = board.entry(4 * k) {
            plain.place(4 * k, word);
        }
    }
    Ok(Told::Register {
        turns: plain.run(turns),
        counter: plain.register(u32::from(COUNTER)),
    })
}

impl Way {
    /// Drives a new board with this image for so many turns.
    pub fn drive(self, alloc: Global, image: &Image, turns: u64) -> Result<Told, RunFault>
        ensures { IfOk result (IsToldBy self image.now turns) }
    {
        match self {
            Way::Step => step(begun::<8>(alloc, image, b"")?, turns),
            Way::Run => run(begun::<8>(alloc, image, b"")?, turns),
            Way::Raw => raw(alloc, image, turns),
            Way::Trace => text(alloc, image, turns),
            Way::Plain => plain(&begun::<8>(alloc, image, b"")?, alloc, turns),
        }
    }
}

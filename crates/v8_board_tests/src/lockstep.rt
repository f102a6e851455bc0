//! Boards in step with the flat machine: at each turn of user code they have the same PC, nPC, condition codes, Y,
//! registers and output, as far as these don't depend on the words that a start and new frames leave open.
ghost use Rattle.std.specs.Prelude.{◌≡◌, ◌+◌, ◌*◌, ◌%◌, ◌≤◌};

use crate::rows::{ROWS, Row};
use flat_plain::{Plain, Turned};
use sbx_image::Image;
use sbx_raw::{SlicePort, begun};
use std::alloc::{AllocError, Global};
use std::test::Fail;
use v8_board::{Board, Ending, Outcome};
use v8_core::{Event, Machine, Turn};
use v8_map::{CODE_PLACE, CONTEXT_TABLE};
use v8_memory::Memory;
use v8_mmu::{Bus, MmuRegs};
use v8_word::{Icc, Reg};

/// A board, and a machine of the same RAM, which makes the same turns and shows PC, nPC and Y as well.
#[derive(Drop)]
struct Boards<'a, const N: usize> {
    board: Board<N, SlicePort<'a>>,
    machine: Machine<N, Memory<SlicePort<'a>>>,
}

/// Two flat machines: each open word is 0 in the one, and all ones in the other.
#[derive(Drop)]
struct Flats<'a> {
    zeros: Plain<'a>,
    ones: Plain<'a>,
}

/// Copies so many words of the board's RAM from a place on.
fn copy<'a, const N: usize>(
    board: &Board<N, SlicePort<'a>>,
    memory: &mut Memory<SlicePort<'a>>,
    at: u64,
    count: u64,
)
    requires { (at % 4 ≡ 0) × (at + 4 * count ≤ 0x100000) }
{
    for k in 0..count {
        let place = at + 4 * k;
        if let Some(word) = board.entry(place) {
            memory.set_words(place, &[word], 1);
        }
    }
}

/// A machine with this input and with what loading has placed: trap table, handlers and tables, and the first page of
/// code. All else of a new board's RAM is 0.
fn machine_of<'a, const N: usize>(
    alloc: Global,
    board: &Board<N, SlicePort<'a>>,
    input: &'a [u8],
) -> Option<Machine<N, Memory<SlicePort<'a>>>>
    requires { (4 ≤ N) × (N ≤ 32) }
{
    let mmu = MmuRegs {
        table: CONTEXT_TABLE as u64,
        context: 0,
    };
    match Memory::new(alloc, SlicePort::new(alloc, input)) {
        Ok(memory) => {
            let mut memory = memory;
            copy(board, &mut memory, 0, 0xC00);
            copy(board, &mut memory, CODE_PLACE as u64, 1024);
            Some(Machine::new(memory, mmu))
        }
        Err(AllocError) => None,
    }
}

/// Where code stands: PC, nPC and the condition codes.
type Spot = (u32, u32, Icc);

/// What is shown of user code: where it stands, Y, and the registers of the current window.
#[derive(Clone, Copy)]
struct Shown {
    spot: Spot,
    y: u32,
    registers: [u32; 32],
}

/// What the lockstep asks of boards, whatever their number of windows: so what it does itself is proved without their
/// contracts.
trait Stepping {
    /// What they show, if user code has the turn.
    fn shown(&self) -> Option<Shown>;

    /// Whether they have put this out.
    fn has_put(&self, output: &[u8]) -> bool;

    /// A turn of both, if it is the same: whether it is a step of the flat machine.
    fn turn(&mut self) -> Option<bool>;

    /// What the run has come to.
    fn outcome(&self) -> Outcome;
}

impl<const N: usize> Stepping for Boards<'_, N> {
    fn shown(&self) -> Option<Shown> {
        let psr = self.board.psr();
        if psr & 0x80 != 0 {
            return None;
        }
        Some(Shown {
            spot: (self.machine.pc(), self.machine.npc(), icc_of(psr)),
            y: self.machine.y(),
            registers: registers_of(&self.board),
        })
    }

    fn has_put(&self, output: &[u8]) -> bool {
        self.board.port().output() == output
    }

    fn turn(&mut self) -> Option<bool> {
        let one = turn_of_board(&mut self.board)?;
        let other = turn_of_machine(&mut self.machine)?;
        if one == other {
            Some(is_step(&one))
        } else {
            None
        }
    }

    fn outcome(&self) -> Outcome {
        self.board.outcome()
    }
}

/// The condition codes.
fn icc_of(psr: u32) -> Icc {
    Icc {
        n: psr & 0x80_0000 != 0,
        z: psr & 0x40_0000 != 0,
        v: psr & 0x20_0000 != 0,
        c: psr & 0x10_0000 != 0,
    }
}

/// The registers of the current window.
fn registers_of<const N: usize>(board: &Board<N, SlicePort<'_>>) -> [u32; 32] {
    let mut words = [0; 32];
    for number in 0..32u8 {
        if let Some(register) = Reg::new(number) {
            words[usize::from(number)] = board.reg(register);
        }
    }
    words
}

fn turn_of_board<const N: usize>(board: &mut Board<N, SlicePort<'_>>) -> Option<Turn> {
    match board.step() {
        Ok(turn) => Some(turn),
        Err(_fault) => None,
    }
}

fn turn_of_machine<const N: usize>(
    machine: &mut Machine<N, Memory<SlicePort<'_>>>,
) -> Option<Turn> {
    match machine.step() {
        Ok(turn) => Some(turn),
        Err(_fault) => None,
    }
}

/// A flat machine at a start of the image, where each open word is `fill`.
fn flat_of<'a>(alloc: Global, image: &Image, input: &'a [u8], fill: u32) -> Option<Plain<'a>> {
    match Plain::new(alloc, image, input, fill) {
        Ok(flat) => Some(flat),
        Err(AllocError) => None,
    }
}

/// The two flat machines at a start of the image.
fn flats_of<'a>(alloc: Global, image: &Image, input: &'a [u8]) -> Option<Flats<'a>> {
    let zeros = flat_of(alloc, image, input, 0)?;
    let ones = flat_of(alloc, image, input, u32::MAX)?;
    Some(Flats { zeros, ones })
}

/// Where a flat machine stands.
fn spot_of(flat: &Plain<'_>) -> Spot {
    (flat.pc(), flat.npc(), flat.icc())
}

/// Whether a flat machine has the row's exit word and output.
fn has_exited(flat: &Plain<'_>, row: &Row) -> bool {
    flat.exit() == Some(row.status) && flat.output() == row.output
}

/// Whether the word is the flat machine's, or depends there on an open one.
fn is_theirs(word: u32, zeros: u32, ones: u32) -> bool {
    word == zeros || zeros != ones
}

impl Flats<'_> {
    /// Whether both are at this place.
    fn are_at(&self, spot: Spot) -> bool {
        spot_of(&self.zeros) == spot && spot_of(&self.ones) == spot
    }

    /// Whether these registers are theirs.
    fn have_registers(&self, words: &[u32; 32]) -> bool {
        for number in 0..32u8 {
            if let Some(register) = Reg::new(number) {
                let (zeros, ones) = (self.zeros.word(register), self.ones.word(register));
                if !is_theirs(words[usize::from(number)], zeros, ones) {
                    return false;
                }
            }
        }
        true
    }

    /// Whether both stand where user code does.
    fn are_so(&self, shown: &Shown) -> bool {
        self.are_at(shown.spot)
            && is_theirs(shown.y, self.zeros.y(), self.ones.y())
            && self.have_registers(&shown.registers)
    }

    /// Whether boards stand where they do, and have put out the same, if user code has the turn.
    fn are_shown<B: Stepping>(&self, boards: &B) -> bool {
        match boards.shown() {
            Some(shown) => {
                self.are_so(&shown)
                    && boards.has_put(self.zeros.output())
                    && boards.has_put(self.ones.output())
            }
            None => true,
        }
    }

    /// A step of both, if there is one.
    fn step(&mut self, alloc: Global, image: &Image) -> bool {
        steps(alloc, image, &mut self.zeros, 0) && steps(alloc, image, &mut self.ones, u32::MAX)
    }
}

/// A step of a flat machine, if there is one.
fn steps(alloc: Global, image: &Image, flat: &mut Plain<'_>, fill: u32) -> bool {
    if flat.exit().is_some() {
        return false;
    }
    match flat.step(alloc, image, fill) {
        Ok(Turned::Went) => true,
        Ok(Turned::Failed(_)) | Err(AllocError) => false,
    }
}

/// Whether a turn is a step of the flat machine: it is user code's, and no window trap.
fn is_step(turn: &Turn) -> bool {
    match turn.event {
        Event::Trapped(trap) => turn.user && trap.number() != 5 && trap.number() != 6,
        _ => turn.user,
    }
}

/// Whether they are in step, and stay so for a turn.
fn go_on<B: Stepping>(alloc: Global, image: &Image, boards: &mut B, flats: &mut Flats<'_>) -> bool {
    if !flats.are_shown(boards) {
        return false;
    }
    match boards.turn() {
        Some(true) => flats.step(alloc, image),
        Some(false) => true,
        None => false,
    }
}

/// Whether they stay in step for so many turns.
fn stay_in_step<B: Stepping>(
    alloc: Global,
    image: &Image,
    boards: &mut B,
    flats: &mut Flats<'_>,
    turns: u64,
) -> bool {
    for _turn in 0..turns {
        if !go_on(alloc, image, boards, flats) {
            return false;
        }
    }
    true
}

/// What the row's run on so many windows comes to.
fn told_of(row: &Row, windows: u32) -> Outcome {
    let (overflows, underflows, turns) = row.counts_on(windows);
    Outcome {
        ending: Ending::Exit(row.status),
        turns,
        overflows,
        underflows,
    }
}

/// Whether the boards, which have so many windows, and the flat machines stay in step, to the row's end.
fn end_in_step<B: Stepping>(
    alloc: Global,
    image: &Image,
    windows: u32,
    row: &Row,
    boards: &mut B,
    flats: &mut Flats<'_>,
) -> bool {
    let told = told_of(row, windows);
    stay_in_step(alloc, image, boards, flats, told.turns)
        && boards.outcome() == told
        && has_exited(&flats.zeros, row)
        && has_exited(&flats.ones, row)
}

/// The same of these boards, and of flat machines at a start.
fn go_in_step<B: Stepping>(
    alloc: Global,
    image: &Image,
    windows: u32,
    row: &Row,
    boards: &mut B,
) -> bool {
    match flats_of(alloc, image, row.input) {
        Some(flats) => {
            let mut flats = flats;
            end_in_step(alloc, image, windows, row, boards, &mut flats)
        }
        None => false,
    }
}

/// The same of this board.
fn keeps_in_step<const N: usize>(
    alloc: Global,
    image: &Image,
    windows: u32,
    row: &Row,
    board: Board<N, SlicePort<'_>>,
) -> bool
    requires { (4 ≤ N) × (N ≤ 32) }
{
    match machine_of(alloc, &board, row.input) {
        Some(machine) => {
            let mut boards = Boards { board, machine };
            go_in_step(alloc, image, windows, row, &mut boards)
        }
        None => false,
    }
}

/// The same of new ones.
fn are_in_step<const N: usize>(alloc: Global, image: &Image, windows: u32, row: &Row) -> bool
    requires { (4 ≤ N) × (N ≤ 32) }
{
    match begun::<N>(alloc, image, row.input) {
        Ok(board) => keeps_in_step(alloc, image, windows, row, board),
        Err(_fault) => false,
    }
}

/// Returns from the function with what is so on as many windows as there are, if that is one of these numbers, which
/// rise.
macro_rules! return_on {
    ($windows:ident, $alloc:ident, $image:ident, $row:ident: $($count:literal)*) => {
        $(
            if $windows <= $count {
                return are_in_step::<$count>($alloc, $image, $windows, $row);
            }
        )*
    };
}

/// Whether they stay in step on so many windows, 4 to 32.
fn are_in_step_on(alloc: Global, image: &Image, windows: u32, row: &Row) -> bool {
    return_on!(windows, alloc, image, row:
        4 5 6 7 8 9 10 11 12 13 14 15 16 17 18 19 20 21 22 23 24 25 26 27 28 29 30 31 32);
    false
}

/// Whether they stay in step on each count of windows.
fn are_in_step_on_each(alloc: Global, image: &Image, row: &Row) -> bool {
    for windows in 4..33u32 {
        if !are_in_step_on(alloc, image, windows, row) {
            return false;
        }
    }
    true
}

/// The same of the row's image.
fn are_in_step_everywhere(alloc: Global, row: &Row) -> Result<bool, Fail> {
    let image = row.image(alloc)?;
    Ok(are_in_step_on_each(alloc, &image, row))
}

#[test]
fn boards_stay_in_step(rt: HostRuntime) -> Result<(), Fail> {
    for row in &ROWS {
        assert!(rt; are_in_step_everywhere(rt.alloc(), row)?, "{}", row.name);
    }
    Ok(())
}

//! A run that is fed its input, and gives its output, in pieces.

use crate::advancing::{Slice, advance, count};
use crate::carrying::{deliver, end, give, set_back};
use sbx_port::Mailbox;
use sbx_run::{Accepted, Ending, budget, tells_limits};
use std::alloc::{AllocError, Global};
use v8_board::Board;

/// Why a step ended.
#[derive(Clone, Copy)]
pub enum Stand {
    /// The run has ended with this exit word.
    Ended(u32),
    /// All of the piece is read, more has to come, and the board has failed for want of a byte.
    Wants,
    /// The room is full, and there is a byte more to put out.
    Full,
    /// As many turns as were allowed are made.
    Paused,
    /// The board has read what nobody gave it, or has ended otherwise than by an exit. No turn of an accepted image
    /// does either. What was written so far is the image's all the same.
    Lost,
}

/// What a step did: how many bytes it read and wrote, and why it ended.
#[derive(Clone, Copy)]
pub struct Step {
    pub read: usize,
    pub written: usize,
    pub stand: Stand,
}

/// A run of an accepted image on a board of `N` windows, 4 to 32.
#[derive(Drop)]
pub struct Session<const N: usize> {
    board: Board<N, Mailbox>,
    left: u64,
    met: bool,
}

impl<const N: usize> Session<N> {
    ghost use Rattle.std.specs.Prelude.{◌≡◌, ◌<◌, ◌≤◌, ◌+◌, ◌-◌, ◌++◌, ℕ, List, [], drop, length, take, true, false, IfOk};
    ghost use Rattle.std.specs.Prelude.{IfSome, IsNone, None};
    ghost use Rattle.v8_board.specs.Seen.{ending_of};
    ghost use Rattle.sbx_image.specs.Parts.{Parts};
    ghost use Rattle.sbx_session.specs.Going.{Goes, IsBegun};
    ghost use Rattle.sbx_session.specs.Steps.{AsksByte, EndsAs, HasByte, IsStep, turns_of};

    /// Begins a run of an accepted image on a new board.
    pub fn new(alloc: Global, accepted: &Accepted) -> Result<Self, AllocError>
        requires { (4 ≤ N) × (N ≤ 32) }
        ensures { IfOk result (IsBegun N accepted.now) }
    {
        let image = accepted.image();
        tells_limits(image);
        let mut board = Board::new(alloc, Mailbox::new())?;
        board.load(image);
        Ok(Session {
            board,
            left: budget(image),
            met: false,
        })
    }

    /// Begins a run of an accepted image on the board that is there. What the runs before left in registers, Y and the
    /// stack stays, and no accepted image can tell.
    pub fn restart(&mut self, accepted: &Accepted)
        ensures { IsBegun N accepted.now self.new }
    {
        let image = accepted.image();
        tells_limits(image);
        set_back(&mut self.board);
        self.board.load(image);
        self.left = budget(image);
        self.met = false;
    }

    /// How many turns were made.
    pub fn turns(&self) -> u64
        ensures { result ≡ self.now.board.state.counts.turns }
    {
        count(&self.board)
    }

    /// Takes what was put out to the room behind the bytes that were written, and tells how many there are then; None
    /// where the room is full. Where a byte is lacking nothing was put out.
    fn deliver(&mut self, lacks: bool, room: &mut [u8], written: usize) -> Option<usize>
        requires within { written ≤ length room.old }
        requires asks { lacks ≡ true → AsksByte N self.old.board }
        ensures goes { IfSome result (λ now. (parts : Parts) → (read all : List ℕ) →
            Goes N parts read (all ++ take written room.old) self.old →
            Goes N parts read (all ++ take now room.new) self.new) }
        ensures within { IfSome result (λ now. now ≤ length room.new) }
        ensures behind { IfSome result (λ now. drop now room.new ≡ drop now room.old) }
        ensures more { IfSome result (λ now. written ≤ now) }
        ensures served { IfSome result (λ now. (lacks ≡ false → self.new.board.failed ≡ 0)
            × (self.new.board.state.world.memory.device.output ≡ [])) }
        ensures asks { IfSome result (λ now. lacks ≡ true → AsksByte N self.new.board) }
        ensures same { IfSome result (λ now. (self.new.left ≡ self.old.left) × (turns_of self.new ≡ turns_of self.old)) }
        ensures kept { IsNone result → (self.new ≡ self.old) × (room.new ≡ room.old) }
        ensures full { IsNone result → (written ≡ length room.old) × HasByte N self.old.board }
        ensures met { self.new.met ≡ self.old.met }
    {
        if lacks {
            return Some(written);
        }
        deliver(&mut self.board, room, written)
    }

    /// Where a byte is lacking feeds the board the next one of a piece, or the end of the input where the piece is the
    /// last one, and tells how many bytes of the piece are read then; None where more has to come.
    fn feed(&mut self, lacks: bool, input: &[u8], read: usize, last: bool) -> Option<usize>
        requires within { read ≤ length input.now }
        requires asks { lacks ≡ true → AsksByte N self.old.board }
        requires empty { self.old.board.state.world.memory.device.output ≡ [] }
        requires served { lacks ≡ false → self.old.board.failed ≡ 0 }
        ensures goes { IfSome result (λ now. (parts : Parts) → (all written : List ℕ) →
            Goes N parts (all ++ take read input.now) written self.old →
            Goes N parts (all ++ take now input.now) written self.new) }
        ensures within { IfSome result (λ now. now ≤ length input.now) }
        ensures more { IfSome result (λ now. read ≤ now) }
        ensures told { IfSome result (λ now. lacks ≡ true → now ≤ read →
            self.new.board.state.world.memory.device.input ≡ []) }
        ensures served { IfSome result (λ now. (self.new.board.failed ≡ 0)
            × (self.new.board.state.world.memory.device.output ≡ [])) }
        ensures same { IfSome result (λ now. (self.new.left ≡ self.old.left) × (turns_of self.new ≡ turns_of self.old)) }
        ensures met { last ≡ false → self.new.met ≡ self.old.met }
        ensures kept { IsNone result → self.new ≡ self.old }
        ensures wants { IsNone result → (read ≡ length input.now) × (last ≡ false) × AsksByte N self.old.board }
    {
        if !lacks {
            return Some(read);
        }
        if read < input.len() {
            give(&mut self.board, input[read]);
            return Some(read + 1);
        }
        if last {
            end(&mut self.board);
            self.met = true;
            return Some(read);
        }
        None
    }

    /// How the run has ended, if it has.
    fn ended(&self) -> Option<Stand>
        ensures ends { IfSome result (EndsAs N self.now.board.state) }
        ensures going { IsNone result → ending_of N self.now.board.state.world ≡ None }
    {
        match self.board.ending() {
            None => None,
            Some(Ending::Exit(word)) => Some(Stand::Ended(word)),
            Some(_) => Some(Stand::Lost),
        }
    }

    /// Makes at most so many turns of those that are left; None where the port knows of an end of the input that nobody
    /// has told it.
    fn go(&mut self, most: u64) -> Option<Slice>
        requires served { self.old.board.failed ≡ 0 }
        requires empty { self.old.board.state.world.memory.device.output ≡ [] }
        requires going { ending_of N self.old.board.state.world ≡ None }
        requires some { 0 < most }
        requires within { most ≤ self.old.left }
        ensures goes { IfSome result (λ slice. (parts : Parts) → (read written : List ℕ) →
            Goes N parts read written self.old → Goes N parts read written self.new) }
        ensures lacks { IfSome result (λ slice. slice.lacks ≡ true → AsksByte N self.new.board) }
        ensures onward { IfSome result (λ slice. slice.lacks ≡ false → 0 < slice.turns) }
        ensures known { IfSome result (λ slice. self.old.board.state.world.memory.device.input ≡ [] →
            slice.lacks ≡ false) }
        ensures within { IfSome result (λ slice. slice.turns ≤ most) }
        ensures left { IfSome result (λ slice. self.new.left ≡ self.old.left - slice.turns) }
        ensures counted { IfSome result (λ slice. turns_of self.new ≤ turns_of self.old + slice.turns) }
        ensures turns { turns_of self.new ≤ turns_of self.old + most }
        ensures met { self.new.met ≡ self.old.met }
    {
        let slice = advance(&mut self.board, most);
        self.left -= slice.turns;
        if !self.met && self.board.port().has_ended() {
            return None;
        }
        Some(slice)
    }

    /// Goes on for at most so many turns, with the next piece of the input, behind which there is nothing where `last`
    /// is set, and writes to the front of the room.
    pub fn step(&mut self, most: u64, input: &[u8], last: bool, room: &mut [u8]) -> Step
        ensures { IsStep N self.old self.new most input.now last room.old room.new result }
    {
        let mut read = 0;
        let mut written = 0;
        let mut left = most.min(self.left);
        let mut lacks = false;
        'rounds: loop {
            let Some(behind) = self.deliver(lacks, room, written) else {
                return Step {
                    read,
                    written,
                    stand: Stand::Full,
                };
            };
            written = behind;
            let Some(next) = self.feed(lacks, input, read, last) else {
                return Step {
                    read,
                    written,
                    stand: Stand::Wants,
                };
            };
            read = next;
            if let Some(stand) = self.ended() {
                return Step {
                    read,
                    written,
                    stand,
                };
            }
            if left == 0 {
                return Step {
                    read,
                    written,
                    stand: Stand::Paused,
                };
            }
            let Some(slice) = self.go(left) else {
                return Step {
                    read,
                    written,
                    stand: Stand::Lost,
                };
            };
            left -= slice.turns;
            lacks = slice.lacks;
        }
    }
}

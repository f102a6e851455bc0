//! A turn in words.
ghost use Rattle.std.specs.Prelude.{◌≡◌, ◌≤◌, OnOk, string_bytes};
ghost use Rattle.inspect_run.specs.Watched.{TellsTurn};

use crate::events::put_event;
use crate::heads::make_head;
use crate::seen::{Seen, put_access};
use crate::sheet::Sheet;
use sbx_image::Function;
use sbx_raw::SlicePort;
use std::alloc::{AllocError, Global};
use v8_board::Board;
use v8_core::Turn;

/// Who tells the turns of a board: the text of the last one, and what was seen of the board behind it.
#[derive(Drop)]
pub struct Teller<const N: usize> {
    pub line: String,
    sheet: Sheet,
    seen: Seen<N>,
}

impl<const N: usize> Teller<N> {
    /// Tells the turns from here on.
    pub fn new(alloc: Global, board: &Board<N, SlicePort<'_>>) -> Self
        requires { (4 ≤ N) × (N ≤ 32) }
    {
        Teller {
            line: String::new(alloc),
            sheet: Sheet::new(alloc),
            seen: Seen::new(board),
        }
    }

    /// Puts what happened, and what it changed, which the board shows behind the turn.
    fn put_effects(
        &mut self,
        turn: &Turn,
        board: &Board<N, SlicePort<'_>>,
    ) -> Result<(), AllocError>
        ensures { OnOk result (string_bytes self.new.line ≡ string_bytes self.old.line) }
    {
        self.sheet.begin(self.line.len());
        put_event(&mut self.sheet, &turn.event, board.fault_status())?;
        self.seen.put_changes(&mut self.sheet, board)?;
        match &turn.access {
            Some(access) => put_access(&mut self.sheet, board, access),
            None => Ok(()),
        }
    }

    /// Makes a turn's text, in the place of the last one's: where it is, its instruction, what happened, and what it
    /// changed, which the board shows behind it.
    pub fn make_turn(
        &mut self,
        functions: &[Function],
        number: u64,
        turn: &Turn,
        board: &Board<N, SlicePort<'_>>,
    ) -> Result<(), AllocError>
        ensures { OnOk result (TellsTurn functions.now number turn.now (string_bytes self.new.line)) }
    {
        make_head(&mut self.line, functions, number, turn)?;
        self.put_effects(turn, board)?;
        self.line.push_str(self.sheet.text())?;
        self.line.push_str("\n")
    }
}

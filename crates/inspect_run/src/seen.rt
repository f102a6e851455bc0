//! What was seen of a board.
ghost use Rattle.std.specs.Prelude.{◌≤◌};

use crate::changes::{Shown, put_changes, put_register, put_stored};
use crate::sheet::Sheet;
use sbx_raw::SlicePort;
use std::alloc::AllocError;
use v8_board::Board;
use v8_core::DataAccess;
use v8_windows::RegFile;
use v8_word::{Reg, Size};

/// What was seen of a board when it was last looked at: the registers of its windows, and what it showed beside them.
#[derive(Drop)]
pub struct Seen<const N: usize> {
    registers: RegFile<N>,
    shown: Shown,
}

/// The bits of PSR that are CWP.
const CWP: u32 = 0x1F;

/// What a board shows beside its registers.
fn shown_of<const N: usize>(board: &Board<N, SlicePort<'_>>) -> Shown {
    Shown {
        psr: board.psr(),
        wim: board.wim(),
        y: board.y(),
        pages: board.page_use(),
    }
}

impl<const N: usize> Seen<N> {
    /// What is seen of a board that was loaded anew, in whose other windows all words are 0.
    pub fn new(board: &Board<N, SlicePort<'_>>) -> Self
        requires { (4 ≤ N) × (N ≤ 32) }
    {
        let mut seen = Seen {
            registers: RegFile::new(),
            shown: shown_of(board),
        };
        for number in 1..32 {
            let _ = seen.change(board, number);
        }
        seen
    }

    /// The word of a register of the current window, where it isn't the one that was seen there.
    fn change(&mut self, board: &Board<N, SlicePort<'_>>, number: u8) -> Option<u32> {
        let register = Reg::new(number)?;
        let word = board.reg(register);
        if self.registers.get(register) == word {
            return None;
        }
        self.registers.set(register, word);
        Some(word)
    }

    /// Puts the registers of the current window that hold other words than were seen there. A turn writes no register
    /// of another window than the one that it leads to.
    fn put_registers(
        &mut self,
        sheet: &mut Sheet,
        board: &Board<N, SlicePort<'_>>,
    ) -> Result<(), AllocError> {
        self.registers.set_cwp((board.psr() & CWP) as u8);
        for number in 1..32 {
            match self.change(board, number) {
                Some(word) => put_register(sheet, number, word)?,
                None => {}
            }
        }
        Ok(())
    }

    /// Puts what the last turn changed: registers, PSR, WIM, Y, marks of pages, and the output.
    pub fn put_changes(
        &mut self,
        sheet: &mut Sheet,
        board: &Board<N, SlicePort<'_>>,
    ) -> Result<(), AllocError> {
        self.put_registers(sheet, board)?;
        let before = self.shown;
        self.shown = shown_of(board);
        put_changes(sheet, &before, &self.shown, board.port().output())
    }
}

/// Puts the words of memory that an access stored to. The device has none.
pub fn put_access<const N: usize>(
    sheet: &mut Sheet,
    board: &Board<N, SlicePort<'_>>,
    access: &DataAccess,
) -> Result<(), AllocError> {
    if !access.store {
        return Ok(());
    }
    let (va, pa) = (access.va & !3, access.pa & !3);
    put_stored(sheet, va, board.entry(pa))?;
    match access.size {
        Size::Double => put_stored(sheet, va.wrapping_add(4), board.entry(pa.saturating_add(4))),
        _ => Ok(()),
    }
}

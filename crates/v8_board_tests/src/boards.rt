//! Boards for tests.
ghost use Rattle.std.specs.Prelude.{ℕ, ◌+◌, ◌*◌, ◌≤◌};

use crate::images::image;
use crate::ports::Probe;
use sbx_image::Image;
use std::alloc::{AllocError, Global};
use std::test::Fail;
use v8_board::{Board, Outcome};
use v8_core::Turn;
use v8_mmu::PortFault;

/// A board of four windows over a port of tests.
pub(crate) type Tested = Board<4, Probe<'static>>;

/// A new board over this port.
pub(crate) fn board_over(alloc: Global, port: Probe<'static>) -> Result<Tested, AllocError> {
    Board::new(alloc, port)
}

// The board's methods with long contracts are called here alone: each place that calls one costs the prover its whole
// contract.

/// Loads a board with an image.
pub(crate) fn load_image(board: &mut Tested, image: &Image) {
    board.load(image);
}

/// Loads a board with these words and these data.
pub(crate) fn load(
    board: &mut Tested,
    alloc: Global,
    words: &[u32],
    data: &[u8],
) -> Result<(), Fail> {
    let image = image(alloc, words, data)?;
    load_image(board, &image);
    Ok(())
}

/// A run of at most 100 turns.
pub(crate) fn run(board: &mut Tested) -> Result<Outcome, PortFault> {
    board.run(100)
}

/// A turn.
pub(crate) fn step(board: &mut Tested) -> Result<Turn, PortFault> {
    board.step()
}

/// A word of RAM; within the page tables without what R and M (hexadecimal 60) show.
fn unmarked(board: &Tested, place: u64) -> Option<u32> {
    let word = board.entry(place)?;
    let marks = if 0x2A00 <= place && place < 0x2E00 {
        0x60
    } else {
        0
    };
    Some(word | marks)
}

/// A place with its word of RAM, R and M aside.
pub(crate) type Placed = (u64, Option<u32>);

/// Puts so many words of RAM, from a place on, behind others.
pub(crate) fn put_words(
    words: &mut Vec<Placed>,
    board: &Tested,
    place: u64,
    count: u64,
) -> Result<(), AllocError>
    requires { place + 4 * count ≤ 0x100000 }
{
    for number in 0..count {
        let at = place + 4 * number;
        words.push((at, unmarked(board, at)))?;
    }
    Ok(())
}

/// Whether a board has these words at their places.
pub(crate) fn has_words(board: &Tested, words: &[Placed]) -> bool {
    for &(place, word) in words {
        if unmarked(board, place) != word {
            return false;
        }
    }
    true
}

//! Runs of accepted images on a board of the caller's, and what it shows afterwards.

use crate::calls::judged;
use crate::runs::{CHAINED, COPIES, HI, REGIONS, accepted_of};
use crate::sources::{BARE, Source};
use sbx_image::Image;
use sbx_raw::SlicePort;
use sbx_run::{Accepted, Ended, Ending, PageUse, run_board};
use std::alloc::{AllocError, Global};
use v8_board::Board;
use v8_word::Reg;

/// A new board of four windows with this input.
fn board_with<'a>(alloc: Global, input: &'a [u8]) -> Result<Board<4, SlicePort<'a>>, AllocError> {
    Board::new(alloc, SlicePort::new(alloc, input))
}

/// What a run on a board gave, if the port had no fault.
fn ended(board: &mut Board<4, SlicePort<'_>>, accepted: &Accepted) -> Option<Ended> {
    run_board(board, accepted).ok()
}

/// Whether a run on a board exits with 0 after so many turns, without a call.
fn exits(board: &mut Board<4, SlicePort<'_>>, accepted: &Accepted, turns: u64) -> bool {
    // Code of one page, which is fetched from and never written, uses this.
    let pages = PageUse {
        referenced: [1, 0, 0],
        modified: [0, 0, 0],
    };
    match ended(board, accepted) {
        Some(ended) => {
            (ended.status, ended.turns, ended.overflows, ended.underflows) == (0, turns, 0, 0)
                && ended.pages == pages
        }
        None => false,
    }
}

/// Whether the two images, and then the first again, exit on the board after so many turns, and it has put this out.
fn share(
    board: &mut Board<4, SlicePort<'_>>,
    first: &Accepted,
    second: &Accepted,
    output: &[u8],
) -> bool {
    exits(board, first, 14)
        && exits(board, second, 16)
        && exits(board, first, 14)
        && board.port().output() == output
}

/// Whether they do on a new board with this input.
fn share_a_board(
    alloc: Global,
    first: &Accepted,
    second: &Accepted,
    input: &[u8],
    output: &[u8],
) -> bool {
    match board_with(alloc, input) {
        Ok(board) => {
            let mut board = board;
            share(&mut board, first, second, output)
        }
        Err(AllocError) => false,
    }
}

/// Whether the image that copies a byte, with one byte of input, shares a board with one that needs none.
fn copy_shares(alloc: Global, copy: &Accepted) -> bool {
    match HI.accepted(alloc) {
        Some(hello) => share_a_board(alloc, copy, &hello, b"A", b"AHi\xff"),
        None => false,
    }
}

/// Whether the two share a board.
fn images_share(alloc: Global) -> bool {
    match COPIES.accepted(alloc) {
        Some(copy) => copy_shares(alloc, &copy),
        None => false,
    }
}

#[test]
fn runs_on_one_board(rt: HostRuntime) {
    assert!(rt; images_share(rt.alloc()));
}

/// The registers of the current window after the chain's run: it is the one below the first function's, whose outs are
/// its ins, with the places of the trap that ended the run in %l1 and %l2.
static REGISTERS: [(u8, u32); 4] = [
    (17, 0x0004_0010),
    (18, 0x0004_0014),
    (24, 0),
    (30, 0x000F_FF60),
];

/// Words of RAM after the chain's run: the first function's %fp and the second one's %i7, as they were spilled.
static SPILLED: [(u64, u32); 2] = [(0x9_FF98, 0x000F_FFC0), (0x9_FF3C, 0x0004_0004)];

fn has_register(board: &Board<4, SlicePort<'_>>, number: u8, word: u32) -> bool {
    match Reg::new(number) {
        Some(register) => board.reg(register) == word,
        None => false,
    }
}

fn has_registers(board: &Board<4, SlicePort<'_>>) -> bool {
    for (number, word) in &REGISTERS {
        if !has_register(board, *number, *word) {
            return false;
        }
    }
    true
}

fn has_words(board: &Board<4, SlicePort<'_>>, words: &[(u64, u32)]) -> bool {
    for (place, word) in words {
        if board.entry(*place) != Some(*word) {
            return false;
        }
    }
    true
}

/// Whether a board is in supervisor mode with traps disabled in window 2, window 0 is the invalid one, and the rest is
/// as above.
fn is_left(board: &Board<4, SlicePort<'_>>) -> bool {
    (board.psr(), board.wim()) == (0x82, 1)
        && board.port().output() == b"!".as_slice()
        && has_registers(board)
        && has_words(board, &SPILLED)
}

/// Whether a chain's run exits with 0 after so many turns, overflows and underflows, and leaves the board so.
fn leaves(board: &mut Board<4, SlicePort<'_>>, accepted: &Accepted) -> bool {
    match ended(board, accepted) {
        Some(ended) => {
            (ended.status, ended.turns, ended.overflows, ended.underflows) == (0, 2006, 38, 37)
                && is_left(board)
        }
        None => false,
    }
}

/// Whether a chain's run leaves a new board so.
fn leaves_its_board(alloc: Global, accepted: &Accepted) -> bool {
    match board_with(alloc, b"") {
        Ok(board) => {
            let mut board = board;
            leaves(&mut board, accepted)
        }
        Err(AllocError) => false,
    }
}

/// Whether the run of the chain that puts `!` out does.
fn chain_leaves_its_board(alloc: Global) -> bool {
    match CHAINED.accepted(alloc) {
        Some(chain) => leaves_its_board(alloc, &chain),
        None => false,
    }
}

#[test]
fn shows_what_a_run_leaves(rt: HostRuntime) {
    assert!(rt; chain_leaves_its_board(rt.alloc()));
}

/// Words of RAM after a byte of one region was read and stored into the next: the entries of the data's pages, one that
/// may be read alone and was, one that may be written and was, and none; the first region's bytes and the end of its
/// page; the byte that was stored.
static PLACED: [(u64, u32); 7] = [
    (0x2B00, 0x5022),
    (0x2B04, 0x5166),
    (0x2B08, 0),
    (0x5_0000, 0x4869_0000),
    (0x5_0008, 0),
    (0x5_0FFC, 0),
    (0x5_1004, 0x48),
];

/// Whether a run of the two regions leaves the board so.
fn leaves_regions(board: &mut Board<4, SlicePort<'_>>, accepted: &Accepted) -> bool {
    match ended(board, accepted) {
        Some(ended) => (ended.status, ended.turns) == (0, 13) && has_words(board, &PLACED),
        None => false,
    }
}

/// Whether it leaves a new board so.
fn leaves_regions_in_ram(alloc: Global, accepted: &Accepted) -> bool {
    match board_with(alloc, b"") {
        Ok(board) => {
            let mut board = board;
            leaves_regions(&mut board, accepted)
        }
        Err(AllocError) => false,
    }
}

fn regions_lie_in_ram(alloc: Global) -> bool {
    match REGIONS.accepted(alloc) {
        Some(regions) => leaves_regions_in_ram(alloc, &regions),
        None => false,
    }
}

#[test]
fn places_regions(rt: HostRuntime) {
    assert!(rt; regions_lie_in_ram(rt.alloc()));
}

/// Leaves `H` in %g3, `i` in Y and `!` in a word of its frame, and puts nothing out.
static LEAVES: Source = Source {
    pieces: &[
        ".services exit\n.function main,framed,96,96,100\n.fuel 100\n save %sp,-96,%sp\n mov 72,%g3\n",
        " mov 105,%y\n mov 33,%l0\n st %l0,[%sp+64]\n mov 0,%o0\n ta 0\n",
    ],
    links: None,
};

/// Puts out what it finds in these three places, which it never wrote. It is refused, and runs all the same.
static READS: Source = Source {
    pieces: &[
        BARE,
        " mov %g3,%o0\n ta 2\n mov %y,%o0\n ta 2\n ld [%sp-32],%o0\n ta 2\n mov 0,%o0\n ta 0\n",
    ],
    links: None,
};

/// Whether an image that nobody has verified, loaded into a board as it stands, exits after 22 turns, and the board has
/// put this out.
fn reads(board: &mut Board<4, SlicePort<'_>>, image: &Image, output: &[u8]) -> bool {
    board.load(image);
    match board.run(100) {
        Ok(told) => {
            (told.ending, told.turns) == (Ending::Exit(0), 22) && board.port().output() == output
        }
        Err(_fault) => false,
    }
}

/// Whether it finds zeros on a new board, and then, on the same one, what an accepted image has left there.
fn finds(board: &mut Board<4, SlicePort<'_>>, image: &Image, accepted: &Accepted) -> bool {
    reads(board, image, b"\0\0\0")
        && ended(board, accepted).is_some()
        && reads(board, image, b"\0\0\0Hi!")
}

fn finds_on_a_board(alloc: Global, image: &Image, accepted: &Accepted) -> bool {
    match board_with(alloc, b"") {
        Ok(board) => {
            let mut board = board;
            finds(&mut board, image, accepted)
        }
        Err(AllocError) => false,
    }
}

/// Whether an image is refused, and does that all the same.
fn finds_though_refused(alloc: Global, image: Image, accepted: &Accepted) -> bool {
    match judged(alloc, image) {
        Ok(_accepted) => false,
        Err((image, _refusal)) => finds_on_a_board(alloc, &image, accepted),
    }
}

/// Whether the image that reads does that after an accepted one.
fn finds_after(alloc: Global, accepted: &Accepted) -> bool {
    match READS.image(alloc) {
        Some(image) => finds_though_refused(alloc, image, accepted),
        None => false,
    }
}

/// Whether it does after an image that has to be accepted.
fn finds_after_accepted(alloc: Global, leaves: Image) -> bool {
    match accepted_of(alloc, leaves) {
        Some(accepted) => finds_after(alloc, &accepted),
        None => false,
    }
}

fn finds_what_is_left(alloc: Global) -> bool {
    match LEAVES.image(alloc) {
        Some(leaves) => finds_after_accepted(alloc, leaves),
        None => false,
    }
}

/// Nothing is cleared between two images on one board but what booting sets. An accepted image can't tell, and any
/// other one can.
#[test]
fn what_is_left_can_be_read(rt: HostRuntime) {
    assert!(rt; finds_what_is_left(rt.alloc()));
}

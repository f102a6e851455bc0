//! The port of one byte each way, and runs over it of images that nobody has verified.
use crate::sources::{ECHO, ENDLESS, GREETING, assembled};
use crate::streams::{Sink, Source};
use sbx_image::Image;
use sbx_port::{Mailbox, carry};
use std::alloc::{AllocError, Global};
use std::process::Abort;
use v8_board::{Board, Ending, Outcome, Port};
use v8_mmu::PortFault;

/// Whether a port that was given nothing fails, one that was gives its byte once, and one that has ended tells so each
/// time.
fn gives_a_byte(port: &mut Mailbox) -> bool {
    let lacked = port.get() == Err(PortFault::Reader) && port.failures() == 1;
    port.give(0xFF);
    let gave = port.failures() == 0 && port.get() == Ok(Some(0xFF));
    let lacks = port.get() == Err(PortFault::Reader) && !port.has_ended();
    port.end();
    lacked && gave && lacks && port.has_ended() && port.get() == Ok(None) && port.get() == Ok(None)
}

/// Whether a port that holds nothing takes a byte, and the next one once it was emptied.
fn takes_a_byte(port: &mut Mailbox) -> bool {
    let took = port.slot() == None && port.put(0) == Ok(()) && port.slot() == Some(0);
    let is_full = port.put(1) == Err(PortFault::Writer);
    let kept = port.failures() == 1 && port.slot() == Some(0) && !port.lacks();
    port.empty();
    took && is_full && kept && port.failures() == 0 && port.slot() == None && port.put(2) == Ok(())
}

#[test]
fn a_mailbox_has_room_for_a_byte_each_way(rt: HostRuntime) {
    let mut port = Mailbox::new();
    assert!(rt; gives_a_byte(&mut port), "to be read");
    assert!(rt; takes_a_byte(&mut port), "written");
}

/// A source that is run up to a limit of turns on an input that ends, and what comes of it.
#[derive(Clone, Copy)]
struct Row<'a> {
    source: &'static str,
    limit: u64,
    input: &'a [u8],
    written: &'a [u8],
    reads: u64,
    /// None where the limit ends it.
    status: Option<u32>,
    turns: u64,
}

fn ending_of(status: Option<u32>) -> Ending {
    match status {
        Some(status) => Ending::Exit(status),
        None => Ending::Limit,
    }
}

/// Whether what is told of a run, and what its streams were asked, is what the row says.
fn is_told(told: &Outcome, reader: &Source<'_>, writer: &Sink, row: &Row<'_>) -> bool {
    told.ending == ending_of(row.status)
        && told.turns == row.turns
        && reader.reads == row.reads
        && writer.took(row.written)
}

/// Whether the image's run over streams on a board is whole, and what the row says.
fn runs_so(alloc: Global, image: &Image, row: &Row<'_>) -> bool {
    let mut board: Board<4, Mailbox> = match Board::new(alloc, Mailbox::new()) {
        Ok(board) => board,
        Err(AllocError) => return false,
    };
    board.load(image);
    let mut reader = Source::new(row.input, false);
    let mut writer = Sink::new(5000, false);
    let is_whole = carry(&mut board, row.limit, &mut reader, &mut writer).is_ok();
    is_whole && is_told(&board.outcome(), &reader, &writer, row)
}

/// Whether the row's run is what it says.
fn is_so(alloc: Global, row: &Row<'_>) -> bool {
    match assembled(alloc, row.source.as_bytes()) {
        Some(image) => runs_so(alloc, &image, row),
        None => false,
    }
}

/// A run that its limit cuts short before anything is read or written.
const CUT: Row<'static> = Row {
    source: ECHO,
    limit: 0,
    input: b"abc",
    written: b"",
    reads: 0,
    status: None,
    turns: 0,
};

static ROWS: [Row<'static>; 5] = [
    CUT,
    Row {
        source: ENDLESS,
        limit: 10,
        turns: 10,
        ..CUT
    },
    Row {
        limit: 61,
        written: b"abc",
        reads: 4,
        turns: 61,
        ..CUT
    },
    Row {
        limit: 62,
        written: b"abc",
        reads: 4,
        status: Some(0),
        turns: 62,
        ..CUT
    },
    Row {
        source: GREETING,
        limit: u64::MAX,
        written: b"Hi",
        status: Some(0),
        turns: 16,
        ..CUT
    },
];

/// Each row is so.
fn are_so(rt: &impl Abort, alloc: Global, rows: &[Row<'_>]) {
    for row in rows {
        assert!(rt; is_so(alloc, row), "{} {}", row.limit, row.turns);
    }
}

#[test]
fn boards_run_up_to_a_limit(rt: HostRuntime) {
    are_so(&rt, rt.alloc(), &ROWS);
}

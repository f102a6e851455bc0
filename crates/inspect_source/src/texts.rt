//! Where the text of a line is at fault.
use crate::reasons::{Mark, ShapeReason, TextReason};
use sbx_text::{TextFault, push_tokens};
use std::alloc::{AllocError, Global};

/// The longest line, in bytes.
const LONGEST: usize = 1024;

/// The first byte from a place on that is no blank.
fn behind_blanks(line: &[u8], from: usize) -> usize {
    let mut at = from;
    for (place, byte) in line.iter().enumerate() {
        if place == at && matches!(*byte, b' ' | b'\t') {
            at = place.saturating_add(1);
        }
    }
    at
}

/// Where the tokens of a line end before their fault.
fn fault_place(alloc: Global, line: &[u8]) -> Result<usize, AllocError> {
    let mut found = Vec::new(alloc);
    if let Err(TextFault::Memory(want)) = push_tokens(line, &mut found) {
        return Err(AllocError::from(want));
    }
    let stop = match found.as_slice().last() {
        Some(token) => token.stop,
        None => 0,
    };
    Ok(behind_blanks(line, stop))
}

/// Why a character begins no token.
fn character_reason(line: &[u8], at: usize) -> TextReason {
    match line.get(at).copied() {
        Some(b'%') => TextReason::BarePercent,
        Some(b'\'' | b'"') => TextReason::Quote,
        _ => TextReason::NoToken,
    }
}

/// Why a line has no tokens, and where.
pub(crate) fn text_mark(alloc: Global, line: &[u8], fault: TextFault) -> Result<Mark, AllocError> {
    let at = match fault {
        TextFault::LineTooLong => LONGEST,
        _ => fault_place(alloc, line)?,
    };
    let reason = match fault {
        TextFault::NotAscii => TextReason::NotAscii,
        TextFault::BadCharacter => character_reason(line, at),
        TextFault::NumberTooLarge => TextReason::LargeNumber,
        TextFault::LineTooLong => TextReason::LongLine,
        TextFault::Memory(want) => return Err(AllocError::from(want)),
    };
    Ok(Mark {
        reason: ShapeReason::Text(reason),
        at,
    })
}

//! Lines that fit 100 columns.
use inspect_lines::{MARGIN, WIDTH};
use std::alloc::AllocError;

/// Where a line is broken that has to fit into so many columns: at the last blank of these that stands before a `+`, a
/// `=` or another blank, as before an arrow, or behind a comma; none where there is no such blank.
fn break_of(line: &[u8], room: usize) -> Option<usize> {
    let mut found = None;
    for (place, three) in line.windows(3).enumerate() {
        let ends_item = matches!((three[0], three[2]), (b',', _) | (_, b'+' | b'=' | b' '));
        if place < room && three[1] == b' ' && three[0] != b' ' && ends_item {
            found = Some(place + 1);
        }
    }
    found
}

/// The items of a line that fit into so many columns, and those that don't; none where the line fits, or can't be
/// parted.
fn broken(line: &str, room: usize) -> Option<(&str, &str)> {
    if line.len() <= room {
        return None;
    }
    let place = break_of(line.as_bytes(), room)?;
    let (front, behind) = line.split_at_checked(place)?;
    Some((front, behind.trim_start()))
}

/// Pushes a line, and what doesn't fit it in lines of its own.
fn push_folded(out: &mut String, line: &str) -> Result<(), AllocError> {
    let mut rest = line;
    let mut room = WIDTH;
    for _ in 0..line.len() {
        let Some((front, behind)) = broken(rest, room) else {
            break;
        };
        write!(out, "{front}\n{MARGIN}")?;
        rest = behind;
        room = WIDTH - MARGIN.len();
    }
    writeln!(out, "{rest}")
}

/// Pushes the lines of a text, each so that it fits 100 columns.
pub(crate) fn push_lines(out: &mut String, text: &str) -> Result<(), AllocError> {
    for line in text.lines() {
        push_folded(out, line)?;
    }
    Ok(())
}

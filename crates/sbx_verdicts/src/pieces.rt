//! Runs of an accepted image on the fast flat machine in pieces, beside a line's run.

use crate::runs::{Counts, Run};
use engine_runs::{Accepted, FlatSession, FlatStand};
use sbx_flat::Traffic;
use std::alloc::{AllocError, Global};

/// How many turns a step may make: fewer than a SAVE makes that finds no window free.
const TURNS: u64 = 7;

/// The counts of a run that has ended.
fn counts_of(traffic: &Traffic) -> Counts {
    Counts {
        turns: traffic.turns,
        overflows: traffic.overflows,
        underflows: traffic.underflows,
    }
}

/// The next piece of an input of which so much is read: one byte, or none at the end; and whether it is the last one.
fn piece_of(input: &[u8], read: usize) -> (&[u8], bool) {
    match input.get(read..) {
        Some(rest) => (rest.get(..1).unwrap_or(rest), rest.len() <= 1),
        None => (&[], true),
    }
}

/// Whether the image's run on the line's input, given byte by byte, and taken byte by byte, some turns at a time, is
/// the line's.
pub fn runs_in_pieces(alloc: Global, accepted: &Accepted, run: &Run) -> Result<bool, AllocError> {
    if run.windows < 2 {
        return Ok(false);
    }
    let mut paced = FlatSession::new(alloc, accepted, run.windows)?;
    let mut output = Vec::new(alloc);
    let mut read: usize = 0;
    for _ in 0..u64::MAX {
        let (piece, last) = piece_of(run.input.as_slice(), read);
        let mut room = [0u8; 1];
        let step = paced.step(TURNS, piece, last, &mut room);
        read = read.saturating_add(step.read);
        if step.written > 0 {
            output.push(room[0])?;
        }
        match step.stand {
            FlatStand::Ended(status) => {
                return Ok(
                    status == run.status
                        && output.as_slice() == run.output.as_slice()
                        && counts_of(&paced.counts()) == run.counts,
                );
            }
            FlatStand::Refused(want) => return Err(AllocError::from(want)),
            FlatStand::Lost => return Ok(false),
            FlatStand::Wants | FlatStand::Full | FlatStand::Paused => {}
        }
    }
    Ok(false)
}

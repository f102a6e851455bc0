//! Lines, one after the other, and how many agree.
use crate::boards::runs_on_board;
use crate::engine::runs_on_engine;
use crate::faults::LineFault;
use crate::fields::bytes;
use crate::flat::runs_flat;
use crate::native::runs_as_program;
use crate::pieces::runs_in_pieces;
use crate::runs::{Run, run_in};
use crate::verdicts::{Verdict, is_spelled, verdict_on};
use sbx_run::Accepted;
use std::alloc::Global;
use std::fmt;

/// How many lines of a kind agree, of how many.
#[derive(Clone, Copy)]
pub struct Tally {
    agree: u64,
    lines: u64,
}

impl Tally {
    /// One line more.
    fn count(&mut self, agrees: bool) {
        self.lines = self.lines.saturating_add(1);
        if agrees {
            self.agree = self.agree.saturating_add(1);
        }
    }
}

impl fmt::Display for Tally {
    fn fmt<W: fmt::Write>(&self, f: &mut fmt::Formatter<W>) -> fmt::Result {
        let agree = self.agree;
        let lines = self.lines;
        write!(f, "{agree} of {lines}")
    }
}

/// The verdict on the image whose bytes a field has.
fn verdict_in(alloc: Global, field: &str) -> Result<Verdict, LineFault> {
    let bytes = bytes(alloc, field)?;
    verdict_on(alloc, bytes.as_slice())
}

/// The image of a verdict, where it is accepted.
fn accepted_of(verdict: Verdict) -> Option<Accepted> {
    match verdict {
        Verdict::Accepted(accepted) => Some(accepted),
        Verdict::Refused(_) => None,
    }
}

/// Whether the verdict on the image whose bytes a field has is the one that a text spells, and the image, where it is
/// accepted.
fn judged(alloc: Global, field: &str, wanted: &str) -> Result<(bool, Option<Accepted>), LineFault> {
    let verdict = verdict_in(alloc, field)?;
    let agrees = is_spelled(alloc, &verdict, wanted)?;
    Ok((agrees, accepted_of(verdict)))
}

/// Whether the runs of an image on a board, on the fast flat machine, at once and in pieces, as a program of the little
/// language, and on the plain flat machine are a line's.
fn runs_so(alloc: Global, accepted: &Accepted, run: &Run) -> Result<bool, LineFault> {
    Ok(
        runs_on_board(alloc, accepted, run)?
            && runs_on_engine(alloc, accepted, run)?
            && runs_in_pieces(alloc, accepted, run)?
            && runs_as_program(alloc, accepted, run)?
            && runs_flat(alloc, accepted.image(), run)?,
    )
}

/// What the lines so far came to, and the image of the last verdict, where it is accepted.
#[derive(Drop)]
pub struct Comparison {
    pub images: Tally,
    pub runs: Tally,
    accepted: Option<Accepted>,
}

impl Comparison {
    /// Before the first line.
    pub fn new() -> Comparison {
        let none = Tally { agree: 0, lines: 0 };
        Comparison {
            images: none,
            runs: none,
            accepted: None,
        }
    }

    /// Keeps an image, or none, for the runs that follow.
    fn keep(&mut self, accepted: Option<Accepted>) {
        self.accepted = accepted;
    }

    /// Whether the verdict on an image is the one that the line spells. The image is kept for the runs that follow.
    fn image(&mut self, alloc: Global, text: &str) -> Result<bool, LineFault> {
        self.keep(None);
        let Some((field, wanted)) = text.split_once(' ') else {
            return Err(LineFault::NotRead);
        };
        let (agrees, accepted) = judged(alloc, field, wanted)?;
        self.keep(accepted);
        Ok(agrees)
    }

    /// Whether the runs of the image that is kept, on a board and on both flat machines, are the line's.
    fn run(&self, alloc: Global, text: &str) -> Result<bool, LineFault> {
        let Some(accepted) = &self.accepted else {
            return Err(LineFault::NotRead);
        };
        let run = run_in(alloc, text)?;
        runs_so(alloc, accepted, &run)
    }

    /// Whether a line agrees.
    pub fn line(&mut self, alloc: Global, line: &str) -> Result<bool, LineFault> {
        match line.split_once(' ') {
            Some(("image", text)) => {
                let answer = self.image(alloc, text);
                self.images.count(matches!(answer, Ok(true)));
                answer
            }
            Some(("run", text)) => {
                let answer = self.run(alloc, text);
                self.runs.count(matches!(answer, Ok(true)));
                answer
            }
            _ => Err(LineFault::NotRead),
        }
    }
}

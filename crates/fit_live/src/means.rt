//! A budget of memory and of rounds, which a search draws on.
use fit_code::{Fault, Heap, Reason, SourceLine};
use std::alloc::AllocError;

/// Memory, and rounds, which may be too many. Either is told when all is done: where something lacks, nothing more is
/// looked for.
#[derive(Clone, Copy)]
pub struct Means {
    pub memory: Heap,
    /// What there were too many of, how many there may be, and at which line.
    pub spent: Option<(SourceLine, &'static str, u64)>,
}

impl Means {
    /// More than so many of something were to be made, if nothing lacked before.
    pub fn spend(&mut self, line: SourceLine, what: &'static str, most: u64) {
        if !self.are_used_up() {
            self.spent = Some((line, what, most));
        }
    }

    /// Whether something lacks.
    pub fn are_used_up(&self) -> bool {
        self.memory.is_refused | self.spent.is_some()
    }

    /// What lacked first.
    pub fn told(&self) -> Result<(), Fault> {
        match self.spent {
            Some((line, what, most)) => Err(Fault::new(line, Reason::TooMany { what, most })),
            None if self.memory.is_refused => Err(Fault::from(AllocError)),
            None => Ok(()),
        }
    }
}

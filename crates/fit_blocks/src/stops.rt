//! The first reason that stops the making of a program: it is noted where it is found, and told once.
use crate::points::name_of;
use fit_code::{Fault, Heap, JUMP_THROUGH_POINTER, Naming, Reason, SourceLine};
use fit_gas::{Assembly, owned};
use std::alloc::AllocError;

/// Why there is no program, but want of memory.
#[derive(Clone, Copy)]
pub enum Obstacle {
    /// What the function does that is made, and may not.
    Form(&'static str),
    /// What was told before a name, and that of a symbol.
    Named(Naming, usize),
    /// There are more of something than there may be.
    TooMany(&'static str, u64),
    JumpThroughPointer,
}

/// What stopped the making of a program first. Who notes something goes on with what there is: what is made behind that
/// counts for nothing.
#[derive(Clone, Copy)]
pub struct Stops {
    pub memory: Heap,
    /// The symbol of the function that is made. No other one is made once something is noted.
    pub symbol: usize,
    pub first: Option<(SourceLine, Obstacle)>,
}

impl Stops {
    /// Notes what stops at a line, of which the first one is told.
    pub fn note(&mut self, line: SourceLine, stop: Obstacle) {
        if self.first.is_none() {
            self.first = Some((line, stop));
        }
    }

    /// Notes what the function that is made does and may not.
    pub fn form(&mut self, line: SourceLine, what: &'static str) {
        self.note(line, Obstacle::Form(what))
    }

    /// A list that was made; an empty one where memory was refused, which is noted.
    pub fn made<T: Drop>(&mut self, made: Result<Vec<T>, AllocError>) -> Vec<T> {
        match made {
            Ok(list) => list,
            Err(_) => {
                self.memory.is_refused = true;
                Vec::new(self.memory.alloc)
            }
        }
    }

    /// What is told of it, if something stopped: want of memory, else what was noted first, with some text before the
    /// name of a symbol.
    pub fn fault(self, source: &Assembly, before: &str) -> Option<Fault> {
        let mut memory = self.memory;
        let mut fault = None;
        if let Some((line, stop)) = self.first {
            let reason = match stop {
                Obstacle::Form(what) => Reason::Form {
                    function: owned(&mut memory, name_of(source, self.symbol)),
                    what,
                },
                Obstacle::Named(naming, symbol) => {
                    let mut name = owned(&mut memory, before);
                    memory.take(name.push_str(name_of(source, symbol)));
                    Reason::Named(naming, name)
                }
                Obstacle::TooMany(what, most) => Reason::TooMany { what, most },
                Obstacle::JumpThroughPointer => Reason::Unreadable(JUMP_THROUGH_POINTER),
            };
            fault = Some(Fault::new(line, reason));
        }
        if memory.is_refused {
            fault = Some(Fault::from(AllocError));
        }
        fault
    }
}

//! Where a run by steps may pause: before each byte that it gets or puts, where a loop begins again, and behind a call.
//! So it passes each block once at most between two places where it may pause.
ghost use Rattle.std.specs.Prelude.{◌≡◌, ◌==◌, IfOk, false, get_or};
ghost use Rattle.native_text.specs.Terms.{action_of};
ghost use Rattle.native_text.specs.Pauses.{IsMarked, MarksMore, goes_back, leads_back, returns_to};
ghost use Rattle.native_text.specs.Spelling.{action_codes};

use native_lang::variables::{CARRY, NEGATIVE};
use native_lang::{Arm, BlockEnd, ProgramBlock, Stmt};
use std::alloc::{AllocError, Global};

/// The labels where a pause may be made.
#[derive(Drop)]
pub(crate) struct Heads {
    pub marks: Vec<bool>,
}

impl Heads {
    /// Whether a label is marked.
    pub(crate) fn has(&self, label: u32) -> bool
        ensures { result ≡ get_or self.now.marks.items label false }
    {
        match self.marks.get(label as usize) {
            Some(mark) => *mark,
            None => false,
        }
    }

    /// Marks a label.
    #[tactic(auto, using(crate::proofs::Marks::marking))]
    fn mark(&mut self, label: u32)
        ensures { MarksMore self.old.marks.items self.new.marks.items (λ k. label == k) }
    {
        if (label as usize) < self.marks.len() {
            self.marks[label as usize] = true;
        }
    }

    /// Marks a label that a block of another label goes to, which isn't below it.
    #[tactic(auto, using(crate::proofs::Marks::noting))]
    fn note(&mut self, from: usize, to: u32)
        ensures { MarksMore self.old.marks.items self.new.marks.items (λ k. goes_back k from to) }
    {
        if to as usize <= from {
            self.mark(to);
        }
    }

    /// Marks where functions return to.
    fn note_arms(&mut self, arms: &[Arm])
        ensures { MarksMore self.old.marks.items self.new.marks.items (λ k. returns_to k arms.now) }
    {
        for arm in arms {
            self.mark(arm.label);
        }
    }

    /// Marks where a block's end leads back to.
    #[tactic(auto, using(crate::proofs::Marks::ending))]
    fn note_end(&mut self, from: usize, end: &BlockEnd)
        ensures { MarksMore self.old.marks.items self.new.marks.items (λ k. leads_back k from end.now) }
    {
        match end {
            BlockEnd::Goto(to) => self.note(from, *to),
            BlockEnd::If(_, first, second) => {
                self.note(from, *first);
                self.note(from, *second);
            }
            BlockEnd::Dispatch(_, arms) => self.note_arms(arms.as_slice()),
            BlockEnd::Exit(_) => {}
        }
    }
}

/// Of each label, whether a block of that label or a higher one goes to it, which each loop has one of, or a function
/// returns to it.
pub(crate) fn pause_points(alloc: Global, blocks: &[ProgramBlock]) -> Result<Heads, AllocError>
    ensures { IfOk result (λ heads. IsMarked heads.marks.items blocks.now) }
{
    let mut marks = Vec::new(alloc);
    marks.resize(blocks.len(), false)?;
    let mut heads = Heads { marks };
    for (from, block) in blocks.iter().enumerate() {
        heads.note_end(from, &block.end);
    }
    Ok(heads)
}

/// Whether a statement makes condition codes. Codes and Y are undefined where a block of an accepted image begins, so a
/// pause in one keeps the codes only where a statement before it made them.
pub(crate) fn makes_codes(stmt: &Stmt) -> bool
    ensures { action_codes false (action_of stmt.now) ≡ result }
{
    match stmt {
        Stmt::Set(x, _) => *x >= NEGATIVE && *x <= CARRY,
        _ => false,
    }
}

//! The places where the codes, or Y, that a block begins with are set.
use fit_code::{Block, Heap, RegisterSet, Step, reads, writes};
use v8_formats::Instr;

/// What instructions set for others, beside registers.
#[derive(Clone, Copy)]
pub enum CodesOrY {
    /// The condition codes.
    Codes,
    Y,
}

impl CodesOrY {
    /// It alone.
    fn set(self) -> RegisterSet {
        match self {
            CodesOrY::Codes => RegisterSet::CODES,
            CodesOrY::Y => RegisterSet::Y,
        }
    }
}

/// What some steps do with the codes, or with Y.
#[derive(Clone, Copy)]
pub struct LastSetter {
    /// Whether one of them reads it where none before set it.
    pub reads: bool,
    /// The instruction that sets it last; none where none does.
    pub setter: Option<Instr>,
    /// The place of that.
    pub place: usize,
    /// What is written behind that, or by all of them where none sets it.
    pub written: RegisterSet,
    /// Whether one of those is a call, which loses it.
    pub is_lost: bool,
}

/// What steps do with the codes, or with Y.
pub fn setting_of(special: CodesOrY, steps: &[Step]) -> LastSetter {
    let mut found = LastSetter {
        reads: false,
        setter: None,
        place: 0,
        written: RegisterSet::NONE,
        is_lost: false,
    };
    let asked = special.set();
    for (place, step) in steps.iter().enumerate() {
        if step.callee.is_some() {
            // A callee may write all of these.
            found.written.add(RegisterSet::LOST_BY_CALL);
            found.is_lost = true;
            continue;
        }
        found.reads |= found.setter.is_none() & !reads(&step.instr()).is_disjoint(asked);
        let written = writes(&step.instr());
        if written.is_disjoint(asked) {
            found.written.add(written);
        } else {
            found.setter = Some(step.instr());
            found.place = place;
            found.written = RegisterSet::NONE;
            found.is_lost = false;
        }
    }
    found
}

/// Where what a block begins with is set, on all ways to it.
#[derive(Drop)]
pub struct Setters {
    /// The instructions that set it, and the blocks that these stand in.
    pub instrs: Vec<Instr>,
    pub blocks: Vec<usize>,
    /// What is written behind them on the ways.
    pub written: RegisterSet,
    /// Whether there is one on each way; and whether a way has a call behind it.
    pub is_set: bool,
    pub is_lost: bool,
}

/// Where the codes, or Y, are set that the block of a number begins with. The blocks before each one are those of
/// `before`.
pub fn setters_of(
    memory: &mut Heap,
    blocks: &[Block],
    before: &[Vec<usize>],
    number: usize,
    special: CodesOrY,
) -> Setters {
    let mut found = Setters {
        instrs: Vec::new(memory.alloc),
        blocks: Vec::new(memory.alloc),
        written: RegisterSet::NONE,
        is_set: true,
        is_lost: false,
    };
    let mut flags = memory.repeat(false, blocks.len());
    let seen = flags.as_mut_slice();
    let mut open = Vec::new(memory.alloc);
    found.is_set = push_sources(memory, &mut open, before, number);
    // Each block is looked at once, and has two ways to others, which are listed here and perhaps before the first one.
    for _ in 0..blocks.len().saturating_mul(4) {
        if let Some(place) = open.pop()
            && (place < blocks.len()) & (place < seen.len())
            && !seen[place]
        {
            seen[place] = true;
            let setting = setting_of(special, blocks[place].steps.as_slice());
            found.written.add(setting.written);
            found.is_lost |= setting.is_lost;
            if let Some(setter) = setting.setter {
                memory.push(&mut found.instrs, setter);
                memory.push(&mut found.blocks, place);
            } else {
                found.is_set &= push_sources(memory, &mut open, before, place);
            }
        }
    }
    found
}

/// Puts the blocks before one behind those of a list; says whether there are some.
fn push_sources(
    memory: &mut Heap,
    open: &mut Vec<usize>,
    before: &[Vec<usize>],
    number: usize,
) -> bool {
    if number >= before.len() {
        return false;
    }
    let sources = before[number].as_slice();
    memory.is_refused |= open.extend_from_slice(sources).is_err();
    !sources.is_empty()
}

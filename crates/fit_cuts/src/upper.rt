//! Y where a block begins that reads it. The rules know of no Y between blocks, and compilers write it before a branch
//! at times: then it is written once more where it is read, by the same instruction, if that still finds what it found.
use crate::cuts::{insert_instr, use_of};
use fit_code::{
    Block, Function, Heap, Program, RegisterSet, Step, is_same, reads, with_target, writes,
};
use v8_formats::{Instr, Reg};

/// What is known of Y at a place.
#[derive(Clone, Copy)]
enum KnownUpper {
    /// No way comes there so far.
    Unseen,
    /// The instruction that would leave in Y what is in it.
    By(Instr),
    Lost,
}

impl KnownUpper {
    /// Whether both are the same.
    fn is(&self, other: &KnownUpper) -> bool {
        match (self, other) {
            (KnownUpper::Unseen, KnownUpper::Unseen) | (KnownUpper::Lost, KnownUpper::Lost) => true,
            (KnownUpper::By(one), KnownUpper::By(other)) => is_same(one, other),
            _ => false,
        }
    }

    /// Whether a way comes there.
    fn is_seen(&self) -> bool {
        !matches!(self, KnownUpper::Unseen)
    }
}

/// What is known where two ways meet.
fn common(one: &KnownUpper, other: &KnownUpper) -> KnownUpper {
    if !one.is_seen() || one.is(other) {
        *other
    } else if !other.is_seen() {
        *one
    } else {
        KnownUpper::Lost
    }
}

/// What is known behind an instruction that writes Y: the same one without its result leaves that in Y.
fn again(instr: &Instr) -> KnownUpper {
    match instr {
        Instr::Umul(_) | Instr::Smul(_) => KnownUpper::By(with_target(instr, Reg::G0)),
        Instr::WriteY(_) => KnownUpper::By(*instr),
        _ => KnownUpper::Lost,
    }
}

/// What is known once some registers are written.
fn kept(known: KnownUpper, written: RegisterSet) -> KnownUpper {
    match &known {
        KnownUpper::By(instr) if !reads(instr).is_disjoint(written) => KnownUpper::Lost,
        _ => known,
    }
}

/// What is known behind a step.
fn behind_step(frame: u32, step: &Step, known: KnownUpper) -> KnownUpper {
    if step.callee.is_some() {
        return KnownUpper::Lost;
    }
    let written = use_of(frame, step).1;
    let found = if written.is_disjoint(RegisterSet::Y) {
        known
    } else {
        again(&step.instr())
    };
    kept(found, written.registers())
}

/// What is known before the step at a place of a block, if this is known where it begins.
fn before_step(frame: u32, steps: &[Step], place: usize, known: KnownUpper) -> KnownUpper {
    let mut found = known;
    for at in 0..place.min(steps.len()) {
        found = behind_step(frame, &steps[at], found);
    }
    found
}

/// What is known at the end of a block, if this is known where it begins.
fn at_end(frame: u32, block: &Block, known: KnownUpper) -> KnownUpper {
    let found = before_step(frame, block.steps.as_slice(), block.steps.len(), known);
    match &block.slot {
        Some(slot) => kept(found, writes(&slot.instr())),
        None => found,
    }
}

/// The place of the first step of a block that reads Y, where nothing before it in the block writes it.
fn first_reader(frame: u32, block: &Block) -> Option<usize> {
    let steps = block.steps.as_slice();
    for place in 0..steps.len() {
        let (reads, writes) = use_of(frame, &steps[place]);
        if !reads.is_disjoint(RegisterSet::Y) {
            return Some(place);
        }
        if !writes.is_disjoint(RegisterSet::Y) {
            return None;
        }
    }
    None
}

/// Hands on along the ways of a block what is known at its end; says whether that is new somewhere.
fn hand_on(known: &mut [KnownUpper], block: &Block, found: &KnownUpper) -> bool {
    let mut is_new = false;
    let ways = block.end.ways();
    for way in 0..2 {
        if let Some(to) = ways[way]
            && to < known.len()
        {
            let both = common(&known[to], found);
            is_new |= !both.is(&known[to]);
            known[to] = both;
        }
    }
    is_new
}

/// Hands on from each block of a function once what is known of it; says whether that is new somewhere.
fn pass_blocks(known: &mut [KnownUpper], function: &Function) -> bool {
    let mut is_new = false;
    for (number, block) in function.blocks.as_slice().iter().enumerate() {
        if number < known.len() && known[number].is_seen() {
            let found = at_end(function.frame, block, known[number]);
            is_new |= hand_on(known, block, &found);
        }
    }
    is_new
}

/// What is known of Y where each block of a function begins.
fn known_of(memory: &mut Heap, function: &Function) -> Vec<KnownUpper> {
    let count = function.blocks.len();
    let mut known = memory.repeat(KnownUpper::Unseen, count);
    if let Some(first) = known.first_mut() {
        *first = KnownUpper::Lost;
    }
    // what is known of a block changes twice at most
    for _ in 0..count.saturating_mul(2) {
        if !pass_blocks(known.as_mut_slice(), function) {
            break;
        }
    }
    known
}

/// Whether a block of a function reads Y that nothing before in it writes.
fn reads_other(function: &Function) -> bool {
    let mut is_found = false;
    for block in function.blocks.as_slice() {
        is_found |= first_reader(function.frame, block).is_some();
    }
    is_found
}

/// Writes Y again in the blocks of a function that read what others have written, and adds these to `changed`.
fn write_again(
    memory: &mut Heap,
    function: &mut Function,
    number: usize,
    changed: &mut Vec<(usize, usize)>,
) {
    let list = known_of(memory, &*function);
    let known = list.as_slice();
    let frame = function.frame;
    for place in 0..known.len() {
        if place < function.blocks.len()
            && let Some(reader) = first_reader(frame, &function.blocks[place])
        {
            let block = &function.blocks[place];
            let found = before_step(frame, block.steps.as_slice(), reader, known[place]);
            let line = block.line;
            if let KnownUpper::By(instr) = found {
                insert_instr(memory, &mut function.blocks, (place, reader), instr, line);
                memory.push(changed, (number, place));
            }
        }
    }
}

/// Lets each block of a program that reads Y write it before, where that may be, and adds the blocks that are others
/// then to `changed`.
pub fn write_upper(memory: &mut Heap, program: &mut Program, changed: &mut Vec<(usize, usize)>) {
    let functions = program.functions.as_mut_slice();
    for number in 0..functions.len() {
        let function = &mut functions[number];
        if reads_other(&*function) {
            write_again(memory, function, number, changed);
        }
    }
}

//! Registers, codes and Y in use between two steps of a block, and codes that are, set again behind.
use crate::cuts::cut::push_instrs;
use crate::cuts::words::by_immediate;
use fit_code::{
    Block, End, Heap, Instruction, RegisterSet, SourceLine, Step, fields_of, is_compare,
    operands_read, with_operands, with_target,
};
use fit_live::effects_in;
use v8_formats::{Cond, Instr, Operand, Reg, Three};

/// What a step reads and what it writes. A call is taken to read nothing.
pub fn use_of(frame: u32, step: &Step) -> (RegisterSet, RegisterSet) {
    let effects = effects_in(frame, step);
    (effects.reads, effects.writes)
}

/// What is asked for by the step at a place of a block or behind it, and isn't written between: of registers those that
/// the block's own steps ask for.
pub fn in_use(frame: u32, block: &Block, place: usize) -> RegisterSet {
    let mut used = match block.end {
        End::Branch { .. } => RegisterSet::CODES,
        _ => RegisterSet::NONE,
    };
    for at in (place..block.steps.len()).rev() {
        let (reads, writes) = use_of(frame, &block.steps[at]);
        used = used.before(reads, writes);
    }
    used
}

/// A step that writes something.
#[derive(Clone, Copy)]
pub struct Writer {
    pub place: usize,
    pub instr: Instr,
    pub reads: RegisterSet,
    pub writes: RegisterSet,
    /// What the steps behind it write, and what they find of what stands before them.
    pub written: RegisterSet,
    pub used: RegisterSet,
}

/// The last one of some steps that writes something, of those that call nobody.
pub fn last_writer(frame: u32, steps: &[Step], what: RegisterSet) -> Option<Writer> {
    let (mut written, mut used) = (RegisterSet::NONE, RegisterSet::NONE);
    for place in (0..steps.len()).rev() {
        let step = &steps[place];
        let (reads, writes) = use_of(frame, step);
        if step.callee.is_none() & !writes.is_disjoint(what) {
            return Some(Writer {
                place,
                instr: step.instr(),
                reads,
                writes,
                written,
                used,
            });
        }
        written.add(writes);
        used = used.before(reads, writes);
    }
    None
}

/// The place of the first step from a place on that reads the codes, or Y, where it could stand there: nothing between
/// writes what it reads, or has to do with what it writes.
fn movable_reader(frame: u32, steps: &[Step], place: usize, what: RegisterSet) -> Option<usize> {
    let (mut read, mut written) = (RegisterSet::NONE, RegisterSet::NONE);
    for at in place..steps.len() {
        let (reads, writes) = use_of(frame, &steps[at]);
        if !reads.is_disjoint(what) {
            let is_apart = reads.is_disjoint(written) & writes.is_disjoint(read.union(written));
            return (is_apart & (at > place)).then_some(at);
        }
        read.add(reads);
        written.add(writes);
    }
    None
}

/// Moves the first step from a place on that reads the codes, or Y, to that place, so that they may be free there; says
/// whether it could go there.
pub fn move_reader(frame: u32, block: &mut Block, place: usize, what: RegisterSet) -> bool {
    let Some(reader) = movable_reader(frame, block.steps.as_slice(), place, what) else {
        return false;
    };
    move_step(block.steps.as_mut_slice(), reader, place);
    true
}

/// Moves a step to an earlier place: those from there on go one place back.
fn move_step(steps: &mut [Step], from: usize, to: usize) {
    for at in (to..from).rev() {
        let behind = at.saturating_add(1);
        if behind < steps.len() {
            steps.swap(at, behind);
        }
    }
}

/// Moves a step to right before a later one: those between go one place up.
fn move_step_on(steps: &mut [Step], from: usize, reader: usize) {
    for at in from..reader.saturating_sub(1) {
        let behind = at.saturating_add(1);
        if behind < steps.len() {
            steps.swap(at, behind);
        }
    }
}

/// The place of the first step from a place on that reads the codes, or Y, and what is written before it from there on;
/// none where no step does.
fn first_reader(
    frame: u32,
    steps: &[Step],
    place: usize,
    what: RegisterSet,
) -> Option<(usize, RegisterSet)> {
    let mut written = RegisterSet::NONE;
    for at in place..steps.len() {
        let (reads, writes) = use_of(frame, &steps[at]);
        if !reads.is_disjoint(what) {
            return Some((at, written));
        }
        written.add(writes);
    }
    None
}

/// Moves the WRY whose word is in use at a place to right before the first step from there on that reads Y, so that Y
/// is free at the place; says whether it could: nothing between writes what WRY reads.
pub fn move_writer(frame: u32, block: &mut Block, place: usize) -> bool {
    let steps = block.steps.as_slice();
    let Some(writer) = last_writer(frame, &steps[..place.min(steps.len())], RegisterSet::Y) else {
        return false;
    };
    let Some((reader, between)) = first_reader(frame, steps, place, RegisterSet::Y) else {
        return false;
    };
    let written = writer.written.union(between);
    let is_kept = writer.reads.is_disjoint(written) & writer.used.is_disjoint(RegisterSet::Y);
    let is_between = (writer.place < place) & (place < reader);
    if !is_kept | !is_between || !matches!(writer.instr, Instr::WriteY(_)) {
        return false;
    }
    move_step_on(block.steps.as_mut_slice(), writer.place, reader);
    true
}

/// The globals that compilers leave alone, from the last choice on.
const GLOBALS: &[u8] = &[4, 3, 2];

/// What a block reads of what stands before it, and what it writes; a CALL is taken to read nothing.
fn use_of_block(block: &Block) -> (RegisterSet, RegisterSet) {
    let (mut read, mut written) = (RegisterSet::NONE, RegisterSet::NONE);
    for step in block.steps.as_slice() {
        let (reads, writes) = use_of(0, step);
        read.add(reads.difference(written));
        written.add(writes);
    }
    if let End::Return(fields) = block.end {
        let returned = operands_read(fields.rs1, fields.operand2);
        read.add(returned.difference(written));
    }
    (read, written)
}

/// For each block which of some registers are live where it begins.
fn live_in(memory: &mut Heap, blocks: &[Block], registers: RegisterSet) -> Vec<RegisterSet> {
    let mut live = memory.repeat(RegisterSet::NONE, blocks.len());
    for _ in 0..blocks.len() {
        if !pass_blocks(live.as_mut_slice(), blocks, registers) {
            break;
        }
    }
    live
}

/// Goes over the blocks once, the last one first; says whether more is live somewhere than before.
fn pass_blocks(live: &mut [RegisterSet], blocks: &[Block], registers: RegisterSet) -> bool {
    let mut is_new = false;
    for number in (0..blocks.len()).rev() {
        let (read, written) = use_of_block(&blocks[number]);
        let behind = live_behind_block(&blocks[number], &*live);
        let found = behind.before(read, written).intersection(registers);
        if number < live.len() && live[number] != found {
            live[number] = found;
            is_new = true;
        }
    }
    is_new
}

/// The registers that are live where a block ends, by those at the beginnings of the blocks.
fn live_behind_block(block: &Block, live: &[RegisterSet]) -> RegisterSet {
    let mut behind = RegisterSet::NONE;
    for way in block.end.ways() {
        if let Some(to) = way
            && to < live.len()
        {
            behind.add(live[to]);
        }
    }
    behind
}

/// A global for which a block with a number has no use, nor what stands behind it; none where there is none. Codes
/// aren't in use over a call, which loses globals.
pub fn spare_register(memory: &mut Heap, blocks: &[Block], number: usize) -> Option<Reg> {
    let live = live_in(memory, blocks, RegisterSet::range(2, 3));
    if number >= blocks.len() {
        return None;
    }
    let behind = live_behind_block(&blocks[number], live.as_slice());
    behind.union(blocks[number].named()).last_free(GLOBALS)
}

/// An instruction that reads one register in the place of another one.
fn reading(instr: &Instr, other: Reg, from: Reg) -> Instr {
    let Three { rs1, operand2, .. } = fields_of(instr);
    let (mut first, mut second) = (rs1, operand2);
    if rs1 == from {
        first = other;
    }
    if let Operand::Register(read) = operand2
        && read == from
    {
        second = Operand::Register(other);
    }
    with_operands(instr, first, second)
}

/// Lets the step at a place of a block read another register, into which it is moved before, in the place of the one
/// that it reads and something writes behind.
fn keep_operand(memory: &mut Heap, block: &mut Block, place: usize, (spare, lost): (Reg, Reg)) {
    if place < block.steps.len() {
        let step = block.steps[place];
        block.steps[place].instruction = Instruction::of(reading(&step.instr(), spare, lost));
        let moved = Instr::Or(by_immediate(spare.number(), lost.number(), 0));
        let before = Step {
            instruction: Instruction::of(moved),
            object: None,
            ..step
        };
        memory.is_refused |= block.steps.insert(place, before).is_err();
    }
}

/// The step that keeps the carry in a register, and the one that sets it again from there.
fn steps_of_carry(spare: Reg, line: SourceLine) -> [Step; 2] {
    let kept = Step {
        instruction: Instruction::of(Instr::Addx(by_immediate(spare.number(), 0, 0))),
        line,
        callee: None,
        object: None,
        slot: None,
    };
    let compare = Instr::SubCc(Three {
        rd: Reg::G0,
        rs1: Reg::G0,
        operand2: Operand::Register(spare),
    });
    let set = Step {
        instruction: Instruction::of(compare),
        ..kept
    };
    [kept, set]
}

/// Keeps the carry of a block's codes in a spare register over a place, up to the first step from there on that reads
/// it, before which a compare sets it again; says whether it could: nothing asks for the other codes behind.
pub fn keep_carry(
    memory: &mut Heap,
    frame: u32,
    block: &mut Block,
    place: usize,
    spare: &Option<Reg>,
) -> bool {
    let codes = RegisterSet::CODES;
    let steps = block.steps.as_slice();
    let Some(setter) = last_writer(frame, &steps[..place.min(steps.len())], codes) else {
        return false;
    };
    let Some(spare) = spare else {
        return false;
    };
    let Some((reader, _)) = first_reader(frame, steps, place, codes) else {
        return false;
    };
    if reader <= place || reader >= steps.len() {
        return false;
    }
    let (_, writes) = use_of(frame, &steps[reader]);
    let is_last = !writes.is_disjoint(codes)
        || in_use(frame, block, reader.saturating_add(1)).is_disjoint(codes);
    if !is_last || matches!(steps[reader].instr(), Instr::MulsCc(_)) {
        return false;
    }
    let [kept, set] = steps_of_carry(*spare, steps[reader].line);
    memory.is_refused |= block.steps.insert(reader, set).is_err();
    let behind = setter.place.saturating_add(1).min(block.steps.len());
    memory.is_refused |= block.steps.insert(behind, kept).is_err();
    true
}

/// Sets the codes that a block's branch asks for again behind the last step, as far as it asks, so that they aren't in
/// use before, where a test has no place. Where what the compare reads is written behind it, that is kept in a spare
/// register first, if there is one. Tells why not: not where that step sets them, and where no instruction does: not
/// where they are those of two words, of which the second one's are worked out from the first one's.
pub fn set_codes_again(
    memory: &mut Heap,
    frame: u32,
    block: &mut Block,
    spare: &Option<Reg>,
) -> Result<(), &'static str> {
    if let End::Branch { cond, .. } = block.end
        && let Some(setter) = last_writer(frame, block.steps.as_slice(), RegisterSet::CODES)
        && setter.place.saturating_add(1) < block.steps.len()
    {
        let may_repeat = is_compare(&setter.instr);
        let changed = setter.written.union(setter.writes);
        let lost = changed.intersection(setter.reads).first();
        let result = setter.writes.difference(setter.written).first();
        // These ask for Z and N alone, which are those of the result.
        let asks_signs = matches!(
            cond,
            Cond::Equal | Cond::NotEqual | Cond::Negative | Cond::Positive
        );
        let again = match (lost, result) {
            (None, _) if may_repeat => Some(with_target(&setter.instr, Reg::G0)),
            (_, Some(result)) if asks_signs => {
                Some(Instr::SubCc(by_immediate(0, result.number(), 0)))
            }
            _ => None,
        };
        if again.is_some() {
            push_instrs(memory, &mut block.steps, &[again], block.line);
            return Ok(());
        }
        if let Some(spare) = spare
            && let Some(lost) = lost
            && may_repeat
        {
            keep_operand(memory, block, setter.place, (*spare, lost));
            return Ok(());
        }
    }
    Err("no place for a test: codes, Y or scratch registers are in use")
}

/// Takes the last compare out of a block that no branch ends, if nothing asks for the codes that it sets.
pub fn drop_compare(block: &mut Block) {
    if let Some(setter) = last_writer(0, block.steps.as_slice(), RegisterSet::CODES)
        && setter.place < block.steps.len()
        && setter.used.is_disjoint(RegisterSet::CODES)
        && setter.writes.registers().is_empty()
    {
        block.steps.remove(setter.place);
    }
}

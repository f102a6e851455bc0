//! The steps of a block, and what ends it.
use crate::program::ReadImage;
use fit_code::{Block, End, Instruction, SourceLine, Step};
use sbx_image::{Function, Image, Kind};
use std::mem::replace;
use v8_formats::{Branch, Cond, Instr, Operand, Reg, Three, Trap, decode};
use v8_map::CODE_START;
use v8_meaning::{Operation, is_admitted, is_ret, operation_of, target};

/// A block of an image that is read.
#[derive(Clone, Copy)]
struct BlockReading<'r> {
    image: &'r Image,
    function: &'r Function,
    /// Of each word of the code its line.
    lines: &'r [u32],
    /// The numbers of the function and of the block.
    own: usize,
    number: usize,
    /// The address behind the block.
    stop: u32,
}

/// What has no place in a program.
#[derive(Clone, Copy)]
pub enum What {
    NoSlot,
    Slot,
    Branch,
    Return,
    Call,
    First,
    Instruction,
    Past,
    Block,
}

/// What is told of each `What`, in their order.
pub static TOLD: [&str; 9] = [
    "its delay slot is another block's, or there is none: a block begins behind it",
    "an instruction that a delay slot may not have",
    "a branch goes where no `.block` of its function begins",
    "a framed function returns by `ret` and `restore`, a leaf by `retl`",
    "a call goes to no function that stands behind its own",
    "a framed function has a frame and begins with `save`, a leaf has none",
    "an instruction that sandboxed code may not have here",
    "control goes past the function's last word",
    "a block begins here: write a `.block`",
];

/// The address of what has no place in a program, and what it is. What would be read from there on is of no use.
#[derive(Clone, Copy)]
struct Misplaced(u32, What);

/// What a word of a block is.
#[derive(Clone, Copy)]
enum Word {
    /// The SAVE of a function.
    Save,
    Step(Step),
    /// How the block ends, what its end has in its slot, and whether that is for the way alone on which a branch is
    /// taken.
    End(End, Option<Instruction>, bool),
}

/// `%g0,%g0,%g0`, which a leaf's return has.
const NO_FIELDS: Three = Three {
    rd: Reg::G0,
    rs1: Reg::G0,
    operand2: Operand::Register(Reg::G0),
};

/// Whether a slot may have an instruction: one that sandboxed code may have, and that is no transfer of control, no
/// service, no SAVE and no RESTORE.
fn is_plain(instr: &Instr) -> bool {
    let operation = operation_of(instr);
    is_admitted(&operation)
        & !matches!(
            operation,
            Operation::TrapOnCondition(_)
                | Operation::Save(_)
                | Operation::Restore(_)
                | Operation::Call(_)
                | Operation::BranchOnCondition(_)
                | Operation::JumpAndLink(_)
        )
}

impl BlockReading<'_> {
    /// The line of the word at an address.
    fn line(&self, address: u32) -> SourceLine {
        let place = address.wrapping_sub(CODE_START) / 4;
        let number = self.lines.get(place as usize).copied().unwrap_or(0);
        SourceLine { file: 0, number }
    }

    /// The instruction at an address of the block.
    fn instr(&self, address: u32) -> Option<Instr> {
        let place = (address.wrapping_sub(CODE_START) / 4) as usize;
        let words = self.image.words();
        if place < words.len() && address < self.stop {
            Some(decode(words[place]))
        } else {
            None
        }
    }

    /// The instruction in the slot of a transfer at an address; none where it does nothing. That of a return may be
    /// any.
    fn slot(&self, address: u32, returns: bool) -> Result<Option<Instruction>, Misplaced> {
        let behind = address.saturating_add(4);
        match self.instr(behind) {
            Some(Instr::Sethi(fields)) if fields.rd == Reg::G0 => Ok(None),
            Some(instr) if returns | is_plain(&instr) => Ok(Some(Instruction::of(instr))),
            Some(_) => Err(Misplaced(behind, What::Slot)),
            None => Err(Misplaced(address, What::NoSlot)),
        }
    }

    /// A branch at an address. A jump to the next block is the way on, which has no words of its own, so one that is
    /// always taken has two ways there.
    fn branch(&self, address: u32, branch: Branch) -> Result<Word, Misplaced> {
        let (to, blocks) = (
            target(address, branch.displacement),
            self.function.blocks.as_slice(),
        );
        let mut taken = 0;
        for (number, block) in blocks.iter().enumerate() {
            if block.address == to {
                taken = number;
            }
        }
        if taken == 0 {
            // no branch goes to the first one
            return Err(Misplaced(address, What::Branch));
        }
        let mut slot = self.slot(address, false)?;
        let Branch { cond, annul, .. } = branch;
        let is_jump = cond == Cond::Always;
        if is_jump & annul {
            slot = None;
        }
        let next = self.number.saturating_add(1);
        if is_jump & (taken != next) {
            return Ok(Word::End(End::Jump(taken), slot, false));
        }
        if next >= blocks.len() {
            return Err(Misplaced(address, What::Past));
        }
        Ok(Word::End(End::Branch { cond, taken, next }, slot, annul))
    }

    /// A return at an address.
    fn returned(&self, address: u32, framed: bool) -> Result<Word, Misplaced> {
        let is_framed = self.function.frame > 0;
        let slot = self.slot(address, true)?;
        let mut is_wrong = framed | is_framed;
        if let Some(held) = &slot {
            let instr = held.instr();
            if framed & is_framed
                && let Instr::Restore(fields) = instr
            {
                return Ok(Word::End(End::Return(fields), None, false));
            }
            is_wrong |= !is_plain(&instr);
        }
        if is_wrong {
            return Err(Misplaced(address, What::Return));
        }
        Ok(Word::End(End::Return(NO_FIELDS), slot, false))
    }

    /// A call at an address, with its slot.
    fn call(&self, address: u32, displacement: u32) -> Result<Word, Misplaced> {
        let to = target(address, displacement);
        let mut callee = 0;
        for (number, function) in self.image.functions().iter().enumerate() {
            if function.entry == to {
                callee = number;
            }
        }
        if callee <= self.own {
            return Err(Misplaced(address, What::Call));
        }
        Ok(Word::Step(Step {
            instruction: Instruction::of(Instr::Call(0)),
            line: self.line(address),
            callee: Some(callee),
            object: None,
            slot: self.slot(address, false)?,
        }))
    }

    /// An instruction at an address. The function's first word has to be what its kind asks for: SAVE of a framed one,
    /// which has a frame with it.
    fn word(&self, address: u32, instr: Instr) -> Result<Word, Misplaced> {
        let function = self.function;
        let operation = operation_of(&instr);
        let saves = matches!(operation, Operation::Save(_));
        let is_first = address == function.entry;
        let framed = function.kind == Kind::Framed;
        if is_first & ((framed != saves) | (framed != (function.frame > 0))) {
            return Err(Misplaced(address, What::First));
        }
        let is_elsewhere = matches!(operation, Operation::Restore(_)) | (saves & !is_first);
        if !is_admitted(&operation) | is_elsewhere {
            return Err(Misplaced(address, What::Instruction));
        }
        match operation {
            Operation::BranchOnCondition(branch) => self.branch(address, branch),
            Operation::JumpAndLink(fields) => self.returned(address, is_ret(&fields)),
            Operation::TrapOnCondition(
                Trap {
                    operand2: Operand::Immediate(0),
                    ..
                },
            ) => Ok(Word::End(End::Exit, None, false)),
            Operation::Call(displacement) => self.call(address, displacement),
            Operation::Save(_) => Ok(Word::Save),
            _ => Ok(Word::Step(self.step(address, instr))),
        }
    }

    /// A step that is no call.
    fn step(&self, address: u32, instr: Instr) -> Step {
        Step {
            instruction: Instruction::of(instr),
            line: self.line(address),
            callee: None,
            object: None,
            slot: None,
        }
    }

    /// Ends a block by the word at an address: adds it, without its slot where that isn't one of each way.
    fn end_block(
        &self,
        address: u32,
        (mut end, mut slot, is_apart): (End, Option<Instruction>, bool),
        read: &mut ReadImage,
    ) {
        let (alloc, line) = (read.memory.alloc, self.line(address));
        let mut spared = 0;
        match (end, slot) {
            (End::Branch { cond, taken, next }, Some(_)) if is_apart => {
                // what is done on one way alone is a block of its own
                let block = Block {
                    steps: Vec::new(alloc),
                    end: End::Jump(taken),
                    slot: replace(&mut slot, None),
                    line,
                };
                let taken = self.function.blocks.len().saturating_add(read.slots.len());
                end = End::Branch { cond, taken, next };
                read.memory.push(&mut read.slots, block);
            }
            (End::Return(_), Some(held)) => {
                slot = None;
                spared = 1;
                let step = self.step(address.saturating_add(4), held.instr());
                read.memory.push(&mut read.steps, step);
            }
            _ => {}
        }
        let block = Block {
            steps: replace(&mut read.steps, Vec::new(alloc)),
            end,
            slot,
            line,
        };
        read.memory.push(&mut read.blocks, block);
        read.memory.push(&mut read.weights, spared);
    }

    /// Reads a block from its first word on, at an address. Where control goes on there has to be a next one, and where
    /// its end has words, another block has to begin behind them.
    fn read_block(&self, first: u32, read: &mut ReadImage) -> Result<(), Misplaced> {
        let mut address = first;
        for _ in 0..self.stop.saturating_sub(first) / 4 {
            let Some(instr) = self.instr(address) else {
                break;
            };
            match self.word(address, instr)? {
                Word::Save => {}
                Word::Step(step) => {
                    read.memory.push(&mut read.steps, step);
                    if step.callee.is_some() {
                        // its slot
                        address = address.saturating_add(4);
                    }
                }
                Word::End(end, slot, is_apart) => {
                    let width = if matches!(end, End::Exit) { 4 } else { 8 };
                    let behind = address.saturating_add(width);
                    if behind < self.stop {
                        return Err(Misplaced(behind, What::Block));
                    }
                    self.end_block(address, (end, slot, is_apart), read);
                    return Ok(());
                }
            }
            address = address.saturating_add(4);
        }
        // it goes on behind its last word
        let (next, last) = (self.number.saturating_add(1), self.stop.saturating_sub(4));
        if next >= self.function.blocks.len() {
            return Err(Misplaced(last, What::Past));
        }
        self.end_block(last, (End::Jump(next), None, false), read);
        Ok(())
    }
}

/// Reads the blocks of a function, which has a number. Those that are slots come apart: such a slot counts at both
/// places, so that blocks weigh less. Gives the first word that has no place in a program, by its line.
pub fn read_function(
    read: &mut ReadImage,
    lines: &[u32],
    image: &Image,
    (own, function): (usize, &Function),
) -> Option<(SourceLine, What)> {
    let (functions, next) = (image.functions(), own.saturating_add(1));
    let behind = if next < functions.len() {
        functions[next].entry
    } else {
        CODE_START.saturating_add(image.word_count().saturating_mul(4))
    };
    let blocks = function.blocks.as_slice();
    for (number, block) in blocks.iter().enumerate() {
        let next = number.saturating_add(1);
        let stop = if next < blocks.len() {
            blocks[next].address
        } else {
            behind
        };
        let reading = BlockReading {
            image,
            function,
            lines,
            own,
            number,
            stop,
        };
        if let Err(Misplaced(address, what)) = reading.read_block(block.address, read) {
            return Some((reading.line(address), what));
        }
    }
    None
}

//! Ways into a function that is joined, and back from it.
use crate::keeping::{BASE, NUMBER, push_number, push_step};
use fit_blocks::SoftStack;
use fit_code::{Block, End, Heap, SourceLine, Step};
use fit_cuts::{number_in, push_block, register};
use v8_formats::{Cond, Instr, Operand, Reg, Three};

/// The exit word of a run whose soft stack is full, but for the line.
const FULL: u32 = 5 << 16;

/// The greatest immediate.
const MOST: u32 = 4095;

/// The soft stack where it lies: from an address on that is a multiple of its bytes.
#[derive(Clone, Copy)]
pub struct StackPlace {
    pub stack: SoftStack,
    pub start: u32,
}

impl StackPlace {
    /// The greatest word of the register.
    pub fn top(&self) -> u32 {
        self.start.saturating_add(self.mask())
    }

    /// How far the register may be from the start.
    pub fn mask(&self) -> u32 {
        self.stack.bytes.saturating_sub(8)
    }
}

/// The instruction by which a function takes its frame from the soft stack, or gives it back.
fn moving(takes: bool, rd: Reg, operand2: Operand) -> Instr {
    let fields = Three {
        rd,
        rs1: rd,
        operand2,
    };
    if takes {
        Instr::Sub(fields)
    } else {
        Instr::Add(fields)
    }
}

/// Pushes what takes a frame of so many bytes from the soft stack, or gives it back.
fn push_moving(
    memory: &mut Heap,
    steps: &mut Vec<Step>,
    (takes, rd, frame): (bool, Reg, u32),
    line: SourceLine,
) {
    let mut operand2 = Operand::Immediate(frame);
    if frame > MOST {
        push_number(memory, steps, NUMBER, frame, line);
        operand2 = Operand::Register(register(NUMBER));
    }
    push_step(memory, steps, moving(takes, rd, operand2), None, line);
}

/// Pushes the blocks where a function takes its frame of so many bytes from the soft stack, and goes on to its body;
/// and where the run ends because the stack is full.
pub fn push_entry(
    memory: &mut Heap,
    blocks: &mut Vec<Block>,
    place: &StackPlace,
    (frame, body): (u32, usize),
    line: SourceLine,
) {
    let pointer = place.stack.register;
    let mut steps = Vec::new(memory.alloc);
    push_moving(memory, &mut steps, (true, pointer, frame), line);
    push_number(memory, &mut steps, NUMBER, place.start, line);
    let compare = Instr::SubCc(Three {
        rd: Reg::G0,
        rs1: pointer,
        operand2: Operand::Register(register(NUMBER)),
    });
    push_step(memory, &mut steps, compare, None, line);
    let end = End::Branch {
        cond: Cond::CarrySet,
        taken: blocks.len().saturating_add(1),
        next: body,
    };
    let entry = Block {
        steps,
        end,
        slot: None,
        line,
    };
    memory.push(blocks, entry);
    push_full(memory, blocks, line);
}

/// Pushes what gives back a frame of so many bytes, and makes it seen that the register points into the soft stack.
pub fn push_giving(
    memory: &mut Heap,
    steps: &mut Vec<Step>,
    place: &StackPlace,
    frame: u32,
    line: SourceLine,
) {
    let pointer = place.stack.register;
    push_moving(memory, steps, (false, pointer, frame), line);
    push_within(memory, steps, place, pointer, line);
}

/// Pushes what makes it seen that a register points into the soft stack, as it does.
pub fn push_within(
    memory: &mut Heap,
    steps: &mut Vec<Step>,
    place: &StackPlace,
    pointer: Reg,
    line: SourceLine,
) {
    push_number(memory, steps, NUMBER, place.mask(), line);
    let masked = Instr::And(Three {
        rd: pointer,
        rs1: pointer,
        operand2: Operand::Register(register(NUMBER)),
    });
    push_step(memory, steps, masked, None, line);
    push_number(memory, steps, NUMBER, place.start, line);
    let whole = moving(false, pointer, Operand::Register(register(NUMBER)));
    push_step(memory, steps, whole, None, line);
}

/// Pushes the block where a run ends because the soft stack is full.
pub fn push_full(memory: &mut Heap, blocks: &mut Vec<Block>, line: SourceLine) {
    let word = FULL | line.number.min(0xffff);
    let instrs = number_in(8, word.cast_signed());
    push_block(memory, blocks, &instrs, (End::Exit, None), line);
}

/// Where control goes by the numbers of places from one to before another: there, where it is one, else to a new block
/// that is to tell them apart.
fn half(
    memory: &mut Heap,
    blocks: &mut Vec<Block>,
    open: &mut Vec<(usize, usize, usize)>,
    sites: &[usize],
    (from, to): (usize, usize),
    line: SourceLine,
) -> usize {
    if to <= from.saturating_add(1) {
        return if from < sites.len() { sites[from] } else { 0 };
    }
    let number = blocks.len();
    push_block(memory, blocks, &[], (End::Exit, None), line);
    memory.push(open, (number, from, to));
    number
}

/// Lets a block, which has no end yet, go to one of some places by the number in the base register, by halves; to the
/// one place, if there are no others.
pub fn push_halves(
    memory: &mut Heap,
    blocks: &mut Vec<Block>,
    block: usize,
    sites: &[usize],
    line: SourceLine,
) {
    if let [site] = sites
        && block < blocks.len()
    {
        blocks[block].end = End::Jump(*site);
        return;
    }
    let mut open = memory.copy(&[(block, 0usize, sites.len())]);
    // each turn tells places apart once, and leaves two parts of them
    for _ in 0..sites.len() {
        let Some((number, from, to)) = open.pop() else {
            break;
        };
        let middle = from.saturating_add(to.saturating_sub(from) / 2);
        let compare = Instr::SubCc(Three {
            rd: Reg::G0,
            rs1: register(BASE),
            operand2: Operand::Immediate(middle.min(MOST as usize) as u32),
        });
        let taken = half(memory, blocks, &mut open, sites, (middle, to), line);
        let next = half(memory, blocks, &mut open, sites, (from, middle), line);
        if number < blocks.len() {
            let block = &mut blocks[number];
            push_step(memory, &mut block.steps, compare, None, line);
            block.end = End::Branch {
                cond: Cond::CarryClear,
                taken,
                next,
            };
        }
    }
}

/// Pushes a block of these steps that has no end yet.
pub fn push_open(memory: &mut Heap, blocks: &mut Vec<Block>, steps: Vec<Step>, line: SourceLine) {
    let open = Block {
        steps,
        end: End::Exit,
        slot: None,
        line,
    };
    memory.push(blocks, open);
}

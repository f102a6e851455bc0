//! The function that calls others through pointers.
use crate::keeping::{BASE, push_step};
use fit_blocks::{pointer_register, pointer_word, result_register};
use fit_code::{Block, End, Function, Heap, Instruction, NO_LINE, Step};
use fit_cuts::{push_block, register};
use v8_formats::{Cond, Instr, Operand, Reg, Three, Upper};

/// The exit word of a run that calls through what is no pointer to a function, but for the line.
const NONE: u32 = 9 << 16;

/// RESTORE of nothing, by which a function without a window returns.
const PLAIN: Three = Three {
    rd: Reg::G0,
    rs1: Reg::G0,
    operand2: Operand::Register(Reg::G0),
};

/// The numbers of functions from one to before another, which a block is to tell apart.
#[derive(Clone, Copy)]
struct Span {
    block: usize,
    from: usize,
    to: usize,
}

/// A block that ends the run, as no function has the pointer.
fn push_none(memory: &mut Heap, blocks: &mut Vec<Block>) {
    let rd = result_register();
    let imm22 = NONE >> 10;
    let operand2 = Operand::Register(register(BASE));
    let instrs = [
        Some(Instr::Sethi(Upper { rd, imm22 })),
        Some(Instr::Or(Three {
            rd,
            rs1: rd,
            operand2,
        })),
    ];
    push_block(memory, blocks, &instrs, (End::Exit, None), NO_LINE);
}

/// Pushes a block that calls a function, by its number in the source, and returns; gives its number.
fn push_caller(memory: &mut Heap, blocks: &mut Vec<Block>, callee: usize) -> usize {
    let call = Step {
        instruction: Instruction::of(Instr::Call(0)),
        line: NO_LINE,
        callee: Some(callee),
        object: None,
        slot: None,
    };
    let block = Block {
        steps: memory.copy(&[call]),
        end: End::Return(PLAIN),
        slot: None,
        line: NO_LINE,
    };
    memory.push(blocks, block);
    blocks.len().saturating_sub(1)
}

/// Pushes an empty block that is to tell a span apart, and leaves that open; gives its number.
fn open_span(
    memory: &mut Heap,
    blocks: &mut Vec<Block>,
    open: &mut Vec<Span>,
    (from, to): (usize, usize),
) -> usize {
    let block = blocks.len();
    push_block(memory, blocks, &[], (End::Exit, None), NO_LINE);
    memory.push(open, Span { block, from, to });
    block
}

/// The end of a block that tells functions apart, by the codes of a compare with the pointer of one of them.
fn parting(
    memory: &mut Heap,
    blocks: &mut Vec<Block>,
    open: &mut Vec<Span>,
    taken: &[usize],
    span: Span,
) -> (usize, End) {
    let Span { from, to, .. } = span;
    let middle = from.saturating_add(to.saturating_sub(from) / 2);
    if to > from.saturating_add(1) {
        let taken = open_span(memory, blocks, open, (middle, to));
        let next = open_span(memory, blocks, open, (from, middle));
        let cond = Cond::CarryClear;
        return (middle, End::Branch { cond, taken, next });
    }
    let callee = if from < taken.len() { taken[from] } else { 0 };
    let end = End::Branch {
        cond: Cond::NotEqual,
        taken: 1,
        next: push_caller(memory, blocks, callee),
    };
    (from, end)
}

/// What calls functions through pointers, those whose addresses are taken, by their numbers in the source: a function
/// without a window that is given a pointer in a register of its own, and the line of the call in the base register. It
/// looks for the function by halves, calls it with what stands in the outs, and returns; where it finds none the run
/// ends.
pub fn caller_of(memory: &mut Heap, taken: &[usize]) -> Function {
    let mut blocks = Vec::new(memory.alloc);
    let mut open = Vec::new(memory.alloc);
    let first = open_span(memory, &mut blocks, &mut open, (0, taken.len()));
    push_none(memory, &mut blocks);
    if taken.is_empty() && first < blocks.len() {
        blocks[first].end = End::Jump(1);
        open.clear();
    }
    // each turn tells functions apart once, or finds one
    for _ in 0..taken.len().saturating_mul(2) {
        let Some(span) = open.pop() else {
            break;
        };
        let (place, end) = parting(memory, &mut blocks, &mut open, taken, span);
        let compare = Instr::SubCc(Three {
            rd: Reg::G0,
            rs1: pointer_register(),
            operand2: Operand::Immediate(pointer_word(place)),
        });
        if span.block < blocks.len() {
            let block = &mut blocks[span.block];
            push_step(memory, &mut block.steps, compare, None, NO_LINE);
            block.end = end;
        }
    }
    Function {
        name: String::new(memory.alloc),
        framed: false,
        frame: 0,
        blocks,
        params: Vec::new(memory.alloc),
        results: Vec::new(memory.alloc),
        line: NO_LINE,
    }
}

//! Functions that move the stack pointer on: for arrays whose size isn't constant, whose room lies on the soft stack.
//! And those that keep their way back, or go by one that was kept: `setjmp` and `longjmp`.
use crate::frames::{push_address, push_softened};
use fit_blocks::{WayBack, access_of, signed, step_of};
use fit_code::{
    Block, End, Function, Heap, Instruction, RegisterSet, SourceLine, Step, is_same, reads, writes,
};
use std::slice;
use v8_formats::{Instr, Operand, Three};
use v8_word::{Reg, reg_at};

pub const UNKNOWN_FORM: &str = "the address of its frame in a form that isn't known";

/// The registers that may hold where a frame lies: locals, and ins but those of results.
const CANDIDATES: &[u8] = &[26, 27, 28, 29, 16, 17, 18, 19, 20, 21, 22, 23];

/// Where arguments in memory end at most, behind %sp.
const ARGUMENTS: i64 = 64 + 512;

/// Whether a step, which is no call, writes %sp.
fn moves(step: &Step) -> bool {
    step.callee.is_none() && writes(&step.instr()).contains(Reg::SP)
}

/// Whether a function writes %sp.
pub fn moves_stack(function: &Function) -> bool {
    let mut found = false;
    for block in function.blocks.as_slice() {
        found |= block.steps.as_slice().iter().any(moves);
    }
    found
}

/// Whether a step is a move of one register to another one.
fn is_copy(step: &Step, from: Reg, to: Reg) -> bool {
    step.callee.is_none() && is_same(&step.instr(), &copy_of(from, to))
}

/// What a function without a window does with the way back to its caller, by its name and by a move of %o7 as in the
/// library's source.
pub fn way_back_of(function: &Function, name: &str) -> WayBack {
    let other = reg_at(10, 0);
    if function.framed {
        WayBack::Own
    } else if name == "setjmp" && copies(function, Reg::O7, other) {
        WayBack::Kept
    } else if name == "longjmp" && copies(function, other, Reg::O7) {
        WayBack::Replaced
    } else {
        WayBack::Own
    }
}

/// Whether a step of a function is a move of one register to another one.
fn copies(function: &Function, from: Reg, to: Reg) -> bool {
    let mut copies = false;
    for block in function.blocks.as_slice() {
        copies |= block
            .steps
            .as_slice()
            .iter()
            .any(|step| is_copy(step, from, to));
    }
    copies
}

/// Lets a function that goes back by a way that was kept end there: nothing comes back from it to its callers.
pub fn end_by_kept(function: &mut Function, way_back: &WayBack) {
    if !matches!(way_back, WayBack::Replaced) {
        return;
    }
    for block in function.blocks.iter_mut() {
        if let End::Return(_) = block.end {
            block.end = End::Exit;
        }
    }
}

/// Whether the stack pointer is more in a function than where its frame begins: in one with a window where it is
/// written, in one without where it is moved to another register or from one.
pub fn is_moving(function: &Function) -> bool {
    let other = reg_at(11, 0);
    if function.framed {
        moves_stack(function)
    } else {
        copies(function, Reg::SP, other) || copies(function, other, Reg::SP)
    }
}

/// A register that a function doesn't name, nor is `other`; %g0 where it names all.
pub fn free_local(function: &Function, other: Reg) -> Reg {
    let mut named = function.named();
    named.insert(other);
    named.last_free(CANDIDATES).unwrap_or(Reg::G0)
}

/// Where the arguments in memory end that a function leaves for others, behind %sp: arrays of a size that isn't
/// constant begin there.
pub fn arguments_end(function: &Function) -> i64 {
    let mut least = ARGUMENTS;
    for block in function.blocks.as_slice() {
        least = least.min(arguments_end_in(block));
    }
    least
}

/// The same of a block.
fn arguments_end_in(block: &Block) -> i64 {
    let mut least = ARGUMENTS;
    for step in block.steps.as_slice() {
        if let Instr::Add(fields) = step.instr()
            && (fields.rs1 == Reg::SP) & (fields.rd != Reg::SP)
            && let Operand::Immediate(number) = fields.operand2
        {
            least = least.min(signed(number));
        }
    }
    least
}

/// Whether a step is an access by %sp from so many bytes on.
fn is_behind(step: &Step, from: i64) -> bool {
    match access_of(&step.instr()) {
        Some(access) => match access.fields.operand2 {
            Operand::Immediate(number) => {
                (access.fields.rs1 == Reg::SP) & (from <= signed(number))
            }
            Operand::Register(_) => false,
        },
        None => false,
    }
}

/// Pushes a step, by what points into the soft stack where it is an access by %sp from so many bytes on.
pub fn push_by_pointer(
    memory: &mut Heap,
    steps: &mut Vec<Step>,
    step: &Step,
    pointer: Reg,
    from: i64,
) {
    if is_behind(step, from) {
        push_softened(memory, steps, step, pointer, 0);
    } else {
        memory.take(steps.extend_from_slice(slice::from_ref(step)));
    }
}

/// Pushes a step of a function on the soft stack, in which what points there moves on; a frame of so many bytes lies
/// where another register says. Says whether it is of a form that is known.
pub fn push_moving(
    memory: &mut Heap,
    steps: &mut Vec<Step>,
    step: &Step,
    (pointer, base): (Reg, Reg),
    size: u32,
) -> bool {
    if step.callee.is_some() {
        memory.push(steps, *step);
        return true;
    }
    let read = reads(&step.instr()).intersection(RegisterSet::STACK);
    if !moves(step) {
        let register = if is_by_frame(step) { base } else { pointer };
        return (read != RegisterSet::STACK) & push_softened(memory, steps, step, register, size);
    }
    match step.instr() {
        Instr::Load(fields) if is_by_frame(step) => {
            let rd = pointer;
            let instr = Instr::Load(Three { rd, ..fields });
            push_softened(
                memory,
                steps,
                &Step {
                    instruction: Instruction::of(instr),
                    ..*step
                },
                base,
                size,
            )
        }
        _ if is_by_frame(step) => false,
        _ => push_move(memory, steps, step, pointer),
    }
}

/// Whether a step, which is no call, reads %fp.
pub fn is_by_frame(step: &Step) -> bool {
    step.callee.is_none() && reads(&step.instr()).contains(Reg::FP)
}

/// Pushes a sum, a difference, a move or a load by which the stack pointer gets another word, with what points into the
/// soft stack in its place; says whether it is one of these.
fn push_move(memory: &mut Heap, steps: &mut Vec<Step>, step: &Step, pointer: Reg) -> bool {
    let instr = match step.instr() {
        Instr::Add(fields) => Instr::Add(with_pointer(&fields, pointer)),
        Instr::Sub(fields) => Instr::Sub(with_pointer(&fields, pointer)),
        Instr::Or(fields) => Instr::Or(with_pointer(&fields, pointer)),
        Instr::Load(fields) => Instr::Load(with_pointer(&fields, pointer)),
        _ => return false,
    };
    memory.push(
        steps,
        Step {
            instruction: Instruction::of(instr),
            ..*step
        },
    );
    true
}

/// Fields with what points into the soft stack in the place of the stack pointer.
fn with_pointer(fields: &Three, pointer: Reg) -> Three {
    let operand2 = match fields.operand2 {
        Operand::Register(second) => Operand::Register(replaced(second, pointer)),
        immediate => immediate,
    };
    Three {
        rd: replaced(fields.rd, pointer),
        rs1: replaced(fields.rs1, pointer),
        operand2,
    }
}

/// A register; another one in the place of %sp.
fn replaced(register: Reg, pointer: Reg) -> Reg {
    if register == Reg::SP {
        pointer
    } else {
        register
    }
}

/// Lets a register hold where the frame of a function lies, of so many bytes, from its start on; and what points into
/// the soft stack be where it was before the call, when the function returns.
pub fn hold_base(
    memory: &mut Heap,
    function: &mut Function,
    (pointer, base): (Reg, Reg),
    size: u32,
) {
    let line = function.line;
    for (number, block) in function.blocks.iter_mut().enumerate() {
        if number == 0 {
            begin_with_base(memory, block, (pointer, base), line);
        }
        if let End::Return(_) = block.end {
            end_by_base(memory, block, (pointer, base), size);
        }
    }
}

/// A move of one register to another one.
fn copy_of(from: Reg, to: Reg) -> Instr {
    Instr::Or(Three {
        rd: to,
        rs1: Reg::G0,
        operand2: Operand::Register(from),
    })
}

/// Lets a block begin with what leaves in a register where the frame of its function lies.
fn begin_with_base(
    memory: &mut Heap,
    block: &mut Block,
    (pointer, base): (Reg, Reg),
    line: SourceLine,
) {
    let held = step_of(copy_of(pointer, base), line);
    let mut front = memory.copy(&[held]);
    memory.take(front.append(&mut block.steps));
    block.steps = front;
}

/// Lets a block end with what leaves in the soft stack's pointer where it was before its function was called.
fn end_by_base(memory: &mut Heap, block: &mut Block, (pointer, base): (Reg, Reg), size: u32) {
    let last = step_of(copy_of(base, pointer), block.line);
    let address = (pointer, base, i64::from(size));
    push_address(memory, &mut block.steps, &last, address);
}

/// What a step makes %sp a multiple of, where it does that and nothing else; else 0.
fn aligned_to(step: &Step) -> u32 {
    match step.instr() {
        Instr::Andn(fields) if (fields.rs1 == Reg::SP) & (fields.rd == Reg::SP) => {
            match fields.operand2 {
                Operand::Immediate(number) if (number & number.wrapping_add(1) == 0) => {
                    number.wrapping_add(1)
                }
                _ => 0,
            }
        }
        _ => 0,
    }
}

/// What the frame of a function with a window is to lie at a multiple of, from 8 on: what the function makes %sp a
/// multiple of, in steps that are taken out, since its frame lies so from the start.
pub fn take_alignment(memory: &mut Heap, function: &mut Function) -> u32 {
    let mut align = 8;
    if function.framed {
        for block in function.blocks.iter_mut() {
            align = take_alignment_in(memory, block).max(align);
        }
    }
    align
}

/// The same of a block.
fn take_alignment_in(memory: &mut Heap, block: &mut Block) -> u32 {
    let mut align = 8;
    let mut steps = Vec::new(memory.alloc);
    for step in block.steps.as_slice() {
        let taken = aligned_to(step);
        if (taken != 0) & (taken <= 4_096) {
            align = taken.max(align);
        } else {
            memory.push(&mut steps, *step);
        }
    }
    block.steps = steps;
    align
}

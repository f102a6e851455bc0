//! Moves of the soft stack's pointer in a function: it takes room of a size that isn't constant, gives it back, or goes
//! back to a frame further down. And what keeps a way back, or goes by one that was kept.
use crate::keeping::{BASE, Keep, NUMBER, push_number, push_step};
use crate::returning::StackPlace;
use fit_code::{Heap, SourceLine, Step, with_target, writes};
use fit_cuts::register;
use v8_formats::{Instr, Operand, Reg, Three};

/// A register that holds how far the pointer may be from the start.
const MASK: u8 = 5;

/// Whether a step, which is no call, writes a register, as what points into the soft stack.
pub fn moves(step: &Step, pointer: Reg) -> bool {
    step.callee.is_none() && writes(&step.instr()).contains(pointer)
}

/// Sets a register to the difference of two.
fn difference(rd: u8, rs1: u8, second: u8) -> Three {
    Three {
        rd: register(rd),
        rs1: register(rs1),
        operand2: Operand::Register(register(second)),
    }
}

/// Pushes what does a step that moves the soft stack's pointer, and compares how far it is then from the stack's start
/// with the most that there may be: it is within, whatever that gives.
pub fn push_moved(memory: &mut Heap, steps: &mut Vec<Step>, step: &Step, place: &StackPlace) {
    let (line, pointer) = (step.line, place.stack.register.number());
    let moved = with_target(&step.instr(), register(NUMBER));
    push_step(memory, steps, moved, step.object, line);
    push_number(memory, steps, BASE, place.start, line);
    let far = Instr::Sub(difference(NUMBER, NUMBER, BASE));
    push_step(memory, steps, far, None, line);
    push_number(memory, steps, MASK, place.mask(), line);
    let masked = Instr::And(difference(pointer, NUMBER, MASK));
    push_step(memory, steps, masked, None, line);
    let whole = Instr::Add(difference(pointer, pointer, BASE));
    push_step(memory, steps, whole, None, line);
    let compare = Instr::SubCc(difference(0, NUMBER, MASK));
    push_step(memory, steps, compare, None, line);
}

/// The number of the register to which a step moves the way back, %o7, or from which it moves one there; and whether it
/// is that.
pub fn way_moved(step: &Step) -> Option<(u8, bool)> {
    let Instr::Or(Three { rd, rs1, operand2 }) = step.instr() else {
        return None;
    };
    match operand2 {
        Operand::Register(from) if step.callee.is_none() & (rs1 == Reg::G0) => {
            if from == Reg::O7 {
                Some((rd.number(), false))
            } else if rd == Reg::O7 {
                Some((from.number(), true))
            } else {
                None
            }
        }
        _ => None,
    }
}

/// Pushes a load of the number of a way back from where its function has that, or a store.
pub fn push_way(
    memory: &mut Heap,
    steps: &mut Vec<Step>,
    (keep, number_at): (Keep, u32),
    (moved, stores): (u8, bool),
    line: SourceLine,
) {
    keep.push_base(memory, steps, line);
    keep.push_move(memory, steps, (stores, register(moved), number_at), line);
}

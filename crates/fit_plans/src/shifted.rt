//! Sums of which only low bits are asked for, since nothing but shifts to the left reads them. A compiler may add any
//! number there whose low bits are right, as 1,073,741,823 for -1 before a shift by 2; with the small one the sum
//! doesn't overflow.
use fit_cells::run_step;
use fit_code::{End, Instruction, RegisterSet, Step};
use fit_cuts::by_immediate;
use fit_live::{LocationSet, effects_of};
use sbx_domain::State;
use sbx_range::{Range, is_single};
use v8_formats::{Instr, Operand, Three};

/// Numbers of at least this magnitude are looked at.
const GREAT: u32 = 1 << 24;

/// What a shift by 3, the greatest of an index, makes 0.
const PUSHED_OUT: u32 = 1 << 29;

/// Whether a great number is a small one but for bits that a shift by 1 to 3 pushes out.
fn is_small_shifted(number: i32) -> bool {
    let beside = number.cast_unsigned().wrapping_add(4096) % PUSHED_OUT;
    (number.unsigned_abs() >= GREAT) & (beside < 8192)
}

/// Whether an instruction adds or subtracts such a number, where the state is that before it.
fn adds_shifted(instr: &Instr, state: &State) -> bool {
    let fields = match instr {
        Instr::Add(fields) | Instr::Sub(fields) => fields,
        _ => return false,
    };
    let mut is_found = false;
    let second = match fields.operand2 {
        Operand::Register(second) => second,
        Operand::Immediate(_) => fields.rs1,
    };
    for register in [fields.rs1, second] {
        if let Some(known) = state.range(u16::from(register.number())) {
            is_found |= is_single(known) & is_small_shifted(known.lo);
        }
    }
    is_found
}

/// The least of the shifts to the left that read a register in steps from a place on, before it is written again; 0
/// where something else may read it, or nothing does. Behind the steps these registers are live.
fn least_shift(frame: u32, steps: &[Step], place: usize, register: u8, live: RegisterSet) -> u32 {
    let may_be_given = RegisterSet::LOST_BY_CALL.has(register);
    // no shift is so far
    let mut least: u32 = 32;
    for at in place..steps.len() {
        let step = &steps[at];
        let effects = effects_of(frame, &step.instr());
        let is_given = step.callee.is_some() & may_be_given;
        if is_given | effects.reads.has(register) {
            let mut shift = 0;
            if let Instr::Sll(fields) = step.instr()
                && let Operand::Immediate(count) = fields.operand2
                && fields.rs1.number() == register
            {
                shift = count % 32;
            }
            least = least.min(shift);
        }
        if (least == 0) | effects.writes.has(register) {
            return least % 32;
        }
    }
    if live.has(register) { 0 } else { least % 32 }
}

/// The registers that are live behind the steps of a block with this end, or may be, where these locations are live at
/// the blocks' beginnings.
pub fn live_behind(end: End, live: &[LocationSet]) -> RegisterSet {
    let (first, second) = match end {
        End::Jump(to) => (to, to),
        End::Branch { taken, next, .. } => (taken, next),
        End::Return(_) | End::Exit => return RegisterSet::REGISTERS,
    };
    if (first < live.len()) & (second < live.len()) {
        live[first].registers().union(live[second].registers())
    } else {
        RegisterSet::REGISTERS
    }
}

/// Lets steps add small numbers where they may, behind which these registers are live: the number from -4096 to 4095
/// that has the same low bits as a great one, but for the high ones that the shifts push out. The state is that before
/// the first step. Says whether one does that didn't, and whether one is left with a number that is small but for high
/// bits.
pub fn shorten_steps(
    frame: u32,
    results: &[Vec<Range>],
    steps: &mut [Step],
    live: RegisterSet,
    state: &mut State,
) -> (bool, bool) {
    let mut is_changed = false;
    let mut wraps = false;
    for place in 0..steps.len() {
        let mut shorter = None;
        if let Instr::Add(fields) = steps[place].instr()
            && let Operand::Register(added) = &fields.operand2
            && let Some(known) = state.range(added.number() as u16)
            && is_single(known) & (known.lo.unsigned_abs() >= GREAT)
        {
            let register = fields.rd.number();
            let count = least_shift(frame, steps, place + 1, register, live) % 32;
            // without a shift this is the great number itself
            let small = (known.lo.cast_unsigned() << count).cast_signed() >> count;
            if (-4096 <= small) & (small <= 4095) {
                shorter = Some(by_immediate(register, fields.rs1.number(), small));
            }
        }
        wraps |= shorter.is_none() & adds_shifted(&steps[place].instr(), state);
        run_step(frame, results, &steps[place], state);
        if let Some(fields) = shorter {
            steps[place].instruction = Instruction::of(Instr::Add(fields));
            is_changed = true;
        }
    }
    (is_changed, wraps)
}

//! Lowering what a meter begins with, by the turns that a run takes outside of the loops that count it down.
use fit_code::{Block, Instruction};
use fit_fuel::{Meter, number_in};
use v8_formats::{Instr, Operand, Three, Upper, encode};

/// Whether an instruction of a word stands in a slot.
fn is_in(slot: &Option<Instruction>, word: u32) -> bool {
    matches!(slot, Some(held) if encode(&held.instr()) == word)
}

/// How often an instruction stands among the steps of a block, or in the slots of its calls and of its end.
fn count_of(block: &Block, instr: &Instr) -> usize {
    let word = encode(instr);
    let mut count = usize::from(is_in(&block.slot, word));
    for step in block.steps.as_slice() {
        count = count.saturating_add(usize::from(encode(&step.instr()) == word));
        count = count.saturating_add(usize::from(is_in(&step.slot, word)));
    }
    count
}

/// Puts an instruction in the place of another one among the steps of a block, and in the slots of its calls and of its
/// end.
fn replace(block: &mut Block, old: &Instr, new: &Instr) {
    let word = encode(old);
    if is_in(&block.slot, word) {
        block.slot = Some(Instruction::of(*new));
    }
    for step in block.steps.as_mut_slice() {
        if encode(&step.instr()) == word {
            step.instruction = Instruction::of(*new);
        }
        if is_in(&step.slot, word) {
            step.slot = Some(Instruction::of(*new));
        }
    }
}

/// The instructions that set a meter's register to a number, as many as set it to what it begins with.
fn setting(meter: &Meter, number: u32) -> [Option<Instr>; 2] {
    let [high, low] = number_in(meter.register, meter.count);
    if high.is_none() {
        return number_in(meter.register, number);
    }
    let upper = Instr::Sethi(Upper {
        rd: meter.register,
        imm22: number / 1024,
    });
    let lower = Instr::Or(Three {
        rd: meter.register,
        rs1: meter.register,
        operand2: Operand::Immediate(number % 1024),
    });
    [Some(upper), low.and(Some(lower))]
}

/// Lowers what the meter begins with that the first block of a function sets, by so many turns at least. Says whether
/// it could: not where it would begin with nothing, or where the block sets it in another way.
pub fn lower_count(block: &mut Block, meter: &mut Meter, turns: u64) -> bool {
    let by = turns.div_ceil(u64::from(meter.unit.max(1)));
    let Some(count) = u64::from(meter.count).checked_sub(by) else {
        return false;
    };
    let count = u32::try_from(count).unwrap_or(0);
    let (old, new) = (
        number_in(meter.register, meter.count),
        setting(&*meter, count),
    );
    let mut is_there = count > 0;
    for instr in &old {
        is_there &= !matches!(instr, Some(instr) if count_of(&*block, instr) != 1);
    }
    if is_there {
        if let ([Some(old), _], [Some(new), _]) = (&old, &new) {
            replace(block, old, new);
        }
        if let ([_, Some(old)], [_, Some(new)]) = (&old, &new) {
            replace(block, old, new);
        }
        meter.count = count;
    }
    is_there
}

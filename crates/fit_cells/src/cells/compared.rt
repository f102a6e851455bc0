//! The numbers that a function compares the words of its locations with: where a range that grows in a loop is to stop,
//! one of these mostly ends it.
use crate::cells::thresholds::Thresholds;
use fit_code::{Block, Function, RegisterSet, Step};
use fit_live::effects_in;
use sbx_domain::frame_word_of;
use v8_formats::{Instr, Operand};
use v8_meaning::{Loading, Op, Operation, Transfer, operation_of};

/// What a register holds, as far as its block tells: the word that a location had where the block began, and a number
/// more; the number alone where the location is 0.
#[derive(Clone, Copy)]
struct HeldWord {
    location: u16,
    more: i64,
}

/// A word of which nothing is known: no location has this number.
const UNKNOWN: HeldWord = HeldWord {
    location: 0xffff,
    more: 0,
};

const ZERO: HeldWord = HeldWord {
    location: 0,
    more: 0,
};

/// What an operation gives: a sum, of which one part has to be a number alone, or an OR of numbers.
fn result_of(op: Op, first: HeldWord, second: HeldWord) -> HeldWord {
    let are_numbers = (first.location == 0) & (second.location == 0);
    let is_one_zero = (first.location == 0) & (first.more == 0)
        | (second.location == 0) & (second.more == 0);
    let more = match op {
        Op::Add | Op::AddCc => second.more,
        Op::Sub | Op::SubCc if second.location == 0 => second.more.saturating_neg(),
        Op::Or | Op::OrCc if is_one_zero => second.more,
        Op::Or if are_numbers => {
            return HeldWord {
                location: 0,
                more: first.more | second.more,
            };
        }
        _ => return UNKNOWN,
    };
    if (first.location != 0) & (second.location != 0) {
        return UNKNOWN;
    }
    HeldWord {
        location: first.location.max(second.location),
        more: first.more.saturating_add(more),
    }
}

/// What an operand holds.
fn word_of(held: &[HeldWord; 32], operand: Operand) -> HeldWord {
    match operand {
        Operand::Register(register) => held[usize::from(register.number())],
        Operand::Immediate(number) => HeldWord {
            location: 0,
            more: i64::from(number.cast_signed()),
        },
    }
}

/// Runs a step of a block on what the registers hold. Gives two words that it compares, unknown ones where it compares
/// none.
fn run(held: &mut [HeldWord; 32], frame: u32, step: &Step) -> [HeldWord; 2] {
    let mut compared = [UNKNOWN; 2];
    let result = match operation_of(&step.instr()) {
        Operation::Compute(op, fields) => {
            let first = word_of(held, Operand::Register(fields.rs1));
            let second = word_of(held, fields.operand2);
            let result = result_of(op, first, second);
            match op {
                Op::SubCc => compared = [first, second],
                Op::AddCc | Op::OrCc => compared = [result, ZERO],
                _ => {}
            }
            result
        }
        Operation::SetHigh(fields) => HeldWord {
            location: 0,
            more: i64::from(fields.imm22.wrapping_mul(1024).cast_signed()),
        },
        Operation::Transfer(Transfer::Load(Loading::Word), operand) => HeldWord {
            location: frame_word_of(frame, &operand).unwrap_or(UNKNOWN.location),
            more: 0,
        },
        _ => UNKNOWN,
    };
    let mut written = effects_in(frame, step).writes.registers();
    for _ in 1..32u8 {
        let Some(register) = written.first() else {
            break;
        };
        held[usize::from(register.number())] = result;
        written.take(RegisterSet::of(register));
    }
    compared
}

/// How many of some steps stand up to the last one that compares, with it.
fn count_to_compare(steps: &[Step]) -> usize {
    for place in (0..steps.len()).rev() {
        if let Instr::AddCc(_) | Instr::OrCc(_) | Instr::SubCc(_) = steps[place].instr() {
            return place.saturating_add(1);
        }
    }
    0
}

/// What registers hold where a block begins: what their locations had there.
fn held_at_start() -> [HeldWord; 32] {
    let mut held = [UNKNOWN; 32];
    for location in 0..32u16 {
        held[usize::from(location)].location = location;
    }
    held
}

impl Thresholds {
    /// Two words are compared: a location gets the number that it is compared with, and those beside it.
    fn compare(&mut self, first: HeldWord, second: HeldWord) {
        let (one, other) = (first.location, second.location);
        let are_known = (one != UNKNOWN.location) & (other != UNKNOWN.location);
        if are_known & (one != other) {
            if (one != 0) & (other != 0) {
                self.memory.push(&mut self.pairs, (one, other));
                self.memory.push(&mut self.pairs, (other, one));
            } else {
                let difference = second.more.saturating_sub(first.more);
                let number = if other == 0 {
                    difference
                } else {
                    difference.saturating_neg()
                };
                for beside in -1..2i64 {
                    if let Ok(number) = i32::try_from(number.saturating_add(beside)) {
                        self.add(one.max(other), &[number]);
                    }
                }
            }
        }
    }

    /// Adds the numbers that a function compares its locations with, and those beside them.
    pub fn add_compared(&mut self, function: &Function) {
        for block in function.blocks.as_slice() {
            self.add_compared_in(function.frame, block);
        }
    }

    /// The same of a block in a frame of so many bytes.
    fn add_compared_in(&mut self, frame: u32, block: &Block) {
        let count = count_to_compare(block.steps.as_slice());
        if count == 0 {
            return;
        }
        let mut held = held_at_start();
        for step in block.steps.as_slice().iter().take(count) {
            let [first, second] = run(&mut held, frame, step);
            self.compare(first, second);
        }
    }
}

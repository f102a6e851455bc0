//! The origin of an access's address, by the steps of its own block, and where the word that it is worked out from has
//! to lie.
mod objects;
mod trace;

use crate::origin::trace::OperandRanges;
use fit_code::{Block, Program, RegisterSet, Step};
use fit_live::{Effects, effects_in};
pub use objects::{WordBounds, bounds_in_constants, bounds_of, end_of, object_at};
use sbx_range::{Range, is_single};
pub use trace::{Trace, operands_of};
use v8_formats::{Instr, Operand};
use v8_meaning::{Op, Operation, operation_of};

/// An address as a constant and a multiple of one register's word, where that stands at a place of the block.
#[derive(Clone, Copy)]
pub struct Origin {
    /// The register, by its number as a location.
    pub register: u8,
    /// The address is `constant` and `times` the word, modulo 2^32. `times` is above 0.
    pub times: i64,
    pub constant: i64,
    /// Before the steps of these places of the block the register has that word: from the first to the last.
    pub first: usize,
    pub last: usize,
    /// What is known of the word; nothing where the register is undefined.
    pub range: Option<Range>,
    /// The object that the constant's parts name: by its symbol or, where none is seen, as the one to which the address
    /// belongs that one of them is.
    pub object: Option<usize>,
}

/// A sum of a constant and of multiples of registers' words.
#[derive(Clone, Copy)]
struct AddressSum<'p> {
    program: &'p Program,
    /// Whether a word before a shift to the left may have other high bits than those of the number that is meant.
    wraps: bool,
    constant: i64,
    /// How often each register's word is in it, and what is known of that word.
    times: [i64; 32],
    ranges: [Option<Range>; 32],
    /// How many registers' words are in it.
    count: u32,
    /// Whether these were more than three, or a number went out of bounds.
    is_lost: bool,
    /// Registers whose words are part of the constant.
    folded: RegisterSet,
    /// The object of a symbol that is a part, and that of the address that a register holds which is one.
    object: Option<usize>,
    addressed: Option<usize>,
}

/// The register that a test gives a word back from, %g7, to which it adds a bound that is no part of an address.
const TESTED: u8 = 7;

/// Numbers stay below this one.
const GREAT: i64 = 1 << 40;

impl<'p> AddressSum<'p> {
    /// No words, of an address in an object of a program.
    fn nothing((program, wraps): (&'p Program, bool), object: Option<usize>) -> AddressSum<'p> {
        AddressSum {
            program,
            wraps,
            constant: 0,
            times: [0; 32],
            ranges: [None; 32],
            count: 0,
            is_lost: false,
            folded: RegisterSet::NONE,
            object,
            addressed: None,
        }
    }

    /// Adds a word of which this is known so many times: of a number, or of a register of which a number is known, that
    /// number.
    fn add(&mut self, operand: Operand, times: i64, range: Option<Range>) {
        let number = match operand {
            Operand::Register(register) => register.number(),
            Operand::Immediate(_) => 0,
        };
        if let Some(range) = range
            && is_single(range)
        {
            let more = times.saturating_mul(i64::from(range.lo));
            self.constant = self.constant.saturating_add(more);
            self.is_lost |= self.constant.saturating_abs() > GREAT;
            self.folded.add(RegisterSet::range(number, 1));
            if (times == 1) & (number > 0) && self.addressed.is_none() {
                self.addressed = object_at(self.program, i64::from(range.lo));
            }
        } else if number > 0 {
            let before = self.times[usize::from(number)];
            let sum = before.saturating_add(times);
            let count = self.count.saturating_add(u32::from(before == 0));
            self.count = count.saturating_sub(u32::from(sum == 0));
            self.is_lost |= (self.count > 3) | (sum.saturating_abs() > GREAT);
            self.times[usize::from(number)] = sum;
            self.ranges[usize::from(number)] = range;
        }
    }

    /// Takes out some registers. Gives how often the last one of them was there.
    fn take(&mut self, registers: RegisterSet) -> Option<i64> {
        let mut taken = None;
        for number in 1..32u8 {
            let place = usize::from(number);
            if registers.has(number) & (self.times[place] != 0) {
                taken = Some(self.times[place]);
                self.times[place] = 0;
                self.count = self.count.saturating_sub(1);
            }
        }
        taken
    }

    /// As an origin whose word stands before the step of a place, if it is that of one register alone.
    fn origin(&self, last: usize) -> Option<Origin> {
        if self.is_lost | (self.count != 1) {
            return None;
        }
        for register in 1..32u8 {
            let times = self.times[usize::from(register)];
            if times > 0 {
                let constant = (self.constant.cast_unsigned() & 0xffff_ffff) as u32;
                return Some(Origin {
                    register,
                    times,
                    constant: i64::from(constant.cast_signed()),
                    first: 0,
                    last,
                    range: self.ranges[usize::from(register)],
                    object: self.object,
                });
            }
        }
        None
    }

    /// Takes the object whose address is a part of what a step computes, if that is part of the constant: else what it
    /// is the sum of is a part of it.
    fn name(&mut self, step: &Step, effects: &Effects) {
        if !self.folded.is_disjoint(effects.writes) {
            self.folded.take(effects.writes);
            if self.object.is_none() {
                self.object = step.object;
                if let Instr::Add(_) | Instr::Or(_) = step.instr() {
                    self.folded.add(effects.reads.registers());
                }
            }
        }
    }

    /// Puts what a step computes in the place of its result, which was there so many times. Says whether that could be
    /// done.
    fn expand(&mut self, times: i64, step: &Step, operands: OperandRanges) -> bool {
        let Operation::Compute(op, fields) = operation_of(&step.instr()) else {
            return false;
        };
        let (first, second) = match op {
            Op::Add | Op::AddCc => (1, 1),
            Op::Sub | Op::SubCc => (1, -1),
            Op::Or | Op::OrCc if is_zero(&operands[0]) | is_zero(&operands[1]) => (1, 1),
            Op::Sll => match operands[1] {
                Some(count)
                    if is_single(count) && !self.wraps | keeps_all(&operands[0], count.lo) => {
                    (1i64 << (count.lo.cast_unsigned() % 32), 0)
                }
                _ => return false,
            },
            _ => return false,
        };
        if fields.rs1.number() == TESTED {
            return false;
        }
        let rs1 = Operand::Register(fields.rs1);
        self.add(rs1, times.saturating_mul(first), operands[0]);
        if second != 0 {
            self.add(fields.operand2, times.saturating_mul(second), operands[1]);
        }
        self.object = self.object.or(step.object);
        !self.is_lost
    }
}

/// Whether a shift to the left by so many bits pushes out none that says more than the sign: else other words than the
/// one that is meant give the same address.
fn keeps_all(range: &Option<Range>, count: i32) -> bool {
    let most = i32::MAX >> (count.cast_unsigned() % 32);
    match range {
        Some(range) => (most.saturating_neg() <= range.lo) & (range.hi <= most),
        None => false,
    }
}

fn is_zero(range: &Option<Range>) -> bool {
    match range {
        Some(range) => (range.lo == 0) & (range.hi == 0),
        None => false,
    }
}

/// The sum of the parts of a step's address, of whose operands this is known; nothing where it has none.
fn parts_of<'p>(
    setting: (&'p Program, bool),
    frame: u32,
    step: &Step,
    operands: OperandRanges,
) -> Option<AddressSum<'p>> {
    let (first, second) = operands_of(frame, &step.instr())?;
    let mut sum = AddressSum::nothing(setting, step.object);
    sum.add(Operand::Register(first), 1, operands[0]);
    sum.add(second, 1, operands[1]);
    Some(sum)
}

/// What the address of the access at a place of a block is worked out from, as far back as one register stands for
/// it. Nothing where it is worked out from several, or is a number. The setting says whether there may be words that
/// are meant but for their high bits: it isn't worked out past a shift that pushes such bits out.
pub fn origin_of(
    setting: (&Program, bool),
    frame: u32,
    block: &Block,
    trace: &Trace,
    place: usize,
) -> Option<Origin> {
    let steps = block.steps.as_slice();
    if place >= steps.len() {
        return None;
    }
    let mut sum = parts_of(setting, frame, &steps[place], trace.at(place))?;
    let mut found = sum.origin(place);
    let mut is_known = true;
    for earlier in (0..place).rev() {
        let step = &steps[earlier];
        let effects = effects_in(frame, step);
        sum.name(step, &effects);
        if is_known && let Some(times) = sum.take(effects.writes) {
            if let Some(origin) = &mut found
                && origin.first == 0
            {
                origin.first = earlier.saturating_add(1);
            }
            is_known = sum.expand(times, step, trace.at(earlier));
            if is_known {
                found = sum.origin(earlier).or(found);
            }
        }
    }
    // its constant's parts may stand before the word
    if let Some(origin) = &mut found {
        origin.object = sum.object.or(sum.addressed);
    }
    found
}

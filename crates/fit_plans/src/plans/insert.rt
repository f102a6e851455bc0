//! The blocks of tests.
use crate::plans::plan::{SUM, Test, TestWay};
use fit_code::{Block, End, Heap, Instruction, RegisterSet, Step};
use fit_cuts::{
    Writer, by_immediate, in_use, last_writer, number_in, push_block, push_branch, register,
    telling, use_of,
};
use fit_live::effects_of;
use v8_formats::{Cond, Instr, Operand, Reg, Three, Two};
use v8_meaning::{Operation, operation_of};

/// The registers that tests work with.
const NUMBER: u8 = 5;

const FROM: u8 = 6;

const REST: u8 = 7;

/// A number as the second operand of an instruction, and what puts it into the register that it is, if it is one.
fn operand_of(number: i32, scratch: u8) -> ([Option<Instr>; 2], Operand) {
    if (-4095 <= number) & (number <= 4095) {
        ([None, None], Operand::Immediate(number.cast_unsigned()))
    } else {
        (
            number_in(scratch, number),
            Operand::Register(register(scratch)),
        )
    }
}

/// What leaves what is left of a register once a number is subtracted; the last one is the sum that gives it back.
pub fn subtracting(tested: u8, lo: i32) -> [Option<Instr>; 4] {
    let ([high, low], operand2) = operand_of(lo, FROM);
    let (rs1, rest) = (register(tested), register(REST));
    let subtract = match operand2 {
        Operand::Immediate(_) => Instr::Add(by_immediate(REST, tested, lo.saturating_neg())),
        Operand::Register(from) => Instr::Sub(Three {
            rd: rest,
            rs1,
            operand2: Operand::Register(from),
        }),
    };
    let give_back = Instr::Add(Three {
        rd: rs1,
        rs1: rest,
        operand2,
    });
    [high, low, Some(subtract), Some(give_back)]
}

/// What is told of a division that can't be taken to where its divisor isn't 0.
const NO_UPPER_WORD: &str = "a division whose upper word isn't written beside it";

/// What is told of a division whose codes can't be set again.
const CODES_OF_DIVISION: &str =
    "codes of a division whose divisor has to be tested: compare its result with 0 behind it";

/// What stands behind a division where codes that it sets are asked for: a compare of its result with 0, if that is
/// kept, and if no branch asks for its overflow. Else why there is none.
fn compare_of_result(division: &Step, end: &End) -> Result<Step, &'static str> {
    let result = match &division.instr() {
        Instr::UdivCc(fields) | Instr::SdivCc(fields) => fields.rd.number(),
        _ => 0,
    };
    let asks_signs = match end {
        End::Branch { cond, .. } => matches!(
            cond,
            Cond::Equal | Cond::NotEqual | Cond::Negative | Cond::Positive
        ),
        _ => true,
    };
    if (result == 0) | !asks_signs {
        return Err(CODES_OF_DIVISION);
    }
    let instr = Instr::SubCc(by_immediate(0, result, 0));
    Ok(Step {
        instruction: Instruction::of(instr),
        ..*division
    })
}

/// Whether a second operand is 0.
fn is_zero(operand: Operand) -> bool {
    match operand {
        Operand::Immediate(number) => number == 0,
        Operand::Register(register) => register == Reg::G0,
    }
}

/// Whether a shift by this operand leaves the sign alone.
fn is_sign_shift(operand: Operand) -> bool {
    match operand {
        Operand::Immediate(count) => count == 31,
        Operand::Register(_) => false,
    }
}

/// Whether a step may write memory.
fn writes_memory(step: &Step) -> bool {
    match operation_of(&step.instr()) {
        Operation::Transfer(transfer, _) => transfer.writes_memory(),
        _ => step.callee.is_some(),
    }
}

/// Whether what the step at a place loads is the same behind all steps: a word of the frame that none of them writes,
/// or what lies in memory, if none of them writes that.
fn loads_kept_word(frame: u32, steps: &[Step], place: usize) -> bool {
    if place >= steps.len() {
        return false;
    }
    let word = effects_of(frame, &steps[place].instr()).word_read;
    let mut is_kept = true;
    for at in place..steps.len() {
        is_kept &= match word {
            Some(_) => effects_of(frame, &steps[at].instr()).word_written != word,
            None => !writes_memory(&steps[at]),
        };
    }
    is_kept
}

/// What leaves in a scratch register, behind steps of a block, what the one at a place has left in another one: a sign,
/// or a word that is loaded and is the same yet. Nothing where it is something else.
fn made_again(frame: u32, steps: &[Step], place: usize) -> Option<Instr> {
    if place >= steps.len() {
        return None;
    }
    match &steps[place].instr() {
        Instr::Sra(fields) if is_sign_shift(fields.operand2) => Some(Instr::Sra(Three {
            rd: register(REST),
            rs1: fields.rs1,
            operand2: fields.operand2,
        })),
        Instr::Load(fields) if loads_kept_word(frame, steps, place) => Some(Instr::Load(Three {
            rd: register(REST),
            rs1: fields.rs1,
            operand2: fields.operand2,
        })),
        _ => None,
    }
}

/// Steps that leave a word in a scratch register by an instruction, and put it into Y, in the place of another one.
fn steps_of_sign(again: Instr, step: Step) -> [Step; 2] {
    let write = Instr::WriteY(Two {
        rs1: register(REST),
        operand2: Operand::Immediate(0),
    });
    let first = Step {
        instruction: Instruction::of(again),
        ..step
    };
    let second = Step {
        instruction: Instruction::of(write),
        ..step
    };
    [first, second]
}

/// What puts the sign of a word into Y again behind steps of a block, the last of which that writes Y puts it there
/// from a register that was written since: it is worked out, or loaded, in a scratch register. Else why that can't be.
fn sign_again(frame: u32, steps: &[Step], writer: &Writer) -> Result<[Step; 2], &'static str> {
    let (put, kept) = (writer.instr, writer.written);
    let Instr::WriteY(fields) = put else {
        return Err(NO_UPPER_WORD);
    };
    // gcc names the register first, clang %g0
    if writer.place >= steps.len() || !(is_zero(fields.operand2) | (fields.rs1 == Reg::G0)) {
        return Err(NO_UPPER_WORD);
    }
    let Some(sign) = last_writer(frame, &steps[..writer.place], writer.reads) else {
        return Err(NO_UPPER_WORD);
    };
    let changed = sign.written.union(sign.writes).union(kept);
    let Some(again) = made_again(frame, steps, sign.place) else {
        return Err(NO_UPPER_WORD);
    };
    if !changed.is_disjoint(sign.reads) {
        return Err(NO_UPPER_WORD);
    }
    Ok(steps_of_sign(again, steps[writer.place]))
}

/// Whether codes are among what is written and what is asked for.
fn asks_codes(written: RegisterSet, asked: RegisterSet) -> bool {
    !written.intersection(asked).is_disjoint(RegisterSet::CODES)
}

/// Takes the division at a place out of a block, and the WRY whose word it finds in Y: where nothing else reads that
/// word before, and what WRY reads stays the same up to the division, or is the sign of a word that does. Where the
/// word is in use behind, WRY stays, if it reads no register. What stood behind the division stands a place before it
/// then, behind a compare of its result where its codes are asked for. Tells why they can't be taken.
pub fn take_division(
    memory: &mut Heap,
    block: &mut Block,
    frame: u32,
    place: usize,
) -> Result<Vec<Step>, &'static str> {
    let asked = in_use(frame, block, place.saturating_add(1));
    let is_shared = !asked.is_disjoint(RegisterSet::Y);
    let end = block.end;
    let steps = &mut block.steps;
    if place < steps.len()
        && let Some(writer) = last_writer(frame, &steps[..place], RegisterSet::Y)
        && matches!(writer.instr, Instr::WriteY(_))
        && writer
            .written
            .union(writer.used)
            .is_disjoint(RegisterSet::Y)
        && writer.place < place
    {
        if is_shared & !writer.reads.is_empty() {
            return Err("two divisions of one upper word");
        }
        let [write, division] = [steps[writer.place], steps[place]];
        let taken = if writer.reads.is_disjoint(writer.written) {
            memory.copy(&[write, division])
        } else if !asked.is_disjoint(RegisterSet::SCRATCH) {
            return Err(NO_UPPER_WORD);
        } else {
            let [sign, write] = sign_again(frame, &steps[..place], &writer)?;
            memory.copy(&[sign, write, division])
        };
        if is_shared {
            steps[place] = write;
        } else if asks_codes(use_of(frame, &division).1, asked) {
            steps[place] = compare_of_result(&division, &end)?;
        } else {
            steps.remove(place);
        }
        steps.remove(writer.place);
        return Ok(taken);
    }
    Err(NO_UPPER_WORD)
}

/// What turns a word to the right by so many bits, from 1 to 3, into a register: low bits that aren't 0 make it greater
/// than any address. Another register is lost.
fn turning(word: u8, bits: u8) -> [Option<Instr>; 3] {
    let count = i32::from(bits);
    let low = Instr::Sll(by_immediate(NUMBER, word, 32i32.saturating_sub(count)));
    let high = Instr::Srl(by_immediate(REST, word, count));
    let both = Instr::Or(Three {
        rd: register(REST),
        rs1: register(REST),
        operand2: Operand::Register(register(NUMBER)),
    });
    [Some(low), Some(high), Some(both)]
}

/// What a test compares with a number, as unsigned words, and what goes on before and behind that where it is passed.
#[derive(Clone, Copy)]
struct Comparison {
    /// What makes the compared word of the tested one: what subtracts the lower end of its bounds, and what turns it.
    subtracting: [Option<Instr>; 3],
    turning: [Option<Instr>; 3],
    compared: u8,
    greatest: i32,
    /// The register that the number goes to, if it needs one.
    scratch: u8,
    /// What makes the tested word of the compared one again.
    behind: [Option<Instr>; 2],
}

impl Test {
    /// What a run tells that ends because this test fails.
    pub fn telling(&self) -> Instr {
        telling(self.plan.kind.exit_word(self.line))
    }

    /// Whether one compare says both that the word is a multiple of what it has to be one of, and that it lies within
    /// its bounds. Not where the compare changes the word that is tested and another test may come behind it.
    pub fn is_joint(&self) -> bool {
        let plan = &self.plan;
        let has_bounds = matches!(plan.way, TestWay::Above(_) | TestWay::Within { .. });
        has_bounds & (plan.alignment > 0) & !((plan.register == SUM) & plan.constants.is_some())
    }

    /// What leaves what is left of the tested word once the lower end of its bounds is subtracted, and gives it back.
    fn taken(&self) -> [Option<Instr>; 4] {
        match self.plan.way {
            TestWay::Within { lo, .. } => subtracting(self.plan.register, lo),
            _ => [None, None, None, None],
        }
    }

    /// How the tested word is compared with the length of its bounds; nothing where it isn't.
    fn comparison(&self) -> Option<Comparison> {
        let (tested, alignment) = (self.plan.register, self.plan.alignment % 4);
        let (compared, greatest, scratch) = match self.plan.way {
            TestWay::Above(hi) => (tested, hi, FROM),
            TestWay::Within { length, .. } => (REST, length, NUMBER),
            TestWay::Never | TestWay::Known => return None,
        };
        let [high, low, subtract, give_back] = self.taken();
        let subtracting = [high, low, subtract];
        if !self.is_joint() {
            return Some(Comparison {
                subtracting,
                turning: [None, None, None],
                compared,
                greatest,
                scratch,
                behind: [None, give_back],
            });
        }
        let back = Instr::Sll(by_immediate(compared, REST, i32::from(alignment)));
        Some(Comparison {
            subtracting,
            turning: turning(compared, alignment),
            compared: REST,
            greatest: greatest >> alignment,
            scratch: NUMBER,
            behind: [Some(back), give_back],
        })
    }

    /// The block of a test of an address in which its low bits are tested alone, if they are; gives what makes it seen
    /// that they are 0.
    fn push_low_bits(&self, memory: &mut Heap, blocks: &mut Vec<Block>) -> Option<Instr> {
        let (tested, alignment) = (self.plan.register, self.plan.alignment);
        if (alignment == 0) | self.is_joint() {
            return None;
        }
        // the bits that are 0 in a multiple of 2 to a power from 1 to 3
        let low = 7i32 >> 3u8.saturating_sub(alignment);
        let test = [Some(Instr::AndCc(by_immediate(0, tested, low)))];
        let end = (Cond::NotEqual, self.exit, Some(self.telling()));
        push_branch(memory, blocks, &test, end, self.line);
        Some(Instr::And(by_immediate(tested, tested, !low)))
    }

    /// The blocks of a test of an address, behind which control goes on to the rest, or to `beyond` where the register
    /// doesn't lie within its bounds. The first one of them is the function's next block. Before a word is compared it
    /// is made seen that its low bits are 0, or it is turned, so that they are its high ones; what is left of it once
    /// the lower end of its bounds is subtracted is compared, and it is given back.
    pub fn push_blocks(&self, memory: &mut Heap, blocks: &mut Vec<Block>, beyond: usize) {
        let (line, rest) = (self.line, (End::Jump(self.rest), None));
        let mask = self.push_low_bits(memory, blocks);
        let told = if beyond == self.exit {
            Some(self.telling())
        } else {
            None
        };
        let Some(comparison) = self.comparison() else {
            if let TestWay::Never = self.plan.way {
                let instrs = [mask, told];
                return push_block(memory, blocks, &instrs, (End::Jump(beyond), None), line);
            }
            return push_block(memory, blocks, &[mask], rest, line);
        };
        let [a, b, c] = comparison.subtracting;
        let [d, e, f] = comparison.turning;
        let ([g, h], operand2) = operand_of(comparison.greatest, comparison.scratch);
        let compare = Instr::SubCc(Three {
            rd: Reg::G0,
            rs1: register(comparison.compared),
            operand2,
        });
        let instrs = [mask, a, b, c, d, e, f, g, h, Some(compare)];
        let end = (Cond::GreaterUnsigned, beyond, told);
        push_branch(memory, blocks, &instrs, end, line);
        push_block(memory, blocks, &comparison.behind, rest, line);
    }

    /// The blocks of a test of a divisor, in which WRY and the division stand: twice, where the divisor may have either
    /// sign, since no range leaves out a 0 in its middle. The first one is the function's next block.
    pub fn push_division(&self, memory: &mut Heap, blocks: &mut Vec<Block>, steps: &[Step]) {
        let (range, line) = (self.plan.range, self.line);
        let compare = [Some(Instr::SubCc(by_immediate(0, self.plan.register, 0)))];
        let mut divisions = 1;
        if (range.lo < 0) & (range.hi > 0) {
            divisions = 2;
            // A number above 0 goes to the second of them, behind the test of 0 and the first one.
            let second = blocks.len().saturating_add(3);
            push_branch(
                memory,
                blocks,
                &compare,
                (Cond::Greater, second, None),
                line,
            );
        }
        push_branch(
            memory,
            blocks,
            &compare,
            (Cond::Equal, self.exit, None),
            line,
        );
        for _ in 0..divisions {
            let division = Block {
                steps: memory.copy(steps),
                end: End::Jump(self.rest),
                slot: None,
                line,
            };
            memory.push(blocks, division);
        }
    }
}

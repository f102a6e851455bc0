//! A meter in turns: a register, or a word of the frame, that a function counts down at places which stand on each
//! round of its loops; and what those places take.
use fit_code::{Block, End, Function, Heap, Instruction, Step};
use v8_formats::{Cond, Instr, Operand, Reg, Three, Upper};

/// What a function counts its turns by.
#[derive(Clone, Copy)]
pub struct Meter {
    /// The location that holds the count between places: a register, or a word of the frame.
    pub location: u16,
    /// The register that is counted down; with a frame word one that holds it for the while.
    pub register: Reg,
    /// What a weight above the greatest immediate is put into.
    pub scratch: Reg,
    /// What it begins with.
    pub count: u32,
    /// How many turns one of the count is.
    pub unit: u32,
}

/// The greatest immediate.
const MOST: u32 = 4095;

impl Meter {
    /// Whether a word of the frame holds the count.
    pub fn has_word(&self) -> bool {
        self.location >= 32
    }
}

/// The instructions that set a register to a number: a small number is put alone.
pub fn number_in(register: Reg, number: u32) -> [Option<Instr>; 2] {
    let (rs1, low) = if number > MOST {
        (register, number % 1024)
    } else {
        (Reg::G0, number)
    };
    let low = Instr::Or(Three {
        rd: register,
        rs1,
        operand2: Operand::Immediate(low),
    });
    let high = Instr::Sethi(Upper {
        rd: register,
        imm22: number / 1024,
    });
    [if number > MOST { Some(high) } else { None }, Some(low)]
}

/// The instructions that count the meter down by so many of its count.
pub fn counting(meter: &Meter, weight: u32) -> [Option<Instr>; 3] {
    let (number, operand2) = if weight > MOST {
        (
            number_in(meter.scratch, weight),
            Operand::Register(meter.scratch),
        )
    } else {
        ([None, None], Operand::Immediate(weight))
    };
    let count = Instr::SubCc(Three {
        rd: meter.register,
        rs1: meter.register,
        operand2,
    });
    [number[0], number[1], Some(count)]
}

/// The place among a block's steps of the one that counts a register down, if its branch goes to an end of the run
/// where that is below 0 then, and the step's fields: the last one, or the one before what tells the end the line.
pub fn counting_step(block: &Block) -> Option<(usize, Three)> {
    let End::Branch {
        cond: Cond::Negative,
        ..
    } = block.end
    else {
        return None;
    };
    let steps = block.steps.as_slice();
    let mut count = steps.len();
    if let Some(last) = steps.last()
        && let Instr::Sethi(_) = last.instr()
    {
        count = count.saturating_sub(1);
    }
    let place = count.saturating_sub(1);
    if place < steps.len()
        && let Instr::SubCc(fields) = steps[place].instr()
    {
        return Some((place, fields));
    }
    None
}

/// The number that steps before a place put into the register that holds a weight above the greatest immediate.
fn scratch_before(meter: &Meter, steps: &[Step], place: usize) -> u32 {
    let mut number: u32 = 0;
    for (at, step) in steps.iter().enumerate() {
        number = match step.instr() {
            Instr::Sethi(fields) if at < place && fields.rd == meter.scratch => {
                fields.imm22.wrapping_mul(1024)
            }
            Instr::Or(
                Three {
                    rd,
                    operand2: Operand::Immediate(low),
                    ..
                },
            ) if at < place && rd == meter.scratch => number | low,
            _ => number,
        };
    }
    number
}

/// The weight that a block counts a meter down by, whose counting step stands at a place and has these fields.
fn weight_at(meter: &Meter, block: &Block, place: usize, fields: &Three) -> u32 {
    match fields.operand2 {
        Operand::Immediate(weight) => weight,
        Operand::Register(register) if register == meter.scratch => {
            scratch_before(meter, block.steps.as_slice(), place)
        }
        Operand::Register(_) => 0,
    }
}

/// What each block of a function takes that is a place of the meter: it counts down, and control leaves where the count
/// is below 0. 0 of the others.
pub fn places_of(memory: &mut Heap, meter: &Meter, function: &Function) -> Vec<u32> {
    let mut places = Vec::new(memory.alloc);
    for block in function.blocks.as_slice() {
        let mut taken = 0;
        if let Some((place, fields)) = counting_step(block)
            && (fields.rd == meter.register)
                & (fields.rs1 == meter.register)
                & (block.slot.is_some() | !meter.has_word())
        {
            taken = weight_at(meter, block, place, &fields);
        }
        memory.push(&mut places, taken);
    }
    places
}

/// How many steps of a place stand before those that count down: what loads the count from a word is the last of them.
fn steps_before(meter: &Meter, steps: &[Step]) -> usize {
    let mut count: usize = 0;
    for place in 0..steps.len() {
        if let Instr::Load(_) = steps[place].instr()
            && meter.has_word()
        {
            count = place.saturating_add(1);
        }
    }
    count
}

/// Lets a place take another weight from now on.
pub fn set_weight(meter: &Meter, block: &mut Block, weight: u32, memory: &mut Heap) {
    let mut behind = None;
    if let Some((place, _fields)) = counting_step(block)
        && place.saturating_add(1) < block.steps.len()
    {
        behind = block.steps.as_slice().last().copied();
    }
    let count = steps_before(meter, block.steps.as_slice());
    block.steps.truncate(count);
    for instr in &counting(meter, weight) {
        if let Some(instr) = *instr {
            let step = Step {
                instruction: Instruction::of(instr),
                line: block.line,
                callee: None,
                object: None,
                slot: None,
            };
            memory.push(&mut block.steps, step);
        }
    }
    if let Some(step) = behind {
        memory.push(&mut block.steps, step);
    }
}

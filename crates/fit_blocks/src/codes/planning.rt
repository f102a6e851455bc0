//! A plan for each block that asks for codes, or for Y, that others set: it has them at its start by the compare that
//! set them, or from what is kept of it.
use crate::codes::keeping::{Compared, KeptWord, Spares, compare_of, keep_in};
use crate::codes::setting::{CodesOrY, Setters, setters_of, setting_of};
use crate::plain::{against_zero, step_of};
use crate::stops::Stops;
use fit_code::{
    Block, End, Function, Heap, RegisterSet, fields_of, is_compare, is_logic_compare, is_same,
    operands_read, with_target,
};
use fit_graph::predecessors_of;
use v8_formats::{Instr, Operand, Three, Two};
use v8_word::{Cond, Reg};

const NO_CODES: &str = "condition codes of several places, or of numbers that changed since";

const NO_Y: &str = "Y is read, and no multiplication before sets it on each way";

/// What a block asks for of the codes.
#[derive(Clone, Copy)]
pub struct AskedCodes {
    /// Zero, or the sign.
    signs: bool,
    carry: bool,
    overflow: bool,
}

impl AskedCodes {
    /// Whether zero and sign alone are asked for.
    pub fn is_of_signs(&self) -> bool {
        !self.carry & !self.overflow
    }

    /// Whether one word that is kept does: the carry, or a result.
    pub fn is_one_word(&self) -> bool {
        self.is_of_signs() | self.is_of_carry()
    }

    /// Whether the carry alone is.
    fn is_of_carry(&self) -> bool {
        self.carry & !self.signs & !self.overflow
    }
}

/// What a branch on a condition asks for.
fn asked_by(cond: Cond) -> AskedCodes {
    let (signs, carry, overflow) = match cond {
        Cond::Equal | Cond::NotEqual | Cond::Negative | Cond::Positive => (true, false, false),
        Cond::CarrySet | Cond::CarryClear => (false, true, false),
        Cond::GreaterUnsigned | Cond::LessOrEqualUnsigned => (true, true, false),
        Cond::OverflowSet | Cond::OverflowClear => (false, false, true),
        _ => (true, false, true),
    };
    AskedCodes {
        signs,
        carry,
        overflow,
    }
}

/// What a block asks for of codes that others set; none where it asks for nothing.
pub fn asked_of(block: &Block) -> Option<AskedCodes> {
    let codes = setting_of(CodesOrY::Codes, block.steps.as_slice());
    let mut asked = None;
    if let End::Branch { cond, .. } = block.end
        && codes.setter.is_none()
    {
        asked = Some(asked_by(cond));
    }
    if codes.reads {
        // ADDX and its kin ask for the carry, MULScc for sign and overflow.
        let is_step = reads_signs(block);
        let before = asked.unwrap_or(asked_by(Cond::CarrySet));
        asked = Some(AskedCodes {
            signs: before.signs | is_step,
            carry: true,
            overflow: before.overflow | is_step,
        });
    }
    asked
}

/// Whether a block has a step of a multiplication.
fn reads_signs(block: &Block) -> bool {
    let mut reads = false;
    for step in block.steps.as_slice() {
        reads |= matches!(step.instr(), Instr::MulsCc(_));
    }
    reads
}

/// The instruction that sets the same codes behind one that sets them; none where there is none. Where carry and
/// overflow aren't asked for, a compare of the result with 0 does, as of a logic instruction, which clears both.
fn repeated(instr: &Instr, signs_alone: bool) -> Option<Instr> {
    let Three { rd, rs1, operand2 } = fields_of(instr);
    if (rd != Reg::G0) & (signs_alone | is_logic_compare(instr)) {
        Some(against_zero(rd))
    } else if is_compare(instr) && !operands_read(rs1, operand2).contains(rd) {
        Some(with_target(instr, Reg::G0))
    } else {
        None
    }
}

/// What sets the codes that a block begins with, as one instruction that may stand at its start; none where there is
/// none.
pub fn one_setter(setters: &Setters, asked: AskedCodes) -> Option<Instr> {
    let mut is_one = setters.is_set;
    let mut found: Option<Instr> = None;
    for instr in setters.instrs.as_slice() {
        let again = repeated(instr, asked.is_of_signs())?;
        is_one &= match &found {
            Some(found) => is_same(found, &again),
            None => true,
        };
        found = Some(again);
    }
    let found = found?;
    let Three { rs1, operand2, .. } = fields_of(&found);
    // It may stand there where it is one alone, and nothing that it reads is written behind it.
    (is_one & operands_read(rs1, operand2).is_disjoint(setters.written)).then_some(found)
}

/// An operand as a number, which no other one has.
fn number_of(operand: &Operand) -> u64 {
    match operand {
        Operand::Register(register) => u64::from(register.number()),
        Operand::Immediate(number) => u64::from(*number) | 1 << 32,
    }
}

/// A register as a number; another one where there is none.
fn number_of_first(first: &Option<Reg>) -> u8 {
    match first {
        Some(register) => register.number(),
        None => 32,
    }
}

/// The compare that each of some instructions does, and whether they agree in its operands; none where one does none.
fn common(setters: &Setters, asked: AskedCodes) -> Option<(Compared, bool, bool)> {
    let instrs = setters.instrs.as_slice();
    let found = compare_of(instrs.first()?, asked.carry)?;
    let mut is_one_first = true;
    let mut is_one_second = true;
    for instr in instrs {
        let Compared { first, second } = compare_of(instr, asked.carry)?;
        is_one_first &= number_of_first(&first) == number_of_first(&found.first);
        is_one_second &= number_of(&second) == number_of(&found.second);
    }
    Some((found, is_one_first, is_one_second))
}

/// What is written behind instructions that set the codes, and by them.
fn lost_behind(setters: &Setters) -> RegisterSet {
    let mut lost = setters.written;
    for instr in setters.instrs.as_slice() {
        lost.insert(fields_of(instr).rd);
    }
    lost
}

/// Whether an operand is a register that is written.
fn is_lost(operand: &Operand, lost: RegisterSet) -> bool {
    match operand {
        Operand::Register(register) => lost.contains(*register),
        Operand::Immediate(_) => false,
    }
}

/// What blocks are to begin with, and what others keep for it.
#[derive(Drop)]
struct Planner<'p> {
    memory: Heap,
    blocks: &'p [Block],
    before: &'p [Vec<usize>],
    spares: Spares,
    /// For each block what its last setter of the codes, or of Y, keeps, a bit each.
    marks: Vec<u8>,
    /// Blocks, and what is to stand at their starts.
    starts: Vec<(usize, Instr)>,
}

impl Planner<'_> {
    /// The register in which all that sets the codes, or Y, for a block keeps something; none where there is none.
    fn keep(&mut self, setters: &Setters, kept: KeptWord) -> Option<Reg> {
        let register = self.spares.take(kept)?;
        let marks = self.marks.as_mut_slice();
        for block in setters.blocks.as_slice() {
            if *block < marks.len() {
                marks[*block] |= kept.bit();
            }
        }
        Some(register)
    }

    /// The compare of what is kept of the operands, as far as these are lost.
    fn compare_kept(&mut self, setters: &Setters, asked: AskedCodes) -> Option<Instr> {
        let (found, is_one_first, is_one_second) = common(setters, asked)?;
        let lost = lost_behind(setters);
        let rs1 = match found.first {
            Some(first) if is_one_first & !lost.contains(first) => first,
            _ => self.keep(setters, KeptWord::First)?,
        };
        let operand2 = if is_one_second && !is_lost(&found.second, lost) {
            found.second
        } else {
            Operand::Register(self.keep(setters, KeptWord::Second)?)
        };
        Some(Instr::SubCc(Three {
            rd: Reg::G0,
            rs1,
            operand2,
        }))
    }

    /// What sets the codes that a block asks for at its start; none where nothing does for sure.
    fn codes_for(&mut self, number: usize, asked: AskedCodes) -> Option<Instr> {
        let (blocks, before) = (self.blocks, self.before);
        let memory = &mut self.memory;
        let setters = setters_of(memory, blocks, before, number, CodesOrY::Codes);
        let one = one_setter(&setters, asked);
        if one.is_some() {
            one
        } else if !setters.is_set | setters.is_lost {
            None
        } else if asked.is_of_carry() {
            let carry = self.keep(&setters, KeptWord::Carry)?;
            Some(Instr::SubCc(Three {
                rd: Reg::G0,
                rs1: Reg::G0,
                operand2: Operand::Register(carry),
            }))
        } else if asked.is_of_signs() {
            let result = self.keep(&setters, KeptWord::Result)?;
            Some(against_zero(result))
        } else {
            self.compare_kept(&setters, asked)
        }
    }

    /// What sets the Y that a block asks for at its start; none where nothing does for sure.
    fn y_for(&mut self, number: usize) -> Option<Instr> {
        let (blocks, before) = (self.blocks, self.before);
        let memory = &mut self.memory;
        let setters = setters_of(memory, blocks, before, number, CodesOrY::Y);
        if !setters.is_set | setters.is_lost {
            return None;
        }
        let rs1 = self.keep(&setters, KeptWord::Y)?;
        Some(Instr::WriteY(Two {
            rs1,
            operand2: Operand::Immediate(0),
        }))
    }

    /// What a block asks for of codes that others set.
    fn asked_at(&self, number: usize) -> Option<AskedCodes> {
        let blocks = self.blocks;
        if number < blocks.len() {
            asked_of(&blocks[number])
        } else {
            None
        }
    }

    /// Whether a block asks for Y that others set.
    fn reads_y(&self, number: usize) -> bool {
        let blocks = self.blocks;
        number < blocks.len() && setting_of(CodesOrY::Y, blocks[number].steps.as_slice()).reads
    }

    /// Puts down what a block is to begin with; says whether there is something.
    fn begin(&mut self, number: usize, instr: &Option<Instr>) -> bool {
        if let Some(instr) = *instr {
            self.memory.push(&mut self.starts, (number, instr));
        }
        instr.is_some()
    }

    /// Plans for the codes that a block asks for; says whether they are sure.
    fn plan_codes(&mut self, number: usize) -> bool {
        match self.asked_at(number) {
            Some(asked) => {
                let instr = self.codes_for(number, asked);
                self.begin(number, &instr)
            }
            None => true,
        }
    }

    /// The same of Y.
    fn plan_y(&mut self, number: usize) -> bool {
        if !self.reads_y(number) {
            return true;
        }
        let instr = self.y_for(number);
        self.begin(number, &instr)
    }

    /// Plans for all blocks; gives the first one of which nothing is sure.
    fn plan_all(&mut self, special: &CodesOrY) -> Option<usize> {
        let mut refused = None;
        for number in 0..self.blocks.len() {
            let is_sure = match special {
                CodesOrY::Codes => self.plan_codes(number),
                CodesOrY::Y => self.plan_y(number),
            };
            if !is_sure & refused.is_none() {
                refused = Some(number);
            }
        }
        refused
    }
}

/// What is told where nothing sets what a block asks for.
fn refusal_of(special: &CodesOrY) -> &'static str {
    match special {
        CodesOrY::Codes => NO_CODES,
        CodesOrY::Y => NO_Y,
    }
}

/// Gives the blocks of a function the codes, or Y, that they ask for and others set: what sets them is repeated at
/// their starts, or kept in registers that the function doesn't name, and that aren't `other`. It is a fault where that
/// can't be.
pub fn set_at_starts(stops: &mut Stops, function: &mut Function, special: CodesOrY, other: Reg) {
    let before = stops.made(predecessors_of(stops.memory.alloc, function));
    let alloc = stops.memory.alloc;
    let spares = Spares::of(function, other);
    let marks = stops.memory.repeat(0u8, function.blocks.len());
    let mut planner = Planner {
        memory: stops.memory,
        blocks: function.blocks.as_slice(),
        before: before.as_slice(),
        spares,
        marks,
        starts: Vec::new(alloc),
    };
    let refused = planner.plan_all(&special);
    stops.memory = planner.memory;
    let (spares, marks, starts) = (planner.spares, planner.marks, planner.starts);
    let blocks = function.blocks.as_mut_slice();
    if let Some(number) = refused
        && number < blocks.len()
    {
        stops.form(blocks[number].line, refusal_of(&special));
    }
    keep_all(
        &mut stops.memory,
        blocks,
        special,
        (marks.as_slice(), &spares),
    );
    begin_with(&mut stops.memory, blocks, starts.as_slice());
}

/// Lets blocks keep what is to be kept of the codes, or of Y.
fn keep_all(
    memory: &mut Heap,
    blocks: &mut [Block],
    special: CodesOrY,
    (marks, spares): (&[u8], &Spares),
) {
    for number in 0..blocks.len() {
        if number < marks.len() {
            keep_in(
                memory,
                &mut blocks[number],
                special,
                (marks[number], spares),
            );
        }
    }
}

/// Puts instructions at the starts of blocks.
fn begin_with(memory: &mut Heap, blocks: &mut [Block], starts: &[(usize, Instr)]) {
    for (number, instr) in starts {
        if *number < blocks.len() {
            let block = &mut blocks[*number];
            let step = step_of(*instr, block.line);
            memory.is_refused |= block.steps.insert(0, step).is_err();
        }
    }
}

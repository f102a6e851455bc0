//! Tests put into a program until nothing is left that isn't shown: a compare, and a branch to an end of the run whose
//! exit word tells kind and line. Nothing rests on them, since the verifier asks all again.
mod sweeping;

use crate::forms::check_forms;
use crate::naming::name_derived;
use crate::undefined::clear_undefined;
use fit_cells::{enter, range_in, start};
use fit_code::{
    Block, End, Fault, Function, Heap, Instruction, NO_LINE, Program, Reason, RegisterSet,
    with_operands,
};
use fit_cuts::{
    copy_block, drop_compare, in_use, insert_instr, keep_carry, move_reader, move_writer,
    number_in, push_block, push_instrs, register, set_codes_again, shared_end, spare_register,
    write_upper,
};
use fit_plans::{
    Ask, NotShown, SUM, Test, TestKind, TestPlan, TestWay, UnshownAccess, live_behind, plan_of,
    shorten_steps, subtracting, take_division,
};
use fit_ranges::Ranges;
use sbx_domain::State;
use sbx_range::excludes_zero;
use std::alloc::{AllocError, Global};
use v8_formats::{Instr, Operand, Three};

/// What tests are made by.
#[derive(Clone, Copy)]
pub struct TestOptions {
    /// Whether an access has to lie in the object that its base names, and not only in the data.
    pub by_object: bool,
    /// Whether tests that turn out not to be needed go again.
    pub drops: bool,
}

/// As many rounds as settling may take, and in so many of them tests that aren't needed go.
const ROUNDS: u32 = 250;

/// As many blocks as a function of an image may have. While tests are put in there may be four times as many: some go
/// again, or end up in one block.
const MOST_BLOCKS: u64 = 4_096;

const DROPS: u32 = 4;

/// In so many first rounds what another test may show is answered only where nothing else is to be answered, and in the
/// first of them once in a loop.
const PATIENT: u32 = 12;

const ONCE_IN_LOOPS: u32 = 3;

/// What is answered in a round of what isn't shown.
#[derive(Clone, Copy)]
pub(crate) enum Answered {
    /// What no test of another word may show: that isn't of a word that comes round a loop.
    Certain,
    /// All that, and of words that come round a loop one.
    OneInLoop,
    /// All that, and one of each register and object.
    OneOfWord,
    All,
}

/// Of which blocks it is known from looking at them before whether something isn't shown.
#[derive(Clone, Copy)]
pub(crate) enum Looked {
    Nothing,
    /// Of those that aren't fresh since the ranges were found last.
    Stale,
    All,
}

/// What is answered in a round where nothing certain is to be answered.
fn answered_in(round: u32) -> Answered {
    if round < ONCE_IN_LOOPS {
        Answered::OneInLoop
    } else if round < PATIENT {
        Answered::OneOfWord
    } else {
        Answered::All
    }
}

/// The tests of a program.
#[derive(Drop)]
pub(crate) struct Tests {
    pub(crate) by_object: bool,
    /// How often tests that aren't needed may be taken out yet.
    drops: u32,
    list: Vec<Test>,
    /// The functions with words that are meant but for their high bits, by their numbers.
    pub(crate) wrapping: Vec<usize>,
    pub(crate) answered: Answered,
    /// Of which blocks it is known whether something isn't shown; and of which something isn't, by function and block.
    pub(crate) looked: Looked,
    pub(crate) shown: Vec<Vec<bool>>,
    /// Blocks that were changed since the ranges were found, by the number of their function and their own.
    pub(crate) changed: Vec<(usize, usize)>,
    /// Whether memory was refused for tests that were put in since it was asked.
    pub(crate) memory: Heap,
    /// What was answered last, and why that can't be tested, if it can't.
    pub(crate) asked: Option<Ask>,
    pub(crate) refused: Answer,
}

/// Nothing, where a test, or what has to come before it, is put in; else why something can't be tested.
pub(crate) type Answer = Result<(), &'static str>;

/// What is told of a register that the callee of a call leaves alone, and whose word before the call may be asked for
/// behind it.
pub(crate) const LOST_BY_CALL: &str =
    "a register is read that a call has left undefined: compile with -fno-ipa-ra";

const NO_PLACE: &str = "no place for a test: codes, Y or scratch registers are in use";

/// The register of the exit word, %o0.
const EXIT_WORD: u8 = 8;

/// Where a test may stand: before a step where the register has the word that is asked for, and nothing is in use that
/// the test changes. What may be tested twice is so right before the access, if that may be, since the steps from there
/// to it are to stand twice, too.
fn place_of_test(frame: u32, block: &Block, plan: &TestPlan) -> Option<usize> {
    let mut first = plan.first;
    if plan.constants.is_some() && in_use(frame, block, plan.last).is_disjoint(plan.changed) {
        first = plan.last;
    }
    for place in first..plan.last.saturating_add(1) {
        if in_use(frame, block, place).is_disjoint(plan.changed) {
            return Some(place);
        }
    }
    None
}

/// Takes a step towards codes and Y that aren't in use at a place of a block with a number, where a test is to stand.
/// Tells why there can't be such.
fn make_place(
    memory: &mut Heap,
    frame: u32,
    blocks: &mut [Block],
    (number, place): (usize, usize),
) -> Answer {
    let spare = spare_register(memory, &*blocks, number);
    if number < blocks.len() {
        let block = &mut blocks[number];
        let used = in_use(frame, block, place);
        let is_free = !used.is_disjoint(RegisterSet::Y)
            && (move_reader(frame, block, place, RegisterSet::Y)
                || move_writer(frame, block, place));
        if !is_free & used.is_disjoint(RegisterSet::CODES) {
            return Err(NO_PLACE);
        }
        let is_made = is_free
            || move_reader(frame, block, place, RegisterSet::CODES)
            || keep_carry(memory, frame, block, place, &spare);
        if !is_made {
            return set_codes_again(memory, frame, block, &spare);
        }
    }
    Ok(())
}

/// Where a test goes that stands at a place, if an address doesn't lie within its bounds. That is the test of a load
/// among the constants, if there is one: behind it the first steps of a block stand once more, so many that the load is
/// the last of them, or all of them, where what they leave is in use behind.
fn push_second(
    memory: &mut Heap,
    blocks: &mut Vec<Block>,
    (ask, place): (&Ask, usize),
    first: &Test,
) -> usize {
    let Some(way) = first.plan.constants else {
        return first.exit;
    };
    let count = ask.place.saturating_add(1).saturating_sub(place);
    let changed = RegisterSet::CODES_AND_Y.union(RegisterSet::SCRATCH);
    if first.rest < blocks.len()
        && in_use(ask.frame, &blocks[first.rest], count).is_disjoint(changed)
    {
        copy_block(memory, blocks, (first.rest, count), true);
    }
    let rest = copy_block(memory, blocks, (first.rest, 0), false);
    // gives back what the first test took from the register
    let mut give_back = None;
    if let TestWay::Within { lo, .. } = first.plan.way
        && first.plan.register == SUM
    {
        [_, _, _, give_back] = subtracting(SUM, lo);
    }
    let head = blocks.len();
    let behind = End::Jump(head.saturating_add(1));
    push_block(memory, blocks, &[give_back], (behind, None), first.line);
    let mut second = Test { rest, ..*first };
    second.plan.way = way;
    if !first.is_joint() {
        // that its low bits are 0 the first one has seen
        second.plan.alignment = 0;
    }
    second.push_blocks(memory, blocks, first.exit);
    head
}

/// Lets an access go by %g7; gives the sum of its two parts, which is to be put into that before, and may then be
/// tested. Not of one that goes by %g7 already, and not where scratch registers are in use.
fn join_address(blocks: &mut [Block], ask: &Ask, access: &UnshownAccess) -> Option<Instr> {
    let (rs1, operand2) = access.parts;
    if ask.block < blocks.len()
        && ask.place < blocks[ask.block].steps.len()
        && in_use(ask.frame, &blocks[ask.block], ask.place).is_disjoint(RegisterSet::SCRATCH)
        && rs1.number() != SUM
    {
        let (rd, step) = (register(SUM), &mut blocks[ask.block].steps[ask.place]);
        step.instruction = Instruction::of(with_operands(&step.instr(), rd, Operand::Immediate(0)));
        return Some(Instr::Add(Three { rd, rs1, operand2 }));
    }
    None
}

/// The block where the run ends if a test of a kind fails: that of all tests of addresses in a function; of tests of
/// divisors, which may have no register to tell the line by, those in one line have one, while one of them stands.
fn exit_of(
    memory: &mut Heap,
    blocks: &mut Vec<Block>,
    tests: &[Test],
    ask: &Ask,
    kind: TestKind,
) -> usize {
    let is_divisor = matches!(kind, TestKind::Divisor);
    let mut exit = blocks.len();
    for test in tests {
        let is_alike = matches!(test.plan.kind, TestKind::Divisor) == is_divisor;
        let is_there = (test.function == ask.function) & is_alike;
        if is_there & (!is_divisor | (test.line == ask.line)) {
            exit = test.exit;
        }
    }
    if (exit == blocks.len()) & !is_divisor {
        return shared_end(memory, blocks, ask.line);
    }
    if exit == blocks.len() {
        let word = number_in(EXIT_WORD, kind.exit_word(ask.line));
        push_block(memory, blocks, &word, (End::Exit, None), ask.line);
    }
    exit
}

/// Whether a test isn't needed, by what is known where it begins.
fn is_needless(test: &Test, ranges: &Ranges) -> bool {
    let Some(cells) = ranges.cells(test.function, test.head) else {
        return true;
    };
    let plan = &test.plan;
    match range_in(cells, plan.register as u16) {
        Some(range) if matches!(plan.kind, TestKind::Divisor) => excludes_zero(range),
        Some(range) => {
            let is_above = plan.bounds.lo <= range.lo as i64;
            let is_below = range.hi as i64 <= plan.bounds.hi;
            is_above & is_below & (plan.alignment <= range.alignment)
        }
        None => false,
    }
}

/// A fault of the first function that has far more blocks than it may have.
fn check_blocks(program: &Program) -> Result<(), Fault> {
    for function in program.functions.as_slice() {
        let count = function.blocks.len() as u64;
        if count > 4 * MOST_BLOCKS {
            let reason = Reason::TooGreat {
                what: "the blocks of a function",
                count,
                most: MOST_BLOCKS,
            };
            return Err(Fault::new(function.line, reason));
        }
    }
    Ok(())
}

impl Tests {
    /// Cuts a block for a test, and puts that in. A division goes with its WRY to the test.
    fn put_test(&mut self, blocks: &mut Vec<Block>, ask: &Ask, plan: &TestPlan) -> Answer {
        let (memory, number, frame) = (&mut self.memory, ask.block, ask.frame);
        if plan.says_nothing {
            return Err("an address that can't be tested: a constant is stored to, or it wraps");
        }
        if number >= blocks.len() {
            return Ok(());
        }
        let Some(mut place) = place_of_test(frame, &blocks[number], plan) else {
            return make_place(memory, frame, blocks.as_mut_slice(), (number, plan.last));
        };
        let mut division = None;
        if matches!(plan.kind, TestKind::Divisor) {
            division = Some(take_division(memory, &mut blocks[number], frame, place)?);
            place = place.saturating_sub(1);
        }
        let mut test = Test {
            line: ask.line,
            function: ask.function,
            exit: exit_of(memory, blocks, self.list.as_slice(), ask, plan.kind),
            head: 0,
            rest: copy_block(memory, blocks, (number, place), true),
            plan: *plan,
        };
        let beyond = push_second(memory, blocks, (ask, place), &test);
        test.head = blocks.len();
        if let Some(steps) = &division {
            test.push_division(memory, blocks, steps.as_slice());
            test.rest = blocks.len().saturating_sub(1);
        } else {
            test.push_blocks(memory, blocks, beyond);
        }
        if number < blocks.len() {
            blocks[number].end = End::Jump(test.head);
        }
        memory.push(&mut self.list, test);
        Ok(())
    }

    /// Answers one ask. Tells why it can't be answered, if it can't.
    pub(crate) fn answer(&mut self, program: &mut Program, ask: &Ask) -> Answer {
        let plan = plan_of(program, ask);
        if ask.function >= program.functions.len() {
            return Ok(());
        }
        let blocks = &mut program.functions[ask.function].blocks;
        let instr = match (&ask.lack, &plan) {
            (_, Some(plan)) => return self.put_test(blocks, ask, plan),
            (NotShown::Divisible(..), None) => return Err("a division by 0"),
            (NotShown::Placed(access), None) => join_address(blocks.as_mut_slice(), ask, access),
            (NotShown::Given(_) | NotShown::Defined(_), None) => None,
        };
        let Some(instr) = instr else {
            return Err("an address that can't be tested");
        };
        let place = (ask.block, ask.place);
        insert_instr(&mut self.memory, blocks, place, instr, ask.line);
        Ok(())
    }

    /// Defines what may be undefined, before something is asked of it.
    fn define(&mut self, program: &mut Program, ranges: &mut Ranges) -> Result<(), Fault> {
        write_upper(&mut self.memory, program, &mut self.changed);
        if !self.changed.is_empty() {
            ranges.renew(program, self.changed.as_slice())?;
            self.changed.clear();
        }
        for _ in 0..ROUNDS {
            clear_undefined(&mut self.memory, program, ranges, &mut self.changed);
            if self.changed.is_empty() {
                break;
            }
            ranges.renew(program, self.changed.as_slice())?;
            self.changed.clear();
        }
        Ok(())
    }

    /// Writes a function's sums in a way of which more is known, in the blocks to which control comes.
    fn shorten(&mut self, code: &mut Function, ranges: &Ranges, number: usize, state: &mut State) {
        let (frame, results) = (code.frame, ranges.results());
        enter(code, ranges.params(number), false, state);
        let blocks = code.blocks.as_mut_slice();
        for place in 0..blocks.len() {
            if let Some(cells) = ranges.cells(number, place) {
                start(cells, false, state);
            }
            let live = live_behind(blocks[place].end, ranges.live(number));
            let steps = blocks[place].steps.as_mut_slice();
            if ranges.reaches(number, place) {
                let (is_changed, wraps) = shorten_steps(frame, results, steps, live, state);
                if is_changed {
                    self.memory.push(&mut self.changed, (number, place));
                }
                if wraps {
                    self.memory.push(&mut self.wrapping, number);
                }
            }
        }
    }

    /// Takes out the tests that aren't needed: control goes by them.
    fn drop_needless(&mut self, program: &mut Program, ranges: &Ranges) {
        let functions = program.functions.as_mut_slice();
        for place in (0..self.list.len()).rev() {
            // fewer tests are left than there were
            if place < self.list.len() && is_needless(&self.list[place], ranges) {
                let test = self.list.remove(place);
                if test.function < functions.len() {
                    let blocks = functions[test.function].blocks.as_mut_slice();
                    if test.head < blocks.len() {
                        let block = &mut blocks[test.head];
                        block.steps.clear();
                        block.slot = None;
                        block.end = End::Jump(test.rest);
                    }
                }
                self.memory
                    .push(&mut self.changed, (test.function, test.head));
            }
        }
    }

    /// Makes the branches of a function's blocks of which one way can't be gone go the other one alone.
    fn close_ways(&mut self, blocks: &mut [Block], ranges: &Ranges, function: usize) {
        for number in 0..blocks.len() {
            let block = &mut blocks[number];
            let (first, second) = ranges.open_ways(function, number);
            if let End::Branch { taken, next, .. } = block.end
                && first != second
            {
                block.end = End::Jump(if first { taken } else { next });
                drop_compare(block);
                // what a test tells an end is told by a step where there is no other way
                let (slot, line) = (block.slot, block.line);
                block.slot = None;
                if first && let Some(held) = slot {
                    let told = Some(held.instr());
                    push_instrs(&mut self.memory, &mut block.steps, &[told], line);
                }
                self.memory.push(&mut self.changed, (function, number));
            }
        }
    }

    /// What is done in a round, where the ranges are those of the program as it stands: what isn't shown is answered,
    /// or, where all is, ways that can't be gone are taken out.
    fn round(&mut self, program: &mut Program, ranges: &Ranges, is_shown: bool, state: &mut State) {
        for function in 0..program.functions.len() {
            if is_shown && function < program.functions.len() {
                let blocks = program.functions[function].blocks.as_mut_slice();
                self.close_ways(blocks, ranges, function);
            } else if self.refused.is_ok() {
                self.answer_function(program, ranges, function, state);
            }
        }
        self.looked = Looked::All;
    }

    /// Puts tests into a program, of which these are the ranges, round by round: until nothing is left that isn't
    /// shown, or can't be tested, or there is more of something than there may be.
    fn settle_rounds(
        &mut self,
        program: &mut Program,
        ranges: &mut Ranges,
        state: &mut State,
    ) -> Result<(), Fault> {
        for round in 0..ROUNDS {
            if !self.changed.is_empty() {
                ranges.renew(program, self.changed.as_slice())?;
                self.changed.clear();
                if let Looked::All = self.looked {
                    self.looked = Looked::Stale;
                }
            }
            if round < PATIENT {
                self.answered = Answered::Certain;
                self.round(program, ranges, false, state);
            }
            if self.changed.is_empty() {
                self.answered = answered_in(round);
                self.round(program, ranges, false, state);
            }
            if self.changed.is_empty() && self.drops > 0 {
                self.drops -= 1;
                self.drop_needless(program, ranges);
                self.round(program, ranges, true, state);
            }
            if self.refused.is_err() | self.memory.is_refused | self.changed.is_empty() {
                break;
            }
            check_blocks(&*program)?;
        }
        Ok(())
    }

    /// Puts tests into a program, of which these are the ranges, until nothing is left that isn't shown. Tells what
    /// can't be tested, where a division by 0 is one of any function, and of what there is more than there may be.
    fn settle(
        &mut self,
        program: &mut Program,
        ranges: &mut Ranges,
        state: &mut State,
    ) -> Result<(), Fault> {
        self.settle_rounds(program, ranges, state)?;
        if self.memory.is_refused {
            return Err(Fault::from(AllocError));
        }
        if let (Some(ask), Err(what)) = (&self.asked, self.refused) {
            // what an instruction reads of Y or codes that nothing sets is undefined, and so is what it writes
            check_forms(program, ranges)?;
            let is_by_zero = matches!(ask.lack, NotShown::Divisible(Operand::Immediate(_), _));
            if is_by_zero || ask.function >= program.functions.len() {
                return Err(Fault::new(ask.line, Reason::Unreadable(what)));
            }
            let function = program.functions[ask.function].name.clone()?;
            return Err(Fault::new(ask.line, Reason::Form { function, what }));
        }
        if self.changed.is_empty() {
            check_forms(program, ranges)?;
            return ranges.check_limits(program);
        }
        let (what, most) = ("rounds of tests", u64::from(ROUNDS));
        let line = self.asked.as_ref().map_or(NO_LINE, |ask| ask.line);
        Err(Fault::new(line, Reason::TooMany { what, most }))
    }
}

/// Puts tests into a program, of which these are the ranges, until nothing is left that isn't shown. The ranges are
/// then those of the program with its tests.
pub fn add_tests(
    alloc: Global,
    options: TestOptions,
    program: &mut Program,
    ranges: &mut Ranges,
    state: &mut State,
) -> Result<Vec<Test>, Fault> {
    let mut tests = Tests {
        by_object: options.by_object,
        drops: if options.drops { DROPS } else { 0 },
        list: Vec::new(alloc),
        wrapping: Vec::new(alloc),
        answered: Answered::Certain,
        looked: Looked::Nothing,
        shown: Vec::new(alloc),
        changed: Vec::new(alloc),
        memory: Heap::new(alloc),
        asked: None,
        refused: Ok(()),
    };
    tests.define(program, ranges)?;
    name_derived(&mut tests.memory, program, &*ranges, state);
    let functions = program.functions.as_mut_slice();
    for number in 0..functions.len() {
        tests.shorten(&mut functions[number], ranges, number, state);
    }
    match tests.settle(program, ranges, state) {
        Ok(()) => Ok(tests.list),
        Err(fault) => Err(fault),
    }
}

//! Arguments in memory. A function that isn't called again before it returns has one place in the data for the
//! arguments that its callers leave at `%sp + 64` and behind: the address of a struct that is returned, the seventh
//! argument and further ones. The others have them on the soft stack, where their callers leave them.
use fit_blocks::{MemoryAccess, access_of, signed};
use fit_code::{Block, End, Function, Heap, Instruction, Step, with_operands};
use v8_formats::{Instr, Operand, Three, Upper};
use v8_word::{Reg, reg_at};

/// Where arguments in memory begin, from the stack pointer on.
const FIRST: i64 = 64;

/// How many bytes of arguments a function may have in memory.
pub const BYTES: usize = 512;

/// The register that holds the address of a place in the data for the instruction behind it.
pub fn scratch() -> Reg {
    reg_at(6, 0)
}

/// The access of a step to an address in an object, behind SETHI of it; or, where a register is named, steps that leave
/// that address in it.
pub fn in_object(object: usize, address: u32, step: &Step, made: Option<Reg>) -> [Step; 2] {
    let operand2 = Operand::Immediate(address & 0x3ff);
    let (base, instr) = match made {
        Some(rd) => {
            let rs1 = rd;
            (rd, Instr::Or(Three { rd, rs1, operand2 }))
        }
        None => (scratch(), with_operands(&step.instr(), scratch(), operand2)),
    };
    let high = Instr::Sethi(Upper {
        rd: base,
        imm22: address >> 10,
    });
    let object = Some(object);
    let first = Step {
        instruction: Instruction::of(high),
        object,
        ..*step
    };
    let second = Step {
        instruction: Instruction::of(instr),
        object,
        ..*step
    };
    [first, second]
}

/// What a step reaches in the data: the number of an object, or of the function whose arguments it is; the place there;
/// the register that the step leaves the place's address in, where it makes that alone; and what goes on with it there.
pub type ReachedPlace = (usize, i64, Option<Reg>, Option<Step>);

/// An argument in memory, or a part: how far it is from the first one, and how many bytes of it there are.
#[derive(Clone, Copy)]
struct Argument {
    offset: i64,
    bytes: u32,
}

impl Argument {
    /// How far its end is from the first argument.
    fn end(&self) -> i64 {
        self.offset.saturating_add(i64::from(self.bytes))
    }

    /// Whether a step of a function with a window stores something else in all of its place.
    fn is_lost_by(&self, step: &Step) -> bool {
        if let Some(access) = access_of(&step.instr())
            && access.stores
            && let Some(stored) = argument_at(&access, Reg::SP, 0)
        {
            return stored.offset <= self.offset && self.end() <= stored.end();
        }
        false
    }
}

/// What an access reaches of the arguments in memory behind a register and so much room, where it names that register
/// and a number, and its bytes are arguments.
fn argument_at(access: &MemoryAccess, register: Reg, room: i64) -> Option<Argument> {
    let offset = argument_offset(&access.fields, register, room)?;
    let bytes = access.bytes;
    let argument = Argument { offset, bytes };
    if argument.end() <= BYTES as i64 {
        Some(argument)
    } else {
        None
    }
}

/// The functions of a source, and what calls through pointers, which has the number behind theirs.
#[derive(Clone, Copy)]
pub struct Callees<'s> {
    /// For each whether its frame lies on the soft stack.
    pub are_soft: &'s [bool],
    /// For each how many bytes of arguments in memory it has to do with.
    pub bytes: &'s [i64],
    /// For each those that a call of it may come to.
    pub reached: &'s [Vec<usize>],
}

/// What steps have to do with an argument in memory that is stored before them.
enum NextUse {
    /// They call a function that takes it, by its number.
    Taken(usize),
    /// They store something else in its place before.
    Lost,
    /// Nothing: what comes behind them may.
    Later,
}

/// What is told of an argument in memory that is stored once for calls of several functions.
const FOR_SEVERAL: &str = "an argument in memory, for more functions than one";

/// What is told of an argument in memory that another call may write before its own: functions have one place each for
/// theirs.
const OVER_A_CALL: &str =
    "an argument in memory over a call that may come to the function that takes it";

impl Callees<'_> {
    /// Whether a function, by its number in the source, has its frame on the soft stack.
    pub fn is_soft(&self, number: usize) -> bool {
        number < self.are_soft.len() && self.are_soft[number]
    }

    /// The first of steps that has to do with an argument in memory. Those that are called before it are put behind
    /// those of a list.
    fn next_use(
        &self,
        memory: &mut Heap,
        steps: &[Step],
        argument: &Argument,
        passed: &mut Vec<usize>,
    ) -> NextUse {
        for step in steps {
            if let Some(callee) = step.callee {
                if callee < self.bytes.len() && argument.offset < self.bytes[callee] {
                    return NextUse::Taken(callee);
                }
                memory.push(passed, callee);
            } else if argument.is_lost_by(step) {
                return NextUse::Lost;
            }
        }
        NextUse::Later
    }

    /// Whether a call of one of some functions may come to another one.
    fn come_to(&self, functions: &[usize], other: usize) -> bool {
        let mut come = false;
        for number in functions {
            come |= *number < self.reached.len() && self.reached[*number].contains(&other);
        }
        come
    }

    /// The function that takes an argument, if there is one, where these are called before it.
    ///
    /// # Errors
    /// Where one of them may come to it, and it has one place for its arguments.
    fn taking(
        &self,
        found: Option<usize>,
        passed: &[usize],
    ) -> Result<Option<usize>, &'static str> {
        match found {
            Some(callee) if !self.is_soft(callee) && self.come_to(passed, callee) => {
                Err(OVER_A_CALL)
            }
            _ => Ok(found),
        }
    }
}

/// The function that takes an argument in memory next behind the end of a block, on each way on which it isn't stored
/// anew before. What is called before that is put behind a list's.
///
/// # Errors
/// Where it is another one on another way.
fn taking_behind(
    memory: &mut Heap,
    blocks: &[Block],
    end: End,
    argument: &Argument,
    (callees, calls): (Callees, &mut Vec<usize>),
) -> Result<Option<usize>, &'static str> {
    let mut open = Vec::new(memory.alloc);
    memory.push_ways(&mut open, end);
    let mut found = None;
    let mut passed = memory.repeat(false, blocks.len());
    let seen = passed.as_mut_slice();
    // each block is looked at once, and has two ways to others
    for _ in 0..blocks.len().saturating_mul(2).saturating_add(2) {
        let Some(number) = open.pop() else {
            break;
        };
        if (number < blocks.len()) & (number < seen.len()) && !seen[number] {
            seen[number] = true;
            let steps = blocks[number].steps.as_slice();
            match callees.next_use(memory, steps, argument, calls) {
                NextUse::Taken(callee) => match found {
                    Some(other) if other != callee => return Err(FOR_SEVERAL),
                    _ => found = Some(callee),
                },
                NextUse::Lost => (),
                NextUse::Later => memory.push_ways(&mut open, blocks[number].end),
            }
        }
    }
    Ok(found)
}

/// The function that an argument in memory is stored for, at a place of a block: the one that is called next of those
/// that take it, if it isn't stored anew before. gcc stores arguments before other calls, too, where it knows that these
/// leave them alone, and stores what the function that is called doesn't ask for.
///
/// # Errors
/// Where it is another one on another way, and where one that is called before it may come to it.
fn stored_for(
    memory: &mut Heap,
    blocks: &[Block],
    (block, place): (usize, usize),
    argument: &Argument,
    callees: Callees,
) -> Result<Option<usize>, &'static str> {
    let Some(from) = blocks.get(block) else {
        return Ok(None);
    };
    let mut calls = Vec::new(memory.alloc);
    let behind = from
        .steps
        .as_slice()
        .get(place.saturating_add(1)..)
        .unwrap_or(&[]);
    let found = match callees.next_use(memory, behind, argument, &mut calls) {
        NextUse::Taken(callee) => Some(callee),
        NextUse::Lost => None,
        NextUse::Later => {
            taking_behind(memory, blocks, from.end, argument, (callees, &mut calls))?
        }
    };
    callees.taking(found, calls.as_slice())
}

/// The most bytes that a block's steps take from %sp, as far as numbers say it.
fn room_taken_in(block: &Block) -> i64 {
    let mut most: i64 = 0;
    for step in block.steps.as_slice() {
        if let Instr::Add(fields) | Instr::Sub(fields) = step.instr()
            && fields.rd == Reg::SP
            && let Operand::Immediate(number) = fields.operand2
        {
            most = most.max(signed(number).saturating_abs());
        }
    }
    most
}

/// The bytes that a function without a window takes from %sp, as far as numbers say it.
fn room_taken(function: &Function) -> i64 {
    let mut most: i64 = 0;
    if !function.framed {
        for block in function.blocks.as_slice() {
            most = most.max(room_taken_in(block));
        }
    }
    most
}

/// What a step reaches behind a register, and how many bytes of it, as far as it may be an argument in memory: where it
/// takes the address of one, all there may be.
fn reach_of(step: &Step) -> Option<(Three, i64)> {
    match step.instr() {
        Instr::Add(fields) if fields.rd != Reg::SP => Some((fields, BYTES as i64)),
        _ => {
            let access = access_of(&step.instr())?;
            Some((access.fields, i64::from(access.bytes)))
        }
    }
}

/// The end of the arguments in memory that a block has to do with, behind a register and so much room.
fn argument_bytes_in(block: &Block, base: Reg, room: i64) -> i64 {
    let mut end: i64 = 0;
    for step in block.steps.as_slice() {
        if let Some((fields, bytes)) = reach_of(step)
            && let Some(offset) = argument_offset(&fields, base, room)
        {
            end = end.max(offset.saturating_add(bytes));
        }
    }
    end
}

/// How many bytes of the arguments that its callers leave in memory a function has to do with: all there may be, where
/// it takes the address of one.
pub fn argument_bytes(function: &Function) -> i64 {
    let base = if function.framed { Reg::FP } else { Reg::SP };
    let room = room_taken(function);
    let mut end: i64 = 0;
    for block in function.blocks.as_slice() {
        end = end.max(argument_bytes_in(block, base, room));
    }
    end
}

/// How far from the first argument in memory operands are, where they are a register, behind so much room, and a number
/// from there on.
fn argument_offset(fields: &Three, base: Reg, room: i64) -> Option<i64> {
    let Operand::Immediate(number) = fields.operand2 else {
        return None;
    };
    let offset = signed(number).saturating_sub(room).saturating_sub(FIRST);
    if (fields.rs1 == base) & (0 <= offset) {
        Some(offset)
    } else {
        None
    }
}

/// Whether a block, by its number, leaves arguments in memory for a function whose frame lies on the soft stack.
fn block_leaves_for_soft(
    memory: &mut Heap,
    blocks: &[Block],
    number: usize,
    callees: Callees,
) -> bool {
    if number >= blocks.len() {
        return false;
    }
    for (place, step) in blocks[number].steps.as_slice().iter().enumerate() {
        let at = (number, place);
        if let Some(access) = access_of(&step.instr())
            && access.stores
            && let Some(argument) = argument_at(&access, Reg::SP, 0)
            && let Ok(Some(callee)) = stored_for(memory, blocks, at, &argument, callees)
            && callees.is_soft(callee)
        {
            return true;
        }
    }
    false
}

/// Whether a function leaves arguments in memory for one whose frame lies on the soft stack.
pub fn leaves_for_soft(memory: &mut Heap, function: &Function, callees: Callees) -> bool {
    let blocks = function.blocks.as_slice();
    let mut leaves = false;
    if function.framed {
        for number in 0..blocks.len() {
            leaves |= block_leaves_for_soft(memory, blocks, number, callees);
        }
    }
    leaves
}

/// The access that an instruction makes, or that of no bytes to a sum; and the register that the sum goes to.
fn access_or_sum(instr: &Instr) -> Option<(MemoryAccess, Option<Reg>)> {
    match *instr {
        Instr::Add(fields) if fields.rd != Reg::SP => {
            let access = MemoryAccess {
                fields,
                bytes: 0,
                stores: false,
            };
            Some((access, Some(fields.rd)))
        }
        _ => {
            let access = access_of(instr)?;
            Some((access, None))
        }
    }
}

/// What a step of a function, by its block and its place there, has to do with arguments in memory: an access to them,
/// and a sum that is the address of the function's own. `number` is the function's own in the source, `room` what it
/// takes from %sp without a window; of those that have a soft frame it has nothing to do with such that lie there, and
/// nobody with such that no function takes.
///
/// # Errors
/// Where an argument is stored for more functions than one.
pub fn argument_of(
    memory: &mut Heap,
    blocks: &[Block],
    (framed, room): (bool, u32),
    number: usize,
    (block, place): (usize, usize),
    step: &Step,
    callees: Callees,
) -> Result<Option<ReachedPlace>, &'static str> {
    let Some((access, made)) = access_or_sum(&step.instr()) else {
        return Ok(None);
    };
    let base = if framed { Reg::FP } else { Reg::SP };
    if let Some(argument) = argument_at(&access, base, i64::from(room)) {
        return Ok(if callees.is_soft(number) {
            None
        } else {
            Some((number, argument.offset, made, None))
        });
    }
    match argument_at(&access, Reg::SP, 0) {
        Some(argument) if framed & access.stores => {
            match stored_for(memory, blocks, (block, place), &argument, callees)? {
                Some(callee) if !callees.is_soft(callee) => {
                    Ok(Some((callee, argument.offset, None, None)))
                }
                _ => Ok(None),
            }
        }
        _ => Ok(None),
    }
}

//! Frames. Words that are only spilled stay in the frame; where an address in it is taken, or other sizes are, the
//! frame's memory goes to the data. That of a function that may be called again before it returns goes to the soft
//! stack.
use crate::arguments::{BYTES, Callees, ReachedPlace, argument_of, in_object, scratch};
use crate::moving::{
    UNKNOWN_FORM, arguments_end, free_local, hold_base, is_by_frame, is_moving, push_by_pointer,
    push_moving,
};
use crate::places::{
    FRAME, SAVE_AREA, address_made, by_scratch, place_accessed, word_place, word_step,
};
use fit_blocks::{Layout, Stops, signed};
use fit_code::{
    Block, End, Function, Heap, Instruction, RegisterSet, Step, operands_read, reads,
    with_operands, writes,
};
use fit_gas::{owned, word_of};
use v8_formats::{Instr, Operand, Three, Upper};
use v8_word::Reg;

const UNKNOWN_SIZE: &str = "an array of a size that isn't constant";

/// The most bytes that a function may take from %sp.
const MOST: i64 = 262_144;

/// How the steps of a function are put otherwise.
#[derive(Clone, Copy)]
enum FrameWay {
    /// Accesses to arguments in memory, of the function of a number in the source, which takes so much room from %sp
    /// without a window.
    Arguments(usize, u32),
    /// Those that spill words to a frame of so many bytes, by %sp.
    Spills(u32),
    /// Those that use a frame of so many bytes, with the object of a number in its place.
    Object(usize, u32),
    /// Those that use a frame of so many bytes, on the soft stack.
    Soft(u32),
    /// Those that use a frame of so many bytes by %fp, with the object of a number in its place.
    ObjectByFrame(usize, u32),
    /// Accesses by %sp from so many bytes on, behind the arguments in memory of those that it calls.
    Behind(i64),
    /// Those that use a frame of so many bytes on the soft stack, whose pointer moves on in it: a register holds where
    /// it was before.
    Moving(u32, Reg),
}

/// The functions whose frames lie on the soft stack, and what points into it.
#[derive(Clone, Copy)]
pub struct SoftFrames<'s> {
    pub register: Reg,
    /// The function that a run begins at, by its number in the source.
    pub first: usize,
    pub callees: Callees<'s>,
}

/// The register next to an even one.
fn next_register(register: Reg) -> Reg {
    Reg::new(register.number() + 1).unwrap_or(register)
}

/// A step, by %sp where it spills words, a double word as two.
fn spilled(step: &Step, size: u32) -> (Step, Option<Step>) {
    let Some((access, place)) = word_place(&step.instr(), size) else {
        return (*step, None);
    };
    let rd = access.fields.rd;
    let first = word_step(step, access.stores, place, rd);
    let second = if access.bytes < 8 {
        None
    } else {
        let behind = place.saturating_add(4);
        Some(word_step(step, access.stores, behind, next_register(rd)))
    };
    (first, second)
}

/// Whether a step reads %sp or %fp.
fn uses_frame(step: &Step) -> bool {
    step.callee.is_none() && !reads(&step.instr()).is_disjoint(RegisterSet::STACK)
}

/// What a step does with a frame of some size that has an object in its place, as `argument_of` tells it; and the step
/// that goes on with the address that was made.
///
/// # Errors
/// An address in the frame in a form that isn't known, and an access outside of it.
fn reached(step: &Step, object: usize, size: u32) -> Result<Option<ReachedPlace>, &'static str> {
    if !uses_frame(step) {
        return Ok(None);
    }
    if let Some((access, place)) = place_accessed(&step.instr(), size) {
        let end = place.saturating_add(i64::from(access.bytes));
        if (place < 0) | (i64::from(size) < end) {
            return Err("an access to the stack outside of its frame");
        }
        Ok(Some((object, place, None, None)))
    } else if let Some((place, rd)) = address_made(&step.instr(), size) {
        Ok(Some((object, place, Some(rd), None)))
    } else if let Some((base, moved)) = by_scratch(step, object, size) {
        Ok(Some((object, base, Some(scratch()), Some(moved))))
    } else {
        Err(UNKNOWN_FORM)
    }
}

/// Pushes a step of a function whose frame of some size lies on the soft stack, into which a register points; says
/// whether it is of a form that is known.
pub fn push_softened(
    memory: &mut Heap,
    steps: &mut Vec<Step>,
    step: &Step,
    register: Reg,
    size: u32,
) -> bool {
    if !uses_frame(step) {
        memory.push(steps, *step);
    } else if let Some((_, place)) = place_accessed(&step.instr(), size) {
        let operand2 = push_offset(memory, steps, step, place);
        let instr = with_operands(&step.instr(), register, operand2);
        memory.push(
            steps,
            Step {
                instruction: Instruction::of(instr),
                ..*step
            },
        );
    } else if let Some((place, rd)) = address_made(&step.instr(), size) {
        push_address(memory, steps, step, (rd, register, place));
    } else if let Some((base, moved)) = by_scratch(step, 0, size) {
        push_address(memory, steps, step, (scratch(), register, base));
        memory.push(
            steps,
            Step {
                object: None,
                ..moved
            },
        );
    } else {
        return false;
    }
    true
}

/// The operand that is a number; a great one is put into the scratch register first.
fn push_offset(memory: &mut Heap, steps: &mut Vec<Step>, step: &Step, number: i64) -> Operand {
    if (-4096 <= number) & (number <= 4095) {
        return Operand::Immediate(word_of(number));
    }
    let rd = scratch();
    let imm22 = word_of(number) >> 10;
    let instr = Instr::Sethi(Upper { rd, imm22 });
    memory.push(
        steps,
        Step {
            instruction: Instruction::of(instr),
            ..*step
        },
    );
    let operand2 = Operand::Immediate(word_of(number) & 0x3ff);
    let instr = Instr::Or(Three {
        rd,
        rs1: rd,
        operand2,
    });
    memory.push(
        steps,
        Step {
            instruction: Instruction::of(instr),
            ..*step
        },
    );
    Operand::Register(rd)
}

/// Pushes what leaves in a register the word of another one and a number.
pub fn push_address(
    memory: &mut Heap,
    steps: &mut Vec<Step>,
    step: &Step,
    (rd, rs1, number): (Reg, Reg, i64),
) {
    let operand2 = push_offset(memory, steps, step, number);
    let instr = Instr::Add(Three { rd, rs1, operand2 });
    memory.push(
        steps,
        Step {
            instruction: Instruction::of(instr),
            ..*step
        },
    );
}

/// Whether a step takes room from %sp, in a function that has no window.
fn takes_room(framed: bool, step: &Step) -> bool {
    !framed && writes(&step.instr()).contains(Reg::SP)
}

/// Whether a function uses its frame of some size; and whether for more than to spill words. It is a fault where a step
/// changes %sp or %fp, but to take room, and where a return hands on an address in the frame.
fn use_of(stops: &mut Stops, function: &Function, size: u32) -> (bool, bool) {
    let mut is_used = false;
    let mut is_more = false;
    let mut returns = false;
    for block in function.blocks.as_slice() {
        let (uses, does_more) = use_of_block(stops, function.framed, block, size);
        is_used |= uses;
        is_more |= does_more;
        returns |= returns_frame(block);
    }
    if returns {
        stops.form(function.line, "a return with an address in its frame");
    }
    (is_used, is_more)
}

/// Whether a block returns an address in its function's frame.
fn returns_frame(block: &Block) -> bool {
    match block.end {
        End::Return(fields) => {
            !operands_read(fields.rs1, fields.operand2).is_disjoint(RegisterSet::STACK)
        }
        _ => false,
    }
}

/// Whether a block uses a frame of some size, and whether for more than to spill words. It is a fault where a step
/// changes %sp or %fp, but to take room.
fn use_of_block(stops: &mut Stops, framed: bool, block: &Block, size: u32) -> (bool, bool) {
    let mut is_used = false;
    let mut is_more = false;
    for step in block.steps.as_slice() {
        if takes_room(framed, step) {
            continue;
        } else if !writes(&step.instr()).is_disjoint(RegisterSet::STACK) {
            stops.form(step.line, UNKNOWN_SIZE);
        } else if uses_frame(step) {
            is_used = true;
            is_more |= word_place(&step.instr(), size).is_none();
        }
    }
    (is_used, is_more)
}

/// Pushes what stands for a step of a function that stays in its frame, or whose frame lies on the soft stack: nothing
/// where it takes room from %sp. Says whether it is one of these.
fn push_in_frame(
    layout: &mut Layout,
    steps: &mut Vec<Step>,
    (framed, way): (bool, &FrameWay),
    step: &Step,
    soft: &SoftFrames,
) -> bool {
    let memory = &mut layout.stops.memory;
    let is_known = match *way {
        FrameWay::Behind(from) => {
            push_by_pointer(memory, steps, step, soft.register, from);
            true
        }
        FrameWay::Moving(size, base) => {
            push_moving(memory, steps, step, (soft.register, base), size)
        }
        FrameWay::Arguments(_, _) => return false,
        _ if takes_room(framed, step) => true,
        FrameWay::Soft(size) => push_softened(memory, steps, step, soft.register, size),
        FrameWay::Spills(size) => {
            push_spilled(memory, steps, step, size);
            true
        }
        FrameWay::Object(_, _) | FrameWay::ObjectByFrame(_, _) => return false,
    };
    if !is_known {
        layout.stops.form(step.line, UNKNOWN_FORM);
    }
    true
}

/// Pushes a step, by %sp where it spills words.
fn push_spilled(memory: &mut Heap, steps: &mut Vec<Step>, step: &Step, size: u32) {
    let (first, second) = spilled(step, size);
    let pushed = match second {
        Some(second) => steps.extend_from_slice(&[first, second]),
        None => steps.extend_from_slice(&[first]),
    };
    memory.take(pushed);
}

/// What a step of a function, by its block and its place there, reaches in the data, where its frame lies there.
///
/// # Errors
/// Those of `reached` and `argument_of`.
fn reached_in(
    memory: &mut Heap,
    blocks: &[Block],
    (framed, way): (bool, &FrameWay),
    at: (usize, usize),
    step: &Step,
    soft: &SoftFrames,
) -> Result<Option<ReachedPlace>, &'static str> {
    match *way {
        FrameWay::Arguments(_, _) if takes_room(framed, step) => Ok(None),
        FrameWay::ObjectByFrame(_, _) if !is_by_frame(step) => Ok(None),
        FrameWay::Object(object, size) | FrameWay::ObjectByFrame(object, size) => {
            reached(step, object, size)
        }
        FrameWay::Arguments(number, room) => {
            let function = (framed, room);
            argument_of(memory, blocks, function, number, at, step, soft.callees)
        }
        _ => Ok(None),
    }
}

/// Pushes what stands for a step of a function that reaches something in the data.
fn push_reached(
    layout: &mut Layout,
    steps: &mut Vec<Step>,
    way: &FrameWay,
    step: &Step,
    found: &ReachedPlace,
) {
    let (whose, offset, made, _) = *found;
    let object = match *way {
        FrameWay::Arguments(_, _) => layout.arguments_of(whose, BYTES, step.line),
        _ => whose,
    };
    let address = layout.address(object, offset);
    layout.name_outside(object, address);
    let placed = in_object(object, address, step, made);
    let memory = &mut layout.stops.memory;
    memory.take(steps.extend_from_slice(&placed));
    if let Some(moved) = found.3 {
        memory.take(steps.extend_from_slice(&[moved]));
    }
}

/// Pushes what stands for a step of a function, by its block and its place there.
fn push_placed(
    layout: &mut Layout,
    steps: &mut Vec<Step>,
    blocks: &[Block],
    (framed, way): (bool, &FrameWay),
    at: (usize, usize),
    step: &Step,
    soft: &SoftFrames,
) {
    if !push_in_frame(layout, steps, (framed, way), step, soft) {
        let memory = &mut layout.stops.memory;
        match reached_in(memory, blocks, (framed, way), at, step, soft) {
            Ok(Some(found)) => push_reached(layout, steps, way, step, &found),
            Ok(None) => layout.stops.memory.push(steps, *step),
            Err(what) => layout.stops.form(step.line, what),
        }
    }
}

/// How a function's frame is put in order.
#[derive(Clone, Copy)]
pub struct PlacedFrame {
    /// How many bytes it has on the soft stack.
    pub bytes: u32,
    /// Whether what points there is moved otherwise than to take the frame and give it back; and the register that
    /// holds where the frame lies then, if one does, else %g0.
    pub is_moving: bool,
    pub base: Reg,
}

/// Puts the steps of a function otherwise.
fn place_steps(layout: &mut Layout, function: &mut Function, way: FrameWay, soft: &SoftFrames) {
    for number in 0..function.blocks.len() {
        let steps = placed_steps(layout, &*function, number, &way, soft);
        let blocks = function.blocks.as_mut_slice();
        if number < blocks.len() {
            blocks[number].steps = steps;
        }
    }
}

/// What stands for the steps of a function's block, by its number.
fn placed_steps(
    layout: &mut Layout,
    function: &Function,
    number: usize,
    way: &FrameWay,
    soft: &SoftFrames,
) -> Vec<Step> {
    let framed = function.framed;
    let mut steps = Vec::new(layout.stops.memory.alloc);
    let blocks = function.blocks.as_slice();
    if number < blocks.len() {
        for (place, step) in blocks[number].steps.as_slice().iter().enumerate() {
            let at = (number, place);
            push_placed(layout, &mut steps, blocks, (framed, way), at, step, soft);
        }
    }
    steps
}

/// The most bytes that the steps of a block take from %sp, in a function without a window; below 0 where none takes
/// any. It is a fault where that isn't known.
fn room_of_block(stops: &mut Stops, block: &Block) -> i64 {
    let mut most: i64 = -1;
    for step in block.steps.as_slice() {
        if takes_room(false, step) {
            if let Instr::Add(fields) | Instr::Sub(fields) = step.instr()
                && fields.rs1 == Reg::SP
                && let Operand::Immediate(number) = fields.operand2
            {
                most = most.max(signed(number).saturating_abs());
            } else {
                stops.form(step.line, UNKNOWN_SIZE);
            }
        }
    }
    most
}

/// How many bytes the steps of a function without a window take from %sp, where there are such steps. It is a fault
/// where that isn't known.
fn room_of(stops: &mut Stops, function: &Function) -> Option<u32> {
    let mut most: i64 = -1;
    if !function.framed {
        for block in function.blocks.as_slice() {
            most = most.max(room_of_block(stops, block));
        }
    }
    if most < 0 {
        None
    } else {
        Some(most.min(MOST) as u32)
    }
}

/// The object in the data for a frame of so many bytes, at a multiple of some.
fn frame_object(layout: &mut Layout, function: &Function, size: u32, align: u32) -> FrameWay {
    let mut name = owned(&mut layout.stops.memory, "frame of ");
    let pushed = name.push_str(function.name.as_str());
    layout.stops.memory.take(pushed);
    let object = layout.add(name, align, &[], size as usize, function.line);
    FrameWay::Object(object, size)
}

/// Puts a function's frame in order, by its number in the source and what its address is a multiple of: steps that only
/// spill words by %sp, else an object in the data in its place, or the soft stack. Before that, what it does with
/// arguments in memory. Says what it has on the soft stack. These are faults: an array whose size isn't constant; an
/// argument that is stored for more functions than one; an address in the frame in a form that isn't known; an access
/// outside of it.
pub fn place_frame(
    layout: &mut Layout,
    function: &mut Function,
    (number, align): (usize, u32),
    soft: &SoftFrames,
) -> PlacedFrame {
    if align > 8 && soft.callees.is_soft(number) {
        layout.stops.form(function.line, UNKNOWN_FORM);
    }
    if is_moving(function) {
        return place_moving(layout, function, number, soft);
    }
    let room = room_of(&mut layout.stops, function);
    let arguments = FrameWay::Arguments(number, room.unwrap_or(0));
    place_steps(layout, function, arguments, soft);
    let size = room.unwrap_or(function.frame);
    let (is_used, is_more) = use_of(&mut layout.stops, function, size);
    let is_soft = soft.callees.is_soft(number);
    let stays = is_used & !is_more & function.framed & (size % 8 == 0) & (size <= FRAME) & !is_soft;
    let way = if is_soft {
        FrameWay::Soft(size)
    } else if stays | !is_used {
        FrameWay::Spills(size)
    } else {
        frame_object(layout, function, size, align)
    };
    place_steps(layout, function, way, soft);
    if function.framed & !stays {
        function.frame = SAVE_AREA;
    }
    PlacedFrame {
        bytes: if is_soft { whole(size) } else { 0 },
        is_moving: false,
        base: Reg::G0,
    }
}

/// The next multiple of 8.
fn whole(size: u32) -> u32 {
    size.saturating_add(7) & !7
}

/// The same of a function that moves what points into the soft stack otherwise. Its own frame lies there as well, and a
/// register holds where; that of the function that a run begins at is an object.
fn place_moving(
    layout: &mut Layout,
    function: &mut Function,
    number: usize,
    soft: &SoftFrames,
) -> PlacedFrame {
    let mut placed = PlacedFrame {
        bytes: 0,
        is_moving: true,
        base: Reg::G0,
    };
    if function.framed {
        let behind = FrameWay::Behind(arguments_end(function));
        place_steps(layout, function, behind, soft);
        place_steps(layout, function, FrameWay::Arguments(number, 0), soft);
        placed.bytes = whole(function.frame);
        if number == soft.first {
            place_first(layout, function, soft);
        } else {
            placed.base = base_of_frame(layout, function, soft.register);
        }
    }
    let way = FrameWay::Moving(placed.bytes, placed.base);
    place_steps(layout, function, way, soft);
    if placed.base != Reg::G0 {
        let registers = (soft.register, placed.base);
        hold_base(&mut layout.stops.memory, function, registers, placed.bytes);
    }
    if function.framed {
        function.frame = SAVE_AREA;
    }
    placed
}

/// Puts an object in the place of what the function that a run begins at has in its frame.
fn place_first(layout: &mut Layout, function: &mut Function, soft: &SoftFrames) {
    if let FrameWay::Object(object, size) = frame_object(layout, function, function.frame, 8) {
        let way = FrameWay::ObjectByFrame(object, size);
        place_steps(layout, function, way, soft);
    }
}

/// The register that is to hold where a function's frame lies; it is a fault where there is none.
fn base_of_frame(layout: &mut Layout, function: &Function, other: Reg) -> Reg {
    let base = free_local(function, other);
    if base == Reg::G0 {
        let what = "no register is left for the frame of an array of a size that isn't constant";
        layout.stops.form(function.line, what);
    }
    base
}

/// Puts an object in the data in the place of what a function still has in its frame.
pub fn empty_frame(layout: &mut Layout, function: &mut Function) {
    if function.framed & (function.frame > SAVE_AREA) {
        let way = frame_object(layout, function, function.frame, 8);
        let none = SoftFrames {
            register: Reg::G0,
            first: 0,
            callees: Callees {
                are_soft: &[],
                bytes: &[],
                reached: &[],
            },
        };
        place_steps(layout, function, way, &none);
        function.frame = SAVE_AREA;
    }
}

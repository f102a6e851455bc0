//! Addresses outside of an object that steps work out from its own, as `a - 35` where an index counts from 35. They
//! belong to it, wherever they lie: else an access by such a register would be held to the object that lies there.
use fit_cells::run_step;
use fit_code::{Block, Function, Heap, Object, Program, RegisterSet, Step};
use fit_live::effects_in;
use fit_origin::{end_of, object_at};
use fit_ranges::Ranges;
use sbx_domain::State;
use sbx_range::is_single;
use v8_formats::{Instr, Operand, Reg, Three};

/// So often is looked for what is worked out from what was found before.
const DERIVATIONS: u32 = 8;

/// The objects whose addresses registers hold, as far as steps of a block have worked them out.
type Held = [Option<usize>; 32];

/// An address that belongs to an object, by its number.
#[derive(Clone, Copy)]
struct Named {
    object: usize,
    address: u32,
}

/// The number that a register holds, where one is known.
fn number_of(register: Reg, state: &State) -> Option<i32> {
    match register.number() {
        0 => Some(0),
        number => {
            let range = state.range(u16::from(number))?;
            if is_single(range) {
                Some(range.lo)
            } else {
                None
            }
        }
    }
}

/// The object outside of which an address lies that belongs to it; nothing where that are two.
fn object_beside(program: &Program, address: u32) -> Option<usize> {
    let mut found = None;
    for (number, object) in program.objects.as_slice().iter().enumerate() {
        if !object.outside.is_empty() && object.outside.contains(&address) {
            if found.is_some() {
                return None;
            }
            found = Some(number);
        }
    }
    found
}

/// The object whose address a register holds: the one that steps of the block have worked it out from, else the one
/// that it belongs to though it lies outside, else the one that has that address. Where another one has it as well, an
/// access may be to either.
fn object_of(program: &Program, held: &Held, register: Reg, state: &State) -> Option<usize> {
    let number = number_of(register, state)?;
    match held[usize::from(register.number())] {
        Some(object) => Some(object),
        None => match object_beside(program, number.cast_unsigned()) {
            Some(object) => Some(object),
            None => object_at(program, i64::from(number)),
        },
    }
}

/// The object whose address an operand is.
fn object_in(program: &Program, held: &Held, operand: &Operand, state: &State) -> Option<usize> {
    match operand {
        Operand::Register(register) => object_of(program, held, *register, state),
        Operand::Immediate(_) => None,
    }
}

/// The object that a sum belongs to, where one of its parts is its address and the other one a number that is none.
fn object_of_sum(program: &Program, held: &Held, fields: &Three, state: &State) -> Option<usize> {
    let first = object_of(program, held, fields.rs1, state);
    let second = object_in(program, held, &fields.operand2, state);
    if first.is_some() & second.is_some() {
        None
    } else {
        first.or(second)
    }
}

/// The object whose address a step leaves in a register, where the state is that before the step.
fn object_behind(program: &Program, held: &Held, step: &Step, state: &State) -> Option<usize> {
    match &step.instr() {
        // the low half of an address that is named
        Instr::Add(_) | Instr::Or(_) if step.object.is_some() => step.object,
        Instr::Add(fields) | Instr::Or(fields) => object_of_sum(program, held, fields, state),
        Instr::Sub(fields) if object_in(program, held, &fields.operand2, state).is_none() => {
            object_of(program, held, fields.rs1, state)
        }
        _ => None,
    }
}

/// Takes in that a step leaves an object's address in what it writes, or none.
fn take(held: &mut Held, writes: RegisterSet, object: Option<usize>) {
    for register in 1..32u8 {
        if writes.has(register) {
            held[usize::from(register)] = object;
        }
    }
}

/// Whether an address is known as one of an object's.
fn has(object: &Object, address: u32) -> bool {
    let is_in = (object.start <= address) & (i64::from(address) < end_of(object));
    is_in || object.outside.contains(&address)
}

/// Adds the addresses outside of objects that a block's steps work out from theirs, where the state is that before the
/// first step.
fn add_named(
    memory: &mut Heap,
    (program, ranges): (&Program, &Ranges),
    (function, block): (&Function, &Block),
    found: &mut Vec<Named>,
    state: &mut State,
) {
    let objects = program.objects.as_slice();
    let mut held: Held = [None; 32];
    for step in block.steps.as_slice() {
        let behind = object_behind(program, &held, step, &*state);
        run_step(function.frame, ranges.results(), step, state);
        let writes = effects_in(function.frame, step).writes;
        take(&mut held, writes, behind);
        if let Some(object) = behind
            && object < objects.len()
            && let Some(register) = writes.first()
            && let Some(range) = state.range(u16::from(register.number()))
            && is_single(range)
        {
            let address = range.lo.cast_unsigned();
            if !has(&objects[object], address) {
                memory.push(found, Named { object, address });
            }
        }
    }
}

/// The addresses outside of objects that steps of a program work out from theirs, and that aren't known as theirs.
fn derived_in(
    memory: &mut Heap,
    program: &Program,
    ranges: &Ranges,
    state: &mut State,
) -> Vec<Named> {
    let mut found = Vec::new(memory.alloc);
    for number in 0..program.functions.len() {
        add_named_in(memory, (program, ranges), number, &mut found, state);
    }
    found
}

/// Lets the addresses outside of objects that steps of a program work out from theirs belong to them, and those that
/// other blocks work out from these.
pub fn name_derived(memory: &mut Heap, program: &mut Program, ranges: &Ranges, state: &mut State) {
    for _ in 0..DERIVATIONS {
        let found = derived_in(memory, &*program, ranges, state);
        if found.is_empty() {
            return;
        }
        add_outside(memory, program.objects.as_mut_slice(), found.as_slice());
    }
}

/// The same of the blocks of a function, by its number, to which control comes.
fn add_named_in(
    memory: &mut Heap,
    (program, ranges): (&Program, &Ranges),
    number: usize,
    found: &mut Vec<Named>,
    state: &mut State,
) {
    if number >= program.functions.len() {
        return;
    }
    let function = &program.functions[number];
    for (place, block) in function.blocks.as_slice().iter().enumerate() {
        if ranges.begin_block(program, number, place, state) {
            add_named(memory, (program, ranges), (function, block), found, state);
        }
    }
}

/// Lets addresses belong to their objects.
fn add_outside(memory: &mut Heap, objects: &mut [Object], found: &[Named]) {
    for named in found {
        if named.object < objects.len() {
            let object = &mut objects[named.object];
            if !has(&*object, named.address) {
                memory.push(&mut object.outside, named.address);
            }
        }
    }
}

//! The functions of a source.
use crate::annotations::{Annotations, BlockNotes, FunctionNotes};
use crate::data::push_data;
use crate::names::names_of;
use crate::text::SourceText;
use fit_code::{
    Block, End, Fault, Function, Heap, Instruction, NO_LINE, Program, Range, Reason, SourceLine,
    Step,
};
use inspect_image::{Bounds, Location};
use std::alloc::{AllocError, Global};
use v8_formats::{Instr, Operand, Trap};
use v8_forms::suffixes;
use v8_word::Cond;

/// The numbers of the services that get a byte and put one.
const GET: u32 = 1;

const PUT: u32 = 2;

/// Whether a step asks for the service of a number.
fn asks_for(step: &Step, service: u32) -> bool {
    matches!(
        step.instr(),
        Instr::Ticc(Trap { operand2: Operand::Immediate(number), .. }) if number == service
    )
}

/// Whether a function asks for the service of a number.
fn function_asks_for(function: &Function, service: u32) -> bool {
    let mut asks = false;
    for block in function.blocks.as_slice() {
        asks |= block
            .steps
            .as_slice()
            .iter()
            .any(|step| asks_for(step, service));
    }
    asks
}

/// Whether a program asks for the service of a number.
fn has_service(program: &Program, service: u32) -> bool {
    let mut asks = false;
    for function in program.functions.as_slice() {
        asks |= function_asks_for(function, service);
    }
    asks
}

/// The services and the pages of stack.
fn push_head(out: &mut SourceText, program: &Program, room: u64) {
    out.add(".services exit");
    if has_service(program, GET) {
        out.add(",get");
    }
    if has_service(program, PUT) {
        out.add(",put");
    }
    let pages = room.saturating_add(64 + 4095) / 4096;
    out.put("\n.stack ", &pages);
}

/// What is known where a block begins.
fn push_cells(out: &mut SourceText, notes: &BlockNotes) {
    for cell in notes.cells.as_slice() {
        out.put("\n.cell ", &Location(cell.location));
        out.put(",", &Bounds(cell.range));
    }
}

/// A block's fuel.
fn push_fuel(out: &mut SourceText, notes: &BlockNotes) {
    out.put("\n.fuel ", &notes.fuel);
    for term in notes.terms.as_slice() {
        out.put("\n.term ", &Location(term.location));
        out.put(",", &term.coefficient);
    }
}

/// The lines of steps; of a call with its slot.
fn push_steps(out: &mut SourceText, files: &[String], names: &[String], steps: &[Step]) {
    for step in steps {
        if let Some(number) = step.callee
            && number < names.len()
        {
            out.put("\n    call ", &names[number]);
            out.put_slot(&step.slot);
        } else {
            out.put_instr(files, &step.instr(), step.line);
        }
    }
}

/// The end of a function's block with a number.
fn push_end(
    out: &mut SourceText,
    files: &[String],
    name: &str,
    is_framed: bool,
    number: usize,
    block: &Block,
) {
    let (cond, to) = match block.end {
        End::Jump(to) if to == number.saturating_add(1) => return,
        End::Jump(to) => (Cond::Always, to),
        End::Branch { cond, taken, .. } => (cond, taken),
        End::Return(fields) => {
            let (text, slot) = if is_framed {
                ("ret", Some(Instruction::of(Instr::Restore(fields))))
            } else {
                ("retl", block.slot)
            };
            out.put_text(files, text, block.line);
            return out.put_slot(&slot);
        }
        End::Exit => return out.put_text(files, "ta 0", block.line),
    };
    let place = usize::from(cond.code());
    let suffix = suffixes().get(place).copied().unwrap_or("n");
    out.put("\n    b", &suffix);
    out.put(" ", &name);
    out.put(".", &to);
    out.put_slot(&block.slot);
}

/// Ranges, in a line each.
fn push_ranges(out: &mut SourceText, what: &str, ranges: &[Range]) {
    for range in ranges {
        out.put(what, &Bounds(*range));
    }
}

/// The line that begins a function, and what it promises.
fn push_function_head(
    out: &mut SourceText,
    name: &str,
    function: &Function,
    notes: &FunctionNotes,
) {
    out.put("\n\n.function ", &name);
    let kind = if function.framed {
        ",framed,"
    } else {
        ",leaf,"
    };
    out.put(kind, &function.frame);
    out.put(",", &notes.room);
    out.put(",", &notes.budget);
    out.put("\n.depth ", &notes.depth);
    push_ranges(out, "\n.param ", function.params.as_slice());
    push_ranges(out, "\n.result ", function.results.as_slice());
}

/// The blocks of a function of a program with these files and names; the first one begins with its function. Gives the
/// line with which the source gets longer than the assembler reads, and what is told of that.
fn push_blocks(
    out: &mut SourceText,
    files: &[String],
    names: &[String],
    name: &str,
    function: &Function,
    notes: &[BlockNotes],
) -> Option<(SourceLine, &'static str)> {
    for (number, block) in function.blocks.as_slice().iter().enumerate() {
        if number > 0 {
            out.put("\n.block ", &name);
            out.put(".", &number);
        }
        if number < notes.len() {
            push_cells(out, &notes[number]);
            push_fuel(out, &notes[number]);
        }
        if (number == 0) & (function.frame > 0) {
            out.put("\n    save %sp,-", &function.frame);
            out.add(",%sp");
        }
        push_steps(out, files, names, block.steps.as_slice());
        push_end(out, files, name, function.framed, number, block);
        if let Some(excess) = out.excess() {
            let line = if block.line.number > 0 {
                block.line
            } else {
                function.line
            };
            return Some((line, excess));
        }
    }
    None
}

/// The functions of a program with these names. Gives the line with which the source gets longer than the assembler
/// reads, and what is told of that.
fn push_functions(
    out: &mut SourceText,
    program: &Program,
    names: &[String],
    annotations: &[FunctionNotes],
) -> Option<(SourceLine, &'static str)> {
    let files = program.files.as_slice();
    for (number, function) in program.functions.as_slice().iter().enumerate() {
        if (number < names.len()) & (number < annotations.len()) {
            let (name, notes) = (names[number].as_str(), &annotations[number]);
            push_function_head(out, name, function, notes);
            let blocks = notes.blocks.as_slice();
            let excess = push_blocks(out, files, names, name, function, blocks);
            if excess.is_some() {
                return excess;
            }
        }
    }
    None
}

/// A program as a source in the project's language, with the lines of C in comments. Its blocks stand in their places
/// (as fit_passes puts them).
///
/// # Errors
/// At the line with which the source gets longer than the assembler reads: 1,000,000 lines, or 16,777,216 bytes.
pub fn source_of(
    alloc: Global,
    program: &Program,
    annotations: &Annotations,
) -> Result<String, Fault> {
    let functions = annotations.functions.as_slice();
    let room = match functions.first() {
        Some(notes) => notes.room,
        None => 0,
    };
    let mut memory = Heap::new(alloc);
    let names = names_of(&mut memory, program);
    let mut out = SourceText::new(memory);
    push_head(&mut out, program, room);
    push_data(&mut out, program);
    let excess = push_functions(&mut out, program, names.as_slice(), functions);
    out.add("\n");
    match excess {
        Some((line, what)) => Err(Fault::new(line, Reason::Unreadable(what))),
        None if out.lacks => Err(Fault::from(AllocError)),
        None => Ok(out.text),
    }
}

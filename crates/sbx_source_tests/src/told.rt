//! What is told of sources.
use fit_code::{Block, End, Fault, Function, Program};
use fit_gas::Assembly;
use fit_legal::{JoinPlan, program_of};
use fit_text::FaultLine;
use std::alloc::{AllocError, Global};
use std::process::Abort;
use v8_formats::encode;

/// Tells the words of a block's steps, and its end.
fn push_block(told: &mut String, block: &Block) -> Result<(), AllocError> {
    for step in block.steps.as_slice() {
        let word = encode(&step.instr());
        write!(told, " {word:08x}")?;
    }
    match block.end {
        End::Jump(to) => write!(told, " >{to}"),
        End::Branch { taken, next, .. } => write!(told, " ?{taken},{next}"),
        End::Return(_) => told.push_str(" ."),
        End::Exit => told.push_str(" !"),
    }
}

/// Tells the name of a function, the bytes of its frame, and its blocks.
fn push_function(told: &mut String, function: &Function) -> Result<(), AllocError> {
    let Function { name, frame, .. } = function;
    write!(told, "{name} {frame}:")?;
    for block in function.blocks.as_slice() {
        push_block(told, block)?;
    }
    told.push_str("\n")
}

/// Tells the regions of a program, of each whether it may be read alone, where it begins, and how many bytes it has;
/// and the functions.
fn push_program(told: &mut String, program: &Program) -> Result<(), AllocError> {
    for region in program.regions.as_slice() {
        let right = if region.readonly { "ro" } else { "rw" };
        let (start, length) = (region.start, region.length);
        write!(told, "{right} {start:x} {length}\n")?;
    }
    for function in program.functions.as_slice() {
        push_function(told, function)?;
    }
    Ok(())
}

/// What each source begins with.
const HEAD: &str = ".global main\n.type main,#function\n.type f,#function\nmain:\n";

/// The program of one file, which has this behind `main:`.
fn made(source: &mut Assembly, body: &str) -> Result<Program, Fault> {
    let mut text = String::new(source.memory.alloc);
    write!(text, "{HEAD}{body}")?;
    source.read("t.s", text.as_bytes())?;
    let joins = JoinPlan {
        stack: 16_384,
        has_bounds: true,
    };
    let legal = program_of(source.memory.alloc, source, "main", joins)?;
    Ok(legal.program)
}

/// Whether this is told of a program, or is why there is none.
fn tells(alloc: Global, body: &str, wanted: &str) -> bool {
    let mut source = Assembly::new(alloc);
    let mut told = String::new(alloc);
    let done = match &made(&mut source, body) {
        Ok(program) => push_program(&mut told, program),
        Err(fault) => {
            let files = source.files.as_slice();
            write!(told, "{}", FaultLine { fault, files })
        }
    };
    done.is_ok() && told.as_str() == wanted
}

/// Asserts that each row is told.
pub(crate) fn are_told(rt: &impl Abort, alloc: Global, rows: &[(&str, &str)]) {
    for (body, wanted) in rows {
        assert!(rt; tells(alloc, body, wanted), "{body}");
    }
}

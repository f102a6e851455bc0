//! The instructions of the functions that compilers wrote: data laid out, numbers filled in, and what each instruction
//! does to the flow of control.
mod fields;
mod flow;
mod layout;
mod needed;

use crate::plain::step_of;
use crate::points::flow::flow_of;
pub use fields::{MemoryAccess, access_of, signed};
use fit_code::{Instruction, Step};
use fit_gas::{AddressPart, CodeBody, SymbolPlace, with_part};
pub use layout::{Layout, layout_of, name_of, pointer_word};
use v8_formats::{Instr, Three, decode};
use v8_word::Cond;

/// What an instruction does to the flow of control.
#[derive(Clone, Copy)]
pub enum ControlFlow {
    /// Nothing: control goes on.
    On,
    /// Nothing, and the instruction does nothing else.
    Nothing,
    /// A branch to a point.
    Branch { cond: Cond, annul: bool, to: usize },
    Call,
    /// A jump by %i7, as a framed function returns, or by %o7.
    Return { framed: bool },
    Save,
    Restore(Three),
    Exit,
    /// The constant behind a call that gives a struct.
    Mark,
}

/// An instruction of a function.
#[derive(Clone, Copy)]
pub struct Point {
    pub step: Step,
    pub flow: ControlFlow,
}

/// Whether a step that is no return is a call through a pointer.
pub fn is_call_through_pointer(step: &Step) -> bool {
    matches!(step.instr(), Instr::Jmpl(_))
}

/// The instructions of a function, by its number in the source. What stops it is noted: an instruction that sandboxed
/// code may not have; a jump that is no return; a branch out of the function; a name that stands nowhere, or is a
/// function's where an object's is wanted.
pub fn points_of(layout: &mut Layout, number: usize, code: &CodeBody) -> Vec<Point> {
    layout.stops.symbol = code.symbol;
    let mut points = Vec::new(layout.stops.memory.alloc);
    for item in code.items.as_slice() {
        let mut step = step_of(decode(item.word), item.line);
        let mut to = None;
        if let Some(reference) = item.reference {
            let symbol = reference.symbol;
            if !matches!(reference.part, AddressPart::Target) {
                let (object, address) = layout.reach(symbol, reference.offset, item.line);
                step.instruction = Instruction::of(decode(with_part(
                    item.word,
                    reference.part,
                    address,
                )));
                step.object = object;
                if let Some(named) = object {
                    layout.name_outside(named, address);
                }
            } else {
                match layout.linked.place(symbol) {
                    SymbolPlace::Function(callee) => step.callee = Some(callee),
                    SymbolPlace::Label { code, at } if code == number => to = Some(at),
                    _ => {}
                }
            }
        }
        let flow = match flow_of(&step.instr(), to) {
            Ok(flow) => flow,
            Err(stop) => {
                layout.stops.note(item.line, stop);
                ControlFlow::Nothing
            }
        };
        if matches!(flow, ControlFlow::Call) && is_call_through_pointer(&step) {
            // what calls through pointers stands behind all functions
            step.callee = Some(layout.source.codes.len());
        }
        layout.stops.memory.push(&mut points, Point { step, flow });
    }
    points
}

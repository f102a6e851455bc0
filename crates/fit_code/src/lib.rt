//! The intermediate code between compiler-made assembly and an annotated source: functions of blocks, whose steps are
//! instructions with every number resolved; objects of the data; sets of registers; and faults with lines. Nothing
//! rests on it: the verifier judges the image, whoever made it.
#![tactic(auto)]

mod code;
mod effects;
mod fault;
mod instruction;
mod memory;
mod operands;
mod registers;
mod ways;

pub use code::{Block, End, Function, NO_LINE, Object, Program, Region, SourceLine, Step};
pub use effects::{is_compare, is_logic_compare, named_by, operands_read, reads, uses_of, writes};
pub use fault::{Fault, JUMP_THROUGH_POINTER, Naming, Reason};
pub use instruction::Instruction;
pub use memory::Heap;
pub use operands::{fields_of, is_same, with_operands, with_target};
pub use registers::RegisterSet;
pub use sbx_parts::Range;
pub use ways::{hull, opposite};

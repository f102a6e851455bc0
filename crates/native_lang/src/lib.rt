//! The little language that an accepted image is translated to, and an interpreter that is proved to be its meaning.
#![tactic(auto)]

mod counts;
mod expr;
mod machine;
mod memory;
mod operator;
mod program;
mod run;
mod state;
mod stmt;
pub mod variables;
mod whole;

pub use expr::{Expr, Variables};
pub use operator::Operator;
pub use program::{Arm, BlockEnd, NativeProgram, ProgramBlock};
pub use run::{ProgramPoint, ProgramStep};
pub use state::{Interpreter, SavedWindow};
pub use stmt::{NumberWidth, Stmt};
pub use whole::{ProgramRun, run_program};

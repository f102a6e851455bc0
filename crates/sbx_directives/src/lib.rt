//! Lines of source but their instructions: labels, directives and annotations, and the values of a data directive.
#![tactic(auto)]

mod directive;
mod fault;
mod keyword;
mod label;
mod number;
mod operand;
mod statement;
mod values;

pub use directive::{Directive, Keyword, Name, Statement, Width, text_of};
pub use fault::DataFault;
pub use label::label_count;
pub use statement::read_statement;
pub use values::{byte_len, push_values, value_fault};

//! The forms of statements: names, operands and words; and the text of instructions by these.
#![tactic(auto)]

mod bits;
mod fields;
pub mod laws;
mod part;
mod printing;
mod rows;

pub use bits::{
    annul_bit, elsewhere_bits, greatest, least, low_bits, operand_bits, scale, special_number,
    sum_bits,
};
pub use fields::filled;
pub use part::{Field, Part, Range, Special};
pub use printing::{print_instr, push_hexadecimal};
pub use rows::{Row, forms, suffixes};

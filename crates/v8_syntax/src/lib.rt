//! Statements read as instructions.
#![tactic(auto)]

mod address;
mod expression;
mod fault;
mod letters;
mod names;
mod operands;
mod statement;
mod symbols;
mod word;

pub use expression::{after_sign, of_bits};
pub use fault::SyntaxFault;
pub use statement::{length_of, parse_instr};
pub use symbols::Symbols;
pub use word::{
    NameKind, StatementToken, after_first, beside, bytes_between, front, is_same, register_named,
    sign_byte, statement_token,
};

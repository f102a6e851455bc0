//! Compiler-made assembly, gcc's and clang's, read as code with references to names, and as objects of data. Nothing
//! rests on it: the verifier judges the image, whoever made it.
#![tactic(auto)]

mod data;
mod directives;
mod instructions;
mod linking;
mod source;
mod strings;
mod text;

pub use instructions::with_part;
pub use linking::{Linked, links_of};
pub use source::{
    AddressPart, Assembly, CodeBody, CodeItem, Datum, Fix, Reference, Symbol, SymbolPlace, owned,
};
pub use text::word_of;

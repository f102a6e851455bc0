//! What a rule asks for at the word that breaks it, with the word's own values, and what would mend it.
#![tactic(auto)]

mod accesses;
mod causes;
mod reads;
mod registers;
mod services;
mod shapes;
mod tagged;
mod targets;
mod undefined;
mod unwritable;
mod words;

pub use causes::push_reason;
pub use reads::{Registers, registers_read};
pub use shapes::{Part, broken_part};

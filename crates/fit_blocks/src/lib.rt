//! The blocks of each function of a source: instructions with their numbers filled in, delay slots put where they act,
//! codes that blocks ask for set in them, loops with one entry; and how a function is put into the image. Nothing rests
//! on it: the verifier judges the image, whoever made it.
#![tactic(auto)]

mod blocks;
mod codes;
mod parts;
mod plain;
mod points;
mod slots;
mod stops;

pub use blocks::{function_of, no_result, pointer_register, result_register};
pub use codes::{give_one_entry, repeat_compares};
pub use parts::{Part, SoftStack, WayBack, stack_register};
pub use plain::{push_plain, step_of};
pub use points::{Layout, MemoryAccess, access_of, layout_of, name_of, pointer_word, signed};
pub use stops::{Obstacle, Stops};

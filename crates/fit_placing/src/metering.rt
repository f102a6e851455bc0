//! Puts a meter in turns into a function: a register that has no other use, or a word of the frame, and places that
//! count it down.
mod exits;
mod inserting;
mod lowering;
mod registers;

pub use inserting::insert_meter;
pub use lowering::lower_count;

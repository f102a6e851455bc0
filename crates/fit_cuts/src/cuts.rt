//! Cuts in a block, where steps of one's own may stand, and steps to put there.
mod cut;
mod ends;
mod place;
mod words;

pub use cut::{copy_block, insert_instr, push_block, push_branch, push_instrs};
pub use ends::{shared_end, telling};
pub use place::{
    Writer, drop_compare, in_use, keep_carry, last_writer, move_reader, move_writer,
    set_codes_again, spare_register, use_of,
};
pub use words::{by_immediate, clearing, number_in, register};

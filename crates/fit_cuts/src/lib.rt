//! Words, blocks and branches that are put into a function, and where they may stand. Nothing rests on it, since the
//! verifier asks all again.
#![tactic(auto)]

mod cuts;
mod upper;

pub use cuts::{
    Writer, by_immediate, clearing, copy_block, drop_compare, in_use, insert_instr, keep_carry,
    last_writer, move_reader, move_writer, number_in, push_block, push_branch, push_instrs,
    register, set_codes_again, shared_end, spare_register, telling, use_of,
};
pub use upper::write_upper;

//! The verifier's rules at one word, as tests: each is a condition of `sbx_rules`.
#![tactic(auto)]

mod accesses;
mod cells;
mod kinds;
mod reads;
mod shapes;
mod writes;

pub use accesses::{is_aligned, is_placed, may_divide_by_zero, may_overflow};
pub use cells::{has_cells, has_outs, lists_badly};
pub use kinds::{
    is_call, is_framed, is_framed_return, is_restore, is_return, is_save, is_transfer, is_trap,
};
pub use reads::{frame_offset, frame_word_read, reads_codes, reads_undefined, reads_y};
pub use shapes::{ends_run, enters_well, is_declared, is_no_instruction, service_asked, suits};
pub use writes::touches_reserved;

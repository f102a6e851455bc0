//! What the rules know at a word: the places of the code, the ways on which each word runs, and what is known before
//! and after it.
#![tactic(auto)]

mod courses;
mod effects;
mod places;
mod spot;
mod starts;

pub use courses::{
    Course, Courses, Going, branch_way, comes_back, courses_of, is_inner_edge, runs,
    some_comes_back, some_goes_past,
};
pub use effects::{perform_on, return_to};
pub use places::{address_of, block_at, callee_of, function_at, words_in};
pub use sbx_faults::{
    ends_run, enters_well, has_cells, has_outs, is_aligned, is_call, is_declared, is_framed,
    is_framed_return, is_placed, is_restore, is_return, is_save, is_transfer, is_trap, lists_badly,
    may_divide_by_zero, may_overflow, reads_undefined, suits, touches_reserved,
};
pub use spot::{Spot, spot_at, weight_of_spot};
pub use starts::start;

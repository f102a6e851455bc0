//! Ranges of words: what each operation makes of the ranges of its operands, and what a condition says of two ranges
//! that were compared.
#![tactic(auto)]

mod bounds;
pub mod laws;
mod logic;
mod quotients;
mod refining;
mod shifts;
mod sums;
mod table;

pub use bounds::{all, is_single, is_within, known};
pub use quotients::excludes_zero;
pub use refining::{Pair, common, refine, refine_by_value};
pub use sbx_image::{Cell, Range};
pub use sums::{differences_fit, sums_fit};
pub use table::{
    BYTE_OR_END, SIGNED_BYTE, SIGNED_HALF, UNSIGNED_BYTE, UNSIGNED_HALF, range_of,
    range_of_address, range_of_division, range_of_tagged, range_of_written_y, range_of_y,
    tagged_fits,
};

//! Blocks in the verifier's domain: how their steps run, and what several ways that lead to one have in common. Nothing
//! rests on it, since the verifier asks all again.
#![tactic(auto)]

mod cells;

pub use cells::{
    Growth, Thresholds, cells_of, common_thresholds, enter, go_along, join, place_of, range_from,
    range_in, return_from, run_step, run_to_call, start, thresholds_of,
};

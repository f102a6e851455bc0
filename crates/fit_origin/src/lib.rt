//! Where the address of an access comes from: one register's word, and the bounds in which that has to lie. Nothing
//! rests on it, since the verifier asks all again.
#![tactic(auto)]

mod origin;

pub use origin::{
    Origin, Trace, WordBounds, bounds_in_constants, bounds_of, end_of, object_at, origin_of,
};

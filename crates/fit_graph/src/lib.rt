//! Graphs of functions: which blocks follow which, which stand on each way to others, and loops. Nothing rests on it,
//! since the verifier asks all again.
#![tactic(auto)]

mod graph;

pub use graph::{
    Graph, Listed, Loop, Order, Tangle, list, order_of, predecessors_of, put_places, reached_from,
    successors_in, successors_of, tangle_of,
};

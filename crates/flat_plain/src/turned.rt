//! What a step comes to.
use sbx_flat::Wrong;

/// What a step comes to.
#[derive(Clone, Copy)]
pub enum Turned {
    /// The machine went on to its next state.
    Went,
    /// The state is wrong, and the machine is of no more use.
    Failed(Wrong),
}

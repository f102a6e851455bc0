//! What a program needs that explains a refusal: what the rules know at a word, and the two sides of what fuel, stack
//! room and call depth are asked for.
#![tactic(auto)]

mod enter;
mod find;
mod known;
mod sides;

pub use find::find_word;
pub use known::{NotKnown, Sight, after, known_at};
pub use sides::{
    BudgetSides, DepthSides, Fuel, FuelSides, RoomSides, budget_sides, call_depth, call_room,
    entry_depth, entry_room, fuel_of, fuel_sides, stack_room,
};

//! Why an image is refused, in words: the rule, what is known at the word, and what the rule asks for there, beside
//! what there is.
#![tactic(auto)]

mod arrivals;
mod depths;
mod folded;
mod fuel;
mod mends;
mod room;
mod rules;
mod sides;
mod sights;
mod values;
mod why;

pub use rules::rule_text;
pub use why::push_why;

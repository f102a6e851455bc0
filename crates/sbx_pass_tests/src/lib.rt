//! What the verifier knows, from below: ranges and linear forms, what is known between two words, the pass over blocks,
//! and the walk over whole images.
#![tactic(auto)]

#[cfg(test)]
mod conditions;
#[cfg(test)]
mod forms;
#[cfg(test)]
mod known;
#[cfg(test)]
mod programs;
#[cfg(test)]
mod ranges;
#[cfg(test)]
mod reading;
#[cfg(test)]
mod rows;
#[cfg(test)]
mod states;
#[cfg(test)]
mod tests;
#[cfg(test)]
mod walks;

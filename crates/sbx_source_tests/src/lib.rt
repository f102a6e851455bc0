//! Tests of the crates that read source text: tokens, instructions, directives and whole sources; of programs made of
//! assembly as compilers write it, and of sources with annotations put in. The expected values come from worked
//! examples, from GNU as, and from the formats by hand.
#![tactic(auto)]

#[cfg(test)]
mod annotated;
#[cfg(test)]
mod check;
#[cfg(test)]
mod depths;
#[cfg(test)]
mod directives;
#[cfg(test)]
mod faults;
#[cfg(test)]
mod inserted;
#[cfg(test)]
mod instructions;
pub mod laws;
#[cfg(test)]
mod limits;
#[cfg(test)]
mod lines;
#[cfg(test)]
mod names;
#[cfg(test)]
mod programs;
#[cfg(test)]
mod regions;
#[cfg(test)]
mod rereading;
#[cfg(test)]
mod sources;
#[cfg(test)]
mod told;

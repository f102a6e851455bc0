//! Memory, boards, raw runs and traces; whole programs on the plain flat machine, and on boards in step with it: tests
//! whose expected values were worked out by hand.
#![tactic(auto)]

#[cfg(test)]
mod acts;
#[cfg(test)]
mod boards;
#[cfg(test)]
mod flat;
#[cfg(test)]
mod images;
#[cfg(test)]
mod lockstep;
#[cfg(test)]
mod memory;
#[cfg(test)]
mod ports;
#[cfg(test)]
mod programs;
#[cfg(test)]
mod raw_runs;
#[cfg(test)]
mod rows;
#[cfg(test)]
mod runs;
#[cfg(test)]
mod strangers;
#[cfg(test)]
mod traces;
#[cfg(test)]
mod turns;

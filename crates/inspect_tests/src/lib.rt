//! Pages of runs, machines of one's own with their starts, and tables of cycles: tests whose expected values were told
//! by programs that were written apart, or worked out by hand.
#![tactic(auto)]

#[cfg(test)]
mod cycles;
#[cfg(test)]
mod machines;
#[cfg(test)]
mod pages;
#[cfg(test)]
mod starts;

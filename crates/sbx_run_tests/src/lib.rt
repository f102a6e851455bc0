//! Verdicts and runs of images, also over readers and writers that end, fail, and take nothing, against rows that were
//! worked out by hand.
#![tactic(auto)]

#[cfg(test)]
mod batches;
#[cfg(test)]
mod bits;
#[cfg(test)]
mod boards;
#[cfg(test)]
mod calls;
#[cfg(test)]
mod depths;
#[cfg(test)]
mod greatest;
#[cfg(test)]
mod ports;
#[cfg(test)]
mod runs;
#[cfg(test)]
mod sources;
#[cfg(test)]
mod streaming;
#[cfg(test)]
mod streams;
#[cfg(test)]
mod verdicts;
#[cfg(test)]
mod words;

//! Calls any one growth of which may be refused: what they then tell, what they leave, and what they give when they are
//! asked again; runs and traces told in words; what is known at words of whole images; and the commands over readers
//! and writers that fail at one call, whose expected values come from the format's tables and its worked image.
#![tactic(auto)]

#[cfg(test)]
mod commands;
#[cfg(test)]
mod images;
#[cfg(test)]
mod passing;
#[cfg(test)]
mod reports;
#[cfg(test)]
mod runs;
#[cfg(test)]
mod sheet;
#[cfg(test)]
mod sights;

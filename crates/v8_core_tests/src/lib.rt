// The machine turn on a small bus: tests whose expected values come from the manual.
#![tactic(auto)]

#[cfg(test)]
mod small;
#[cfg(test)]
mod tests;

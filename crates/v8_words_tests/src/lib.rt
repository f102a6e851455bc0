//! Tests of words, formats, what they ask for, results, windows, translation, the cache, handlers and page tables.
//! Expected values come from the manual, from GNU as, and by hand.
#![tactic(auto)]

#[cfg(test)]
mod cache;
#[cfg(test)]
mod meaning;
#[cfg(test)]
mod rows;
#[cfg(test)]
mod tests;

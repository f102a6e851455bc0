//! The words that a program is called by.
use std::{env, io};

/// The words after the program's name.
pub fn command_words(rt: &HostRuntime) -> io::Result<Vec<String>> {
    let mut words: Vec<String> = env::args(rt)?.collect(rt.alloc())?;
    if !words.is_empty() {
        words.remove(0);
    }
    Ok(words)
}

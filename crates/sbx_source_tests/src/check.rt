//! What the tests ask.
use std::alloc::AllocError;

/// Whether a text was made, and is the one that is wanted.
pub(crate) fn is_same(found: Result<String, AllocError>, wanted: &str) -> bool {
    match found {
        Ok(text) => text.as_str() == wanted,
        Err(AllocError) => false,
    }
}

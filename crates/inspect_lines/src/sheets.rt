//! The shape of lines that are shown one below the other.

/// The columns of a line.
pub const WIDTH: usize = 100;

/// What a line begins with that goes on with another's items.
pub const MARGIN: &str = "       ";

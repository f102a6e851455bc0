//! An annotation that is put into a source.
use sbx_image::Range;

/// What an annotation says.
#[derive(Clone, Copy)]
pub enum Value {
    Number(i64),
    Range(Range),
}

/// An annotation, shown as a source has it: its name with the blank behind it, the location that it is of, if it is of
/// one, and what it says.
#[derive(Clone, Copy)]
pub struct Annotation {
    pub name: &'static str,
    pub location: Option<u16>,
    pub value: Value,
}

/// An annotation, and the number of the line that it stands before, from 1.
#[derive(Clone, Copy)]
pub struct Addition {
    pub before: usize,
    pub annotation: Annotation,
}

/// What the `.function` of a line, from 1, says of its stack room and its budget.
#[derive(Clone, Copy)]
pub struct FunctionTotal {
    pub line: usize,
    pub room: u64,
    pub budget: u64,
}

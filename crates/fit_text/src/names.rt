//! The names that functions have in a source, and what is told of other names.
use fit_code::{Heap, Program};

/// So many bytes of a name stand in a line, which may not have more than 1,024.
const LONGEST: usize = 256;

/// A name as comments tell it.
pub fn commented(name: &str) -> &str {
    if name.len() <= LONGEST {
        name
    } else {
        "(a long name)"
    }
}

/// Whether a name may stand in a source, where `$` may not; and whether it ends as that of a block does, or as one that
/// is made here.
fn may_stand_and_is_numbered(name: &str) -> (bool, bool) {
    let bytes = name.as_bytes();
    let mut may_stand = bytes.len() <= LONGEST;
    // what stands before the digits at its end
    let mut front: usize = 0;
    for (place, byte) in bytes.iter().enumerate() {
        may_stand &= byte.is_ascii_alphanumeric() | (*byte == b'_') | (*byte == b'.');
        if !byte.is_ascii_digit() {
            front = place.saturating_add(1);
        }
    }
    let front = &bytes[..front.min(bytes.len())];
    let is_named = front.ends_with(b".") || front.ends_with(b".of");
    (may_stand, is_named & (front.len() < bytes.len()))
}

/// The name of each function: its own, with its number behind it where an earlier one has that name, as static ones of
/// two files may, or a block might; a name that may not stand in a source is left out.
pub fn names_of(memory: &mut Heap, program: &Program) -> Vec<String> {
    let mut names = Vec::new(memory.alloc);
    for (number, function) in program.functions.as_slice().iter().enumerate() {
        let own = function.name.as_str();
        let (may_stand, is_numbered) = may_stand_and_is_numbered(own);
        let mut name = String::new(memory.alloc);
        memory.take(name.push_str(if may_stand { own } else { "function" }));
        if !may_stand | is_numbered || names.contains(&function.name) {
            memory.take(write!(name, ".of{number}"));
        }
        memory.push(&mut names, name);
    }
    names
}

//! What joins reading and spelling, as laws about lists of bytes.
ghost use Rattle.std.specs.Prelude.{◌≡◌, ℕ, List, Ok};
ghost use Rattle.sbx_parts.specs.declared.parts.Parts.{Parts};
ghost use Rattle.sbx_parts.specs.Rules.{parts_keep};
ghost use Rattle.sbx_image.specs.Reading.{reading};
ghost use Rattle.sbx_image.specs.Spelling.{IsBytes, IsTyped, spelling};

/// What is read keeps each limit and order, and is spelled by all of the bytes that were read.
pub fn what_is_read_is_spelled()
    ensures { (bytes : List ℕ) (p : Parts) → IsBytes bytes →
        reading bytes ≡ Ok p → (bytes ≡ spelling p) × (parts_keep p ≡ Ok tt) }
{}

/// What keeps each limit and order is read from its spelling.
pub fn what_is_spelled_is_read()
    ensures { (p : Parts) → IsTyped p → parts_keep p ≡ Ok tt → reading (spelling p) ≡ Ok p }
{}

//! Words that GNU as (binutils 2.40, options -32 -Av8) gives of a statement, but for `tst`, `btst` and the plain
//! `restore`, which have the operands of this language's own forms; their unused bits are 0.
ghost use Rattle.std.specs.Prelude.{IsTrue, ◌↔◌};
ghost use Rattle.v8_vectors.specs.Agreement.{IsSpelledAgain};

use v8_formats::{Instr, decode, encode};

/// Whether a word means an instruction, and that instruction is spelled as this word: its unused bits are 0.
pub fn is_spelled_again(word: u32) -> bool
    ensures { IsTrue result ↔ IsSpelledAgain word }
{
    let instr = decode(word);
    !matches!(instr, Instr::Undefined(_)) && encode(&instr) == word
}

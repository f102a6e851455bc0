//! Statements.
ghost use Rattle.std.specs.Prelude.{◌≡◌, ◌≤◌};
ghost use Rattle.native_lang.specs.Memory.{bytes_of_width};

use crate::expr::Expr;

/// How many bytes a number in the block has: 1, 2 or 4.
#[derive(Clone, Copy)]
pub enum NumberWidth {
    Byte,
    Half,
    Word,
}

impl NumberWidth {
    /// How many bytes.
    #[inline(always)]
    pub fn bytes(self) -> u32
        ensures value { result ≡ bytes_of_width self }
        ensures few { result ≤ 4 }
    {
        match self {
            NumberWidth::Byte => 1,
            NumberWidth::Half => 2,
            NumberWidth::Word => 4,
        }
    }
}

/// A statement.
#[derive(Drop)]
pub enum Stmt {
    /// A variable gets the value of an expression.
    Set(u8, Expr),
    /// A variable gets the number at an address, without a sign.
    Load(u8, NumberWidth, Expr),
    /// The low bytes of the second value go to the address that the first one is.
    Store(NumberWidth, Expr, Expr),
    /// The quotient of two words, the first the high one, and a third that isn't 0, with signs or without: the first
    /// variable gets it as the nearest word, and the second one 1 where that is another number, else 0.
    Divide(u8, u8, bool, Expr, Expr, Expr),
    /// A variable gets the next byte of the input, or 2^32 - 1 at its end.
    Get(u8),
    /// The low byte of a value goes out.
    Put(Expr),
    /// So many turns are made.
    Turns(u16),
    /// A SAVE and a RESTORE are counted.
    Enter,
    Leave,
    /// Locals and ins go on the stack of saved windows, and outs become ins; and back.
    Push,
    Pop,
}

// The operands of statements.

/// Where a register stands: in one field of the word, or the same in two.
#[derive(Clone, Copy)]
pub enum Field {
    Rd,
    Rs1,
    Rs2,
    Rs1AndRd,
    Rs2AndRd,
}

/// The numbers that may stand somewhere.
#[derive(Clone, Copy)]
pub enum Range {
    Signed,
    Count,
    Trap,
    High,
    Space,
    Whole,
}

/// A register of the processor's state, in the order of their opcodes.
#[derive(Clone, Copy)]
pub enum Special {
    Y,
    Psr,
    Wim,
    Tbr,
}

/// An operand by what it is.
#[derive(Clone, Copy)]
pub enum Part {
    /// A register.
    Register(Field),
    /// A state register.
    State,
    /// A register or a number.
    Second(Range),
    /// A register and what is added to it.
    Address(Range),
    /// An address in brackets.
    Memory,
    /// Two registers in brackets, and an address space.
    Elsewhere,
    /// A number.
    Number(Range),
    /// A target within 2^31 bytes.
    Call,
    /// A target within 2^23 bytes, with `,a` before it or not.
    Branch,
}

//! The operations that instructions ask for.
use v8_alu::{Division, Op, TaggedOp};
use v8_formats::{Branch, Operand, Reg, Size, Three, Trap, Two, Upper};

/// The address space of a load or a store (appendix B, "Load Integer Instructions").
#[derive(Clone, Copy)]
pub enum Space {
    /// The data space of the current mode.
    Normal,
    /// The space of an address space identifier.
    Alternate(u8),
    /// None: an alternate-space form with an immediate has no room for an identifier.
    Missing,
}

/// The register that a load or a store moves, and its address: `r[rs1] + operand2` in a space.
#[derive(Clone, Copy)]
pub struct MemoryOperand {
    pub rd: Reg,
    pub rs1: Reg,
    pub operand2: Operand,
    pub space: Space,
}

/// What a load fetches, and how it fills its register (appendix B, "Load Integer Instructions").
#[derive(Clone, Copy)]
pub enum Loading {
    UnsignedByte,
    SignedByte,
    UnsignedHalf,
    SignedHalf,
    Word,
    /// Two words, into an even register and the odd one after it.
    Double,
}

impl Loading {
    ghost use Rattle.std.specs.Prelude.{◌≡◌, ◌*◌, ◌^◌, ◌<◌};
    ghost use Rattle.v8_meaning.specs.Transfers.{bytes_in, filled, loaded_size};

    /// How many bytes come in.
    pub fn size(self) -> Size
        ensures { result ≡ loaded_size self }
    {
        match self {
            Loading::UnsignedByte | Loading::SignedByte => Size::Byte,
            Loading::UnsignedHalf | Loading::SignedHalf => Size::Half,
            Loading::Word => Size::Word,
            Loading::Double => Size::Double,
        }
    }

    /// The word that a register gets from the loaded bytes, read as a number of that many bytes.
    pub fn word(self, number: u32) -> u32
        requires { number < 2 ^ (8 * bytes_in (loaded_size self)) }
        ensures { result ≡ filled self number }
    {
        match self {
            Loading::SignedByte if number >= 0x80 => number + 0xffff_ff00,
            Loading::SignedHalf if number >= 0x8000 => number + 0xffff_0000,
            _ => number,
        }
    }
}

/// What takes the place of the bytes that an exchange loads.
#[derive(Clone, Copy)]
pub enum Exchange {
    /// A byte of ones, which LDSTUB leaves (appendix B, "Atomic Load-Store Unsigned Byte Instructions").
    Ones,
    /// The word of the register that gets the loaded one, by SWAP (appendix B, "SWAP Register with Memory").
    Register,
}

/// What moves between memory and registers.
#[derive(Clone, Copy)]
pub enum Transfer {
    /// Bytes come in.
    Load(Loading),
    /// The low bytes of a register go out, or the words of an even register and the odd one after it.
    Store(Size),
    /// Bytes come in, and others go out in their place, as one access of the store kind.
    Exchange(Exchange),
}

impl Transfer {
    ghost use Rattle.std.specs.Prelude.{◌≡◌};
    ghost use Rattle.v8_meaning.specs.Transfers.{size_of, writes_memory};

    /// How many bytes move.
    pub fn size(self) -> Size
        ensures { result ≡ size_of self }
    {
        match self {
            Transfer::Load(loading) => loading.size(),
            Transfer::Store(size) => size,
            Transfer::Exchange(Exchange::Ones) => Size::Byte,
            Transfer::Exchange(Exchange::Register) => Size::Word,
        }
    }

    /// Whether the access is of the store kind.
    pub fn writes_memory(self) -> bool
        ensures { result ≡ writes_memory self }
    {
        match self {
            Transfer::Load(_) => false,
            Transfer::Store(_) | Transfer::Exchange(_) => true,
        }
    }
}

/// A state register that only supervisor code reaches.
#[derive(Clone, Copy)]
pub enum StateRegister {
    Psr,
    Wim,
    Tbr,
}

/// What an instruction asks of a machine. Each of the some ninety instructions asks for one of these.
#[derive(Clone, Copy)]
pub enum Operation {
    /// A result that every pair of operands has.
    Compute(Op, Three),
    /// A quotient, which a divisor 0 denies.
    Divide(Division, Three),
    /// A tagged result, which a tag overflow denies.
    TaggedTrap(TaggedOp, Three),
    SetHigh(Upper),
    ReadY(Reg),
    WriteY(Two),
    ReadState(StateRegister, Reg),
    WriteState(StateRegister, Two),
    /// A load, a store, or both at once.
    Transfer(Transfer, MemoryOperand),
    Save(Three),
    Restore(Three),
    /// A call, by its displacement in words.
    Call(u32),
    BranchOnCondition(Branch),
    JumpAndLink(Three),
    ReturnFromTrap(Two),
    TrapOnCondition(Trap),
    /// STBAR and FLUSH.
    Nothing,
    Illegal,
    FloatingPoint,
    Coprocessor,
}

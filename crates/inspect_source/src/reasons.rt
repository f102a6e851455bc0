//! Why a line is told, each cause in a sentence of its own.

/// Why a line has no tokens.
#[derive(Clone, Copy)]
pub enum TextReason {
    NotAscii,
    NoToken,
    Quote,
    BarePercent,
    LargeNumber,
    LongLine,
    NoMemory,
}

/// Why a statement means nothing.
#[derive(Clone, Copy)]
pub enum StatementReason {
    NoName,
    UnknownDirective,
    UnknownMnemonic,
    WantsRegister,
    WantsState,
    WantsSecond,
    WantsNumber,
    WantsOpening,
    WantsClosing,
    WantsComma,
    WantsEnd,
    Signed,
    Count,
    Trap,
    High,
    Space,
    Whole,
    UnknownSymbol,
    BareDot,
    TargetUneven,
    TargetFar,
    TargetOutside,
}

/// Why the operands of a directive are none that it takes.
#[derive(Clone, Copy)]
pub enum OperandReason {
    NoOperands,
    Right,
    Services,
    StackPages,
    FunctionShape,
    FunctionName,
    FunctionKind,
    Frame,
    StackRoom,
    Budget,
    RangeShape,
    RangeEnd,
    LowAboveHigh,
    Alignment,
    Depth,
    BlockName,
    CellShape,
    Location,
    Fuel,
    TermShape,
    Coefficient,
    Value,
    ByteTooWide,
    HalfTooWide,
    WordTooWide,
    Skip,
    Align,
}

/// Why a line can't stand where it stands.
#[derive(Clone, Copy)]
pub enum PlaceReason {
    RepeatedLabel,
    SecondServices,
    SecondStack,
    SecondDepth,
    SecondFuel,
    CellsDescend,
    TermsDescend,
    NoFunctionOpen,
    InstructionInData,
    DataInCode,
    DataAmongRegions,
    RegionBesideData,
    EmptyFunction,
    EmptyBlock,
    EmptyRegion,
    NoFunction,
    AnnotationOutside,
    BehindInstruction,
    BehindBlock,
    BlockOutside,
}

/// Which limit a line passes.
#[derive(Clone, Copy)]
pub enum LimitReason {
    Lines,
    Words,
    Bytes,
    Regions,
    Functions,
    Blocks,
    Params,
    Results,
    Cells,
    Terms,
    Pages,
}

/// Why a line is told.
#[derive(Clone, Copy)]
pub enum ShapeReason {
    Text(TextReason),
    Statement(StatementReason),
    Operand(OperandReason),
    Place(PlaceReason),
    Limit(LimitReason),
}

impl TextReason {
    fn sentence(self) -> &'static str {
        match self {
            TextReason::NotAscii => "a byte past ASCII stands outside a comment",
            TextReason::NoToken => "no token begins with this character",
            TextReason::Quote =>
                "quotes make no token: a character is written as its number, 48 for 0, 65 for A",
            TextReason::BarePercent => "no name stands right behind the %",
            TextReason::LargeNumber => "the number is 2^40 or more",
            TextReason::LongLine => "the line has more than 1,024 bytes",
            TextReason::NoMemory => "memory was refused",
        }
    }
}

impl StatementReason {
    fn sentence(self) -> &'static str {
        match self {
            StatementReason::NoName => "a statement begins with a name",
            StatementReason::UnknownDirective => "no directive has this name",
            StatementReason::UnknownMnemonic =>
                "no instruction has this name; names are lower case",
            StatementReason::WantsRegister =>
                "a register is wanted: %g, %o, %l or %i and 0 to 7, %sp, %fp, or %r0 to %r31",
            StatementReason::WantsState => "a state register is wanted: %y, %psr, %wim or %tbr",
            StatementReason::WantsSecond => "a register, a number or a symbol is wanted",
            StatementReason::WantsNumber => "a number or a symbol is wanted",
            StatementReason::WantsOpening =>
                "`[` is wanted: an address of memory stands in brackets",
            StatementReason::WantsClosing => "`]` is wanted",
            StatementReason::WantsComma => "a comma is wanted, and another operand",
            StatementReason::WantsEnd => "nothing more may stand here",
            StatementReason::Signed =>
                "an immediate lies from -4096 to 4095; `set` makes other words",
            StatementReason::Count => "a shift's count lies from 0 to 31",
            StatementReason::Trap => "a trap's number lies from 0 to 127",
            StatementReason::High => "a number of 22 bits lies from 0 to 4194303",
            StatementReason::Space => "an address space lies from 0 to 255",
            StatementReason::Whole => "a word of `set` lies from -2147483648 to 4294967295",
            StatementReason::UnknownSymbol => "no label has this name",
            StatementReason::BareDot => "`.` alone is no place; `.+0` is",
            StatementReason::TargetUneven => "the target is no multiple of 4 away",
            StatementReason::TargetFar => "the target is out of the branch's reach",
            StatementReason::TargetOutside => "a target lies from 0 to 4294967295",
        }
    }
}

impl OperandReason {
    fn sentence(self) -> &'static str {
        match self {
            OperandReason::NoOperands => "`.text` and `.data` have no operands",
            OperandReason::Right => "`.region` wants `ro` or `rw`",
            OperandReason::Services =>
                "`.services` wants some of `exit`, `get` and `put`, with commas",
            OperandReason::StackPages => "`.stack` wants a number of pages from 1 to 16",
            OperandReason::FunctionShape => "`.function` wants NAME,KIND,FRAME,STACK,BUDGET",
            OperandReason::FunctionName => "NAME is a name",
            OperandReason::FunctionKind => "KIND is `leaf` or `framed`",
            OperandReason::Frame => "FRAME is a number of bytes from 0 to 4096",
            OperandReason::StackRoom => "STACK is a number of bytes from 0 to 65536",
            OperandReason::Budget => "BUDGET is a number of turns below 2^40",
            OperandReason::RangeShape => "`.param` and `.result` want LO,HI,AL",
            OperandReason::RangeEnd => "LO and HI lie from -2147483648 to 2147483647",
            OperandReason::LowAboveHigh => "a range's low end is above its high end",
            OperandReason::Alignment => "AL is a number from 0 to 3",
            OperandReason::Depth => "`.depth` wants a number of frames from 0 to 256",
            OperandReason::BlockName => "`.block` wants a name",
            OperandReason::CellShape => "`.cell` wants LOC,LO,HI,AL",
            OperandReason::Location =>
                "LOC is a register but %g0, or `slot K` with K from 0 to 1007",
            OperandReason::Fuel => "`.fuel` wants a number of turns above -2^40 and below 2^40",
            OperandReason::TermShape => "`.term` wants LOC,N",
            OperandReason::Coefficient => "N lies from -2147483648 to 2147483647 and is not 0",
            OperandReason::Value =>
                "a number, or a symbol with or without `+` or `-` and a number, is wanted",
            OperandReason::ByteTooWide => "a value of `.byte` lies from -128 to 255",
            OperandReason::HalfTooWide => "a value of `.half` lies from -32768 to 65535",
            OperandReason::WordTooWide => "a value of `.word` lies from -2147483648 to 4294967295",
            OperandReason::Skip => "`.skip` wants a number of bytes, which isn't negative",
            OperandReason::Align => "`.align` wants 2, 4 or 8",
        }
    }
}

impl PlaceReason {
    fn sentence(self) -> &'static str {
        match self {
            PlaceReason::RepeatedLabel => "a label of this name stands before already",
            PlaceReason::SecondServices => "a `.services` stands before already",
            PlaceReason::SecondStack => "a `.stack` stands before already",
            PlaceReason::SecondDepth => "the function has a `.depth` already",
            PlaceReason::SecondFuel => "the block has a `.fuel` already",
            PlaceReason::CellsDescend =>
                "cells ascend: %g1 before %o0 before %l0 before %i0, then slots",
            PlaceReason::TermsDescend =>
                "terms ascend: %g1 before %o0 before %l0 before %i0, then slots",
            PlaceReason::NoFunctionOpen => "no `.function` stands before the instruction",
            PlaceReason::InstructionInData =>
                "an instruction stands among data; `.text` goes back to the code",
            PlaceReason::DataInCode =>
                "data stand among the code; `.data` or `.region` stands before them",
            PlaceReason::DataAmongRegions => "a source with a `.region` has no `.data`",
            PlaceReason::RegionBesideData => "a source with a `.data` has no `.region`",
            PlaceReason::EmptyFunction => "the function's first block has no instruction",
            PlaceReason::EmptyBlock => "the block has no instruction",
            PlaceReason::EmptyRegion => "the region has no bytes",
            PlaceReason::NoFunction => "the source has no `.function`",
            PlaceReason::AnnotationOutside => "no `.function` stands before the annotation",
            PlaceReason::BehindInstruction =>
                "an annotation stands before its block's first instruction",
            PlaceReason::BehindBlock =>
                "`.param`, `.result` and `.depth` stand before the function's first `.block`",
            PlaceReason::BlockOutside => "no `.function` stands before the `.block`",
        }
    }
}

impl LimitReason {
    fn sentence(self) -> &'static str {
        match self {
            LimitReason::Lines => "a source has at most 1,000,000 lines",
            LimitReason::Words => "the code has at most 65,536 words",
            LimitReason::Bytes => "the data, or a region, have at most 262,144 bytes",
            LimitReason::Regions => "a source has at most 8 regions",
            LimitReason::Functions => "a source has at most 256 functions",
            LimitReason::Blocks => "a source has at most 4,096 blocks",
            LimitReason::Params => "a function has at most 6 parameters",
            LimitReason::Results => "a function has at most 6 results",
            LimitReason::Cells => "a block has at most 64 cells",
            LimitReason::Terms => "a block has at most 8 terms",
            LimitReason::Pages => "the data take at most 64 pages of 4,096 bytes in all",
        }
    }
}

impl ShapeReason {
    /// Its sentence, as the page of faults has it.
    pub fn sentence(self) -> &'static str {
        match self {
            ShapeReason::Text(reason) => reason.sentence(),
            ShapeReason::Statement(reason) => reason.sentence(),
            ShapeReason::Operand(reason) => reason.sentence(),
            ShapeReason::Place(reason) => reason.sentence(),
            ShapeReason::Limit(reason) => reason.sentence(),
        }
    }
}

/// Why a line is told, and where: how many of its bytes stand before the place.
#[derive(Clone, Copy)]
pub struct Mark {
    pub reason: ShapeReason,
    pub at: usize,
}

// Why a statement means nothing.
ghost use Rattle.std.specs.Prelude.{Some};
ghost use Rattle.v8_syntax.specs.Faults.{code_of};

use std::fmt;

/// Why a statement means nothing. Shown as `S1` to `S5`, in this order.
#[derive(Clone, Copy)]
pub enum SyntaxFault {
    UnknownMnemonic,
    Shape,
    Immediate,
    UnknownSymbol,
    Target,
}

impl fmt::Display for SyntaxFault {
    ghost output = { λ f. Some (code_of f) };

    fn fmt<W: fmt::Write>(&self, f: &mut fmt::Formatter<W>) -> fmt::Result {
        f.write_str(match self {
            SyntaxFault::UnknownMnemonic => "S1",
            SyntaxFault::Shape => "S2",
            SyntaxFault::Immediate => "S3",
            SyntaxFault::UnknownSymbol => "S4",
            SyntaxFault::Target => "S5",
        })
    }
}

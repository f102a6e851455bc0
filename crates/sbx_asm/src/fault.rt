//! Why a source has no image.
ghost use Rattle.std.specs.Prelude.{◌≡◌, Some};
ghost use Rattle.sbx_asm.specs.Rules.{at, code_of, shown, rank, is_earlier, told, least_of};
ghost use Rattle.sbx_asm.specs.declared.fault.Cause.TheVariants.{Memory};
ghost use Rattle.want.specs.Wants.{refused};

use sbx_text::TextFault;
use std::alloc::AllocError;
use std::fmt::{self, Error, Formatter, Write};
use v8_syntax::SyntaxFault;
use want::Want;

/// What is wrong at a line. Shown as `X1` to `X4`, `S1` to `S5`, or `A1` to `A5`, the last five in this order.
#[derive(Clone, Copy)]
pub enum Cause {
    /// The line has no tokens.
    Text(TextFault),
    /// A statement means nothing, or an expression names an unknown symbol.
    Syntax(SyntaxFault),
    /// A label stands at two places.
    DuplicateLabel,
    /// The shape or a value of a directive, or a directive or an instruction where none belongs.
    Directive,
    /// A limit is passed.
    Limit,
    /// An annotation out of place.
    Annotation,
    /// Memory was refused.
    Memory(Want),
}

/// A cause, and the line where it is told, from 1; 0 for want of memory.
#[derive(Clone, Copy)]
pub struct AsmFault {
    pub line: usize,
    pub cause: Cause,
}

impl From<AllocError> for AsmFault {
    ghost from_gives = { λ _ fault. fault ≡ at 0 (Memory refused) };

    fn from(error: AllocError) -> AsmFault {
        AsmFault {
            line: 0,
            cause: Cause::Memory(Want::from(error)),
        }
    }
}

impl fmt::Display for Cause {
    ghost output = { λ c. Some (code_of c) };

    fn fmt<W: Write>(&self, f: &mut Formatter<W>) -> Result<(), Error> {
        match *self {
            Cause::Text(fault) => write!(f, "{fault}"),
            Cause::Syntax(fault) => write!(f, "{fault}"),
            Cause::DuplicateLabel => f.write_str("A1"),
            Cause::Directive => f.write_str("A2"),
            Cause::Limit => f.write_str("A3"),
            Cause::Annotation => f.write_str("A4"),
            Cause::Memory(_) => f.write_str("A5"),
        }
    }
}

impl fmt::Display for AsmFault {
    ghost output = { λ a. Some (shown a) };

    fn fmt<W: Write>(&self, f: &mut Formatter<W>) -> Result<(), Error> {
        let line = self.line;
        let cause = self.cause;
        write!(f, "line {line}: {cause}")
    }
}

/// The order of causes on one line.
fn rank(cause: Cause) -> u8
    ensures { result ≡ rank cause }
{
    match cause {
        Cause::Text(_) => 0,
        Cause::Syntax(_) => 1,
        Cause::DuplicateLabel => 2,
        Cause::Directive => 3,
        Cause::Limit => 4,
        Cause::Annotation => 5,
        Cause::Memory(_) => 6,
    }
}

fn is_earlier(first: AsmFault, second: AsmFault) -> bool
    ensures { result ≡ is_earlier first second }
{
    first.line < second.line
        || (first.line == second.line && rank(first.cause) < rank(second.cause))
}

/// Which of two faults is told, where the first may be none.
pub fn told(first: Option<AsmFault>, second: AsmFault) -> Option<AsmFault>
    ensures { result ≡ told first second }
{
    match first {
        Some(fault) => {
            if is_earlier(second, fault) {
                Some(second)
            } else {
                Some(fault)
            }
        }
        None => Some(second),
    }
}

/// Which of some faults is told, if there are any.
pub fn least_of(faults: &[AsmFault]) -> Option<AsmFault>
    ensures { result ≡ least_of faults.now }
{
    let mut least = None;
    for fault in faults {
        least = told(least, *fault);
    }
    least
}

// Why a line has no tokens.
ghost use Rattle.std.specs.Prelude.{◌≡◌, Some};
ghost use Rattle.sbx_text.specs.declared.fault.TextFault.TheVariants.{Memory};
ghost use Rattle.sbx_text.specs.Faults.{code_of};
ghost use Rattle.want.specs.Wants.{refused};

use std::alloc::{AllocError, AllocFailed};
use std::fmt;
use want::Want;

/// Why a line has no tokens. Shown as `X1` to `X5`, in this order.
#[derive(Clone, Copy)]
pub enum TextFault {
    NotAscii,
    BadCharacter,
    NumberTooLarge,
    LineTooLong,
    /// Memory was refused.
    Memory(Want),
}

impl From<AllocError> for TextFault {
    ghost from_gives = { λ _ e. e ≡ Memory refused };

    fn from(error: AllocError) -> TextFault {
        TextFault::Memory(Want::from(error))
    }
}

impl<T: Drop> From<AllocFailed<T>> for TextFault {
    ghost from_gives = { λ _ e. e ≡ Memory refused };

    fn from(failed: AllocFailed<T>) -> TextFault {
        TextFault::Memory(Want::from(failed))
    }
}

impl fmt::Display for TextFault {
    ghost output = { λ f. Some (code_of f) };

    fn fmt<W: fmt::Write>(&self, f: &mut fmt::Formatter<W>) -> fmt::Result {
        f.write_str(match self {
            TextFault::NotAscii => "X1",
            TextFault::BadCharacter => "X2",
            TextFault::NumberTooLarge => "X3",
            TextFault::LineTooLong => "X4",
            TextFault::Memory(_want) => "X5",
        })
    }
}

//! Why bytes or parts are no image.
ghost use Rattle.std.specs.Prelude.{◌≡◌, Some};
ghost use Rattle.sbx_parts.specs.declared.fault.ImageFault.TheVariants.{Memory};
ghost use Rattle.sbx_parts.specs.Faults.{code_of};
ghost use Rattle.want.specs.Wants.{refused};

use std::alloc::{AllocError, AllocFailed};
use std::fmt::{self, Error, Formatter, Write};
use want::Want;

/// What is wrong with the first bad field of an image. It is written as `I1` to `I9`, in this order.
#[derive(Clone, Copy, Debug, PartialEq, Eq)]
pub enum ImageFault {
    /// The bytes end before the field does.
    Short,
    /// The first four bytes are not `SBX8`.
    Magic,
    /// The version is none that is known.
    Version,
    /// A service bit has no meaning.
    Service,
    /// A bound is passed.
    Limit,
    /// Bytes stand after the functions.
    Trailing,
    /// An address or a location is out of order.
    Order,
    /// A range's ends are exchanged, or its alignment is above 3.
    Range,
    /// Memory was refused.
    Memory(Want),
}

impl fmt::Display for ImageFault {
    ghost output = { λ f. Some (code_of f) };

    fn fmt<W: Write>(&self, f: &mut Formatter<W>) -> Result<(), Error> {
        f.write_str(match self {
            ImageFault::Short => "I1",
            ImageFault::Magic => "I2",
            ImageFault::Version => "I3",
            ImageFault::Service => "I4",
            ImageFault::Limit => "I5",
            ImageFault::Trailing => "I6",
            ImageFault::Order => "I7",
            ImageFault::Range => "I8",
            ImageFault::Memory(_want) => "I9",
        })
    }
}

impl From<AllocError> for ImageFault {
    ghost from_gives = { λ _ e. e ≡ Memory refused };

    fn from(error: AllocError) -> ImageFault {
        ImageFault::Memory(Want::from(error))
    }
}

impl<T: Drop> From<AllocFailed<T>> for ImageFault {
    ghost from_gives = { λ _ e. e ≡ Memory refused };

    fn from(failed: AllocFailed<T>) -> ImageFault {
        ImageFault::Memory(Want::from(failed))
    }
}

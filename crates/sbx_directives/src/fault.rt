// Why the values of a data directive have no bytes.
ghost use Rattle.std.specs.Prelude.{◌≡◌};
ghost use Rattle.sbx_directives.specs.declared.fault.DataFault.TheVariants.{Memory};
ghost use Rattle.want.specs.Wants.{refused};

use std::alloc::AllocError;
use want::Want;

/// Why the values of a data directive have no bytes. An unknown symbol is told before a value that does not fit.
#[derive(Clone, Copy, PartialEq, Eq)]
pub enum DataFault {
    UnknownSymbol,
    /// The list is none of expressions, or a value does not fit the width.
    Malformed,
    /// Memory was refused.
    Memory(Want),
}

impl From<AllocError> for DataFault {
    ghost from_gives = { λ _ e. e ≡ Memory refused };

    fn from(error: AllocError) -> DataFault {
        DataFault::Memory(Want::from(error))
    }
}

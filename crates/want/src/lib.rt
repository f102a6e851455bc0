//! The evidence that memory was refused.
#![tactic(auto)]

ghost use Rattle.std.specs.Prelude.{◌≡◌};
ghost use Rattle.want.specs.Wants.{refused};

use std::alloc::{AllocError, AllocFailed};

/// What a growth of memory that was refused leaves in the hand of who asked for it. Nothing else makes one: it comes of
/// std's `AllocError`, which `?` turns into it. So an answer that holds it can't be given at will.
#[derive(Clone, Copy, PartialEq, Eq, Debug)]
pub struct Want(AllocError);

impl From<AllocError> for Want {
    ghost from_gives = { λ _ want. want ≡ refused };

    fn from(error: AllocError) -> Want {
        Want(error)
    }
}

impl<T: Drop> From<AllocFailed<T>> for Want {
    ghost from_gives = { λ _ want. want ≡ refused };

    fn from(failed: AllocFailed<T>) -> Want {
        Want(AllocError::from(failed))
    }
}

impl From<Want> for AllocError {
    fn from(want: Want) -> AllocError {
        want.0
    }
}

//! The evidence that `clap` had no memory.
ghost use Rattle.std.specs.Prelude.{◌≡◌, ◌↔◌, IsSome};
ghost use Rattle.clap.specs.Words.{kind_of};

use clap::Error;
use clap::error::ErrorKind;

/// The evidence that `clap` had no memory, whose errors hold none but their kind. It is made of an error of the kind
/// `OutOfMemory`, and of nothing else.
#[derive(Clone, Copy)]
pub struct Starved(());

impl Starved {
    /// The evidence that an error holds, where it is of that kind.
    pub fn of(error: &Error) -> Option<Starved>
        ensures { IsSome result ↔ (kind_of error.now ≡ ErrorKind.OutOfMemory) }
    {
        if error.kind() == ErrorKind::OutOfMemory {
            Some(Starved(()))
        } else {
            None
        }
    }
}

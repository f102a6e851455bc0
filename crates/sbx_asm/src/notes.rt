//! The faults of a line, told one after the other.
ghost use Rattle.std.specs.Prelude.{◌≡◌, [], ◌∷◌};
ghost use Rattle.sbx_asm.specs.Rules.{when};
ghost use Rattle.sbx_asm.specs.Kept.{noted};

use crate::fault::{AsmFault, Cause, told};

/// The line that is read, and the fault that is told so far.
#[derive(Clone, Copy)]
pub struct Notes {
    pub line: usize,
    pub fault: Option<AsmFault>,
}

impl Notes {
    /// One more cause.
    pub fn with(self, cause: Cause) -> Notes
        ensures { result ≡ noted (cause ∷ []) self }
    {
        let line = self.line;
        Notes {
            line,
            fault: told(self.fault, AsmFault { line, cause }),
        }
    }

    /// One more cause, where a test holds.
    pub fn with_where(self, test: bool, cause: Cause) -> Notes
        ensures { result ≡ noted (when test cause) self }
    {
        if test { self.with(cause) } else { self }
    }
}

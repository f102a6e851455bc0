// What a statement's names are worth.
ghost use Rattle.std.specs.Prelude.{◌≡◌, ℕ, List, Option};

/// The symbols and the place of a statement.
pub trait Symbols {
    /// The word of each name that has one.
    ghost values: { Self → List ℕ → Option ℕ };

    /// The address of the statement.
    ghost place: { Self → ℕ };

    /// The word of a name.
    fn value(&self, name: &[u8]) -> Option<u32>
        ensures { result ≡ values self.now name.now };

    /// The address of the statement's first instruction.
    fn here(&self) -> u32
        ensures { result ≡ place self.now };
}

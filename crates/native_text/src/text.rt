//! Text that grows.
ghost use Rattle.std.specs.Prelude.{◌≡◌, ℕ, List, [], ◌++◌, OnOk};
ghost use Rattle.std.specs.Fmt.{decimal};
ghost use Rattle.native_text.specs.Spelling.{label_text, variable_text, word_text};

use std::alloc::{AllocError, Global};
use std::marker::Model;

/// ASCII text.
#[derive(Drop)]
pub struct ProgramText {
    bytes: Vec<u8>,
}

impl Model for ProgramText {
    ghost Value = { List ℕ };

    ghost view = { λ text. text.bytes.items };
}

impl ProgramText {
    /// Of no byte.
    pub fn new(alloc: Global) -> ProgramText
        ensures { result ≡ [] }
    {
        ProgramText {
            bytes: Vec::new(alloc),
        }
    }

    /// The bytes so far.
    pub fn as_bytes(&self) -> &[u8]
        ensures { result.now ≡ self.now }
    {
        self.bytes.as_slice()
    }

    /// More text.
    pub(crate) fn put(&mut self, text: &str) -> Result<(), AllocError>
        ensures { OnOk result (self.new ≡ self.old ++ text.now) }
    {
        self.bytes.extend_from_slice(text.as_bytes())
    }

    /// All of another text.
    pub(crate) fn put_all(&mut self, other: &ProgramText) -> Result<(), AllocError>
        ensures { OnOk result (self.new ≡ self.old ++ other.now) }
    {
        self.bytes.extend_from_slice(other.as_bytes())
    }

    /// A number in decimal digits.
    pub(crate) fn number(&mut self, number: u32) -> Result<(), AllocError>
        ensures { OnOk result (self.new ≡ self.old ++ decimal number) }
    {
        let mut digits = itoa::Buffer::new();
        self.bytes
            .extend_from_slice(digits.format(number).as_bytes())
    }

    /// A word, as a constant of C without a sign.
    pub(crate) fn word(&mut self, word: u32) -> Result<(), AllocError>
        ensures { OnOk result (self.new ≡ self.old ++ word_text word) }
    {
        self.number(word)?;
        self.put("u")
    }

    /// A variable's name.
    pub(crate) fn variable(&mut self, variable: u8) -> Result<(), AllocError>
        ensures { OnOk result (self.new ≡ self.old ++ variable_text variable) }
    {
        self.put("x")?;
        self.number(u32::from(variable))
    }

    /// A label's name.
    pub(crate) fn label(&mut self, label: u32) -> Result<(), AllocError>
        ensures { OnOk result (self.new ≡ self.old ++ label_text label) }
    {
        self.put("L")?;
        self.number(label)
    }
}

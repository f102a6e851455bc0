//! What labels are worth.
ghost use Rattle.std.specs.Prelude.{◌≡◌, IfOk, [], Some};
ghost use Rattle.std.specs.Map.{update};
ghost use Rattle.std.specs.Str.{bytes_eq};
ghost use Rattle.sbx_asm.specs.Addresses.{worth_in};
ghost use Rattle.sbx_asm.specs.Kept.{worth};

use std::alloc::{AllocError, Global};
use std::collections::HashMap;

/// The address of each label, whose bytes lie in the source.
#[derive(Drop)]
pub struct Table<'a> {
    entries: HashMap<&'a [u8], u32>,
}

impl<'a> Table<'a> {
    /// No labels.
    pub(crate) fn new(alloc: Global) -> Table<'a>
        ensures { worth result ≡ worth_in [] }
    {
        Table {
            entries: HashMap::new(alloc),
        }
    }

    /// The address of a label.
    pub fn value(&self, name: &[u8]) -> Option<u32>
        ensures { result ≡ worth self.now name.now }
    {
        self.entries.get(&name).copied()
    }

    /// Puts one more label into the table.
    pub(crate) fn put(&mut self, name: &'a [u8], address: u32) -> Result<(), AllocError>
        ensures { IfOk result (λ _. worth self.new ≡ update bytes_eq (worth self.old) name.now (Some address)) }
    {
        self.entries.insert(name, address)?;
        Ok(())
    }
}

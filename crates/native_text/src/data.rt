//! The first bytes of the data, as an array of C.
ghost use Rattle.std.specs.Prelude.{◌≡◌, ℕ, List, ◌++◌, OnOk};
ghost use Rattle.native_text.specs.Programs.{IsPadded, array_text, bytes_text, joined, rows_text};
ghost use Rattle.native_text.specs.Words.{AreWordRows, AreWords};

use crate::text::ProgramText;
use std::alloc::AllocError;

/// How many bytes a row has.
const IN_ROW: usize = 32;

/// The bytes up to the last one that isn't 0.
fn without_zeros(bytes: &[u8]) -> &[u8]
    ensures { IsPadded result.now bytes.now }
{
    let mut front = bytes;
    while let [before @ .., 0] = front {
        front = before;
    }
    front
}

impl ProgramText {
    /// Bytes, with a comma behind each.
    pub(crate) fn bytes(&mut self, bytes: &[u8]) -> Result<(), AllocError>
        ensures text { OnOk result (self.new ≡ self.old ++ bytes_text bytes.now) }
        ensures words { OnOk result (AreWords bytes.now) }
    {
        for byte in bytes {
            self.number(u32::from(*byte))?;
            self.put(",")?;
        }
        Ok(())
    }

    /// Bytes in rows.
    fn rows(&mut self, bytes: &[u8]) -> Result<(), AllocError>
        ensures { OnOk result ((rows : List (List ℕ)) × (self.new ≡ self.old ++ rows_text rows)
            × (joined rows ≡ bytes.now) × AreWordRows rows) }
    {
        for row in bytes.chunks(IN_ROW) {
            self.put("    ")?;
            self.bytes(row)?;
            self.put("\n")?;
        }
        Ok(())
    }

    /// An array's name and its bytes, in rows. An array of C has an element at least, so a zero stands at its end.
    pub(crate) fn array(&mut self, head: &str, bytes: &[u8]) -> Result<(), AllocError>
        ensures { OnOk result ((rows : List (List ℕ)) × (self.new ≡ self.old ++ array_text head.now rows)
            × IsPadded (joined rows) bytes.now × AreWordRows rows) }
    {
        self.put(head)?;
        self.put(" = {\n")?;
        self.rows(without_zeros(bytes))?;
        self.put("    0};\n")
    }
}

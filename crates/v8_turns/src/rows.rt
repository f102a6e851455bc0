//! The rows of the format table, by which lines are counted.

/// A row: the words that have these bits under the mask, and its name.
pub struct Row {
    mask: u32,
    value: u32,
    pub name: &'static str,
}

/// How many rows there are.
pub const COUNT: usize = 85;

/// The rows (appendix F, "Opcodes").
pub static ROWS: [Row; COUNT] = [
    Row {
        mask: 0xc1f80000,
        value: 0x80000000,
        name: "Add",
    },
    Row {
        mask: 0xc1f80000,
        value: 0x80080000,
        name: "And",
    },
    Row {
        mask: 0xc1f80000,
        value: 0x80100000,
        name: "Or",
    },
    Row {
        mask: 0xc1f80000,
        value: 0x80180000,
        name: "Xor",
    },
    Row {
        mask: 0xc1f80000,
        value: 0x80200000,
        name: "Sub",
    },
    Row {
        mask: 0xc1f80000,
        value: 0x80280000,
        name: "Andn",
    },
    Row {
        mask: 0xc1f80000,
        value: 0x80300000,
        name: "Orn",
    },
    Row {
        mask: 0xc1f80000,
        value: 0x80380000,
        name: "Xnor",
    },
    Row {
        mask: 0xc1f80000,
        value: 0x80400000,
        name: "Addx",
    },
    Row {
        mask: 0xc1f80000,
        value: 0x80500000,
        name: "Umul",
    },
    Row {
        mask: 0xc1f80000,
        value: 0x80580000,
        name: "Smul",
    },
    Row {
        mask: 0xc1f80000,
        value: 0x80600000,
        name: "Subx",
    },
    Row {
        mask: 0xc1f80000,
        value: 0x80700000,
        name: "Udiv",
    },
    Row {
        mask: 0xc1f80000,
        value: 0x80780000,
        name: "Sdiv",
    },
    Row {
        mask: 0xc1f80000,
        value: 0x80800000,
        name: "AddCc",
    },
    Row {
        mask: 0xc1f80000,
        value: 0x80880000,
        name: "AndCc",
    },
    Row {
        mask: 0xc1f80000,
        value: 0x80900000,
        name: "OrCc",
    },
    Row {
        mask: 0xc1f80000,
        value: 0x80980000,
        name: "XorCc",
    },
    Row {
        mask: 0xc1f80000,
        value: 0x80a00000,
        name: "SubCc",
    },
    Row {
        mask: 0xc1f80000,
        value: 0x80a80000,
        name: "AndnCc",
    },
    Row {
        mask: 0xc1f80000,
        value: 0x80b00000,
        name: "OrnCc",
    },
    Row {
        mask: 0xc1f80000,
        value: 0x80b80000,
        name: "XnorCc",
    },
    Row {
        mask: 0xc1f80000,
        value: 0x80c00000,
        name: "AddxCc",
    },
    Row {
        mask: 0xc1f80000,
        value: 0x80d00000,
        name: "UmulCc",
    },
    Row {
        mask: 0xc1f80000,
        value: 0x80d80000,
        name: "SmulCc",
    },
    Row {
        mask: 0xc1f80000,
        value: 0x80e00000,
        name: "SubxCc",
    },
    Row {
        mask: 0xc1f80000,
        value: 0x80f00000,
        name: "UdivCc",
    },
    Row {
        mask: 0xc1f80000,
        value: 0x80f80000,
        name: "SdivCc",
    },
    Row {
        mask: 0xc1f80000,
        value: 0x81000000,
        name: "TaddCc",
    },
    Row {
        mask: 0xc1f80000,
        value: 0x81080000,
        name: "TsubCc",
    },
    Row {
        mask: 0xc1f80000,
        value: 0x81100000,
        name: "TaddCcTv",
    },
    Row {
        mask: 0xc1f80000,
        value: 0x81180000,
        name: "TsubCcTv",
    },
    Row {
        mask: 0xc1f80000,
        value: 0x81200000,
        name: "MulsCc",
    },
    Row {
        mask: 0xc1f80000,
        value: 0x81280000,
        name: "Sll",
    },
    Row {
        mask: 0xc1f80000,
        value: 0x81300000,
        name: "Srl",
    },
    Row {
        mask: 0xc1f80000,
        value: 0x81380000,
        name: "Sra",
    },
    Row {
        mask: 0xc1f80000,
        value: 0x81480000,
        name: "ReadPsr",
    },
    Row {
        mask: 0xc1f80000,
        value: 0x81500000,
        name: "ReadWim",
    },
    Row {
        mask: 0xc1f80000,
        value: 0x81580000,
        name: "ReadTbr",
    },
    Row {
        mask: 0xc1f80000,
        value: 0x81880000,
        name: "WritePsr",
    },
    Row {
        mask: 0xc1f80000,
        value: 0x81900000,
        name: "WriteWim",
    },
    Row {
        mask: 0xc1f80000,
        value: 0x81980000,
        name: "WriteTbr",
    },
    Row {
        mask: 0xc1f80000,
        value: 0x81c00000,
        name: "Jmpl",
    },
    Row {
        mask: 0xc1f80000,
        value: 0x81c80000,
        name: "Rett",
    },
    Row {
        mask: 0xc1f80000,
        value: 0x81d00000,
        name: "Ticc",
    },
    Row {
        mask: 0xc1f80000,
        value: 0x81d80000,
        name: "Flush",
    },
    Row {
        mask: 0xc1f80000,
        value: 0x81e00000,
        name: "Save",
    },
    Row {
        mask: 0xc1f80000,
        value: 0x81e80000,
        name: "Restore",
    },
    Row {
        mask: 0xc1ffc000,
        value: 0x81400000,
        name: "ReadY",
    },
    Row {
        mask: 0xffffc000,
        value: 0x8143c000,
        name: "Stbar",
    },
    Row {
        mask: 0xfff80000,
        value: 0x81800000,
        name: "WriteY",
    },
    Row {
        mask: 0xc1f00000,
        value: 0x81a00000,
        name: "FpOperate",
    },
    Row {
        mask: 0xc1f00000,
        value: 0x81b00000,
        name: "CpOperate",
    },
    Row {
        mask: 0xc1f80000,
        value: 0xc0000000,
        name: "Load",
    },
    Row {
        mask: 0xc1f80000,
        value: 0xc0080000,
        name: "LoadUnsignedByte",
    },
    Row {
        mask: 0xc1f80000,
        value: 0xc0100000,
        name: "LoadUnsignedHalf",
    },
    Row {
        mask: 0xc1f80000,
        value: 0xc0180000,
        name: "LoadDouble",
    },
    Row {
        mask: 0xc1f80000,
        value: 0xc0200000,
        name: "Store",
    },
    Row {
        mask: 0xc1f80000,
        value: 0xc0280000,
        name: "StoreByte",
    },
    Row {
        mask: 0xc1f80000,
        value: 0xc0300000,
        name: "StoreHalf",
    },
    Row {
        mask: 0xc1f80000,
        value: 0xc0380000,
        name: "StoreDouble",
    },
    Row {
        mask: 0xc1f80000,
        value: 0xc0480000,
        name: "LoadSignedByte",
    },
    Row {
        mask: 0xc1f80000,
        value: 0xc0500000,
        name: "LoadSignedHalf",
    },
    Row {
        mask: 0xc1f80000,
        value: 0xc0680000,
        name: "LoadStoreUnsignedByte",
    },
    Row {
        mask: 0xc1f80000,
        value: 0xc0780000,
        name: "Swap",
    },
    Row {
        mask: 0xc1f80000,
        value: 0xc0800000,
        name: "LoadAlternate",
    },
    Row {
        mask: 0xc1f80000,
        value: 0xc0880000,
        name: "LoadUnsignedByteAlternate",
    },
    Row {
        mask: 0xc1f80000,
        value: 0xc0900000,
        name: "LoadUnsignedHalfAlternate",
    },
    Row {
        mask: 0xc1f80000,
        value: 0xc0980000,
        name: "LoadDoubleAlternate",
    },
    Row {
        mask: 0xc1f80000,
        value: 0xc0a00000,
        name: "StoreAlternate",
    },
    Row {
        mask: 0xc1f80000,
        value: 0xc0a80000,
        name: "StoreByteAlternate",
    },
    Row {
        mask: 0xc1f80000,
        value: 0xc0b00000,
        name: "StoreHalfAlternate",
    },
    Row {
        mask: 0xc1f80000,
        value: 0xc0b80000,
        name: "StoreDoubleAlternate",
    },
    Row {
        mask: 0xc1f80000,
        value: 0xc0c80000,
        name: "LoadSignedByteAlternate",
    },
    Row {
        mask: 0xc1f80000,
        value: 0xc0d00000,
        name: "LoadSignedHalfAlternate",
    },
    Row {
        mask: 0xc1f80000,
        value: 0xc0e80000,
        name: "LoadStoreUnsignedByteAlternate",
    },
    Row {
        mask: 0xc1f80000,
        value: 0xc0f80000,
        name: "SwapAlternate",
    },
    Row {
        mask: 0xc1c00000,
        value: 0xc1000000,
        name: "FpMemory",
    },
    Row {
        mask: 0xc1c00000,
        value: 0xc1800000,
        name: "CpMemory",
    },
    Row {
        mask: 0xc0000000,
        value: 0x40000000,
        name: "Call",
    },
    Row {
        mask: 0xc1c00000,
        value: 0x00000000,
        name: "Unimp",
    },
    Row {
        mask: 0xc1c00000,
        value: 0x00800000,
        name: "Bicc",
    },
    Row {
        mask: 0xc1c00000,
        value: 0x01000000,
        name: "Sethi",
    },
    Row {
        mask: 0xc1c00000,
        value: 0x01800000,
        name: "FpBranch",
    },
    Row {
        mask: 0xc1c00000,
        value: 0x01c00000,
        name: "CpBranch",
    },
];

/// The number of the row that a word matches; COUNT where there is none.
pub fn row_number(word: u32) -> usize {
    for (number, row) in ROWS.iter().enumerate() {
        if word & row.mask == row.value {
            return number;
        }
    }
    COUNT
}

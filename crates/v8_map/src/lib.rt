//! The address map: what lies where, in virtual and in physical memory. Every other crate takes its addresses from
//! here.
#![tactic(auto)]

ghost use Rattle.v8_map.specs.Parts.{AreApart, HasRoom};

/// Bytes of a page.
pub const PAGE: u32 = 0x1000;

/// Code has the virtual addresses from `CODE_START` up to `CODE_END`, and lies in RAM from `CODE_PLACE` on.
pub const CODE_START: u32 = 0x0004_0000;

pub const CODE_END: u32 = 0x0008_0000;

pub const CODE_PLACE: u32 = 0x0001_0000;

/// Data has the virtual addresses from `DATA_START` up to `DATA_END`, and lies in RAM from `DATA_PLACE` on.
pub const DATA_START: u32 = 0x0008_0000;

pub const DATA_END: u32 = 0x000C_0000;

pub const DATA_PLACE: u32 = 0x0005_0000;

/// The stack's pages end at `STACK_END`, and the lowest that it can have is that of `STACK_LOWEST`, which lies in RAM
/// at `STACK_PLACE`.
pub const STACK_LOWEST: u32 = 0x000F_0000;

pub const STACK_END: u32 = 0x0010_0000;

pub const STACK_PLACE: u32 = 0x0009_0000;

/// The stack pointer that a program starts with: the save area of its first frame ends the stack.
pub const STACK_START: u32 = 0x000F_FFC0;

/// The trap table's page, which lies at the start of RAM.
pub const TRAP_TABLE: u32 = 0xF000_0000;

pub const TRAP_TABLE_PLACE: u32 = 0;

/// The page of the window handlers.
pub const HANDLERS: u32 = 0xF000_1000;

pub const HANDLERS_PLACE: u32 = 0x1000;

/// The device's page. Its place is a physical address past the words of 32 bits.
pub const DEVICE: u32 = 0xF001_0000;

pub const DEVICE_PLACE: u64 = 0x1_0000_0000;

/// Bytes of RAM, which begins at physical address 0.
pub const RAM: u32 = 0x0010_0000;

/// The page tables' places in RAM: the context table, the one of regions of 16 MB, those of regions of 256 KB for
/// programs and for the system, those of pages, and where they end.
pub const CONTEXT_TABLE: u32 = 0x2000;

pub const REGION_TABLE: u32 = 0x2400;

pub const PROGRAM_TABLE: u32 = 0x2800;

pub const SYSTEM_REGION_TABLE: u32 = 0x2900;

pub const CODE_TABLE: u32 = 0x2A00;

pub const DATA_TABLE: u32 = 0x2B00;

pub const STACK_TABLE: u32 = 0x2C00;

pub const SYSTEM_TABLE: u32 = 0x2D00;

pub const TABLES_END: u32 = 0x2E00;

/// No two parts of the map share a virtual or a physical address, and the page tables are in no part.
pub fn parts_are_apart()
    ensures { AreApart }
{}

/// Each part but the device lies in RAM.
pub fn parts_lie_in_ram()
    ensures { HasRoom }
{}

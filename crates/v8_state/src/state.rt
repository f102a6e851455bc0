//! What the processor holds.
use v8_windows::RegFile;
use v8_word::{Icc, TrapType};

/// What the processor holds beside its register windows (chapter 4).
#[derive(Clone, Copy)]
pub struct Control {
    /// The address of the instruction that comes next.
    pub pc: u32,
    /// The address of the instruction after that one.
    pub npc: u32,
    /// Whether the instruction that comes next is annulled.
    pub annul: bool,
    pub icc: Icc,
    pub y: u32,
    /// The processor interrupt level, 0 to 15.
    pub pil: u8,
    /// Supervisor mode.
    pub s: bool,
    /// The mode before the most recent trap.
    pub ps: bool,
    /// Whether traps are enabled.
    pub et: bool,
    /// The trap base address, the first 20 bits of TBR; the others are 0.
    pub base: u32,
    /// The type of the most recent trap.
    pub tt: TrapType,
    /// The MMU's fault status (appendix H).
    pub status: u32,
    /// The trap that put the processor into error mode.
    pub error: Option<TrapType>,
}

/// A processor of `N` register windows.
#[derive(Drop)]
pub struct Cpu<const N: usize> {
    pub regs: RegFile<N>,
    pub control: Control,
}

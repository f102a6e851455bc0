//! What a run tells of itself.

/// Where a step is: its address, whether it is annulled, and the address of the data that it reaches.
#[derive(Clone, Copy)]
pub struct Place {
    pub pc: u32,
    pub annulled: bool,
    pub address: Option<u32>,
}

/// What a path comes to on a machine with n windows, of which one stays free for traps.
#[derive(Clone, Copy)]
pub struct Traffic {
    /// Windows that hold a frame, from 1 to n - 1.
    pub windows: u32,
    pub overflows: u64,
    pub underflows: u64,
    pub turns: u64,
}

/// Why a state is wrong.
#[derive(Clone, Copy)]
pub enum Wrong {
    /// PC is not in the code.
    OutsideCode,
    /// Sandboxed code may not have this instruction.
    NotAdmitted,
    /// A target or an access is not a multiple of its size.
    Misaligned,
    /// An access isn't wholly in one region of the data, one that may be written if it writes, and is not to a slot of
    /// the newest frame.
    OutsideData,
    ZeroDivisor,
    TagOverflow,
    /// A service that there is not, or that the image does not declare.
    NoService,
    /// The oldest frame has none to go back to.
    NoCaller,
    /// A new frame is misplaced.
    BadFrame,
    /// %sp or %fp is written, but by SAVE.
    StackPointer,
}

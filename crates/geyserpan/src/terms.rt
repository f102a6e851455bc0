//! What a host grants.

/// The least count of windows that a host may ask for.
pub const LEAST_WINDOWS: u32 = 4;

/// The greatest.
pub const MOST_WINDOWS: u32 = 32;

/// What a host grants: so many turns and bytes of output at most, these services, and on how many windows a run is
/// made.
#[repr(C)]
#[derive(Clone, Copy)]
pub struct Terms {
    pub turns: u64,
    pub output: u64,
    pub services: u32,
    pub windows: u32,
}

/// Why an image is denied, or a source has no image: the number of the fault, the rule or the cause, the rule's
/// function, and the address, or the line.
#[repr(C)]
#[derive(Clone, Copy)]
pub struct Why {
    pub number: u32,
    pub function: u32,
    pub address: u32,
}

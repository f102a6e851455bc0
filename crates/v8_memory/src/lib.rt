//! The memory of the board: RAM of 1 MiB and a device over a port, as a bus.
#![tactic(auto)]

mod memory;
mod port;
mod ram;

pub use memory::Memory;
pub use port::Port;
pub use ram::Ram;

// The bus and the reference MMU of SPARC V8 (appendix H).
#![tactic(auto)]

mod access;
mod bus;
pub mod laws;
mod translation;
mod walks;

pub use access::{Access, AccessKind};
pub use bus::{Bus, BusFault, PortBus, PortFault, Stop};
pub use translation::{Found, MmuFault, MmuRegs, PageEntry};
pub use v8_word::Size;
pub use walks::{DeadEnd, Path, allow, find_page, follow, mark, mark_page, walk};

//! The words of a LEON3 that aren't the sandbox machine's: the boot stub, and the services over RAM, the UART or a
//! device. Each stands beside the instruction that it is; `tests/board` assembles the sources anew.
#![tactic(auto)]

mod boot;
mod mail;
mod services;
mod uart;

pub use boot::{BOOT_WORDS, Boot, boot_words};
pub use services::LeonServices;

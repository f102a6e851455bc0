//! The interpreter's state.
ghost use Rattle.std.specs.Prelude.{◌≡◌, length};
ghost use Rattle.native_lang.specs.Counts.{Counted};

use crate::expr::Variables;
use sbx_flat::Traffic;

/// The locals and the ins of a saved window.
#[derive(Clone, Copy)]
pub struct SavedWindow {
    pub locals: [u32; 8],
    pub ins: [u32; 8],
}

/// What a program's statements change.
#[derive(Drop)]
pub struct Interpreter<'a> {
    pub variables: Variables,
    pub saved: Vec<SavedWindow>,
    pub block: Vec<u8>,
    pub input: &'a [u8],
    pub output: Vec<u8>,
    pub traffic: Traffic,
    pub windows: u32,
    pub ghost size: { length block.items ≡ 524288 },
    pub ghost counted: { Counted windows traffic },
}

//! Programs: blocks of statements, by their labels.
ghost use Rattle.std.specs.Prelude.{◌≡◌, ◌≤◌, length};
ghost use Rattle.native_lang.specs.Arms.{arm_of};

use crate::expr::Expr;
use crate::stmt::Stmt;

/// A word, and the label where a run goes on at it.
#[derive(Clone, Copy)]
pub struct Arm {
    pub word: u32,
    pub label: u32,
}

/// How a block ends.
#[derive(Drop)]
pub enum BlockEnd {
    /// On at a label.
    Goto(u32),
    /// On at the first label where the value isn't 0, else at the second.
    If(Expr, u32, u32),
    /// The run is over, with an exit word.
    Exit(Expr),
    /// On at the label whose word a variable holds.
    Dispatch(u8, Vec<Arm>),
}

/// Statements one after another, and what comes then.
#[derive(Drop)]
pub struct ProgramBlock {
    pub statements: Vec<Stmt>,
    pub end: BlockEnd,
}

/// Blocks, each one's label its place, and the first bytes of the data. All else is 0.
#[derive(Drop)]
pub struct NativeProgram {
    pub blocks: Vec<ProgramBlock>,
    pub data: Vec<u8>,
    pub ghost few: { length data.items ≤ 524288 },
}

/// The label whose word this is.
pub(crate) fn arm_of(arms: &[Arm], word: u32) -> Option<u32>
    ensures { result ≡ arm_of arms.now word }
{
    for arm in arms {
        if arm.word == word {
            return Some(arm.label);
        }
    }
    None
}

//! Why a line of a source is told, each cause in a sentence of its own, and the place in the line that it speaks of: a
//! token, an operand of a statement or of a directive, or the line's end.
#![tactic(auto)]

mod directives;
mod lists;
mod marks;
mod reasons;
mod settings;
mod shapes;
mod statements;
mod texts;

pub use marks::{mark_of, whole_reason};
pub use reasons::{
    LimitReason, Mark, OperandReason, PlaceReason, ShapeReason, StatementReason, TextReason,
};
pub use settings::Setting;

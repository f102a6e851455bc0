//! The law of `fit annotate`: what is found of a source's program is put into it, and nothing else of it changes. That
//! is looked at where it is done, whoever found it; and where a line has the numbers that may change.
#![tactic(auto)]

mod annotating;
mod annotation;
mod inserting;
mod keeping;
mod lines;

pub use annotating::{AnnotationRefusal, annotate};
pub use annotation::{Addition, Annotation, FunctionTotal, Value};
pub use inserting::insert;
pub use keeping::is_annotated;

//! What a page tells of a source, an image or a run, as a static library: each call writes a text to the front of room
//! of the caller's, and tells how long it is. A call holds nothing when it ends.
#![tactic(auto)]

mod annotations;
mod denied;
mod images;
mod pages;
mod room;
mod runs;
mod sources;

//! Geyserpan as a static library, for C and by it for every language: the calls of include/geyserpan.h.
#![tactic(auto)]

mod admitting;
mod engine_exports;
mod engine_handle;
mod engine_running;
mod engine_slot;
mod facts;
mod image_exports;
mod image_handle;
mod image_slot;
mod loose;
mod names;
mod numbers;
mod room;
mod run_exports;
mod run_handle;
mod run_slot;
mod running;
mod source_exports;
mod statuses;
mod telling;
mod terms;
mod text_exports;

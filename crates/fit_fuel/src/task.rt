//! The function that is looked at, and what is known of its program.
use crate::meter::Meter;
use crate::totals::CallTotal;
use fit_code::{Function, Program};
use fit_ranges::Ranges;
use std::alloc::Global;

/// A function that is to declare something.
#[derive(Clone, Copy)]
pub struct Task<'t> {
    pub alloc: Global,
    pub ranges: &'t Ranges,
    /// Its number.
    pub number: usize,
    pub meter: Option<&'t Meter>,
    /// What those take that it calls.
    pub known: &'t [Option<CallTotal>],
    /// The turns that its blocks weigh less than their steps and their ends; none of blocks that aren't named here.
    pub spared: &'t [u64],
}

/// The same, with its program and its text.
#[derive(Clone, Copy)]
pub struct FuelTask<'s> {
    pub program: &'s Program,
    pub function: &'s Function,
    pub task: &'s Task<'s>,
}

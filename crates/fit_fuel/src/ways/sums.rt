//! Sums of multiples of locations, and the values that they can have. A sum past the greatest number stays there, and
//! is refused as a budget.
use arrayvec::ArrayVec;
use fit_cells::range_in;
use sbx_domain::State;
use sbx_form::FormTerm;
use sbx_parts::{Cell, Range, Term};
use std::alloc::Global;

/// A multiple of the number that a location begins with.
#[derive(Clone, Copy)]
struct Multiple {
    location: u16,
    times: i64,
}

/// A number, and multiples of locations.
#[derive(Drop)]
pub struct LinearSum {
    constant: i64,
    multiples: Vec<Multiple>,
    /// Whether memory was refused for one of them.
    pub is_refused: bool,
}

/// The least and the greatest of so many times the words of a range.
fn ends_of(times: i64, range: Range) -> (i64, i64) {
    let low = times.saturating_mul(i64::from(range.lo));
    let high = times.saturating_mul(i64::from(range.hi));
    (low.min(high), low.max(high))
}

impl LinearSum {
    /// A number, from which a block's own terms are taken away.
    pub fn without(alloc: Global, constant: i64, terms: &[Term]) -> LinearSum {
        let mut sum = LinearSum {
            constant,
            multiples: Vec::new(alloc),
            is_refused: false,
        };
        for term in terms {
            sum.add(term.location, i64::from(term.coefficient).saturating_neg());
        }
        sum
    }

    /// Adds so many times a location.
    fn add(&mut self, location: u16, times: i64) {
        let mut is_found = false;
        for multiple in self.multiples.as_mut_slice() {
            if multiple.location == location {
                multiple.times = multiple.times.saturating_add(times);
                is_found = true;
            }
        }
        if !is_found {
            self.is_refused |= self.multiples.push(Multiple { location, times }).is_err();
        }
    }

    /// Adds the terms of a form so many times.
    fn add_times(&mut self, times: i64, terms: &[FormTerm]) {
        for term in terms {
            let coefficient = i64::try_from(term.coefficient).unwrap_or(i64::MAX);
            self.add(term.location, times.saturating_mul(coefficient));
        }
    }

    /// Adds what a block's terms come to at its beginning, where the state is that on the way there.
    pub fn add_terms(&mut self, state: &State, terms: &[Term]) {
        for term in terms {
            let times = i64::from(term.coefficient);
            let mut more = i64::MAX;
            if let Some(form) = state.form(term.location) {
                let others: ArrayVec<FormTerm, 8> = form.terms();
                self.add_times(times, others.as_slice());
                more = times.saturating_mul(form.constant());
            } else if let Some(range) = state.range(term.location) {
                (_, more) = ends_of(times, range);
            }
            self.constant = self.constant.saturating_add(more);
        }
    }

    /// Whether what was taken away first has been added again.
    pub fn is_cancelled(&self) -> bool {
        matches!(self.multiples.first(), Some(first) if first.times == 0)
    }

    /// The least and the greatest value over all numbers of the cells' ranges; a location that they don't name may be
    /// any word.
    pub fn ends(&self, cells: &[Cell]) -> (i64, i64) {
        let (mut least, mut greatest) = (self.constant, self.constant);
        for multiple in self.multiples.as_slice() {
            let range = range_in(cells, multiple.location).unwrap_or(Range {
                lo: i32::MIN,
                hi: i32::MAX,
                alignment: 0,
            });
            let (low, high) = ends_of(multiple.times, range);
            least = least.saturating_add(low);
            greatest = greatest.saturating_add(high);
        }
        (least, greatest)
    }
}

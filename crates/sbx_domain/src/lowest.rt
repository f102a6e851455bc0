//! The least value of a form.
ghost use Rattle.std.specs.Prelude.{◌≡◌, ◌≤◌, ◌^◌, length, unsigned_abs};
ghost use Rattle.sbx_form.specs.Forms.{AreWithin, least_terms};
ghost use Rattle.sbx_domain.specs.Known.{known};
ghost use Rattle.sbx_domain.specs.Least.{IsLeast, ends_known, least_value, range_or_zero};

use crate::lin::{Lin, with_constant};
use crate::state::State;
use arrayvec::ArrayVec;
use sbx_form::{FormTerm, least_term, plus};
use sbx_range::Range;

fn range_or_zero(range: Option<Range>) -> Range
    ensures { result ≡ range_or_zero range }
{
    range.unwrap_or(Range {
        lo: 0,
        hi: 0,
        alignment: 0,
    })
}

/// The least value of terms.
fn least_of(terms: &[FormTerm], start: &State) -> i128
    requires few { length terms.now ≤ 8 }
    requires small { AreWithin (2 ^ 32) terms.now }
    ensures value { result ≡ least_terms (ends_known (known start.now)) terms.now }
    ensures bound { unsigned_abs result ≤ 2 ^ 106 }
{
    let mut least = 0;
    for term in terms {
        let range = range_or_zero(start.range(term.location));
        least = plus(least, least_term(range, *term));
    }
    least
}

/// The least value of a form over all numbers from the lower to the upper ends of what is known where its block starts.
/// Alignments don't matter. A location that isn't defined there counts as 0. No such numbers make the form less, and
/// some make it that, where there are any.
#[tactic(auto, unfolding(crate::specs::Least::least_value))]
pub fn least(form: &Lin, start: &State) -> i128
    ensures value { result ≡ least_value (ends_known (known start.now)) form.now }
    ensures least { IsLeast (ends_known (known start.now)) form.now result }
{
    let terms: ArrayVec<FormTerm, 8> = form.terms();
    with_constant(least_of(terms.as_slice(), start), form.constant())
}

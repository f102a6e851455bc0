//! Sums of terms along an edge, and the least that they can be.
//!
//! Numbers are `i128`: a coefficient of fuel is below 2^32 in magnitude, one of a form is at most 2^32 and its constant
//! at most 2^40. At most 64 products of two such coefficients come to one, so it stays below 2^70; times a word that is
//! 2^102, and at most 72 of these are added up.
ghost use Rattle.std.specs.Prelude.{◌≡◌, ℕ, ◌+◌, ◌*◌, ◌^◌, ◌<◌, ◌≤◌, ◌*ℤ◌, length, unsigned_abs, IfSome};
ghost use Rattle.arrayvec.specs.ArrayVec.{array_vec_len};
ghost use Rattle.sbx_form.specs.Forms.{AreWithin, add_term, add_terms};
ghost use Rattle.sbx_rules.specs.Known.{form_at, known, range_at, started};
ghost use Rattle.sbx_rules.specs.Ways.{cells_of};
ghost use Rattle.sbx_fuel.specs.Least.{both, least_in, least_over, taken, taken_by};
ghost use Rattle.sbx_fuel.specs.Margins.{less_terms, start_terms};

use crate::starts::{negated, start_range};
use arrayvec::ArrayVec;
use sbx_form::{FormTerm, add_term, least_term, plus};
use sbx_image::{Block, Function, Range};
use sbx_rules::State;

fn product(times: i128, number: i128) -> i128
    requires small_times { unsigned_abs times ≤ 2 ^ 31 }
    requires small { unsigned_abs number ≤ 2 ^ 40 }
    ensures value { result ≡ times *ℤ number }
    ensures bound { unsigned_abs result ≤ 2 ^ 71 }
{
    times * number
}

/// Adds so many times a term to terms.
fn add_times_term<const N: usize>(terms: &mut ArrayVec<FormTerm, N>, times: i128, term: FormTerm)
    requires room { array_vec_len terms.old < N }
    requires small { AreWithin (2 ^ 90) terms.old.items }
    requires small_times { unsigned_abs times ≤ 2 ^ 31 }
    requires small_term { unsigned_abs term.coefficient ≤ 2 ^ 32 }
    ensures { terms.new.items ≡ add_term term.location (times *ℤ term.coefficient) terms.old.items }
{
    add_term(terms, term.location, product(times, term.coefficient));
}

/// Adds so many times a form's terms to terms.
fn add_times<const N: usize>(terms: &mut ArrayVec<FormTerm, N>, times: i128, form: &[FormTerm])
    requires room { array_vec_len terms.old + length form.now ≤ N }
    requires few { length form.now ≤ 8 }
    requires small { AreWithin (2 ^ 80) terms.old.items }
    requires small_times { unsigned_abs times ≤ 2 ^ 31 }
    requires small_form { AreWithin (2 ^ 32) form.now }
    ensures { terms.new.items ≡ add_terms times form.now terms.old.items }
{
    for term in form {
        add_times_term(terms, times, *term);
    }
}

/// Takes a term of another block's fuel away, where its location has a form: as many times the form's terms.
fn less_form<const N: usize>(terms: &mut ArrayVec<FormTerm, N>, now: &State, term: FormTerm)
    requires room { array_vec_len terms.old + 8 ≤ N }
    requires small { AreWithin (2 ^ 80) terms.old.items }
    requires small_term { unsigned_abs term.coefficient ≤ 2 ^ 31 }
    ensures value { terms.new.items ≡
        less_terms term.coefficient (form_at (known now.now) term.location) terms.old.items }
    ensures few { array_vec_len terms.new ≤ array_vec_len terms.old + 8 }
    ensures within { (m : ℕ) → AreWithin m terms.old.items → AreWithin (m + 2 ^ 66) terms.new.items }
{
    if let Some(form) = now.form(term.location) {
        let more: ArrayVec<FormTerm, 8> = form.terms();
        add_times(terms, negated(term).coefficient, more.as_slice());
    }
}

/// Takes the terms of another block's fuel away, where their locations have forms.
pub(crate) fn less_forms<const N: usize>(
    terms: &mut ArrayVec<FormTerm, N>,
    now: &State,
    next: &[FormTerm],
)
    requires few { length next.now ≤ 8 }
    requires room { array_vec_len terms.old + 8 * length next.now ≤ N }
    requires small { AreWithin (2 ^ 31) terms.old.items }
    requires small_next { AreWithin (2 ^ 31) next.now }
    ensures value { terms.new.items ≡ start_terms (known now.now) next.now terms.old.items }
    ensures small { AreWithin (2 ^ 70) terms.new.items }
{
    for term in next {
        less_form(terms, now, *term);
    }
}

/// The least value of a term over a range of its number; none without a range, where it may be any number.
fn least_in(range: Option<Range>, term: FormTerm) -> Option<i128>
    requires { unsigned_abs term.coefficient ≤ 2 ^ 70 }
    ensures value { result ≡ least_in range term.coefficient }
    ensures bound { IfSome result (λ m. unsigned_abs m ≤ 2 ^ 102) }
{
    match range {
        Some(range) => Some(least_term(range, term)),
        None => None,
    }
}

/// One more number to a sum of so many, where both are there.
fn both(more: Option<i128>, sum: Option<i128>, count: usize) -> Option<i128>
    requires few { count ≤ 100 }
    requires more { IfSome more (λ m. unsigned_abs m ≤ 2 ^ 102) }
    requires sum { IfSome sum (λ m. unsigned_abs m ≤ count * 2 ^ 102) }
    ensures value { result ≡ both more sum }
    ensures bound { IfSome result (λ m. unsigned_abs m ≤ (count + 1) * 2 ^ 102) }
{
    match (more, sum) {
        (Some(more), Some(sum)) => Some(plus(sum, more)),
        _ => None,
    }
}

/// The least value of terms over the numbers that a block starts with; none where a term's location may hold any
/// number.
#[tactic(auto, unfolding(crate::specs::Least::least_over))]
pub(crate) fn least_at_start(
    function: &Function,
    number: usize,
    block: &Block,
    terms: &[FormTerm],
) -> Option<i128>
    requires few { length terms.now ≤ 72 }
    requires small { AreWithin (2 ^ 70) terms.now }
    ensures value { result ≡ least_over (range_at (started (cells_of function.now number block.now))) terms.now }
    ensures bound { IfSome result (λ m. unsigned_abs m ≤ length terms.now * 2 ^ 102) }
{
    match terms.split_first() {
        Some((term, rest)) => {
            let range = start_range(function, number, block, term.location);
            let least = least_at_start(function, number, block, rest);
            both(least_in(range, *term), least, rest.len())
        }
        None => Some(0),
    }
}

/// What a term of another block's fuel adds where it is taken away: so many times its form's constant, whose terms are
/// taken away by `less_forms`, or the least over its range.
fn taken(now: &State, term: FormTerm) -> Option<i128>
    requires { unsigned_abs term.coefficient ≤ 2 ^ 31 }
    ensures value { result ≡
        taken term.coefficient (form_at (known now.now) term.location) (range_at (known now.now) term.location) }
    ensures bound { IfSome result (λ m. unsigned_abs m ≤ 2 ^ 102) }
{
    let opposite = negated(term);
    match now.form(term.location) {
        Some(form) => Some(product(opposite.coefficient, i128::from(form.constant()))),
        None => least_in(now.range(term.location), opposite),
    }
}

/// The same of all terms; none where one's location may hold any number.
#[tactic(auto, unfolding(crate::specs::Least::taken_by))]
pub(crate) fn taken_by(now: &State, terms: &[FormTerm]) -> Option<i128>
    requires few { length terms.now ≤ 8 }
    requires small { AreWithin (2 ^ 31) terms.now }
    ensures value { result ≡ taken_by (known now.now) terms.now }
    ensures bound { IfSome result (λ m. unsigned_abs m ≤ length terms.now * 2 ^ 102) }
{
    match terms.split_first() {
        Some((term, rest)) => {
            let least = taken_by(now, rest);
            both(taken(now, *term), least, rest.len())
        }
        None => Some(0),
    }
}

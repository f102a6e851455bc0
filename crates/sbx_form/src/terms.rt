//! Terms in ascending order of their locations.
ghost use Rattle.std.specs.Prelude.{◌≡◌, ℕ, ℤ, ◌^◌, ◌<◌, ◌≤◌, ◌++◌, ◌+◌, ◌+ℤ◌, ◌*ℤ◌, length, take, drop};
ghost use Rattle.std.specs.Prelude.{slice_index_or, unsigned_abs};
ghost use Rattle.arrayvec.specs.ArrayVec.{array_vec_len};
ghost use Rattle.sbx_form.specs.declared.terms.FormTerm.{FormTerm};
ghost use Rattle.sbx_form.specs.Forms.{AreWithin, add_term, add_terms, keep};

use arrayvec::ArrayVec;

/// A multiple of the number that one location starts with.
#[derive(Clone, Copy, PartialEq, Eq, Default)]
pub struct FormTerm {
    /// As in an image's cell.
    pub location: u16,
    /// Not 0 in a form.
    pub coefficient: i128,
}

/// The first place whose location is not below this one.
fn place_of(terms: &[FormTerm], location: u16) -> usize
    ensures within { result ≤ length terms.now }
    ensures splits { (c : ℤ) →
        add_term location c terms.now ≡ take result terms.now ++ add_term location c (drop result terms.now) }
    ensures stops { (t : FormTerm) → result < length terms.now →
        location ≤ (slice_index_or terms.now result t).location }
{
    for (i, term) in terms.iter().enumerate() {
        if term.location >= location {
            return i;
        }
    }
    terms.len()
}

/// Takes out the term at a place, where its location is this one, and gives its coefficient; else 0.
fn take_at<const N: usize>(terms: &mut ArrayVec<FormTerm, N>, place: usize, location: u16) -> i128
    requires within { place ≤ array_vec_len terms.old }
    requires splits { (c : ℤ) →
        add_term location c terms.old.items ≡
        take place terms.old.items ++ add_term location c (drop place terms.old.items) }
    requires small { (k : ℕ) → (t : FormTerm) → k < array_vec_len terms.old →
        unsigned_abs (slice_index_or terms.old.items k t).coefficient ≤ 2 ^ 100 }
    requires stops { (t : FormTerm) → place < array_vec_len terms.old →
        location ≤ (slice_index_or terms.old.items place t).location }
    ensures splits { (c : ℤ) →
        add_term location c terms.old.items ≡
        take place terms.new.items ++ keep location (c +ℤ result) (drop place terms.new.items) }
    ensures len { array_vec_len terms.new ≤ array_vec_len terms.old }
    ensures within { place ≤ array_vec_len terms.new }
    ensures small { unsigned_abs result ≤ 2 ^ 100 }
{
    if place < terms.len() && terms[place].location == location {
        terms.remove(place).coefficient
    } else {
        0
    }
}

/// Puts a term at a place, unless its coefficient is 0.
fn keep_at<const N: usize>(
    terms: &mut ArrayVec<FormTerm, N>,
    place: usize,
    location: u16,
    coefficient: i128,
)
    requires within { place ≤ array_vec_len terms.old }
    requires room { array_vec_len terms.old < N }
    ensures { terms.new.items ≡ take place terms.old.items ++ keep location coefficient (drop place terms.old.items) }
{
    if coefficient != 0 {
        terms.insert(
            place,
            FormTerm {
                location,
                coefficient,
            },
        );
    }
}

/// Adds a term to terms in ascending order: to the one of its location where there is one, and terms that cancel go.
pub fn add_term<const N: usize>(terms: &mut ArrayVec<FormTerm, N>, location: u16, coefficient: i128)
    requires room { array_vec_len terms.old < N }
    requires small { (k : ℕ) → (t : FormTerm) → k < array_vec_len terms.old →
        unsigned_abs (slice_index_or terms.old.items k t).coefficient ≤ 2 ^ 100 }
    requires small_term { unsigned_abs coefficient ≤ 2 ^ 100 }
    ensures { terms.new.items ≡ add_term location coefficient terms.old.items }
{
    let place = place_of(terms.as_slice(), location);
    let old = take_at(terms, place, location);
    keep_at(terms, place, location, coefficient + old);
}

fn scaled(times: i32, term: FormTerm) -> i128
    requires { unsigned_abs term.coefficient ≤ 2 ^ 32 }
    ensures value { result ≡ times *ℤ term.coefficient }
    ensures bound { unsigned_abs result ≤ 2 ^ 64 }
{
    i128::from(times) * term.coefficient
}

fn add_scaled<const N: usize>(terms: &mut ArrayVec<FormTerm, N>, times: i32, term: FormTerm)
    requires room { array_vec_len terms.old < N }
    requires small { AreWithin (2 ^ 90) terms.old.items }
    requires small_term { unsigned_abs term.coefficient ≤ 2 ^ 32 }
    ensures value { terms.new.items ≡ add_term term.location (times *ℤ term.coefficient) terms.old.items }
    ensures within { (m : ℕ) → AreWithin m terms.old.items → AreWithin (m + 2 ^ 64) terms.new.items }
{
    add_term(terms, term.location, scaled(times, term));
}

/// Adds so many times the second terms to the first.
pub fn add_terms<const N: usize>(terms: &mut ArrayVec<FormTerm, N>, times: i32, more: &[FormTerm])
    requires room { array_vec_len terms.old + length more.now ≤ N }
    requires few { length more.now ≤ 1000 }
    requires small { AreWithin (2 ^ 80) terms.old.items }
    requires small_more { AreWithin (2 ^ 32) more.now }
    ensures { terms.new.items ≡ add_terms times more.now terms.old.items }
{
    for term in more {
        add_scaled(terms, times, *term);
    }
}

//! The least value of terms.
ghost use Rattle.std.specs.Prelude.{◌≡◌, ℕ, ◌+◌, ◌^◌, ◌<◌, ◌≤◌, ◌+ℤ◌, ◌*ℤ◌, unsigned_abs, length, slice_index_or};
ghost use Rattle.std.specs.Int.{int_min};
ghost use Rattle.sbx_form.specs.declared.terms.FormTerm.{FormTerm};
ghost use Rattle.sbx_form.specs.Forms.{ends_of, least_terms};

use crate::terms::FormTerm;
use sbx_range::Range;

fn times(number: i32, coefficient: i128) -> i128
    requires { unsigned_abs coefficient ≤ 2 ^ 70 }
    ensures value { result ≡ number *ℤ coefficient }
    ensures bound { unsigned_abs result ≤ 2 ^ 102 }
{
    i128::from(number) * coefficient
}

/// The least value of a term over a range of its number.
pub fn least_term(range: Range, term: FormTerm) -> i128
    requires { unsigned_abs term.coefficient ≤ 2 ^ 70 }
    ensures value { result ≡ int_min (range.lo *ℤ term.coefficient) (range.hi *ℤ term.coefficient) }
    ensures bound { unsigned_abs result ≤ 2 ^ 102 }
{
    times(range.lo, term.coefficient).min(times(range.hi, term.coefficient))
}

/// One more least value.
pub fn plus(a: i128, b: i128) -> i128
    requires few { unsigned_abs a ≤ 2 ^ 112 }
    requires one { unsigned_abs b ≤ 2 ^ 102 }
    ensures value { result ≡ a +ℤ b }
    ensures bound { unsigned_abs result ≤ unsigned_abs a + unsigned_abs b }
{
    a + b
}

/// The least value of these terms over all numbers of the ranges, which stand by location.
pub fn least_terms(terms: &[FormTerm], ranges: &[Range]) -> i128
    requires few { length terms.now ≤ 1000 }
    requires small { (k : ℕ) → (t : FormTerm) → k < length terms.now →
        unsigned_abs (slice_index_or terms.now k t).coefficient ≤ 2 ^ 70 }
    requires there { (k : ℕ) → (t : FormTerm) → k < length terms.now →
        (slice_index_or terms.now k t).location < length ranges.now }
    ensures { result ≡ least_terms (ends_of ranges.now) terms.now }
{
    let mut least = 0;
    for term in terms {
        least = plus(least, least_term(ranges[term.location as usize], *term));
    }
    least
}

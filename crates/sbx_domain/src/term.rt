//! A term of a linear form, in eight bytes.
ghost use Rattle.std.specs.Prelude.{◌≡◌, ◌≤◌, ◌^◌, pos, unsigned_abs};
ghost use Rattle.sbx_domain.specs.Packed.{no_term};

use sbx_form::FormTerm;
use std::marker::Model;

/// What a coefficient is raised by, so that none is below 0.
const RAISE: u64 = 4_294_967_296;

/// A term whose coefficient isn't above 2^32 in magnitude. What is known is copied for each word of a program, so that
/// a term takes eight bytes: it keeps the high and the low part of its coefficient and 2^32. Contracts see the term.
#[derive(Clone, Copy)]
pub(crate) struct KeptTerm {
    location: u16,
    high: u16,
    low: u32,
}

impl Model for KeptTerm {
    ghost use Rattle.std.specs.Prelude.{◌*◌, ◌+◌, ◌/◌, ◌%◌, ◌^◌, ◌<◌, ◌≤◌};
    ghost use Rattle.sbx_form.specs.declared.terms.FormTerm.{FormTerm};
    ghost use Rattle.sbx_domain.specs.Packed.{high_back, low_back, lowered, raised};

    ghost Value = { FormTerm };

    ghost view = { λ t. record { location = t.location; coefficient = lowered (t.high * 2 ^ 32 + t.low) } };

    ghost invariant = { λ t. (t.high ≤ 2) × (t.low < 2 ^ 32) };

    ghost inverse = { λ v. record {
      location = v.location;
      high = raised v.coefficient / 2 ^ 32;
      low = raised v.coefficient % 2 ^ 32;
    } };

    ghost inverse_ok = { λ t h i. record {
      location = t.location;
      high = high_back t.high t.low h.1 i;
      low = low_back t.high t.low h.1 i;
    } };
}

/// What stands where there is no term.
pub(crate) const BLANK: KeptTerm = KeptTerm {
    location: 0,
    high: 1,
    low: 0,
};

impl KeptTerm {
    /// A location once.
    pub(crate) fn once(location: u16) -> KeptTerm
        ensures { result ≡ record { location = location; coefficient = pos 1 } }
    {
        KeptTerm {
            location,
            high: 1,
            low: 1,
        }
    }

    /// The term as it is kept.
    pub(crate) fn of(term: FormTerm) -> KeptTerm
        requires { unsigned_abs term.coefficient ≤ 2 ^ 32 }
        ensures { result ≡ term }
    {
        let raised = (term.coefficient + i128::from(RAISE)) as u64;
        KeptTerm {
            location: term.location,
            high: (raised / RAISE) as u16,
            low: (raised % RAISE) as u32,
        }
    }

    /// The term as it was before it was kept.
    pub(crate) fn term(self) -> FormTerm
        ensures { result ≡ self }
    {
        let raised = u64::from(self.high) * RAISE + u64::from(self.low);
        FormTerm {
            location: self.location,
            coefficient: i128::from(raised as i64 - RAISE as i64),
        }
    }
}

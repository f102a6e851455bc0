//! Linear forms, worked out by hand.
use arrayvec::ArrayVec;
use sbx_form::{FormTerm, add_term, least_terms};
use sbx_range::Range;

#[test]
fn the_first_term(rt: HostRuntime) {
    let mut terms: ArrayVec<FormTerm, 8> = ArrayVec::new();
    add_term(&mut terms, 9, -2);
    let want = FormTerm {
        location: 9,
        coefficient: -2,
    };
    assert!(rt; terms.len() == 1 && terms[0] == want);
}

#[test]
fn least_of_both_signs(rt: HostRuntime) {
    let ranges = [
        Range {
            lo: -3,
            hi: 5,
            alignment: 0,
        },
        Range {
            lo: 1,
            hi: 4,
            alignment: 0,
        },
    ];
    let down = FormTerm {
        location: 0,
        coefficient: -2,
    };
    let up = FormTerm {
        location: 1,
        coefficient: 3,
    };
    assert!(rt; least_terms(&[down], &ranges) == -10);
    assert!(rt; least_terms(&[up], &ranges) == 3);
}

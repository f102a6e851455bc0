//! Sources with annotations put in, written out by hand.
use fit_code::Reason;
use fit_kept::{Addition, Annotation, FunctionTotal, Value, insert, is_annotated};
use sbx_image::Range;
use std::alloc::Global;

/// Whether a source with these additions and totals is what is wanted, and annotated; none is where one has no place.
fn is_made(
    alloc: Global,
    source: &[u8],
    additions: &[Addition],
    totals: &[FunctionTotal],
    wanted: Option<&[u8]>,
) -> bool {
    match &insert(alloc, source, additions, totals) {
        Ok(made) => match (is_annotated(alloc, source, made.as_slice()), wanted) {
            (Ok(true), Some(wanted)) => made.as_slice() == wanted,
            (Ok(false), None) => true,
            _ => false,
        },
        Err(fault) => wanted.is_none() && matches!(fault.reason, Reason::Unreadable(_)),
    }
}

const BYTE: Range = Range {
    lo: 0,
    hi: 255,
    alignment: 0,
};

/// Each kind of annotation.
static ADDITIONS: [Addition; 6] = [
    Addition {
        before: 3,
        annotation: Annotation {
            name: ".depth ",
            location: None,
            value: Value::Number(2),
        },
    },
    Addition {
        before: 3,
        annotation: Annotation {
            name: ".param ",
            location: None,
            value: Value::Range(BYTE),
        },
    },
    Addition {
        before: 3,
        annotation: Annotation {
            name: ".result ",
            location: None,
            value: Value::Range(BYTE),
        },
    },
    Addition {
        before: 5,
        annotation: Annotation {
            name: ".cell ",
            location: Some(32),
            value: Value::Range(BYTE),
        },
    },
    Addition {
        before: 5,
        annotation: Annotation {
            name: ".fuel ",
            location: None,
            value: Value::Number(-462),
        },
    },
    Addition {
        before: 5,
        annotation: Annotation {
            name: ".term ",
            location: Some(9),
            value: Value::Number(-7),
        },
    },
];

/// Numbers for a function.
static TOTALS: [FunctionTotal; 1] = [FunctionTotal {
    line: 2,
    room: 96,
    budget: 109,
}];

/// Each kind of annotation, and numbers for a function; comments, ends of lines and a last line without an end stay.
#[test]
fn lines_stay(rt: HostRuntime) {
    let source = b"! a\r\n.function f,leaf,0, 0,0 ! b\r\n  retl\n.block g\n nop";
    let wanted =
        b"! a\r\n.function f,leaf,0, 96,109 ! b\r\n.depth 2\n.param 0,255,0\n.result 0,255,0\n  retl\n.block g\n.cell slot 0,0,255,0\n.fuel -462\n.term %o1,-7\n nop";
    assert!(rt; is_made(rt.alloc(), source, &ADDITIONS, &TOTALS, Some(wanted)));
}

/// What stands behind the last line of a source of one line.
static BEHIND: [Addition; 1] = [Addition {
    before: 2,
    annotation: Annotation {
        name: ".fuel ",
        location: None,
        value: Value::Number(1),
    },
}];

/// Fuel that no line can say.
static TOO_GREAT: [Addition; 1] = [Addition {
    before: 1,
    annotation: Annotation {
        name: ".fuel ",
        location: None,
        value: Value::Number(1 << 40),
    },
}];

/// Nothing is put behind the last line, and no line is annotated that the readers don't take as an annotation.
#[test]
fn some_have_no_place(rt: HostRuntime) {
    assert!(rt; is_made(rt.alloc(), b" nop", &BEHIND, &[], None));
    assert!(rt; is_made(rt.alloc(), b" nop", &TOO_GREAT, &[], None));
}

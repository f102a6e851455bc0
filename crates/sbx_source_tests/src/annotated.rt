//! Sources whose annotations were worked out by hand.
use fit_annotate::{Unproved, find};
use fit_kept::{AnnotationRefusal, annotate};
use std::alloc::{AllocError, Global};

/// Whether a source gets this text, or one that begins so and `goes_on`, and there is nothing to note.
fn becomes(alloc: Global, source: &[u8], text: &[u8], goes_on: bool) -> bool {
    let Ok(found) = find(alloc, source) else {
        return false;
    };
    let (additions, totals) = (found.additions.as_slice(), found.totals.as_slice());
    match annotate(alloc, source, additions, totals) {
        Ok(made) => {
            let is_whole = made.len() == text.len();
            found.notes.is_empty() && made.starts_with(text) && (goes_on || is_whole)
        }
        Err(_refusal) => false,
    }
}

/// The one line of a source at which a counter is asked for, or which the assembler refuses; 0 where neither is.
fn line_told(alloc: Global, source: &[u8]) -> usize {
    match find(alloc, source) {
        Ok(found) => match found.notes.as_slice() {
            [note] if matches!(note.asked, Unproved::Counter) => note.line as usize,
            _ => 0,
        },
        Err(AnnotationRefusal::Source(fault)) => fault.line,
        Err(_refusal) => 0,
    }
}

/// The countdown of the examples without its annotations.
const COUNTDOWN: &[u8] = b".services exit,put
.function main,leaf,0,0,0
    mov 57,%o0
.block loop
    ta 2
    cmp %o0,48
    be done
    nop
.block next
    ba loop
    dec %o0
.block done
    mov 10,%o0
    ta 2
    mov 0,%o0
    ta 0
";

/// The same with those that stand there.
const ANNOTATED: &[u8] = b".services exit,put
.function main,leaf,0,0,109
.fuel 109
    mov 57,%o0
.block loop
.cell %o0,48,57,0
.fuel -462
.term %o0,10
    ta 2
    cmp %o0,48
    be done
    nop
.block next
.cell %o0,49,57,0
.fuel -470
.term %o0,10
    ba loop
    dec %o0
.block done
.fuel 10
    mov 10,%o0
    ta 2
    mov 0,%o0
    ta 0
";

/// The countdown of the examples without its annotations, and with those that stand there.
#[test]
fn a_countdown(rt: HostRuntime) {
    assert!(rt; becomes(rt.alloc(), COUNTDOWN, ANNOTATED, false));
}

/// A loop that nothing counts.
const ENDLESS: &[u8] = b".services exit,put
.function main,leaf,0,0,0
    mov 57,%o0
.block loop
    ta 2
    ba loop
    nop
";

/// A loop that nothing counts is noted at its line, and a source that means no image is refused at its own.
#[test]
fn what_isnt_shown(rt: HostRuntime) {
    assert!(rt; line_told(rt.alloc(), ENDLESS) == 4);
    let source = b".services exit\n    nop\n";
    assert!(rt; line_told(rt.alloc(), source) == 2);
}

/// As many blocks as a function may have, each of one word but for the last one.
fn push_blocks(source: &mut String) -> Result<(), AllocError> {
    source.push_str(".services exit\n.function main,leaf,0,0,0\n nop\n")?;
    for number in 1..4_095 {
        write!(source, ".block b{number}\n nop\n")?;
    }
    source.push_str(".block last\n mov 0,%o0\n ta 0\n")
}

/// As many blocks as a function may have, each of one word but for the last one, which weighs a word and the three
/// turns of `ta 0`.
#[test]
fn many_blocks(rt: HostRuntime) {
    let mut source = String::new(rt.alloc());
    let is_full = push_blocks(&mut source).is_ok();
    let wanted =
        b".services exit\n.function main,leaf,0,0,4099\n.fuel 4099\n nop\n.block b1\n.fuel 4098\n nop\n.block b2\n";
    assert!(rt; is_full && becomes(rt.alloc(), source.as_bytes(), wanted, true));
}

//! Sources that are refused.
use crate::told::are_told;
use fit_code::{Fault, Reason, SourceLine};
use fit_text::FaultLine;
use std::alloc::Global;
use std::slice::from_ref;

/// What stands behind `main:` in the fourth line, and why there is no program.
static REFUSED: [(&str, &str); 19] = [
    (
        " save %sp,-96,%sp\n call main\n nop\n ret\n restore",
        "t.s:4: refused: main: a call of the function that a run begins at",
    ),
    (
        " save %sp,-96,%sp\n call g\n nop\n ret\n restore",
        "t.s:6: refused: g isn't defined",
    ),
    (
        " save %sp,-96,%sp\n xor %sp,%i0,%sp\n ret\n restore",
        "t.s:6: refused: main: the address of its frame in a form that isn't known",
    ),
    (
        " save %sp,-96,%sp\n ret\n nop",
        "t.s:6: refused: main: a return without RESTORE in its slot",
    ),
    (
        " b .L1\n b .L1\n.L1:\n retl\n nop",
        "t.s:5: refused: main: a transfer in a delay slot",
    ),
    (
        " nop\n save %sp,-96,%sp\n ret\n restore",
        "t.s:6: refused: main: a frame of unknown size, or instructions before SAVE",
    ),
    (
        ".L0:\n save %sp,-96,%sp\n b .L0\n nop",
        "t.s:7: refused: main: a transfer to what stands before SAVE",
    ),
    (
        " jmp %o0\n nop",
        "t.s:5: refused: a jump through a register: compile without tables of jumps",
    ),
    (
        " mov 1,%g7\n retl\n nop",
        "t.s:5: refused: main: one of %g5 to %g7, which tests and meters work with",
    ),
    (
        " be .L1\n nop\n.L1:\n retl\n nop",
        "t.s:5: refused: main: condition codes of several places, or of numbers that changed since",
    ),
    (
        " add %sp,-96,%sp\n ld [%sp+2000],%o0\n retl\n sub %sp,-96,%sp",
        "t.s:6: refused: main: an access to the stack outside of its frame",
    ),
    // A call through a pointer that its own slot changes, with the line of C where it is known.
    (
        " .file 1 \"a.c\"\n .loc 1 7 0\n save %sp,-96,%sp\n .loc 1 9 5\n call %o1\n mov 1,%o1\n ret\n restore",
        "a.c:9: refused: main: a call through a pointer that its own slot changes",
    ),
    // An address within a function, in a register and in a table.
    (
        " sethi %hi(f+4),%o0\n retl\n or %o0,%lo(f+4),%o0\nf:\n retl\n nop",
        "t.s:5: refused: the address of the function f is taken: name it, by a switch",
    ),
    (
        " sethi %hi(table),%o0\n retl\n nop\nf:\n retl\n nop\n.section \".rodata\"\n.align 4\ntable:\n .long f+4",
        "t.s:14: refused: the address of the function f is taken: name it, by a switch",
    ),
    // Floating point, `alloca`, and what inline assembly may hold.
    (
        " fadds %f0,%f1,%f2\n retl\n nop",
        "t.s:5: refused: floating point, fadds: use integers, or fixed point",
    ),
    (
        " sub %sp,%o0,%sp\n retl\n nop",
        "t.s:5: refused: main: an array of a size that isn't constant",
    ),
    (
        " rd %psr,%o0\n retl\n nop",
        "t.s:5: refused: main: an instruction that sandboxed code may not have",
    ),
    (
        " quux %o0\n retl\n nop",
        "t.s:5: refused: the instruction quux isn't known, or can't be used here",
    ),
    // As many bytes as an image's data may have, without room around them.
    (
        " sethi %hi(small),%o0\n sethi %hi(large),%o0\n retl\n nop\n.section \".bss\"\n.align 8\nsmall:\n .skip 8\n\
         large:\n .skip 262136",
        "t.s:6: refused: more than 262144 bytes of data",
    ),
];

#[test]
fn sources_are_refused(rt: HostRuntime) {
    are_told(&rt, rt.alloc(), &REFUSED);
}

/// What is told of budgets that are refused, most of which the loop in line 9 may take.
static BUDGETS: [(u64, &str); 2] = [
    (
        1 << 40,
        "a.c:9: refused: the budget would be 1099511627776, above 2^40 - 1: the loop at a.c:9 may take the most of it\
         : ask for fewer turns, or let loops have fewer rounds",
    ),
    (
        (1 << 40) + 1,
        "a.c:9: refused: the budget would be 1099511627777, above 2^40: the loop at a.c:9 may take the most of it\
         : ask for fewer turns, or let loops have fewer rounds",
    ),
];

/// Whether this is told of a budget of so many turns.
fn is_budget_shown(alloc: Global, turns: u64, wanted: &str) -> bool {
    let reason = Reason::Budget {
        turns,
        is_loop: true,
    };
    let fault = &Fault::new(SourceLine { file: 0, number: 9 }, reason);
    let mut told = String::new(alloc);
    match String::from_str(alloc, "a.c") {
        Ok(name) => {
            let files = from_ref(&name);
            write!(told, "{}", FaultLine { fault, files }).is_ok() && told.as_str() == wanted
        }
        Err(_error) => false,
    }
}

#[test]
fn budgets_are_refused(rt: HostRuntime) {
    for (turns, wanted) in &BUDGETS {
        assert!(rt; is_budget_shown(rt.alloc(), *turns, wanted), "{turns}");
    }
}

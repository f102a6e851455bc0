//! Lines and their tokens.
use crate::check::is_same;
use sbx_text::{Kind, Token, tokens};
use std::alloc::{AllocError, Global};
use std::process::Abort;

/// A kind in a letter, or a number by its value.
fn push_kind(text: &mut String, kind: Kind) -> Result<(), AllocError> {
    match kind {
        Kind::Name => text.push_str("n"),
        Kind::Percent => text.push_str("p"),
        Kind::Number(value) => write!(text, "{value}"),
        Kind::Sign => text.push_str("s"),
    }
}

fn push_tokens(text: &mut String, found: &[Token]) -> Result<(), AllocError> {
    for token in found {
        push_kind(text, token.kind)?;
        write!(text, "@{}-{} ", token.start, token.stop)?;
    }
    Ok(())
}

/// The kinds of tokens with the bytes of each.
fn tokens_text(alloc: Global, found: &[Token]) -> Result<String, AllocError> {
    let mut text = String::new(alloc);
    push_tokens(&mut text, found)?;
    Ok(text)
}

/// Whether a line has these tokens, or this fault.
fn gives(alloc: Global, line: &[u8], wanted: &str) -> bool {
    match tokens(alloc, line) {
        Ok(found) => is_same(tokens_text(alloc, &found), wanted),
        Err(fault) => is_same(format!(in alloc; "{fault}"), wanted),
    }
}

static LINES: [(&str, &str); 22] = [
    ("", ""),
    (" \t ", ""),
    ("add %o0,5,%o1", "n@0-3 p@4-7 s@7-8 5@8-9 s@9-10 p@10-13 "),
    (" a.b_9: ! x \u{7f} $", "n@1-6 s@6-7 "),
    ("!\u{e9}", ""),
    ("[.+8]", "s@0-1 n@1-2 s@2-3 8@3-4 s@4-5 "),
    ("0x1F", "31@0-4 "),
    ("0x", "0@0-1 n@1-2 "),
    ("0X1", "0@0-1 n@1-3 "),
    ("007", "7@0-3 "),
    ("12ab", "12@0-2 n@2-4 "),
    ("1099511627775", "1099511627775@0-13 "),
    ("1099511627776", "X3"),
    ("0xFFFFFFFFFF", "1099511627775@0-12 "),
    ("0x10000000000", "X3"),
    ("%5", "X2"),
    ("% o0", "X2"),
    ("a\r", "X2"),
    ("a \u{e9}", "X1"),
    ("$ \u{e9}", "X2"),
    ("$ 1099511627776", "X2"),
    ("1099511627776 $", "X3"),
];

/// Each line gives what it says.
fn are_given(rt: &impl Abort, alloc: Global, rows: &[(&str, &str)]) {
    for (line, wanted) in rows {
        assert!(rt; gives(alloc, line.as_bytes(), wanted), "{line}");
    }
}

#[test]
fn lines(rt: HostRuntime) {
    are_given(&rt, rt.alloc(), &LINES);
}

/// Whether the longest line, of the letter a behind its first byte, gives this.
fn is_longest_line(alloc: Global, first: u8, wanted: &str) -> bool {
    let mut line = [b'a'; 1024];
    line[0] = first;
    gives(alloc, &line, wanted)
}

#[test]
fn longest_lines(rt: HostRuntime) {
    let alloc = rt.alloc();
    assert!(rt; gives(alloc, &[b' '; 1025], "X4"), "longer");
    assert!(rt; is_longest_line(alloc, b'a', "n@0-1024 "), "a name");
    assert!(rt; is_longest_line(alloc, 0xC3, "X1"), "no text");
}

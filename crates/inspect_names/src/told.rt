//! Findings in words, each with the line that it speaks of and a mark at its place.
use crate::findings::Finding;
use sbx_asm::Line;
use std::alloc::AllocError;

/// How much of a line is shown, in bytes.
const SHOWN: usize = 96;

/// How much of a long line is shown before its place.
const BEFORE: usize = 60;

/// A byte of a line as it is shown, in one column.
fn push_shown(out: &mut String, byte: u8) -> Result<(), AllocError> {
    match byte {
        b'\t' | 32..=126 => out.push(byte as char),
        _ => out.push('?'),
    }
}

/// What stands below a byte of a line before the mark.
fn push_below(out: &mut String, byte: u8) -> Result<(), AllocError> {
    match byte {
        b'\t' => out.push('\t'),
        _ => out.push(' '),
    }
}

/// The part of a line that is shown, of which so many bytes stand before its place.
fn shown_part(bytes: &[u8], at: usize) -> (&[u8], usize) {
    let from = if at < SHOWN {
        0
    } else {
        at.saturating_sub(BEFORE)
    };
    let (_, rest) = bytes.split_at(from.min(bytes.len()));
    let (part, _) = rest.split_at(SHOWN.min(rest.len()));
    (part, at.saturating_sub(from))
}

/// Pushes a line of a source and a mark below the place behind so many of its bytes. Of a long line the part about the
/// place is shown.
fn push_marked(out: &mut String, bytes: &[u8], at: usize) -> Result<(), AllocError> {
    let (part, before) = shown_part(bytes, at);
    for byte in part {
        push_shown(out, *byte)?;
    }
    out.push('\n')?;
    for byte in part.iter().take(before) {
        push_below(out, *byte)?;
    }
    out.push_str("^\n")
}

/// A finding, and its line, if the source has it.
fn push_finding(
    out: &mut String,
    name: &str,
    lines: &[Line<'_, '_>],
    finding: Finding,
) -> Result<(), AllocError> {
    let (number, column) = (finding.line, finding.column);
    let (code, sentence) = (finding.code, finding.sentence);
    writeln!(out, "{name}:{number}:{column}: {code}: {sentence}")?;
    match lines.get(number.saturating_sub(1)) {
        Some(line) => push_marked(out, line.bytes(), column.saturating_sub(1)),
        None => Ok(()),
    }
}

/// Pushes findings under the name of their source, of which these are the lines: line, column, number and sentence, and
/// below the line with a mark at the place.
pub(crate) fn push_findings(
    out: &mut String,
    name: &str,
    lines: &[Line<'_, '_>],
    findings: &[Finding],
) -> Result<(), AllocError> {
    for finding in findings {
        push_finding(out, name, lines, *finding)?;
    }
    Ok(())
}

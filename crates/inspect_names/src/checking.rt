//! What is wrong with a source: its faults, or what the verifier says of its image.
ghost use Rattle.std.specs.Prelude.{◌≡◌, ◌∷◌, [], IfOk, None, Ok, map};
ghost use Rattle.sbx_asm.specs.Items.{items_of};
ghost use Rattle.sbx_asm.specs.Images.{source_image};
ghost use Rattle.inspect_check.specs.Faults.{AreTold};
ghost use Rattle.inspect_names.specs.Findings.{IsAccepted, IsCheck, IsRefused, finding_place, last_line, line_among};
ghost use Rattle.inspect_names.specs.Findings.{refusal_place};

use crate::findings::{Finding, SourceCode, findings_of};
use crate::names::names_of;
use crate::renaming::{SourceTold, push_renamed};
use crate::rows::{SourceRow, rows_of};
use crate::told::push_findings;
use inspect_check::{Faults, judge};
use inspect_refusal::{push_why, rule_text};
use sbx_asm::{AsmFault, Line, Text};
use sbx_image::Image;
use sbx_rules::Refusal;
use std::alloc::{AllocError, Global};

/// What a source is found to be.
#[derive(Clone, Copy)]
pub enum Verdict {
    /// It means no image, and this fault is the first that is told.
    Faulty(AsmFault),
    /// Its image breaks a rule.
    Refused(Refusal),
    /// Its image breaks no rule.
    Accepted,
}

/// What is told of a source.
#[derive(Drop)]
pub struct Check {
    pub verdict: Verdict,
    /// The faults, or the refusal; none of a source that is accepted.
    pub findings: Vec<Finding>,
    /// All of it, for people.
    pub text: String,
}

/// What follows the first line of a text.
fn behind_line(text: &[u8]) -> &[u8] {
    for (place, byte) in text.iter().enumerate() {
        if *byte == b'\n' {
            let (_, behind) = text.split_at(place.saturating_add(1).min(text.len()));
            return behind;
        }
    }
    &[]
}

/// The column where the statement of a line begins.
fn statement_column(lines: &[Line<'_, '_>], number: usize) -> usize {
    let Some(line) = lines.get(number.saturating_sub(1)) else {
        return 1;
    };
    match line.tokens().first() {
        Some(token) => token.start.saturating_add(1),
        None => 1,
    }
}

/// The line of the last of some words that stands at an address or before it.
fn last_line(rows: &[SourceRow], address: u32) -> Option<usize>
    ensures { result ≡ last_line None rows.now address }
{
    let mut found = None;
    for row in rows {
        if row.address <= address {
            found = Some(row.line);
        }
    }
    found
}

/// The line of the word at an address; 1 where there is none.
fn line_among(rows: &[SourceRow], address: u32) -> usize
    ensures { result ≡ line_among rows.now address }
{
    match last_line(rows, address) {
        Some(line) => line,
        None => 1,
    }
}

/// A refusal, at the line of its word.
fn refusal_finding(
    alloc: Global,
    lines: &[Line<'_, '_>],
    refusal: Refusal,
) -> Result<Finding, AllocError>
    ensures { IfOk result (λ found. finding_place found ≡ refusal_place lines.now refusal) }
{
    let rows = rows_of(alloc, lines)?;
    let line = line_among(rows.as_slice(), refusal.address);
    Ok(Finding {
        line,
        column: statement_column(lines, line),
        code: SourceCode::Rule(refusal.cause),
        sentence: rule_text(refusal.cause),
    })
}

/// What explains a refusal, which is the text `why` without its first two lines, by the names of the source of some
/// lines.
fn push_reasons(
    alloc: Global,
    out: &mut String,
    lines: &[Line<'_, '_>],
    why: &str,
) -> Result<(), AllocError> {
    let names = names_of(alloc, lines)?;
    let reasons = behind_line(behind_line(why.as_bytes()));
    push_renamed(out, &names, reasons, SourceTold::Addresses)
}

/// A refusal, and all that is told of it.
fn refused(
    alloc: Global,
    name: &str,
    source: &[u8],
    refusal: Refusal,
    why: &str,
) -> Result<(Vec<Finding>, String), AllocError>
    ensures { IfOk result (λ told. map finding_place told.0.items ≡ refusal_place (items_of source.now) refusal ∷ []) }
{
    let text = Text::read(alloc, source)?;
    let lines = text.lines(alloc)?;
    let finding = refusal_finding(alloc, lines.as_slice(), refusal)?;
    let mut findings = Vec::new(alloc);
    findings.push(finding)?;
    let mut text = String::new(alloc);
    push_findings(&mut text, name, lines.as_slice(), findings.as_slice())?;
    push_reasons(alloc, &mut text, lines.as_slice(), why)?;
    Ok((findings, text))
}

/// A source whose image breaks a rule first.
fn check_refused(
    alloc: Global,
    name: &str,
    source: &[u8],
    refusal: Refusal,
    why: &str,
) -> Result<Check, AllocError>
    requires { IsRefused source.now refusal }
    ensures { IfOk result (λ check. IsCheck source.now check.verdict check.findings.items) }
{
    let (findings, text) = refused(alloc, name, source, refusal, why)?;
    Ok(Check {
        verdict: Verdict::Refused(refusal),
        findings,
        text,
    })
}

/// What is told of a source whose image breaks no rule.
fn accepted_text(alloc: Global, name: &str) -> Result<String, AllocError> {
    let mut text = String::new(alloc);
    writeln!(text, "{name}: accepted: no rule is broken")?;
    Ok(text)
}

/// What the verifier says of the image that a source means.
#[tactic(auto, using(crate::proofs::Judging::refused_by))]
fn check_image(alloc: Global, name: &str, source: &[u8], image: Image) -> Result<Check, AllocError>
    requires { source_image source.now ≡ Ok image }
    ensures { IfOk result (λ check. IsCheck source.now check.verdict check.findings.items) }
{
    let mut why = String::new(alloc);
    let found = push_why(alloc, &mut why, image)?;
    match found {
        Some(refusal) => check_refused(alloc, name, source, refusal, why.as_str()),
        None => Ok(Check {
            verdict: Verdict::Accepted,
            findings: Vec::new(alloc),
            text: accepted_text(alloc, name)?,
        }),
    }
}

/// A source that means no image.
fn check_faults(
    alloc: Global,
    name: &str,
    source: &[u8],
    faults: &Faults,
) -> Result<Check, AllocError>
    requires { AreTold source.now faults.now }
    ensures { IfOk result (λ check. IsCheck source.now check.verdict check.findings.items) }
{
    let text = Text::read(alloc, source)?;
    let lines = text.lines(alloc)?;
    let findings = findings_of(alloc, lines.as_slice(), faults)?;
    let mut text = String::new(alloc);
    push_findings(&mut text, name, lines.as_slice(), findings.as_slice())?;
    Ok(Check {
        verdict: Verdict::Faulty(faults.first),
        findings,
        text,
    })
}

/// What is wrong with a source, told under its name: its faults, each with its line and a mark at its place; or the
/// rule that its image breaks, at the line of the word, and what explains that by the source's own names and lines; or
/// that nothing is. It fails where memory is refused.
pub fn check_source(alloc: Global, name: &str, source: &[u8]) -> Result<Check, AllocError>
    ensures { IfOk result (λ check. IsCheck source.now check.verdict check.findings.items) }
{
    match judge(alloc, source)? {
        Ok(image) => check_image(alloc, name, source, image),
        Err(faults) => check_faults(alloc, name, source, &faults),
    }
}

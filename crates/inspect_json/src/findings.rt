//! What is wrong with a source, as an object.
ghost use Rattle.std.specs.Prelude.{◌≡◌, codes, length, IfOk, OnOk};
ghost use Rattle.json.specs.Json.{boolean, string};
ghost use Rattle.json.specs.Tree.{json_tokens};
ghost use Rattle.inspect_names.specs.Findings.{code_text};
ghost use Rattle.inspect_json.specs.Objects.{Adds, IsLine, member_tokens};
ghost use Rattle.inspect_json.specs.Findings.{check_json, finding_json, is_nothing, place_tokens};

use crate::lists::{Told, put_member};
use crate::members::{
    close_object, line_of, new_line, open_object, put_flag, put_number, put_text,
};
use inspect_names::{Finding, SourceCode};
use json::Writer;
use std::alloc::{AllocError, Global};

/// The members of a place.
fn put_place(out: &mut Writer, finding: Finding) -> Result<(), AllocError>
    ensures { OnOk result (Adds out.old out.new (place_tokens finding)) }
{
    put_number(out, "line", finding.line as u64)?;
    put_number(out, "column", finding.column as u64)
}

/// The member that has the number of a fault or of a rule.
fn put_code(alloc: Global, out: &mut Writer, code: SourceCode) -> Result<(), AllocError>
    ensures { OnOk result (Adds out.old out.new (member_tokens (codes "code") (string (code_text code)))) }
{
    let name = format!(in alloc; "{code}")?;
    put_text(out, "code", name.as_str())
}

impl Told for Finding {
    ghost told = { finding_json };

    fn put(&self, alloc: Global, out: &mut Writer) -> Result<(), AllocError> {
        open_object(out)?;
        put_place(out, *self)?;
        put_code(alloc, out, self.code)?;
        put_text(out, "sentence", self.sentence)?;
        close_object(out)
    }
}

/// Whether nothing is wrong.
fn is_nothing(findings: &[Finding]) -> bool
    ensures { result ≡ is_nothing findings.now }
{
    findings.is_empty()
}

/// The member that tells whether nothing is wrong.
fn put_acceptance(out: &mut Writer, findings: &[Finding]) -> Result<(), AllocError>
    ensures { OnOk result (Adds out.old out.new (member_tokens (codes "accepted") (boolean (is_nothing findings.now)))) }
{
    put_flag(out, "accepted", is_nothing(findings))
}

/// Writes what is wrong with a source.
fn put_check(
    alloc: Global,
    out: &mut Writer,
    findings: &[Finding],
    text: &str,
) -> Result<(), AllocError>
    ensures { OnOk result (Adds out.old out.new (json_tokens (check_json findings.now text.now))) }
{
    open_object(out)?;
    put_acceptance(out, findings)?;
    put_member(alloc, out, "faults", findings)?;
    put_text(out, "text", text)?;
    close_object(out)
}

/// The line of what is wrong with a source: whether that is nothing, each finding, and all of it in words. It fails
/// where memory is refused.
pub fn check_line(alloc: Global, findings: &[Finding], text: &str) -> Result<Vec<u8>, AllocError>
    ensures { IfOk result (λ line. IsLine (check_json findings.now text.now) line.items) }
{
    let mut out = new_line(alloc);
    put_check(alloc, &mut out, findings, text)?;
    line_of(out)
}

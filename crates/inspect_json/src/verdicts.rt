//! Why an image is refused, as an object.
ghost use Rattle.std.specs.Prelude.{◌≡◌, codes, IfOk, OnOk};
ghost use Rattle.json.specs.Json.{string};
ghost use Rattle.json.specs.Tree.{json_tokens};
ghost use Rattle.sbx_rules.specs.Causes.{shown_cause};
ghost use Rattle.inspect_refusal.specs.Texts.{rule_text};
ghost use Rattle.inspect_json.specs.Objects.{Adds, IsLine, member_tokens};
ghost use Rattle.inspect_json.specs.Verdicts.{accepted_json, place_tokens, refused_json, verdict_json};

use crate::members::{
    close_object, line_of, new_line, open_object, put_flag, put_half, put_text, put_word,
};
use inspect_refusal::rule_text;
use json::Writer;
use sbx_rules::{Cause, Refusal};
use std::alloc::{AllocError, Global};

/// The member that names the rule.
fn put_rule(alloc: Global, out: &mut Writer, cause: Cause) -> Result<(), AllocError>
    ensures { OnOk result (Adds out.old out.new (member_tokens (codes "rule") (string (shown_cause cause)))) }
{
    let name = format!(in alloc; "{cause}")?;
    put_text(out, "rule", name.as_str())
}

/// The member that has the rule in words.
fn put_sentence(out: &mut Writer, cause: Cause) -> Result<(), AllocError>
    ensures { OnOk result (Adds out.old out.new (member_tokens (codes "sentence") (string (rule_text cause)))) }
{
    put_text(out, "sentence", rule_text(cause))
}

/// The members of the place.
fn put_place(out: &mut Writer, refusal: Refusal) -> Result<(), AllocError>
    ensures { OnOk result (Adds out.old out.new (place_tokens refusal)) }
{
    put_half(out, "function", refusal.function)?;
    put_word(out, "address", refusal.address)
}

/// A refusal, and the text that explains it.
fn put_refused(
    alloc: Global,
    out: &mut Writer,
    refusal: Refusal,
    text: &str,
) -> Result<(), AllocError>
    ensures { OnOk result (Adds out.old out.new (json_tokens (refused_json refusal text.now))) }
{
    open_object(out)?;
    put_flag(out, "accepted", false)?;
    put_rule(alloc, out, refusal.cause)?;
    put_place(out, refusal)?;
    put_sentence(out, refusal.cause)?;
    put_text(out, "text", text)?;
    close_object(out)
}

fn put_accepted(out: &mut Writer) -> Result<(), AllocError>
    ensures { OnOk result (Adds out.old out.new (json_tokens accepted_json)) }
{
    open_object(out)?;
    put_flag(out, "accepted", true)?;
    close_object(out)
}

/// Writes a verdict.
fn put_verdict(
    alloc: Global,
    out: &mut Writer,
    found: Option<Refusal>,
    text: &str,
) -> Result<(), AllocError>
    ensures { OnOk result (Adds out.old out.new (json_tokens (verdict_json found text.now))) }
{
    match found {
        Some(refusal) => put_refused(alloc, out, refusal, text),
        None => put_accepted(out),
    }
}

/// The line of a verdict: that the image is accepted; or by which rule, in which function and at which address it is
/// refused, and the text that explains it. It fails where memory is refused.
pub fn verdict_line(
    alloc: Global,
    found: Option<Refusal>,
    text: &str,
) -> Result<Vec<u8>, AllocError>
    ensures { IfOk result (λ line. IsLine (verdict_json found text.now) line.items) }
{
    let mut out = new_line(alloc);
    put_verdict(alloc, &mut out, found, text)?;
    line_of(out)
}

//! What is told of an image, a run or a verdict, in the form that was asked for.
ghost use Rattle.std.specs.Prelude.{◌≡◌, [], IfOk, string_bytes};
ghost use Rattle.inspect_image.specs.Images.{image_text};
ghost use Rattle.inspect_refusal.specs.Refusals.{Tells};
ghost use Rattle.inspect_run.specs.Reports.{run_text};
ghost use Rattle.inspect.specs.Told.{IsImageReport, IsRunReport, IsVerdict, IsVerdictReport};

use crate::words::Form;
use inspect_image::push_image;
use inspect_json::{image_line, run_line, verdict_line};
use inspect_refusal::push_why;
use inspect_run::{Run, push_run};
use sbx_image::Image;
use sbx_rules::Refusal;
use std::alloc::{AllocError, Global};

/// The text of what an image declares.
fn image_bytes(alloc: Global, image: &Image) -> Result<Vec<u8>, AllocError>
    ensures { IfOk result (λ text. text.items ≡ image_text image.now) }
{
    let mut text = String::new(alloc);
    push_image(&mut text, image)?;
    Ok(text.into_bytes())
}

/// What is told of an image.
pub fn image_report(alloc: Global, form: Form, image: &Image) -> Result<Vec<u8>, AllocError>
    ensures { IfOk result (λ text. IsImageReport form image.now text.items) }
{
    match form {
        Form::Text => image_bytes(alloc, image),
        Form::Json => image_line(alloc, image),
    }
}

/// The text of a run.
fn run_bytes(alloc: Global, windows: u32, limit: u64, run: &Run) -> Result<Vec<u8>, AllocError>
    ensures { IfOk result (λ text. text.items ≡ run_text windows limit run.now) }
{
    let mut text = String::new(alloc);
    push_run(&mut text, windows, limit, run)?;
    Ok(text.into_bytes())
}

/// What is told of a run.
pub fn run_report(
    alloc: Global,
    form: Form,
    windows: u32,
    limit: u64,
    run: &Run,
) -> Result<Vec<u8>, AllocError>
    ensures { IfOk result (λ text. IsRunReport form windows limit run.now text.items) }
{
    match form {
        Form::Text => run_bytes(alloc, windows, limit, run),
        Form::Json => run_line(alloc, windows, limit, run),
    }
}

/// What is told of a verdict, whose text is given.
fn verdict_report(
    alloc: Global,
    form: Form,
    found: Option<Refusal>,
    text: String,
) -> Result<Vec<u8>, AllocError>
    requires { Tells found [] (string_bytes text) }
    ensures { IfOk result (λ told. IsVerdictReport form found told.items) }
{
    match form {
        Form::Text => Ok(text.into_bytes()),
        Form::Json => verdict_line(alloc, found, text.as_str()),
    }
}

/// Why an image is refused, and what is told of that.
#[tactic(auto, using(crate::proofs::Telling::verdict_of))]
pub fn why_report(
    alloc: Global,
    form: Form,
    image: Image,
) -> Result<(Option<Refusal>, Vec<u8>), AllocError>
    ensures verdict { IfOk result (λ told. IsVerdict image told.0) }
    ensures report { IfOk result (λ told. IsVerdictReport form told.0 told.1.items) }
{
    let mut text = String::new(alloc);
    let found = push_why(alloc, &mut text, image)?;
    let report = verdict_report(alloc, form, found, text)?;
    Ok((found, report))
}

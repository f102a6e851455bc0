//! What is told of a source.
ghost use Rattle.std.specs.Prelude.{◌≡◌, IfOk, IfSome};
ghost use Rattle.sbx_raw.specs.Fronts.{Wrote};
ghost use Rattle.inspect.specs.Sources.{CheckTold, IsCheckReport};

use crate::commands::put_out;
use crate::words::Form;
use cmd_command::{CommandStop, MOST, ReadFault, read_whole};
use inspect_json::check_line;
use inspect_names::{Check, Verdict, check_source, push_map};
use sbx_asm::assemble;
use sbx_image::{Image, write};
use sha2::{Digest, Sha256};
use std::alloc::{AllocError, Global};
use std::io::{Read, Write};
use want::Want;

/// The bytes of a source, or of its map.
pub fn source_in<F: Read>(alloc: Global, file: &mut F) -> Result<Vec<u8>, CommandStop>
    ensures { IfOk result (λ bytes. IfSome (F.remaining file.old) (λ all. bytes.items ≡ all)) }
{
    match read_whole(alloc, file, MOST) {
        Ok(bytes) => Ok(bytes),
        Err(ReadFault::Memory(want)) => Err(CommandStop::Memory(want)),
        Err(ReadFault::Reader | ReadFault::TooLong) => Err(CommandStop::File),
    }
}

/// What is told of a source, in the form that was asked for.
fn check_report(alloc: Global, form: Form, check: Check) -> Result<Vec<u8>, AllocError>
    ensures { IfOk result (λ told. IsCheckReport form check.findings.items told.items) }
{
    match form {
        Form::Text => Ok(check.text.into_bytes()),
        Form::Json => check_line(alloc, check.findings.as_slice(), check.text.as_str()),
    }
}

/// What is wrong with a source of that name, and the verdict on it.
fn report_of(
    alloc: Global,
    form: Form,
    name: &str,
    source: &[u8],
) -> Result<(Verdict, Vec<u8>), AllocError>
    ensures { IfOk result (λ told. CheckTold form source.now told.0 told.1.items) }
{
    let check = check_source(alloc, name, source)?;
    let verdict = check.verdict;
    let report = check_report(alloc, form, check)?;
    Ok((verdict, report))
}

/// Tells what is wrong with a source of that name, and gives the verdict on it.
#[tactic(auto, using(crate::proofs::Sourcing::check_told))]
pub fn tell_check<F: Read, O: Write>(
    alloc: Global,
    form: Form,
    name: &str,
    file: &mut F,
    out: &mut O,
) -> Result<Verdict, CommandStop>
    ensures { IfOk result
        (λ verdict. IfSome (F.remaining file.old)
        (λ source. Wrote (O.contents out.old) (O.contents out.new) (CheckTold form source verdict))) }
{
    let source = source_in(alloc, file)?;
    let (verdict, report) = match report_of(alloc, form, name, source.as_slice()) {
        Ok(told) => told,
        Err(error) => return Err(CommandStop::Memory(Want::from(error))),
    };
    put_out(out, report.as_slice())?;
    Ok(verdict)
}

/// The bytes of an image.
fn bytes_of(alloc: Global, image: &Image) -> Result<Vec<u8>, CommandStop> {
    match write(image, alloc) {
        Ok(bytes) => Ok(bytes),
        Err(error) => Err(CommandStop::Memory(Want::from(error))),
    }
}

/// What an image is known by: the SHA-256 of its bytes, in hexadecimal digits.
pub fn digest_of(alloc: Global, image: &Image) -> Result<String, CommandStop> {
    let bytes = bytes_of(alloc, image)?;
    let digest = Sha256::digest(bytes.as_slice());
    match hex::encode(alloc, digest.as_slice()) {
        Ok(text) => Ok(text),
        Err(error) => Err(CommandStop::Memory(Want::from(error))),
    }
}

/// Tells where the lines and the labels of a source stand, if it means an image.
pub fn tell_map<F: Read, O: Write>(
    alloc: Global,
    file: &mut F,
    out: &mut O,
) -> Result<(), CommandStop> {
    let source = source_in(alloc, file)?;
    let image = assemble(alloc, source.as_slice())?;
    let digest = digest_of(alloc, &image)?;
    let mut text = String::new(alloc);
    match push_map(alloc, &mut text, source.as_slice(), digest.as_str()) {
        Ok(()) => put_out(out, text.as_bytes()),
        Err(error) => Err(CommandStop::Memory(Want::from(error))),
    }
}

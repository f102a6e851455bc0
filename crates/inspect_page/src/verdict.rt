//! The verdict on an image, and why it is refused.
use crate::digits::push_bytes;
use inspect_refusal::push_why;
use sbx_image::Image;
use std::alloc::{AllocError, Global};

/// Pushes the refusal, which is the first line of a text, and the lines of the text.
fn push_refused(out: &mut String, text: &str) -> Result<(), AllocError> {
    for (number, line) in text.lines().enumerate() {
        if number == 0 {
            writeln!(out, "v{line}")?;
        }
        out.push('y')?;
        push_bytes(out, line.as_bytes())?;
        out.push('\n')?;
    }
    Ok(())
}

/// Pushes the verdict on an image, and of a refused one why it is.
pub fn push_verdict(alloc: Global, out: &mut String, image: Image) -> Result<(), AllocError> {
    let mut text = String::new(alloc);
    match push_why(alloc, &mut text, image)? {
        None => out.push_str("vaccepted\n"),
        Some(_refusal) => push_refused(out, text.as_str()),
    }
}

//! The program `native`: an accepted image as C.
//!
//! The status is 0 where the C was written, 2 where the image is refused, 3 where the words ask for nothing, and 4
//! where a file or a stream fails, or memory.
#![tactic(auto)]

mod stops;
mod words;

use cmd_files::{command_words, open_file};
use cmd_filing::read_whole;
use native_flow::translate;
use native_text::{ImageNote, ProgramText, write_program};
use sbx_image::parse;
use sbx_put::put_through;
use sbx_verify::{Accepted, verify};
use sha2::{Digest, Sha256};
use std::fs;
use std::fs::File;
use std::process::ExitCode;
use stops::{NativeStop, stop_of_open, stop_of_parse, stop_of_read, stop_of_verify, stop_of_write};
use v8_map::PAGE;
use words::{NativeAsked, USAGE, read_words};

/// The status of words that ask for nothing.
const OTHER_WORDS: u8 = 3;

/// The most bytes that an image's file may have.
const MOST: usize = 16_777_216;

/// The bytes of the file at a path.
fn bytes_of<'a>(rt: &HostRuntime, path: &'a str) -> Result<Vec<u8>, NativeStop<'a>> {
    let mut file: File = match open_file(rt, path) {
        Ok(file) => file,
        Err(error) => return Err(stop_of_open(path, &error)),
    };
    match read_whole(rt.alloc(), &mut file, MOST) {
        Ok(bytes) => Ok(bytes),
        Err(fault) => Err(stop_of_read(path, fault)),
    }
}

/// The accepted image of bytes.
fn accepted_of<'a>(
    rt: &HostRuntime,
    path: &'a str,
    bytes: &[u8],
) -> Result<Accepted, NativeStop<'a>> {
    let image = parse(rt.alloc(), bytes).map_err(|fault| stop_of_parse(path, fault))?;
    verify(rt.alloc(), image).map_err(|back| stop_of_verify(path, back.1))
}

/// The C of the image at a path.
fn text_of<'a>(rt: &HostRuntime, path: &'a str) -> Result<ProgramText, NativeStop<'a>> {
    let bytes = bytes_of(rt, path)?;
    let accepted = accepted_of(rt, path, bytes.as_slice())?;
    let program = translate(rt.alloc(), &accepted)?;
    let digest = Sha256::digest(bytes.as_slice());
    let named = ImageNote {
        image: digest.as_slice(),
        stack_bytes: u32::from(accepted.image().stack_pages()) * PAGE,
    };
    Ok(write_program(rt.alloc(), &program, &named)?)
}

/// Removes a plain file of which a part is written. What else stands at a path stays: a device, say.
fn remove_part(rt: &HostRuntime, path: &str) {
    if let Ok(found) = fs::metadata(rt, path) {
        if found.is_file() {
            let _ = fs::remove_file(rt, path);
        }
    }
}

/// Writes text to the file at a path; where that fails no part of it is left there.
fn write_file<'a>(
    rt: &HostRuntime,
    path: &'a str,
    text: &ProgramText,
) -> Result<(), NativeStop<'a>> {
    let mut file: File = match fs::create(rt, path) {
        Ok(file) => file,
        Err(error) => return Err(stop_of_write(path, &error)),
    };
    match put_through(&mut file, text.as_bytes()) {
        Ok(()) => Ok(()),
        Err(error) => {
            remove_part(rt, path);
            Err(stop_of_write(path, &error))
        }
    }
}

/// Does what the words ask for.
fn perform<'a>(rt: &HostRuntime, asked: &NativeAsked<'a>) -> Result<(), NativeStop<'a>> {
    let text = text_of(rt, asked.image)?;
    match asked.out {
        Some(path) if path != "-" => write_file(rt, path, &text),
        _ => match put_through(&mut rt.stdout(), text.as_bytes()) {
            Ok(()) => Ok(()),
            Err(error) => Err(stop_of_write("standard output", &error)),
        },
    }
}

/// Does what the words ask for, and gives the status. What is wrong is told on standard error.
fn status_of(rt: &HostRuntime, words: &[String]) -> u8 {
    if let [word] = words {
        if word.as_str() == "--help" {
            return u8::from(rt.print(USAGE).is_err()) * 4;
        }
    }
    let Some(asked) = read_words(words) else {
        let _ = rt.eprint(USAGE);
        return OTHER_WORDS;
    };
    match perform(rt, &asked) {
        Ok(()) => 0,
        Err(stop) => {
            let _ = eprintln!(rt; "native: {stop}");
            stop.status()
        }
    }
}

fn main(rt: HostRuntime) -> ExitCode {
    let status = match command_words(&rt) {
        Ok(words) => status_of(&rt, words.as_slice()),
        Err(_) => {
            let _ = rt.eprintln("native: memory");
            4
        }
    };
    ExitCode::from(status)
}

//! The program `board`: an accepted image as a program for a LEON3 without an operating system.
//!
//! The status is 0 where the file was written, 2 where the image is refused, 3 where the words ask for nothing, and 4
//! where a file or a stream fails, or memory.
#![tactic(auto)]

mod files;
mod map;
mod places;
mod stops;
mod words;

use cmd_files::{FileFault, command_words, open_file};
use cmd_filing::read_whole;
use files::{Loaded, elf_file, records};
use leon_start::{RamPlace, start_windows};
use leon_words::LeonServices;
use map::BoardMap;
use places::{BOOT, ROOM, leon_words};
use sbx_image::{Image, parse};
use sbx_put::put_through;
use sbx_verify::{Accepted, verify};
use std::alloc::{AllocError, Global};
use std::fs;
use std::fs::File;
use std::process::ExitCode;
use stops::{BoardStop, stop_of_read};
use v8_map::RAM;
use v8_memory::Ram;
use words::{BoardAsked, USAGE, WordsFault, read_words};

/// The most bytes that a file may have.
const MOST: usize = 16_777_216;

/// The bytes of the file at a path, at most so many.
fn bytes_of<'a>(rt: &HostRuntime, path: &'a str, most: usize) -> Result<Vec<u8>, BoardStop<'a>> {
    let mut file: File = match open_file(rt, path) {
        Ok(file) => file,
        Err(error) => return Err(BoardStop::File(path, FileFault::of(&error))),
    };
    match read_whole(rt.alloc(), &mut file, most) {
        Ok(bytes) => Ok(bytes),
        Err(fault) => Err(stop_of_read(path, fault)),
    }
}

/// The accepted image at a path.
fn accepted_at<'a>(rt: &HostRuntime, path: &'a str) -> Result<Accepted, BoardStop<'a>> {
    let bytes = bytes_of(rt, path, MOST)?;
    let image = parse(rt.alloc(), bytes.as_slice()).map_err(|fault| BoardStop::Image(path, fault))?;
    verify(rt.alloc(), image).map_err(|back| BoardStop::Refused(path, back.1))
}

/// The word of at most four bytes, most significant byte first, with zeros behind.
fn word_of(bytes: &[u8]) -> u32 {
    u32::from_be_bytes(match bytes {
        [first, second, third, fourth, ..] => [*first, *second, *third, *fourth],
        [first, second, third] => [*first, *second, *third, 0],
        [first, second] => [*first, *second, 0, 0],
        [first] => [*first, 0, 0, 0],
        [] => [0; 4],
    })
}

/// Bytes as words.
fn words_of(alloc: Global, bytes: &[u8]) -> Result<Vec<u32>, AllocError> {
    let mut words = Vec::new(alloc);
    for chunk in bytes.chunks(4) {
        words.push(word_of(chunk))?;
    }
    Ok(words)
}

/// The input that lies in RAM; none where the words name none.
fn input_of<'a>(rt: &HostRuntime, asked: &BoardAsked<'a>) -> Result<Vec<u8>, BoardStop<'a>> {
    let Some(path) = asked.input else {
        return Ok(Vec::new(rt.alloc()));
    };
    match bytes_of(rt, path, ROOM as usize) {
        Err(BoardStop::File(path, FileFault::TooLong)) => Err(BoardStop::Input(path)),
        other => other,
    }
}

/// The bytes of RAM up to the last word that isn't 0.
fn stored_bytes(alloc: Global, ram: &Ram) -> Result<Vec<u8>, AllocError> {
    let mut bytes = Vec::new(alloc);
    let mut behind = 0;
    for number in 0..u64::from(RAM) / 4 {
        let word = ram.entry(4 * number).unwrap_or(0);
        bytes.extend_from_slice(&word.to_be_bytes())?;
        if word != 0 {
            behind = bytes.len();
        }
    }
    bytes.truncate(behind);
    Ok(bytes)
}

/// RAM as the image starts in it.
fn start_of<'a>(
    rt: &HostRuntime,
    asked: &BoardAsked<'a>,
    image: &Image,
) -> Result<Ram, BoardStop<'a>> {
    let input = input_of(rt, asked)?;
    let length = match u32::try_from(input.len()) {
        Ok(length) if length <= ROOM => length,
        _ => return Err(BoardStop::Input(asked.image)),
    };
    let words = words_of(rt.alloc(), input.as_slice())?;
    let windows = asked.windows.count();
    let own = leon_words(&asked.services, windows, asked.base, length);
    let parts = own.parts(&asked.services, asked.base, words.as_slice());
    let place = RamPlace {
        base: asked.base,
        cached: asked.cached,
    };
    Ok(start_windows(rt.alloc(), windows, image, &place, &parts)?)
}

/// The file that words ask for.
fn file_of<'a>(
    rt: &HostRuntime,
    asked: &BoardAsked<'a>,
    image: &Image,
) -> Result<Vec<u8>, BoardStop<'a>> {
    let ram = start_of(rt, asked, image)?;
    let bytes = stored_bytes(rt.alloc(), &ram)?;
    let loaded = Loaded {
        bytes: bytes.as_slice(),
        base: asked.base,
        entry: asked.base.wrapping_add(BOOT),
    };
    Ok(if asked.records {
        records(rt.alloc(), &loaded)?
    } else {
        elf_file(rt.alloc(), &loaded, RAM)?
    })
}

/// Removes a plain file of which a part is written. What else stands at a path stays: a device, say.
fn remove_part(rt: &HostRuntime, path: &str) {
    if let Ok(found) = fs::metadata(rt, path) {
        if found.is_file() {
            let _ = fs::remove_file(rt, path);
        }
    }
}

/// Writes bytes to the file at a path; where that fails no part of them is left there.
fn write_file<'a>(rt: &HostRuntime, path: &'a str, bytes: &[u8]) -> Result<(), BoardStop<'a>> {
    let mut file: File = match fs::create(rt, path) {
        Ok(file) => file,
        Err(error) => return Err(BoardStop::Output(path, FileFault::of(&error))),
    };
    match put_through(&mut file, bytes) {
        Ok(()) => Ok(()),
        Err(error) => {
            remove_part(rt, path);
            Err(BoardStop::Output(path, FileFault::of(&error)))
        }
    }
}

/// Does what the words ask for.
fn perform<'a>(rt: &HostRuntime, asked: &BoardAsked<'a>) -> Result<(), BoardStop<'a>> {
    let accepted = accepted_at(rt, asked.image)?;
    let file = file_of(rt, asked, accepted.image())?;
    write_file(rt, asked.out, file.as_slice())?;
    if asked.map {
        if let Err(error) = print!(rt; "{}", BoardMap { asked }) {
            return Err(BoardStop::Output("standard output", FileFault::of(&error)));
        }
    }
    Ok(())
}

/// Does what words ask for.
fn perform_words<'a>(rt: &HostRuntime, words: &'a [String]) -> Result<(), BoardStop<'a>> {
    match read_words(words) {
        Ok(asked) => perform(rt, &asked),
        Err(fault) => Err(BoardStop::Words(fault)),
    }
}

/// Does what the words ask for, and gives the status. What is wrong is told on standard error.
fn status_of(rt: &HostRuntime, words: &[String]) -> u8 {
    if let [word] = words {
        if word.as_str() == "--help" {
            return u8::from(rt.print(USAGE).is_err()) * 4;
        }
    }
    if words.is_empty() {
        let _ = rt.eprint(USAGE);
        return 3;
    }
    match perform_words(rt, words) {
        Ok(()) => 0,
        Err(stop) => {
            let _ = eprintln!(rt; "board: {stop}");
            stop.status()
        }
    }
}

fn main(rt: HostRuntime) -> ExitCode {
    let status = match command_words(&rt) {
        Ok(words) => status_of(&rt, words.as_slice()),
        Err(_) => {
            let _ = rt.eprintln("board: memory");
            4
        }
    };
    ExitCode::from(status)
}

//! The programs of `examples`: what the sandbox's commands do with them, in memory. Each command is printed, with what
//! it tells and its status: a source is assembled, its image verified and run. Of an image that is kept beside its
//! source it is told where it is another than the assembled one.
use cmd_command::{Job, Windows, exit_status};
use std::io::{Read, Write};
use std::{fs, io};

/// Programs, whether there is an input for each, and whether its image is kept. The last six are those of the lessons.
static PROGRAMS: [(&str, bool, bool); 18] = [
    ("hello", false, true),
    ("echo", true, true),
    ("countdown", false, true),
    ("upper", true, true),
    ("lower", true, true),
    ("checksum", true, true),
    ("crc", true, true),
    ("sieve", false, true),
    ("squares", false, true),
    ("sort", true, true),
    ("chain", false, true),
    ("deep", false, true),
    ("slots", false, false),
    ("multiply", false, false),
    ("windows", false, false),
    ("fault", false, false),
    ("tagged", false, false),
    ("filter", true, false),
];

/// The sources that are refused, by the rule of their name.
static REFUSED: [&str; 18] = [
    "V2", "V3", "V4", "V5", "V6", "V7", "V8", "V9", "V10", "V11", "V12", "V13", "V14", "V15",
    "V16", "V17", "V18", "V20",
];

const ASM: Job<'static> = Job::Asm {
    source: "",
    object: "",
};

const VERIFY: Job<'static> = Job::Verify { image: "" };

const RUN: Job<'static> = Job::Run {
    image: "",
    windows: Windows::USUAL,
};

/// What a command gave.
#[derive(Drop)]
struct Done {
    status: u8,
    out: Vec<u8>,
    err: Vec<u8>,
}

/// Does a job, and gives its status. The types of the streams stay open here: at known ones the contract of
/// `exit_status` takes long.
fn status_of<F: Read, I: Read, O: Write, E: Write>(
    rt: &HostRuntime,
    job: &Job<'_>,
    file: &mut F,
    input: &mut I,
    out: &mut O,
    err: &mut E,
) -> u8 {
    exit_status(rt.alloc(), job, file, input, out, err)
}

/// Does a job on the bytes of a file and of an input.
fn performed(rt: &HostRuntime, job: &Job<'_>, mut file: &[u8], mut input: &[u8]) -> Done {
    let mut out = Vec::new(rt.alloc());
    let mut err = Vec::new(rt.alloc());
    let status = status_of(rt, job, &mut file, &mut input, &mut out, &mut err);
    Done { status, out, err }
}

/// Prints bytes that are text, and ends their last line.
fn tell(rt: &HostRuntime, text: &[u8]) -> io::Result<()> {
    rt.stdout().write_all(text)?;
    match text.last() {
        None | Some(b'\n') => Ok(()),
        Some(_) => println!(rt; ""),
    }
}

/// Prints what a command told, and its status.
fn tell_end(rt: &HostRuntime, out: &[u8], done: &Done) -> io::Result<()> {
    tell(rt, out)?;
    tell(rt, done.err.as_slice())?;
    println!(rt; "status {}", done.status)
}

/// Prints an assembly but for its image.
fn tell_assembly(rt: &HostRuntime, name: &str, done: &Done) -> io::Result<()> {
    println!(rt; "$ sandbox asm {name}.s {name}.img")?;
    tell_end(rt, b"", done)
}

/// Prints a command on an image, and what it gave.
fn tell_done(rt: &HostRuntime, word: &str, name: &str, done: &Done) -> io::Result<()> {
    println!(rt; "$ sandbox {word} {name}.img")?;
    tell_end(rt, done.out.as_slice(), done)
}

/// The bytes of the file of a program that ends so.
fn file_of(rt: &HostRuntime, name: &str, ending: &str) -> io::Result<Vec<u8>> {
    let path = format!(in rt.alloc(); "{name}.{ending}")?;
    fs::read(rt, path.as_str())
}

/// Verifies an image, and runs it on an input.
fn tell_image(rt: &HostRuntime, name: &str, image: &[u8], input: &[u8]) -> io::Result<()> {
    tell_done(rt, "verify", name, &performed(rt, &VERIFY, image, b""))?;
    tell_done(rt, "run", name, &performed(rt, &RUN, image, input))
}

/// The same on the program's input, if there is one.
fn tell_on_input(rt: &HostRuntime, name: &str, image: &[u8], there: bool) -> io::Result<()> {
    if there {
        let input = file_of(rt, name, "in")?;
        tell_image(rt, name, image, input.as_slice())
    } else {
        tell_image(rt, name, image, b"")
    }
}

/// Tells where a kept image is another.
fn compare(rt: &HostRuntime, name: &str, image: &[u8]) -> io::Result<()> {
    let kept = file_of(rt, name, "img")?;
    if image == kept.as_slice() {
        Ok(())
    } else {
        println!(rt; "{name}.img is another image")
    }
}

/// Assembles a source, and gives what that gave.
fn assembled(rt: &HostRuntime, name: &str) -> io::Result<Done> {
    let source = file_of(rt, name, "s")?;
    Ok(performed(rt, &ASM, source.as_slice(), b""))
}

/// Tells what assembling a program gave, and verifies the image and runs it.
fn tell_assembled(
    rt: &HostRuntime,
    name: &str,
    there: bool,
    is_kept: bool,
    done: &Done,
) -> io::Result<()> {
    tell_assembly(rt, name, done)?;
    if is_kept {
        compare(rt, name, done.out.as_slice())?;
    }
    tell_on_input(rt, name, done.out.as_slice(), there)
}

/// Assembles a program, verifies it and runs it.
fn tell_program(rt: &HostRuntime, name: &str, there: bool, is_kept: bool) -> io::Result<()> {
    let done = assembled(rt, name)?;
    tell_assembled(rt, name, there, is_kept, &done)
}

/// No source has the word that breaks the first rule, so an image has it.
fn tell_first_refused(rt: &HostRuntime) -> io::Result<()> {
    let image = file_of(rt, "V1", "img")?;
    tell_image(rt, "V1", image.as_slice(), b"")
}

/// Does with each of these programs what the commands do.
fn tell_all(rt: &HostRuntime, programs: &[(&str, bool, bool)]) -> io::Result<()> {
    for (name, there, is_kept) in programs {
        tell_program(rt, name, *there, *is_kept)?;
    }
    Ok(())
}

/// Does the same with sources that are refused.
fn tell_refused(rt: &HostRuntime, names: &[&str]) -> io::Result<()> {
    for name in names {
        tell_program(rt, name, false, false)?;
    }
    Ok(())
}

/// Does with each program what the commands do.
pub fn tell_programs(rt: &HostRuntime) -> io::Result<()> {
    tell_all(rt, &PROGRAMS)?;
    tell_first_refused(rt)?;
    tell_refused(rt, &REFUSED)
}

//! What is told of images on standard error.
ghost use Rattle.std.specs.Prelude.{◌≡◌, ◌/◌, ◌%◌};
ghost use Rattle.host.specs.Ends.{test_name};

use crate::faults::HostFault;
use crate::policy::Denial;
use crate::running::HostRun;
use crate::words::Report;
use bitflags::Flags;
use sbx_run::{Accepted, budget};
use serde_json::{Map, Value};
use std::alloc::{AllocError, Global};
use std::fmt::{self, Display, Formatter};
use std::io::Write;

/// Writes a line on standard error by one call.
fn put_line(rt: &HostRuntime, mut line: String) -> Result<(), HostFault<'static>> {
    line.push('\n')?;
    match rt.stderr().write_all(line.as_bytes()) {
        Ok(()) => Ok(()),
        Err(_) => Err(HostFault::Report),
    }
}

/// What an admitted image asks for.
fn asked_line(alloc: Global, accepted: &Accepted) -> Result<String, AllocError> {
    let image = accepted.image();
    let mut line = String::from_str(alloc, "services:")?;
    for (name, _) in image.services().iter_names() {
        line.push(' ')?;
        line.push_str(name)?;
    }
    let (turns, pages) = (budget(image), image.stack_pages());
    write!(line, "; turns: {turns}; stack pages: {pages}")?;
    Ok(line)
}

/// Tells what an admitted image asks for, where that is told.
pub fn tell_asked(
    rt: &HostRuntime,
    report: Report,
    accepted: &Accepted,
) -> Result<(), HostFault<'static>> {
    match report {
        Report::Lines => put_line(rt, asked_line(rt.alloc(), accepted)?),
        Report::Faults | Report::Json => Ok(()),
    }
}

/// The members of an object of JSON, by their names.
type Members = Map<String, Value>;

/// Gives an object one more member.
fn put_member(
    alloc: Global,
    members: &mut Members,
    name: &str,
    value: Value,
) -> Result<(), AllocError> {
    let name = String::from_str(alloc, name)?;
    let _ = members.insert(name, value)?;
    Ok(())
}

/// Gives an object a text by its name.
fn put_text(
    alloc: Global,
    members: &mut Members,
    name: &str,
    text: &str,
) -> Result<(), AllocError> {
    let text = Value::try_from_str(alloc, text)?;
    put_member(alloc, members, name, text)
}

/// Gives an object numbers by their names.
fn put_numbers(
    alloc: Global,
    members: &mut Members,
    numbers: &[(&str, u64)],
) -> Result<(), AllocError> {
    for (name, number) in numbers {
        put_member(alloc, members, *name, Value::from(*number))?;
    }
    Ok(())
}

/// An object that names an image and why it is denied.
fn denial_object(alloc: Global, path: &str, denial: &Denial) -> Result<String, AllocError> {
    let reason = format!(in alloc; "{denial}")?;
    let mut members = Map::new(alloc);
    put_text(alloc, &mut members, "image", path)?;
    put_text(alloc, &mut members, "denied", reason.as_str())?;
    Value::Object(members).to_string(alloc)
}

/// Tells why an image is denied.
pub fn tell_denial(
    rt: &HostRuntime,
    report: Report,
    path: &str,
    denial: &Denial,
) -> Result<(), HostFault<'static>> {
    let alloc = rt.alloc();
    let line = match report {
        Report::Lines => format!(in alloc; "denied: {denial}")?,
        Report::Faults => format!(in alloc; "host: {path}: denied: {denial}")?,
        Report::Json => denial_object(alloc, path, denial)?,
    };
    put_line(rt, line)
}

/// An object that names an image, and tells its run beside its budget.
fn run_object(alloc: Global, path: &str, budget: u64, ran: &HostRun) -> Result<String, AllocError> {
    let numbers = [
        ("exit", u64::from(ran.told.status)),
        ("turns", ran.told.turns),
        ("budget", budget),
        ("overflows", ran.told.overflows),
        ("underflows", ran.told.underflows),
        ("output", ran.output),
    ];
    let mut members = Map::new(alloc);
    put_text(alloc, &mut members, "image", path)?;
    put_member(alloc, &mut members, "input_left", Value::from(ran.has_left))?;
    put_numbers(alloc, &mut members, &numbers)?;
    Value::Object(members).to_string(alloc)
}

/// What failed where an exit word is one of a test that `fit` adds; nothing is told of another word.
#[derive(Clone, Copy)]
struct TestWord(u32);

impl TestWord {
    /// What failed, by the number in the word's upper half.
    fn name(&self) -> &'static str
        ensures { result.now ≡ test_name (self.now.0 / 65536) }
    {
        match self.0 / 0x1_0000 {
            1 => "an index leaves its object",
            2 => "a pointer leaves the data, isn't aligned, or leads to a constant",
            3 => "a divisor is 0",
            4 => "the loops have used up their turns",
            5 => "calls go too deep",
            9 => "a call through a pointer that is no function's",
            _ => "",
        }
    }

    /// The number of the test's line.
    fn line(&self) -> u32
        ensures { result ≡ self.now.0 % 65536 }
    {
        self.0 % 0x1_0000
    }
}

impl Display for TestWord {
    fn fmt<W: fmt::Write>(&self, f: &mut Formatter<W>) -> fmt::Result {
        let (name, line) = (self.name(), self.line());
        if name.is_empty() {
            return Ok(());
        }
        write!(f, ", as where a test fails, in line {line}: {name}")
    }
}

/// Tells how the run of an image ended.
pub fn tell_run(
    rt: &HostRuntime,
    report: Report,
    path: &str,
    accepted: &Accepted,
    ran: &HostRun,
) -> Result<(), HostFault<'static>> {
    let (alloc, status, turns) = (rt.alloc(), ran.told.status, ran.told.turns);
    let test = TestWord(status);
    let line = match report {
        Report::Lines => format!(in alloc; "exit word {status}, {turns} turns{test}")?,
        Report::Faults if status == 0 => return Ok(()),
        Report::Faults => format!(in alloc; "host: {path}: exit word {status}{test}")?,
        Report::Json => run_object(alloc, path, budget(accepted.image()), ran)?,
    };
    put_line(rt, line)
}

/// An object that names an image, and tells that its run was stopped where it had put out so much.
fn stopped_object(alloc: Global, path: &str, output: u64) -> Result<String, AllocError> {
    let mut members = Map::new(alloc);
    put_text(alloc, &mut members, "image", path)?;
    put_text(alloc, &mut members, "stopped", "output")?;
    put_numbers(alloc, &mut members, &[("output", output)])?;
    Value::Object(members).to_string(alloc)
}

/// Tells that a run was stopped since it puts out more than so many bytes.
pub fn tell_stopped(
    rt: &HostRuntime,
    report: Report,
    path: &str,
    output: u64,
) -> Result<(), HostFault<'static>> {
    let alloc = rt.alloc();
    let line = match report {
        Report::Lines | Report::Faults => format!(in alloc;
            "host: {path}: stopped: its output has more than {output} bytes"
        )?,
        Report::Json => stopped_object(alloc, path, output)?,
    };
    put_line(rt, line)
}

//! A run's standard streams, as a conversation ([`cmd_files::Hearer`], [`cmd_files::Speaker`]): what was put out is
//! there to be read before an answer to it is waited for. What is left at the end goes on by the job's own flush,
//! and where a job stops before it, as the writer is dropped.
use crate::files::done_on;
use cmd_command::CommandStop;
use cmd_files::{Hearer, Speaker};
use cmd_words::Job;
use std::cell::RefCell;
use std::io::{BufReader, LineWriter};

/// Does a job on the file at `path`, in conversation over standard input and standard output.
pub fn converse(rt: &HostRuntime, job: &Job<'_>, path: &str) -> Result<u8, CommandStop> {
    let input = match BufReader::new(rt.alloc(), rt.stdin()) {
        Ok(input) => input,
        Err(error) => return Err(CommandStop::of(&error, CommandStop::Input)),
    };
    let out = match LineWriter::new(rt.alloc(), rt.stdout()) {
        Ok(out) => out,
        Err(error) => return Err(CommandStop::of(&error, CommandStop::Output)),
    };
    let out = RefCell::new(out);
    let mut hearer = Hearer::new(input, &out);
    let mut speaker = Speaker::new(&out);
    done_on(rt, job, path, &mut hearer, &mut speaker)
}

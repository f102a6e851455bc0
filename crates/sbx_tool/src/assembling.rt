//! The command `asm` on files.
use crate::files::{done_on, is_same_file, stored};
use cmd_command::CommandStop;
use cmd_words::Job;

/// Assembles the source at a path. The object is opened only where the source means an image; the source itself is no
/// object.
pub fn assemble_to(
    rt: &HostRuntime,
    job: &Job<'_>,
    source: &str,
    object: &str,
) -> Result<u8, CommandStop> {
    let mut bytes = Vec::new(rt.alloc());
    let status = done_on(rt, job, source, &mut rt.stdin(), &mut bytes)?;
    if status == 0 && is_same_file(rt, source, object) {
        return Err(CommandStop::Output);
    }
    if status == 0 {
        stored(rt, object, bytes.as_slice())?;
    }
    Ok(status)
}

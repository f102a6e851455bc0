//! The line of a stop over a writer that takes a byte a call, and fails at one.
use super::Writer;
use cmd_command::CommandStop;
use sbx_rules::{Cause, Refusal};

/// The longest stop: a refusal at the last word of the last function.
const LONGEST: CommandStop = CommandStop::Refused(Refusal {
    function: u16::MAX,
    address: u32::MAX,
    cause: Cause::TagOverflow,
});

const LINE: &[u8] = b"refused V11 in function 65535 at FFFFFFFF\n";

/// What is there of the line at the call that fails.
fn front_at(fails: usize) -> &'static [u8] {
    match fails.checked_sub(1) {
        None => LINE,
        Some(count) => LINE.get(..count).unwrap_or(LINE),
    }
}

/// Whether a stop is told up to the call that fails, with the same status.
fn is_told(fails: usize) -> bool {
    let mut err = Writer {
        most: 1,
        ..Writer::new(fails)
    };
    let ended = LONGEST.report(&mut err);
    let front = front_at(fails);
    let told = front.len() == LINE.len();
    ended.status == 2 && ended.told == told && err.has(front)
}

#[test]
fn tells_the_longest_line_up_to_a_fault(rt: HostRuntime) {
    for fails in 0..44usize {
        assert!(rt; is_told(fails), "at {fails}");
    }
}

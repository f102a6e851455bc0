//! The data of a source.
use crate::names::commented;
use crate::text::SourceText;
use fit_code::{Object, Program, Region};

/// So many zeros, if there are some.
fn push_zeros(out: &mut SourceText, count: u64) {
    if count > 0 {
        out.put("\n    .skip ", &count);
    }
}

/// A line of bytes.
fn push_line(out: &mut SourceText, bytes: &[u8]) {
    let mut before = "\n    .byte ";
    for byte in bytes {
        out.put(before, byte);
        before = ",";
    }
}

/// Bytes, those that are 0 by their number.
fn push_bytes(out: &mut SourceText, bytes: &[u8]) {
    let mut zeros: u64 = 0;
    for line in bytes.chunks(16) {
        if [0; 16].starts_with(line) {
            zeros = zeros.saturating_add(line.len() as u64);
        } else {
            push_zeros(out, zeros);
            zeros = 0;
            push_line(out, line);
        }
    }
    push_zeros(out, zeros);
}

/// A region with the objects that lie in it, and zeros between them.
fn push_region(out: &mut SourceText, region: &Region, objects: &[Object]) {
    let right = if region.readonly { "ro" } else { "rw" };
    out.put("\n\n.region ", &right);
    let start = u64::from(region.start);
    let end = start.saturating_add(u64::from(region.length));
    let mut at = start;
    for object in objects {
        let address = u64::from(object.start);
        if (start <= address) & (address < end) {
            push_zeros(out, address.saturating_sub(at));
            out.put("\n! ", &commented(object.name.as_str()));
            out.lacks |= write!(out.text, ", at {address:08X}").is_err();
            push_bytes(out, object.bytes.as_slice());
            at = address.saturating_add(object.bytes.len() as u64);
        }
    }
    push_zeros(out, end.saturating_sub(at));
}

/// The regions of a program; the code comes behind them.
pub fn push_data(out: &mut SourceText, program: &Program) {
    for region in program.regions.as_slice() {
        push_region(out, region, program.objects.as_slice());
    }
    out.add("\n\n.text");
}

//! A source with more annotations than before.
ghost use Rattle.std.specs.Prelude.{IfOk};
ghost use Rattle.sbx_asm.specs.Items.{lines_of};
ghost use Rattle.fit_kept.specs.Lines.{IsAnnotated};

use crate::annotation::{Addition, FunctionTotal, Value};
use crate::keeping::is_annotated;
use crate::lines::parts_of;
use fit_code::{Fault, Heap, NO_LINE, Reason};
use inspect_image::{Bounds, Location};
use sbx_asm::first_line;
use std::alloc::Global;
use std::fmt::Display;
use std::io::Write;
use v8_syntax::bytes_between;

/// A text that is made, and what isn't in it yet.
#[derive(Drop)]
struct Inserting<'t> {
    text: Vec<u8>,
    additions: &'t [Addition],
    /// Which of the additions is the next one.
    next: usize,
    memory: Heap,
}

impl Inserting<'_> {
    /// Adds bytes.
    fn push(&mut self, bytes: &[u8]) {
        self.memory.take(self.text.extend_from_slice(bytes));
    }

    /// Adds a value as it is shown, and what is behind it.
    fn put<D: Display>(&mut self, value: &D, behind: &[u8]) {
        self.memory.is_refused |= write!(self.text, "{value}").is_err();
        self.push(behind);
    }

    /// Adds what stands before the line of a number, a line each.
    fn push_before(&mut self, number: usize) {
        let additions = self.additions;
        for place in self.next..additions.len() {
            let Addition { before, annotation } = additions[place];
            if before > number {
                return;
            }
            self.next = place.saturating_add(1);
            self.push(annotation.name.as_bytes());
            if let Some(location) = annotation.location {
                self.put(&Location(location), b",");
            }
            match annotation.value {
                Value::Number(number) => self.put(&number, b"\n"),
                Value::Range(range) => self.put(&Bounds(range), b"\n"),
            }
        }
    }

    /// Adds a line with other numbers for a function's stack room and its budget. Adds nothing where the language has
    /// no such line. Says how much of the line is done with.
    fn push_filled(&mut self, line: &[u8], total: &FunctionTotal) -> usize {
        let (before, memory) = (self.text.len(), &mut self.memory);
        let Some(parts) = parts_of(memory.alloc, line, &mut memory.is_refused) else {
            return 0;
        };
        self.push(parts.before);
        self.put(&total.room, parts.between);
        self.put(&total.budget, parts.behind);
        let (text, memory) = (self.text.as_slice(), &mut self.memory);
        let filled = &text[before.min(text.len())..];
        if parts_of(memory.alloc, filled, &mut memory.is_refused).is_some() {
            return line.len();
        }
        self.text.truncate(before);
        0
    }
}

/// A source with more annotations, and with numbers for the stack room and the budgets of its functions. Additions and
/// totals ascend by line; a total's line is left as it is where it isn't a `.function` that may have such numbers. What
/// is made is looked at line by line.
///
/// # Errors
/// An addition that has no place there: behind the last line, or no annotation; and want of memory.
pub fn insert(
    alloc: Global,
    source: &[u8],
    additions: &[Addition],
    totals: &[FunctionTotal],
) -> Result<Vec<u8>, Fault>
    ensures { IfOk result (λ made. IsAnnotated (lines_of source.now) (lines_of made.items)) }
{
    let mut made = Inserting {
        text: Vec::new(alloc),
        additions,
        next: 0,
        memory: Heap::new(alloc),
    };
    let (mut rest, mut number, mut filled) = (source, 0usize, 0);
    'lines: while !rest.is_empty() {
        let (line, after) = first_line(rest);
        let behind = rest.len().saturating_sub(after.len());
        number = number.saturating_add(1);
        made.push_before(number);
        let mut done = 0;
        if filled < totals.len() && totals[filled].line <= number {
            done = made.push_filled(line, &totals[filled]);
            filled += 1;
        }
        made.push(bytes_between(rest, done, behind));
        rest = after;
    }
    let is_placed = made.next >= additions.len();
    let text = made.memory.told(made.text)?;
    if is_placed && is_annotated(alloc, source, text.as_slice())? {
        return Ok(text);
    }
    let reason = Reason::Unreadable("an annotation has no place in the source");
    Err(Fault::new(NO_LINE, reason))
}

//! Tests as notes to the author.
use crate::plans::plan::{Test, TestKind};
use fit_code::Program;
use sbx_range::Range;
use std::fmt::{Display, Error, Formatter, Write};

/// A test as one line, with the name of its file.
#[derive(Drop)]
pub struct TestLine<'p> {
    test: Test,
    program: &'p Program,
}

impl Test {
    /// The test as one line of notes.
    pub fn shown<'p>(&self, program: &'p Program) -> TestLine<'p> {
        TestLine {
            test: *self,
            program,
        }
    }
}

/// What a note ends with, by the power of 2 of which a multiple is asked for.
static ENDS: [&str; 4] = [
    ": a test was added",
    ", and no multiple of 2: a test was added",
    ", and no multiple of 4: a test was added",
    ", and no multiple of 8: a test was added",
];

impl Display for TestLine<'_> {
    fn fmt<W: Write>(&self, f: &mut Formatter<W>) -> Result<(), Error> {
        let (line, plan, program) = (self.test.line, &self.test.plan, self.program);
        let (files, objects) = (program.files.as_slice(), program.objects.as_slice());
        let mut place = Ok(());
        if (line.number > 0) & (line.file < files.len()) {
            place = write!(f, "{}:{}: ", files[line.file], line.number);
        }
        // What is tested may be an index with a number added.
        let mut first = 0;
        let number = plan.bounds.object.unwrap_or(objects.len());
        let subject = if number < objects.len() {
            first = plan.bounds.lo;
            let (name, bytes) = (&objects[number].name, objects[number].bytes.len());
            write!(f, "note: the index into {name} ({bytes} bytes) may be ")
        } else {
            f.write_str(match plan.kind {
                TestKind::Divisor => "note: the divisor may be 0: it may be ",
                _ => "note: the address may be ",
            })
        };
        let Range { lo, hi, .. } = plan.range;
        let least = (lo as i64).saturating_sub(first);
        let greatest = (hi as i64).saturating_sub(first);
        let numbers = if (lo == i32::MIN) & (hi == i32::MAX) {
            f.write_str("any word")
        } else if lo == hi {
            write!(f, "{least}")
        } else {
            write!(f, "{least} to {greatest}")
        };
        let end = f.write_str(ENDS[(plan.alignment % 4) as usize]);
        place.and(subject).and(numbers).and(end)
    }
}

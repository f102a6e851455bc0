//! What is wrong with a source: the place of each fault, its number, and its sentence.
ghost use Rattle.std.specs.Prelude.{◌≡◌, ◌∷◌, ◌++◌, IfOk, OnOk, Some, map};
ghost use Rattle.inspect_names.specs.Findings.{code_text, fault_place, finding_place};

use inspect_check::Faults;
use inspect_source::{Setting, mark_of, whole_reason};
use sbx_asm::{AsmFault, Cause, Line, LocationCounter, Scope, Survey, survey_lines};
use std::alloc::{AllocError, Global};
use std::fmt::{self, Error, Formatter, Write};

/// The number of a fault, as `A2`, or of a rule, as `V14`.
#[derive(Clone, Copy)]
pub enum SourceCode {
    Fault(Cause),
    Rule(sbx_rules::Cause),
}

impl fmt::Display for SourceCode {
    ghost output = { λ c. Some (code_text c) };

    fn fmt<W: Write>(&self, f: &mut Formatter<W>) -> Result<(), Error> {
        match *self {
            SourceCode::Fault(cause) => write!(f, "{cause}"),
            SourceCode::Rule(cause) => write!(f, "{cause}"),
        }
    }
}

/// One thing that is wrong with a source.
#[derive(Clone, Copy)]
pub struct Finding {
    /// From 1.
    pub line: usize,
    /// In bytes, from 1.
    pub column: usize,
    pub code: SourceCode,
    /// What is wrong, in words.
    pub sentence: &'static str,
}

/// Lines of a source that are left, behind those that were passed.
#[derive(Clone, Copy)]
struct Walk<'l, 'a, 't> {
    rest: &'l [Line<'a, 't>],
    place: LocationCounter,
    setting: Setting,
}

impl<'l, 'a, 't> Walk<'l, 'a, 't> {
    /// At the first line.
    fn start(lines: &'l [Line<'a, 't>]) -> Self {
        Walk {
            rest: lines,
            place: LocationCounter::start(),
            setting: Setting::start(),
        }
    }

    /// Behind a line, at the rest.
    fn behind(self, line: &Line<'a, 't>, rest: &'l [Line<'a, 't>]) -> Self {
        Walk {
            rest,
            place: self.place.after(line),
            setting: self.setting.after(line),
        }
    }

    /// At the line of a number, or behind the last line.
    fn up_to(self, number: usize) -> Self {
        let mut walk = self;
        for _ in 0..self.rest.len() {
            walk = match walk.rest.split_first() {
                Some((line, rest)) if line.number() < number => walk.behind(line, rest),
                _ => return walk,
            };
        }
        walk
    }

    /// The column of a fault of the line that comes next, and its sentence; those of a fault of the source as a whole
    /// where the line of the fault is behind the last.
    fn place_of(
        self,
        alloc: Global,
        survey: &Survey<'_>,
        fault: AsmFault,
    ) -> Result<(usize, &'static str), AllocError> {
        Ok(match self.rest.first() {
            Some(line) if line.number() == fault.line => {
                let scope = Scope {
                    table: &survey.table,
                    here: self.place.next_word,
                };
                let mark = mark_of(alloc, line, fault.cause, &scope, self.setting)?;
                (mark.at.saturating_add(1), mark.reason.sentence())
            }
            _ => (1, whole_reason(fault.cause).sentence()),
        })
    }

    /// A fault of the line that comes next, or of the source as a whole.
    fn finding(
        self,
        alloc: Global,
        survey: &Survey<'_>,
        fault: AsmFault,
    ) -> Result<Finding, AllocError>
        ensures { IfOk result (λ found. finding_place found ≡ fault_place fault) }
    {
        let (column, sentence) = self.place_of(alloc, survey, fault)?;
        Ok(Finding {
            line: fault.line,
            column,
            code: SourceCode::Fault(fault.cause),
            sentence,
        })
    }
}

/// Adds faults, each at its place, which stand in the order of their lines.
fn push_each(
    alloc: Global,
    found: &mut Vec<Finding>,
    survey: &Survey<'_>,
    walk: Walk<'_, '_, '_>,
    faults: &[AsmFault],
) -> Result<(), AllocError>
    ensures { OnOk result
        (map finding_place found.new.items ≡ map finding_place found.old.items ++ map fault_place faults.now) }
{
    let mut walk = walk;
    for fault in faults {
        walk = walk.up_to(fault.line);
        let next = walk.finding(alloc, survey, *fault)?;
        found.push(next)?;
    }
    Ok(())
}

/// The faults of the source of some lines, each at its place. They stand in the order of their lines.
pub(crate) fn findings_of(
    alloc: Global,
    lines: &[Line<'_, '_>],
    faults: &Faults,
) -> Result<Vec<Finding>, AllocError>
    ensures { IfOk result
        (λ found. map finding_place found.items ≡ map fault_place (faults.now.first ∷ faults.now.others.items)) }
{
    let survey = survey_lines(alloc, lines)?;
    let walk = Walk::start(lines).up_to(faults.first.line);
    let first = walk.finding(alloc, &survey, faults.first)?;
    let mut found = Vec::new(alloc);
    found.push(first)?;
    push_each(alloc, &mut found, &survey, walk, faults.others.as_slice())?;
    Ok(found)
}

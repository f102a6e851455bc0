//! Where each label stands.
ghost use Rattle.std.specs.Prelude.{◌≡◌, IfOk, List, MatchOption, None, [], ◌∷◌, ◌++◌, map};
ghost use Rattle.sbx_directives.specs.Directives.{text_of};
ghost use Rattle.sbx_asm.specs.Items.{Item, each, label_names};
ghost use Rattle.sbx_asm.specs.Addresses.{Label, labelled, labels_at, names_said};
ghost use Rattle.sbx_asm.specs.Kept.{IsSurvey, place_at};

use crate::fault::{AsmFault, Cause};
use crate::place::LocationCounter;
use crate::reading::Line;
use crate::table::Table;
use sbx_directives::{Directive, Name, Statement, text_of};
use sbx_text::{TextFault, Token};
use std::alloc::{AllocError, Global};
use v8_syntax::after_first;

/// What labels are worth, and the faults of those that stand before already, in the order of their lines.
#[derive(Drop)]
pub struct Survey<'a> {
    pub table: Table<'a>,
    pub repeats: Vec<AsmFault>,
}

/// The name of a function or of a block, whatever else stands there.
fn name_said(line: &[u8], said: Result<Statement, TextFault>) -> Option<Name>
    ensures { MatchOption result (names_said line.now said ≡ [])
        (λ name. names_said line.now said ≡ text_of line.now name ∷ []) }
{
    match said {
        Ok(Statement::Directive(Directive::Function { name, .. } | Directive::Block(name))) => {
            Some(name)
        }
        Ok(Statement::Malformed(_, name)) => name,
        _ => None,
    }
}

impl<'a> Survey<'a> {
    /// Before the first label.
    fn new(alloc: Global) -> Survey<'a>
        ensures { IsSurvey [] result }
    {
        Survey {
            table: Table::new(alloc),
            repeats: Vec::new(alloc),
        }
    }

    /// One more label. Where its name has a value already, that stays, and the label is a fault of the line of that
    /// number.
    fn add(&mut self, number: usize, name: &'a [u8], address: u32) -> Result<(), AllocError>
        ensures { IfOk result (λ _. (labels : List Label) → IsSurvey labels self.old →
            IsSurvey (labels ++ labelled number address name.now ∷ []) self.new) }
    {
        match self.table.value(name) {
            Some(_) => {
                let again = AsmFault {
                    line: number,
                    cause: Cause::DuplicateLabel,
                };
                self.repeats.push(again)?;
            }
            None => self.table.put(name, address)?,
        }
        Ok(())
    }

    /// So many labels of a line at an address, which stand in front of `tokens`.
    fn add_labels(
        &mut self,
        number: usize,
        address: u32,
        line: &'a [u8],
        count: usize,
        tokens: &[Token],
    ) -> Result<(), AllocError>
        ensures { IfOk result (λ _. (labels : List Label) → IsSurvey labels self.old →
            IsSurvey (labels ++ map (labelled number address) (label_names line.now count tokens.now)) self.new) }
    {
        let mut rest = tokens;
        for _ in 0..count {
            let Some((first, after)) = rest.split_first() else {
                return Ok(());
            };
            let Token {
                kind: _,
                start,
                stop,
            } = *first;
            self.add(number, text_of(line, Name { start, stop }), address)?;
            rest = after_first(after);
        }
        Ok(())
    }

    /// The name of a function or of a block.
    fn add_name(
        &mut self,
        number: usize,
        address: u32,
        line: &'a [u8],
        said: Result<Statement, TextFault>,
    ) -> Result<(), AllocError>
        ensures { IfOk result (λ _. (labels : List Label) → IsSurvey labels self.old →
            IsSurvey (labels ++ map (labelled number address) (names_said line.now said)) self.new) }
    {
        match name_said(line, said) {
            Some(name) => self.add(number, text_of(line, name), address),
            None => Ok(()),
        }
    }

    /// The labels of one more line, at its place.
    fn add_line(&mut self, place: LocationCounter, line: &Line<'a, '_>) -> Result<(), AllocError>
        ensures { IfOk result (λ _. (labels : List Label) (before : List Item) → place ≡ place_at before →
            IsSurvey labels self.old → IsSurvey (labels ++ labels_at before line.now []) self.new) }
    {
        let number = line.number();
        let (count, tokens) = line.labels();
        self.add_labels(number, place.address(), line.bytes(), count, tokens)?;
        self.add_name(number, place.next_word, line.bytes(), line.said())?;
        Ok(())
    }
}

/// The labels of all lines: what each is worth, and which are told.
pub fn survey_lines<'a>(alloc: Global, lines: &[Line<'a, '_>]) -> Result<Survey<'a>, AllocError>
    ensures { IfOk result (λ survey. IsSurvey (each labels_at [] lines.now) survey) }
{
    let mut survey = Survey::new(alloc);
    let mut place = LocationCounter::start();
    for line in lines {
        survey.add_line(place, line)?;
        place = place.after(line);
    }
    Ok(survey)
}

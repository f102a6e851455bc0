//! The faults of all lines but those of their labels, and the words of their instructions.
ghost use Rattle.std.specs.Prelude.{◌≡◌, ◌++◌, ◌&&◌, ◌||◌, not, [], IfOk, List};
ghost use Rattle.std.specs.List.{list_any, fold};
ghost use Rattle.sbx_asm.specs.Rules.{told, acts, faults_at};
ghost use Rattle.sbx_asm.specs.Items.{Item, begins_block, each, up_to, has_bytes, is_text, is_region, ends_block};
ghost use Rattle.sbx_asm.specs.Images.{words_at};
ghost use Rattle.sbx_asm.specs.Kept.{worth, context_at};

use crate::context::Context;
use crate::fault::{AsmFault, Cause};
use crate::kinds::{ends_block, has_bytes, is_region, is_text};
use crate::notes::Notes;
use crate::operands::{acts, push_words, value_fault};
use crate::reading::Line;
use crate::table::Table;
use std::alloc::{AllocError, Global};

/// The most lines.
const LINES: usize = 1_000_000;

/// The fault that is told so far, and the words of the lines so far.
#[derive(Drop)]
pub struct CheckedLines {
    pub fault: Option<AsmFault>,
    pub words: Vec<u32>,
}

/// Whether a region has bytes in some lines, up to a `.text` or another one.
fn have_bytes(lines: &[Line<'_, '_>]) -> bool
    ensures { result ≡ list_any has_bytes (up_to (λ j. is_text j || is_region j) lines.now) }
{
    for line in lines {
        if is_text(line) || is_region(line) {
            return false;
        }
        if has_bytes(line) {
            return true;
        }
    }
    false
}

/// Whether a line acts in some lines, up to the end of the block.
fn any_acts(table: &Table<'_>, lines: &[Line<'_, '_>]) -> bool
    ensures { result ≡ list_any (acts (worth table.now)) (up_to ends_block lines.now) }
{
    for line in lines {
        if ends_block(line) {
            return false;
        }
        if acts(line, value_fault(table, line)) {
            return true;
        }
    }
    false
}

/// Whether a line begins a region without bytes.
fn is_empty_region(line: &Line<'_, '_>, behind: &[Line<'_, '_>]) -> bool
    ensures { result ≡
        (is_region line.now && not (list_any has_bytes (up_to (λ j. is_text j || is_region j) behind.now))) }
{
    is_region(line) && !have_bytes(behind)
}

/// Whether a line begins a block in which no line acts.
fn is_idle_block(
    table: &Table<'_>,
    context: Context,
    line: &Line<'_, '_>,
    behind: &[Line<'_, '_>],
) -> bool
    ensures { (before : List Item) → context ≡ context_at (worth table.now) before →
        result ≡ (begins_block before line.now
        && not (list_any (acts (worth table.now)) (up_to ends_block behind.now))) }
{
    context.begins_block(line) && !any_acts(table, behind)
}

impl CheckedLines {
    /// One more line, in front of others, and whether it acts.
    fn add_line(
        &mut self,
        table: &Table<'_>,
        context: Context,
        line: &Line<'_, '_>,
        behind: &[Line<'_, '_>],
    ) -> Result<bool, AllocError>
        ensures { IfOk result (λ is_acting. (before : List Item) → context ≡ context_at (worth table.now) before
            → (is_acting ≡ acts (worth table.now) line.now)
            × (self.new.fault ≡ fold told self.old.fault (faults_at (worth table.now) before line.now behind.now))
            × (self.new.words.items ≡ self.old.words.items ++ words_at (worth table.now) before line.now behind.now)) }
    {
        let here = context.place.next_word;
        let syntax_fault = push_words(&mut self.words, table, here, line)?;
        let value_fault = value_fault(table, line);
        let is_empty = is_empty_region(line, behind);
        let is_idle = is_idle_block(table, context, line, behind);
        let notes = Notes {
            line: line.number(),
            fault: self.fault,
        };
        let notes = notes.with_where(line.number() > LINES, Cause::Limit);
        let notes = context.line_rules(notes, line, value_fault, syntax_fault);
        let notes = notes
            .with_where(is_empty, Cause::Directive)
            .with_where(is_idle, Cause::Directive);
        self.fault = notes.fault;
        Ok(acts(line, value_fault))
    }
}

/// The faults of some lines, where the labels are known and a fault may be told already, and the words of the lines.
pub fn check(
    alloc: Global,
    table: &Table<'_>,
    told_before: Option<AsmFault>,
    lines: &[Line<'_, '_>],
) -> Result<CheckedLines, AllocError>
    ensures { IfOk result (λ c. (c.fault ≡ fold told told_before (each (faults_at (worth table.now)) [] lines.now))
        × (c.words.items ≡ each (words_at (worth table.now)) [] lines.now)) }
{
    let mut checked = CheckedLines {
        fault: told_before,
        words: Vec::new(alloc),
    };
    let mut context = Context::start();
    for (at, line) in lines.iter().enumerate() {
        let is_acting = checked.add_line(table, context, line, &lines[at + 1..])?;
        context = context.after(line, is_acting);
    }
    Ok(checked)
}

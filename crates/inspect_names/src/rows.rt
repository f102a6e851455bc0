//! Which line the words of an image come from.
ghost use Rattle.std.specs.Prelude.{◌≡◌, ◌++◌, [], IfOk, List};
ghost use Rattle.sbx_asm.specs.Items.{Item, each};
ghost use Rattle.inspect_names.specs.Rows.{row_at};
ghost use Rattle.sbx_asm.specs.Kept.{place_at};

use sbx_asm::{Line, LocationCounter};
use sbx_directives::Statement;
use std::alloc::{AllocError, Global};

/// Where the words of a line begin in the code.
#[derive(Clone, Copy, PartialEq, Eq)]
pub struct SourceRow {
    /// The address of the first one.
    pub address: u32,
    /// The number of the line, from 1.
    pub line: usize,
}

/// Adds the row of a line at its place, if it has words.
fn push_row(
    rows: &mut Vec<SourceRow>,
    place: LocationCounter,
    line: &Line<'_, '_>,
) -> Result<(), AllocError>
    ensures { IfOk result (λ _. (before after : List Item) → place ≡ place_at before →
        rows.new.items ≡ rows.old.items ++ row_at before line.now after) }
{
    match line.said() {
        Ok(Statement::Instruction) => {
            rows.push(SourceRow {
                address: place.next_word,
                line: line.number(),
            })?;
            Ok(())
        }
        _ => Ok(()),
    }
}

/// The rows of some lines, which are all of a source from its first on: one for each that is a statement of the code.
pub fn rows_of(alloc: Global, lines: &[Line<'_, '_>]) -> Result<Vec<SourceRow>, AllocError>
    ensures { IfOk result (λ rows. rows.items ≡ each row_at [] lines.now) }
{
    let mut rows = Vec::new(alloc);
    let mut place = LocationCounter::start();
    for line in lines {
        push_row(&mut rows, place, line)?;
        place = place.after(line);
    }
    Ok(rows)
}

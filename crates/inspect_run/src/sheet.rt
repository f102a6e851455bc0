//! Lines of text that fit 100 columns.
ghost use Rattle.std.specs.Prelude.{◌≡◌, ◌++◌, ◌-◌, OnOk, length, string_bytes};
ghost use Rattle.inspect_run.specs.Heads.{padded_to};

use inspect_lines::{MARGIN, WIDTH};
use std::alloc::{AllocError, Global};
use std::fmt::Display;

/// The column from which items stand behind the text that a line begins with.
const ITEMS: usize = 60;

/// Items that stand behind a text, each whole: where one doesn't fit the line, it goes on in the next.
#[derive(Drop)]
pub struct Sheet {
    text: String,
    column: usize,
    items: usize,
    item: String,
}

impl Sheet {
    /// No items.
    pub fn new(alloc: Global) -> Self {
        Sheet {
            text: String::new(alloc),
            column: 0,
            items: ITEMS,
            item: String::new(alloc),
        }
    }

    /// The items, as they stand behind the text.
    pub fn text(&self) -> &str {
        self.text.as_str()
    }

    /// Begins anew, behind a text of so many columns.
    pub fn begin(&mut self, column: usize) {
        self.text.clear();
        self.column = column;
        self.items = ITEMS;
    }

    /// Puts an item.
    pub fn put<D: Display + Drop>(&mut self, item: D) -> Result<(), AllocError> {
        self.item.clear();
        self.item.write(item)?;
        self.put_item()
    }

    /// Puts the item that was made.
    fn put_item(&mut self) -> Result<(), AllocError> {
        let start = self.column.saturating_add(2).max(self.items);
        let length = self.item.len();
        let (end, blanks) = if start.saturating_add(length) > WIDTH {
            self.items = 0;
            self.column = MARGIN.len();
            ("\n", MARGIN.len())
        } else {
            let blanks = start.saturating_sub(self.column);
            self.column = start;
            ("", blanks)
        };
        self.column = self.column.saturating_add(length);
        let item = self.item.as_str();
        write!(self.text, "{end}{:blanks$}{item}", "")
    }
}

/// Pushes blanks behind a line, up to a column.
pub fn pad(line: &mut String, column: usize) -> Result<(), AllocError>
    ensures { OnOk result (string_bytes line.new ≡ padded_to column (string_bytes line.old)) }
{
    for _ in 0..column.saturating_sub(line.len()) {
        line.push_str(" ")?;
    }
    Ok(())
}

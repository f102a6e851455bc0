//! A table as a file spells it: a row a line, its name and its cycles.
ghost use Rattle.std.specs.Prelude.{◌≤◌, ◌<◌, IfErr, length};
ghost use Rattle.inspect_cycles.specs.Faults.{LiesIn};

use crate::table::CycleTable;
use std::fmt::{self, Display, Formatter, Write};
use std::str;

/// What is wrong with a line. Its text says it to people.
#[derive(Clone, Copy, PartialEq, Eq)]
pub enum RowCause {
    /// It isn't text.
    Text,
    /// No row has this name.
    Name,
    /// The row stands above already.
    Again,
    /// There is no number, or more than one word behind the name.
    Count,
    /// What has to be a number is none.
    Number,
    /// The number has more than 32 bits.
    Great,
}

/// Why a file is no table.
#[derive(Clone, Copy, PartialEq, Eq)]
pub enum TableFault {
    /// What is wrong with the first line that isn't right, which are counted from 1.
    Line(u64, RowCause),
    /// The first row that no line gives, by its name.
    Lacks(&'static str),
}

/// The rows that were read, by their names.
#[derive(Clone, Copy)]
struct TableRows {
    rows: [(&'static str, Option<u32>); 16],
}

impl TableRows {
    /// None was read.
    fn new() -> Self {
        TableRows {
            rows: [
                ("plain", None),
                ("multiply", None),
                ("divide", None),
                ("branch", None),
                ("jump", None),
                ("load", None),
                ("store", None),
                ("exchange", None),
                ("save", None),
                ("restore", None),
                ("exit", None),
                ("get", None),
                ("put", None),
                ("trap", None),
                ("fetch", None),
                ("walk", None),
            ],
        }
    }

    /// Sets a row.
    fn set(&mut self, name: &str, number: Option<&str>) -> Result<(), RowCause> {
        for row in &mut self.rows {
            if row.0 == name {
                let cycles = cycles_in(number)?;
                if row.1.is_some() {
                    return Err(RowCause::Again);
                }
                row.1 = Some(cycles);
                return Ok(());
            }
        }
        Err(RowCause::Name)
    }

    /// Sets the row of a line; one without words has none.
    fn set_line(&mut self, line: &[u8]) -> Result<(), RowCause> {
        let Ok(text) = str::from_utf8(before(line, b'#')) else {
            return Err(RowCause::Text);
        };
        let mut words = text.split_whitespace();
        let Some(name) = words.next() else {
            return Ok(());
        };
        let number = words.next();
        match words.next() {
            Some(_) => Err(RowCause::Count),
            None => self.set(name, number),
        }
    }

    /// The cycles of a row, or its name where it lacks.
    fn cycles(&self, name: &'static str) -> Result<u32, &'static str> {
        for row in &self.rows {
            if row.0 == name {
                return row.1.ok_or(name);
            }
        }
        Err(name)
    }

    /// The table, where each row was read, or the name of the first one that lacks.
    fn table(&self) -> Result<CycleTable, &'static str> {
        Ok(CycleTable {
            plain: self.cycles("plain")?,
            multiply: self.cycles("multiply")?,
            divide: self.cycles("divide")?,
            branch: self.cycles("branch")?,
            jump: self.cycles("jump")?,
            load: self.cycles("load")?,
            store: self.cycles("store")?,
            exchange: self.cycles("exchange")?,
            save: self.cycles("save")?,
            restore: self.cycles("restore")?,
            exit: self.cycles("exit")?,
            get: self.cycles("get")?,
            put: self.cycles("put")?,
            trap: self.cycles("trap")?,
            fetch: self.cycles("fetch")?,
            walk: self.cycles("walk")?,
        })
    }
}

/// The number that a word spells by decimal digits alone.
fn cycles_in(word: Option<&str>) -> Result<u32, RowCause> {
    let Some(word) = word else {
        return Err(RowCause::Count);
    };
    if !word.as_bytes().iter().all(|byte| byte.is_ascii_digit()) {
        return Err(RowCause::Number);
    }
    match word.parse::<u32>() {
        Ok(cycles) => Ok(cycles),
        Err(_) => Err(RowCause::Great),
    }
}

/// What stands before the first such byte.
fn before(bytes: &[u8], byte: u8) -> &[u8]
    ensures { length result.now ≤ length bytes.now }
{
    let count = bytes.iter().take_while(|it| **it != byte).count();
    &bytes[..count]
}

/// The table that a file spells: each row once, as its name and its cycles in decimal. `#` begins a comment.
pub fn read_table(file: &[u8]) -> Result<CycleTable, TableFault>
    ensures { IfErr result (LiesIn file.now) }
{
    let mut rows = TableRows::new();
    let mut number = 0u64;
    let mut rest = file;
    while rest.len() > 0 {
        let line = before(rest, b'\n');
        number += 1;
        if let Err(cause) = rows.set_line(line) {
            return Err(TableFault::Line(number, cause));
        }
        rest = rest.get(line.len() + 1..).unwrap_or(&[]);
    }
    match rows.table() {
        Ok(table) => Ok(table),
        Err(name) => Err(TableFault::Lacks(name)),
    }
}

impl Display for RowCause {
    fn fmt<W: Write>(&self, f: &mut Formatter<W>) -> fmt::Result {
        f.write_str(match self {
            RowCause::Text => "isn't text",
            RowCause::Name => "begins with no name of a row",
            RowCause::Again => "gives a row that a line above has given",
            RowCause::Count => "a row is its name and one number",
            RowCause::Number => "the cycles are decimal digits",
            RowCause::Great => "the cycles are at most 4294967295",
        })
    }
}

impl Display for TableFault {
    fn fmt<W: Write>(&self, f: &mut Formatter<W>) -> fmt::Result {
        match self {
            TableFault::Line(line, cause) => write!(f, "line {line}: {cause}"),
            TableFault::Lacks(name) => write!(f, "the row {name} lacks"),
        }
    }
}

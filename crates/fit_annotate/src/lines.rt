//! Places in a source: of its words, its blocks and its annotations.
use fit_code::Heap;
use sbx_asm::first_line;
use sbx_directives::{Directive, Name, Statement, label_count, read_statement};
use sbx_text::{Token, tokens};
use v8_syntax::length_of;

/// The number of the line of a cell, and the cell's location.
#[derive(Clone, Copy)]
pub struct CellLine {
    pub line: u32,
    pub location: u16,
}

/// A `.function` or a `.block`, and where the annotations behind it stand, up to the next one.
#[derive(Clone, Copy)]
pub struct Head {
    /// Its name, as a part of the source. It is of ASCII characters.
    pub name: Name,
    /// The number of its line.
    pub line: u32,
    /// The numbers of the lines of its last `.param`, `.result` and `.cell`; of its own, where it has none.
    pub last_param: u32,
    pub last_result: u32,
    pub last_cell: u32,
    /// Which of the source's cells is its first one, and which the next one behind its own.
    pub first_cell: usize,
    pub next_cell: usize,
    pub says_depth: bool,
    pub says_fuel: bool,
}

/// The lines of a source that has no fault, told by their numbers from 1.
#[derive(Drop)]
pub struct SourceLines {
    pub memory: Heap,
    /// Of each word of the code its line.
    pub words: Vec<u32>,
    /// Where its functions and their further blocks begin, in their order.
    pub heads: Vec<Head>,
    pub cells: Vec<CellLine>,
}

impl SourceLines {
    /// Begins a function or a block of a name.
    fn begin(&mut self, line: u32, name: Name) {
        let head = Head {
            name,
            line,
            last_param: line,
            last_result: line,
            last_cell: line,
            first_cell: self.cells.len(),
            next_cell: self.cells.len(),
            says_depth: false,
            says_fuel: false,
        };
        self.memory.push(&mut self.heads, head);
    }

    /// Takes over a line with so many bytes before it: a word, what begins a function or a block, or an annotation of
    /// the block that was begun last.
    fn add(&mut self, number: u32, before: usize, line: &[u8], tokens: &[Token]) {
        let rest = &tokens[2 * label_count(line, tokens)..];
        match read_statement(line, rest) {
            Statement::Instruction => {
                let count = self.words.len().saturating_add(length_of(line, rest));
                self.memory.take(self.words.resize(count, number));
            }
            Statement::Directive(Directive::Function { name, .. } | Directive::Block(name)) => {
                let start = before.saturating_add(name.start);
                let stop = before.saturating_add(name.stop);
                self.begin(number, Name { start, stop });
            }
            Statement::Directive(directive) => {
                if let Some(head) = self.heads.last_mut() {
                    match directive {
                        Directive::Param(_) => head.last_param = number,
                        Directive::Result(_) => head.last_result = number,
                        Directive::Depth(_) => head.says_depth = true,
                        Directive::Fuel(_) | Directive::Term(_) => head.says_fuel = true,
                        Directive::Cell(cell) => {
                            let (line, location) = (number, cell.location);
                            self.memory
                                .push(&mut self.cells, CellLine { line, location });
                            head.last_cell = line;
                            head.next_cell = self.cells.len();
                        }
                        _ => {}
                    }
                }
            }
            _ => {}
        }
    }

    /// Takes over the lines of a source that the assembler takes.
    pub fn add_lines(&mut self, source: &[u8]) {
        let mut rest = source;
        for number in 1..u32::MAX {
            if rest.is_empty() {
                break;
            }
            let (line, after) = first_line(rest);
            let before = source.len().saturating_sub(rest.len());
            match tokens(self.memory.alloc, line) {
                Ok(found) => self.add(number, before, line, found.as_slice()),
                Err(_refused) => self.memory.is_refused = true,
            }
            rest = after;
        }
    }
}

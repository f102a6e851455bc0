//! Assembly as it is read, before its names are resolved.
use crate::text::{first_label, first_word, is_name, place_of, shown};
use fit_code::{Fault, Heap, NO_LINE, Naming, Reason, SourceLine};
use memchr::memchr;
use std::alloc::{AllocError, Global};
use std::collections::BTreeMap;
use v8_syntax::bytes_between;

/// How many names there may be.
const NAMES: usize = 200_000;

/// How many labels and instructions there may be.
const ITEMS: usize = 400_000;

/// The part of an address that an instruction takes.
#[derive(Clone, Copy)]
pub enum AddressPart {
    /// The place that a branch or a call goes to.
    Target,
    /// `%hi`: the high 22 bits.
    High,
    /// `%lo`: the low 10 bits.
    Low,
}

/// What an instruction takes of an address: that of a symbol plus a number.
#[derive(Clone, Copy)]
pub struct Reference {
    pub part: AddressPart,
    pub symbol: usize,
    pub offset: i64,
}

/// An instruction, whose number is 0 where a reference is to be filled in.
#[derive(Clone, Copy)]
pub struct CodeItem {
    /// The word of the instruction.
    pub word: u32,
    pub line: SourceLine,
    pub reference: Option<Reference>,
}

/// A function as it stands in the assembly.
#[derive(Drop)]
pub struct CodeBody {
    pub symbol: usize,
    pub line: SourceLine,
    pub items: Vec<CodeItem>,
}

/// A word of data that holds an address.
#[derive(Clone, Copy)]
pub struct Fix {
    /// The number of the object.
    pub object: usize,
    /// Where it stands in the object.
    pub at: usize,
    pub symbol: usize,
    pub offset: i64,
    pub line: SourceLine,
}

/// An object as it stands in the assembly.
#[derive(Clone, Copy)]
pub struct Datum {
    pub symbol: usize,
    pub readonly: bool,
    pub align: u32,
    /// Where it begins in the bytes of all objects.
    pub start: usize,
}

/// Where a symbol stands.
#[derive(Clone, Copy)]
pub enum SymbolPlace {
    /// In no file so far.
    Nowhere,
    /// At the start of the function of a number.
    Function(usize),
    /// Within the function of a number, at one of its instructions or behind the last one.
    Label { code: usize, at: usize },
    /// At the start of the object of a number.
    Object(usize),
}

/// A name of one file.
#[derive(Drop)]
pub struct Symbol {
    pub name: String,
    /// Whether other files mean the same by it.
    pub is_global: bool,
    pub is_function: bool,
    pub place: SymbolPlace,
    /// Where it stood first.
    pub line: SourceLine,
}

/// What lines of assembly belong to.
#[derive(Clone, Copy)]
pub enum Section {
    Code,
    Data { readonly: bool },
    /// What doesn't run and isn't read, as what a debugger asks for.
    Ignored,
}

/// A text of its own; an empty one where memory is refused, which is noted.
pub fn owned(memory: &mut Heap, text: &str) -> String {
    let mut made = String::new(memory.alloc);
    memory.take(made.push_str(text));
    made
}

/// What has been read so far, of one file or of several.
#[derive(Drop)]
pub struct Assembly {
    pub memory: Heap,
    pub files: Vec<String>,
    pub symbols: Vec<Symbol>,
    pub codes: Vec<CodeBody>,
    pub objects: Vec<Datum>,
    /// The bytes of all objects.
    pub(crate) bytes: Vec<u8>,
    /// The addresses in them.
    pub fixes: Vec<Fix>,
    /// How many labels and instructions all functions have.
    pub items: usize,
    /// The symbols of the file that is read.
    names: BTreeMap<String, usize>,
    /// The files of the numbers of `.file`.
    pub(crate) numbered: BTreeMap<i64, usize>,
    pub(crate) section: Section,
    /// What the next data are aligned to, and what fills the room before them.
    pub(crate) align: u32,
    pub(crate) padding: u8,
    /// Where the object begins that data are added to, the last one; none where they would have no label.
    pub(crate) start: Option<usize>,
    /// How many instructions the function has that others are added to, the last one; none where they would have none.
    pub(crate) at: Option<usize>,
    /// The line of assembly that is read.
    place: SourceLine,
    /// What is told of it: the line of C where one is known, else that of assembly.
    pub(crate) line: SourceLine,
    /// The first fault but want of memory: what is read behind it counts for nothing.
    fault: Option<Fault>,
}

impl Assembly {
    /// Nothing read yet.
    pub fn new(alloc: Global) -> Assembly {
        Assembly {
            memory: Heap::new(alloc),
            files: Vec::new(alloc),
            symbols: Vec::new(alloc),
            codes: Vec::new(alloc),
            objects: Vec::new(alloc),
            bytes: Vec::new(alloc),
            fixes: Vec::new(alloc),
            items: 0,
            names: BTreeMap::new(alloc),
            numbered: BTreeMap::new(alloc),
            section: Section::Code,
            align: 1,
            padding: 0,
            start: None,
            at: None,
            place: NO_LINE,
            line: NO_LINE,
            fault: None,
        }
    }

    /// The bytes of an object.
    pub fn bytes_of(&self, number: usize, object: &Datum) -> &[u8] {
        let end = match self.objects.get(number.saturating_add(1)) {
            Some(next) => next.start,
            None => self.bytes.len(),
        };
        bytes_between(self.bytes.as_slice(), object.start, end)
    }

    /// Whether a fault was noted.
    pub(crate) fn is_refused(&self) -> bool {
        self.fault.is_some()
    }

    /// Notes a fault at the line that is read, of which the first one is told.
    pub(crate) fn refuse(&mut self, what: &'static str) {
        if self.fault.is_none() {
            self.fault = Some(Fault::new(self.line, Reason::Unreadable(what)));
        }
    }

    /// Notes a fault that names what stands in the line.
    pub(crate) fn named(&mut self, naming: Naming, name: &[u8]) {
        if self.fault.is_none() {
            let name = owned(&mut self.memory, shown(name));
            self.fault = Some(Fault::new(self.line, Reason::Named(naming, name)));
        }
    }

    /// The number of a file's name, which is new.
    pub(crate) fn add_file(&mut self, name: &[u8]) -> usize {
        let number = self.files.len();
        if number >= NAMES {
            self.refuse("more than 200000 files");
        }
        let name = owned(&mut self.memory, shown(name));
        self.memory.push(&mut self.files, name);
        number
    }

    /// The symbol of a name in the file that is read; it has to be one.
    pub(crate) fn symbol(&mut self, name: &[u8]) -> usize {
        let text = shown(name);
        if let Some(number) = self.names.get(text) {
            return *number;
        }
        let number = self.symbols.len();
        if !is_name(name) {
            self.named(Naming::Label, name);
        }
        if number >= NAMES {
            self.refuse("more than 200000 names");
        }
        let key = owned(&mut self.memory, text);
        self.memory.is_refused |= self.names.insert(key, number).is_err();
        let symbol = Symbol {
            name: owned(&mut self.memory, text),
            is_global: false,
            is_function: false,
            place: SymbolPlace::Nowhere,
            line: self.line,
        };
        self.memory.push(&mut self.symbols, symbol);
        number
    }

    /// Says where the symbol of a name stands.
    pub(crate) fn define(&mut self, name: &[u8], symbol: usize, place: SymbolPlace) {
        let symbols = self.symbols.as_mut_slice();
        if symbol < symbols.len() {
            if let SymbolPlace::Nowhere = symbols[symbol].place {
                symbols[symbol].place = place;
            } else {
                self.named(Naming::DefinedTwice, name);
            }
        }
    }

    /// Counts labels or instructions, of which there may be so many.
    pub(crate) fn count_items(&mut self, count: usize) {
        self.items = self.items.saturating_add(count);
        if self.items > ITEMS {
            self.refuse("more than 400000 labels and instructions");
        }
    }

    /// A label of the code: of a function, which begins there, or within one.
    fn label_code(&mut self, name: &[u8]) {
        let symbol = self.symbol(name);
        let number = self.codes.len();
        let symbols = self.symbols.as_slice();
        if symbol < symbols.len() && symbols[symbol].is_function {
            self.define(name, symbol, SymbolPlace::Function(number));
            self.line = self.place;
            self.at = Some(0);
            let code = CodeBody {
                symbol,
                line: self.place,
                items: Vec::new(self.memory.alloc),
            };
            self.memory.push(&mut self.codes, code);
        } else if let Some(at) = self.at {
            let code = number.saturating_sub(1);
            self.define(name, symbol, SymbolPlace::Label { code, at });
            self.count_items(1);
        }
    }

    /// A line of assembly: labels, and a directive, an instruction or nothing behind them, and a comment. A line that
    /// begins with `#` is one.
    fn read_line(&mut self, line: &[u8]) {
        let mut text = bytes_between(line, 0, place_of(b'!', line)).trim_ascii();
        if text.starts_with(b"#") {
            return;
        }
        for _ in 0..=line.len() {
            let Some((name, rest)) = first_label(text) else {
                break;
            };
            match self.section {
                Section::Code => self.label_code(name),
                Section::Data { readonly } => self.label_data(name, readonly),
                Section::Ignored => {}
            }
            text = rest;
        }
        let (word, rest) = first_word(text);
        if word.starts_with(b".") {
            return self.directive(word, rest);
        }
        match self.section {
            _ if word.is_empty() => {}
            Section::Code => self.instruction(word, rest),
            Section::Data { .. } => self.refuse("an instruction among data"),
            Section::Ignored => {}
        }
    }

    /// Reads a file of assembly. Names that aren't global are its own.
    ///
    /// # Errors
    /// The first line that can't be read, or that passes a bound. No more is to be read then.
    pub fn read(&mut self, name: &str, text: &[u8]) -> Result<(), Fault> {
        let file = self.add_file(name.as_bytes());
        self.names.clear();
        self.numbered.clear();
        self.section = Section::Code;
        self.start = None;
        self.at = None;
        self.place = SourceLine { file, number: 0 };
        self.line = self.place;
        let mut start: usize = 0;
        for _ in 0..=text.len() {
            if self.memory.is_refused | self.fault.is_some() | (start > text.len()) {
                break;
            }
            let rest = bytes_between(text, start, text.len());
            let line = bytes_between(rest, 0, memchr(b'\n', rest).unwrap_or(rest.len()));
            start = start.saturating_add(line.len()).saturating_add(1);
            self.place.number = self.place.number.saturating_add(1);
            // a line of C has another file
            if self.line.file == file {
                self.line = self.place;
            }
            self.read_line(line);
        }
        if self.memory.is_refused {
            return Err(Fault::from(AllocError));
        }
        match self.fault.take() {
            Some(fault) => Err(fault),
            None => Ok(()),
        }
    }
}

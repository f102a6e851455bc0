//! Directives.
use crate::source::{Assembly, Section};
use crate::text::{first_operand, first_word, is_name, number_of, unquoted};
use fit_code::{Naming, SourceLine};
use memchr::memrchr;
use v8_syntax::{beside, bytes_between};

/// What a directive asks for.
#[derive(Clone, Copy)]
enum GasDirective {
    /// A section, which it names, or that of its own name.
    Section { is_named: bool },
    Align { is_power: bool },
    Common,
    Mark { is_global: bool },
    File,
    Loc,
    Data(DataItem),
    /// Nothing that matters here.
    Nothing,
}

/// What a directive adds to the data.
#[derive(Clone, Copy)]
enum DataItem {
    Values(usize),
    Strings { zeros: usize },
    Room,
    /// A value so many times.
    Repeated,
}

const WRITABLE: Section = Section::Data { readonly: false };

static DIRECTIVES: [(&str, GasDirective); 40] = [
    (".section", GasDirective::Section { is_named: true }),
    (".text", GasDirective::Section { is_named: false }),
    (".data", GasDirective::Section { is_named: false }),
    (".bss", GasDirective::Section { is_named: false }),
    (".align", GasDirective::Align { is_power: false }),
    (".balign", GasDirective::Align { is_power: false }),
    (".p2align", GasDirective::Align { is_power: true }),
    (".comm", GasDirective::Common),
    (".common", GasDirective::Common),
    (".global", GasDirective::Mark { is_global: true }),
    (".globl", GasDirective::Mark { is_global: true }),
    (".weak", GasDirective::Mark { is_global: true }),
    (".type", GasDirective::Mark { is_global: false }),
    (".file", GasDirective::File),
    (".loc", GasDirective::Loc),
    (".word", GasDirective::Data(DataItem::Values(4))),
    (".long", GasDirective::Data(DataItem::Values(4))),
    (".uaword", GasDirective::Data(DataItem::Values(4))),
    (".half", GasDirective::Data(DataItem::Values(2))),
    (".uahalf", GasDirective::Data(DataItem::Values(2))),
    (".short", GasDirective::Data(DataItem::Values(2))),
    (".byte", GasDirective::Data(DataItem::Values(1))),
    (".ascii", GasDirective::Data(DataItem::Strings { zeros: 0 })),
    (".asciz", GasDirective::Data(DataItem::Strings { zeros: 1 })),
    (
        ".string",
        GasDirective::Data(DataItem::Strings { zeros: 1 }),
    ),
    (".skip", GasDirective::Data(DataItem::Room)),
    (".space", GasDirective::Data(DataItem::Room)),
    (".zero", GasDirective::Data(DataItem::Room)),
    (".fill", GasDirective::Data(DataItem::Repeated)),
    (".local", GasDirective::Nothing),
    (".size", GasDirective::Nothing),
    (".ident", GasDirective::Nothing),
    (".proc", GasDirective::Nothing),
    (".register", GasDirective::Nothing),
    (".hidden", GasDirective::Nothing),
    (".internal", GasDirective::Nothing),
    (".protected", GasDirective::Nothing),
    (".addrsig", GasDirective::Nothing),
    (".addrsig_sym", GasDirective::Nothing),
    (".version", GasDirective::Nothing),
];

/// The sections whose names begin so, the first that fits.
static SECTIONS: [(&str, Section); 11] = [
    (".text", Section::Code),
    (".rodata", Section::Data { readonly: true }),
    (".data.rel.ro", Section::Data { readonly: true }),
    (".data", WRITABLE),
    (".sdata", WRITABLE),
    (".bss", WRITABLE),
    (".sbss", WRITABLE),
    (".debug", Section::Ignored),
    (".comment", Section::Ignored),
    (".note", Section::Ignored),
    (".eh_frame", Section::Ignored),
];

impl Assembly {
    /// Another section begins. The code ends there, and goes on where the code's does.
    fn section_line(&mut self, text: &[u8]) {
        let (first, _) = first_operand(text);
        let name = unquoted(first).unwrap_or(first);
        for (start, section) in &SECTIONS {
            if name.starts_with(start.as_bytes()) {
                self.section = *section;
                self.start = None;
                self.align = 1;
                return;
            }
        }
        self.named(Naming::Section, name)
    }

    /// A name that is the same in all files; or `NAME,#function`, also `@function`, of which other types don't matter.
    fn mark(&mut self, text: &[u8], is_global: bool) {
        let (first, kind) = first_operand(text);
        let name = if is_global { text } else { first };
        if is_global | kind.ends_with(b"function") {
            let symbol = self.symbol(name);
            let symbols = self.symbols.as_mut_slice();
            if symbol < symbols.len() {
                symbols[symbol].is_global |= is_global;
                symbols[symbol].is_function |= !is_global;
            }
        } else if !is_name(name) {
            self.named(Naming::Label, name)
        }
    }

    /// `NUMBER "FOLDER" "NAME"`, where the folder may be left out; a name alone is the assembly's own. The file has the
    /// last name of the path.
    fn file_line(&mut self, text: &[u8]) {
        let (number, rest) = first_word(text);
        let Some(number) = number_of(number) else {
            return;
        };
        let (first, behind) = first_word(rest);
        let (second, _) = first_word(behind);
        let path = if second.is_empty() { first } else { second };
        let path = unquoted(path).unwrap_or(path);
        let start = match memrchr(b'/', path) {
            Some(place) => place.saturating_add(1),
            None => 0,
        };
        let file = self.add_file(bytes_between(path, start, path.len()));
        self.memory.is_refused |= self.numbered.insert(number, file).is_err();
    }

    /// `FILE LINE ..`
    fn loc_line(&mut self, text: &[u8]) {
        let (file, rest) = first_word(text);
        let (number, _) = first_word(rest);
        let number = u32::try_from(number_of(number).unwrap_or(0)).unwrap_or(0);
        if number > 0
            && let Some(file) = number_of(file)
            && let Some(file) = self.numbered.get(&file)
        {
            let file = *file;
            self.line = SourceLine { file, number };
        }
    }

    /// Values or strings, with commas between them, or room. They have to stand in a section of data.
    fn data(&mut self, data: DataItem, text: &[u8]) {
        match self.section {
            Section::Ignored => return,
            Section::Code => return self.refuse("data among instructions"),
            Section::Data { .. } => {}
        }
        let mut rest = text;
        for _ in 0..text.len() {
            let (first, others) = first_operand(rest);
            match data {
                DataItem::Values(size) => self.value(size, first),
                DataItem::Strings { zeros } => self.string(first, zeros),
                DataItem::Room => return self.room(text),
                DataItem::Repeated => return self.repeated(text),
            }
            rest = others;
            if rest.is_empty() {
                return;
            }
        }
    }

    /// A directive, and what stands behind it. One that aligns may stand among instructions.
    pub(crate) fn directive(&mut self, name: &[u8], text: &[u8]) {
        match beside(name, &DIRECTIVES) {
            Some(GasDirective::Section { is_named }) => {
                self.section_line(if is_named { text } else { name })
            }
            Some(GasDirective::Common) => self.common(text),
            Some(GasDirective::Mark { is_global }) => self.mark(text, is_global),
            Some(GasDirective::File) => self.file_line(text),
            Some(GasDirective::Loc) => self.loc_line(text),
            Some(GasDirective::Align { is_power }) => {
                if let Section::Data { .. } = self.section {
                    self.aligned(text, is_power);
                }
            }
            Some(GasDirective::Data(data)) => self.data(data, text),
            Some(GasDirective::Nothing) => {}
            None => {
                if !matches!(self.section, Section::Ignored) && !name.starts_with(b".cfi_") {
                    self.named(Naming::Directive, name);
                }
            }
        }
    }
}

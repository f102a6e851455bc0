//! Instructions: the assembler's own spellings over the statements of the source language.
use crate::source::{AddressPart, Assembly, CodeItem, Reference};
use crate::text::{expression_of, first_operand, place_of, word_of};
use arrayvec::ArrayVec;
use fit_code::{Heap, Naming};
use sbx_text::{TextFault, tokens};
use v8_formats::{Instr, encode};
use v8_syntax::{Symbols, SyntaxFault, beside, bytes_between, is_same, parse_instr};

/// A statement stands at address 0, and no name has a value there.
struct Nameless;

impl Symbols for Nameless {
    ghost use Rattle.std.specs.Prelude.{None};

    ghost values = { λ _ _. None };

    ghost place = { λ _. 0 };

    fn value(&self, _name: &[u8]) -> Option<u32> {
        None
    }

    fn here(&self) -> u32 {
        0
    }
}

/// Puts a part of an address into the word of an instruction whose number is 0: the high 22 bits of SETHI, or the low
/// 10 bits of another one.
pub fn with_part(instr: u32, part: AddressPart, word: u32) -> u32 {
    let field = match part {
        AddressPart::High => word >> 10,
        AddressPart::Low => word & 0x3ff,
        AddressPart::Target => 0,
    };
    instr | field
}

/// Operands with a part of an address among them.
#[derive(Clone, Copy)]
struct PartOperands<'t> {
    before: &'t [u8],
    /// What the address is of.
    inner: &'t [u8],
    behind: &'t [u8],
    part: AddressPart,
}

/// The first part of an address among operands.
fn part_in(text: &[u8]) -> Option<PartOperands<'_>> {
    for at in 0..text.len() {
        let rest = bytes_between(text, at, text.len());
        let part = if rest.starts_with(b"%hi(") {
            AddressPart::High
        } else if rest.starts_with(b"%lo(") {
            AddressPart::Low
        } else {
            continue;
        };
        let inside = bytes_between(rest, 4, rest.len());
        let length = place_of(b')', inside);
        if length == inside.len() {
            break;
        }
        return Some(PartOperands {
            before: bytes_between(text, 0, at),
            inner: bytes_between(inside, 0, length),
            behind: bytes_between(inside, length.saturating_add(1), inside.len()),
            part,
        });
    }
    None
}

/// Whether a register of the floating-point unit is named among operands; and whether a number there has zeros in
/// front, which would make it octal.
fn float_and_octal(text: &[u8]) -> (bool, bool) {
    let mut before = b' ';
    let mut float = false;
    let mut zero = false;
    let mut names_float = false;
    let mut has_octal = false;
    for byte in text {
        let byte = *byte;
        let is_digit = byte.is_ascii_digit();
        names_float |= float & is_digit;
        has_octal |= zero & is_digit;
        float = (before == b'%') & (byte == b'f');
        let is_first = !before.is_ascii_alphanumeric() & (before != b'.') & (before != b'_');
        zero = is_first & (byte == b'0');
        before = byte;
    }
    (names_float, has_octal)
}

/// Mnemonics that begin as those of branches or of floating point do, and are others.
static OTHERS: [(&str, ()); 5] = [
    ("btst", ()),
    ("bset", ()),
    ("bclr", ()),
    ("btog", ()),
    ("flush", ()),
];

/// The instructions of a statement of the source language in pieces, which has no name in it. Where memory is refused,
/// which is noted, it has no shape.
fn parsed(memory: &mut Heap, pieces: &[&[u8]]) -> Result<ArrayVec<Instr, 2>, SyntaxFault> {
    let Ok(line) = pieces.concat(memory.alloc) else {
        memory.is_refused = true;
        return Err(SyntaxFault::Shape);
    };
    match tokens(memory.alloc, line.as_slice()) {
        Ok(tokens) => parse_instr(line.as_slice(), tokens.as_slice(), &Nameless),
        Err(fault) => {
            memory.is_refused |= matches!(fault, TextFault::Memory(_));
            Err(SyntaxFault::Shape)
        }
    }
}

impl Assembly {
    /// Adds a statement of the source language in pieces, which has no name in it, to the function that is read. Of a
    /// reference its number is a part, and some bits are put into the last one of its instructions.
    fn statement(
        &mut self,
        word: &[u8],
        pieces: &[&[u8]],
        reference: Option<Reference>,
        bits: u32,
    ) {
        let found = match parsed(&mut self.memory, pieces) {
            Ok(found) => found,
            Err(SyntaxFault::UnknownMnemonic) => return self.named(Naming::Instruction, word),
            Err(_) => return self.named(Naming::Operands, word),
        };
        let mut left = found.len();
        self.count_items(left);
        if let Some(at) = self.at
            && let Some(code) = self.codes.last_mut()
        {
            self.at = Some(at.saturating_add(left));
            for instr in found.as_slice() {
                left = left.saturating_sub(1);
                let item = CodeItem {
                    word: encode(instr) | if left == 0 { bits } else { 0 },
                    line: self.line,
                    reference,
                };
                self.memory.push(&mut code.items, item);
            }
        } else {
            self.refuse(
                "an instruction outside of a function: write .type NAME,#function before its label",
            );
        }
    }

    /// A statement with a part of an address among its operands: of a target it is a name alone.
    fn referring(&mut self, word: &[u8], place: PartOperands<'_>) {
        let PartOperands {
            before,
            inner,
            behind,
            part,
        } = place;
        let (name, Some(offset)) = expression_of(inner.trim_ascii()) else {
            return self.named(Naming::Operands, word);
        };
        if matches!(part, AddressPart::Target) & (name.is_empty() | (offset != 0)) {
            return self.named(Naming::Operands, word);
        }
        let mut reference = None;
        let mut bits = 0;
        if name.is_empty() {
            bits = with_part(0, part, word_of(offset));
        } else {
            reference = Some(Reference {
                part,
                symbol: self.symbol(name),
                offset,
            });
        }
        self.statement(word, &[word, b" ", before, b"0", behind], reference, bits)
    }

    /// An instruction, and what stands behind its mnemonic.
    pub(crate) fn instruction(&mut self, word: &[u8], text: &[u8]) {
        let is_plain = beside(word, &OTHERS).is_some();
        let (names_float, has_octal) = float_and_octal(text);
        if (word.starts_with(b"f") & !is_plain) | names_float {
            return self.named(Naming::Floating, word);
        }
        if has_octal {
            return self.named(Naming::Operands, word);
        }
        let is_call = is_same(word, b"call");
        if is_call & text.starts_with(b"%") {
            let (pointer, _) = first_operand(text);
            return self.statement(word, &[b"jmpl ", pointer, b",%o7"], None, 0);
        }
        if is_call | (word.starts_with(b"b") & !is_plain) {
            let (inner, _) = first_operand(text);
            let place = PartOperands {
                before: &[],
                inner,
                behind: &[],
                part: AddressPart::Target,
            };
            return self.referring(word, place);
        }
        match part_in(text) {
            Some(place) => self.referring(word, place),
            None => self.statement(word, &[word, b" ", text], None, 0),
        }
    }
}

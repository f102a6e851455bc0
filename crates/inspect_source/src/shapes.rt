//! How far the operands of a statement fit a form, and what is wanted where they don't.
use crate::reasons::StatementReason;
use sbx_text::Token;
use v8_forms::{Field, Part, Range, Row, forms, suffixes};
use v8_syntax::{NameKind, StatementToken, is_same, sign_byte, statement_token};

/// What doesn't fit: the number of the token, which may be that behind the last, and what is wanted in its place.
#[derive(Clone, Copy)]
pub(crate) struct Miss {
    pub at: usize,
    pub wanted: StatementReason,
}

/// The token behind those that fit.
type Reached = Result<usize, Miss>;

/// The tokens of a line behind a statement's name.
#[derive(Clone, Copy)]
pub(crate) struct Operands<'l> {
    pub line: &'l [u8],
    pub tokens: &'l [Token],
}

/// A miss at a token.
fn missed(at: usize, wanted: StatementReason) -> Reached {
    Err(Miss { at, wanted })
}

impl<'l> Operands<'l> {
    /// What a token is.
    pub(crate) fn word(self, at: usize) -> Option<StatementToken> {
        let token = self.tokens.get(at)?;
        Some(statement_token(self.line, token))
    }

    /// Whether a token is that sign.
    pub(crate) fn is_sign(self, at: usize, sign: u8) -> bool {
        match self.word(at) {
            Some(StatementToken::Sign(found)) => found == sign,
            _ => false,
        }
    }

    fn is_number(self, at: usize) -> bool {
        matches!(self.word(at), Some(StatementToken::Number(_)))
    }

    /// A sign.
    fn sign(self, at: usize, sign: u8, wanted: StatementReason) -> Reached {
        if self.is_sign(at, sign) {
            Ok(at.saturating_add(1))
        } else {
            missed(at, wanted)
        }
    }

    fn register(self, at: usize) -> Reached {
        match self.word(at) {
            Some(StatementToken::Register(_)) => Ok(at.saturating_add(1)),
            _ => missed(at, StatementReason::WantsRegister),
        }
    }

    fn state(self, at: usize) -> Reached {
        match self.word(at) {
            Some(StatementToken::Special(_)) => Ok(at.saturating_add(1)),
            _ => missed(at, StatementReason::WantsState),
        }
    }

    /// A name, with or without a number that is added or taken away.
    fn symbol(self, at: usize) -> usize {
        let sign = at.saturating_add(1);
        let number = at.saturating_add(2);
        if (self.is_sign(sign, b'+') || self.is_sign(sign, b'-')) && self.is_number(number) {
            at.saturating_add(3)
        } else {
            sign
        }
    }

    /// A number, `-` and a number, or a symbol.
    fn expression(self, at: usize, wanted: StatementReason) -> Reached {
        let next = at.saturating_add(1);
        match self.word(at) {
            Some(StatementToken::Number(_)) => Ok(next),
            Some(StatementToken::Name(..)) => Ok(self.symbol(at)),
            Some(StatementToken::Sign(b'-')) if self.is_number(next) => Ok(next.saturating_add(1)),
            Some(StatementToken::Sign(b'-')) => missed(next, StatementReason::WantsNumber),
            _ => missed(at, wanted),
        }
    }

    /// A register, or an expression.
    fn second(self, at: usize) -> Reached {
        match self.register(at) {
            Ok(next) => Ok(next),
            Err(_) => self.expression(at, StatementReason::WantsSecond),
        }
    }

    /// What may be added to a register.
    fn added(self, at: usize) -> Reached {
        let next = at.saturating_add(1);
        if self.is_sign(at, b'+') {
            return self.second(next);
        }
        if !self.is_sign(at, b'-') {
            return Ok(at);
        }
        if self.is_number(next) {
            Ok(next.saturating_add(1))
        } else {
            missed(next, StatementReason::WantsNumber)
        }
    }

    /// A register that may be added.
    fn added_register(self, at: usize) -> Reached {
        if self.is_sign(at, b'+') {
            self.register(at.saturating_add(1))
        } else {
            Ok(at)
        }
    }

    fn address(self, at: usize) -> Reached {
        match self.register(at) {
            Ok(next) => self.added(next),
            Err(_) => self.added_register(self.expression(at, StatementReason::WantsSecond)?),
        }
    }

    fn memory(self, at: usize) -> Reached {
        let inner = self.sign(at, b'[', StatementReason::WantsOpening)?;
        let behind = self.address(inner)?;
        self.sign(behind, b']', StatementReason::WantsClosing)
    }

    fn elsewhere(self, at: usize) -> Reached {
        let inner = self.sign(at, b'[', StatementReason::WantsOpening)?;
        let behind = self.added_register(self.register(inner)?)?;
        let space = self.sign(behind, b']', StatementReason::WantsClosing)?;
        self.expression(space, StatementReason::WantsNumber)
    }

    /// Whether `,a` stands there, which annuls.
    fn annuls(self, at: usize) -> bool {
        let name = self.word(at.saturating_add(1));
        self.is_sign(at, b',') && matches!(name, Some(StatementToken::Name(NameKind::Annul, _, _)))
    }

    fn branch(self, at: usize) -> Reached {
        if self.annuls(at) {
            self.expression(at.saturating_add(2), StatementReason::WantsNumber)
        } else {
            self.expression(at, StatementReason::WantsNumber)
        }
    }

    fn part(self, part: &Part, at: usize) -> Reached {
        match part {
            Part::Register(_) => self.register(at),
            Part::State => self.state(at),
            Part::Second(_) => self.second(at),
            Part::Address(_) => self.address(at),
            Part::Memory => self.memory(at),
            Part::Elsewhere => self.elsewhere(at),
            Part::Number(_) | Part::Call => self.expression(at, StatementReason::WantsNumber),
            Part::Branch => self.branch(at),
        }
    }

    /// The operands of a form, with commas between them.
    fn parts(self, parts: &[Part]) -> Reached {
        let mut at = 0;
        for (place, part) in parts.iter().enumerate() {
            if place > 0 {
                at = self.sign(at, b',', StatementReason::WantsComma)?;
            }
            at = self.part(part, at)?;
        }
        Ok(at)
    }

    /// All of the operands of a form, and nothing more.
    pub(crate) fn fits(self, parts: &[Part]) -> Result<(), Miss> {
        let at = self.parts(parts)?;
        if at >= self.tokens.len() {
            Ok(())
        } else {
            Err(Miss {
                at,
                wanted: StatementReason::WantsEnd,
            })
        }
    }
}

/// The operands of `set`.
static SET: [Part; 2] = [Part::Number(Range::Whole), Part::Register(Field::Rd)];

fn is_suffix(name: &[u8]) -> bool {
    for suffix in suffixes() {
        if is_same(suffix.as_bytes(), name) {
            return true;
        }
    }
    false
}

/// Whether a form has that name.
fn is_named(row: &Row, name: &[u8]) -> bool {
    if !row.conditional {
        return is_same(row.name.as_bytes(), name);
    }
    match name.split_first() {
        Some((letter, suffix)) => sign_byte(row.name.as_bytes()) == *letter && is_suffix(suffix),
        None => false,
    }
}

/// The farther one of two misses; the first where they are equally far.
fn farther(first: Option<Miss>, second: Miss) -> Option<Miss> {
    match first {
        Some(miss) if miss.at >= second.at => Some(miss),
        _ => Some(second),
    }
}

/// The operands of the first form of that name that they fit, or else the farthest miss; none where no form has that
/// name.
pub(crate) fn form_of(
    name: &[u8],
    operands: Operands<'_>,
) -> Option<Result<&'static [Part], Miss>> {
    if is_same(name, b"set") {
        return Some(match operands.fits(&SET) {
            Ok(()) => Ok(&SET),
            Err(miss) => Err(miss),
        });
    }
    let mut farthest = None;
    for row in forms() {
        if is_named(row, name) {
            match operands.fits(row.parts) {
                Ok(()) => return Some(Ok(row.parts)),
                Err(miss) => farthest = farther(farthest, miss),
            }
        }
    }
    match farthest {
        Some(miss) => Some(Err(miss)),
        None => None,
    }
}

/// The range of the number among some operands.
pub(crate) fn range_of(parts: &[Part]) -> Range {
    for part in parts {
        match part {
            Part::Second(range) | Part::Address(range) | Part::Number(range) => return *range,
            Part::Elsewhere => return Range::Space,
            _ => {}
        }
    }
    Range::Signed
}

/// Whether some operands are the target of a branch.
pub(crate) fn is_branch(parts: &[Part]) -> bool {
    matches!(parts, [Part::Branch])
}

impl Operands<'_> {
    /// Where the number or the symbol of some operands that fit stands, of which there is at most one.
    pub(crate) fn expression_place(self) -> usize {
        let first = if self.annuls(0) { 2 } else { 0 };
        for at in first..self.tokens.len() {
            match self.word(at) {
                Some(StatementToken::Number(_)) if self.is_sign(at.saturating_sub(1), b'-') => {
                    return at.saturating_sub(1);
                }
                Some(StatementToken::Number(_) | StatementToken::Name(..)) => return at,
                _ => {}
            }
        }
        0
    }
}

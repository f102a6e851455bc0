//! Where the operands of a directive are at fault.
use crate::lists::{List, Operand};
use crate::reasons::{Mark, OperandReason, ShapeReason, StatementReason};
use sbx_directives::{Keyword, Width};
use sbx_text::Token;
use v8_syntax::{StatementToken, Symbols, bytes_between, statement_token};

/// The ends of 32 bits, signed.
const LEAST: i64 = -0x8000_0000;

const GREATEST: i64 = 0x7fff_ffff;

/// The greatest number of turns.
const TURNS: i64 = 0xff_ffff_ffff;

/// What is wrong at a place, if something is.
type Wrong = Option<Mark>;

fn wrong_at(at: usize, reason: OperandReason) -> Wrong {
    Some(Mark {
        reason: ShapeReason::Operand(reason),
        at,
    })
}

/// What is wrong where an operand isn't as it should be.
fn unless(holds: bool, operand: Operand<'_>, reason: OperandReason) -> Wrong {
    if holds {
        None
    } else {
        wrong_at(operand.place, reason)
    }
}

impl List<'_> {
    /// Another count of operands: told at the first that is too many, or behind the last.
    fn counted(self, wanted: usize, reason: OperandReason) -> Wrong {
        let count = self.count();
        if count == wanted {
            None
        } else if count > wanted {
            wrong_at(self.operand(wanted).place, reason)
        } else {
            wrong_at(self.end(), reason)
        }
    }

    /// One number from `low` to `high`.
    fn one_number(self, low: i64, high: i64, reason: OperandReason) -> Wrong {
        let operand = self.operand(0);
        self.counted(1, reason)
            .or(unless(operand.lies_in(low, high), operand, reason))
    }

    /// LO, HI and AL from an operand on.
    fn range(self, from: usize) -> Wrong {
        let low = self.operand(from);
        let high = self.operand(from.saturating_add(1));
        let alignment = self.operand(from.saturating_add(2));
        unless(low.lies_in(LEAST, GREATEST), low, OperandReason::RangeEnd)
            .or(unless(high.lies_in(LEAST, GREATEST), high, OperandReason::RangeEnd))
            .or(unless(alignment.lies_in(0, 3), alignment, OperandReason::Alignment))
            .or(unless(low.is_at_most(high), low, OperandReason::LowAboveHigh))
    }

    fn function(self) -> Wrong {
        let (name, kind) = (self.operand(0), self.operand(1));
        let (frame, room, budget) = (self.operand(2), self.operand(3), self.operand(4));
        let is_kind = kind.is_one_of(b"leaf", b"framed");
        self.counted(5, OperandReason::FunctionShape)
            .or(unless(name.name().is_some(), name, OperandReason::FunctionName))
            .or(unless(is_kind, kind, OperandReason::FunctionKind))
            .or(unless(frame.lies_in(0, 4096), frame, OperandReason::Frame))
            .or(unless(room.lies_in(0, 65536), room, OperandReason::StackRoom))
            .or(unless(budget.lies_in(0, TURNS), budget, OperandReason::Budget))
    }

    fn cell(self) -> Wrong {
        let place = self.operand(0);
        self.counted(4, OperandReason::CellShape)
            .or(unless(place.is_location(), place, OperandReason::Location))
            .or(self.range(1))
    }

    fn term(self) -> Wrong {
        let (place, number) = (self.operand(0), self.operand(1));
        let is_some = number.lies_in(LEAST, -1) || number.lies_in(1, GREATEST);
        self.counted(2, OperandReason::TermShape)
            .or(unless(place.is_location(), place, OperandReason::Location))
            .or(unless(is_some, number, OperandReason::Coefficient))
    }

    /// The first operand that is no service; behind the last where there is none.
    fn services(self) -> Wrong {
        for number in 0..self.count() {
            let operand = self.operand(number);
            if !operand.is_one_of(b"exit", b"get") && !operand.is_one_of(b"put", b"put") {
                return wrong_at(operand.place, OperandReason::Services);
            }
        }
        wrong_at(self.end(), OperandReason::Services)
    }

    /// The first operand that is no expression; behind the last where there is none.
    fn values(self) -> Wrong {
        for number in 0..self.count() {
            let operand = self.operand(number);
            if !operand.is_expression() {
                return wrong_at(operand.place, OperandReason::Value);
            }
        }
        wrong_at(self.end(), OperandReason::Value)
    }

    fn align(self) -> Wrong {
        let number = self.operand(0);
        let is_unit = number.lies_in(2, 2) || number.lies_in(4, 4) || number.lies_in(8, 8);
        self.counted(1, OperandReason::Align)
            .or(unless(is_unit, number, OperandReason::Align))
    }

    fn right(self) -> Wrong {
        let right = self.operand(0);
        self.counted(1, OperandReason::Right).or(unless(
            right.is_one_of(b"ro", b"rw"),
            right,
            OperandReason::Right,
        ))
    }

    fn block(self) -> Wrong {
        let name = self.operand(0);
        self.counted(1, OperandReason::BlockName).or(unless(
            name.name().is_some(),
            name,
            OperandReason::BlockName,
        ))
    }

    /// What is wrong with the operands of a directive.
    fn of(self, keyword: Keyword) -> Wrong {
        match keyword {
            Keyword::Text | Keyword::Data => self.counted(0, OperandReason::NoOperands),
            Keyword::Region => self.right(),
            Keyword::Services => self.services(),
            Keyword::Stack => self.one_number(1, 16, OperandReason::StackPages),
            Keyword::Function => self.function(),
            Keyword::Param | Keyword::Result => self
                .counted(3, OperandReason::RangeShape)
                .or(self.range(0)),
            Keyword::Depth => self.one_number(0, 256, OperandReason::Depth),
            Keyword::Block => self.block(),
            Keyword::Cell => self.cell(),
            Keyword::Fuel => self.one_number(-TURNS, TURNS, OperandReason::Fuel),
            Keyword::Term => self.term(),
            Keyword::Word | Keyword::Half | Keyword::Byte => self.values(),
            Keyword::Skip => self.one_number(0, i64::MAX, OperandReason::Skip),
            Keyword::Align => self.align(),
        }
    }
}

/// The sentence of a directive whose operands have another fault than those that are looked for.
fn shape_of(keyword: Keyword) -> OperandReason {
    match keyword {
        Keyword::Text | Keyword::Data => OperandReason::NoOperands,
        Keyword::Region => OperandReason::Right,
        Keyword::Services => OperandReason::Services,
        Keyword::Stack => OperandReason::StackPages,
        Keyword::Function => OperandReason::FunctionShape,
        Keyword::Param | Keyword::Result => OperandReason::RangeShape,
        Keyword::Depth => OperandReason::Depth,
        Keyword::Block => OperandReason::BlockName,
        Keyword::Cell => OperandReason::CellShape,
        Keyword::Fuel => OperandReason::Fuel,
        Keyword::Term => OperandReason::TermShape,
        Keyword::Word | Keyword::Half | Keyword::Byte => OperandReason::Value,
        Keyword::Skip => OperandReason::Skip,
        Keyword::Align => OperandReason::Align,
    }
}

/// Why the operands behind a directive's name are none that it takes, and where. `tokens` are those behind the name,
/// which is a token of the line too.
pub(crate) fn operand_mark(line: &[u8], keyword: Keyword, name: &Token, tokens: &[Token]) -> Mark {
    let list = List { line, tokens };
    let found = list.of(keyword).unwrap_or(Mark {
        reason: ShapeReason::Operand(shape_of(keyword)),
        at: name.start,
    });
    if tokens.is_empty() {
        Mark {
            reason: found.reason,
            at: name.stop,
        }
    } else {
        found
    }
}

/// What a value is, if its symbol is known.
fn value_of<S: Symbols>(operand: Operand<'_>, symbols: &S) -> Option<i128> {
    if let Some(number) = operand.number() {
        return Some(number);
    }
    let (first, _) = operand.tokens.split_first()?;
    let word = symbols.value(bytes_between(operand.line, first.start, first.stop))?;
    let sign = operand
        .tokens
        .get(1)
        .map(|token| statement_token(operand.line, token));
    let number = operand
        .tokens
        .get(2)
        .map(|token| statement_token(operand.line, token));
    Some(match (sign, number) {
        (Some(StatementToken::Sign(b'-')), Some(StatementToken::Number(by))) => i128::from(word)
            - i128::from(by),
        (_, Some(StatementToken::Number(by))) => i128::from(word) + i128::from(by),
        _ => i128::from(word),
    })
}

/// The least and the greatest value of a width, and why another one doesn't fit.
fn bounds_of(width: Width) -> (i64, i64, OperandReason) {
    match width {
        Width::Byte => (-0x80, 0xff, OperandReason::ByteTooWide),
        Width::Half => (-0x8000, 0xffff, OperandReason::HalfTooWide),
        Width::Word => (-0x8000_0000, 0xffff_ffff, OperandReason::WordTooWide),
    }
}

/// Which value of a data directive has an unknown symbol, where one has. `tokens` are those behind the directive's
/// name.
pub(crate) fn symbol_mark<S: Symbols>(line: &[u8], tokens: &[Token], symbols: &S) -> Mark {
    let list = List { line, tokens };
    let mut mark = Mark {
        reason: ShapeReason::Statement(StatementReason::UnknownSymbol),
        at: list.end(),
    };
    for number in 0..list.count() {
        let operand = list.operand(number);
        if value_of(operand, symbols).is_none() {
            mark.at = operand.place;
            if operand.is_one_of(b".", b".") {
                mark.reason = ShapeReason::Statement(StatementReason::BareDot);
            }
            return mark;
        }
    }
    mark
}

/// Which value of a data directive doesn't fit its width, where one doesn't. `tokens` are those behind the directive's
/// name.
pub(crate) fn value_mark<S: Symbols>(
    line: &[u8],
    width: Width,
    tokens: &[Token],
    symbols: &S,
) -> Mark {
    let list = List { line, tokens };
    let (low, high, reason) = bounds_of(width);
    let mut at = list.end();
    for number in 0..list.count() {
        let operand = list.operand(number);
        match value_of(operand, symbols) {
            Some(value) if i128::from(low) <= value && value <= i128::from(high) => {}
            _ => {
                at = operand.place;
                break;
            }
        }
    }
    Mark {
        reason: ShapeReason::Operand(reason),
        at,
    }
}

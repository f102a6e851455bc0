//! Where a statement is at fault.
ghost use Rattle.std.specs.Prelude.{◌≤ℤ◌, negsuc, pos};

use crate::reasons::{Mark, ShapeReason, StatementReason};
use crate::shapes::{Operands, form_of, is_branch, range_of};
use sbx_text::{Kind, Token};
use v8_forms::{Part, Range};
use v8_syntax::{NameKind, StatementToken, Symbols, SyntaxFault, bytes_between, sign_byte};

/// A mark at a token, or behind the last one.
fn mark_at(tokens: &[Token], at: usize, reason: ShapeReason) -> Mark {
    let place = match tokens.get(at) {
        Some(token) => token.start,
        None => match tokens.last() {
            Some(token) => token.stop,
            None => 0,
        },
    };
    Mark { reason, at: place }
}

/// Why a name is no mnemonic.
fn name_reason(line: &[u8], first: &Token) -> StatementReason {
    match first.kind {
        Kind::Name if sign_byte(bytes_between(line, first.start, first.stop)) == b'.' => {
            StatementReason::UnknownDirective
        }
        Kind::Name => StatementReason::UnknownMnemonic,
        _ => StatementReason::NoName,
    }
}

/// Which range a number lies out of.
fn range_reason(range: Range) -> StatementReason {
    match range {
        Range::Signed => StatementReason::Signed,
        Range::Count => StatementReason::Count,
        Range::Trap => StatementReason::Trap,
        Range::High => StatementReason::High,
        Range::Space => StatementReason::Space,
        Range::Whole => StatementReason::Whole,
    }
}

/// Why a symbol is unknown.
fn symbol_reason(word: Option<StatementToken>) -> StatementReason {
    match word {
        Some(StatementToken::Name(NameKind::Place, _, _)) => StatementReason::BareDot,
        _ => StatementReason::UnknownSymbol,
    }
}

/// What is added to what an expression begins with: the number behind a sign at a token, if one is there.
fn number_behind(operands: Operands<'_>, sign: usize) -> i128
    ensures low { negsuc 18446744073709551615 ≤ℤ result }
    ensures high { result ≤ℤ pos 18446744073709551615 }
{
    match operands.word(sign.saturating_add(1)) {
        Some(StatementToken::Number(number)) if operands.is_sign(sign, b'-') => -i128::from(number),
        Some(StatementToken::Number(number)) => i128::from(number),
        _ => 0,
    }
}

/// How many bytes from the statement an expression's target lies, if it lies among the addresses.
fn distance<S: Symbols>(operands: Operands<'_>, at: usize, symbols: &S) -> Option<i128> {
    let next = at.saturating_add(1);
    let here = i128::from(symbols.here());
    let target = match operands.word(at) {
        Some(StatementToken::Name(NameKind::Place, _, _)) => here + number_behind(operands, next),
        Some(StatementToken::Name(_, start, stop)) => {
            let word = symbols.value(bytes_between(operands.line, start, stop))?;
            i128::from(word) + number_behind(operands, next)
        }
        Some(StatementToken::Number(number)) => i128::from(number),
        _ => number_behind(operands, at),
    };
    if target < 0 || target > 0xffff_ffff {
        None
    } else {
        Some(target - here)
    }
}

/// Why a target can't be reached.
fn target_reason<S: Symbols>(
    operands: Operands<'_>,
    at: usize,
    parts: &[Part],
    symbols: &S,
) -> StatementReason {
    match distance(operands, at, symbols) {
        Some(bytes) if bytes % 4 != 0 => StatementReason::TargetUneven,
        Some(_) if is_branch(parts) => StatementReason::TargetFar,
        _ => StatementReason::TargetOutside,
    }
}

/// Why operands that fit a form mean nothing.
fn operand_reason<S: Symbols>(
    operands: Operands<'_>,
    at: usize,
    parts: &[Part],
    fault: SyntaxFault,
    symbols: &S,
) -> StatementReason {
    match fault {
        SyntaxFault::UnknownSymbol => symbol_reason(operands.word(at)),
        SyntaxFault::Target => target_reason(operands, at, parts, symbols),
        _ => range_reason(range_of(parts)),
    }
}

/// Why a statement of that name means nothing, and where.
fn named_mark<S: Symbols>(
    line: &[u8],
    first: &Token,
    tokens: &[Token],
    fault: SyntaxFault,
    symbols: &S,
) -> Mark {
    let operands = Operands { line, tokens };
    let name = bytes_between(line, first.start, first.stop);
    match form_of(name, operands) {
        None => Mark {
            reason: ShapeReason::Statement(name_reason(line, first)),
            at: first.start,
        },
        Some(Err(miss)) if tokens.is_empty() => Mark {
            reason: ShapeReason::Statement(miss.wanted),
            at: first.stop,
        },
        Some(Err(miss)) => mark_at(tokens, miss.at, ShapeReason::Statement(miss.wanted)),
        Some(Ok(parts)) => {
            let at = operands.expression_place();
            let reason = operand_reason(operands, at, parts, fault, symbols);
            mark_at(tokens, at, ShapeReason::Statement(reason))
        }
    }
}

/// Why a statement means nothing, for a fault, and where. `symbols` has what the labels of the source are worth, and
/// the statement's address.
pub(crate) fn statement_mark<S: Symbols>(
    line: &[u8],
    tokens: &[Token],
    fault: SyntaxFault,
    symbols: &S,
) -> Mark {
    match tokens.split_first() {
        Some((first, rest)) => match first.kind {
            Kind::Name => named_mark(line, first, rest, fault, symbols),
            _ => Mark {
                reason: ShapeReason::Statement(StatementReason::NoName),
                at: first.start,
            },
        },
        None => Mark {
            reason: ShapeReason::Statement(StatementReason::NoName),
            at: 0,
        },
    }
}

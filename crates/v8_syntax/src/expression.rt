// Expressions, and the values of these in their ranges.
ghost use Rattle.std.specs.Prelude.{◌≡◌, ℕ, ◌+◌, ◌-◌, ◌*◌, ◌/◌, ◌%◌, ◌^◌, ◌<◌, ◌≤◌, pos, negsuc, ℤ, ◌≤ℤ◌, int_le, List};
ghost use Rattle.std.specs.Prelude.{MatchOption, Some, None};
ghost use Rattle.v8_syntax.specs.Statements.{statement_tokens, ◌>>=◌ as ◌then◌, read_behind, after_sign, based};
ghost use Rattle.v8_syntax.specs.Statements.{distance};
ghost use Rattle.v8_syntax.specs.Statements.{expression};
ghost use Rattle.v8_syntax.specs.Statements.{in_range, less, moved, named_expression, number_first, offset_of, plain};
ghost use Rattle.v8_syntax.specs.Statements.{reached, register_first, special_first, word_in, of_bits};

use crate::fault::SyntaxFault;
use crate::symbols::Symbols;
use crate::word::{
    NameKind, StatementToken, after_first, bytes_between, bytes_of, front, register_named,
    sign_byte,
};
use sbx_text::{Kind, Token};
use v8_forms::{Range, Special, greatest, least};
use v8_word::Reg;

/// What an expression begins with: nothing, a symbol's word, or the place of the instruction with the word of the
/// symbol `.`.
#[derive(Clone, Copy)]
pub enum Base {
    Number,
    Symbol(Option<u32>),
    Here(Option<u32>),
}

/// A base plus a number, or minus it.
#[derive(Clone, Copy)]
pub struct Expression {
    pub base: Base,
    pub negative: bool,
    pub number: u64,
}

/// What is read, and the tokens after it.
pub type Read<'t, T> = Option<(T, &'t [Token])>;

/// What follows a sign.
#[tactic(auto, unfolding(crate::specs::Statements::statement_token))]
pub fn after_sign<'t>(sign: u8, line: &[u8], tokens: &'t [Token]) -> Option<&'t [Token]>
    ensures { MatchOption result (after_sign sign (statement_tokens line.now tokens.now) ≡ None)
        (λ rest. after_sign sign (statement_tokens line.now tokens.now) ≡ Some (statement_tokens line.now rest.now)) }
{
    let (first, rest) = tokens.split_first()?;
    match first.kind {
        Kind::Sign if sign_byte(bytes_of(line, first)) == sign => Some(rest),
        _ => None,
    }
}

/// A number, and what follows it.
#[tactic(auto, unfolding(crate::specs::Statements::statement_token))]
pub fn number_first<'t>(line: &[u8], tokens: &'t [Token]) -> Read<'t, u64>
    ensures { MatchOption result (number_first (statement_tokens line.now tokens.now) ≡ None)
        (λ x. number_first (statement_tokens line.now tokens.now) ≡ Some (x.0, statement_tokens line.now x.1.now)) }
{
    let (first, rest) = tokens.split_first()?;
    match first.kind {
        Kind::Number(number) => Some((number, rest)),
        _ => None,
    }
}

/// A register, and what follows it.
#[tactic(auto, unfolding(crate::specs::Statements::statement_token), using(crate::proofs::Tokens::no_register))]
pub fn register_first<'t>(line: &[u8], tokens: &'t [Token]) -> Read<'t, Reg>
    ensures { MatchOption result (register_first (statement_tokens line.now tokens.now) ≡ None)
        (λ x. register_first (statement_tokens line.now tokens.now) ≡ Some (x.0, statement_tokens line.now x.1.now)) }
{
    let (first, rest) = tokens.split_first()?;
    match first.kind {
        Kind::Percent => Some((register_named(after_first(bytes_of(line, first)))?, rest)),
        _ => None,
    }
}

/// A state register, and what follows it.
pub fn special_first<'t>(line: &[u8], tokens: &'t [Token]) -> Read<'t, Special>
    ensures { MatchOption result (special_first (statement_tokens line.now tokens.now) ≡ None)
        (λ x. special_first (statement_tokens line.now tokens.now) ≡ Some (x.0, statement_tokens line.now x.1.now)) }
{
    match front(line, tokens) {
        Some((StatementToken::Special(special), rest)) => Some((special, rest)),
        _ => None,
    }
}

/// A number behind a sign, and what follows it.
pub fn number_after<'t>(sign: u8, line: &[u8], tokens: &'t [Token]) -> Read<'t, u64>
    ensures { MatchOption result (read_behind sign number_first (statement_tokens line.now tokens.now) ≡ None)
        (λ x. read_behind sign number_first (statement_tokens line.now tokens.now) ≡
        Some (x.0, statement_tokens line.now x.1.now)) }
{
    number_first(line, after_sign(sign, line, tokens)?)
}

fn moved(kind: NameKind, value: Option<u32>) -> Base
    ensures { result ≡ moved kind value }
{
    match kind {
        NameKind::Place => Base::Here(value),
        NameKind::Annul | NameKind::Plain => Base::Symbol(value),
    }
}

fn plain(base: Base, number: u64) -> Expression
    ensures { result ≡ plain base number }
{
    Expression {
        base,
        negative: false,
        number,
    }
}

/// A base minus a number.
pub fn less(base: Base, number: u64) -> Expression
    ensures { result ≡ less base number }
{
    Expression {
        base,
        negative: true,
        number,
    }
}

fn named_expression<'t>(
    kind: NameKind,
    value: Option<u32>,
    line: &[u8],
    tokens: &'t [Token],
) -> (Expression, &'t [Token])
    ensures { named_expression kind value (statement_tokens line.now tokens.now) ≡
        Some (result.0, statement_tokens line.now result.1.now) }
{
    if let Some((number, rest)) = number_after(b'+', line, tokens) {
        return (plain(moved(kind, value), number), rest);
    }
    match number_after(b'-', line, tokens) {
        Some((number, rest)) => (less(moved(kind, value), number), rest),
        None => (plain(Base::Symbol(value), 0), tokens),
    }
}

/// A number, a number behind `-`, a symbol, or a symbol and such a number.
#[tactic(auto, unfolding(crate::specs::Statements::expression))]
pub fn read_expression<'t, S: Symbols>(
    symbols: &S,
    line: &[u8],
    tokens: &'t [Token],
) -> Read<'t, Expression>
    ensures { MatchOption result (expression (S.values symbols.now) line.now (statement_tokens line.now tokens.now) ≡
        None)
        (λ x. expression (S.values symbols.now) line.now (statement_tokens line.now tokens.now) ≡
        Some (x.0, statement_tokens line.now x.1.now)) }
{
    match front(line, tokens) {
        Some((StatementToken::Number(number), rest)) => Some((plain(Base::Number, number), rest)),
        Some((StatementToken::Name(kind, start, stop), rest)) => {
            let value = symbols.value(bytes_between(line, start, stop));
            Some(named_expression(kind, value, line, rest))
        }
        Some((StatementToken::Sign(b'-'), more)) => {
            let (number, rest) = number_first(line, more)?;
            Some((less(Base::Number, number), rest))
        }
        _ => None,
    }
}

fn offset_of(expression: Expression) -> i128
    ensures value { result ≡ offset_of expression }
    ensures low { negsuc 18446744073709551615 ≤ℤ result }
    ensures high { result ≤ℤ pos 18446744073709551615 }
{
    if expression.negative {
        -i128::from(expression.number)
    } else {
        i128::from(expression.number)
    }
}

fn based(base: Base, offset: i128) -> Result<i128, SyntaxFault>
    requires low { negsuc 18446744073709551615 ≤ℤ offset }
    requires high { offset ≤ℤ pos 18446744073709551615 }
    ensures { result ≡ based base offset }
{
    match base {
        Base::Number => Ok(offset),
        Base::Symbol(Some(word)) | Base::Here(Some(word)) => Ok(i128::from(word) + offset),
        Base::Symbol(None) | Base::Here(None) => Err(SyntaxFault::UnknownSymbol),
    }
}

/// A number as bits that tell so many numbers apart: a negative one plus so many.
pub fn of_bits(room: u64, number: i128) -> u64
    requires some { 0 < room }
    requires low { negsuc (room - 1) ≤ℤ number }
    requires high { number ≤ℤ pos (room - 1) }
    ensures value { result ≡ of_bits room number }
    ensures bound { result < room }
{
    if number >= 0 {
        number as u64
    } else {
        (number + i128::from(room)) as u64
    }
}

fn in_range(low: i128, high: i128, fault: SyntaxFault, number: i128) -> Result<u32, SyntaxFault>
    requires low_in { negsuc 4294967295 ≤ℤ low }
    requires high_in { high ≤ℤ pos 4294967295 }
    ensures { result ≡ in_range low high fault number }
{
    if low <= number && number <= high {
        Ok(of_bits(0x1_0000_0000, number) as u32)
    } else {
        Err(fault)
    }
}

/// The word of an expression whose value lies in a range.
#[tactic(auto, unfolding(crate::specs::Statements::word_in))]
pub fn word_in(range: Range, expression: Expression) -> Result<u32, SyntaxFault>
    ensures { result ≡ word_in range expression }
{
    let number = based(expression.base, offset_of(expression))?;
    in_range(
        least(range),
        greatest(range),
        SyntaxFault::Immediate,
        number,
    )
}

/// How many bytes from the instruction a target lies, as a word.
fn distance(here: u32, expression: Expression) -> Result<u32, SyntaxFault>
    ensures { result ≡ distance here expression.base (offset_of expression) }
{
    match expression.base {
        Base::Here(_) => in_range(
            -0x8000_0000,
            0x7fff_ffff,
            SyntaxFault::Target,
            offset_of(expression),
        ),
        Base::Number | Base::Symbol(_) => {
            let place = based(expression.base, offset_of(expression))?;
            let target = in_range(0, 0xffff_ffff, SyntaxFault::Target, place)?;
            Ok(target.wrapping_sub(here))
        }
    }
}

fn reached(reach: u32, word: u32) -> Result<u32, SyntaxFault>
    requires some { 0 < reach }
    ensures { result ≡ reached reach word }
{
    if word % 4 == 0 && (word < reach || 0u32.wrapping_sub(reach) <= word) {
        Ok(word / 4)
    } else {
        Err(SyntaxFault::Target)
    }
}

/// The words from the instruction to a target less than `reach` bytes after it, or at most so many before.
pub fn displacement(reach: u32, here: u32, expression: Expression) -> Result<u32, SyntaxFault>
    requires some { 0 < reach }
    ensures { result ≡ (distance here expression.base (offset_of expression) then reached reach) }
{
    reached(reach, distance(here, expression)?)
}

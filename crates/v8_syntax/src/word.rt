// What each token of a statement is.
ghost use Rattle.std.specs.Prelude.{◌≡◌, ℕ, ◌+◌, ◌-◌, ◌*◌, ◌<◌, ◌≤◌, List, Option, IfSome, MatchOption, Some, None, []};
ghost use Rattle.std.specs.Prelude.{◌∷◌, slice_index, drop, map};
ghost use Rattle.std.specs.Str.{bytes_eq};
ghost use Rattle.v8_syntax.specs.Statements.{name_first, beside, bytes_between, groups, small_number, register_named};
ghost use Rattle.v8_syntax.specs.Statements.{percent_token, name_kind, statement_token, statement_tokens};

use sbx_text::{Kind, Token};
use v8_forms::Special;
use v8_word::Reg;

/// `a` annuls a branch, `.` is the place of the instruction, another name is a symbol.
#[derive(Clone, Copy)]
pub enum NameKind {
    Annul,
    Place,
    Plain,
}

/// A token by what it is. A name has its bytes' place in the line; a sign is its byte.
#[derive(Clone, Copy)]
pub enum StatementToken {
    Register(Reg),
    Special(Special),
    Name(NameKind, usize, usize),
    Number(u64),
    Sign(u8),
    Unknown,
}

/// The state registers that have a name.
static SPECIALS: [(&str, Special); 4] = [
    ("y", Special::Y),
    ("psr", Special::Psr),
    ("wim", Special::Wim),
    ("tbr", Special::Tbr),
];

/// The bytes of a line from the byte `start` up to the byte `stop`, as a token has them; none where the line has no
/// such bytes.
pub fn bytes_between(line: &[u8], start: usize, stop: usize) -> &[u8]
    ensures { result.now ≡ bytes_between line.now start stop }
{
    if start <= stop && stop <= line.len() {
        &line[start..stop]
    } else {
        &[]
    }
}

/// The bytes of a token.
pub fn bytes_of<'l>(line: &'l [u8], token: &Token) -> &'l [u8]
    ensures { result.now ≡ bytes_between line.now token.now.start token.now.stop }
{
    bytes_between(line, token.start, token.stop)
}

/// Whether two names have the same bytes.
pub fn is_same(left: &[u8], right: &[u8]) -> bool
    ensures { result ≡ bytes_eq left.now right.now }
{
    left == right
}

/// What stands beside a name in a table.
pub fn beside<T: Copy>(name: &[u8], rows: &[(&str, T)]) -> Option<T>
    ensures { result ≡ beside name.now (map (λ x. (x.0.now, x.1)) rows.now) }
{
    for (text, item) in rows {
        if is_same(name, text.as_bytes()) {
            return Some(*item);
        }
    }
    None
}

/// The first register of a group, and how many there are.
fn group(letter: u8) -> Option<(u8, u8)>
    ensures value { result ≡ beside (letter ∷ []) groups }
    ensures bound { IfSome result (λ g. g.0 + g.1 ≤ 32) }
{
    match letter {
        b'g' => Some((0, 8)),
        b'o' => Some((8, 8)),
        b'l' => Some((16, 8)),
        b'i' => Some((24, 8)),
        b'r' => Some((0, 32)),
        _ => None,
    }
}

/// A number of one digit or two, with no 0 in front.
fn small_number(digits: &[u8]) -> Option<u8>
    ensures { result ≡ small_number digits.now }
{
    match digits {
        [one] if one.is_ascii_digit() => Some(*one - b'0'),
        [ten, one] if ten.is_ascii_digit() && one.is_ascii_digit() && *ten > b'0' => {
            Some(10 * (*ten - b'0') + (*one - b'0'))
        }
        _ => None,
    }
}

/// The register of a name without its `%`: `g`, `o`, `l` or `i` and a digit 0 to 7; `sp`; `fp`; or `r0` to `r31`, with
/// no 0 in front (appendix A, "Registers"). `None` for any other name.
pub fn register_named(name: &[u8]) -> Option<Reg>
    ensures { result ≡ register_named name.now }
{
    if is_same(name, b"sp") {
        return Some(Reg::SP);
    }
    if is_same(name, b"fp") {
        return Some(Reg::FP);
    }
    let (letter, digits) = name.split_first()?;
    let (first, count) = group(*letter)?;
    let number = small_number(digits)?;
    if number < count {
        Reg::new(first + number)
    } else {
        None
    }
}

fn percent_token(name: &[u8]) -> StatementToken
    ensures { result ≡ percent_token name.now }
{
    match register_named(name) {
        Some(register) => StatementToken::Register(register),
        None => match beside(name, &SPECIALS) {
            Some(special) => StatementToken::Special(special),
            None => StatementToken::Unknown,
        },
    }
}

fn name_kind(name: &[u8]) -> NameKind
    ensures { result ≡ name_kind name.now }
{
    if is_same(name, b"a") {
        NameKind::Annul
    } else if is_same(name, b".") {
        NameKind::Place
    } else {
        NameKind::Plain
    }
}

/// The first of some bytes, which is the sign where they are a sign's; 0 where there is none.
pub fn sign_byte(bytes: &[u8]) -> u8
    ensures { result ≡ slice_index bytes.now 0 }
{
    bytes.first().copied().unwrap_or(0)
}

/// What follows the first of some items; none where there are none.
pub fn after_first<T>(items: &[T]) -> &[T]
    ensures { result.now ≡ drop 1 items.now }
{
    if items.is_empty() { items } else { &items[1..] }
}

/// What a token is.
#[tactic(auto, unfolding(crate::specs::Statements::statement_token))]
pub fn statement_token(line: &[u8], token: &Token) -> StatementToken
    ensures { result ≡ statement_token line.now token.now }
{
    let Token { kind, start, stop } = *token;
    match kind {
        Kind::Name => StatementToken::Name(
            name_kind(bytes_between(line, start, stop)),
            start,
            stop,
        ),
        Kind::Percent => percent_token(after_first(bytes_between(line, start, stop))),
        Kind::Number(number) => StatementToken::Number(number),
        Kind::Sign => StatementToken::Sign(sign_byte(bytes_between(line, start, stop))),
    }
}

/// The bytes of the name that comes first, and the tokens after it.
#[tactic(auto, unfolding(crate::specs::Statements::statement_token))]
pub fn name_first<'l, 't>(line: &'l [u8], tokens: &'t [Token]) -> Option<(&'l [u8], &'t [Token])>
    ensures { MatchOption result (name_first line.now (statement_tokens line.now tokens.now) ≡ None)
        (λ x. name_first line.now (statement_tokens line.now tokens.now) ≡
        Some (x.0.now, statement_tokens line.now x.1.now)) }
{
    let (first, rest) = tokens.split_first()?;
    match first.kind {
        Kind::Name => Some((bytes_of(line, first), rest)),
        _ => None,
    }
}

/// The first word, and the tokens after it.
pub fn front<'t>(line: &[u8], tokens: &'t [Token]) -> Option<(StatementToken, &'t [Token])>
    ensures { MatchOption result (statement_tokens line.now tokens.now ≡ [])
        (λ x. statement_tokens line.now tokens.now ≡ x.0 ∷ statement_tokens line.now x.1.now) }
{
    let (first, rest) = tokens.split_first()?;
    Some((statement_token(line, first), rest))
}

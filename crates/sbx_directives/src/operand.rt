// What stands between the commas of a directive.
ghost use Rattle.std.specs.Prelude.{◌≡◌, ◌≢◌, ℕ, ◌<◌, ◌≤◌, MatchOption, IfSome, not, List, [], ◌∷◌, length, drop};
ghost use Rattle.std.specs.List.{prefix_len};
ghost use Rattle.v8_syntax.specs.Statements.{statement_token, statement_tokens};
ghost use Rattle.sbx_directives.specs.Directives.{operand_of, is_comma, behind, operands_of};

use crate::directive::Name;
use sbx_text::Token;
use v8_syntax::{StatementToken, front, statement_token};
use v8_word::Reg;

/// An operand by its shape.
#[derive(Clone, Copy)]
pub enum Operand {
    /// `n` or `-n`
    Number(i128),
    Register(Reg),
    Name(Name),
    /// A name and a number behind it, as `slot 5`.
    Counted(Name, u64),
    /// A name `+` a number.
    Sum(Name, u64),
    /// A name `-` a number.
    Difference(Name, u64),
    Other,
}

#[tactic(auto, unfolding(crate::specs::Directives::operand_of))]
fn of_one(word: StatementToken) -> Operand
    ensures { result ≡ operand_of (word ∷ []) }
{
    match word {
        StatementToken::Number(number) => Operand::Number(i128::from(number)),
        StatementToken::Register(register) => Operand::Register(register),
        StatementToken::Name(_, start, stop) => Operand::Name(Name { start, stop }),
        _ => Operand::Other,
    }
}

#[tactic(auto, unfolding(crate::specs::Directives::operand_of))]
fn of_two(first: StatementToken, second: StatementToken) -> Operand
    ensures { result ≡ operand_of (first ∷ second ∷ []) }
{
    match (first, second) {
        (StatementToken::Sign(b'-'), StatementToken::Number(number)) => Operand::Number(-i128::from(
            number,
        )),
        (StatementToken::Name(_, start, stop), StatementToken::Number(number)) => {
            Operand::Counted(Name { start, stop }, number)
        }
        _ => Operand::Other,
    }
}

#[tactic(auto, unfolding(crate::specs::Directives::operand_of))]
fn of_three(first: StatementToken, second: StatementToken, third: StatementToken) -> Operand
    ensures { result ≡ operand_of (first ∷ second ∷ third ∷ []) }
{
    match (first, second, third) {
        (
            StatementToken::Name(_, start, stop),
            StatementToken::Sign(b'+'),
            StatementToken::Number(number),
        ) => { Operand::Sum(Name { start, stop }, number) }
        (
            StatementToken::Name(_, start, stop),
            StatementToken::Sign(b'-'),
            StatementToken::Number(number),
        ) => { Operand::Difference(Name { start, stop }, number) }
        _ => Operand::Other,
    }
}

/// The operand that some tokens are.
#[tactic(auto, unfolding(crate::specs::Directives::operand_of))]
fn operand_of(line: &[u8], tokens: &[Token]) -> Operand
    ensures { result ≡ operand_of (statement_tokens line.now tokens.now) }
{
    let Some((first, rest)) = front(line, tokens) else {
        return Operand::Other;
    };
    let Some((second, rest)) = front(line, rest) else {
        return of_one(first);
    };
    let Some((third, rest)) = front(line, rest) else {
        return of_two(first, second);
    };
    match front(line, rest) {
        Some(_) => Operand::Other,
        None => of_three(first, second, third),
    }
}

fn is_comma(word: StatementToken) -> bool
    ensures { result ≡ is_comma word }
{
    matches!(word, StatementToken::Sign(b','))
}

/// How many tokens stand before the next comma, or the end.
fn group_len(line: &[u8], tokens: &[Token]) -> usize
    ensures value { result ≡ prefix_len (λ t. not (is_comma (statement_token line.now t))) tokens.now }
    ensures bound { result ≤ length tokens.now }
{
    tokens
        .iter()
        .take_while(|token| !is_comma(statement_token(line, token)))
        .count()
}

/// The next operand behind a first token, and the comma behind it with what follows.
#[tactic(auto, using(crate::proofs::Groups::first_group))]
pub fn next_operand<'t>(line: &[u8], tokens: &'t [Token]) -> Option<(Operand, &'t [Token])>
    ensures cases { MatchOption result (behind line.now tokens.now ≡ [])
        (λ x. behind line.now tokens.now ≡ x.0 ∷ behind line.now x.1.now) }
    ensures fewer { IfSome result (λ x. length x.1.now < length tokens.now) }
{
    let Some((_, rest)) = tokens.split_first() else {
        return None;
    };
    let (group, after) = rest.split_at(group_len(line, rest));
    Some((operand_of(line, group), after))
}

/// No operand.
pub fn none(line: &[u8], tokens: &[Token]) -> Option<()>
    ensures { MatchOption result ((o : Operand) × (os : List Operand) × (behind line.now tokens.now ≡ o ∷ os))
        (λ _. behind line.now tokens.now ≡ []) }
{
    match next_operand(line, tokens) {
        Some(_) => None,
        None => Some(()),
    }
}

/// The only operand.
pub fn one(line: &[u8], tokens: &[Token]) -> Option<Operand>
    ensures { MatchOption result (length (behind line.now tokens.now) ≢ 1) (λ o. behind line.now tokens.now ≡ o ∷ []) }
{
    let Some((operand, rest)) = next_operand(line, tokens) else {
        return None;
    };
    none(line, rest)?;
    Some(operand)
}

/// What a directive's tokens have behind its name: nothing where the name is the last one, else operands between
/// commas.
pub fn operands(tokens: &[Token]) -> &[Token]
    ensures { (line : List ℕ) → behind line result.now ≡ operands_of line (drop 1 tokens.now) }
{
    if tokens.len() < 2 { &[] } else { tokens }
}

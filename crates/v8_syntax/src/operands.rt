// The operands of a statement, read by the parts of its form.
ghost use Rattle.std.specs.Prelude.{◌≡◌, ℕ, ◌+◌, ◌*◌, ◌/◌, ◌%◌, ◌^◌, ◌<◌, ◌≤◌, List, [], MatchOption, Some, None};
ghost use Rattle.std.specs.Prelude.{false, true, Ok};
ghost use Rattle.v8_forms.specs.Forms.{plus, width};
ghost use Rattle.v8_syntax.specs.Statements.{statement_tokens, added, read_behind, annul_first, behind, operands_of};
ghost use Rattle.v8_syntax.specs.Statements.{read};
ghost use Rattle.v8_syntax.specs.Statements.{target};
ghost use Rattle.v8_forms.specs.Text.{annul_bit, special_number};
ghost use Rattle.v8_forms.specs.declared.part.Part.TheVariants as parts;

use crate::address::{Filled, read_address, read_elsewhere, read_memory, read_second};
use crate::expression::{
    Read, after_sign, displacement, read_expression, register_first, special_first, word_in,
};
use crate::symbols::Symbols;
use crate::word::{NameKind, StatementToken, front};
use sbx_text::Token;
use v8_forms::{Part, annul_bit, low_bits, operand_bits, scale, special_number};

/// What follows `,a`, which annuls.
fn after_annul<'t>(line: &[u8], tokens: &'t [Token]) -> Option<&'t [Token]>
    ensures { MatchOption result (read_behind 44 annul_first (statement_tokens line.now tokens.now) ≡ None)
        (λ rest. read_behind 44 annul_first (statement_tokens line.now tokens.now) ≡
        Some (true, statement_tokens line.now rest.now)) }
{
    match front(line, after_sign(b',', line, tokens)?) {
        Some((StatementToken::Name(NameKind::Annul, _, _), rest)) => Some(rest),
        _ => None,
    }
}

#[tactic(auto, unfolding(crate::specs::Statements::target))]
fn read_target<'t, S: Symbols>(
    reach: u32,
    annul: bool,
    symbols: &S,
    line: &[u8],
    tokens: &'t [Token],
) -> Read<'t, Filled>
    requires { 2 ≤ reach }
    ensures { MatchOption result
        (target (S.values symbols.now) (S.place symbols.now) line.now reach annul
        (statement_tokens line.now tokens.now) ≡ None)
        (λ x. target (S.values symbols.now) (S.place symbols.now) line.now reach annul
        (statement_tokens line.now tokens.now) ≡
        Some (x.0, statement_tokens line.now x.1.now)) }
{
    let (place, rest) = read_expression(symbols, line, tokens)?;
    let words = displacement(reach, symbols.here(), place);
    let filled = words.map(|words| annul_bit(annul) + words % (reach / 2));
    Some((filled, rest))
}

#[tactic(auto, unfolding(crate::specs::Statements::read))]
fn read_branch<'t, S: Symbols>(symbols: &S, line: &[u8], tokens: &'t [Token]) -> Read<'t, Filled>
    ensures { MatchOption result
        (read (S.values symbols.now) (S.place symbols.now) line.now parts.Branch
        (statement_tokens line.now tokens.now) ≡ None)
        (λ x. read (S.values symbols.now) (S.place symbols.now) line.now parts.Branch
        (statement_tokens line.now tokens.now) ≡
        Some (x.0, statement_tokens line.now x.1.now)) }
{
    match after_annul(line, tokens) {
        Some(rest) => read_target(0x80_0000, true, symbols, line, rest),
        None => read_target(0x80_0000, false, symbols, line, tokens),
    }
}

#[tactic(auto, unfolding(crate::specs::Statements::read))]
fn read<'t, S: Symbols>(
    part: &Part,
    symbols: &S,
    line: &[u8],
    tokens: &'t [Token],
) -> Read<'t, Filled>
    ensures { MatchOption result
        (read (S.values symbols.now) (S.place symbols.now) line.now part.now (statement_tokens line.now tokens.now) ≡
        None)
        (λ x. read (S.values symbols.now) (S.place symbols.now) line.now part.now
        (statement_tokens line.now tokens.now) ≡
        Some (x.0, statement_tokens line.now x.1.now)) }
{
    match part {
        Part::Register(field) => match register_first(line, tokens) {
            Some((register, rest)) => Some((
                Ok(u32::from(register.number()) * scale(*field)),
                rest,
            )),
            None => None,
        },
        Part::State => {
            let (special, rest) = special_first(line, tokens)?;
            Some((Ok(special_number(special) * 0x8_0000), rest))
        }
        Part::Second(range) => match read_second(*range, symbols, line, tokens) {
            Some((operand2, rest)) => Some((operand2.map(|o| operand_bits(&o)), rest)),
            None => None,
        },
        Part::Address(range) => read_address(*range, symbols, line, tokens),
        Part::Memory => read_memory(symbols, line, tokens),
        Part::Elsewhere => read_elsewhere(symbols, line, tokens),
        Part::Number(range) => {
            let (value, rest) = read_expression(symbols, line, tokens)?;
            let filled = word_in(*range, value).map(|number| low_bits(*range, number));
            Some((filled, rest))
        }
        Part::Call => read_target(0x8000_0000, false, symbols, line, tokens),
        Part::Branch => read_branch(symbols, line, tokens),
    }
}

fn added(first: Filled, second: Filled) -> Filled
    ensures { result ≡ added first second }
{
    Ok(first?.wrapping_add(second?))
}

/// The operands behind commas, to the end of the statement.
fn behind<S: Symbols>(parts: &[Part], symbols: &S, line: &[u8], tokens: &[Token]) -> Option<Filled>
    ensures { MatchOption result
        (behind (S.values symbols.now) (S.place symbols.now) line.now parts.now (statement_tokens line.now tokens.now) ≡
        None)
        (λ x. behind (S.values symbols.now) (S.place symbols.now) line.now parts.now
        (statement_tokens line.now tokens.now) ≡
        Some (x, [])) }
{
    match parts.split_first() {
        Some((part, parts)) => {
            let more = after_sign(b',', line, tokens)?;
            let (filled, rest) = read(part, symbols, line, more)?;
            Some(added(filled, behind(parts, symbols, line, rest)?))
        }
        None => { if tokens.is_empty() { Some(Ok(0)) } else { None } }
    }
}

/// What the operands of a statement fill; `None` where they have another shape.
pub fn operands_of<S: Symbols>(
    parts: &[Part],
    symbols: &S,
    line: &[u8],
    tokens: &[Token],
) -> Option<Filled>
    ensures { MatchOption result
        (operands_of (S.values symbols.now) (S.place symbols.now) line.now parts.now
        (statement_tokens line.now tokens.now) ≡
        None) (λ x. operands_of (S.values symbols.now) (S.place symbols.now) line.now parts.now
        (statement_tokens line.now tokens.now) ≡ Some (x, [])) }
{
    match parts.split_first() {
        Some((part, parts)) => {
            let (filled, rest) = read(part, symbols, line, tokens)?;
            Some(added(filled, behind(parts, symbols, line, rest)?))
        }
        None => { if tokens.is_empty() { Some(Ok(0)) } else { None } }
    }
}

// Second operands and addresses, and the bits that they fill.
ghost use Rattle.std.specs.Prelude.{◌≡◌, ℕ, ◌+◌, ◌*◌, ◌%◌, ◌^◌, ◌<◌, ◌≤◌, List, MatchOption, Some, None};
ghost use Rattle.v8_syntax.specs.Statements.{statement_tokens, added_register, added_second, address, immediate, read};
ghost use Rattle.v8_syntax.specs.Statements.{second};
ghost use Rattle.v8_syntax.specs.Statements.{sum_of};
ghost use Rattle.v8_forms.specs.declared.part.Part.TheVariants as parts;

use crate::expression::{
    Base, Expression, Read, after_sign, less, number_after, read_expression, register_first,
    word_in,
};
use crate::fault::SyntaxFault;
use crate::symbols::Symbols;
use sbx_text::Token;
use v8_formats::Operand;
use v8_forms::{Range, elsewhere_bits, sum_bits};
use v8_word::Reg;

/// What an operand fills in the word, or why it doesn't fit.
pub type Filled = Result<u32, SyntaxFault>;

/// A second operand, or why its number doesn't fit.
pub type Fitted = Result<Operand, SyntaxFault>;

fn immediate(range: Range, expression: Expression) -> Fitted
    ensures { result ≡ immediate range expression }
{
    Ok(Operand::Immediate(word_in(range, expression)?))
}

fn sum_of(rs1: Reg, operand2: Fitted) -> Filled
    ensures { result ≡ sum_of rs1 operand2 }
{
    Ok(sum_bits(rs1, &operand2?))
}

/// A register behind `+`, else %g0.
fn added_register<'t>(line: &[u8], tokens: &'t [Token]) -> (Reg, &'t [Token])
    ensures { added_register (statement_tokens line.now tokens.now) ≡
        Some (result.0, statement_tokens line.now result.1.now) }
{
    if let Some(more) = after_sign(b'+', line, tokens)
        && let Some((register, rest)) = register_first(line, more)
    {
        (register, rest)
    } else {
        (Reg::G0, tokens)
    }
}

/// A register, or a number of the range.
#[tactic(auto, unfolding(crate::specs::Statements::second))]
pub fn read_second<'t, S: Symbols>(
    range: Range,
    symbols: &S,
    line: &[u8],
    tokens: &'t [Token],
) -> Read<'t, Fitted>
    ensures { MatchOption result (second (S.values symbols.now) line.now range (statement_tokens line.now tokens.now) ≡
        None)
        (λ x. second (S.values symbols.now) line.now range (statement_tokens line.now tokens.now) ≡
        Some (x.0, statement_tokens line.now x.1.now)) }
{
    if let Some((register, rest)) = register_first(line, tokens) {
        return Some((Ok(Operand::Register(register)), rest));
    }
    let (value, rest) = read_expression(symbols, line, tokens)?;
    Some((immediate(range, value), rest))
}

/// What is added to a register: a second operand behind `+`, a number behind `-`, else %g0.
#[tactic(auto, unfolding(crate::specs::Statements::added_second))]
fn added_second<'t, S: Symbols>(
    range: Range,
    symbols: &S,
    line: &[u8],
    tokens: &'t [Token],
) -> (Fitted, &'t [Token])
    ensures { added_second (S.values symbols.now) line.now range (statement_tokens line.now tokens.now) ≡
        Some (result.0, statement_tokens line.now result.1.now) }
{
    if let Some(more) = after_sign(b'+', line, tokens)
        && let Some((operand2, rest)) = read_second(range, symbols, line, more)
    {
        return (operand2, rest);
    }
    match number_after(b'-', line, tokens) {
        Some((number, rest)) => (immediate(range, less(Base::Number, number)), rest),
        None => (Ok(Operand::Register(Reg::G0)), tokens),
    }
}

/// A register and what is added to it; or a number, which is added to %g0 or to a register behind it.
#[tactic(auto, unfolding(crate::specs::Statements::address))]
pub fn read_address<'t, S: Symbols>(
    range: Range,
    symbols: &S,
    line: &[u8],
    tokens: &'t [Token],
) -> Read<'t, Filled>
    ensures { MatchOption result (address (S.values symbols.now) line.now range (statement_tokens line.now tokens.now) ≡
        None)
        (λ x. address (S.values symbols.now) line.now range (statement_tokens line.now tokens.now) ≡
        Some (x.0, statement_tokens line.now x.1.now)) }
{
    if let Some((rs1, more)) = register_first(line, tokens) {
        let (operand2, rest) = added_second(range, symbols, line, more);
        return Some((sum_of(rs1, operand2), rest));
    }
    let (value, more) = read_expression(symbols, line, tokens)?;
    let (rs1, rest) = added_register(line, more);
    Some((sum_of(rs1, immediate(range, value)), rest))
}

/// An address in brackets.
#[tactic(auto, unfolding(crate::specs::Statements::read))]
pub fn read_memory<'t, S: Symbols>(
    symbols: &S,
    line: &[u8],
    tokens: &'t [Token],
) -> Read<'t, Filled>
    ensures { MatchOption result
        (read (S.values symbols.now) (S.place symbols.now) line.now parts.Memory
        (statement_tokens line.now tokens.now) ≡ None)
        (λ x. read (S.values symbols.now) (S.place symbols.now) line.now parts.Memory
        (statement_tokens line.now tokens.now) ≡
        Some (x.0, statement_tokens line.now x.1.now)) }
{
    let inner = after_sign(b'[', line, tokens)?;
    let (sum, behind) = read_address(Range::Signed, symbols, line, inner)?;
    let rest = after_sign(b']', line, behind)?;
    Some((sum, rest))
}

/// Two registers in brackets, and a space.
#[tactic(auto, unfolding(crate::specs::Statements::read))]
pub fn read_elsewhere<'t, S: Symbols>(
    symbols: &S,
    line: &[u8],
    tokens: &'t [Token],
) -> Read<'t, Filled>
    ensures { MatchOption result
        (read (S.values symbols.now) (S.place symbols.now) line.now parts.Elsewhere
        (statement_tokens line.now tokens.now) ≡
        None) (λ x. read (S.values symbols.now) (S.place symbols.now) line.now parts.Elsewhere
        (statement_tokens line.now tokens.now) ≡ Some (x.0, statement_tokens line.now x.1.now)) }
{
    let inner = after_sign(b'[', line, tokens)?;
    let Some((rs1, more)) = register_first(line, inner) else {
        return None;
    };
    let (rs2, behind) = added_register(line, more);
    let after = after_sign(b']', line, behind)?;
    let (space, rest) = read_expression(symbols, line, after)?;
    let filled = word_in(Range::Space, space).map(|asi| elsewhere_bits(rs1, rs2, asi & 0xff));
    Some((filled, rest))
}

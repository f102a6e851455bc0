// Statements read as instructions.
ghost use Rattle.std.specs.Prelude.{◌≡◌, ℕ, ◌+◌, ◌*◌, ◌/◌, ◌%◌, ◌^◌, ◌<◌, List, All, Option, MatchOption, MatchResult};
ghost use Rattle.std.specs.Prelude.{[], ◌∷◌, get_or, map, Ok, Err, Some, None};
ghost use Rattle.v8_forms.specs.Forms.{Form, forms};
ghost use Rattle.v8_syntax.specs.Statements.{statement_tokens, count_of, first_of, is_symbolic, named_meaning, or, set};
ghost use Rattle.v8_syntax.specs.Statements.{set_instructions, set_operands, sethi, source_meaning, statement_length};
ghost use Rattle.v8_syntax.specs.declared.fault.SyntaxFault.TheVariants.{UnknownMnemonic};

use crate::expression::{Base, Expression, after_sign, read_expression, register_first, word_in};
use crate::fault::SyntaxFault;
use crate::letters::{form, numbers_from};
use crate::names::named;
use crate::operands::operands_of;
use crate::symbols::Symbols;
use crate::word::{is_same, name_first, sign_byte};
use arrayvec::ArrayVec;
use sbx_text::Token;
use v8_formats::{Instr, Operand, Three, Upper, decode};
use v8_forms::{Range, filled};
use v8_word::Reg;

/// One instruction, or two.
type Instructions = ArrayVec<Instr, 2>;

fn list_of_one<T: Copy + Default>(first: T) -> ArrayVec<T, 2>
    ensures { result.items ≡ first ∷ [] }
{
    let mut list = ArrayVec::new();
    list.push(first);
    list
}

/// SETHI of a word's high bits.
fn sethi(word: u32, rd: Reg) -> Instr
    ensures { result ≡ sethi word rd }
{
    let imm22 = word / 0x400;
    Instr::Sethi(Upper { rd, imm22 })
}

/// OR of a register and a number.
fn or(rs1: Reg, number: u32, rd: Reg) -> Instr
    ensures { result ≡ or rs1 number rd }
{
    let operand2 = Operand::Immediate(number);
    Instr::Or(Three { rd, rs1, operand2 })
}

fn set_instructions(symbolic: bool, word: u32, rd: Reg) -> Instructions
    ensures { result.items ≡ set_instructions symbolic word rd }
{
    if !symbolic && (word < 4096 || word >= 0xffff_f000) {
        list_of_one(or(Reg::G0, word, rd))
    } else if !symbolic && word % 0x400 == 0 {
        list_of_one(sethi(word, rd))
    } else {
        ArrayVec::from([sethi(word, rd), or(rd, word % 0x400, rd)])
    }
}

fn is_symbolic(base: Base) -> bool
    ensures { result ≡ is_symbolic base }
{
    !matches!(base, Base::Number)
}

#[tactic(auto, unfolding(crate::specs::Statements::set_operands))]
fn set_operands<S: Symbols>(symbols: &S, line: &[u8], tokens: &[Token]) -> Option<(Expression, Reg)>
    ensures { MatchOption result (set_operands (S.values symbols.now) line.now (statement_tokens line.now tokens.now) ≡
        None)
        (λ x. set_operands (S.values symbols.now) line.now (statement_tokens line.now tokens.now) ≡ Some (x, [])) }
{
    let (value, after) = read_expression(symbols, line, tokens)?;
    let more = after_sign(b',', line, after)?;
    match register_first(line, more) {
        Some((rd, rest)) if rest.is_empty() => Some((value, rd)),
        _ => None,
    }
}

#[tactic(auto, unfolding(crate::specs::Statements::set))]
fn set<S: Symbols>(symbols: &S, line: &[u8], tokens: &[Token]) -> Result<Instructions, SyntaxFault>
    ensures { MatchResult result (λ v. set (S.values symbols.now) line.now (statement_tokens line.now tokens.now) ≡
        Ok v.items)
        (λ f. set (S.values symbols.now) line.now (statement_tokens line.now tokens.now) ≡ Err f) }
{
    let Some((value, rd)) = set_operands(symbols, line, tokens) else {
        return Err(SyntaxFault::Shape);
    };
    let word = word_in(Range::Whole, value)?;
    Ok(set_instructions(is_symbolic(value.base), word, rd))
}

/// The word of the first of some forms, by their numbers, that has the name and that the operands fit, else the fault.
fn first_of<S: Symbols>(
    fault: SyntaxFault,
    numbers: &[u8],
    name: &[u8],
    symbols: &S,
    line: &[u8],
    tokens: &[Token],
) -> Result<u32, SyntaxFault>
    requires { All (λ k. k < 111) numbers.now }
    ensures { (d : Form) →
        result ≡ first_of (S.values symbols.now) (S.place symbols.now) line.now fault
        (map (λ k. get_or forms k d) numbers.now) name.now (statement_tokens line.now tokens.now) }
{
    let mut fault = fault;
    for number in numbers {
        let row = form(*number);
        if let Some(condition) = named(row, name) {
            match operands_of(row.parts, symbols, line, tokens) {
                Some(operands) => return Ok(filled(row, condition, operands?)),
                None => fault = SyntaxFault::Shape,
            }
        }
    }
    Err(fault)
}

/// The word of the first of all forms that has the name and that the operands fit. Only forms whose names begin as this
/// one are looked at.
fn word_of_statement<S: Symbols>(
    name: &[u8],
    symbols: &S,
    line: &[u8],
    tokens: &[Token],
) -> Result<u32, SyntaxFault>
    ensures { result ≡ first_of (S.values symbols.now) (S.place symbols.now) line.now UnknownMnemonic forms name.now
        (statement_tokens line.now tokens.now) }
{
    let numbers = numbers_from(sign_byte(name));
    let fault = SyntaxFault::UnknownMnemonic;
    first_of(fault, numbers, name, symbols, line, tokens)
}

#[tactic(auto, unfolding(crate::specs::Statements::named_meaning))]
fn named_meaning<S: Symbols>(
    name: &[u8],
    symbols: &S,
    line: &[u8],
    tokens: &[Token],
) -> Result<Instructions, SyntaxFault>
    ensures { MatchResult result
        (λ v. named_meaning (S.values symbols.now) (S.place symbols.now) line.now name.now
        (statement_tokens line.now tokens.now) ≡ Ok v.items)
        (λ f. named_meaning (S.values symbols.now) (S.place symbols.now) line.now name.now
        (statement_tokens line.now tokens.now) ≡ Err f) }
{
    if is_same(name, b"set") {
        return set(symbols, line, tokens);
    }
    let word = word_of_statement(name, symbols, line, tokens)?;
    Ok(list_of_one(decode(word)))
}

/// The instructions of a statement, one or two: the mnemonic and operands that `tokens` are in `line` (appendix A).
///
/// # Errors
/// The fault of least number: `UnknownMnemonic`, also where no name comes first; `Shape` of the operands; `Immediate`
/// out of its range; `UnknownSymbol`; `Target` out of reach, or not a multiple of 4 away.
pub fn parse_instr<S: Symbols>(
    line: &[u8],
    tokens: &[Token],
    symbols: &S,
) -> Result<ArrayVec<Instr, 2>, SyntaxFault>
    ensures { MatchResult result (λ v. source_meaning (S.values symbols.now) (S.place symbols.now) line.now tokens.now ≡
        Ok v.items) (λ f. source_meaning (S.values symbols.now) (S.place symbols.now) line.now tokens.now ≡ Err f) }
{
    match name_first(line, tokens) {
        Some((name, rest)) => named_meaning(name, symbols, line, rest),
        None => Err(SyntaxFault::UnknownMnemonic),
    }
}

/// No symbol's word is known yet.
struct Unresolved;

impl Symbols for Unresolved {
    ghost values = { λ _ _. None };

    ghost place = { λ _. 0 };

    fn value(&self, _name: &[u8]) -> Option<u32> {
        None
    }

    fn here(&self) -> u32 {
        0
    }
}

/// How many instructions `set` takes.
fn set_length(line: &[u8], tokens: &[Token]) -> usize
    ensures { result ≡ count_of (set (λ _. None) line.now (statement_tokens line.now tokens.now)) }
{
    match set(&Unresolved, line, tokens) {
        Ok(list) => list.len(),
        Err(SyntaxFault::UnknownSymbol) => 2,
        Err(_) => 1,
    }
}

/// How many instructions a statement takes, 1 or 2, before any symbol is known: `set` of a symbol takes 2, whatever the
/// symbol is worth. A statement with a fault counts as 1.
pub fn length_of(line: &[u8], tokens: &[Token]) -> usize
    ensures { result ≡ statement_length line.now tokens.now }
{
    match name_first(line, tokens) {
        Some((name, rest)) if is_same(name, b"set") => set_length(line, rest),
        _ => 1,
    }
}

// What stands behind the labels of a line.
ghost use Rattle.std.specs.Prelude.{◌≡◌, ◌≤◌, if◌then◌else◌, [], ◌∷◌, drop};
ghost use Rattle.std.specs.List.{list_any, list_all};
ghost use Rattle.v8_syntax.specs.Statements.{statement_tokens};
ghost use Rattle.sbx_directives.specs.declared.directive.Keyword.TheVariants as keywords;
ghost use Rattle.sbx_directives.specs.Directives.{behind, names, frames_of, right_of, is_service, named_services};
ghost use Rattle.sbx_directives.specs.Directives.{services_of, is_expression, value_count, directive_of, called, told};
ghost use Rattle.sbx_directives.specs.Directives.{statement_of};

use crate::directive::{Directive, Keyword, Name, Statement, Width, text_of};
use crate::keyword::keyword_named;
use crate::number::{coefficient, integer_in, location, natural_in, plain_name, range_of};
use crate::operand::{Operand, next_operand, none, one, operands};
use sbx_image::{Cell, Kind, Services, Term};
use sbx_text::Token;
use v8_syntax::{
    StatementToken, after_first, beside, bytes_between, front, is_same, statement_token,
};

/// Whether an operand is the name that is wanted.
fn names(wanted: &[u8], line: &[u8], operand: &Operand) -> bool
    ensures { result ≡ names wanted.now line.now operand.now }
{
    match operand {
        Operand::Name(name) => is_same(text_of(line, *name), wanted),
        _ => false,
    }
}

fn frames_of(line: &[u8], operand: Operand) -> Option<Kind>
    ensures { result ≡ frames_of line.now operand }
{
    let kinds = [("leaf", Kind::Leaf), ("framed", Kind::Framed)];
    beside(text_of(line, plain_name(operand)?), &kinds)
}

/// Whether the program may write what `ro` or `rw` names.
fn right_of(line: &[u8], operand: Operand) -> Option<bool>
    ensures { result ≡ right_of line.now operand }
{
    let rights = [("ro", false), ("rw", true)];
    beside(text_of(line, plain_name(operand)?), &rights)
}

fn is_service(line: &[u8], operand: Operand) -> bool
    ensures { result ≡ is_service line.now operand }
{
    names(b"exit", line, &operand) || names(b"get", line, &operand) || names(b"put", line, &operand)
}

/// Whether some operand is the name that is wanted.
fn any_names(wanted: &[u8], line: &[u8], tokens: &[Token]) -> bool
    ensures { result ≡ list_any (names wanted.now line.now) (behind line.now tokens.now) }
{
    let mut rest = tokens;
    while let Some((operand, after)) = next_operand(line, rest) {
        if names(wanted, line, &operand) {
            return true;
        }
        rest = after;
    }
    false
}

fn are_services(line: &[u8], tokens: &[Token]) -> bool
    ensures { result ≡ list_all (is_service line.now) (behind line.now tokens.now) }
{
    let mut rest = tokens;
    while let Some((operand, after)) = next_operand(line, rest) {
        if !is_service(line, operand) {
            return false;
        }
        rest = after;
    }
    true
}

fn bit_if(test: bool, bit: u16) -> u16
    ensures value { result ≡ (if test then bit else 0) }
    ensures bound { result ≤ bit }
{
    if test { bit } else { 0 }
}

fn named_services(line: &[u8], tokens: &[Token]) -> u16
    ensures { result ≡ named_services line.now (behind line.now tokens.now) }
{
    let exit = bit_if(any_names(b"exit", line, tokens), 1);
    let get = bit_if(any_names(b"get", line, tokens), 2);
    let put = bit_if(any_names(b"put", line, tokens), 4);
    exit + get + put
}

#[tactic(auto, unfolding(crate::specs::Directives::services_of))]
fn services_of(line: &[u8], tokens: &[Token]) -> Option<Services>
    ensures { result ≡ services_of line.now (behind line.now tokens.now) }
{
    if next_operand(line, tokens).is_none() {
        return None;
    }
    are_services(line, tokens).then_some(Services(named_services(line, tokens)))
}

fn is_expression(operand: Operand) -> bool
    ensures { result ≡ is_expression operand }
{
    !matches!(
        operand,
        Operand::Register(_) | Operand::Counted(..) | Operand::Other
    )
}

/// How many expressions the operands are, if all are such, and there are some.
pub fn value_count(line: &[u8], tokens: &[Token]) -> Option<usize>
    ensures { result ≡ value_count (behind line.now tokens.now) }
{
    let mut count = 0;
    let mut rest = tokens;
    while let Some((operand, after)) = next_operand(line, rest) {
        if !is_expression(operand) {
            return None;
        }
        count += 1;
        rest = after;
    }
    if count == 0 { None } else { Some(count) }
}

/// The function that `NAME,KIND,FRAME,STACK,BUDGET` are.
#[tactic(auto, unfolding(crate::specs::Directives::directive_of))]
fn function_with(
    line: &[u8],
    name: Operand,
    kind: Operand,
    frame: Operand,
    stack_room: Operand,
    budget: Operand,
) -> Option<Directive>
    ensures { result ≡ directive_of line.now keywords.Function (name ∷ kind ∷ frame ∷ stack_room ∷ budget ∷ []) }
{
    let name = plain_name(name)?;
    let kind = frames_of(line, kind)?;
    let frame = natural_in(0, 4096, frame)? as u32;
    let stack_room = natural_in(0, 65536, stack_room)? as u32;
    let budget = natural_in(0, 0xff_ffff_ffff, budget)?;
    Some(Directive::Function {
        name,
        kind,
        frame,
        stack_room,
        budget,
    })
}

/// `NAME,KIND,FRAME,STACK,BUDGET`
#[tactic(auto, unfolding(crate::specs::Directives::directive_of))]
fn function_of(line: &[u8], tokens: &[Token]) -> Option<Directive>
    ensures { result ≡ directive_of line.now keywords.Function (behind line.now tokens.now) }
{
    let Some((name, rest)) = next_operand(line, tokens) else {
        return None;
    };
    let Some((kind, rest)) = next_operand(line, rest) else {
        return None;
    };
    let Some((frame, rest)) = next_operand(line, rest) else {
        return None;
    };
    let Some((stack_room, rest)) = next_operand(line, rest) else {
        return None;
    };
    function_with(line, name, kind, frame, stack_room, one(line, rest)?)
}

/// `LOC,LO,HI,AL`
#[tactic(auto, unfolding(crate::specs::Directives::directive_of))]
fn cell_of(line: &[u8], tokens: &[Token]) -> Option<Directive>
    ensures { result ≡ directive_of line.now keywords.Cell (behind line.now tokens.now) }
{
    let Some((place, rest)) = next_operand(line, tokens) else {
        return None;
    };
    let location = location(line, place)?;
    let range = range_of(line, rest)?;
    Some(Directive::Cell(Cell { location, range }))
}

/// `LOC,N`
#[tactic(auto, unfolding(crate::specs::Directives::directive_of))]
fn term_of(line: &[u8], tokens: &[Token]) -> Option<Directive>
    ensures { result ≡ directive_of line.now keywords.Term (behind line.now tokens.now) }
{
    let Some((place, rest)) = next_operand(line, tokens) else {
        return None;
    };
    let number = one(line, rest)?;
    let location = location(line, place)?;
    let coefficient = coefficient(number)?;
    Some(Directive::Term(Term {
        location,
        coefficient,
    }))
}

/// 2, 4 or 8
#[tactic(auto, unfolding(crate::specs::Directives::directive_of))]
fn alignment_of(line: &[u8], tokens: &[Token]) -> Option<Directive>
    ensures { result ≡ directive_of line.now keywords.Align (behind line.now tokens.now) }
{
    let number = natural_in(2, 8, one(line, tokens)?)?;
    matches!(number, 2 | 4 | 8).then_some(Directive::Align(number as u32))
}

/// The directive of a keyword and the operands behind the first token.
#[tactic(auto, unfolding(crate::specs::Directives::directive_of))]
fn directive_of(line: &[u8], keyword: Keyword, tokens: &[Token]) -> Option<Directive>
    ensures { result ≡ directive_of line.now keyword (behind line.now tokens.now) }
{
    match keyword {
        Keyword::Text => none(line, tokens).and(Some(Directive::Text)),
        Keyword::Data => none(line, tokens).and(Some(Directive::Data)),
        Keyword::Region => {
            let writable = right_of(line, one(line, tokens)?)?;
            Some(Directive::Region { writable })
        }
        Keyword::Services => Some(Directive::Services(services_of(line, tokens)?)),
        Keyword::Stack => Some(Directive::Stack(natural_in(1, 16, one(line, tokens)?)? as u16)),
        Keyword::Function => function_of(line, tokens),
        Keyword::Param => Some(Directive::Param(range_of(line, tokens)?)),
        Keyword::Result => Some(Directive::Result(range_of(line, tokens)?)),
        Keyword::Depth => Some(Directive::Depth(natural_in(0, 256, one(line, tokens)?)? as u16)),
        Keyword::Block => Some(Directive::Block(plain_name(one(line, tokens)?)?)),
        Keyword::Cell => cell_of(line, tokens),
        Keyword::Fuel => {
            let operand = one(line, tokens)?;
            Some(Directive::Fuel(integer_in(-0xff_ffff_ffff, 0xff_ffff_ffff, operand)?))
        }
        Keyword::Term => term_of(line, tokens),
        Keyword::Word => Some(Directive::Values(Width::Word, value_count(line, tokens)?)),
        Keyword::Half => Some(Directive::Values(Width::Half, value_count(line, tokens)?)),
        Keyword::Byte => Some(Directive::Values(Width::Byte, value_count(line, tokens)?)),
        Keyword::Skip => Some(Directive::Skip(natural_in(0, u64::MAX, one(line, tokens)?)?)),
        Keyword::Align => alignment_of(line, tokens),
    }
}

/// What a function or a block is called, whatever else stands there: the first token behind the keyword, where it is a
/// name.
#[tactic(auto, unfolding(crate::specs::Directives::called))]
fn called(line: &[u8], keyword: Keyword, tokens: &[Token]) -> Option<Name>
    ensures { result ≡ called keyword (statement_tokens line.now tokens.now) }
{
    match keyword {
        Keyword::Function | Keyword::Block => match front(line, tokens) {
            Some((StatementToken::Name(_, start, stop), _)) => Some(Name { start, stop }),
            _ => None,
        },
        _ => None,
    }
}

/// The directive of a keyword, which is the first of some tokens, or what is wrong in its place.
fn told(line: &[u8], keyword: Keyword, tokens: &[Token]) -> Statement
    ensures { result ≡ told line.now keyword (drop 1 tokens.now) }
{
    match directive_of(line, keyword, operands(tokens)) {
        Some(directive) => Statement::Directive(directive),
        None => Statement::Malformed(keyword, called(line, keyword, after_first(tokens))),
    }
}

/// What the tokens behind the labels of a line ask for. A name with a dot that is no directive's is an instruction
/// here, which has no mnemonic.
#[tactic(auto, unfolding(crate::specs::Directives::statement_of))]
pub fn read_statement(line: &[u8], tokens: &[Token]) -> Statement
    ensures { result ≡ statement_of line.now tokens.now }
{
    let Some((first, _)) = tokens.split_first() else {
        return Statement::Nothing;
    };
    match statement_token(line, first) {
        StatementToken::Name(_, start, stop) => match keyword_named(bytes_between(
            line, start, stop,
        )) {
            Some(keyword) => told(line, keyword, tokens),
            None => Statement::Instruction,
        },
        _ => Statement::Instruction,
    }
}

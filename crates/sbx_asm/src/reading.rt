//! A line of a source, as it was read.
ghost use Rattle.std.specs.Prelude.{◌≡◌, IfOk, Ok, Err, drop, ◌*◌};
ghost use Rattle.sbx_text.specs.Tokens.{tokens_of};
ghost use Rattle.v8_syntax.specs.Statements.{statement_length};
ghost use Rattle.sbx_asm.specs.Items.{item_of, label_names};
ghost use Rattle.sbx_asm.specs.Addresses.{code_length};

use sbx_directives::{Statement, label_count, read_statement};
use sbx_text::{TextFault, Token};
use std::alloc::{AllocError, Global};
use std::marker::Model;
use v8_syntax::length_of;

/// What stands behind a line's labels, or why it has no tokens. Most lines have an instruction, so what is rarer lies
/// elsewhere.
#[derive(Drop)]
enum Told {
    Nothing,
    /// It takes so many words.
    Instruction(usize),
    Other(Box<Statement>),
    Fault(TextFault),
}

/// A line of a source, and the tokens that were read of it. Contracts see the item that it is.
#[derive(Drop)]
pub struct Line<'a, 't> {
    /// From 1.
    number: usize,
    bytes: &'a [u8],
    /// None where the line has a fault of its text.
    tokens: &'t [Token],
    /// How many labels its tokens begin with.
    label_count: usize,
    told: Told,
}

impl<'a, 't> Model for Line<'a, 't> {
    ghost use Rattle.std.specs.Prelude.{◌≡◌, ◌*◌, drop, Ok, Err, ⊤};
    ghost use Rattle.v8_syntax.specs.Statements.{statement_length};
    ghost use Rattle.sbx_directives.specs.declared.directive.Statement.TheVariants as statements;
    ghost use Rattle.sbx_asm.specs.declared.reading.Told.TheVariants.{Nothing, Instruction, Other, Fault};
    ghost use Rattle.sbx_asm.specs.Items.{Item, label_names};

    ghost Value = { Item };

    ghost view = { λ l. record {
      number = l.number;
      labels = label_names l.bytes.now l.label_count l.tokens.now;
      bytes = l.bytes.now;
      tokens = drop (2 * l.label_count) l.tokens.now;
      said = elim l.told [
        | Nothing ↦ Ok statements.Nothing
        | Instruction words ↦ Ok statements.Instruction
        | Other said ↦ Ok said.value
        | Fault fault ↦ Err fault
      ];
    } };

    ghost invariant = { λ l. elim l.told [
      | Instruction words ↦ words ≡
          statement_length l.bytes.now (drop (2 * l.label_count) l.tokens.now)
      | _ ↦ ⊤
    ] };
}

/// The tokens behind so many labels.
fn behind_labels(tokens: &[Token], count: usize) -> &[Token]
    ensures { result.now ≡ drop (2 * count) tokens.now }
{
    if count <= tokens.len() / 2 {
        &tokens[2 * count..]
    } else {
        &[]
    }
}

impl<'a, 't> Line<'a, 't> {
    /// The line of that number with its tokens.
    pub(crate) fn with_tokens(
        alloc: Global,
        number: usize,
        bytes: &'a [u8],
        tokens: &'t [Token],
    ) -> Result<Line<'a, 't>, AllocError>
        ensures { IfOk result (λ line. Ok tokens.now ≡ tokens_of bytes.now → line ≡ item_of (number, bytes.now)) }
    {
        let label_count = label_count(bytes, tokens);
        let rest = behind_labels(tokens, label_count);
        let told = match read_statement(bytes, rest) {
            Statement::Nothing => Told::Nothing,
            Statement::Instruction => Told::Instruction(length_of(bytes, rest)),
            statement => Told::Other(Box::new(alloc, statement)?),
        };
        Ok(Line {
            number,
            bytes,
            tokens,
            label_count,
            told,
        })
    }

    /// The line of that number that has no tokens for a fault.
    pub(crate) fn with_fault(number: usize, bytes: &'a [u8], fault: TextFault) -> Line<'a, 't>
        ensures { Err fault ≡ tokens_of bytes.now → result ≡ item_of (number, bytes.now) }
    {
        Line {
            number,
            bytes,
            tokens: &[],
            label_count: 0,
            told: Told::Fault(fault),
        }
    }

    /// Its number, from 1.
    pub fn number(&self) -> usize
        ensures { result ≡ self.now.number }
    {
        self.number
    }

    /// Its bytes, without its end.
    pub fn bytes(&self) -> &'a [u8]
        ensures { result.now ≡ self.now.bytes }
    {
        self.bytes
    }

    /// What stands behind the labels, or why there are no tokens.
    pub fn said(&self) -> Result<Statement, TextFault>
        ensures { result ≡ self.now.said }
    {
        match &self.told {
            Told::Nothing => Ok(Statement::Nothing),
            Told::Instruction(_) => Ok(Statement::Instruction),
            Told::Other(statement) => Ok(**statement),
            Told::Fault(fault) => Err(*fault),
        }
    }

    /// How many labels it has, and tokens that begin with them.
    pub fn labels(&self) -> (usize, &'t [Token])
        ensures { label_names self.now.bytes result.0 result.1.now ≡ self.now.labels }
    {
        (self.label_count, self.tokens)
    }

    /// The tokens behind the labels.
    pub fn tokens(&self) -> &'t [Token]
        ensures { result.now ≡ self.now.tokens }
    {
        behind_labels(self.tokens, self.label_count)
    }

    /// How many words an instruction behind its labels takes.
    fn word_count(&self) -> usize
        ensures { result ≡ statement_length self.now.bytes self.now.tokens }
    {
        match &self.told {
            Told::Instruction(words) => *words,
            _ => length_of(self.bytes, self.tokens()),
        }
    }

    /// How many bytes of code the line takes.
    pub fn code_length(&self) -> u128
        ensures { result ≡ code_length self.now }
    {
        match self.said() {
            Ok(Statement::Instruction) => 4 * self.word_count() as u128,
            Err(_) => 4,
            _ => 0,
        }
    }
}

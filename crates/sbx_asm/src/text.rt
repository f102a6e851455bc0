//! The tokens of a source, each line of it read once.
ghost use Rattle.std.specs.Prelude.{◌≡◌, ◌∷◌, ◌++◌, [], IfOk, List, Result, length};
ghost use Rattle.std.specs.Result.{result_map_both, result_unwrap_or};
ghost use Rattle.sbx_text.specs.declared.Token.{Token};
ghost use Rattle.sbx_text.specs.Tokens.{tokens_of};
ghost use Rattle.sbx_asm.specs.Items.{item_of, items_of};

use crate::lines::first_line;
use crate::reading::Line;
use sbx_text::{TextFault, Token, push_tokens};
use std::alloc::{AllocError, Global};
use std::marker::Model;

/// The tokens of some lines one after the other, and how many each line has, or why it has none.
#[derive(Drop)]
pub struct Kept {
    pub tokens: Vec<Token>,
    pub found: Vec<Result<usize, TextFault>>,
}

/// A source with the tokens of its lines. Contracts see the source.
#[derive(Drop)]
pub struct Text<'a> {
    source: &'a [u8],
    kept: Kept,
}

impl<'a> Model for Text<'a> {
    ghost use Rattle.std.specs.Prelude.{◌≡◌, ℕ, List, [], length, map};
    ghost use Rattle.std.specs.List.{flat_map};
    ghost use Rattle.std.specs.Result.{result_map_both, result_unwrap_or};
    ghost use Rattle.sbx_text.specs.Tokens.{tokens_of};
    ghost use Rattle.sbx_asm.specs.Items.{lines_of};

    ghost Value = { List ℕ };

    ghost view = { λ t. t.source.now };

    ghost invariant = { λ t. (t.kept.tokens.items ≡ flat_map (λ line. result_unwrap_or (tokens_of line) []) (lines_of t.source.now))
        × (t.kept.found.items ≡
        map (λ line. result_map_both length (λ fault. fault) (tokens_of line)) (lines_of t.source.now)) };
}

/// Adds the tokens of a line to others, and counts them.
fn read_tokens(line: &[u8], tokens: &mut Vec<Token>) -> Result<Result<usize, TextFault>, AllocError>
    ensures { IfOk result (λ found. (found ≡ result_map_both length (λ fault. fault) (tokens_of line.now))
        × (tokens.new.items ≡ tokens.old.items ++ result_unwrap_or (tokens_of line.now) [])) }
{
    let before = tokens.len();
    match push_tokens(line, tokens) {
        Ok(()) => Ok(Ok(tokens.len().saturating_sub(before))),
        Err(TextFault::Memory(want)) => Err(AllocError::from(want)),
        Err(fault) => {
            tokens.truncate(before);
            Ok(Err(fault))
        }
    }
}

impl Kept {
    /// Reads one more line.
    fn add_line(&mut self, line: &[u8]) -> Result<(), AllocError>
        ensures { IfOk result
            (λ _. (self.new.found.items ≡
            self.old.found.items ++ result_map_both length (λ fault. fault) (tokens_of line.now) ∷ [])
            × (self.new.tokens.items ≡ self.old.tokens.items ++ result_unwrap_or (tokens_of line.now) [])) }
    {
        let found = read_tokens(line, &mut self.tokens)?;
        self.found.push(found)?;
        Ok(())
    }
}

/// The line of that number, whose tokens stand in front of others, and the others.
fn line_of<'a, 't>(
    alloc: Global,
    number: usize,
    bytes: &'a [u8],
    found: Result<usize, TextFault>,
    tokens: &'t [Token],
) -> Result<(Line<'a, 't>, &'t [Token]), AllocError>
    ensures { IfOk result (λ read. (others : List Token) →
        found ≡ result_map_both length (λ fault. fault) (tokens_of bytes.now) →
        tokens.now ≡ result_unwrap_or (tokens_of bytes.now) [] ++ others
        → (read.0 ≡ item_of (number, bytes.now)) × (read.1.now ≡ others)) }
{
    match found {
        Ok(count) => {
            let (own, others) = tokens.split_at(count.min(tokens.len()));
            Ok((Line::with_tokens(alloc, number, bytes, own)?, others))
        }
        Err(fault) => Ok((Line::with_fault(number, bytes, fault), tokens)),
    }
}

impl<'a> Text<'a> {
    /// Reads a source.
    pub fn read(alloc: Global, source: &'a [u8]) -> Result<Text<'a>, AllocError>
        ensures { IfOk result (λ text. text ≡ source.now) }
    {
        let mut kept = Kept {
            tokens: Vec::new(alloc),
            found: Vec::new(alloc),
        };
        let mut rest = source;
        while rest.len() > 0 {
            let (line, after) = first_line(rest);
            kept.add_line(line)?;
            rest = after;
        }
        Ok(Text { source, kept })
    }

    /// Its lines, in their order.
    pub fn lines(&self, alloc: Global) -> Result<Vec<Line<'a, '_>>, AllocError>
        ensures { IfOk result (λ lines. lines.items ≡ items_of self.now) }
    {
        let found = self.kept.found.as_slice();
        let mut lines = Vec::new(alloc);
        let mut rest = self.source;
        let mut tokens = self.kept.tokens.as_slice();
        for index in 0..found.len() {
            let (bytes, after) = first_line(rest);
            let (line, others) = line_of(alloc, index + 1, bytes, found[index], tokens)?;
            lines.push(line)?;
            rest = after;
            tokens = others;
        }
        Ok(lines)
    }
}

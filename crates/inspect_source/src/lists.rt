//! What stands between the commas of a directive.
use sbx_text::Token;
use v8_syntax::{StatementToken, bytes_between, is_same, statement_token};

/// The operands of a directive: the tokens behind its name.
#[derive(Clone, Copy)]
pub(crate) struct List<'l> {
    pub line: &'l [u8],
    pub tokens: &'l [Token],
}

/// An operand: some of these tokens, and the place in the line where it begins.
#[derive(Clone, Copy)]
pub(crate) struct Operand<'l> {
    pub line: &'l [u8],
    pub tokens: &'l [Token],
    pub place: usize,
}

fn is_comma(line: &[u8], token: &Token) -> bool {
    matches!(statement_token(line, token), StatementToken::Sign(b','))
}

impl<'l> List<'l> {
    /// Where the tokens end.
    pub(crate) fn end(self) -> usize {
        match self.tokens.last() {
            Some(token) => token.stop,
            None => 0,
        }
    }

    /// How many operands there are.
    pub(crate) fn count(self) -> usize {
        if self.tokens.is_empty() {
            return 0;
        }
        let line = self.line;
        let commas = self
            .tokens
            .iter()
            .filter(|token| is_comma(line, token))
            .count();
        commas.saturating_add(1)
    }

    /// The number of the first token of an operand, which is behind so many commas.
    fn first_token(self, number: usize) -> usize {
        let mut commas: usize = 0;
        for (at, token) in self.tokens.iter().enumerate() {
            if commas == number {
                return at;
            }
            if is_comma(self.line, token) {
                commas = commas.saturating_add(1);
            }
        }
        self.tokens.len()
    }

    /// The operand of that number, from 0; none of its tokens where there is no such operand.
    pub(crate) fn operand(self, number: usize) -> Operand<'l> {
        let (_, tokens) = self
            .tokens
            .split_at(self.first_token(number).min(self.tokens.len()));
        let line = self.line;
        let length = tokens
            .iter()
            .take_while(|token| !is_comma(line, token))
            .count();
        let place = match tokens.first() {
            Some(token) => token.start,
            None => self.end(),
        };
        let (tokens, _) = tokens.split_at(length.min(tokens.len()));
        Operand {
            line,
            tokens,
            place,
        }
    }
}

impl<'l> Operand<'l> {
    fn word(self, at: usize) -> Option<StatementToken> {
        let token = self.tokens.get(at)?;
        Some(statement_token(self.line, token))
    }

    /// The bytes of a name alone.
    pub(crate) fn name(self) -> Option<&'l [u8]> {
        match self.word(0) {
            Some(StatementToken::Name(_, start, stop)) if self.tokens.len() == 1 => {
                Some(bytes_between(self.line, start, stop))
            }
            _ => None,
        }
    }

    /// Whether it is one of two names.
    pub(crate) fn is_one_of(self, first: &[u8], second: &[u8]) -> bool {
        match self.name() {
            Some(name) => is_same(name, first) || is_same(name, second),
            None => false,
        }
    }

    /// A number, or `-` and a number.
    pub(crate) fn number(self) -> Option<i128> {
        match (self.word(0), self.word(1)) {
            (Some(StatementToken::Number(number)), None) => Some(i128::from(number)),
            (Some(StatementToken::Sign(b'-')), Some(StatementToken::Number(number)))
                if self.tokens.len() == 2 => { Some(-i128::from(number)) }
            _ => None,
        }
    }

    /// Whether it is a number from `low` to `high`.
    pub(crate) fn lies_in(self, low: i64, high: i64) -> bool {
        match self.number() {
            Some(number) => i128::from(low) <= number && number <= i128::from(high),
            None => false,
        }
    }

    /// Whether it is a number that isn't above another operand's.
    pub(crate) fn is_at_most(self, other: Operand<'_>) -> bool {
        match (self.number(), other.number()) {
            (Some(low), Some(high)) => low <= high,
            _ => false,
        }
    }

    /// Whether it is `slot` and a number of a frame's words.
    fn is_slot(self) -> bool {
        match (self.word(0), self.word(1)) {
            (Some(StatementToken::Name(_, start, stop)), Some(StatementToken::Number(number))) => {
                self.tokens.len() == 2
                    && number <= 1007
                    && is_same(bytes_between(self.line, start, stop), b"slot")
            }
            _ => false,
        }
    }

    /// Whether it begins with %g0, by either of its names.
    fn is_zero_register(self) -> bool {
        match self.tokens.first() {
            Some(token) => {
                let name = bytes_between(self.line, token.start, token.stop);
                is_same(name, b"%g0") || is_same(name, b"%r0")
            }
            None => false,
        }
    }

    /// Whether it is a register but %g0, or a frame word.
    pub(crate) fn is_location(self) -> bool {
        match self.word(0) {
            Some(StatementToken::Register(_)) => self.tokens.len() == 1 && !self.is_zero_register(),
            _ => self.is_slot(),
        }
    }

    /// Whether it is a number, or a symbol with or without a number that is added or taken away.
    pub(crate) fn is_expression(self) -> bool {
        if self.number().is_some() || self.name().is_some() {
            return true;
        }
        let sign = matches!(self.word(1), Some(StatementToken::Sign(b'+' | b'-')));
        let number = matches!(self.word(2), Some(StatementToken::Number(_)));
        let name = matches!(self.word(0), Some(StatementToken::Name(..)));
        self.tokens.len() == 3 && name && sign && number
    }
}

//! Tokens of a line of source.
#![tactic(auto)]

ghost use Rattle.std.specs.Prelude.{◌≡◌, ◌≢◌, ◌++◌, IfOk, List, MatchResult, Ok, Err, length};
ghost use Rattle.want.specs.Wants.{refused};
ghost use Rattle.sbx_text.specs.declared.fault.TextFault.TheVariants.{Memory};
ghost use Rattle.sbx_text.specs.Tokens.{tokens_of, tokens_at, in_front, Gives};
ghost use Rattle.sbx_text.specs.Slices.{AreSlices};

mod fault;
mod scanning;

pub use fault::TextFault;
use scanning::{Step, front};
use std::alloc::Global;

/// What a token is. A number is below 2^40; a sign is one of `,` `:` `[` `]` `+` `-`.
#[derive(Clone, Copy)]
pub enum Kind {
    Name,
    Percent,
    Number(u64),
    Sign,
}

/// The bytes of a line from `start` up to `stop`.
#[derive(Clone, Copy)]
pub struct Token {
    pub kind: Kind,
    pub start: usize,
    pub stop: usize,
}

/// The longest line, in bytes.
const LONGEST: usize = 1024;

/// The tokens of one line, which has no LF, in their order.
///
/// # Errors
/// `LineTooLong` above 1,024 bytes; else the fault of the leftmost place: a byte past ASCII, another character that
/// begins no token, both outside comments, or a number of 2^40 or more. `Memory` may come in the place of any answer.
pub fn tokens(alloc: Global, line: &[u8]) -> Result<Vec<Token>, TextFault>
    ensures exact { Gives (λ found. found.items) result (tokens_of line.now) }
    ensures slices { IfOk result (λ found. AreSlices 0 line.now found.items) }
{
    let mut found = Vec::new(alloc);
    match push_tokens(line, &mut found) {
        Ok(()) => Ok(found),
        Err(fault) => Err(fault),
    }
}

/// Adds the tokens of one line, which has no LF, to others.
///
/// # Errors
/// As of `tokens`. Some tokens of the line may have been added then.
pub fn push_tokens(line: &[u8], found: &mut Vec<Token>) -> Result<(), TextFault>
    ensures exact { MatchResult result (λ _. in_front found.old.items (tokens_of line.now) ≡ Ok found.new.items)
        (λ fault. fault ≢ Memory refused → tokens_of line.now ≡ Err fault) }
    ensures others { (more : List Token) × (found.new.items ≡ found.old.items ++ more) }
{
    if line.len() > LONGEST {
        return Err(TextFault::LineTooLong);
    }
    scan(line, found)
}

fn scan(line: &[u8], found: &mut Vec<Token>) -> Result<(), TextFault>
    ensures exact { MatchResult result (λ _. in_front found.old.items (tokens_at (length line.now) 0 line.now) ≡
        Ok found.new.items) (λ fault. fault ≢ Memory refused → tokens_at (length line.now) 0 line.now ≡ Err fault) }
    ensures others { (more : List Token) × (found.new.items ≡ found.old.items ++ more) }
{
    let mut start = 0;
    let mut rest = line;
    for _ in 0..line.len() {
        match front(rest) {
            Step::Stop => return Ok(()),
            Step::Skip => {
                start += 1;
                rest = rest.split_at(1).1;
            }
            Step::Emit(kind, len) => {
                let stop = start + len;
                found.push(Token { kind, start, stop })?;
                start = stop;
                rest = rest.split_at(len).1;
            }
            Step::Refuse(fault) => return Err(fault),
        }
    }
    Ok(())
}

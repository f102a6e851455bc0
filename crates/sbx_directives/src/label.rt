// The labels of a line.
ghost use Rattle.std.specs.Prelude.{◌≡◌, ◌+◌, ◌*◌, ◌≤◌, suc, MatchOption, IfSome, length};
ghost use Rattle.v8_syntax.specs.Statements.{statement_tokens};
ghost use Rattle.sbx_directives.specs.Directives.{labels_first, label_count};

use sbx_text::Token;
use v8_syntax::{StatementToken, after_sign, statement_token};

/// What follows the label that some tokens begin with.
#[tactic(auto, unfolding(crate::specs::Directives::labels_first), using(crate::proofs::Labels::no_colon, crate::proofs::Labels::colon, crate::proofs::Labels::tokens_fewer))]
fn behind_label<'t>(line: &[u8], tokens: &'t [Token]) -> Option<&'t [Token]>
    ensures value { MatchOption result (labels_first (statement_tokens line.now tokens.now) ≡ 0)
        (λ rest. labels_first (statement_tokens line.now tokens.now) ≡
        suc (labels_first (statement_tokens line.now rest.now))) }
    ensures room { IfSome result (λ rest. 2 + length rest.now ≡ length tokens.now) }
{
    let (first, after) = tokens.split_first()?;
    let rest = after_sign(b':', line, after)?;
    match statement_token(line, first) {
        StatementToken::Name(..) => Some(rest),
        _ => None,
    }
}

/// How many labels a line begins with, each a name and `:`. The name of the k-th is the token 2 k, whatever it names.
pub fn label_count(line: &[u8], tokens: &[Token]) -> usize
    ensures count { result ≡ label_count line.now tokens.now }
    ensures room { 2 * result ≤ length tokens.now }
{
    let mut count = 0;
    let mut rest = tokens;
    while let Some(after) = behind_label(line, rest) {
        count += 1;
        rest = after;
    }
    count
}

//! Lines as the readers of the assembler take them.
ghost use Rattle.std.specs.Prelude.{◌≡◌, ◌++◌, ◌∷◌, [], false, true, IsTrue, IfSome};
ghost use Rattle.fit_kept.specs.Lines.{annotates, declares_function, is_annotation, bare, Fills};

use sbx_directives::{Directive, Statement, label_count, read_statement};
use sbx_text::{TextFault, tokens};
use std::alloc::Global;
use v8_syntax::bytes_between;

/// Whether a line says an annotation behind its labels.
fn annotates(statement: Statement) -> bool
    ensures { result ≡ annotates statement }
{
    matches!(
        statement,
        Statement::Directive(
            Directive::Param(_)
                | Directive::Result(_)
                | Directive::Depth(_)
                | Directive::Cell(_)
                | Directive::Fuel(_)
                | Directive::Term(_)
        )
    )
}

/// Whether a line is an annotation alone; not where memory was refused, which is noted.
#[tactic(auto, unfolding(crate::specs::Lines::is_annotation))]
pub fn is_annotation(alloc: Global, line: &[u8], lacks: &mut bool) -> bool
    ensures { IsTrue result → is_annotation line.now ≡ true }
{
    match tokens(alloc, line) {
        Ok(found) => annotates(read_statement(line, found.as_slice())),
        Err(fault) => {
            *lacks |= matches!(fault, TextFault::Memory(_));
            false
        }
    }
}

/// What stands before, between and behind the numbers of a `.function` for its stack room and its budget.
#[derive(Clone, Copy)]
pub struct FunctionLine<'l> {
    pub before: &'l [u8],
    pub between: &'l [u8],
    pub behind: &'l [u8],
}

/// The parts of a line; none where it is no `.function`, or memory was refused, which is noted.
#[tactic(auto, unfolding(crate::specs::Lines::bare, crate::specs::Lines::is_annotation))]
pub fn parts_of<'l>(alloc: Global, line: &'l [u8], lacks: &mut bool) -> Option<FunctionLine<'l>>
    ensures stays { IfSome result (λ parts. is_annotation line.now ≡ false) }
    ensures bare { IfSome result (λ parts. bare line.now
        ≡ parts.before.now ++ (48 ∷ []) ++ parts.between.now ++ (48 ∷ []) ++ parts.behind.now) }
{
    let found = match tokens(alloc, line) {
        Ok(found) => found,
        Err(fault) => {
            *lacks |= matches!(fault, TextFault::Memory(_));
            return None;
        }
    };
    let (tokens, count) = (found.as_slice(), found.len());
    let labels = label_count(line, tokens);
    let statement = read_statement(line, &tokens[2 * labels..]);
    if count < 3
        || annotates(read_statement(line, tokens))
        || !matches!(statement, Statement::Directive(Directive::Function { .. }))
    {
        return None;
    }
    let (room, budget) = (tokens[count - 3], tokens[count - 1]);
    Some(FunctionLine {
        before: bytes_between(line, 0, room.start),
        between: bytes_between(line, room.stop, budget.start),
        behind: bytes_between(line, budget.stop, line.len()),
    })
}

/// Whether a line differs from another one by a function's numbers alone; not where memory was refused, which is noted.
pub fn fills(alloc: Global, old: &[u8], new: &[u8], lacks: &mut bool) -> bool
    ensures { IsTrue result → Fills old.now new.now }
{
    match (parts_of(alloc, old, lacks), parts_of(alloc, new, lacks)) {
        (Some(old), Some(new)) => {
            (old.before == new.before) & (old.between == new.between) & (old.behind == new.behind)
        }
        _ => false,
    }
}

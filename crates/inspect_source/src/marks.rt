//! The cause of a fault, and its place in the line.
ghost use Rattle.std.specs.Prelude.{◌≤◌, IfOk, length};

use crate::directives::{operand_mark, symbol_mark, value_mark};
use crate::reasons::{LimitReason, Mark, PlaceReason, ShapeReason};
use crate::settings::Setting;
use crate::statements::statement_mark;
use crate::texts::text_mark;
use sbx_asm::{Cause, Line};
use sbx_directives::{Directive, Name, Statement, Width};
use sbx_text::Token;
use std::alloc::{AllocError, Global};
use v8_syntax::{Symbols, SyntaxFault, bytes_between};

/// The limit that is passed by a line.
fn limit_reason(line: &Line<'_, '_>, setting: Setting) -> LimitReason {
    if line.number() > 1_000_000 {
        return LimitReason::Lines;
    }
    match line.said() {
        Ok(Statement::Directive(directive)) => match directive {
            Directive::Function { .. } if setting.functions >= 256 => LimitReason::Functions,
            Directive::Region { .. } => LimitReason::Regions,
            Directive::Param(_) => LimitReason::Params,
            Directive::Result(_) => LimitReason::Results,
            Directive::Cell(_) => LimitReason::Cells,
            Directive::Term(_) => LimitReason::Terms,
            Directive::Values(..) | Directive::Skip(_) | Directive::Align(_) => LimitReason::Bytes,
            _ => LimitReason::Blocks,
        },
        Ok(Statement::Instruction) => LimitReason::Words,
        _ => LimitReason::Blocks,
    }
}

/// Why an annotation is out of place.
fn annotation_reason(line: &Line<'_, '_>, setting: Setting) -> PlaceReason {
    match line.said() {
        Ok(Statement::Directive(Directive::Block(_))) => PlaceReason::BlockOutside,
        _ if !setting.is_open => PlaceReason::AnnotationOutside,
        _ if setting.has_acted => PlaceReason::BehindInstruction,
        _ => PlaceReason::BehindBlock,
    }
}

/// Why a directive with its own operands can't stand where it stands.
fn directive_reason(directive: Directive, setting: Setting) -> PlaceReason {
    match directive {
        Directive::Services(_) => PlaceReason::SecondServices,
        Directive::Stack(_) => PlaceReason::SecondStack,
        Directive::Depth(_) => PlaceReason::SecondDepth,
        Directive::Fuel(_) => PlaceReason::SecondFuel,
        Directive::Cell(_) => PlaceReason::CellsDescend,
        Directive::Term(_) => PlaceReason::TermsDescend,
        Directive::Data => PlaceReason::DataAmongRegions,
        Directive::Region { .. } if setting.has_data => PlaceReason::RegionBesideData,
        Directive::Region { .. } => PlaceReason::EmptyRegion,
        Directive::Function { .. } => PlaceReason::EmptyFunction,
        Directive::Block(_) => PlaceReason::EmptyBlock,
        _ => PlaceReason::DataInCode,
    }
}

/// Why an instruction can't stand where it stands.
fn instruction_reason(setting: Setting) -> PlaceReason {
    if setting.is_open {
        PlaceReason::InstructionInData
    } else {
        PlaceReason::NoFunctionOpen
    }
}

/// The first token behind a line's labels, and those behind it; none of a line without one.
fn name_of<'l>(line: &'l Line<'_, '_>) -> Option<(&'l Token, &'l [Token])> {
    line.tokens().split_first()
}

/// A mark where what stands behind a line's labels begins.
fn at_statement(line: &Line<'_, '_>, reason: ShapeReason) -> Mark {
    let at = match name_of(line) {
        Some((first, _)) => first.start,
        None => 0,
    };
    Mark { reason, at }
}

/// A value that doesn't fit, or data among the code.
fn values_mark<S: Symbols>(
    line: &Line<'_, '_>,
    width: Width,
    symbols: &S,
    setting: Setting,
) -> Mark {
    match name_of(line) {
        Some((_, rest)) if !setting.in_code => value_mark(line.bytes(), width, rest, symbols),
        _ => at_statement(line, ShapeReason::Place(PlaceReason::DataInCode)),
    }
}

/// Why a directive, or an instruction, is told as A2.
fn directive_mark<S: Symbols>(line: &Line<'_, '_>, symbols: &S, setting: Setting) -> Mark {
    match line.said() {
        Ok(Statement::Directive(Directive::Values(width, _))) => {
            values_mark(line, width, symbols, setting)
        }
        Ok(Statement::Directive(directive)) => {
            let reason = directive_reason(directive, setting);
            at_statement(line, ShapeReason::Place(reason))
        }
        Ok(Statement::Malformed(keyword, _)) => match name_of(line) {
            Some((name, rest)) => operand_mark(line.bytes(), keyword, name, rest),
            None => at_statement(line, ShapeReason::Place(PlaceReason::NoFunction)),
        },
        _ => at_statement(line, ShapeReason::Place(instruction_reason(setting))),
    }
}

/// Why a statement, or a value, is told.
fn syntax_mark<S: Symbols>(line: &Line<'_, '_>, fault: SyntaxFault, symbols: &S) -> Mark {
    match (line.said(), name_of(line)) {
        (Ok(Statement::Directive(_)), Some((_, rest))) => symbol_mark(line.bytes(), rest, symbols),
        _ => statement_mark(line.bytes(), line.tokens(), fault, symbols),
    }
}

/// The name of a function or of a block of a line, if it has one.
fn name_said(line: &Line<'_, '_>) -> Option<Name> {
    match line.said() {
        Ok(Statement::Directive(Directive::Function { name, .. } | Directive::Block(name))) => {
            Some(name)
        }
        Ok(Statement::Malformed(_, name)) => name,
        _ => None,
    }
}

/// Where a label stands that stands before already: the first one that is worth another address than the line's, else
/// the last one.
fn label_place<S: Symbols>(line: &Line<'_, '_>, symbols: &S) -> usize {
    let (count, tokens) = line.labels();
    let mut last = 0;
    for label in 0..count {
        let Some(token) = tokens.get(label.saturating_mul(2)) else {
            return last;
        };
        last = token.start;
        let name = bytes_between(line.bytes(), token.start, token.stop);
        match symbols.value(name) {
            Some(word) if word == symbols.here() => {}
            _ => return last,
        }
    }
    match name_said(line) {
        Some(name) => name.start,
        None => last,
    }
}

/// Why a line is told for a cause, and where.
fn mark_for<S: Symbols>(
    alloc: Global,
    line: &Line<'_, '_>,
    cause: Cause,
    symbols: &S,
    setting: Setting,
) -> Result<Mark, AllocError> {
    Ok(match cause {
        Cause::Text(fault) => text_mark(alloc, line.bytes(), fault)?,
        Cause::Syntax(fault) => syntax_mark(line, fault, symbols),
        Cause::DuplicateLabel => Mark {
            reason: ShapeReason::Place(PlaceReason::RepeatedLabel),
            at: label_place(line, symbols),
        },
        Cause::Directive => directive_mark(line, symbols, setting),
        Cause::Limit => at_statement(line, ShapeReason::Limit(limit_reason(line, setting))),
        Cause::Annotation => at_statement(
            line,
            ShapeReason::Place(annotation_reason(line, setting)),
        ),
        Cause::Memory(want) => return Err(AllocError::from(want)),
    })
}

/// Why a line is told for a cause, and where: the place is one of its bytes, or that behind the last. `symbols` has
/// what the labels of the source are worth, and the address of the line; `setting` is what the lines before it leave.
/// It fails where memory is refused.
pub fn mark_of<S: Symbols>(
    alloc: Global,
    line: &Line<'_, '_>,
    cause: Cause,
    symbols: &S,
    setting: Setting,
) -> Result<Mark, AllocError>
    ensures { IfOk result (λ mark. mark.at ≤ length line.now.bytes) }
{
    let Mark { reason, at } = mark_for(alloc, line, cause, symbols, setting)?;
    Ok(Mark {
        reason,
        at: at.min(line.bytes().len()),
    })
}

/// Why a source is told as a whole, at the line after its last.
pub fn whole_reason(cause: Cause) -> ShapeReason {
    match cause {
        Cause::Limit => ShapeReason::Limit(LimitReason::Pages),
        _ => ShapeReason::Place(PlaceReason::NoFunction),
    }
}

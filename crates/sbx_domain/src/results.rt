//! What is known of results, of the codes that they set, and what those were set from.
ghost use Rattle.std.specs.Prelude.{◌≡◌};
ghost use Rattle.sbx_range.specs.Ranges.{is_zero};
ghost use Rattle.sbx_domain.specs.Results.{copied_form, difference_form, form_of, result_of, sum_form};
ghost use Rattle.sbx_domain.specs.Transfer.{compared, related_operand, related_register, relation_of, sets_codes};
ghost use Rattle.sbx_domain.specs.Transfer.{tells_signs};

use crate::entry::Entry;
use crate::lin::{Lin, combined};
use crate::operands::entry_of_result;
use crate::relation::{Related, Relation};
use sbx_flat::{Operand, Three};
use sbx_range::{Range, differences_fit, range_of, sums_fit};
use v8_alu::Op;
use v8_word::Reg;

fn sum_form(a: Entry, b: Entry) -> Option<Lin>
    ensures { result ≡ sum_form a b }
{
    if sums_fit(a.range, b.range) {
        combined(1, a.form, b.form)
    } else {
        None
    }
}

fn difference_form(a: Entry, b: Entry) -> Option<Lin>
    ensures { result ≡ difference_form a b }
{
    if differences_fit(a.range, b.range) {
        combined(-1, b.form, a.form)
    } else {
        None
    }
}

fn is_zero(range: Range) -> bool
    ensures { result ≡ is_zero range }
{
    range.lo == 0 && range.hi == 0
}

fn copied_form(a: Entry, b: Entry) -> Option<Lin>
    ensures { result ≡ copied_form a b }
{
    if is_zero(a.range) {
        b.form
    } else if is_zero(b.range) {
        a.form
    } else {
        None
    }
}

#[tactic(auto, unfolding(crate::specs::Results::form_of))]
fn form_of(op: Op, a: Entry, b: Entry) -> Option<Lin>
    ensures { result ≡ form_of op a b }
{
    match op {
        Op::Add | Op::AddCc => sum_form(a, b),
        Op::Sub | Op::SubCc => difference_form(a, b),
        Op::Or | Op::OrCc => copied_form(a, b),
        _ => None,
    }
}

/// The result of two operands; of an undefined one it is undefined.
pub(crate) fn result_of(op: Op, a: Option<Entry>, b: Option<Entry>) -> Option<Entry>
    ensures { result ≡ result_of op a b }
{
    match (a, b) {
        (Some(a), Some(b)) => Some(entry_of_result(
            range_of(op, a.range, b.range),
            form_of(op, a, b),
        )),
        _ => None,
    }
}

pub(crate) fn sets_codes(op: Op) -> bool
    ensures { result ≡ sets_codes op }
{
    matches!(
        op,
        Op::AddCc
            | Op::AddxCc
            | Op::SubCc
            | Op::SubxCc
            | Op::AndCc
            | Op::AndnCc
            | Op::OrCc
            | Op::OrnCc
            | Op::XorCc
            | Op::XnorCc
            | Op::UmulCc
            | Op::SmulCc
            | Op::TaddCc
            | Op::TsubCc
            | Op::MulsCc
    )
}

fn tells_signs(op: Op) -> bool
    ensures { result ≡ tells_signs op }
{
    matches!(
        op,
        Op::AddCc
            | Op::SubCc
            | Op::AndCc
            | Op::AndnCc
            | Op::OrCc
            | Op::OrnCc
            | Op::XorCc
            | Op::XnorCc
    )
}

fn related_register(r: Reg) -> Related
    ensures { result ≡ related_register r }
{
    if r == Reg::G0 {
        Related::Word(0)
    } else {
        Related::Location(u16::from(r.number()))
    }
}

fn related_operand(operand: Operand) -> Related
    ensures { result ≡ related_operand operand }
{
    match operand {
        Operand::Register(r) => related_register(r),
        Operand::Immediate(word) => Related::Word(word),
    }
}

/// What an operation whose result goes nowhere compares: `cmp` its operands, `tst` its operand and 0.
fn compared(op: Op, fields: &Three) -> Option<Relation>
    ensures { result ≡ compared op fields.now }
{
    match op {
        Op::SubCc => Some(Relation::Compared(
            related_register(fields.rs1),
            related_operand(fields.operand2),
        )),
        Op::OrCc if fields.rs1 == Reg::G0 => Some(Relation::Compared(
            related_operand(fields.operand2),
            Related::Word(0),
        )),
        _ => None,
    }
}

/// What the codes say after an operation that sets them.
pub(crate) fn relation_of(op: Op, fields: &Three) -> Option<Relation>
    ensures { result ≡ relation_of op fields.now }
{
    if fields.rd == Reg::G0 {
        compared(op, fields)
    } else if tells_signs(op) {
        Some(Relation::Signs(u16::from(fields.rd.number())))
    } else {
        None
    }
}

//! What a line is told for by itself.
ghost use Rattle.std.specs.Prelude.{◌≡◌, ◌==◌, List, Ok};
ghost use Rattle.std.specs.List.{list_any};
ghost use Rattle.std.specs.Option.{option_map};
ghost use Rattle.sbx_directives.specs.declared.directive.Statement.TheVariants as statements;
ghost use Rattle.sbx_asm.specs.declared.fault.Cause.TheVariants as causes;
ghost use Rattle.sbx_asm.specs.declared.fault.AsmFault.{AsmFault};
ghost use Rattle.sbx_asm.specs.Items.{Item};
ghost use Rattle.sbx_asm.specs.Addresses.{code_address};
ghost use Rattle.sbx_asm.specs.Rules.{syntax_fault_of};
ghost use Rattle.sbx_asm.specs.Kept.{worth};
ghost use Rattle.inspect_check.specs.Alone.{cause_alone, value_cause, with_label};

use sbx_asm::{AsmFault, Cause, Line, Scope, Table};
use sbx_directives::{DataFault, Directive, Statement, value_fault};
use v8_syntax::{SyntaxFault, parse_instr};

/// Whether one of some faults is told at a line.
pub fn is_told(faults: &[AsmFault], number: usize) -> bool
    ensures { result ≡ list_any (λ (f : AsmFault). f.line == number) faults.now }
{
    faults.iter().any(|fault| fault.line == number)
}

/// Why the values of a data directive have no bytes.
fn value_cause(fault: Option<DataFault>) -> Option<Cause>
    ensures { result ≡ value_cause fault }
{
    match fault {
        Some(DataFault::UnknownSymbol) => Some(Cause::Syntax(SyntaxFault::UnknownSymbol)),
        Some(DataFault::Malformed) => Some(Cause::Directive),
        _ => None,
    }
}

/// Why an instruction at an address has no words.
fn syntax_cause(table: &Table<'_>, here: u32, line: &Line<'_, '_>) -> Option<Cause>
    ensures { (before : List Item) → here ≡ code_address before → line.now.said ≡ Ok statements.Instruction →
        result ≡ option_map causes.Syntax (syntax_fault_of (worth table.now) before line.now) }
{
    let scope = Scope { table, here };
    match parse_instr(line.bytes(), line.tokens(), &scope) {
        Ok(_) => None,
        Err(fault) => Some(Cause::Syntax(fault)),
    }
}

/// Why a line at an address of the code means nothing by itself.
pub fn cause_alone(table: &Table<'_>, here: u32, line: &Line<'_, '_>) -> Option<Cause>
    ensures { (before : List Item) → here ≡ code_address before →
        result ≡ cause_alone (worth table.now) before line.now }
{
    match line.said() {
        Err(fault) => Some(Cause::Text(fault)),
        Ok(Statement::Instruction) => syntax_cause(table, here, line),
        Ok(Statement::Malformed(..)) => Some(Cause::Directive),
        Ok(Statement::Directive(Directive::Values(width, _))) => {
            let scope = Scope { table, here };
            value_cause(value_fault(width, &scope, line.bytes(), line.tokens()))
        }
        _ => None,
    }
}

/// What is told of a line one of whose labels may stand before already.
pub fn with_label(again: bool, cause: Option<Cause>) -> Option<Cause>
    ensures { result ≡ with_label again cause }
{
    match cause {
        Some(Cause::Text(_) | Cause::Syntax(_)) => cause,
        _ if again => Some(Cause::DuplicateLabel),
        _ => cause,
    }
}

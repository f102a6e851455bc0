//! What the operands of a line mean.
ghost use Rattle.std.specs.Prelude.{◌≡◌, ◌++◌, [], IfOk, List, map};
ghost use Rattle.std.specs.Result.{result_unwrap_or};
ghost use Rattle.v8_formats.specs.Spelling.{spelling};
ghost use Rattle.sbx_directives.specs.Data.{data_of};
ghost use Rattle.sbx_asm.specs.Items.{Item};
ghost use Rattle.sbx_asm.specs.Addresses.{code_address};
ghost use Rattle.sbx_asm.specs.Rules.{Values, acts, value_fault_of, syntax_fault_of};
ghost use Rattle.sbx_asm.specs.Images.{words_at};
ghost use Rattle.sbx_asm.specs.Kept.{worth};

use crate::reading::Line;
use crate::scope::Scope;
use crate::table::Table;
use sbx_directives::{DataFault, Directive, Statement, Width, push_values};
use std::alloc::AllocError;
use v8_formats::{Instr, encode};
use v8_syntax::{SyntaxFault, parse_instr};

/// Adds the bytes of a line's values of a width, none where these have a fault.
pub fn push_line_values(
    bytes: &mut Vec<u8>,
    table: &Table<'_>,
    width: Width,
    line: &Line<'_, '_>,
) -> Result<(), AllocError>
    ensures { IfOk result
        (λ _. bytes.new.items ≡
        bytes.old.items ++ result_unwrap_or (data_of (worth table.now) line.now.bytes width line.now.tokens) []) }
{
    let scope = Scope { table, here: 0 };
    match push_values(width, &scope, line.bytes(), line.tokens(), bytes) {
        Ok(()) => Ok(()),
        Err(DataFault::Memory(want)) => Err(AllocError::from(want)),
        Err(_) => Ok(()),
    }
}

/// Why the values of a line have no bytes, where it has values and they have none.
pub fn value_fault(table: &Table<'_>, line: &Line<'_, '_>) -> Option<DataFault>
    ensures { result ≡ value_fault_of (worth table.now) line.now }
{
    match line.said() {
        Ok(Statement::Directive(Directive::Values(width, _))) => {
            let scope = Scope { table, here: 0 };
            sbx_directives::value_fault(width, &scope, line.bytes(), line.tokens())
        }
        _ => None,
    }
}

/// Whether a line acts, where it is known why its values have no bytes.
pub fn acts(line: &Line<'_, '_>, fault: Option<DataFault>) -> bool
    ensures { (values : Values) → fault ≡ value_fault_of values line.now → result ≡ acts values line.now }
{
    matches!(line.said(), Err(_) | Ok(Statement::Instruction))
        || matches!(fault, Some(DataFault::UnknownSymbol))
}

/// Adds the words of some instructions.
fn push_spelled(words: &mut Vec<u32>, instructions: &[Instr]) -> Result<(), AllocError>
    ensures { IfOk result (λ _. words.new.items ≡ words.old.items ++ map spelling instructions.now) }
{
    for instruction in instructions {
        words.push(encode(instruction))?;
    }
    Ok(())
}

/// Adds the words of a line at an address, if it is an instruction, or tells why it has none.
pub fn push_words(
    words: &mut Vec<u32>,
    table: &Table<'_>,
    here: u32,
    line: &Line<'_, '_>,
) -> Result<Option<SyntaxFault>, AllocError>
    ensures { IfOk result (λ fault. (before after : List Item) → here ≡ code_address before →
        (fault ≡ syntax_fault_of (worth table.now) before line.now)
        × (words.new.items ≡ words.old.items ++ words_at (worth table.now) before line.now after)) }
{
    match line.said() {
        Ok(Statement::Instruction) => {
            let tokens = line.tokens();
            let scope = Scope { table, here };
            match parse_instr(line.bytes(), tokens, &scope) {
                Ok(instructions) => {
                    push_spelled(words, instructions.as_slice())?;
                    Ok(None)
                }
                Err(fault) => Ok(Some(fault)),
            }
        }
        _ => Ok(None),
    }
}

// The values of a data directive as bytes.
ghost use Rattle.std.specs.Prelude.{◌≡◌, ◌++◌, ℕ, List, Option, pos, negsuc, ◌+ℤ◌, ◌≤ℤ◌, length, take, OnOk, OnErr};
ghost use Rattle.std.specs.Prelude.{true};
ghost use Rattle.std.specs.List.{flat_map, list_all};
ghost use Rattle.std.specs.Option.{option_map};
ghost use Rattle.std.specs.Result.{result_err};
ghost use Rattle.sbx_directives.specs.Directives.{behind};
ghost use Rattle.sbx_directives.specs.Data.{bytes_of_width, fits, spelled, value_of, is_fit, bytes_of, misfit, data_of};
ghost use Rattle.sbx_directives.specs.Data.{Gives};

use crate::directive::{Width, text_of};
use crate::fault::DataFault;
use crate::operand::{Operand, next_operand, operands};
use crate::statement::value_count;
use sbx_text::Token;
use std::alloc::AllocError;
use v8_syntax::{Symbols, of_bits};

/// How many bytes a value takes.
pub fn byte_len(width: Width) -> usize
    ensures { result ≡ bytes_of_width width }
{
    match width {
        Width::Byte => 1,
        Width::Half => 2,
        Width::Word => 4,
    }
}

fn fits(width: Width, value: i128) -> bool
    ensures { result ≡ fits width value }
{
    match width {
        Width::Byte => -0x80 <= value && value <= 0xff,
        Width::Half => -0x8000 <= value && value <= 0xffff,
        Width::Word => -0x8000_0000 <= value && value <= 0xffff_ffff,
    }
}

/// A symbol and a number.
fn moved<S: Symbols>(symbols: &S, name: &[u8], by: i128) -> Option<i128>
    requires low { negsuc 18446744073709551615 ≤ℤ by }
    requires high { by ≤ℤ pos 18446744073709551615 }
    ensures { result ≡ option_map (λ v. pos v +ℤ by) (S.values symbols.now name.now) }
{
    let word = symbols.value(name)?;
    Some(i128::from(word) + by)
}

/// The whole number that an operand is, if it is an expression and its symbol is known.
fn value_of<S: Symbols>(symbols: &S, line: &[u8], operand: Operand) -> Option<i128>
    ensures { result ≡ value_of (S.values symbols.now) line.now operand }
{
    match operand {
        Operand::Number(number) => Some(number),
        Operand::Name(name) => Some(i128::from(symbols.value(text_of(line, name))?)),
        Operand::Sum(name, number) => moved(symbols, text_of(line, name), i128::from(number)),
        Operand::Difference(name, number) => moved(
            symbols,
            text_of(line, name),
            -i128::from(number),
        ),
        _ => None,
    }
}

/// Why the values behind a first token have no bytes, where they are expressions: one is unknown, or else one does not
/// fit.
fn misfit<S: Symbols>(width: Width, symbols: &S, line: &[u8], tokens: &[Token]) -> Option<DataFault>
    ensures { result ≡ misfit (S.values symbols.now) line.now width (behind line.now tokens.now) }
{
    let mut fault = None;
    let mut rest = tokens;
    while let Some((operand, after)) = next_operand(line, rest) {
        match value_of(symbols, line, operand) {
            None => return Some(DataFault::UnknownSymbol),
            Some(value) if fits(width, value) => {}
            Some(_) => fault = Some(DataFault::Malformed),
        }
        rest = after;
    }
    fault
}

/// Why the values of a data directive have no bytes, where they have none. `tokens` begin with the directive's name.
///
/// `Malformed` where they are no list of expressions; else `UnknownSymbol`; else `Malformed` where a value does not
/// fit.
#[tactic(auto, unfolding(crate::specs::Data::listed))]
pub fn value_fault<S: Symbols>(
    width: Width,
    symbols: &S,
    line: &[u8],
    tokens: &[Token],
) -> Option<DataFault>
    ensures { result ≡ result_err (data_of (S.values symbols.now) line.now width tokens.now) }
{
    let values = operands(tokens);
    match value_count(line, values) {
        Some(_) => misfit(width, symbols, line, values),
        None => Some(DataFault::Malformed),
    }
}

fn push_spelled(width: Width, value: i128, out: &mut Vec<u8>) -> Result<(), AllocError>
    requires { fits width value ≡ true }
    ensures done { OnOk result (out.new.items ≡ out.old.items ++ spelled width value) }
    ensures kept { OnErr result (out.new.items ≡ out.old.items) }
{
    match width {
        Width::Byte => out.extend_from_slice(&(of_bits(0x100, value) as u8).to_be_bytes()),
        Width::Half => out.extend_from_slice(&(of_bits(0x1_0000, value) as u16).to_be_bytes()),
        Width::Word => out.extend_from_slice(&(of_bits(0x1_0000_0000, value) as u32).to_be_bytes()),
    }
}

/// Appends the bytes of a value that fits.
fn push_value<S: Symbols>(
    width: Width,
    symbols: &S,
    line: &[u8],
    operand: Operand,
    out: &mut Vec<u8>,
) -> Result<(), AllocError>
    requires { is_fit (S.values symbols.now) line.now width operand ≡ true }
    ensures done { OnOk result
        (out.new.items ≡ out.old.items ++ bytes_of (S.values symbols.now) line.now width operand) }
    ensures kept { OnErr result (out.new.items ≡ out.old.items) }
{
    match value_of(symbols, line, operand) {
        Some(value) => push_spelled(width, value, out),
        None => Ok(()),
    }
}

/// Appends the bytes of the values behind a first token, where all fit. After a fault some of them are there.
fn push_all<S: Symbols>(
    width: Width,
    symbols: &S,
    line: &[u8],
    tokens: &[Token],
    out: &mut Vec<u8>,
) -> Result<(), AllocError>
    requires { list_all (is_fit (S.values symbols.now) line.now width) (behind line.now tokens.now) ≡ true }
    ensures done { OnOk result
        (out.new.items ≡
        out.old.items ++ flat_map (bytes_of (S.values symbols.now) line.now width) (behind line.now tokens.now)) }
    ensures kept { OnErr result (take (length out.old.items) out.new.items ≡ out.old.items) }
{
    let mut rest = tokens;
    while let Some((operand, after)) = next_operand(line, rest) {
        push_value(width, symbols, line, operand, out)?;
        rest = after;
    }
    Ok(())
}

/// Appends the values of a data directive, the most significant byte of each first. `tokens` begin with the directive's
/// name.
///
/// # Errors
/// `Malformed` where they are no list of expressions; else `UnknownSymbol`; else `Malformed` where a value does not
/// fit. `Memory` may come in the place of any answer. After an error `out` is as before.
pub fn push_values<S: Symbols>(
    width: Width,
    symbols: &S,
    line: &[u8],
    tokens: &[Token],
    out: &mut Vec<u8>,
) -> Result<(), DataFault>
    ensures { Gives result out.old.items out.new.items (data_of (S.values symbols.now) line.now width tokens.now) }
{
    if let Some(fault) = value_fault(width, symbols, line, tokens) {
        return Err(fault);
    }
    let before = out.len();
    match push_all(width, symbols, line, operands(tokens), out) {
        Ok(()) => Ok(()),
        Err(error) => {
            out.truncate(before);
            Err(DataFault::from(error))
        }
    }
}

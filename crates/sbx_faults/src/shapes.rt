//! What the rules ask of a word whatever is known before it.
ghost use Rattle.std.specs.Prelude.{◌≡◌, ◌<◌, ◌⊎◌, ◌↔◌, IsTrue};
ghost use Rattle.v8_formats.specs.Table.{IsCanonical, meaning};
ghost use Rattle.sbx_rules.specs.Places.{ends_run, is_exit, service_asked};
ghost use Rattle.sbx_rules.specs.Rules.{enters_well, is_declared, is_frame_size, is_minus, is_save_of, is_undefined};
ghost use Rattle.sbx_rules.specs.Rules.{suits};

use crate::kinds::is_framed;
use sbx_image::{Function, Kind, Services};
use sbx_rules::{declares, service_of};
use v8_formats::{Instr, Operand, encode};
use v8_meaning::{Operation, is_ret};
use v8_word::Reg;

fn is_undefined(instr: &Instr) -> bool
    ensures { result ≡ is_undefined instr.now }
{
    matches!(instr, Instr::Undefined(_))
}

/// Whether the word is the instruction's own, with no unused bit set.
fn spells(instr: &Instr, word: u32) -> bool
    requires meant { instr.now ≡ meaning word }
    ensures unused { IsTrue result ↔ IsCanonical word }
{
    encode(instr) == word
}

/// Whether a word, of which this is the instruction, is undefined or has an unused bit set.
pub fn is_no_instruction(instr: &Instr, word: u32) -> bool
    requires { instr.now ≡ meaning word }
    ensures { IsTrue result ↔ (IsTrue (is_undefined (meaning word)) ⊎ (IsCanonical word → ⊥)) }
{
    is_undefined(instr) || !spells(instr, word)
}

fn is_minus(frame: u32, operand2: Operand) -> bool
    requires some { 0 < frame }
    ensures { result ≡ is_minus frame operand2 }
{
    match operand2 {
        Operand::Immediate(word) => word == 0u32.wrapping_sub(frame),
        Operand::Register(_) => false,
    }
}

fn is_frame_size(frame: u32) -> bool
    ensures { result ≡ is_frame_size frame }
{
    64 <= frame && frame <= 4_096 && frame % 8 == 0
}

/// Whether a function begins as its kind asks: a framed one with the SAVE of its frame, a leaf without a frame.
pub fn enters_well(function: &Function, operation: &Operation) -> bool
    ensures { result ≡ enters_well function.now operation.now }
{
    match function.kind {
        Kind::Framed => match operation {
            Operation::Save(fields) => {
                is_frame_size(function.frame)
                    && fields.rd == Reg::SP
                    && fields.rs1 == Reg::SP
                    && is_minus(function.frame, fields.operand2)
            }
            _ => false,
        },
        Kind::Leaf => function.frame == 0,
    }
}

/// Whether a function of that kind may have the operation: a leaf returns by `retl` and calls nothing, a framed one by
/// `ret`.
pub fn suits(kind: Kind, operation: &Operation) -> bool
    ensures { result ≡ suits kind operation.now }
{
    match operation {
        Operation::JumpAndLink(fields) => is_framed(kind) == is_ret(fields),
        Operation::Call(_) => is_framed(kind),
        _ => true,
    }
}

/// The service that an operation asks for.
pub fn service_asked(operation: &Operation) -> Option<u32>
    ensures { result ≡ service_asked operation.now }
{
    match operation {
        Operation::TrapOnCondition(trap) => service_of(trap),
        _ => None,
    }
}

/// `ta 0`.
pub fn ends_run(operation: &Operation) -> bool
    ensures { result ≡ ends_run operation.now }
{
    matches!(service_asked(operation), Some(0))
}

/// Whether the services hold the one that an operation asks for.
pub fn is_declared(services: Services, operation: &Operation) -> bool
    ensures { result ≡ is_declared services (service_asked operation.now) }
{
    match service_asked(operation) {
        Some(number) => declares(services, number),
        None => true,
    }
}

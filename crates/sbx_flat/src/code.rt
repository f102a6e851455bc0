//! What the words of a code ask for.
ghost use Rattle.std.specs.Prelude.{◌≡◌, ◌≤◌, List};
ghost use Rattle.sbx_flat.specs.Effects.{declares, service_in, service_of};
ghost use Rattle.sbx_flat.specs.Runs.{weight_of};
ghost use Rattle.sbx_flat.specs.Turns.{asked, word_at};

use bitflags::Flags;
use sbx_image::Services;
use v8_formats::{Operand, Trap, decode};
use v8_map::CODE_START;
use v8_meaning::{Operation, is_service_call, operation_of};

/// The code word at an address, none outside the code.
#[tactic(auto, unfolding(crate::specs::Turns::word_at))]
pub fn word_at(words: &[u32], address: u32) -> Option<u32>
    ensures { result ≡ word_at words.now address }
{
    if address < CODE_START || address % 4 != 0 {
        return None;
    }
    words.get(((address - CODE_START) / 4) as usize).copied()
}

/// What a word asks for.
pub fn asked(word: u32) -> Operation
    ensures { result ≡ asked word }
{
    operation_of(&decode(word))
}

/// The number of the service that a trap instruction calls, none where it is of another form than `ta n`.
pub fn service_of(trap: &Trap) -> Option<u32>
    ensures { result ≡ service_of trap.now }
{
    if !is_service_call(trap) {
        return None;
    }
    match &trap.operand2 {
        Operand::Immediate(number) => Some(*number),
        Operand::Register(_) => None,
    }
}

/// Whether the services have the one of a number: 0 exits, 1 gets a byte, 2 puts one.
pub fn declares(services: Services, number: u32) -> bool
    ensures { result ≡ declares services number }
{
    match number {
        0 => services.contains(Services::EXIT),
        1 => services.contains(Services::GET),
        2 => services.contains(Services::PUT),
        _ => false,
    }
}

/// The turns that an operation counts, 1 to 25, with those of its handler or its vector.
pub fn weight_of(operation: &Operation) -> u64
    ensures value { result ≡ weight_of operation.now }
    ensures bound { result ≤ 25 }
{
    match operation {
        Operation::Save(_) | Operation::Restore(_) => 25,
        Operation::TrapOnCondition(trap) => match service_of(trap) {
            None => 1,
            Some(0) => 3,
            Some(_) => 5,
        },
        _ => 1,
    }
}

//! Registers that hold other words than was told.
ghost use Rattle.std.specs.Prelude.{◌≡◌, ◌<◌, ◌++◌, OnOk, string_bytes};
ghost use Rattle.inspect_states.specs.Registers.{change_text, changes_text, copied, entered, group_text, register_text};

use std::alloc::AllocError;
use v8_core::Machine;
use v8_mmu::Bus;
use v8_windows::RegFile;
use v8_word::Reg;

/// The letter of a group of eight registers.
fn group_text(group: u8) -> &'static str
    ensures { result.now ≡ group_text group }
{
    match group {
        0 => "g",
        1 => "o",
        2 => "l",
        _ => "i",
    }
}

/// Pushes a register by its name, and its word.
fn push_register(line: &mut String, number: u8, word: u32) -> Result<(), AllocError>
    ensures { OnOk result (string_bytes line.new ≡ string_bytes line.old ++ register_text number word) }
{
    let (group, place) = (group_text(number / 8), number % 8);
    write!(line, " {group}{place}={word:08X}")
}

/// Pushes a register of a machine's current window, where it holds another word than is known.
fn push_change<const N: usize, B: Bus>(
    line: &mut String,
    known: &RegFile<N>,
    machine: &Machine<N, B>,
    register: Reg,
) -> Result<(), AllocError>
    ensures { OnOk result
        (string_bytes line.new ≡ string_bytes line.old ++ change_text N known.now machine.now.cpu.regs register) }
{
    let word = machine.reg(register);
    if known.get(register) == word {
        return Ok(());
    }
    push_register(line, register.number(), word)
}

/// Pushes the registers of a machine's current window that hold other words than is known.
pub fn push_changes<const N: usize, B: Bus>(
    line: &mut String,
    known: &RegFile<N>,
    machine: &Machine<N, B>,
) -> Result<(), AllocError>
    ensures { OnOk result
        (string_bytes line.new ≡ string_bytes line.old ++ changes_text N known.now machine.now.cpu.regs 32) }
{
    for number in 0..32 {
        let Some(register) = Reg::new(number) else {
            return Ok(());
        };
        push_change(line, known, machine, register)?;
    }
    Ok(())
}

/// Goes to a window, which there is.
pub fn enter<const N: usize>(known: &mut RegFile<N>, window: u8)
    ensures { known.new ≡ entered N known.old window }
{
    let _ = known.set_cwp(window);
}

/// Takes over the registers of a machine's current window.
pub fn copy_window<const N: usize, B: Bus>(known: &mut RegFile<N>, machine: &Machine<N, B>)
    ensures { known.new ≡ copied N known.old machine.now.cpu.regs 32 }
{
    for number in 0..32 {
        let Some(register) = Reg::new(number) else {
            return;
        };
        known.set(register, machine.reg(register));
    }
}

//! Registers and state registers that hold other words than was told.
ghost use Rattle.std.specs.Prelude.{◌<◌, ◌≤◌};

use inspect_states::ShownState;
use std::alloc::AllocError;
use v8_core::Machine;
use v8_mmu::Bus;
use v8_windows::RegFile;
use v8_word::Reg;

/// The number of a register's place: eight globals, then sixteen registers a window, whose outs are the ins of the
/// window below.
fn place_of<const N: usize>(number: u8, window: u8) -> u32
    requires windows { (4 ≤ N) × (N ≤ 32) }
    requires register { number < 32 }
    requires window { window < 32 }
{
    let (number, window) = (u32::from(number), u32::from(window));
    match number {
        0..8 => number,
        8..24 => 16 * window + number,
        _ => 16 * ((window + 1) % N as u32) + number - 16,
    }
}

/// The word of a register of a machine's window, where it is another than is known, which takes it over.
fn changed<const N: usize, B: Bus>(
    known: &mut RegFile<N>,
    machine: &Machine<N, B>,
    register: Reg,
) -> Option<u32> {
    let word = machine.reg(register);
    if known.get(register) == word {
        return None;
    }
    known.set(register, word);
    Some(word)
}

/// Pushes the registers of a machine's window, a letter before each and what ends it behind it, that hold other words
/// than is known.
pub fn push_registers<const N: usize, B: Bus>(
    out: &mut String,
    known: &mut RegFile<N>,
    machine: &Machine<N, B>,
) -> Result<(), AllocError>
    requires { (4 ≤ N) × (N ≤ 32) }
{
    let window = (machine.psr() % 32) as u8;
    let _ = known.set_cwp(window);
    for number in 0..32 {
        let Some(register) = Reg::new(number) else {
            return Ok(());
        };
        match changed(known, machine, register) {
            Some(word) => {
                let place = place_of::<N>(number, window);
                write!(out, "r{place:03X}{word:X}")?;
            }
            None => {}
        }
    }
    Ok(())
}

/// Pushes the lines of the registers that hold other words than 0 before the first turn.
pub fn push_boot_registers<const N: usize, B: Bus>(
    out: &mut String,
    known: &mut RegFile<N>,
    machine: &Machine<N, B>,
) -> Result<(), AllocError>
    requires { (4 ≤ N) × (N ≤ 32) }
{
    for number in 0..32 {
        let Some(register) = Reg::new(number) else {
            return Ok(());
        };
        match changed(known, machine, register) {
            Some(word) => {
                let place = place_of::<N>(number, 0);
                writeln!(out, "g{place:X} {word:X}")?;
            }
            None => {}
        }
    }
    Ok(())
}

/// Pushes a word behind a letter, where it is another than before.
fn push_change(out: &mut String, letter: char, before: u32, now: u32) -> Result<(), AllocError> {
    if before == now {
        Ok(())
    } else {
        write!(out, "{letter}{now:X}")
    }
}

/// Pushes PSR, WIM, Y and the fault status, where they changed.
pub fn push_state(
    out: &mut String,
    before: &ShownState,
    now: &ShownState,
) -> Result<(), AllocError> {
    push_change(out, 'q', before.psr, now.psr)?;
    push_change(out, 'w', before.wim, now.wim)?;
    push_change(out, 'y', before.y, now.y)?;
    push_change(out, 'f', before.fault, now.fault)
}

//! A run of an image, told on a count of windows that is a number.
ghost use Rattle.std.specs.Prelude.{◌≡◌, ◌≤◌};

use crate::teller::PageTeller;
use inspect_states::{machine_of, memory_of, regs, run_fault, shown_of};
use sbx_counts::on_windows;
use sbx_image::Image;
use sbx_raw::{RunFault, SlicePort, begun};
use std::alloc::{AllocError, Global};
use v8_core::Machine;
use v8_memory::Memory;
use v8_mmu::{Bus, MmuRegs};

/// What is told of a run: the lines before those of its turns, and these.
#[derive(Drop)]
pub struct RunLines {
    pub head: String,
    pub turns: String,
}

/// Whether the device has stopped a machine, or it is in error mode.
fn is_over<const N: usize, B: Bus>(machine: &Machine<N, B>) -> bool {
    machine.bus().stop().is_some() || machine.error_mode().is_some()
}

/// Makes a turn, and pushes its line. What the device has put out is forgotten then.
fn push_turn<const N: usize>(
    machine: &mut Machine<N, Memory<SlicePort<'_>>>,
    regs: &MmuRegs,
    teller: &mut PageTeller<N>,
    out: &mut String,
) -> Result<(), RunFault>
    requires { (4 ≤ N) × (N ≤ 32) }
{
    let turn = match machine.step() {
        Ok(turn) => turn,
        Err(fault) => return Err(run_fault(fault)),
    };
    teller.push_turn(out, machine, regs, &turn, machine.bus().port().output())?;
    machine.port_mut().forget();
    Ok(())
}

/// Makes turns until the machine is over, but at most so many, pushes the line of each, and gives how many there were.
fn push_turns<const N: usize>(
    machine: &mut Machine<N, Memory<SlicePort<'_>>>,
    regs: &MmuRegs,
    limit: u64,
    teller: &mut PageTeller<N>,
    out: &mut String,
) -> Result<u64, RunFault>
    requires { (4 ≤ N) × (N ≤ 32) }
{
    for done in 0..limit {
        if is_over(machine) {
            return Ok(done);
        }
        push_turn(machine, regs, teller, out)?;
    }
    Ok(limit)
}

/// Takes in where a machine goes on, unless it is over, and tells whether it is.
fn is_ended<const N: usize, B: Bus>(
    machine: &Machine<N, B>,
    teller: &mut PageTeller<N>,
) -> Result<bool, AllocError> {
    if is_over(machine) {
        return Ok(true);
    }
    teller.named.take_next(&shown_of(machine))?;
    Ok(false)
}

/// Runs a machine to an end, but at most so many turns, and tells its run.
fn told<const N: usize>(
    alloc: Global,
    machine: &mut Machine<N, Memory<SlicePort<'_>>>,
    regs: &MmuRegs,
    limit: u64,
) -> Result<RunLines, RunFault>
    requires { (4 ≤ N) × (N ≤ 32) }
{
    let mut teller = PageTeller::new(alloc, machine)?;
    let (mut head, mut turns) = (String::new(alloc), String::new(alloc));
    teller.push_boot(&mut head, machine)?;
    let count = push_turns(machine, regs, limit, &mut teller, &mut turns)?;
    let ended = u8::from(is_ended(machine, &mut teller)?);
    writeln!(head, "n{N} {count} {limit} {ended}")?;
    teller.named.push(alloc, &mut head, machine, regs)?;
    Ok(RunLines { head, turns })
}

/// The run on `N` windows, which are as many as the number says.
fn told_on<const N: usize>(
    alloc: Global,
    windows: u32,
    image: &Image,
    input: &[u8],
    limit: u64,
) -> Result<RunLines, RunFault>
    requires range { (4 ≤ N) × (N ≤ 32) }
    requires same { windows ≡ N }
{
    let _ = windows;
    let board = begun::<N>(alloc, image, input)?;
    let memory = memory_of(alloc, &board, input)?;
    let regs = regs();
    let mut machine = machine_of::<N, _>(memory, &regs);
    told(alloc, &mut machine, &regs, limit)
}

/// Runs an image on an input, on so many windows, 4 to 32, to an end, but at most so many turns, and tells its run.
/// Each count is a machine of its own.
pub fn run_lines(
    alloc: Global,
    windows: u32,
    image: &Image,
    input: &[u8],
    limit: u64,
) -> Result<RunLines, RunFault>
    requires { (4 ≤ windows) × (windows ≤ 32) }
{
    on_windows!(windows, told_on [] (alloc, windows, image, input, limit), 4 to 32)
}

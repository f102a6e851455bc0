//! The run of a machine of one's own, on a count of windows that is a number.
ghost use Rattle.std.specs.Prelude.{◌≡◌, ◌≤◌, IfErr, OnErr, OnOk};
ghost use Rattle.std.specs.Io.KnownBytes.{Appends};
ghost use Rattle.sbx_put.specs.Fronts.{WroteSome};
ghost use Rattle.inspect_start.specs.Starts.{IsFit};
ghost use Rattle.inspect_machine.specs.Changed.{WORDS, changes_text};
ghost use Rattle.inspect_machine.specs.Told.{IsOwnFault, Told};

use crate::bare::{machine_of, memory_of, mmu_of};
use crate::changed::push_changes;
use inspect_start::Start;
use inspect_states::{StateTeller, run_fault, tell_states};
use sbx_counts::on_windows;
use sbx_put::put_through;
use sbx_raw::RunFault;
use std::alloc::Global;
use std::io::Write;
use v8_mmu::Bus;

/// Writes a line for each word of RAM that is another than at first, through to the end.
fn tell_changes<B: Bus, W: Write>(
    alloc: Global,
    first: &B,
    now: &B,
    out: &mut W,
) -> Result<(), RunFault>
    ensures whole { OnOk result
        (Appends (W.contents out.old) (W.contents out.new)
        (changes_text (B.state first.now).held.ram (B.state now.now).held.ram WORDS)) }
    ensures part { OnErr result
        (WroteSome (W.contents out.old) (W.contents out.new)
        (changes_text (B.state first.now).held.ram (B.state now.now).held.ram WORDS)) }
    ensures fault { IfErr result IsOwnFault }
{
    let mut text = String::new(alloc);
    match push_changes(&mut text, first, now) {
        Ok(()) => {}
        Err(error) => return Err(RunFault::from(error)),
    }
    match put_through(out, text.as_bytes()) {
        Ok(()) => Ok(()),
        Err(_) => Err(RunFault::Writer),
    }
}

/// The run on `N` windows.
fn own_run<const N: usize, W: Write>(
    alloc: Global,
    start: &Start,
    limit: u64,
    out: &mut W,
) -> Result<(), RunFault>
    requires range { (4 ≤ N) × (N ≤ 32) }
    requires fit { IsFit N start.now }
    ensures { Told N start.now limit (W.contents out.old) (W.contents out.new) result }
{
    let first = memory_of(alloc, start.ram.as_slice())?;
    let known = memory_of(alloc, start.ram.as_slice())?;
    let memory = memory_of(alloc, start.ram.as_slice())?;
    let regs = mmu_of(&start.control);
    let mut machine = machine_of::<N, _>(memory, &regs, start);
    let mut teller = StateTeller::new(alloc, known);
    match tell_states(&mut machine, &regs, limit, &mut teller, out) {
        Ok(()) => tell_changes(alloc, &first, machine.bus(), out),
        Err(fault) => Err(run_fault(fault)),
    }
}

/// The run on `N` windows, which are as many as the number says.
#[tactic(auto, using(crate::proofs::Told::fit_same))]
fn machine_on<const N: usize, W: Write>(
    alloc: Global,
    windows: u32,
    start: &Start,
    limit: u64,
    out: &mut W,
) -> Result<(), RunFault>
    requires range { (4 ≤ N) × (N ≤ 32) }
    requires same { windows ≡ N }
    requires fit { IsFit windows start.now }
    ensures { Told windows start.now limit (W.contents out.old) (W.contents out.new) result }
{
    let _ = windows;
    own_run::<N, W>(alloc, start, limit, out)
}

/// Runs a machine of so many windows, 4 to 32, from a start, which isn't booted, until its device stops it or it is in
/// error mode, but at most so many turns, and writes a line of its states before the first turn, one for each, and one
/// behind the last, as `inspect_states::tell_states` does; then a line for each word of RAM that is another than the
/// start says. The device is that of `v8_memory`, with no input to give. Where the writer fails, or memory is refused,
/// it has the first bytes of such a text.
pub fn machine_windows<W: Write>(
    alloc: Global,
    windows: u32,
    start: &Start,
    limit: u64,
    out: &mut W,
) -> Result<(), RunFault>
    requires range { (4 ≤ windows) × (windows ≤ 32) }
    requires fit { IsFit windows start.now }
    ensures { Told windows start.now limit (W.contents out.old) (W.contents out.new) result }
{
    on_windows!(windows, machine_on [W] (alloc, windows, start, limit, out), 4 to 32)
}

//! A machine of one's own, whose states a model in Python told, which was written apart (tools/vectors/v8_machine.py).
ghost use Rattle.std.specs.Prelude.{◌≤◌};

use inspect_machine::machine_windows;
use inspect_start::read_start;
use std::alloc::Global;
use std::test::Fail;

/// Two words, tables that map them, and the ins of the window before window 0, which are its outs.
const FEWEST: &[u8] = b"window 3\n%i0 7\n\
    0x2000 0x82102005 0x81C02000 0x01000000\n0x1000 0x00000141\n0x1400 0x0000000E\ncontext_table 0x1000\npc 0x2000\nnpc 0x2004\n";

/// The same on 32 windows.
const MOST: &[u8] = b"window 31\n%i0 7\n\
    0x2000 0x82102005 0x81C02000 0x01000000\n0x1000 0x00000141\n0x1400 0x0000000E\ncontext_table 0x1000\npc 0x2000\nnpc 0x2004\n";

/// A word of RAM changes: the page's entry, which is marked.
const TOLD: &[u8] =
    b"0 00 00002000 00002004 - 00000080 00000000 00000000 00000000 00000000 -------- start o0=00000007\n\
    1 00 00002000 00002004 0 00000080 00000000 00000000 00000000 00000000 82102005 ran g1=00000005 e00001400=0000002E\n\
    2 00 00002004 00002008 0 00000080 00000000 00000000 00000000 00000000 81C02000 ran\n\
    2 00 00002008 00000000 - 00000080 00000000 00000000 00000000 00000000 -------- end\n\
    0x00001400 0x0000002E\n";

/// What is told of two turns.
fn told(alloc: Global, windows: u32, binary: &[u8], file: &[u8]) -> Result<Vec<u8>, Fail>
    requires { (4 ≤ windows) × (windows ≤ 32) }
{
    let start = read_start(alloc, windows, 0, binary, file)
        .ok()
        .ok_or("no start")?;
    let mut out = Vec::new(alloc);
    machine_windows(alloc, windows, &start, 2, &mut out)
        .ok()
        .ok_or("no run")?;
    Ok(out)
}

/// On the fewest windows.
#[test]
fn turns_are_told(rt: HostRuntime) -> Result<(), Fail> {
    let out = told(rt.alloc(), 4, b"", FEWEST)?;
    assert!(rt; out.as_slice() == TOLD);
    Ok(())
}

/// On the most windows, with all of RAM set.
#[test]
fn turns_are_told_of_all_of_ram(rt: HostRuntime) -> Result<(), Fail> {
    let binary = vec![in rt.alloc(); 0; 0x10_0000]?;
    let out = told(rt.alloc(), 32, binary.as_slice(), MOST)?;
    assert!(rt; out.as_slice() == TOLD);
    Ok(())
}

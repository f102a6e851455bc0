//! The lines of a start, one after the other.
ghost use Rattle.std.specs.Prelude.{◌≡◌, ◌≢◌, ℕ, ◌≤◌, IfOk, IfErr, MatchResult, List, Ok, Err, map, fold};
ghost use Rattle.want.specs.Wants.{refused};
ghost use Rattle.inspect_start.specs.Files.{IsFault, IsFirst, Spells, said, set};
ghost use Rattle.inspect_start.specs.Items.{Item, item_of, Gives};
ghost use Rattle.inspect_start.specs.Lines.{lines_of};
ghost use Rattle.inspect_start.specs.Starts.{IsFit};

use crate::fault::{StartCause, StartFault};
use crate::item::item_of;
use crate::lines::first_line;
use crate::start::Start;
use std::alloc::Global;
use want::Want;

/// Sets what a line says, and gives the window of the registers in the lines below.
fn take_line(
    alloc: Global,
    start: &mut Start,
    windows: u32,
    window: u8,
    line: &[u8],
) -> Result<u8, StartCause>
    requires windows { windows ≤ 32 }
    requires fit { IsFit windows start.old }
    ensures said { MatchResult result
        (λ next. (item : Item) × (item_of windows line.now ≡ Ok item)
        × (said next start.new ≡ set (said window start.old) item))
        (λ cause. cause ≢ StartCause.Memory refused → item_of windows line.now ≡ Err cause) }
    ensures fit { IsFit windows start.new }
{
    let item = item_of(alloc, windows, line)?;
    match start.set(windows, window, &item) {
        Ok(next) => Ok(next),
        Err(want) => Err(StartCause::Memory(want)),
    }
}

/// Takes the lines of a file, of which each holds in place of what was said before.
fn take_lines(alloc: Global, start: &mut Start, windows: u32, file: &[u8]) -> Result<(), StartFault>
    requires windows { windows ≤ 32 }
    requires fit { IsFit windows start.old }
    ensures said { MatchResult result
        (λ _. (items : List Item) × (next : ℕ) × (map (item_of windows) (lines_of file.now) ≡ map Ok items)
        × (said next start.new ≡ fold set (said 0 start.old) items))
        (λ fault. fault.cause ≢ StartCause.Memory refused → IsFirst windows file.now fault) }
    ensures fit { IsFit windows start.new }
{
    let mut window = 0u8;
    let mut number = 0u64;
    let mut rest = file;
    while rest.len() > 0 {
        let (line, after) = first_line(rest);
        number += 1;
        match take_line(alloc, start, windows, window, line) {
            Ok(next) => window = next,
            Err(cause) => {
                return Err(StartFault {
                    line: number,
                    cause,
                });
            }
        }
        rest = after;
    }
    Ok(())
}

/// The start of a machine of so many windows, 4 to 32: RAM has the bytes of a binary from an address on, and what the
/// lines of a file say. The fault is that of the first line that isn't right. Line 0 is told where the binary doesn't
/// fit into RAM.
pub fn read_start(
    alloc: Global,
    windows: u32,
    at: u64,
    binary: &[u8],
    file: &[u8],
) -> Result<Start, StartFault>
    requires { (4 ≤ windows) × (windows ≤ 32) }
    // The start is the one that the bytes spell, all of it.
    ensures spelled { IfOk result (Spells windows at binary.now file.now) }
    ensures fit { IfOk result (IsFit windows) }
    // What is told is what is wrong first, unless memory was refused.
    ensures fault { IfErr result (IsFault windows at binary.now file.now) }
{
    let mut start = match Start::new(alloc) {
        Ok(start) => start,
        Err(error) => {
            return Err(StartFault {
                line: 0,
                cause: StartCause::Memory(Want::from(error)),
            });
        }
    };
    if !start.put_bytes(at, binary) {
        return Err(StartFault {
            line: 0,
            cause: StartCause::Room,
        });
    }
    take_lines(alloc, &mut start, windows, file)?;
    Ok(start)
}

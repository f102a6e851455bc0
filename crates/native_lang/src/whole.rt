//! Runs of programs from their start.
ghost use Rattle.std.specs.Prelude.{◌≡◌, ◌-◌, ◌≤◌, ◌++◌, IfOk, length, replicate};
ghost use Rattle.native_lang.specs.Runs.{run, start, turn_of};
ghost use Rattle.native_lang.specs.World.{world_of};

use crate::program::NativeProgram;
use crate::run::{ProgramPoint, ProgramStep};
use crate::state::Interpreter;
use sbx_flat::Traffic;
use std::alloc::{AllocError, Global};

/// What a run came to, where it stands, and what it has made.
#[derive(Drop)]
pub struct ProgramRun<'a> {
    pub stepped: ProgramStep,
    pub point: ProgramPoint,
    pub machine: Interpreter<'a>,
}

/// The block at a start: these bytes, and zeros.
fn block_of(alloc: Global, first: &[u8]) -> Result<Vec<u8>, AllocError>
    requires { length first.now ≤ 524288 }
    ensures { IfOk result (λ block. block.items ≡ first.now ++ replicate (524288 - length first.now) 0) }
{
    let mut bytes = Vec::new(alloc);
    bytes.extend_from_slice(first)?;
    for _ in 0..0x80000 - first.len() {
        bytes.push(0)?;
    }
    Ok(bytes)
}

/// The machine at a start, on so many windows.
fn started<'a>(
    alloc: Global,
    program: &NativeProgram,
    windows: u32,
    input: &'a [u8],
) -> Result<Interpreter<'a>, AllocError>
    requires { 2 ≤ windows }
    ensures world { IfOk result (λ machine. world_of machine ≡ start program.now input.now) }
    ensures windows { IfOk result (λ machine. machine.windows ≡ windows) }
    ensures turns { IfOk result (λ machine. machine.traffic.turns ≡ 0) }
{
    Ok(Interpreter {
        variables: [0; 256],
        saved: Vec::new(alloc),
        block: block_of(alloc, program.data.as_slice())?,
        input,
        output: Vec::new(alloc),
        traffic: Traffic {
            windows: 1,
            overflows: 0,
            underflows: 0,
            turns: 0,
        },
        windows,
    })
}

/// Runs a program on an input from its start, so many steps or fewer.
pub fn run_program<'a>(
    alloc: Global,
    program: &NativeProgram,
    windows: u32,
    input: &'a [u8],
    limit: u32,
) -> Result<ProgramRun<'a>, AllocError>
    requires { 2 ≤ windows }
    ensures { IfOk result (λ ran. run program.now windows limit 0 0 (start program.now input.now) ≡
        turn_of ran.stepped ran.point (world_of ran.machine)) }
{
    let mut machine = started(alloc, program, windows, input)?;
    let mut point = ProgramPoint { label: 0, at: 0 };
    let stepped = machine.run(program, &mut point, limit)?;
    Ok(ProgramRun {
        stepped,
        point,
        machine,
    })
}

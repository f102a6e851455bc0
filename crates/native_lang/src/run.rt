//! Steps and runs of a program.
ghost use Rattle.std.specs.Prelude.{◌≡◌, ◌+◌, ◌*◌, ◌≤◌, ◌^◌, IfOk};
ghost use Rattle.native_lang.specs.Runs.{run, start, step, turn_of};
ghost use Rattle.native_lang.specs.World.{world_of};

use crate::program::{BlockEnd, NativeProgram, arm_of};
use crate::state::Interpreter;
use std::alloc::{AllocError, Global};

/// Where a run stands: before a statement of a block, or behind its last one.
#[derive(Clone, Copy)]
pub struct ProgramPoint {
    pub label: u32,
    pub at: usize,
}

/// What came of a step or a run: it goes on, it is over with an exit word, or it came to what has no meaning.
#[derive(Clone, Copy)]
pub enum ProgramStep {
    On,
    Over(u32),
    Lost,
}

impl Interpreter<'_> {
    /// A statement, or the end of a block.
    pub fn step(
        &mut self,
        program: &NativeProgram,
        point: &mut ProgramPoint,
    ) -> Result<ProgramStep, AllocError>
        requires { self.old.traffic.turns ≤ 2 ^ 62 }
        ensures step { IfOk result (λ stepped.
            step program.now self.old.windows point.old.label point.old.at (world_of self.old) ≡
            turn_of stepped point.new (world_of self.new)) }
        ensures windows { self.new.windows ≡ self.old.windows }
        ensures turns { self.new.traffic.turns ≤ self.old.traffic.turns + 65535 }
    {
        let Some(block) = program.blocks.get(point.label as usize) else {
            return Ok(ProgramStep::Lost);
        };
        if let Some(stmt) = block.statements.get(point.at) {
            if !self.act(stmt)? {
                return Ok(ProgramStep::Lost);
            }
            point.at += 1;
            return Ok(ProgramStep::On);
        }
        let label = match &block.end {
            BlockEnd::Goto(label) => *label,
            BlockEnd::If(e, first, second) => {
                if e.value(&self.variables) != 0 {
                    *first
                } else {
                    *second
                }
            }
            BlockEnd::Exit(e) => return Ok(ProgramStep::Over(e.value(&self.variables))),
            BlockEnd::Dispatch(x, arms) => {
                let Some(label) = arm_of(arms.as_slice(), self.variables[*x as usize]) else {
                    return Ok(ProgramStep::Lost);
                };
                label
            }
        };
        *point = ProgramPoint { label, at: 0 };
        Ok(ProgramStep::On)
    }

    /// So many steps, or fewer where the run is over before.
    #[tactic(auto, using(crate::proofs::Running::run_on))]
    pub fn run(
        &mut self,
        program: &NativeProgram,
        point: &mut ProgramPoint,
        limit: u32,
    ) -> Result<ProgramStep, AllocError>
        requires { self.old.traffic.turns ≤ 2 ^ 60 }
        ensures run { IfOk result (λ stepped.
            run program.now self.old.windows limit point.old.label point.old.at (world_of self.old) ≡
            turn_of stepped point.new (world_of self.new)) }
    {
        for k in 0..limit {
            match self.step(program, point)? {
                ProgramStep::On => {}
                ProgramStep::Over(word) => return Ok(ProgramStep::Over(word)),
                ProgramStep::Lost => return Ok(ProgramStep::Lost),
            }
        }
        Ok(ProgramStep::On)
    }
}

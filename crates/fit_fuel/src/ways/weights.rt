//! Weights of a block's words, in turns at worst.
use crate::task::FuelTask;
use crate::totals::called_by;
use fit_code::End;
use v8_formats::Instr;

/// What SAVE weighs, and RESTORE.
const WINDOW: i64 = 25;

/// What a block weighs, by its place in the function and what is known of what it calls, without what is spared. Before
/// the steps of the first one stands SAVE.
pub fn weight_of_block(setting: &FuelTask<'_>, place: usize) -> i64 {
    let (task, function) = (setting.task, setting.function);
    if place >= function.blocks.len() {
        return 0;
    }
    let block = &function.blocks[place];
    let mut weight: i64 = match block.end {
        End::Jump(to) if to == place.saturating_add(1) => 0,
        End::Jump(_) | End::Branch { .. } => 2,
        End::Return(_) if function.framed => 1 + WINDOW,
        End::Return(_) => 2,
        End::Exit => 3,
    };
    if (place == 0) & function.framed {
        weight = weight.saturating_add(WINDOW);
    }
    for step in block.steps.as_slice() {
        // a call weighs its slot and the callee's budget, too, where that is known
        let turns = match called_by(step, task.known) {
            Some(total) => total.budget.unwrap_or(0).saturating_add(2),
            None if step.callee.is_some() => 2,
            None if matches!(step.instr(), Instr::Ticc(_)) => 5,
            None => 1,
        };
        weight = weight.saturating_add(i64::try_from(turns).unwrap_or(i64::MAX));
    }
    if place < task.spared.len() {
        let spared = i64::try_from(task.spared[place]).unwrap_or(i64::MAX);
        weight = weight.saturating_sub(spared);
    }
    weight
}

//! What instructions take on a processor.
ghost use Rattle.std.specs.Prelude.{◌≡◌, ◌<◌, ◌^◌};
ghost use Rattle.inspect_cycles.specs.Cycles.{cycles_of, data_cycles, own_cycles, slot_cycles, trap_cycles};
ghost use Rattle.inspect_cycles.specs.Cycles.{without_services};

use sbx_flat::service_of;
use v8_alu::Op;
use v8_meaning::{Operation, Transfer};

/// Worst cases of a processor with its memory, in cycles. An operation's row is what it takes beside its fetch, the
/// walks of page tables and the trap, which have rows of their own.
#[derive(Clone, Copy)]
pub struct CycleTable {
    /// An instruction that is named by no other row, and one that is annulled.
    pub plain: u32,
    /// UMUL and SMUL.
    pub multiply: u32,
    /// UDIV and SDIV.
    pub divide: u32,
    /// A branch, or CALL.
    pub branch: u32,
    /// JMPL.
    pub jump: u32,
    /// With the access to data, as `store` and `exchange`.
    pub load: u32,
    pub store: u32,
    /// LDSTUB and SWAP.
    pub exchange: u32,
    /// What follows the trap of a SAVE whose window isn't free: the handler, and the SAVE again, whole.
    pub save: u32,
    /// The same of a RESTORE.
    pub restore: u32,
    /// What follows the trap of a service: its vector and what it does, whole.
    pub exit: u32,
    pub get: u32,
    pub put: u32,
    /// A trap, to the first instruction of its vector.
    pub trap: u32,
    /// The fetch of an instruction.
    pub fetch: u32,
    /// A walk of the page tables: one for each fetch, and one for each access to data.
    pub walk: u32,
}

impl CycleTable {
    /// The same where services take nothing behind their traps.
    pub fn without_services(&self) -> CycleTable
        ensures { result ≡ without_services self.now }
    {
        let mut table = *self;
        table.exit = 0;
        table.get = 0;
        table.put = 0;
        table
    }
}

/// What an operation takes beside its fetch, the walks and the trap.
fn own_cycles(table: &CycleTable, operation: &Operation) -> u32
    ensures { result ≡ own_cycles table.now operation.now }
{
    match operation {
        Operation::Compute(Op::Umul | Op::UmulCc | Op::Smul | Op::SmulCc, _) => table.multiply,
        Operation::Divide(_, _) => table.divide,
        Operation::Transfer(Transfer::Load(_), _) => table.load,
        Operation::Transfer(Transfer::Store(_), _) => table.store,
        Operation::Transfer(Transfer::Exchange(_), _) => table.exchange,
        Operation::Save(_) => table.save,
        Operation::Restore(_) => table.restore,
        Operation::Call(_) | Operation::BranchOnCondition(_) => table.branch,
        Operation::JumpAndLink(_) => table.jump,
        Operation::TrapOnCondition(trap) => match service_of(trap) {
            None => table.plain,
            Some(0) => table.exit,
            Some(1) => table.get,
            Some(_) => table.put,
        },
        _ => table.plain,
    }
}

/// What the walk for an operation's access to data takes; nothing where it has none.
fn data_cycles(table: &CycleTable, operation: &Operation) -> u32
    ensures { result ≡ data_cycles table.now operation.now }
{
    match operation {
        Operation::Transfer(_, _) => table.walk,
        _ => 0,
    }
}

/// What the trap of an operation takes; nothing where it has none.
fn trap_cycles(table: &CycleTable, operation: &Operation) -> u32
    ensures { result ≡ trap_cycles table.now operation.now }
{
    match operation {
        Operation::Save(_) | Operation::Restore(_) | Operation::TrapOnCondition(_) => table.trap,
        _ => 0,
    }
}

/// What an instruction that is annulled takes at most.
#[tactic(auto, unfolding(crate::specs::Cycles::slot_cycles))]
pub fn slot_cycles(table: &CycleTable) -> u64
    ensures is { result ≡ slot_cycles table.now }
    ensures few { result < 2 ^ 35 }
{
    u64::from(table.fetch) + u64::from(table.walk) + u64::from(table.plain)
}

/// What a step of an operation takes at most, in cycles.
#[tactic(auto, unfolding(crate::specs::Cycles::cycles_of))]
pub fn cycles_of(table: &CycleTable, operation: &Operation) -> u64
    ensures is { result ≡ cycles_of table.now operation.now }
    ensures few { result < 2 ^ 35 }
{
    let fetched = u64::from(table.fetch) + u64::from(table.walk);
    let own = u64::from(own_cycles(table, operation)) + u64::from(data_cycles(table, operation));
    fetched + own + u64::from(trap_cycles(table, operation))
}

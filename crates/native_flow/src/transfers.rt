//! How a block ends that a transfer of control ends, with its delay slot.
ghost use Rattle.std.specs.Prelude.{◌≡◌, ℕ, ◌+◌, ◌≤◌, Bool, IfOk, None};
ghost use Rattle.v8_meaning.specs.Operands.{target};
ghost use Rattle.v8_meaning.specs.declared.operation.Operation.TheVariants.{BranchOnCondition, Call, JumpAndLink};
ghost use Rattle.sbx_image.specs.Parts.{Parts};
ghost use Rattle.native_lang.specs.declared.program.BlockEnd.TheVariants.{Goto};
ghost use Rattle.native_ends.specs.Translations.{AsksFor, HasSlot, IsMadeSlot, Labelled, LiesIn, behind, turns_of};
ghost use Rattle.native_flow.specs.Labelling.{labels_of};
ghost use Rattle.native_flow.specs.Making.{IsMade, Stands};
ghost use Rattle.native_results.specs.Words.{is_straight};
ghost use Rattle.native_flow.specs.Transfers.{AddsSlot, IsAsking, IsBranched, IsDecided, IsDetaching, SlotThen};

use crate::blocks::{BlockMaking, counts_itself};
use crate::labels::Labels;
use native_lang::variables::{CALLED, TAKEN};
use native_lang::{BlockEnd, Expr, ProgramBlock};
use native_results::Statements;
use native_results::codes::condition;
use native_words::word;
use std::alloc::{AllocError, Global};
use v8_formats::{Branch, Cond, Three};
use v8_meaning::Operation;
use v8_word::Reg;

/// A transfer's address, and what its delay slot asks for.
#[derive(Clone, Copy)]
pub(crate) struct TransferPlace {
    pub address: u32,
    pub slot: Operation,
}

impl TransferPlace {
    /// The address behind the delay slot.
    pub fn behind(&self) -> u32
        ensures { result ≡ behind self.now.address }
    {
        self.address.wrapping_add(8)
    }

    /// The address so many words on.
    fn target(&self, displacement: u32) -> u32
        ensures { result ≡ target self.now.address displacement }
    {
        self.address.wrapping_add(displacement.wrapping_mul(4))
    }
}

/// A block that a branch ends, and the block of its delay slot where that is made on one way alone.
#[derive(Drop)]
pub(crate) struct Branched {
    pub block: ProgramBlock,
    pub edge: Option<ProgramBlock>,
}

/// Whether an operation neither transfers control nor asks for a service, as that of each delay slot of an accepted image.
fn is_straight(operation: &Operation) -> bool
    ensures { result ≡ is_straight operation.now }
{
    !matches!(
        operation,
        Operation::Call(_)
            | Operation::BranchOnCondition(_)
            | Operation::JumpAndLink(_)
            | Operation::TrapOnCondition(_)
    )
}

/// The turns of a return that aren't counted by its delay slot: its own, and that of the slot.
fn turns_with(slot: &Operation) -> u16
    ensures value { result ≡ 1 + turns_of slot.now }
    ensures few { result ≤ 5 }
{
    if counts_itself(slot) { 1 } else { 2 }
}

/// The statements of a delay slot.
fn make_slot(statements: &mut Statements, slot: &Operation) -> Result<(), AllocError>
    ensures { IfOk result (λ _. AddsSlot slot.now statements.old.list.items statements.new.list.items) }
{
    if !is_straight(slot) {
        return Ok(());
    }
    word(statements, slot)
}

/// The block of an annulled delay slot: it is made where the branch is taken.
fn edge_block(alloc: Global, slot: &Operation, target: u32) -> Result<ProgramBlock, AllocError>
    ensures made { IfOk result (λ edge. IsMadeSlot slot.now edge.statements.items) }
    ensures end { IfOk result (λ edge. edge.end ≡ Goto target) }
{
    let mut edge = BlockMaking::new(alloc);
    make_slot(&mut edge.statements, slot)?;
    edge.ended(BlockEnd::Goto(target))
}

/// The block with its delay slot, unless that is annulled.
fn with_slot(
    making: BlockMaking,
    slot: &Operation,
    annul: bool,
    end: BlockEnd,
) -> Result<ProgramBlock, AllocError>
    ensures made { IfOk result (λ block. SlotThen annul slot.now making block.statements.items) }
    ensures end { IfOk result (λ block. block.end ≡ end) }
{
    if annul {
        return making.ended(end);
    }
    let mut making = making;
    make_slot(&mut making.statements, slot)?;
    making.ended(end)
}

/// A branch that asks for its condition, with a delay slot that is made on one way alone.
fn detaching(
    making: BlockMaking,
    place: &TransferPlace,
    branch: &Branch,
    labels: &Labels,
    edge_label: u32,
) -> Result<Branched, AllocError>
    ensures { IfOk result (λ made. IsDetaching branch.now place.now.address place.now.slot
        (labels_of labels.now.starts.items) edge_label making made) }
{
    let alloc = making.statements.alloc;
    let asked = condition(alloc, branch.cond)?;
    let behind = labels.at(place.behind());
    let block = making.ended(BlockEnd::If(asked, edge_label, behind))?;
    let target = labels.at(place.target(branch.displacement));
    let edge = edge_block(alloc, &place.slot, target)?;
    Ok(Branched {
        block,
        edge: Some(edge),
    })
}

/// A branch that asks for its condition before its delay slot is made, which is made on both ways.
fn asking(
    making: BlockMaking,
    place: &TransferPlace,
    branch: &Branch,
    labels: &Labels,
) -> Result<Branched, AllocError>
    ensures { IfOk result (λ made. IsAsking branch.now place.now.address place.now.slot
        (labels_of labels.now.starts.items) making made) }
{
    let mut making = making;
    let asked = condition(making.statements.alloc, branch.cond)?;
    making.statements.set(TAKEN, asked)?;
    let target = labels.at(place.target(branch.displacement));
    let behind = labels.at(place.behind());
    let end = BlockEnd::If(Expr::Variable(TAKEN), target, behind);
    let block = with_slot(making, &place.slot, false, end)?;
    Ok(Branched { block, edge: None })
}

/// A branch that is taken always, or never.
fn decided(
    making: BlockMaking,
    place: &TransferPlace,
    annul: bool,
    label: u32,
) -> Result<Branched, AllocError>
    ensures { IfOk result (λ made. IsDecided annul place.now.slot label making made) }
{
    let block = with_slot(making, &place.slot, annul, BlockEnd::Goto(label))?;
    Ok(Branched { block, edge: None })
}

/// A block that a branch ends. The condition is asked before the delay slot is made, and the slot takes a turn also
/// where it is annulled (appendix B, "Branch on Integer Condition Codes Instructions").
pub(crate) fn branch(
    making: BlockMaking,
    place: &TransferPlace,
    branch: &Branch,
    labels: &Labels,
    edge_label: u32,
) -> Result<Branched, AllocError>
    ensures { IfOk result (λ made. (parts : Parts) (f start : ℕ) (some : Bool) →
        AsksFor parts place.now.address (BranchOnCondition branch.now) →
        HasSlot parts place.now.address place.now.slot →
        Stands parts (labels_of labels.now.starts.items) f start some place.now.address making →
        IsBranched parts (labels_of labels.now.starts.items) f start edge_label made) }
{
    let mut making = making;
    making.turns(2)?;
    match branch.cond {
        Cond::Always => {
            let target = labels.at(place.target(branch.displacement));
            decided(making, place, branch.annul, target)
        }
        Cond::Never => {
            let behind = labels.at(place.behind());
            decided(making, place, branch.annul, behind)
        }
        _ if branch.annul => detaching(making, place, branch, labels, edge_label),
        _ => asking(making, place, branch, labels),
    }
}

/// A block that a call ends: its address goes to %o7 before the delay slot is made.
pub(crate) fn call(
    making: BlockMaking,
    place: &TransferPlace,
    displacement: u32,
    labels: &Labels,
) -> Result<ProgramBlock, AllocError>
    ensures { IfOk result (λ made. (parts : Parts) (f start : ℕ) (some : Bool) →
        AsksFor parts place.now.address (Call displacement) → HasSlot parts place.now.address place.now.slot →
        Stands parts (labels_of labels.now.starts.items) f start some place.now.address making →
        IsMade parts (labels_of labels.now.starts.items) f start made None) }
{
    let mut making = making;
    making.turns(2)?;
    making
        .statements
        .assign(Reg::O7, Expr::Number(place.address))?;
    let entry = labels.at(place.target(displacement));
    with_slot(making, &place.slot, false, BlockEnd::Goto(entry))
}

/// A block that a return ends: it goes behind the call whose address the register holds before the delay slot is made.
/// A SAVE or a RESTORE there counts its own turns.
pub(crate) fn back(
    making: BlockMaking,
    place: &TransferPlace,
    jump: &Three,
    returns: u32,
) -> Result<ProgramBlock, AllocError>
    ensures { IfOk result (λ made. (parts : Parts) (labels : Labelled) (f start : ℕ) (some : Bool) →
        AsksFor parts place.now.address (JumpAndLink jump.now) → LiesIn parts f place.now.address →
        HasSlot parts place.now.address place.now.slot → returns ≡ labels.returns f →
        Stands parts labels f start some place.now.address making → IsMade parts labels f start made None) }
{
    let mut making = making;
    making.turns(turns_with(&place.slot))?;
    let caller = Expr::Variable(jump.rs1.number());
    making.statements.set(CALLED, caller)?;
    with_slot(making, &place.slot, false, BlockEnd::Goto(returns))
}

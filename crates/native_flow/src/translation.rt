//! The translation of an image, block by block.
ghost use Rattle.std.specs.Prelude.{◌≡◌, ℕ, ◌+◌, ◌<◌, ◌≤◌, Bool, true, false, length, IfOk, Some, slice_get, slice_index};
ghost use Rattle.sbx_image.specs.Order.{code_end};
ghost use Rattle.native_ends.specs.Translations.{AsksFor, HasSlot, LiesIn};
ghost use Rattle.native_flow.specs.Labelling.{AreStarts, labels_of};
ghost use Rattle.native_flow.specs.Making.{Passes, Stands};
ghost use Rattle.native_flow.specs.Translating.{Grows, IsBlockFrom, IsStretch, edges_from, is_closing};
ghost use Rattle.native_flow.specs.Translating.{is_exit, is_get, with_one};
ghost use Rattle.sbx_flat.specs.Effects.{service_of};
ghost use Rattle.sbx_flat.specs.Turns.{asked};

use crate::blocks::BlockMaking;
use crate::labels::{Labels, word_address, word_place};
use crate::transfers::{Branched, TransferPlace, back, branch, call};
use native_lang::{BlockEnd, ProgramBlock};
use sbx_flat::{asked, service_of};
use sbx_image::Image;
use std::alloc::{AllocError, Global};
use v8_formats::{Branch, Trap};
use v8_meaning::Operation;

/// Whether a block ends with an operation: a transfer of control, or the service that ends a run.
fn is_closing(operation: &Operation) -> bool
    ensures { result ≡ is_closing operation.now }
{
    match operation {
        Operation::BranchOnCondition(_) | Operation::Call(_) | Operation::JumpAndLink(_) => true,
        Operation::TrapOnCondition(trap) => service_of(trap) == Some(0),
        _ => false,
    }
}

/// Whether a trap asks for the next byte of the input.
fn is_get(trap: &Trap) -> bool
    ensures { result ≡ is_get (service_of trap.now) }
{
    service_of(trap) == Some(1)
}

/// A service that ends no run.
fn serve(making: &mut BlockMaking, trap: &Trap) -> Result<(), AllocError>
    ensures { IfOk result (λ _. is_exit (service_of trap.now) ≡ false →
        Passes (Operation.TrapOnCondition trap.now) making.old making.new) }
{
    if is_get(trap) {
        return making.get();
    }
    making.put()
}

/// A word that ends no block.
fn pass(making: &mut BlockMaking, operation: &Operation) -> Result<(), AllocError>
    ensures { IfOk result (λ _. is_closing operation.now ≡ false → Passes operation.now making.old making.new) }
{
    match operation {
        Operation::TrapOnCondition(trap) => serve(making, trap),
        _ => making.word(operation),
    }
}

/// What the word behind one asks for, if there is one.
fn slot_behind(words: &[u32], k: usize) -> Operation
    requires { k < length words.now }
    ensures { (word : ℕ) → slice_get words.now (k + 1) ≡ Some word → asked word ≡ result }
{
    match words.get(k + 1) {
        Some(word) => asked(*word),
        None => Operation::Nothing,
    }
}

/// The label of the next detached slot.
fn edge_label(image: &Image, labels: &Labels, many: usize) -> u32
    requires { many ≤ 65536 }
    ensures { result ≡ edges_from image.now labels.now.starts.items + many }
{
    labels.returns(image.function_count() as usize) + many as u32
}

/// A detached slot more, if there is one.
fn note_edge(edges: &mut Vec<ProgramBlock>, edge: Option<ProgramBlock>) -> Result<(), AllocError>
    ensures { IfOk result (λ _. edges.new.items ≡ with_one edges.old.items edge) }
{
    match edge {
        Some(edge) => {
            edges.push(edge)?;
            Ok(())
        }
        None => Ok(()),
    }
}

/// The block that a branch ends. A slot that is made where the branch is taken alone is detached.
fn branched(
    image: &Image,
    labels: &Labels,
    edges: &mut Vec<ProgramBlock>,
    making: BlockMaking,
    place: &TransferPlace,
    it: &Branch,
) -> Result<ProgramBlock, AllocError>
    requires { length edges.old.items ≤ 65536 }
    ensures block { IfOk result (λ block. (f start : ℕ) (some : Bool) →
        AsksFor image.now place.now.address (Operation.BranchOnCondition it.now) →
        HasSlot image.now place.now.address place.now.slot →
        Stands image.now (labels_of labels.now.starts.items) f start some place.now.address making →
        IsBlockFrom image.now labels.now.starts.items edges.new.items start block) }
    ensures grows { IfOk result (λ _. Grows edges.old.items edges.new.items) }
{
    let label = edge_label(image, labels, edges.as_slice().len());
    let Branched { block, edge } = branch(making, place, it, labels, label)?;
    note_edge(edges, edge)?;
    Ok(block)
}

/// The block that an operation ends.
fn closed(
    image: &Image,
    labels: &Labels,
    edges: &mut Vec<ProgramBlock>,
    making: BlockMaking,
    operation: &Operation,
    place: &TransferPlace,
    function: usize,
) -> Result<ProgramBlock, AllocError>
    requires few { length edges.old.items ≤ 65536 }
    requires number { function < 65536 }
    ensures block { IfOk result (λ block. (start : ℕ) (some : Bool) → is_closing operation.now ≡ true →
        AsksFor image.now place.now.address operation.now → HasSlot image.now place.now.address place.now.slot →
        LiesIn image.now function place.now.address →
        Stands image.now (labels_of labels.now.starts.items) function start some place.now.address making →
        IsBlockFrom image.now labels.now.starts.items edges.new.items start block) }
    ensures grows { IfOk result (λ _. Grows edges.old.items edges.new.items) }
{
    match operation {
        Operation::BranchOnCondition(it) => branched(image, labels, edges, making, place, it),
        Operation::Call(displacement) => call(making, place, *displacement, labels),
        Operation::JumpAndLink(jump) => back(making, place, jump, labels.returns(function)),
        Operation::TrapOnCondition(_) => making.exit(),
        // No other operation ends a block.
        _ => making.ended(BlockEnd::Goto(labels.nowhere())),
    }
}

/// Where the program's next block begins, if there is one.
fn next_start(starts: &[u32], number: usize) -> Option<u32>
    requires { number < length starts.now }
    ensures { result ≡ slice_get starts.now (number + 1) }
{
    starts.get(number + 1).copied()
}

/// The words of the program's block of a number: the first one, and the one behind the last.
fn words_of(image: &Image, labels: &Labels, number: usize) -> (usize, usize)
    requires number { number < length labels.now.starts.items }
    requires starts { AreStarts image.now (code_end image.now) labels.now.starts.items labels.now.owners.items }
    ensures { IsStretch image.now labels.now.starts.items labels.now.owners.items number result.0 result.1 }
{
    image.keeps_its_format();
    let starts = labels.starts.as_slice();
    let first = word_place(starts[number]);
    match next_start(starts, number) {
        Some(next) => (first, word_place(next)),
        None => (first, image.word_count() as usize),
    }
}

/// The block of a number, counted from 0.
pub(crate) fn block(
    alloc: Global,
    image: &Image,
    labels: &Labels,
    edges: &mut Vec<ProgramBlock>,
    number: usize,
) -> Result<ProgramBlock, AllocError>
    requires few { length edges.old.items ≤ 65536 }
    requires number { number < length labels.now.starts.items }
    requires starts { AreStarts image.now (code_end image.now) labels.now.starts.items labels.now.owners.items }
    ensures block { IfOk result (λ block. IsBlockFrom image.now labels.now.starts.items edges.new.items
        (slice_index labels.now.starts.items number) block) }
    ensures grows { IfOk result (λ _. Grows edges.old.items edges.new.items) }
{
    image.keeps_its_format();
    let (first, last) = words_of(image, labels, number);
    let function = labels.owners.as_slice()[number];
    let words = image.words();
    let mut making = BlockMaking::new(alloc);
    for k in first..last {
        let operation = asked(words[k]);
        if is_closing(&operation) {
            let place = TransferPlace {
                address: word_address(k),
                slot: slot_behind(words, k),
            };
            return closed(image, labels, edges, making, &operation, &place, function);
        }
        pass(&mut making, &operation)?;
    }
    making.ended(BlockEnd::Goto(labels.at(word_address(last))))
}

//! The program of an accepted image: the block where a run begins, those of the words, one that is never reached, those
//! where functions return, and the detached slots.
ghost use Rattle.std.specs.Prelude.{◌≡◌, ◌++◌, ◌∷◌, [], length, IfOk};
ghost use Rattle.sbx_image.specs.Order.{code_end};
ghost use Rattle.native_ends.specs.Answers.{RunsAs};
ghost use Rattle.native_ends.specs.Translations.{IsTranslation};
ghost use Rattle.native_flow.specs.Assembling.{AreFrom, AreReturning, IsBeginning};
ghost use Rattle.native_flow.specs.Labelling.{AreStarts, HasCalls};
ghost use Rattle.native_flow.specs.Pieces.{RunsInPieces};

use crate::data::data_of;
use crate::labels::Labels;
use crate::returns::returns_of;
use crate::translation::block;
use native_ends::laws::translations_run;
use native_lang::{BlockEnd, Expr, NativeProgram, ProgramBlock, Stmt};
use sbx_image::Image;
use sbx_verify::Accepted;
use std::alloc::{AllocError, Global};
use v8_map::{CODE_START, STACK_END};
use v8_word::Reg;

/// The bytes above a frame's base where its window is saved.
const SAVE_AREA: u32 = 64;

/// The block where a run begins: %sp is set.
fn beginning(alloc: Global, labels: &Labels) -> Result<ProgramBlock, AllocError>
    ensures { IfOk result (λ block. IsBeginning labels.now.starts.items block) }
{
    let mut statements = Vec::new(alloc);
    let stack_pointer = Expr::Number(STACK_END - SAVE_AREA);
    statements.push(Stmt::Set(Reg::SP.number(), stack_pointer))?;
    Ok(ProgramBlock {
        statements,
        end: BlockEnd::Goto(labels.at(CODE_START)),
    })
}

/// The blocks of the words, in the labels' order, and the detached slots.
fn blocks_of_words(
    alloc: Global,
    image: &Image,
    labels: &Labels,
    edges: &mut Vec<ProgramBlock>,
) -> Result<Vec<ProgramBlock>, AllocError>
    requires none { edges.old.items ≡ [] }
    requires starts { AreStarts image.now (code_end image.now) labels.now.starts.items labels.now.owners.items }
    ensures { IfOk result (λ blocks. AreFrom image.now labels.now.starts.items edges.new.items
        (length labels.now.starts.items) blocks.items) }
{
    let mut blocks = Vec::new(alloc);
    for number in 0..labels.starts.len() {
        blocks.push(block(alloc, image, labels, edges, number)?)?;
    }
    Ok(blocks)
}

/// The blocks where functions return.
fn returns_of_all(
    alloc: Global,
    image: &Image,
    labels: &Labels,
) -> Result<Vec<ProgramBlock>, AllocError>
    ensures { IfOk result (λ blocks. AreReturning image.now labels.now.starts.items labels.now.sites.items
        (length image.now.functions) blocks.items) }
{
    let mut blocks = Vec::new(alloc);
    for function in image.functions() {
        blocks.push(returns_of(alloc, labels, function.entry)?)?;
    }
    Ok(blocks)
}

/// What is never reached.
fn nowhere(alloc: Global) -> ProgramBlock {
    ProgramBlock {
        statements: Vec::new(alloc),
        end: BlockEnd::Exit(Expr::Number(0)),
    }
}

/// The blocks one behind the other.
fn in_order(
    alloc: Global,
    beginning: ProgramBlock,
    words: Vec<ProgramBlock>,
    returns: Vec<ProgramBlock>,
    edges: Vec<ProgramBlock>,
) -> Result<Vec<ProgramBlock>, AllocError>
    ensures { IfOk result (λ blocks. (between : ProgramBlock) ×
        (blocks.items ≡ beginning ∷ (words.items ++ (between ∷ (returns.items ++ edges.items))))) }
{
    let mut blocks = Vec::new(alloc);
    let mut words = words;
    let mut returns = returns;
    let mut edges = edges;
    blocks.push(beginning)?;
    blocks.append(&mut words)?;
    blocks.push(nowhere(alloc))?;
    blocks.append(&mut returns)?;
    blocks.append(&mut edges)?;
    Ok(blocks)
}

/// The program of an accepted image. It is a translation of the image, and runs as the image does: on each input and on
/// each machine of two windows or more it is over within so many steps for each turn of the budget, with the output, the
/// exit word and the window traffic of all flat runs. In pieces, whatever bytes come later, it has put out the first
/// bytes of that output, and all of it where it is over. The only fault is want of memory.
pub fn translate(alloc: Global, accepted: &Accepted) -> Result<NativeProgram, AllocError>
    ensures translation { IfOk result (λ program. IsTranslation accepted.now program) }
    ensures runs { IfOk result (λ program. RunsAs accepted.now program) }
    ensures pieces { IfOk result (λ program. RunsInPieces accepted.now program) }
{
    let image = accepted.image();
    image.keeps_its_format();
    translations_run();
    let labels = Labels::of(alloc, image)?;
    let mut edges = Vec::new(alloc);
    let words = blocks_of_words(alloc, image, &labels, &mut edges)?;
    let returns = returns_of_all(alloc, image, &labels)?;
    let blocks = in_order(alloc, beginning(alloc, &labels)?, words, returns, edges)?;
    Ok(NativeProgram {
        blocks,
        data: data_of(alloc, image)?,
    })
}

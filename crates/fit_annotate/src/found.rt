//! All annotations that can be found of a source.
use crate::additions::Annotated;
use crate::finding::AnnotationSearch;
use crate::lines::SourceLines;
use crate::program::ReadImage;
use fit_code::{Fault, Heap, Program};
use fit_kept::AnnotationRefusal;
use fit_ranges::Ranges;
use sbx_asm::assemble;
use sbx_domain::State;
use sbx_image::Image;
use std::alloc::Global;
use std::mem::replace;

/// The same as `add_found`, where the source has these lines, and its image is read into `read`.
fn add_read(
    found: &mut Annotated,
    source: &[u8],
    lines: &SourceLines,
    read: &mut ReadImage,
    image: &Image,
    state: &mut State,
) -> Result<(), Fault> {
    read.take(source, lines, image)?;
    let alloc = found.memory.alloc;
    let said = replace(&mut read.said, Vec::new(alloc));
    let ranges = Ranges::beside(alloc, &read.program, said)?;
    let mut finding = AnnotationSearch {
        image,
        program: &mut read.program,
        state,
        ranges,
        spared: replace(&mut read.spared, Vec::new(alloc)),
        totals: found.memory.repeat(None, image.functions().len()),
    };
    finding.look(lines.heads.as_slice(), lines.cells.as_slice(), found)
}

/// Adds what a source hasn't got of what is found of its program, by the image that the assembler makes of it; and
/// notes of what isn't shown.
///
/// # Errors
/// A word that has no place in a program, with its line; more cells of a block than an image may say; memory.
fn add_found(found: &mut Annotated, source: &[u8], image: &Image) -> Result<(), Fault> {
    let alloc = found.memory.alloc;
    let mut state = State::new(alloc)?;
    // nothing is read yet
    let mut lines = SourceLines {
        memory: found.memory,
        words: Vec::new(alloc),
        heads: Vec::new(alloc),
        cells: Vec::new(alloc),
    };
    lines.add_lines(source);
    let mut read = ReadImage {
        memory: lines.memory,
        program: Program {
            functions: Vec::new(alloc),
            objects: Vec::new(alloc),
            regions: Vec::new(alloc),
            files: Vec::new(alloc),
        },
        spared: Vec::new(alloc),
        said: Vec::new(alloc),
        blocks: Vec::new(alloc),
        slots: Vec::new(alloc),
        weights: Vec::new(alloc),
        steps: Vec::new(alloc),
    };
    add_read(found, source, &lines, &mut read, image, &mut state)
}

/// What a source hasn't got of all annotations that can be found: cells, fuel, params, results, where the source tells
/// depths depths, and for each 0 that stands for a function's stack room or budget its number. What it says already
/// stays, and is taken for granted. Of a function of which a block's fuel is said no other block's is found. What isn't
/// shown is noted, by line, and the verifier would refuse it there.
///
/// # Errors
/// `Source` as the assembler refuses the source. `Program` where a word has no place in a program, with its line, and
/// where more is known of a block than an image may say. Asked of memory in each.
pub fn find(alloc: Global, source: &[u8]) -> Result<Annotated, AnnotationRefusal> {
    let image = match assemble(alloc, source) {
        Ok(image) => image,
        Err(fault) => return Err(AnnotationRefusal::Source(fault)),
    };
    let mut found = Annotated {
        additions: Vec::new(alloc),
        totals: Vec::new(alloc),
        notes: Vec::new(alloc),
        memory: Heap::new(alloc),
    };
    match add_found(&mut found, source, &image) {
        Ok(()) => Ok(found),
        Err(fault) => Err(AnnotationRefusal::Program(fault)),
    }
}

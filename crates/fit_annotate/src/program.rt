//! A source's image as a program.
use crate::blocks::{TOLD, read_function};
use crate::lines::{Head, SourceLines};
use fit_code::{Block, Fault, Function, Heap, Object, Program, Reason, Region, SourceLine, Step};
use sbx_directives::text_of;
use sbx_image::{Cell, Image};
use std::mem::replace;

/// What a block that is a slot weighs less: the branch's own block pays for it.
const SLOT: u64 = 2;

/// An image that is read.
#[derive(Drop)]
pub struct ReadImage {
    pub memory: Heap,
    /// Each of its functions has the blocks of the source first, in their order, and behind them such as are delay
    /// slots.
    pub program: Program,
    /// Of each function the turns that its blocks weigh less than their steps and their ends.
    pub spared: Vec<Vec<u64>>,
    /// The cells that the source says of each block of each function.
    pub said: Vec<Vec<Vec<Cell>>>,
    /// Of the function that is read its blocks, those that are slots, and the turns that the first ones weigh less; of
    /// the block that is read its steps.
    pub blocks: Vec<Block>,
    pub slots: Vec<Block>,
    pub weights: Vec<u64>,
    pub steps: Vec<Step>,
}

impl ReadImage {
    /// Takes over the data of an image, as regions and one object each.
    fn add_data(&mut self, image: &Image) {
        for (index, region) in image.regions().iter().enumerate() {
            let readonly = !region.writable;
            let start = image.region_start(index).unwrap_or(0);
            let bytes = self.memory.copy(region.bytes.as_slice());
            let length = u32::try_from(bytes.len()).unwrap_or(u32::MAX);
            let object = Object {
                name: String::new(self.memory.alloc),
                bytes,
                start,
                outside: Vec::new(self.memory.alloc),
            };
            self.memory.push(&mut self.program.objects, object);
            let region = Region {
                readonly,
                start,
                length,
            };
            self.memory.push(&mut self.program.regions, region);
        }
    }

    /// Ends a function of an image, which begins here, and of whose blocks all are read.
    pub fn end_function(&mut self, source: &[u8], head: &Head, function: &sbx_image::Function) {
        let alloc = self.memory.alloc;
        let mut name = String::new(alloc);
        self.memory.take(name.push_str(str::from_utf8(text_of(source, head.name)).unwrap_or("")));
        let mut blocks = replace(&mut self.blocks, Vec::new(alloc));
        self.memory.take(blocks.append(&mut self.slots));
        let mut weights = replace(&mut self.weights, Vec::new(alloc));
        self.memory.take(weights.resize(blocks.len(), SLOT));
        self.memory.push(&mut self.spared, weights);
        let made = Function {
            name,
            framed: function.frame > 0,
            frame: function.frame,
            blocks,
            params: self.memory.copy(function.params.as_slice()),
            results: self.memory.copy(function.results.as_slice()),
            line: SourceLine {
                file: 0,
                number: head.line,
            },
        };
        self.memory.push(&mut self.program.functions, made);
        let mut said = Vec::new(alloc);
        for block in function.blocks.as_slice() {
            let cells = self.memory.copy(block.cells.as_slice());
            self.memory.push(&mut said, cells);
        }
        self.memory.push(&mut self.said, said);
    }

    /// Takes over the image that the assembler makes of a source, which has these lines. What its params and its
    /// results are said to be stands in its functions.
    ///
    /// # Errors
    /// The first word that has no place in a program, with its line: of an instruction that sandboxed code may not
    /// have, a transfer that ends no block or goes nowhere, a function that doesn't begin or return as its kind asks
    /// for. Want of memory.
    pub fn take(&mut self, source: &[u8], lines: &SourceLines, image: &Image) -> Result<(), Fault> {
        self.add_data(image);
        let (heads, mut first) = (lines.heads.as_slice(), 0usize);
        for function in image.functions().iter().enumerate() {
            if let Some((line, what)) = read_function(self, lines.words.as_slice(), image, function)
                && !self.memory.is_refused
            {
                let reason = Reason::Unreadable(TOLD[what as usize]);
                return Err(Fault::new(line, reason));
            }
            if first < heads.len() {
                self.end_function(source, &heads[first], function.1);
            }
            first = first.saturating_add(function.1.blocks.len());
        }
        self.memory.told(())?;
        Ok(())
    }
}

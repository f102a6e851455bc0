//! Limits of an image that a program may pass.
use fit_code::{Block, End, Fault, Function, Program, Reason, SourceLine};
use fit_text::FunctionNotes;

/// The most words of code.
const WORDS: u64 = 65_536;

/// The most bytes of stack.
const STACK: u64 = 16 * 4096 - 64;

/// What is told of a function with more blocks than there may be, and of all functions together.
const BLOCKS: &str = "the blocks of a function";

const ALL_BLOCKS: &str = "the blocks of all functions";

/// The most blocks.
const MOST_BLOCKS: u64 = 4_096;

/// Whether a fault is that there are more blocks than there may be.
pub fn is_of_blocks(fault: &Fault) -> bool {
    match fault.reason {
        Reason::TooGreat { what, .. } => (what == BLOCKS) | (what == ALL_BLOCKS),
        _ => false,
    }
}

/// More of something than there may be.
#[derive(Clone, Copy)]
struct Excess {
    line: SourceLine,
    what: &'static str,
    count: u64,
    most: u64,
}

/// What is found of a program's numbers.
#[derive(Clone, Copy)]
struct Extent {
    /// The words of code, and the blocks.
    words: u64,
    blocks: u64,
    /// The first of them that passes a limit.
    excess: Option<Excess>,
}

/// How many words a block has.
fn words_of(block: &Block) -> u64 {
    let mut words: u64 = match block.end {
        End::Exit => 1,
        _ => 2,
    };
    for step in block.steps.as_slice() {
        words = words.saturating_add(if step.callee.is_some() { 2 } else { 1 });
    }
    words
}

impl Extent {
    /// Takes in how much there is of something, and how much there may be.
    fn check(&mut self, line: SourceLine, what: &'static str, count: u64, most: u64) {
        if (count > most) & self.excess.is_none() {
            self.excess = Some(Excess {
                line,
                what,
                count,
                most,
            });
        }
    }

    /// Takes in a function.
    fn check_function(&mut self, function: &Function, notes: &FunctionNotes) {
        let (line, blocks) = (function.line, function.blocks.len() as u64);
        self.check(line, BLOCKS, blocks, MOST_BLOCKS);
        self.blocks = self.blocks.saturating_add(blocks);
        self.check(line, ALL_BLOCKS, self.blocks, MOST_BLOCKS);
        self.check(line, "the stack that calls take", notes.room, STACK);
        self.words = self.words.saturating_add(1);
        let (blocks, noted) = (function.blocks.as_slice(), notes.blocks.as_slice());
        for number in 0..blocks.len() {
            if number < noted.len() {
                let block = &blocks[number];
                let terms = noted[number].terms.len() as u64;
                self.check(block.line, "the loops around a block", terms, 8);
                self.words = self.words.saturating_add(words_of(block));
            }
        }
        self.check(line, "the words of code", self.words, WORDS);
    }
}

/// Whether a program of which this is said is within the limits of an image; else the first one that it passes, with
/// its line.
pub fn check_limits(program: &Program, annotations: &[FunctionNotes]) -> Result<(), Fault> {
    let mut found = Extent {
        words: 0,
        blocks: 0,
        excess: None,
    };
    let functions = program.functions.as_slice();
    for number in 0..functions.len() {
        if number < annotations.len() {
            found.check_function(&functions[number], &annotations[number]);
        }
    }
    match found.excess {
        Some(excess) => {
            let reason = Reason::TooGreat {
                what: excess.what,
                count: excess.count,
                most: excess.most,
            };
            Err(Fault::new(excess.line, reason))
        }
        None => Ok(()),
    }
}

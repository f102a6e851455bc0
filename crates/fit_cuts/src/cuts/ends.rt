//! The end of a run that the tests of a function share. What comes there says by %g5 which test failed: the exit word,
//! 10 bits to the left, as one SETHI leaves it in the slot of the branch.
use crate::cuts::cut::push_block;
use crate::cuts::words::{by_immediate, register};
use fit_code::{Block, End, Heap, SourceLine};
use v8_formats::{Instr, Operand, Upper};

/// The register that says which test failed, and that of the exit word, %o0.
const TOLD: u8 = 5;

const EXIT_WORD: u8 = 8;

/// So many bits SETHI leaves 0.
const LOW: i32 = 10;

/// What stands in the slot of a branch to the shared end: it says the exit word, which has 22 bits at most.
pub fn telling(word: i32) -> Instr {
    Instr::Sethi(Upper {
        rd: register(TOLD),
        imm22: word.cast_unsigned() & 0x3f_ffff,
    })
}

/// Whether a block is the end that tests share.
fn is_shared(block: &Block) -> bool {
    if let End::Exit = block.end
        && let [step] = block.steps.as_slice()
        && let Instr::Srl(fields) = step.instr()
        && let Operand::Immediate(bits) = fields.operand2
    {
        let is_told = fields.rs1.number() == TOLD;
        return is_told & (fields.rd.number() == EXIT_WORD) & (bits == LOW.cast_unsigned());
    }
    false
}

/// The block where the run ends if one of a function's tests fails, by what `telling` leaves: the function gets one,
/// if it has none.
pub fn shared_end(memory: &mut Heap, blocks: &mut Vec<Block>, line: SourceLine) -> usize {
    for number in 0..blocks.len() {
        if is_shared(&blocks[number]) {
            return number;
        }
    }
    let end = blocks.len();
    let word = Instr::Srl(by_immediate(EXIT_WORD, TOLD, LOW));
    push_block(memory, blocks, &[Some(word)], (End::Exit, None), line);
    end
}

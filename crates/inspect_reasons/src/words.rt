//! Words that are no instructions, or such as sandboxed code may not have.
use sbx_image::Image;
use std::alloc::AllocError;
use v8_formats::{Instr, decode, encode};
use v8_map::CODE_START;
use v8_meaning::{Operation, Space, Transfer};

/// The word at an address of the code; 0 where there is none.
pub(crate) fn word_at(image: &Image, address: u32) -> u32 {
    let place = address.wrapping_sub(CODE_START) / 4;
    image.words().get(place as usize).copied().unwrap_or(0)
}

/// Pushes the bits of a word that its instruction doesn't use, or that no instruction is spelled so.
pub(crate) fn push_spelling(out: &mut String, word: u32) -> Result<(), AllocError> {
    let instr = decode(word);
    if matches!(instr, Instr::Undefined(_)) {
        return out.push_str("no instruction is spelled by this word\n");
    }
    let plain = encode(&instr);
    let unused = word ^ plain;
    writeln!(
        out,
        "the instruction doesn't use the bits {unused:08X}, which are set: without them it is {plain:08X}"
    )
}

/// Why no sandboxed code has a load or a store that isn't admitted.
fn access_text(transfer: &Transfer, space: Space) -> &'static str {
    match space {
        Space::Normal => match transfer {
            Transfer::Store(_) =>
                "a double word goes out of an even register and the odd one behind it: name the even one\n",
            _ =>
                "a double word comes into an even register and the odd one behind it: name the even one\n",
        },
        Space::Alternate(_) | Space::Missing =>
            "alternate spaces are the supervisor's: the same access without `a` reaches the data\n",
    }
}

/// Why no sandboxed code has an operation that isn't admitted, and what it has in its place.
pub(crate) fn not_admitted_text(operation: &Operation) -> &'static str {
    match operation {
        Operation::Transfer(transfer, operand) => access_text(transfer, operand.space),
        Operation::BranchOnCondition(_) => "`bn` goes nowhere: leave it out, or write `nop`\n",
        Operation::JumpAndLink(_) =>
            "the only jumps are `ret` and `retl`, since where another goes isn't known before the run: branch\n",
        Operation::TrapOnCondition(_) =>
            "a service is asked for by `ta` and a number alone: branch around it where the codes decide\n",
        Operation::ReadState(..) | Operation::WriteState(..) =>
            "PSR, WIM and TBR are the supervisor's: branches test the codes, and windows need no care\n",
        Operation::ReturnFromTrap(_) => "RETT is for trap handlers, which are the supervisor's\n",
        Operation::Nothing =>
            "FLUSH and STBAR do nothing here: code is never written, and memory has one user\n",
        Operation::Illegal =>
            "it does nothing but trap: `mov 1,%o0` and `ta 0` end a run with a word of one's own\n",
        Operation::FloatingPoint =>
            "the machine has no floating-point unit: reckon with integers, in parts of a unit\n",
        Operation::Coprocessor => "the machine has no coprocessor\n",
        _ => "",
    }
}

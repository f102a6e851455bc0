//! The rules in words.
ghost use Rattle.std.specs.Prelude.{◌≡◌};
ghost use Rattle.inspect_refusal.specs.Texts.{rule_text};

use sbx_rules::Cause;

/// What an image is refused for, by the rule, in one line.
pub fn rule_text(cause: Cause) -> &'static str
    ensures { result.now ≡ rule_text cause }
{
    match cause {
        Cause::NotAnInstruction => "the word is no instruction, or has an unused bit set",
        Cause::NotAdmitted => "sandboxed code may not ask for what this instruction asks for",
        Cause::BadShape =>
            "the shape of a function: SAVE and RESTORE, returns and calls, delay slots, the end of a block",
        Cause::BadBranch => "the branch goes to no block of its function, or to the first one",
        Cause::BadCall => "the call doesn't go to the entry of a function of larger number",
        Cause::UndefinedRead =>
            "a location, the condition codes or Y are read while they may hold anything",
        Cause::ReservedRegister =>
            "%sp, %fp, %o7 or %i7 is used, or a register is written that isn't the function's to write",
        Cause::Misaligned =>
            "the address isn't shown to be a multiple of 2, 4 or 8, as the access asks for",
        Cause::OutOfBounds =>
            "the access isn't shown to lie in one region of data (`rw` for a store) or its function's frame words",
        Cause::ZeroDivisor => "the divisor may be 0",
        Cause::TagOverflow =>
            "an operand isn't shown to be a multiple of 4, or the tagged result may overflow",
        Cause::UndeclaredService => "the service isn't declared, or there is no such service",
        Cause::UnkeptCells =>
            "a block or a function begins with less than it declares, or declares what it can't write",
        Cause::OutOfFuel =>
            "the fuel isn't shown to last, or the budget, or a term of the fuel names no cell of its block",
        Cause::OutOfStack => "the stack room isn't enough",
        Cause::RunsPastEnd => "control can go past the function's last word",
        Cause::UnkeptResults => "a result isn't shown to be as declared",
        Cause::BadEntry => "function 0 is nobody's callee, and has parameters or returns",
        Cause::TooDeep => "the declared call depth is less than a frame and the calls take",
        Cause::NoMemory(_) => "memory was refused",
    }
}

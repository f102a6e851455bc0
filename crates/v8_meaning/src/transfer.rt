// Addresses, targets and the decisions of control transfer, over the words that registers hold.
ghost use Rattle.std.specs.Prelude.{◌≡◌, ℕ, ◌+◌, ◌*◌, ◌%◌, ◌^◌};
ghost use Rattle.v8_formats.specs.Conditions.{holds};
ghost use Rattle.v8_meaning.specs.Operands.{annuls, following, is_always, is_never, sum_address, software_trap_of};
ghost use Rattle.v8_meaning.specs.Operands.{target};

use v8_formats::{Branch, Cond, Icc, TrapType};

/// The address of a load, a store or a jump: the sum of its two operands' words, modulo 2^32 (appendix B, "Load Integer
/// Instructions").
pub fn address(first: u32, second: u32) -> u32
    ensures { result ≡ sum_address first second }
{
    first.wrapping_add(second)
}

/// Where a CALL or a branch at `pc` goes. The displacement counts words and is signed, written as a word (appendix B,
/// "Call and Link Instruction").
pub fn target(pc: u32, displacement: u32) -> u32
    ensures { result ≡ target pc displacement }
{
    pc.wrapping_add(displacement.wrapping_mul(4))
}

/// The place after a place of the code: 4 bytes on, modulo 2^32 (chapter 4, "Program Counters").
pub fn following(place: u32) -> u32
    ensures { result ≡ following place }
{
    place.wrapping_add(4)
}

/// Whether the condition is `a`, which holds whatever the codes are.
pub fn is_always(cond: Cond) -> bool
    ensures { result ≡ is_always cond }
{
    cond == Cond::Always
}

/// Whether the condition is `n`, which never holds.
pub fn is_never(cond: Cond) -> bool
    ensures { result ≡ is_never cond }
{
    cond == Cond::Never
}

/// Whether a branch goes to its target, by the condition codes (appendix B, "Branch on Integer Condition Codes").
pub fn is_taken(branch: &Branch, icc: Icc) -> bool
    ensures { result ≡ holds branch.now.cond icc }
{
    branch.cond.holds(icc)
}

/// Whether a branch annuls its delay slot: its annul bit is set, and it isn't a conditional branch that is taken.
pub fn annuls(branch: &Branch, icc: Icc) -> bool
    ensures { result ≡ annuls branch.now icc }
{
    branch.annul && (is_always(branch.cond) || !is_taken(branch, icc))
}

/// The trap type of a taken Ticc, 128 to 255: the low seven bits of its operands' sum (appendix B, "Trap on Integer
/// Condition Codes").
pub fn software_trap(first: u32, second: u32) -> TrapType
    ensures { result ≡ software_trap_of first second }
{
    TrapType::new(128 + (address(first, second) % 128) as u8)
}

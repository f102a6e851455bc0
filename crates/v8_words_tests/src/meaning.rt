//! Worked examples of the manual's rules, and the words of GNU as (binutils 2.40) for the statements in the comments.
use crate::rows::each_holds;
use v8_formats::{Branch, decode};
use v8_meaning::{
    Exchange, Loading, Operation, Space, Transfer, address, annuls, bytes_in, following,
    is_admitted, is_always, is_code_space, is_missing, is_never, is_normal, is_taken, is_unknown,
    is_user_space, odd_of, operation_of, software_trap, splits_pair, target,
};
use v8_word::{Cond, Icc, Reg, Size};

/// Whether addresses are sums that wrap, and targets are so many words on or back.
fn are_places() -> bool {
    address(0xffff_fff8, 16) == 8
        && target(0x0004_0010, 0xffff_fffc) == 0x0004_0000
        && target(0x0004_0000, 2) == 0x0004_0008
        && following(0xffff_fffc) == 0
}

#[test]
fn addresses_and_targets(rt: HostRuntime) {
    assert!(rt; are_places());
    let (fifth, last) = (software_trap(0x100, 5), software_trap(0xffff_ffff, 0));
    assert!(rt; (fifth.number(), last.number()) == (0x85, 0xff));
}

/// A condition, whether its branch has the annul bit, whether it is taken where Z is set, and whether it then annuls
/// its slot.
type Slot = (Cond, bool, bool, bool);

const SLOTS: [Slot; 7] = [
    (Cond::Always, true, true, true),
    (Cond::Always, false, true, false),
    (Cond::Never, true, false, true),
    (Cond::Never, false, false, false),
    (Cond::Equal, true, true, false),
    (Cond::NotEqual, true, false, true),
    (Cond::NotEqual, false, false, false),
];

/// Whether a branch is taken where Z is set, and annuls its slot there, as the row says.
fn is_slot(slot: &Slot) -> bool {
    let (cond, annul, taken, annuls_slot) = *slot;
    let zero = Icc {
        n: false,
        z: true,
        v: false,
        c: false,
    };
    let branch = Branch {
        annul,
        cond,
        displacement: 2,
    };
    is_taken(&branch, zero) == taken && annuls(&branch, zero) == annuls_slot
}

#[test]
fn delay_slots(rt: HostRuntime) {
    each_holds(&rt, &SLOTS, is_slot);
    assert!(rt; is_always(Cond::Always) && is_never(Cond::Never));
}

/// Whether loads widen what they read, with its sign or without.
fn are_widened() -> bool {
    Loading::SignedByte.word(0x80) == 0xffff_ff80
        && Loading::UnsignedByte.word(0x80) == 0x80
        && Loading::SignedHalf.word(0x7fff) == 0x7fff
}

/// Whether transfers move as many bytes as their names say.
fn are_sized() -> bool {
    Loading::SignedHalf.size() == Size::Half
        && Transfer::Exchange(Exchange::Ones).size() == Size::Byte
        && bytes_in(Size::Double) == 8
}

/// Whether a double word takes a pair of registers, the second of them odd.
fn are_paired() -> bool {
    odd_of(Reg::FP) == Reg::I7
        && splits_pair(Size::Double, Reg::I7)
        && !splits_pair(Size::Word, Reg::I7)
}

#[test]
fn moved_bytes(rt: HostRuntime) {
    assert!(rt; are_widened());
    assert!(rt; are_sized() && Transfer::Store(Size::Word).writes_memory());
    assert!(rt; are_paired());
}

const ADMITTED: [u32; 11] = [
    0x9c03_c01f, // add %o7,%i7,%sp
    0x81c7_e008, // ret
    0x81c3_e008, // retl
    0x91d0_2000, // ta 0
    0x91d0_207f, // ta 127
    0x30bf_fff7, // ba,a .-36
    0xf81a_6001, // ldd [%o1+1],%i4
    0xdc7f_c00e, // swap [%i7+%sp],%sp
    0x9de3_bfa0, // save %sp,-96,%sp
    0x9f24_0000, // mulscc %l0,%g0,%o7
    0x9140_0000, // mov %y,%o0
];

const REFUSED: [u32; 16] = [
    0x20bf_ffff, // bn,a .-4
    0x93d0_2048, // tne 72
    0x91d0_0001, // ta %g1
    0x93d0_6005, // tne %g1+5
    0x81c2_3ffc, // jmpl %o0-4,%g0
    0x9fc2_0000, // call %o0
    0xc218_2001, // ldd [1],%g1
    0xfe8b_dfff, // lduba [%o7+%i7] 255,%i7
    0x8143_c000, // stbar
    0x81da_0000, // flush %o0
    0x81cc_a004, // rett %l2+4
    0xa148_0000, // rd %psr,%l0
    0x818c_0011, // wr %l0,%l1,%psr
    0x0000_0000, // unimp 0
    0x81a0_0000, // a floating-point operation
    0xc180_0000, // a coprocessor load
];

/// Whether a word may stand in an image.
fn is_word_admitted(word: &u32) -> bool {
    is_admitted(&operation_of(&decode(*word)))
}

/// Whether a word may stand in no image.
fn is_word_refused(word: &u32) -> bool {
    !is_word_admitted(word)
}

#[test]
fn admitted_words(rt: HostRuntime) {
    each_holds(&rt, &ADMITTED, is_word_admitted);
    each_holds(&rt, &REFUSED, is_word_refused);
}

#[test]
fn spaces(rt: HostRuntime) {
    assert!(rt; is_normal(Space::Normal) && is_missing(Space::Missing));
    assert!(rt; is_unknown(Space::Alternate(12)) && !is_unknown(Space::Alternate(11)));
    assert!(rt; is_user_space(10) && is_code_space(9));
}

/// The names of results (appendix B), in the order of `Op`.
const COMPUTED: [&str; 30] = [
    "add", "addcc", "addx", "addxcc", "sub", "subcc", "subx", "subxcc", "and", "andcc", "andn",
    "andncc", "or", "orcc", "orn", "orncc", "xor", "xorcc", "xnor", "xnorcc", "sll", "srl", "sra",
    "umul", "umulcc", "smul", "smulcc", "taddcc", "tsubcc", "mulscc",
];

/// Those of quotients, in the order of `Division`.
const DIVIDED: [&str; 4] = ["udiv", "udivcc", "sdiv", "sdivcc"];

/// Those of the forms that trap, in the order of `TaggedOp`.
const TAGGED: [&str; 2] = ["taddcctv", "tsubcctv"];

/// Those of reads and writes of state, in the order of `StateRegister`.
const READ: [&str; 3] = ["rd %psr", "rd %wim", "rd %tbr"];

const WRITTEN: [&str; 3] = ["wr %psr", "wr %wim", "wr %tbr"];

/// Those of loads, stores and exchanges, in the order of `Loading`, `Size` and `Exchange`.
const LOADED: [&str; 6] = ["ldub", "ldsb", "lduh", "ldsh", "ld", "ldd"];

const STORED: [&str; 4] = ["stb", "sth", "st", "std"];

const EXCHANGED: [&str; 2] = ["ldstub", "swap"];

/// The name of what an operation asks for.
fn name(operation: &Operation) -> &'static str {
    match operation {
        Operation::Compute(op, _) => COMPUTED[*op as usize],
        Operation::Divide(division, _) => DIVIDED[*division as usize],
        Operation::TaggedTrap(op, _) => TAGGED[*op as usize],
        Operation::SetHigh(_) => "sethi",
        Operation::ReadY(_) => "rd %y",
        Operation::WriteY(_) => "wr %y",
        Operation::ReadState(register, _) => READ[*register as usize],
        Operation::WriteState(register, _) => WRITTEN[*register as usize],
        Operation::Transfer(Transfer::Load(loading), _) => LOADED[*loading as usize],
        Operation::Transfer(Transfer::Store(size), _) => STORED[*size as usize],
        Operation::Transfer(Transfer::Exchange(exchange), _) => EXCHANGED[*exchange as usize],
        Operation::Save(_) => "save",
        Operation::Restore(_) => "restore",
        Operation::Call(_) => "call",
        Operation::BranchOnCondition(_) => "branch",
        Operation::JumpAndLink(_) => "jmpl",
        Operation::ReturnFromTrap(_) => "rett",
        Operation::TrapOnCondition(_) => "trap",
        Operation::Nothing => "nothing",
        Operation::Illegal => "illegal",
        Operation::FloatingPoint => "floating point",
        Operation::Coprocessor => "coprocessor",
    }
}

/// The identifier of the alternate space that an operation names, if it names one.
fn identifier(operation: &Operation) -> Option<u8> {
    match operation {
        Operation::Transfer(_, operand) => match operand.space {
            Space::Alternate(asi) => Some(asi),
            Space::Normal | Space::Missing => None,
        },
        _ => None,
    }
}

/// Words with the names of what they ask for.
type Asked = (u32, &'static str);

/// Whether a word asks for what stands beside it.
fn is_asked(row: &Asked) -> bool {
    name(&operation_of(&decode(row.0))) == row.1
}

const RESULTS: [Asked; 36] = [
    (0x9c03_c01f, "add"), // add %o7,%i7,%sp
    (0x9e44_0000, "addx"), // addx %l0,%g0,%o7
    (0xa024_c001, "sub"), // sub %l3,%g1,%l0
    (0xa665_c007, "subx"), // subx %l7,%g7,%l3
    (0xae0e_0008, "and"), // and %i0,%o0,%l7
    (0xb02f_0009, "andn"), // andn %i4,%o1,%i0
    (0xb817_800d, "or"), // or %fp,%o5,%i4
    (0xbc37_c00e, "orn"), // orn %i7,%sp,%fp
    (0xbe18_000f, "xor"), // xor %g0,%o7,%i7
    (0x8038_4010, "xnor"), // xnor %g1,%l0,%g0
    (0x8251_c013, "umul"), // umul %g7,%l3,%g1
    (0x8e5a_0017, "smul"), // smul %o0,%l7,%g7
    (0x8329_c013, "sll"), // sll %g7,%l3,%g1
    (0x9337_2000, "srl"), // srl %i4,0,%o1
    (0xa73d_c007, "sra"), // sra %l7,%g7,%l3
    (0x9072_4018, "udiv"), // udiv %o1,%i0,%o0
    (0x927b_401c, "sdiv"), // sdiv %o5,%i4,%o1
    (0xbe80_000f, "addcc"), // addcc %g0,%o7,%i7
    (0x80c0_4010, "addxcc"), // addxcc %g1,%l0,%g0
    (0x82a1_c013, "subcc"), // subcc %g7,%l3,%g1
    (0x8ee2_0017, "subxcc"), // subxcc %o0,%l7,%g7
    (0x908a_4018, "andcc"), // andcc %o1,%i0,%o0
    (0x92ab_401c, "andncc"), // andncc %o5,%i4,%o1
    (0x9a93_801e, "orcc"), // orcc %sp,%fp,%o5
    (0x9cb3_c01f, "orncc"), // orncc %o7,%i7,%sp
    (0x9e9c_0000, "xorcc"), // xorcc %l0,%g0,%o7
    (0xa0bc_c001, "xnorcc"), // xnorcc %l3,%g1,%l0
    (0xa6d5_c007, "umulcc"), // umulcc %l7,%g7,%l3
    (0xaede_0008, "smulcc"), // smulcc %i0,%o0,%l7
    (0x9b03_801e, "taddcc"), // taddcc %sp,%fp,%o5
    (0xbd0f_c00e, "tsubcc"), // tsubcc %i7,%sp,%fp
    (0x9f24_0000, "mulscc"), // mulscc %l0,%g0,%o7
    (0xb0f7_0009, "udivcc"), // udivcc %i4,%o1,%i0
    (0xb8ff_800d, "sdivcc"), // sdivcc %fp,%o5,%i4
    (0x9d13_c01f, "taddcctv"), // taddcctv %o7,%i7,%sp
    (0xbf18_000f, "tsubcctv"), // tsubcctv %g0,%o7,%i7
];

#[test]
fn asks_for_results(rt: HostRuntime) {
    each_holds(&rt, &RESULTS, is_asked);
}

const STATES_AND_TRANSFERS: [Asked; 18] = [
    (0x9140_0000, "rd %y"), // rd %y,%o0
    (0xa148_0000, "rd %psr"), // rd %psr,%l0
    (0xa150_0000, "rd %wim"), // rd %wim,%l0
    (0x8f58_0000, "rd %tbr"), // rd %tbr,%g7
    (0x8182_0009, "wr %y"), // wr %o0,%o1,%y
    (0x818c_0011, "wr %psr"), // wr %l0,%l1,%psr
    (0x819d_e000, "wr %tbr"), // wr %l7,0,%tbr
    (0x2f3f_ffff, "sethi"), // sethi 4194303,%l7
    (0x9de3_bfa0, "save"), // save %sp,-96,%sp
    (0xa1ec_c001, "restore"), // restore %l3,%g1,%l0
    (0x4000_0002, "call"), // call .+8
    (0x1280_0002, "branch"), // bne .+8
    (0x9fc2_0000, "jmpl"), // jmpl %o0,%o7
    (0x81cc_a004, "rett"), // rett %l2+4
    (0x91d0_207f, "trap"), // ta 127
    (0x8143_c000, "nothing"), // stbar
    (0x81da_0000, "nothing"), // flush %o0
    (0x0000_0000, "illegal"), // unimp 0
];

#[test]
fn asks_for_states_and_transfers(rt: HostRuntime) {
    each_holds(&rt, &STATES_AND_TRANSFERS, is_asked);
    assert!(rt; matches!(operation_of(&decode(0x4000_0002)), Operation::Call(2)));
}

/// Of these GNU as gives no word here: words of the manual's opcodes (appendix F).
const BESIDE: [Asked; 13] = [
    (0x8192_0000, "wr %wim"), // wr %o0,%g0,%wim
    (0x81a0_0000, "floating point"), // FPop1
    (0x81a8_0000, "floating point"), // FPop2
    (0x0180_0000, "floating point"), // FBfcc
    (0xc100_0000, "floating point"), // a load
    (0xc138_0000, "floating point"), // a store
    (0x81b0_0000, "coprocessor"), // CPop1
    (0x81b8_0000, "coprocessor"), // CPop2
    (0x01c0_0000, "coprocessor"), // CBccc
    (0xc180_0000, "coprocessor"), // a load
    (0xc1b8_0000, "coprocessor"), // a store
    (0x8048_0000, "illegal"), // no row
    (0x8144_4000, "illegal"), // rd of an ancillary register
];

#[test]
fn asks_for_what_appendix_f_has_beside(rt: HostRuntime) {
    each_holds(&rt, &BESIDE, is_asked);
}

const DATA: [Asked; 12] = [
    (0xd207_0009, "ld"), // ld [%i4+%o1],%o1
    (0xc20a_3801, "ldub"), // ldub [%o0-2047],%g1
    (0xee11_e400, "lduh"), // lduh [%g7+1024],%l7
    (0xde48_2000, "ldsb"), // ldsb [0],%o7
    (0xc252_3ffb, "ldsh"), // ldsh [%o0-5],%g1
    (0xfc1f_c000, "ldd"), // ldd [%i7],%fp
    (0xc224_0000, "st"), // st %g1,[%l0]
    (0xfc2e_2001, "stb"), // stb %fp,[%i0+1]
    (0xde33_801e, "sth"), // sth %o7,[%sp+%fp]
    (0xdc3f_fffc, "std"), // std %sp,[%i7-4]
    (0xe668_2400, "ldstub"), // ldstub [1024],%l3
    (0xdc7f_c00e, "swap"), // swap [%i7+%sp],%sp
];

/// Whether a word asks for what stands beside it, and may stand in an image.
fn is_asked_and_admitted(row: &Asked) -> bool {
    is_asked(row) && is_word_admitted(&row.0)
}

#[test]
fn asks_for_data(rt: HostRuntime) {
    each_holds(&rt, &DATA, is_asked_and_admitted);
}

/// Words with the names of what they ask for, and the alternate spaces that they name.
type AskedIn = (u32, &'static str, Option<u8>);

/// Below the first six GNU as gives no word here: words of the manual's opcodes (appendix F).
const ALTERNATES: [AskedIn; 13] = [
    (0xfe8b_dfff, "ldub", Some(255)), // lduba [%o7+%i7] 255,%i7
    (0xf0ca_4418, "ldsb", Some(32)), // ldsba [%o1+%i0] 32,%i0
    (0xe098_4130, "ldd", Some(9)), // ldda [%g1+%l0] 9,%l0
    (0xdaff_816d, "swap", Some(11)), // swapa [%fp+%o5] 11,%o5
    (0xd0a9_c133, "stb", Some(9)), // stba %o0,[%g7+%l3] 9
    (0xc0bf_c16e, "std", Some(11)), // stda %g0,[%i7+%sp] 11
    (0xd282_0140, "ld", Some(10)), // lda [%o0] 10,%o1
    (0xd292_0140, "lduh", Some(10)), // lduha [%o0] 10,%o1
    (0xd2d2_0140, "ldsh", Some(10)), // ldsha [%o0] 10,%o1
    (0xd2a2_0140, "st", Some(10)), // sta %o1,[%o0] 10
    (0xd2b2_0140, "sth", Some(10)), // stha %o1,[%o0] 10
    (0xd2ea_0140, "ldstub", Some(10)), // ldstuba [%o0] 10,%o1
    (0xd282_2008, "ld", None), // lda [%o0+8],%o1: an immediate leaves no room for a space
];

/// Whether a word asks for this, in this alternate space or in none, and may stand in no image.
fn is_asked_in(row: &AskedIn) -> bool {
    let operation = operation_of(&decode(row.0));
    identifier(&operation) == row.2 && name(&operation) == row.1 && !is_admitted(&operation)
}

#[test]
fn asks_for_alternate_spaces(rt: HostRuntime) {
    each_holds(&rt, &ALTERNATES, is_asked_in);
}

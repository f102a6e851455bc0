// Words of the manual's formats (appendix F), those of GNU as (binutils 2.40), and words that are none. All the words
// of GNU as that the repository has are in the program v8_vectors.
use crate::rows::each_holds;
use v8_formats::{
    Alternate, AlternateOperand, Branch, Instr, Operand, Three, Trap, Upper, decode, encode,
    is_canonical, rows_are_apart,
};
use v8_word::{Cond, Reg, reg_at};

fn three(rd: Reg, rs1: Reg, operand2: Operand) -> Three {
    Three { rd, rs1, operand2 }
}

/// Whether an instruction is spelled as the word beside it, and what the word means is too.
fn is_spelled(row: &(u32, Instr)) -> bool {
    encode(&row.1) == row.0 && encode(&decode(row.0)) == row.0
}

/// Words with what they are.
fn worked() -> [(u32, Instr); 11] {
    let o0 = reg_at(8, 0);
    let o1 = reg_at(9, 0);
    [
        // save %sp,-96,%sp
        (
            0x9de3_bfa0,
            Instr::Save(three(Reg::SP, Reg::SP, Operand::Immediate(0xffff_ffa0))),
        ),
        // ret
        (
            0x81c7_e008,
            Instr::Jmpl(three(Reg::G0, Reg::I7, Operand::Immediate(8))),
        ),
        // restore
        (
            0x81e8_0000,
            Instr::Restore(three(Reg::G0, Reg::G0, Operand::Register(Reg::G0))),
        ),
        // ta 0
        (
            0x91d0_2000,
            Instr::Ticc(Trap {
                cond: Cond::Always,
                rs1: Reg::G0,
                operand2: Operand::Immediate(0),
            }),
        ),
        // add %o0,5,%o1
        (
            0x9202_2005,
            Instr::Add(three(o1, o0, Operand::Immediate(5))),
        ),
        // add %o7,%i7,%sp
        (
            0x9c03_c01f,
            Instr::Add(three(Reg::SP, Reg::O7, Operand::Register(Reg::I7))),
        ),
        // bn,a .-4
        (
            0x20bf_ffff,
            Instr::Bicc(Branch {
                annul: true,
                cond: Cond::Never,
                displacement: 0xffff_ffff,
            }),
        ),
        // call .-2147483648
        (0x6000_0000, Instr::Call(0xe000_0000)),
        // sethi 4194303,%o1
        (
            0x133f_ffff,
            Instr::Sethi(Upper {
                rd: o1,
                imm22: 0x003f_ffff,
            }),
        ),
        // lduba [%o7+%i7] 255,%i7
        (
            0xfe8b_dfff,
            Instr::LoadUnsignedByteAlternate(Alternate {
                rd: Reg::I7,
                rs1: Reg::O7,
                place: AlternateOperand::Register(Reg::I7, 255),
            }),
        ),
        (0, Instr::default()),
    ]
}

#[test]
fn worked_words(rt: HostRuntime) {
    each_holds(&rt, &worked(), is_spelled);
    rows_are_apart();
}

/// Whether a word is canonical, and each word that differs in one of these bits means the same and isn't.
fn leaves_unused(row: &(u32, u32)) -> bool {
    let (word, unused) = *row;
    let mut agrees = is_canonical(word);
    for bit in 0u32..32 {
        let spoiled = word | unused & 1 << bit;
        agrees &= is_canonical(spoiled) == (spoiled == word) && encode(&decode(spoiled)) == word;
    }
    agrees
}

/// Canonical words, and the bits that their formats leave unused.
const UNUSED: [(u32, u32); 18] = [
    (0x81e8_0000, 0x0000_1fe0), // restore
    (0x9c03_c01f, 0x0000_1fe0), // add %o7,%i7,%sp
    (0xbf2b_e01f, 0x0000_1fe0), // sll %o7,31,%i7
    (0x9202_2005, 0), // add %o0,5,%o1
    (0xfc0f_c000, 0x0000_1fe0), // ldub [%i7],%fp
    (0xf0ca_4418, 0), // ldsba [%o1+%i0] 32,%i0
    (0x91d0_2000, 0x2000_1f80), // ta 0
    (0x91d0_0001, 0x2000_1fe0), // ta %g1
    (0x9140_0000, 0x0000_3fff), // rd %y,%o0
    (0x8143_c000, 0x0000_3fff), // stbar
    (0xa148_0000, 0x0007_ffff), // rd %psr,%l0
    (0x8f58_0000, 0x0007_ffff), // rd %tbr,%g7
    (0x8182_0009, 0x0000_1fe0), // wr %o0,%o1,%y
    (0x818c_0011, 0x3e00_1fe0), // wr %l0,%l1,%psr
    (0x819d_e000, 0x3e00_0000), // wr %l7,0,%tbr
    (0x81cc_a004, 0x3e00_0000), // rett %l2+4
    (0x81da_0009, 0x3e00_1fe0), // flush %o0+%o1
    (0x0000_0000, 0x3e00_0000), // unimp 0
];

#[test]
fn unused_bits(rt: HostRuntime) {
    each_holds(&rt, &UNUSED, leaves_unused);
}

fn is_undefined(word: &u32) -> bool {
    matches!(decode(*word), Instr::Undefined(kept) if kept == *word) && is_canonical(*word)
}

const RESERVED: [u32; 29] = [
    0x0040_0000,
    0x00c0_0000,
    0x0140_0000, // op2 1, 3, 5
    0x8048_0000,
    0x8068_0000,
    0x80c8_0000,
    0x80e8_0000, // op3 09, 0D, 19, 1D
    0x8160_0000,
    0x8168_0000,
    0x8170_0000,
    0x8178_0000, // op3 2C to 2F
    0x81f0_0000,
    0x81f8_0000, // op3 3E, 3F
    0x8140_4000,
    0x8143_8000,
    0x8343_c000,
    0x8380_0000, // state registers other than Y
    0xc040_0000,
    0xc058_0000,
    0xc060_0000,
    0xc070_0000, // op3 08, 0B, 0C, 0E of loads
    0xc0c0_0000,
    0xc0d8_0000,
    0xc0e0_0000,
    0xc0f0_0000, // op3 18, 1B, 1C, 1E
    0xc140_0000,
    0xc178_0000,
    0xc1c0_0000,
    0xc1f8_0000, // op3 28, 2F, 38, 3F
];

#[test]
fn words_that_are_no_instruction(rt: HostRuntime) {
    each_holds(&rt, &RESERVED, is_undefined);
}

fn is_floating_point_memory(word: u32) -> bool {
    matches!(decode(word), Instr::FpMemory(kept) if kept == word)
}

fn is_coprocessor_memory(word: u32) -> bool {
    matches!(decode(word), Instr::CpMemory(kept) if kept == word)
}

/// Whether loads and stores of a number are those of both units.
fn are_memory_of_units(minor: u32) -> bool {
    is_floating_point_memory(0xc100_0000 | minor << 19)
        && is_coprocessor_memory(0xc180_0000 | minor << 19)
}

/// Whether operations of a number are those of both units.
fn are_operations_of_units(minor: u32) -> bool {
    matches!(decode(0x8000_0000 | minor << 19), Instr::FpOperate(_))
        && matches!(decode(0x8010_0000 | minor << 19), Instr::CpOperate(_))
}

#[test]
fn words_of_other_units(rt: HostRuntime) {
    for minor in 0u32..8 {
        assert!(rt; are_memory_of_units(minor), "{minor}");
    }
    assert!(rt; are_operations_of_units(0x34) && are_operations_of_units(0x35));
}

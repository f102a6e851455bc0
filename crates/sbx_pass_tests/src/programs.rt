//! Programs of a few words, and what is known after them. Each expected range and form was worked out by hand.
use crate::known::{Ends, Row};
use sbx_image::{Cell, Range};
use v8_word::Cond;

const FEW: Ends = (-3, 5, 0);

const MANY: Ends = (-2_147_483_648, 2_147_483_647, 2);

const ANY: Ends = (-2_147_483_648, 2_147_483_647, 0);

/// 0 or 1.
const BIT: Range = Range {
    lo: 0,
    hi: 1,
    alignment: 0,
};

/// %o0, 0 to 10, and %l0, multiples of 4 from 0 to 400.
pub const TWO: [Cell; 2] = [
    Cell {
        location: 8,
        range: Range {
            lo: 0,
            hi: 10,
            alignment: 0,
        },
    },
    Cell {
        location: 16,
        range: Range {
            lo: 0,
            hi: 400,
            alignment: 2,
        },
    },
];

/// %l0 to %l7 and %i0.
pub const NINE: [Cell; 9] = [
    Cell {
        location: 16,
        range: BIT,
    },
    Cell {
        location: 17,
        range: BIT,
    },
    Cell {
        location: 18,
        range: BIT,
    },
    Cell {
        location: 19,
        range: BIT,
    },
    Cell {
        location: 20,
        range: BIT,
    },
    Cell {
        location: 21,
        range: BIT,
    },
    Cell {
        location: 22,
        range: BIT,
    },
    Cell {
        location: 23,
        range: BIT,
    },
    Cell {
        location: 24,
        range: BIT,
    },
];

/// Locations from 1 to 1,039, Y and the codes; nothing else is defined.
pub const SET: [Row; 14] = [
    Row::HasNot(1),
    Row::HasNot(1_039),
    Row::Y(None),
    Row::Codes(false),
    Row::Set(1, Some(FEW)),
    Row::Set(1_039, Some(MANY)),
    Row::SetY(Some(FEW)),
    Row::SetCodes(true),
    Row::Has(1, FEW),
    Row::Has(1_039, MANY),
    Row::HasNot(2),
    Row::HasNot(1_038),
    Row::Y(Some(FEW)),
    Row::Codes(true),
];

/// Numbers that are no location.
pub const NO_LOCATIONS: [Row; 16] = [
    Row::Set(1, Some(FEW)),
    Row::Set(1_039, Some(MANY)),
    Row::SetY(Some(FEW)),
    Row::SetCodes(true),
    Row::Set(0, Some(FEW)),
    Row::Set(1_040, Some(FEW)),
    Row::Set(65_535, Some(FEW)),
    Row::Has(1, FEW),
    Row::Has(1_039, MANY),
    Row::HasNot(2),
    Row::HasNot(1_038),
    Row::Y(Some(FEW)),
    Row::Codes(true),
    Row::HasNot(0),
    Row::HasNot(1_040),
    Row::NoForm(65_535),
];

/// What is made undefined.
pub const UNSET: [Row; 11] = [
    Row::Set(1, Some(FEW)),
    Row::Set(1_039, Some(MANY)),
    Row::SetY(Some(FEW)),
    Row::SetCodes(true),
    Row::Set(1, None),
    Row::SetY(None),
    Row::SetCodes(false),
    Row::HasNot(1),
    Row::Has(1_039, MANY),
    Row::Y(None),
    Row::Codes(false),
];

/// Codes that relate nothing refine nothing.
pub const UNRELATED: [Row; 10] = [
    Row::Set(1, Some(FEW)),
    Row::Set(1_039, Some(MANY)),
    Row::SetY(Some(FEW)),
    Row::SetCodes(true),
    Row::Branch(Cond::Equal, true),
    Row::Has(1, FEW),
    Row::Has(1_039, MANY),
    Row::HasNot(2),
    Row::Y(Some(FEW)),
    Row::Codes(true),
];

/// A location that is compared with itself.
pub const ITSELF: [Row; 4] = [
    Row::Set(31, Some(FEW)),
    // subcc %i7,%i7,%g0
    Row::Word(0x80A7_C01F),
    Row::Branch(Cond::Equal, true),
    Row::Has(31, FEW),
];

/// The sign of a location.
pub const SIGN: [Row; 6] = [
    Row::Set(1, Some(FEW)),
    // orcc %g1,%g0,%g1
    Row::Word(0x8290_4000),
    Row::Branch(Cond::Negative, true),
    Row::Has(1, (-3, -1, 0)),
    Row::Branch(Cond::Positive, false),
    Row::Has(1, (-3, -1, 0)),
];

/// Stores of %o0 to words of the frame.
pub const FRAME_WORDS: [Row; 13] = [
    Row::Set(8, Some(FEW)),
    // st %o0,[%sp+64]
    Row::Framed(96, 0xD023_A040),
    Row::Has(32, FEW),
    // st %o0,[%sp+92]
    Row::Framed(96, 0xD023_A05C),
    Row::Has(39, FEW),
    Row::Set(39, None),
    // st %o0,[%fp-4]
    Row::Framed(96, 0xD027_BFFC),
    Row::Has(39, FEW),
    // st %o0,[%fp-4]
    Row::Framed(4_096, 0xD027_BFFC),
    Row::Has(1_039, FEW),
    Row::Set(1_039, None),
    // st %o0,[%sp+4092]
    Row::Framed(4_096, 0xD023_AFFC),
    Row::Has(1_039, FEW),
];

/// Stores of %o0 to no word of the frame.
pub const NO_FRAME_WORDS: [Row; 10] = [
    Row::Set(8, Some(FEW)),
    // st %o0,[%sp+60]
    Row::Framed(96, 0xD023_A03C),
    // st %o0,[%sp+66]
    Row::Framed(96, 0xD023_A042),
    // st %o0,[%sp+96]
    Row::Framed(96, 0xD023_A060),
    // st %o0,[%fp+0]
    Row::Framed(96, 0xD027_A000),
    // st %o0,[%o0+64]
    Row::Framed(96, 0xD022_2040),
    Row::HasNot(31),
    Row::HasNot(32),
    Row::HasNot(39),
    Row::HasNot(40),
];

/// Loads of every size.
pub const LOADS: [Row; 6] = [
    // ldsh [%o0],%o0
    Row::Word(0xD052_2000),
    Row::Has(8, (-32_768, 32_767, 0)),
    // ldstub [%o0],%o0
    Row::Word(0xD06A_2000),
    Row::Has(8, (0, 255, 0)),
    // ldd [%o0],%o0
    Row::Word(0xD01A_2000),
    Row::Has(9, ANY),
];

/// SETHI, and Y written and read.
pub const HIGH_WORDS_AND_Y: [Row; 8] = [
    // sethi 0x3fffff,%i7
    Row::Word(0x3F3F_FFFF),
    Row::Has(31, (-1_024, -1_024, 3)),
    Row::Form(31, -1_024, &[]),
    // wr %i7,1024
    Row::Word(0x8187_E400),
    // rd %y,%g1
    Row::Word(0x8340_0000),
    Row::Has(1, (-2_048, -2_048, 3)),
    // wr %g2,0
    Row::Word(0x8180_A000),
    Row::Y(None),
];

/// A service, quotients and a call.
pub const QUOTIENTS: [Row; 13] = [
    // ta 1
    Row::Word(0x91D0_2001),
    Row::Has(8, (-1, 255, 0)),
    // udiv %o0,2,%o1
    Row::Word(0x9272_2002),
    Row::HasNot(9),
    Row::Codes(false),
    Row::Set(8, Some((3, 9, 0))),
    Row::SetY(Some((0, 0, 3))),
    // sdivcc %o0,2,%o1
    Row::Word(0x92FA_2002),
    Row::Has(9, (1, 4, 0)),
    Row::Codes(true),
    // call .+8
    Row::Word(0x4000_0002),
    Row::Has(9, (1, 4, 0)),
    Row::Codes(true),
];

/// Outs become ins, and nothing else is known.
pub const SAVED: [Row; 18] = [
    Row::Set(1, Some(FEW)),
    Row::Set(1_039, Some(MANY)),
    Row::SetY(Some(FEW)),
    Row::SetCodes(true),
    Row::Set(8, Some(FEW)),
    Row::Set(13, Some(MANY)),
    Row::Set(16, Some(FEW)),
    Row::Set(24, Some(MANY)),
    // save %sp,-96,%sp
    Row::Word(0x9DE3_BFA0),
    Row::Has(24, FEW),
    Row::Has(29, MANY),
    Row::HasNot(25),
    Row::HasNot(8),
    Row::HasNot(1),
    Row::HasNot(1_039),
    Row::HasNot(16),
    Row::Y(None),
    Row::Codes(false),
];

/// Sums of locations have forms.
pub const SUMS: [Row; 15] = [
    Row::Form(8, 0, &[(8, 1)]),
    Row::HasNot(9),
    // add %o0,%l0,%o1
    Row::Word(0x9202_0010),
    Row::Form(9, 0, &[(8, 1), (16, 1)]),
    Row::Has(9, (0, 410, 0)),
    // subcc %o1,3,%o2
    Row::Word(0x94A2_6003),
    Row::Form(10, -3, &[(8, 1), (16, 1)]),
    Row::Codes(true),
    // sub %o2,%o0,%o3
    Row::Word(0x9622_8008),
    Row::Form(11, -3, &[(16, 1)]),
    // or %g0,%o3,%o4
    Row::Word(0x9810_000B),
    Row::Form(12, -3, &[(16, 1)]),
    // sll %o0,2,%o5
    Row::Word(0x9B2A_2002),
    Row::NoForm(13),
    Row::Has(13, (0, 40, 2)),
];

/// The least value of a form.
pub const LEAST: [Row; 3] = [
    // sub %o0,%l0,%o1
    Row::Word(0x9222_0010),
    // add %o1,7,%o1
    Row::Word(0x9202_6007),
    Row::Least(9, -393),
];

/// Eight terms are kept, and nine are not.
pub const EIGHT: [Row; 11] = [
    // add %l0,%l1,%o0
    Row::Word(0x9004_0011),
    // add %o0,%l2,%o0
    Row::Word(0x9002_0012),
    // add %o0,%l3,%o0
    Row::Word(0x9002_0013),
    // add %o0,%l4,%o0
    Row::Word(0x9002_0014),
    // add %o0,%l5,%o0
    Row::Word(0x9002_0015),
    // add %o0,%l6,%o0
    Row::Word(0x9002_0016),
    // add %o0,%l7,%o0
    Row::Word(0x9002_0017),
    Row::Form(
        8,
        0,
        &[
            (16, 1),
            (17, 1),
            (18, 1),
            (19, 1),
            (20, 1),
            (21, 1),
            (22, 1),
            (23, 1),
        ],
    ),
    // add %o0,%i0,%o0
    Row::Word(0x9002_0018),
    Row::NoForm(8),
    Row::Has(8, (0, 9, 0)),
];

/// Comparisons, and what ends them.
pub const COMPARED: [Row; 15] = [
    // subcc %o0,5,%g0
    Row::Word(0x80A2_2005),
    Row::Branch(Cond::Less, true),
    Row::Has(8, (0, 4, 0)),
    // orcc %g0,%o0,%g0
    Row::Word(0x8090_0008),
    Row::Branch(Cond::NotEqual, true),
    Row::Has(8, (1, 4, 0)),
    // addcc %o0,1,%g0
    Row::Word(0x8082_2001),
    Row::Branch(Cond::Equal, true),
    Row::Has(8, (1, 4, 0)),
    // subcc %o0,1,%o0
    Row::Word(0x90A2_2001),
    Row::Branch(Cond::NotEqual, true),
    Row::Has(8, (1, 3, 0)),
    // umul %o0,%o0,%o1
    Row::Word(0x9252_0008),
    Row::Y(Some(ANY)),
    Row::Has(9, (1, 9, 0)),
];

/// SAVE and RESTORE keep forms.
pub const WINDOWS: [Row; 9] = [
    // add %o0,1,%g1
    Row::Word(0x8202_2001),
    Row::Has(1, (1, 11, 0)),
    // save %sp,-96,%sp
    Row::Word(0x9DE3_BFA0),
    Row::Form(24, 0, &[(8, 1)]),
    Row::HasNot(1),
    // restore %i0,7,%o1
    Row::Framed(96, 0x93EE_2007),
    Row::Form(8, 0, &[(8, 1)]),
    Row::Form(9, 7, &[(8, 1)]),
    Row::HasNot(24),
];

/// A call that has returned.
pub const RETURNED: [Row; 9] = [
    Row::Set(1, Some(FEW)),
    Row::Set(1_039, Some(FEW)),
    Row::Return((1, 2, 0)),
    Row::Has(8, (1, 2, 0)),
    Row::NoForm(8),
    Row::HasNot(1),
    Row::HasNot(9),
    Row::Form(16, 0, &[(16, 1)]),
    Row::Has(1_039, FEW),
];

// Results worked out by hand, by the rules of appendix B. Those of another machine are in the program v8_vectors.
use super::icc_of;
use crate::rows::each_holds;
use v8_alu::{AluOut, Division, Op, TaggedOp, alu, divide, tagged_tv};
use v8_word::Icc;

/// A division, Y and its operands, and the value and the codes that it leaves; none where the divisor is 0.
type Divided = (Division, [u32; 3], Option<(u32, u8)>);

const DIVIDED: [Divided; 6] = [
    (
        Division::SdivCc,
        [0xffff_ffff, 0x8000_0000, 0xffff_ffff],
        Some((0x7fff_ffff, 2)),
    ),
    (Division::UdivCc, [1, 0, 1], Some((0xffff_ffff, 10))),
    (Division::Udiv, [0, 1, 0], None),
    (Division::UdivCc, [0, 1, 0], None),
    (Division::Sdiv, [0, 1, 0], None),
    (Division::SdivCc, [0, 1, 0], None),
];

/// Whether a division leaves its value and its codes, or nothing.
fn divides(row: &Divided) -> bool {
    let (op, [y, a, b], want) = *row;
    match (divide(op, a, b, Icc::default(), y), want) {
        (Some(out), Some((value, codes))) => out.value == value && out.icc == icc_of(codes),
        (None, None) => true,
        _ => false,
    }
}

/// Whether a step of a multiplication adds, and shifts Y.
fn steps() -> bool {
    let step = alu(Op::MulsCc, 2, 3, Icc::default(), 1);
    step.value == 4 && step.y == 0
}

#[test]
fn quotients_and_steps_by_hand(rt: HostRuntime) {
    each_holds(&rt, &DIVIDED, divides);
    assert!(rt; steps());
}

/// Whether a trapping form, Y 7 before it, gives its value and its codes and leaves Y; or nothing.
fn gives(row: &Tagged) -> bool {
    let (op, a, b, want) = *row;
    match (tagged_tv(op, a, b, Icc::default(), 7), want) {
        (Some(out), Some((value, codes))) => out
            == AluOut {
                value,
                icc: icc_of(codes),
                y: 7,
            },
        (None, None) => true,
        _ => false,
    }
}

/// A form with its operands, and the value and the codes that it gives; none where it traps.
type Tagged = (TaggedOp, u32, u32, Option<(u32, u8)>);

const TAGGED: [Tagged; 7] = [
    (TaggedOp::TaggedAdd, 1, 0, None),
    (TaggedOp::TaggedAdd, 8, 4, Some((12, 0))),
    (TaggedOp::TaggedAdd, 0x7fff_fffc, 4, None),
    (TaggedOp::TaggedAdd, 0xffff_fffc, 4, Some((0, 5))),
    (TaggedOp::TaggedSub, 8, 2, None),
    (TaggedOp::TaggedSub, 4, 8, Some((0xffff_fffc, 9))),
    (TaggedOp::TaggedSub, 0x8000_0000, 4, None),
];

#[test]
fn trapping_tagged_forms(rt: HostRuntime) {
    each_holds(&rt, &TAGGED, gives);
}

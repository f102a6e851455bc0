//! Turns of a board, one by one.
use crate::acts::{Act, Happening, Script, View, go};
use crate::images::{End, GREETING, NOP, PUT, SAVE};
use crate::ports::Fault;
use std::test::Fail;
use v8_core::DataAccess;
use v8_word::Size;

/// A board without an image ends in two turns, and an image may be loaded then: a trap is told in the turn that met it.
const ONE_BY_ONE: [Act; 6] = [
    Act::User(Happening::Trapped(0x01), 0x0004_0000, None, 0x46),
    Act::Supervisor(Happening::ErrorMode(0x01), 0xF000_0010, None, None, 0x66),
    Act::Run(End::ErrorMode(0x01), 2, 0, 0x66),
    Act::Load(&[0x033C_0000, 0xC400_4000], &[]),
    Act::Steps(1),
    Act::User(
        Happening::Trapped(0x09),
        0x0004_0004,
        Some(0xC400_4000),
        0x30E,
    ),
];

/// A port that fails at its first call leaves that turn undone, and the run goes on from there.
const MADE_AGAIN: [Act; 5] = [
    Act::Load(&GREETING, &[]),
    Act::CutShort(Fault::Writer),
    Act::Shows(View::State(0x83, 2)),
    Act::Shows(View::Word(0x1_0000, 0x9010_2048)),
    Act::Run(End::Exit(0), 16, 0, 0),
];

/// Loads and stores that are refused: every turn before runs, and the trap is told in its own turn, without an access.
const REFUSED: [Act; 8] = [
    Act::Load(&[0x033C_0000, 0xC400_4000], &[]),
    Act::Steps(1),
    Act::User(
        Happening::Trapped(0x09),
        0x0004_0004,
        Some(0xC400_4000),
        0x30E,
    ),
    Act::Load(&[0x0300_0100, 0xC020_4000], &[]),
    Act::Steps(1),
    Act::User(
        Happening::Trapped(0x09),
        0x0004_0004,
        Some(0xC020_4000),
        0x38A,
    ),
    Act::Load(&[0xC400_0000], &[]),
    Act::User(
        Happening::Trapped(0x09),
        0x0004_0000,
        Some(0xC400_0000),
        0x206,
    ),
];

/// `ba,a` over a SAVE, and `bne,a` not taken over a store: the slot is one turn that changes neither the window nor
/// memory.
const ANNULLED: [Act; 16] = [
    Act::Load(&[0x3080_0002, SAVE, NOP], &[]),
    Act::Steps(1),
    Act::Shows(View::State(0x20, 2)),
    Act::User(Happening::Annulled, 0x0004_0004, None, 0),
    Act::Shows(View::State(0x20, 2)),
    Act::Shows(View::Word(0x9_FFC0, 0)),
    Act::Shows(View::Pages([1, 0, 0], [0, 0, 0])),
    Act::User(Happening::Ran, 0x0004_0008, Some(NOP), 0),
    Act::Load(&[0x80A0_0000, 0x3280_0002, 0xDC23_A000, NOP], &[]),
    Act::Steps(2),
    Act::Shows(View::State(0x40_0020, 2)),
    Act::User(Happening::Annulled, 0x0004_0008, None, 0),
    Act::Shows(View::State(0x40_0020, 2)),
    Act::Shows(View::Word(0x9_FFC0, 0)),
    Act::Shows(View::Pages([1, 0, 0], [0, 0, 0])),
    Act::User(Happening::Ran, 0x0004_000C, Some(NOP), 0),
];

/// The store that puts a byte out.
const PUTS: DataAccess = DataAccess {
    va: 0xF001_0004,
    pa: 0x1_0000_0004,
    size: Size::Word,
    store: true,
};

/// A store to the device whose port fails leaves everything as it was; the same store completes once the port works,
/// and marks the entry that maps the device.
const STORED_AGAIN: [Act; 12] = [
    Act::Load(&GREETING, &[]),
    Act::Steps(1),
    Act::User(Happening::Trapped(0x82), 0x0004_0004, Some(PUT), 0),
    Act::Steps(1),
    Act::Shows(View::Word(0x2D40, 0x1000_001E)),
    Act::Undone(Fault::Writer),
    Act::Shows(View::Word(0x2D40, 0x1000_001E)),
    Act::Shows(View::Output(b"")),
    Act::Supervisor(
        Happening::Ran,
        0xF000_0824,
        Some(0xF024_E004),
        Some(PUTS),
        0,
    ),
    Act::Shows(View::Word(0x2D40, 0x1000_007E)),
    Act::Shows(View::Output(b"H")),
    Act::Shows(View::NoEnd),
];

static SCRIPTS: [Script; 5] = [
    Script {
        name: "turns are told one by one",
        input: b"",
        fails: 0,
        at_put: Fault::Writer,
        acts: &ONE_BY_ONE,
    },
    Script {
        name: "a failed turn is made again",
        input: b"",
        fails: 1,
        at_put: Fault::Writer,
        acts: &MADE_AGAIN,
    },
    Script {
        name: "refused accesses trap in their turn",
        input: b"",
        fails: 0,
        at_put: Fault::Writer,
        acts: &REFUSED,
    },
    Script {
        name: "annulled slots are turns without effect",
        input: b"",
        fails: 0,
        at_put: Fault::Writer,
        acts: &ANNULLED,
    },
    Script {
        name: "a failed store is done again",
        input: b"",
        fails: 1,
        at_put: Fault::Writer,
        acts: &STORED_AGAIN,
    },
];

#[test]
fn turns_go_by_their_scripts(rt: HostRuntime) -> Result<(), Fail> {
    go(&rt, rt.alloc(), &SCRIPTS)
}

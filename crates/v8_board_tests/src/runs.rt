//! Runs of raw words on a board.
use crate::acts::{Act, Script, View, go};
use crate::images::{EXIT, End, GET, GREETING, LOADS, NOP, PUT, SAVE, STORES_AFTER_A_LOAD};
use crate::ports::Fault;
use crate::programs::ECHO;
use std::test::Fail;

const NO_PAGES: [u64; 3] = [0, 0, 0];

/// The first page of code alone.
const CODE: [u64; 3] = [1, 0, 0];

/// SAVEs with %sp at the device: `sethi 0x3C0040,%sp; ba .+0; save %sp,0,%sp`.
const INTO_THE_DEVICE: [u32; 3] = [0x1D3C_0040, 0x1080_0000, 0x9DE3_A000];

/// The same with %sp in the code, which no store may change.
const INTO_THE_CODE: [u32; 3] = [0x1D00_0100, 0x1080_0000, 0x9DE3_A000];

/// Words, one after another on one board, with the ends of their runs.
const WORKED_OUT: [Act; 20] = [
    Act::Load(&[0x033C_0000, 0xC400_4000], &[]),
    Act::Run(End::Trapped(0x09), 4, 0, 0x30E),
    Act::Load(&[0x0300_0100, 0xC020_4000], &[]),
    Act::Run(End::Trapped(0x09), 4, 0, 0x38A),
    Act::Load(&[0xC400_0000], &[]),
    Act::Run(End::Trapped(0x09), 3, 0, 0x206),
    Act::Load(&[0xC218_2001], &[]),
    Act::Run(End::Trapped(0x02), 3, 0, 0),
    Act::Load(&[0x81C8_0000], &[]),
    Act::Run(End::Trapped(0x03), 3, 0, 0),
    Act::Load(&INTO_THE_DEVICE, &[]),
    Act::Run(End::ErrorMode(0x09), 19, 1, 0x3B6),
    Act::Load(&INTO_THE_CODE, &[]),
    Act::Run(End::ErrorMode(0x09), 19, 1, 0x3AA),
    Act::Load(&[0x1080_0000, NOP], &[]),
    Act::Run(End::Limit, 100, 0, 0),
    Act::Load(&GREETING, &[]),
    Act::Run(End::Exit(0), 16, 0, 0),
    Act::Shows(View::Output(b"Hi")),
    Act::Shows(View::Pages(CODE, NO_PAGES)),
];

// mov 72,%o0 between the puts
const GETS_AND_PUTS: [u32; 5] = [GET, PUT, 0x9010_2048, PUT, EXIT];

/// The port fails once, at a get. The run goes on with that call, and ends as if the port had not failed: 5 turns for
/// each get and put, 1 for the OR, 3 for the exit.
const AFTER_A_GET: [Act; 5] = [
    Act::Load(&GETS_AND_PUTS, &[]),
    Act::CutShort(Fault::Reader),
    Act::Shows(View::Failures(1)),
    Act::Run(End::Exit(0x48), 19, 0, 0),
    Act::Shows(View::Output(b"\xFFH")),
];

/// The same where it fails at a put.
const AFTER_A_PUT: [Act; 5] = [
    Act::Load(&GETS_AND_PUTS, &[]),
    Act::CutShort(Fault::Writer),
    Act::Shows(View::Failures(1)),
    Act::Run(End::Exit(0x48), 19, 0, 0),
    Act::Shows(View::Output(b"\xFFH")),
];

/// A port that has no memory for a byte is asked for it again, and the run then ends as if there had been memory: each
/// turn is counted once, that which failed too.
const AFTER_WANT_OF_MEMORY: [Act; 6] = [
    Act::Load(&ECHO, &[]),
    Act::CutShort(Fault::Memory),
    Act::Shows(View::Output(b"a")),
    Act::Run(End::Exit(0), 62, 0, 0),
    Act::Shows(View::Output(b"abc")),
    Act::Shows(View::Failures(1)),
];

// of the three SAVEs the last overflows; then the greeting's words
const OVERFLOWS: [u32; 9] = [
    SAVE,
    SAVE,
    SAVE,
    0x9010_2048,
    PUT,
    0x9010_2069,
    PUT,
    0x9010_2000,
    EXIT,
];

/// A run leaves the trap table, the handlers, the tables, the code and the data as they were loaded, but for R and M:
/// the first code page and the last stack page are marked.
const ASIDE: [Act; 8] = [
    Act::Load(&OVERFLOWS, &[]),
    Act::Shows(View::Pages(NO_PAGES, NO_PAGES)),
    Act::Shows(View::Word(0x2A00, 0x1012)),
    Act::Shows(View::Word(0x2CFC, 0x9F06)),
    Act::RunAside(End::Exit(0), 43, 1, 0),
    Act::Shows(View::Pages([1, 0, 1 << 63], [0, 0, 1 << 63])),
    Act::Shows(View::Word(0x2A00, 0x1032)),
    Act::Shows(View::Word(0x2CFC, 0x9F66)),
];

/// SAVEs whose first spill is refused: the machine ends in error mode, nothing is put out, and below the stack nothing
/// but R of pages that were fetched from has changed. The entries of the last stack page and of the device are without
/// a mark.
const REFUSED_AT_THE_DEVICE: [Act; 10] = [
    Act::Load(&INTO_THE_DEVICE, &[]),
    Act::Shows(View::Word(0x2A00, 0x1012)),
    Act::Shows(View::Word(0x2CFC, 0x9F06)),
    Act::Shows(View::Word(0x2D40, 0x1000_001E)),
    Act::RunAside(End::ErrorMode(0x09), 19, 1, 0x3B6),
    Act::Shows(View::Output(b"")),
    Act::Shows(View::Pages(CODE, NO_PAGES)),
    Act::Shows(View::Word(0x2A00, 0x1032)),
    Act::Shows(View::Word(0x2CFC, 0x9F06)),
    Act::Shows(View::Word(0x2D40, 0x1000_001E)),
];

/// The same at the code.
const REFUSED_AT_THE_CODE: [Act; 10] = [
    Act::Load(&INTO_THE_CODE, &[]),
    Act::Shows(View::Word(0x2A00, 0x1012)),
    Act::Shows(View::Word(0x2CFC, 0x9F06)),
    Act::Shows(View::Word(0x2D40, 0x1000_001E)),
    Act::RunAside(End::ErrorMode(0x09), 19, 1, 0x3AA),
    Act::Shows(View::Output(b"")),
    Act::Shows(View::Pages(CODE, NO_PAGES)),
    Act::Shows(View::Word(0x2A00, 0x1032)),
    Act::Shows(View::Word(0x2CFC, 0x9F06)),
    Act::Shows(View::Word(0x2D40, 0x1000_001E)),
];

/// A board that has run an image with a page of data is loaded with one without, whose load finds no page there, and
/// with the first again, whose pages have no marks but its own.
const OWN_PAGES: [Act; 9] = [
    Act::Load(&STORES_AFTER_A_LOAD, &[0; 8]),
    Act::Run(End::Exit(0), 7, 0, 0),
    Act::Shows(View::Pages([1, 1, 0], [0, 1, 0])),
    Act::Load(&LOADS, &[]),
    Act::Run(End::Trapped(0x09), 4, 0, 0x306),
    Act::Shows(View::Pages(CODE, NO_PAGES)),
    Act::Load(&LOADS, &[0; 8]),
    Act::Run(End::Exit(0), 6, 0, 0),
    Act::Shows(View::Pages([1, 1, 0], NO_PAGES)),
];

/// A script over a port without input, whose call of this number fails.
macro_rules! script {
    ($name:literal, $fails:literal, $acts:ident) => {
        Script {
            name: $name,
            input: b"",
            fails: $fails,
            at_put: Fault::Writer,
            acts: &$acts,
        }
    };
}

static SCRIPTS: [Script; 9] = [
    script!("words end as worked out", 0, WORKED_OUT),
    script!("a run goes on after a failed get", 1, AFTER_A_GET),
    script!("a run goes on after a failed put", 2, AFTER_A_PUT),
    script!("a run goes on after a failed second put", 3, AFTER_A_PUT),
    Script {
        name: "a run goes on after want of memory",
        input: b"abc",
        fails: 4,
        at_put: Fault::Memory,
        acts: &AFTER_WANT_OF_MEMORY,
    },
    script!("a run changes nothing below the stack", 0, ASIDE),
    script!(
        "a spill refused at the device changes nothing",
        0,
        REFUSED_AT_THE_DEVICE
    ),
    script!(
        "a spill refused at the code changes nothing",
        0,
        REFUSED_AT_THE_CODE
    ),
    script!("another image runs on its own pages", 0, OWN_PAGES),
];

#[test]
fn runs_go_by_their_scripts(rt: HostRuntime) -> Result<(), Fail> {
    go(&rt, rt.alloc(), &SCRIPTS)
}

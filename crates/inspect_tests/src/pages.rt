//! The data of pages, held against lines that were made apart, of the texts that tell the same runs.
ghost use Rattle.std.specs.Prelude.{◌≤◌};

use inspect_page::page_windows;
use sbx_asm::assemble;
use std::alloc::Global;
use std::process::Abort;
use std::test::Fail;

/// A program that enters a window, gets and puts out a byte, has a slot annulled, stores, and loads what it may not.
const SERVED: &[u8] =
    b".services exit,get,put\n.function main,framed,96,0,0\n    save %sp,-96,%sp\n    ta 1\n    ta 2\n\
    ba,a one\n    clr %o0\none:\n    st %o0,[%sp+64]\n    ld [%g0],%g1\n";

/// What each turn of its run on 4 windows changed.
const TURNS: &[u8] = b"\nt\nr03EFFF60q23k2A001032\nt81r03140004r03240008q82\nr033F0010000k2D003A\n\
    r03841l4F0010000k2D401000003Eu\nc40008\nq23\nt82r03140008r0324000Cq82\n\n\
    s4F0010004k2D401000007Eo41\nc4000C\nq23\n\na\n\
    s4000FFFA0m000FFFA041k2CFC9F66\nt09r03140018r0324001Cq82f206j00000000\n\nhs4F001000C\n";

/// What the data tell of it before the turns.
const PARTS: [&[u8]; 8] = [
    b"f0 40000 1 96 0 0 0\nb0 40000 0\nw40000 9DE3BFA0 save %sp,-96,%sp\n",
    b"e2A00 1012\n",
    b"r40000 40004 20 2 F0000000 0\ngE FFFC0\n",
    b"n4 17 100000 1\n",
    b"wF0000818 81C48000 jmpl %l2+%g0,%g0\n",
    b"k09 646174615F6163636573735F657863657074696F6E\n",
    b"q206 invalid address at level 2, load from user data\n",
    b"s4000C 1 62612C61206F6E65\n",
];

/// A loop that ends by no turn.
const ENDLESS: &[u8] =
    b".function main,leaf,0,0,0\nhere:\n    ba here\n    nop\n.data\n    .word 7\n    .skip 262136\n";

/// Whether a text has another one in it.
fn has(text: &[u8], part: &[u8]) -> bool {
    for start in 0..text.len() {
        let (_before, rest) = text.split_at(start);
        if rest.starts_with(part) {
            return true;
        }
    }
    false
}

/// What stands in a text behind the first place of another one; nothing where that isn't in it.
fn behind<'a>(text: &'a [u8], part: &[u8]) -> &'a [u8] {
    for start in 0..text.len() {
        let (_before, rest) = text.split_at(start);
        if rest.starts_with(part) {
            let (_part, rest) = rest.split_at(part.len().min(rest.len()));
            return rest;
        }
    }
    b""
}

/// How many lines end in a text.
fn line_count(text: &[u8]) -> usize {
    text.iter().filter(|byte| **byte == b'\n').count()
}

/// The data of a source's run.
fn data_of(
    alloc: Global,
    windows: u32,
    source: &[u8],
    input: &[u8],
    limit: u64,
) -> Result<Vec<u8>, Fail>
    requires { (4 ≤ windows) × (windows ≤ 32) }
{
    let image = assemble(alloc, source).ok().ok_or("no image")?;
    Ok(
        page_windows(alloc, windows, image, Some(source), input, limit)
            .ok()
            .ok_or("no data")?,
    )
}

/// Asserts that a text has each of the parts, and ends with the turns.
fn has_all(rt: &impl Abort, text: &[u8]) {
    for part in PARTS {
        assert!(rt; has(text, part));
    }
    assert!(rt; text.ends_with(TURNS));
}

/// On the fewest windows.
#[test]
fn turns_are_told(rt: HostRuntime) -> Result<(), Fail> {
    let text = data_of(rt.alloc(), 4, SERVED, b"A", 100_000)?;
    has_all(&rt, text.as_slice());
    Ok(())
}

/// Asserts that a text tells a run that was cut short: the refusal, and no turn more than the limit.
fn is_cut_short(rt: &impl Abort, text: &[u8]) {
    assert!(rt; line_count(behind(text, b"\nt\n")) == 20_000);
    assert!(rt; has(text, b"d80000 40000 1 00000007\n"));
    assert!(rt; has(text, b"n32 20000 20000 0\n"));
    assert!(rt; has(text, b"vrefused V"));
}

/// On the most windows, with the most data, and cut short.
#[test]
fn a_run_is_cut_short(rt: HostRuntime) -> Result<(), Fail> {
    let text = data_of(rt.alloc(), 32, ENDLESS, b"", 20_000)?;
    is_cut_short(&rt, text.as_slice());
    Ok(())
}

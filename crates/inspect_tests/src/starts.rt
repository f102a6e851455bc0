//! Starts as their bytes spell them, worked out by hand.
use inspect_start::{ControlValue, Register, Start, StartCause, StartFault, read_start};
use std::alloc::Global;
use std::process::Abort;
use std::test::Fail;

/// A file that has each kind of line: comments, blanks, and things that are said twice.
const LINES: &[u8] = b"0x10 0x01020304 5 ! \xFF\r\n\n!\n pc 8\n%psr 0xA7\nwindow 7\t\n\
        %g1 0x3000\n%sp 16\npc 0x2000\ncontext_table 0xFFFFFFFFC\nwindow 0\n%i7 1\ny 4294967295";

/// The registers that it sets: window, number and word of each.
const SET: [(u8, u8, u32); 3] = [(7, 1, 0x3000), (7, 14, 16), (0, 31, 1)];

/// Asserts what it says of the state registers and the MMU's.
fn has_control(rt: &impl Abort, control: &ControlValue) {
    assert!(rt; control.pc == 0x2000 && control.npc == 4 && control.psr == 0xA7);
    assert!(rt; control.wim == 0 && control.tbr == 0 && control.y == u32::MAX);
    assert!(rt; control.table == 0xF_FFFF_FFFC && control.context == 0);
}

/// Asserts what it says of registers.
fn has_registers(rt: &impl Abort, registers: &[Register]) {
    assert!(rt; registers.len() == SET.len());
    for (register, wanted) in registers.iter().zip(SET.iter()) {
        let (window, number, word) = *wanted;
        assert!(rt; register.window == window && register.register.number() == number);
        assert!(rt; register.word == word);
    }
}

/// Asserts what it says, with a binary, of RAM.
fn has_ram(rt: &impl Abort, ram: &[u8]) {
    let wanted = [0, 1, 2, 3, 4, 0, 0, 0, 5, 9, 0];
    assert!(rt; ram.get(0xF..0x1A) == Some(wanted.as_slice()));
}

fn has_lines(rt: &impl Abort, start: &Start) {
    has_ram(rt, start.ram.as_slice());
    has_control(rt, &start.control);
    has_registers(rt, start.registers.as_slice());
}

/// A binary, and a file.
#[test]
fn lines_are_set(rt: HostRuntime) -> Result<(), Fail> {
    let start = read_start(rt.alloc(), 8, 0x17, b"\x09\x09", LINES)
        .ok()
        .ok_or("no start")?;
    has_lines(&rt, &start);
    Ok(())
}

/// A line that sets all of RAM.
fn whole_ram(alloc: Global) -> Result<String, Fail> {
    let mut file = String::from_str(alloc, "psr 31\n0")?;
    for _ in 0..0x4_0000 {
        file.push_str(" 0x01020304")?;
    }
    Ok(file)
}

/// Asserts that RAM is as that line sets it.
fn is_whole(rt: &impl Abort, ram: &[u8]) {
    assert!(rt; ram.len() == 0x10_0000);
    assert!(rt; ram.first_chunk::<5>() == Some(&[1, 2, 3, 4, 1]));
    assert!(rt; ram.last_chunk::<5>() == Some(&[4, 1, 2, 3, 4]));
}

/// All of RAM by a binary, and again by one line, on 32 windows.
#[test]
fn all_of_ram_is_set(rt: HostRuntime) -> Result<(), Fail> {
    let binary = vec![in rt.alloc(); 7; 0x10_0000]?;
    let file = whole_ram(rt.alloc())?;
    let start = read_start(
        rt.alloc(),
        32,
        0,
        binary.as_slice(),
        file.as_str().as_bytes(),
    )
    .ok()
    .ok_or("no start")?;
    is_whole(&rt, start.ram.as_slice());
    Ok(())
}

/// Whether what is told is a place behind RAM, on the second line.
fn is_behind_ram(fault: &StartFault) -> bool {
    fault.line == 2 && fault.cause == StartCause::Address
}

/// All of RAM by one line, and a word more.
#[test]
fn a_word_behind_ram_is_told(rt: HostRuntime) -> Result<(), Fail> {
    let mut file = whole_ram(rt.alloc())?;
    file.push_str(" 5")?;
    let fault = read_start(rt.alloc(), 32, 0, b"", file.as_str().as_bytes())
        .err()
        .ok_or("a word is too much")?;
    assert!(rt; is_behind_ram(&fault));
    Ok(())
}

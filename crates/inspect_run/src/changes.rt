//! What a turn changed.
use crate::sheet::Sheet;
use inspect_image::Location;
use sbx_raw::PageUse;
use std::alloc::AllocError;
use v8_map::{CODE_START, DATA_END, DATA_START, PAGE};

/// What a board shows beside its registers and its memory: PSR, WIM, Y, and which pages of code, data and stack were
/// referenced and modified.
#[derive(Clone, Copy)]
pub struct Shown {
    pub psr: u32,
    pub wim: u32,
    pub y: u32,
    pub pages: PageUse,
}

/// The bits of PSR that are N, Z, V and C.
const CODES: u32 = 0x00F0_0000;

/// The condition codes by their letters (chapter 4), a dash for each that is 0.
const LETTERS: [&str; 16] = [
    " icc=----",
    " icc=---C",
    " icc=--V-",
    " icc=--VC",
    " icc=-Z--",
    " icc=-Z-C",
    " icc=-ZV-",
    " icc=-ZVC",
    " icc=N---",
    " icc=N--C",
    " icc=N-V-",
    " icc=N-VC",
    " icc=NZ--",
    " icc=NZ-C",
    " icc=NZV-",
    " icc=NZVC",
];

/// Puts a register of the current window by its number.
pub fn put_register(sheet: &mut Sheet, number: u8, word: u32) -> Result<(), AllocError> {
    let location = Location(u16::from(number));
    sheet.put(format_args!("{location}={word:08X}"))
}

/// Puts a word of memory, where there is one.
pub fn put_stored(sheet: &mut Sheet, address: u32, word: Option<u32>) -> Result<(), AllocError> {
    match word {
        Some(word) => sheet.put(format_args!("[{address:08X}]={word:08X}")),
        None => Ok(()),
    }
}

/// Puts PSR where it changed, and its condition codes by their letters where one of them changed.
fn put_psr(sheet: &mut Sheet, before: u32, now: u32) -> Result<(), AllocError> {
    if before == now {
        return Ok(());
    }
    let codes = if (before ^ now) & CODES == 0 {
        ""
    } else {
        LETTERS[((now >> 20) & 15) as usize]
    };
    sheet.put(format_args!("PSR={now:08X}{codes}"))
}

/// Puts a word by its name where it changed.
fn put_change(sheet: &mut Sheet, name: &str, before: u32, now: u32) -> Result<(), AllocError> {
    if before == now {
        Ok(())
    } else {
        sheet.put(format_args!("{name}{now:08X}"))
    }
}

/// Puts a page by its address, if it was referenced or modified for the first time.
fn put_page(
    sheet: &mut Sheet,
    address: u32,
    referenced: bool,
    modified: bool,
) -> Result<(), AllocError> {
    let letters = match (referenced, modified) {
        (false, false) => return Ok(()),
        (true, false) => "R",
        (false, true) => "M",
        (true, true) => "R M",
    };
    sheet.put(format_args!("page {address:08X}: {letters}"))
}

/// Puts the pages of a table, whose first page has an address, that were referenced or modified for the first time.
fn put_table(
    sheet: &mut Sheet,
    start: u32,
    referenced: u64,
    modified: u64,
) -> Result<(), AllocError> {
    if referenced | modified == 0 {
        return Ok(());
    }
    let mut address = start;
    for page in 0u32..64 {
        put_page(
            sheet,
            address,
            (referenced >> page) & 1 == 1,
            (modified >> page) & 1 == 1,
        )?;
        address = address.wrapping_add(PAGE);
    }
    Ok(())
}

/// Puts the pages that were referenced or modified for the first time.
fn put_pages(sheet: &mut Sheet, before: &PageUse, now: &PageUse) -> Result<(), AllocError> {
    for (table, start) in [(0, CODE_START), (1, DATA_START), (2, DATA_END)] {
        let referenced = now.referenced[table] & !before.referenced[table];
        let modified = now.modified[table] & !before.modified[table];
        put_table(sheet, start, referenced, modified)?;
    }
    Ok(())
}

/// Puts the bytes that the device put out.
fn put_output(sheet: &mut Sheet, output: &[u8]) -> Result<(), AllocError> {
    for byte in output {
        sheet.put(format_args!("puts out {byte:02X}"))?;
    }
    Ok(())
}

/// Puts what changed of what a board shows: PSR, WIM, Y, marks of pages, and the output that wasn't told yet.
pub fn put_changes(
    sheet: &mut Sheet,
    before: &Shown,
    now: &Shown,
    output: &[u8],
) -> Result<(), AllocError> {
    put_psr(sheet, before.psr, now.psr)?;
    put_change(sheet, "WIM=", before.wim, now.wim)?;
    put_change(sheet, "Y=", before.y, now.y)?;
    put_pages(sheet, &before.pages, &now.pages)?;
    put_output(sheet, output)
}

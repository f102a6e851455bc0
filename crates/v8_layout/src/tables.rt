//! The words of the page tables.
ghost use Rattle.std.specs.Prelude.{◌≡◌, ℕ, ◌+◌, ◌-◌, ◌*◌, ◌^◌, ◌<◌, ◌≤◌, ◌==◌, nat_lt, slice_index, length};
ghost use Rattle.std.specs.Prelude.{if◌then◌else◌};
ghost use Rattle.v8_layout.specs.Layout.{leads_to, maps, code_entry, data_entry, program_entry, region_entry};
ghost use Rattle.v8_layout.specs.Layout.{stack_entry, system_entry, system_region_entry};
ghost use Rattle.v8_layout.specs.Tables.{table_word};

use v8_map::{
    CODE_PLACE, CODE_START, CODE_TABLE, DATA_PLACE, DATA_START, DATA_TABLE, DEVICE, DEVICE_PLACE,
    HANDLERS, HANDLERS_PLACE, PAGE, PROGRAM_TABLE, REGION_TABLE, STACK_LOWEST, STACK_PLACE,
    STACK_TABLE, SYSTEM_REGION_TABLE, SYSTEM_TABLE, TRAP_TABLE, TRAP_TABLE_PLACE,
};

/// What a table of pages covers, and what a table of such tables does.
const REGION: u32 = 64 * PAGE;

const LARGE_REGION: u32 = 64 * REGION;

/// Numbers of entries: of the system in the table of large regions, of each part in that of the programs' regions, of
/// the stack's lowest page in the stack's table, and of handlers and device in the system's.
const SYSTEM: u32 = TRAP_TABLE / LARGE_REGION;

const CODE: u32 = CODE_START / REGION;

const DATA: u32 = DATA_START / REGION;

const STACK: u32 = STACK_LOWEST / REGION;

const LOWEST: u32 = STACK_LOWEST % REGION / PAGE;

const HANDLERS_PAGE: u32 = (HANDLERS - TRAP_TABLE) / PAGE;

const DEVICE_PAGE: u32 = (DEVICE - TRAP_TABLE) / PAGE;

/// ACC: what user and supervisor may execute, read, or read and write, and what the supervisor alone may read and
/// execute, or also write.
const USER_RUNS: u32 = 4;

const USER_READS: u32 = 0;

const USER_WRITES: u32 = 1;

const SYSTEM_RUNS: u32 = 6;

const SYSTEM_WRITES: u32 = 7;

/// The pages of 4 KB that a board maps: so many of code and of the stack, 64 and 16 at most, and for each page of data,
/// 64 at most, whether it may be written.
#[derive(Clone, Copy)]
pub struct Pages<'a> {
    pub code: u32,
    pub writable: &'a [bool],
    pub stack: u32,
    pub ghost few_code: { code ≤ 64 },
    pub ghost few_data: { length writable.now ≤ 64 },
    pub ghost few_stack: { stack ≤ 16 },
}

/// The entry for the table at a place.
fn leads_to(place: u32) -> u32
    ensures { result ≡ leads_to place }
{
    place / 64 * 4 + 1
}

/// The entry for the page at a place, with its ACC.
fn maps(place: u64, acc: u32) -> u32
    requires place { place < 2 ^ 36 }
    requires acc { acc < 8 }
    ensures { result ≡ maps place acc }
{
    (place / u64::from(PAGE)) as u32 * 256 + acc * 4 + 2
}

fn region_entry(i: u32) -> u32
    ensures { result ≡ region_entry i }
{
    match i {
        0 => leads_to(PROGRAM_TABLE),
        SYSTEM => leads_to(SYSTEM_REGION_TABLE),
        _ => 0,
    }
}

fn program_entry(i: u32) -> u32
    ensures { result ≡ program_entry i }
{
    match i {
        CODE => leads_to(CODE_TABLE),
        DATA => leads_to(DATA_TABLE),
        STACK => leads_to(STACK_TABLE),
        _ => 0,
    }
}

fn system_region_entry(i: u32) -> u32
    ensures { result ≡ system_region_entry i }
{
    match i {
        0 => leads_to(SYSTEM_TABLE),
        _ => 0,
    }
}

fn code_entry(pages: &Pages, i: u32) -> u32
    requires { i < 64 }
    ensures { result ≡
        code_entry (record {
          code_count = pages.now.code;
          writable = pages.now.writable.now;
          stack_count =
              pages.now.stack;
        }) i }
{
    if i < pages.code {
        maps(u64::from(CODE_PLACE), USER_RUNS) + 256 * i
    } else {
        0
    }
}

fn data_entry(pages: &Pages, i: u32) -> u32
    requires { i < 64 }
    ensures { result ≡
        data_entry (record {
          code_count = pages.now.code;
          writable = pages.now.writable.now;
          stack_count =
              pages.now.stack;
        }) i }
{
    match pages.writable.get(i as usize) {
        Some(true) => maps(u64::from(DATA_PLACE), USER_WRITES) + 256 * i,
        Some(false) => maps(u64::from(DATA_PLACE), USER_READS) + 256 * i,
        None => 0,
    }
}

fn stack_entry(pages: &Pages, i: u32) -> u32
    requires { i < 64 }
    ensures { result ≡
        stack_entry (record {
          code_count = pages.now.code;
          writable = pages.now.writable.now;
          stack_count =
              pages.now.stack;
        }) i }
{
    let first = 64 - pages.stack;
    if first <= i {
        maps(u64::from(STACK_PLACE), USER_WRITES) + 256 * (i - LOWEST)
    } else {
        0
    }
}

fn system_entry(i: u32) -> u32
    ensures { result ≡ system_entry i }
{
    match i {
        0 => maps(u64::from(TRAP_TABLE_PLACE), SYSTEM_RUNS),
        HANDLERS_PAGE => maps(u64::from(HANDLERS_PLACE), SYSTEM_RUNS),
        DEVICE_PAGE => maps(DEVICE_PLACE, SYSTEM_WRITES),
        _ => 0,
    }
}

/// Word k of the page tables.
#[tactic(auto, unfolding(crate::specs::Tables::table_word))]
fn table_word(pages: &Pages, k: u32) -> u32
    requires { k < 896 }
    ensures { result ≡
        table_word (record {
          code_count = pages.now.code;
          writable = pages.now.writable.now;
          stack_count =
              pages.now.stack;
        }) k }
{
    if k == 0 {
        leads_to(REGION_TABLE)
    } else if k < 256 {
        0
    } else if k < 512 {
        region_entry(k - 256)
    } else if k < 576 {
        program_entry(k - 512)
    } else if k < 640 {
        system_region_entry(k - 576)
    } else if k < 704 {
        code_entry(pages, k - 640)
    } else if k < 768 {
        data_entry(pages, k - 704)
    } else if k < 832 {
        stack_entry(pages, k - 768)
    } else {
        system_entry(k - 832)
    }
}

/// The words of the page tables of a board that maps these pages (appendix H). They lie from physical address 2000
/// (hexadecimal) on: the context table with context 0, then the tables of levels 1 and 2, then those of code, data,
/// stack and system.
pub fn page_tables(pages: &Pages) -> [u32; 896]
    ensures { (k : ℕ) → k < 896 →
        slice_index result k ≡
        table_word (record {
          code_count = pages.now.code;
          writable = pages.now.writable.now;
          stack_count =
              pages.now.stack;
        }) k }
{
    let mut tables = [0; 896];
    for k in 0..896 {
        tables[k] = table_word(pages, k as u32);
    }
    tables
}

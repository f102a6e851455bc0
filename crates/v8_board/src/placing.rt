//! What loading an image places in RAM.
ghost use Rattle.std.specs.Prelude.{◌≡◌, ℕ, ◌+◌, ◌-◌, ◌*◌, ◌/◌, ◌^◌, ◌<◌, ◌≤◌, length, take, false, None};
ghost use Rattle.v8_mmu.specs.Ram.{AreBytes};
ghost use Rattle.v8_contained.specs.Placing.{HasBytesOf};
ghost use Rattle.sbx_image.specs.Regions.{laid, page_rights};
ghost use Rattle.v8_board.specs.Start.{IsPlaced, at_most, pages_of};

use sbx_image::{Image, Region};
use v8_contained::{Memory, Port};
use v8_handlers::{handler_page, trap_table};
use v8_layout::{Pages, page_tables};
use v8_map::{CODE_PLACE, CONTEXT_TABLE, DATA_PLACE, HANDLERS_PLACE};

/// How many pages of so many items hold a number of items, at most `most`.
fn page_count(count: u64, items: u64, most: u64) -> u64
    requires some { 1 ≤ items }
    requires small { items ≤ 4096 }
    requires count { count < 2 ^ 63 }
    ensures value { result ≡ at_most most ((count + (items - 1)) / items) }
    ensures bound { result ≤ most }
{
    let all = (count + (items - 1)) / items;
    if all <= most { all } else { most }
}

fn at_most(most: u32, count: u32) -> u32
    ensures value { result ≡ at_most most count }
    ensures bound { result ≤ most }
{
    if count <= most { count } else { most }
}

/// Whether each page of data may be written, by the regions, one after another, and how many pages there are.
fn rights_of(regions: &[Region], rights: &mut [bool; 64]) -> usize
    requires { length (page_rights regions.now) ≤ 64 }
    ensures count { result ≡ length (page_rights regions.now) }
    ensures rights { take result rights.new ≡ page_rights regions.now }
{
    let mut pages = 0;
    for region in regions {
        let bytes = region.bytes.as_slice();
        let more = page_count(bytes.len() as u64, 4096, 64) as usize;
        rights[pages..pages + more].fill(region.writable);
        pages += more;
    }
    pages
}

/// The pages that an image takes, given the rights of its pages of data.
fn pages_of<'a>(image: &Image, rights: &'a [bool]) -> Pages<'a>
    requires rights { rights.now ≡ page_rights image.now.regions }
    requires few { length rights.now ≤ 64 }
    ensures { record { code_count = result.code; writable = result.writable.now; stack_count = result.stack } ≡
        pages_of image.now }
{
    let code = page_count(image.words().len() as u64, 1024, 64);
    Pages {
        code: code as u32,
        writable: rights,
        stack: at_most(16, u32::from(image.stack_pages())),
    }
}

/// How many words of code are placed.
fn code_words(pages: &Pages) -> u64
    ensures { result ≡ 1024 * pages.now.code }
{
    1024 * u64::from(pages.code)
}

/// Places the regions of data, one after another, each from a page's start on, and 0 in the rest of its last page.
fn place_data<P: Port>(memory: &mut Memory<P>, regions: &[Region])
    requires { length (page_rights regions.now) ≤ 64 }
    ensures data { HasBytesOf DATA_PLACE (laid regions.now)
        (4096 * length (page_rights regions.now)) memory.old.ram memory.new.ram }
    ensures port { memory.new.port ≡ memory.old.port }
    ensures ended { memory.new.ended ≡ memory.old.ended }
    ensures stopped { memory.new.stopped ≡ memory.old.stopped }
{
    let mut pages = 0;
    for region in regions {
        let bytes = region.bytes.as_slice();
        let more = page_count(bytes.len() as u64, 4096, 64);
        memory.set_bytes(DATA_PLACE as u64 + 4096 * pages, bytes, 4096 * more);
        pages += more;
    }
}

/// Places the trap table, the handlers, the tables and an image's code and data in RAM, and takes back the device's
/// stop and the end of its input.
pub(crate) fn place<const N: usize, P: Port>(memory: &mut Memory<P>, image: &Image)
    requires at_least { 4 ≤ N }
    requires at_most { N ≤ 32 }
    ensures ram { IsPlaced N image.now memory.old.ram memory.new.ram }
    ensures bytes { AreBytes memory.new.ram }
    ensures port { memory.new.port ≡ memory.old.port }
    ensures ended { memory.new.ended ≡ false }
    ensures stopped { memory.new.stopped ≡ None }
{
    let mut rights = [false; 64];
    let count = rights_of(image.regions(), &mut rights);
    let pages = pages_of(image, &rights[..count]);
    memory.set_words(0, &trap_table::<N>(), 1024);
    memory.set_words(HANDLERS_PLACE as u64, &handler_page::<N>(), 1024);
    memory.set_words(CONTEXT_TABLE as u64, &page_tables(&pages), 896);
    memory.set_words(CODE_PLACE as u64, image.words(), code_words(&pages));
    place_data(memory, image.regions());
    memory.restart();
}

//! What lies where on a LEON beside what lies there on the sandbox machine: places in RAM, from its begin on, and
//! virtual addresses of the supervisor's pages.
ghost use Rattle.std.specs.Prelude.{◌≤◌};

use leon_start::OwnWords;
use leon_words::{BOOT_WORDS, Boot, LeonServices, boot_words};

/// The routines of the services, behind the window handlers.
pub const ROUTINES: u32 = 0x1100;

/// The stub's context table, its table of regions of 16 MB, and the stub.
pub const BOOT_TABLE: u32 = 0x3000;

pub const BOOT_REGIONS: u32 = 0x3400;

pub const BOOT: u32 = 0x4000;

/// The mailbox's page, and 256 KB of input and of room for output.
pub const MAIL: u32 = 0xA_0000;

pub const BUFFERS: u32 = 0xC_0000;

/// The bytes that there are of each.
pub const ROOM: u32 = 0x2_0000;

/// Where the supervisor sees the input; the room for output follows.
const SEEN_BUFFERS: u32 = 0xF004_0000;

/// The page of a LEON3's UART, by its number.
const UART_PAGE: u32 = 0x8_0000;

/// The entries of the image's tables for the device's page, and for the region of the buffers.
const DEVICE_ENTRY: u32 = 0x2D40;

const BUFFERS_ENTRY: u32 = 0x2904;

/// The entry of the system's 16 MB in a table of them, which names the table at 2900.
const SYSTEM_ENTRY: u32 = 0x3C0;

const SYSTEM_TABLE: u32 = 0x291;

/// The words of a trap type's vector.
const VECTOR: usize = 4;

/// The trap table's words, and the first ones behind the vectors of 04, of the window traps, and of 7F, of 82.
const TABLE: usize = 1024;

const WINDOW_TRAPS: usize = 0x05 * VECTOR;

const BEHIND_WINDOW_TRAPS: usize = 0x07 * VECTOR;

const SERVICES: usize = 0x80 * VECTOR;

const BEHIND_SERVICES: usize = 0x83 * VECTOR;

/// An entry for a page of the supervisor alone, which it reads, writes and executes, by the page's number.
fn page_entry(page: u32) -> u32 {
    page.wrapping_mul(256).wrapping_add(7 * 4 + 2)
}

/// The words of the parts that are a LEON's own.
#[derive(Clone, Copy)]
pub struct LeonWords {
    stops: [u32; TABLE],
    boot: [u32; BOOT_WORDS],
    /// The entries of the device's page and of the page behind it.
    pages: [u32; 2],
    buffers: [u32; 1],
    /// The stub's tables: its context, its own 16 MB, and the system's.
    context: [u32; 1],
    here: [u32; 1],
    system: [u32; 1],
    mail: [u32; 4],
}

/// The vector of each trap type but the services and the window traps.
fn stops_of(services: &LeonServices) -> [u32; TABLE] {
    let mut table = [0; TABLE];
    if let [first, second, third, fourth] = services.stop() {
        let vector = [*first, *second, *third, *fourth];
        for k in 0..TABLE {
            table[k] = vector[k % VECTOR];
        }
    }
    table
}

/// The entries of the device's page, and of the page behind it.
fn pages_of(services: &LeonServices, base: u32) -> [u32; 2] {
    let mailbox = page_entry(base / 4096 + MAIL / 4096);
    match services {
        LeonServices::Mailbox => [mailbox, 0],
        LeonServices::Uart => [mailbox, page_entry(UART_PAGE)],
        LeonServices::Device(page) => [page_entry(*page), 0],
    }
}

/// The words of a LEON's own, where RAM begins at `base` and the input has so many bytes.
pub fn leon_words(services: &LeonServices, windows: u32, base: u32, input: u32) -> LeonWords
    requires few { 4 ≤ windows }
    requires many { windows ≤ 32 }
    requires input { input ≤ 131072 }
{
    let boot = Boot {
        windows,
        base,
        leave: services.leave(),
    };
    LeonWords {
        stops: stops_of(services),
        boot: boot_words(&boot),
        pages: pages_of(services, base),
        buffers: [page_entry(base / 4096 + BUFFERS / 4096)],
        context: [base / 16 + BOOT_REGIONS / 16 + 1],
        here: [page_entry(base / 4096)],
        system: [base / 16 + SYSTEM_TABLE],
        mail: [
            SEEN_BUFFERS,
            SEEN_BUFFERS + input,
            SEEN_BUFFERS + ROOM,
            SEEN_BUFFERS + 2 * ROOM,
        ],
    }
}

/// Words from a place in RAM on.
fn words_at<'a>(place: u32, words: &'a [u32]) -> OwnWords<'a> {
    OwnWords {
        first: u64::from(place / 4),
        words,
    }
}

impl LeonWords {
    /// The stops of the trap table from one word's number up to another one.
    fn stops_in(&self, services: &LeonServices, first: usize, behind: usize) -> OwnWords<'_>
        requires order { first ≤ behind }
        requires end { behind ≤ 1024 }
    {
        let words: &[u32] = if services.stop().is_empty() {
            &[]
        } else {
            &self.stops[first..behind]
        };
        OwnWords {
            first: first as u64,
            words,
        }
    }

    /// Each part with its place. The mailbox, and the input's words, lie in RAM where the services go by them.
    pub fn parts<'a>(
        &'a self,
        services: &'a LeonServices,
        base: u32,
        input: &'a [u32],
    ) -> [OwnWords<'a>; 13] {
        let with_mail = matches!(services, LeonServices::Mailbox);
        [
            self.stops_in(services, 0, WINDOW_TRAPS),
            self.stops_in(services, BEHIND_WINDOW_TRAPS, SERVICES),
            words_at(SERVICES as u32 * 4, services.vectors()),
            self.stops_in(services, BEHIND_SERVICES, TABLE),
            words_at(ROUTINES, services.routines()),
            words_at(DEVICE_ENTRY, &self.pages),
            words_at(BUFFERS_ENTRY, if with_mail { &self.buffers } else { &[] }),
            words_at(BOOT_TABLE, &self.context),
            words_at(BOOT_REGIONS + SYSTEM_ENTRY, &self.system),
            words_at(BOOT_REGIONS + base / 0x100_0000 * 4, &self.here),
            words_at(BOOT, &self.boot),
            words_at(MAIL, if with_mail { &self.mail } else { &[] }),
            words_at(BUFFERS, input),
        ]
    }
}

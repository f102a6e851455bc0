// Walks of page tables in RAM (appendix H, "Translation").
ghost use Rattle.std.specs.Prelude.{◌≡◌, ℕ};

use std::process::Abort;
use v8_mmu::laws::{
    addresses_lead_one_way, fault_is_unique, marks_two_bits, no_fault_on_a_path, path_is_unique,
    stores_one_number,
};
use v8_mmu::{
    Access, AccessKind, Bus, BusFault, Found, MmuFault, MmuRegs, PageEntry, Size, Stop, find_page,
    mark, mark_page, walk,
};

/// RAM of `M` words and no device; words are reached as words alone.
#[derive(Drop)]
struct Words<const M: usize> {
    words: [u32; M],
}

impl<const M: usize> Bus for Words<M> {
    ghost use Rattle.v8_words_tests.specs.WordBus.{word_bus, bytes_of};
    ghost use Rattle.v8_mmu.specs.declared.bus.PortFault.TheVariants as faults;

    ghost Device = { Unit {0} };

    ghost state = { λ b. record {
      held = record { ram = bytes_of b.words; device = tt };
      port = record { failed = 0; calls = 0; fault = faults.Reader };
    } };

    ghost meaning = { word_bus };

    fn entry(&self, pa: u64) -> Option<u32> {
        if pa % 4 != 0 {
            return None;
        }
        let words = &self.words[..];
        let number = (pa / 4) as usize;
        if number >= words.len() {
            return None;
        }
        let word = words[number];
        Some(word)
    }

    fn set_entry(&mut self, pa: u64, word: u32) {
        let words = &mut self.words[..];
        words[(pa / 4) as usize] = word;
    }

    fn read(&mut self, pa: u64, size: Size) -> Result<u64, BusFault> {
        match size {
            Size::Word => match self.entry(pa) {
                Some(word) => Ok(u64::from(word)),
                None => Err(BusFault::Unanswered),
            },
            Size::Byte | Size::Half | Size::Double => Err(BusFault::Unanswered),
        }
    }

    fn write(&mut self, pa: u64, size: Size, value: u64) -> Result<(), BusFault> {
        match size {
            Size::Word => {
                if self.entry(pa).is_none() {
                    return Err(BusFault::Unanswered);
                }
                self.set_entry(pa, value as u32);
                Ok(())
            }
            Size::Byte | Size::Half | Size::Double => Err(BusFault::Unanswered),
        }
    }

    fn swap(&mut self, pa: u64, size: Size, value: u64) -> Result<u64, BusFault> {
        match size {
            Size::Word => {
                let Some(word) = self.entry(pa) else {
                    return Err(BusFault::Unanswered);
                };
                self.set_entry(pa, value as u32);
                Ok(u64::from(word))
            }
            Size::Byte | Size::Half | Size::Double => Err(BusFault::Unanswered),
        }
    }

    fn stop(&self) -> Option<Stop> {
        None
    }

    fn failures(&self) -> u64 {
        0
    }
}

const USER_LOAD: Access = Access {
    user: true,
    kind: AccessKind::Load,
};

/// RAM in which these words stand at these places.
fn ram(rt: &impl Abort, entries: &[(u64, u32)]) -> Words<3072> {
    let mut bus = Words { words: [0; 3072] };
    for &(place, word) in entries {
        if bus.entry(place).is_some() {
            bus.set_entry(place, word);
        } else {
            panic!(rt; "no word at {place}");
        }
    }
    bus
}

/// Context 0 of a context table at 2000.
const REGS: MmuRegs = MmuRegs {
    table: 0x2000,
    context: 0,
};

/// Where the entries of address 0 lie, a level each.
const PLACES: [u64; 4] = [0x2000, 0x2400, 0x2800, 0x2a00];

/// What a walk tells.
fn walked(bus: &Words<3072>, regs: &MmuRegs, va: u32, access: Access) -> Result<Found, MmuFault> {
    walk(bus, regs, va, access)
}

/// What the search of a page's entry tells for a load of a user.
fn page_of(bus: &Words<3072>, va: u32) -> Result<PageEntry, MmuFault> {
    find_page(bus, &REGS, va, USER_LOAD)
}

/// Whether the entry of a level lies at this place, for address 0.
fn is_place(level: usize, place: u64) -> bool {
    match PLACES.get(level) {
        Some(wanted) => place == *wanted,
        None => false,
    }
}

fn translates(bus: &Words<3072>, va: u32, pa: u64, level: usize) -> bool {
    match walked(bus, &REGS, va, USER_LOAD) {
        Ok(found) => found.pa == pa && found.level == level && ends_at(&found.places, level),
        Err(_) => false,
    }
}

/// Whether the places of a path have that of this level.
fn ends_at(places: &[u64; 4], level: usize) -> bool {
    match places.get(level) {
        Some(place) => is_place(level, *place),
        None => false,
    }
}

fn finds(bus: &Words<3072>, va: u32, pa: u64, level: usize, word: u32) -> bool {
    match page_of(bus, va) {
        Ok(page) => {
            page.pa == pa && page.level == level && page.word == word && is_place(level, page.place)
        }
        Err(_) => false,
    }
}

/// The words of the path of an address, its physical address, and the level of the page's entry.
type Path = ([u32; 4], u32, u64, usize);

const PATHS: [Path; 4] = [
    ([0xf000_000e, 0, 0, 0], 0x1234_5678, 0xf_1234_5678, 0),
    ([0x241, 0x1234_560e, 0, 0], 0x00ab_cdef, 0x1_23ab_cdef, 1),
    (
        [0x241, 0x281, 0x1234_560e, 0],
        0x0003_ffff,
        0x1_2347_ffff,
        2,
    ),
    (
        [0x241, 0x281, 0x2a1, 0x1234_560e],
        0x0000_0abc,
        0x1_2345_6abc,
        3,
    ),
];

/// Whether the page's entry is the word of its level.
fn is_found(bus: &Words<3072>, path: &Path) -> bool {
    let (words, va, pa, level) = *path;
    match words.get(level) {
        Some(word) => translates(bus, va, pa, level) && finds(bus, va, pa, level, *word),
        None => false,
    }
}

/// RAM in which these words stand where the entries of address 0 lie.
fn ram_of_path(rt: &impl Abort, words: [u32; 4]) -> Words<3072> {
    ram(
        rt,
        &[
            (0x2000, words[0]),
            (0x2400, words[1]),
            (0x2800, words[2]),
            (0x2a00, words[3]),
        ],
    )
}

#[test]
fn translates_at_each_level(rt: HostRuntime) {
    for path in &PATHS {
        let bus = ram_of_path(&rt, path.0);
        assert!(rt; is_found(&bus, path), "at level {}", path.3);
    }
}

fn leads_to(bus: &Words<3072>, regs: &MmuRegs, va: u32, pa: u64) -> bool {
    match walked(bus, regs, va, USER_LOAD) {
        Ok(found) => found.pa == pa,
        Err(_) => false,
    }
}

#[test]
fn wraps_table_addresses_at_36_bits(rt: HostRuntime) {
    let bus = ram(&rt, &[(0, 0x1234_560e), (4, 0xffff_fffd)]);
    let past = MmuRegs {
        table: 0xf_ffff_fffc,
        context: 1,
    };
    assert!(rt; leads_to(&bus, &past, 0x1000_0000, 0x1_1000_0000));
    let named = MmuRegs {
        table: 4,
        context: 0,
    };
    assert!(rt; leads_to(&bus, &named, 0x1000_0000, 0x1_2300_0000));
}

/// Whether a walk is refused with this fault.
fn refuses_walk(bus: &Words<3072>, va: u32, fault: MmuFault) -> bool {
    match walked(bus, &REGS, va, USER_LOAD) {
        Ok(_) => false,
        Err(told) => told == fault,
    }
}

/// Whether the search of the page's entry is refused with this fault.
fn refuses_page(bus: &Words<3072>, va: u32, fault: MmuFault) -> bool {
    match page_of(bus, va) {
        Ok(_) => false,
        Err(told) => told == fault,
    }
}

/// Words at their places, an address, and the type and the level of its fault.
type Refused = ([(u64, u32); 4], u32, u8, usize);

const REFUSED: [Refused; 6] = [
    ([(0x2000, 0), (0, 0), (0, 0), (0, 0)], 0, 1, 0),
    ([(0x2000, 3), (0, 0), (0, 0), (0, 0)], 0, 4, 0),
    ([(0x2000, 0x0001_0001), (0, 0), (0, 0), (0, 0)], 0, 4, 1),
    (
        [
            (0x2000, 0x241),
            (0x2400, 0x281),
            (0x2800, 0x2a1),
            (0x2a00, 0x2b1),
        ],
        0,
        4,
        3,
    ),
    (
        [
            (0x2000, 0x241),
            (0x27c0, 0x291),
            (0x2900, 0x2d1),
            (0x2d00, 0x1a),
        ],
        0xf000_0000,
        3,
        3,
    ),
    (
        [
            (0x2000, 0x241),
            (0x2400, 0x281),
            (0x2804, 0x2a1),
            (0x2a00, 0x1012),
        ],
        0x0004_0000,
        2,
        3,
    ),
];

/// Whether the row's address is refused with its fault, as users load.
fn is_refused(bus: &Words<3072>, row: &Refused) -> bool {
    let fault = MmuFault {
        ft: row.2,
        level: row.3,
        at: 0,
    };
    refuses_walk(bus, row.1, fault) && refuses_page(bus, row.1, fault)
}

#[test]
fn refuses_where_the_path_ends(rt: HostRuntime) {
    for row in &REFUSED {
        let bus = ram(&rt, &row.0);
        assert!(rt;
            is_refused(&bus, row),
            "{} at {} of {}",
            row.2,
            row.3,
            row.1
        );
    }
}

/// The fault type of each access to a page, 0 where it is allowed: load, fetch, store, store to an instruction space;
/// of users and of the supervisor, a row an access field.
const FAULT_TYPES: [([u8; 4], [u8; 4]); 8] = [
    ([0, 2, 2, 2], [0, 2, 2, 2]),
    ([0, 2, 0, 2], [0, 2, 0, 2]),
    ([0, 0, 2, 2], [0, 0, 2, 2]),
    ([0, 0, 0, 0], [0, 0, 0, 0]),
    ([2, 0, 2, 2], [2, 0, 2, 2]),
    ([0, 2, 2, 2], [0, 2, 0, 2]),
    ([3, 3, 3, 3], [0, 0, 2, 2]),
    ([3, 3, 3, 3], [0, 0, 0, 0]),
];

/// Whether an access has this access type, and this fault type on the page of address 1234, 0 where it is allowed.
fn answers(bus: &Words<3072>, access: Access, ft: u8, at: u8) -> bool {
    let same_type = access.type_number() == at;
    match walked(bus, &REGS, 0x1234, access) {
        Ok(_) => same_type && ft == 0,
        Err(fault) => same_type && fault.ft == ft && fault.at == at,
    }
}

/// Whether the accesses of a user, or of the supervisor, have these fault types.
fn allows(bus: &Words<3072>, user: bool, fault_types: [u8; 4]) -> bool {
    let [load, fetch, store, store_code] = fault_types;
    is_answered(bus, user, AccessKind::Load, load)
        && is_answered(bus, user, AccessKind::Fetch, fetch)
        && is_answered(bus, user, AccessKind::Store, store)
        && is_answered(bus, user, AccessKind::StoreCode, store_code)
}

/// Whether an access of this kind has this fault type. Of the access types those of users are even (appendix H).
fn is_answered(bus: &Words<3072>, user: bool, kind: AccessKind, ft: u8) -> bool {
    let of_users = match kind {
        AccessKind::Load => 0,
        AccessKind::Fetch => 2,
        AccessKind::Store => 4,
        AccessKind::StoreCode => 6,
    };
    let at = if user { of_users } else { of_users | 1 };
    answers(bus, Access { user, kind }, ft, at)
}

#[test]
fn allows_what_the_access_field_says(rt: HostRuntime) {
    for acc in 0..8u32 {
        let bus = ram(&rt, &[(0x2000, acc * 4 + 2)]);
        let (user, supervisor) = FAULT_TYPES[acc as usize];
        assert!(rt;
            allows(&bus, true, user) && allows(&bus, false, supervisor),
            "{acc}"
        );
    }
}

/// Whether both ways of marking the entry at 2A00 make it this word, and writing it again takes the mark away.
fn marks(bus: &mut Words<3072>, word: u32, store: bool, marked: u32) -> bool {
    let found = Found {
        pa: 0,
        level: 3,
        places: [0, 0, 0, 0x2a00],
    };
    mark(bus, &found, store);
    if bus.entry(0x2a00) != Some(marked) {
        return false;
    }
    bus.set_entry(0x2a00, word);
    if bus.entry(0x2a00) != Some(word) {
        return false;
    }
    let page = PageEntry {
        pa: 0,
        level: 3,
        place: 0x2a00,
        word,
    };
    mark_page(bus, &page, store);
    bus.entry(0x2a00) == Some(marked)
}

/// A page's entry, whether it is stored to, and the entry with its marks.
const MARKS: [(u32, bool, u32); 3] = [
    (0x1012, false, 0x1032),
    (0x5006, true, 0x5066),
    (0x5066, false, 0x5066),
];

#[test]
fn marks_and_takes_marks_away(rt: HostRuntime) {
    for &(word, store, marked) in &MARKS {
        let mut bus = ram(&rt, &[(0x2a00, word)]);
        assert!(rt; marks(&mut bus, word, store, marked), "{word:x}");
    }
}

#[test]
fn laws_return(_rt: HostRuntime) {
    addresses_lead_one_way();
    path_is_unique();
    fault_is_unique();
    no_fault_on_a_path();
    marks_two_bits();
    stores_one_number();
}

// Words of the trap table and of the handlers' page at their places, by number, as an assembler spells them.
use v8_handlers::{handler_page, trap_table};

/// Whether a word stands at a byte of a page.
fn has(page: &[u32; 1024], place: usize, word: u32) -> bool {
    match page.get(place / 4) {
        Some(found) => *found == word,
        None => false,
    }
}

/// Whether a trap type's vector has these words.
fn is_vector(table: &[u32; 1024], trap_type: u8, words: [u32; 4]) -> bool {
    let place = 16 * usize::from(trap_type);
    has(table, place, words[0])
        && has(table, place + 4, words[1])
        && has(table, place + 8, words[2])
        && has(table, place + 12, words[3])
}

/// Trap types with the words of their vectors.
const VECTORS: [(u8, [u32; 4]); 7] = [
    (0x05, [0xA750_0000, 0x1080_03EB, 0xA810_0001, 0x0100_0000]),
    (0x06, [0xA750_0000, 0x1080_0407, 0xA92C_E001, 0x0100_0000]),
    (0x09, [0x273C_0040, 0xC024_E00C, 0x0100_0000, 0x0100_0000]),
    (0x80, [0x273C_0040, 0xF024_E008, 0x0100_0000, 0x0100_0000]),
    (0x81, [0x273C_0040, 0xF004_E000, 0x81C4_8000, 0x81CC_A004]),
    (0x82, [0x273C_0040, 0xF024_E004, 0x81C4_8000, 0x81CC_A004]),
    (0xFF, [0x273C_0040, 0xC024_E00C, 0x0100_0000, 0x0100_0000]),
];

#[test]
fn vectors_stand_at_their_places(rt: HostRuntime) {
    let table = trap_table::<8>();
    for &(trap_type, words) in &VECTORS {
        assert!(rt; is_vector(&table, trap_type, words), "trap {trap_type}");
    }
}

/// The words that are the same for every count of windows, at their places.
const HANDLERS: [(usize, u32); 10] = [
    (0x00, 0x8334_E001),
    (0x0C, 0x81E0_0000),
    (0x20, 0xE03B_A000),
    (0x4C, 0x81CC_8000),
    (0x50, 0x0100_0000),
    (0x84, 0xA815_4014),
    (0x88, 0x8195_0000),
    (0xCC, 0x81CC_8000),
    (0xD0, 0x0100_0000),
    (0xFFC, 0x0100_0000),
];

/// Whether a page has the words that are the same for every count of windows, and these two.
fn has_handlers(page: &[u32; 1024], left: u32, right: u32) -> bool {
    for &(place, word) in &HANDLERS {
        if !has(page, place, word) {
            return false;
        }
    }
    has(page, 0x04, left) && has(page, 0x80, right)
}

#[test]
fn handlers_stand_at_their_places(rt: HostRuntime) {
    assert!(rt; has_handlers(&handler_page::<4>(), 0xAB2C_E003, 0xAB34_E003));
    assert!(rt; has_handlers(&handler_page::<32>(), 0xAB2C_E01F, 0xAB34_E01F));
}

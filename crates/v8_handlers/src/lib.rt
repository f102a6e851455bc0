//! The trap table and the window handlers of the sandbox machine, as SPARC V8 words.
#![tactic(auto)]

ghost use Rattle.std.specs.Prelude.{◌≡◌, ℕ, ◌<◌, ◌≤◌, ◌-◌, slice_index, length};
ghost use Rattle.v8_handlers.specs.Handlers.{vector, overflow_handler, underflow_handler, trap_word, page_word};
ghost use Rattle.v8_handlers.specs.Handlers.{handler_word};

/// `sethi 0,%g0`
const NOP: u32 = 0x0100_0000;

/// The four words of a trap type's vector.
fn vector(trap_type: usize) -> [u32; 4]
    ensures { result ≡ vector trap_type }
{
    match trap_type {
        0x05 => [0xA750_0000, 0x1080_03EB, 0xA810_0001, NOP],
        0x06 => [0xA750_0000, 0x1080_0407, 0xA92C_E001, NOP],
        0x80 => [0x273C_0040, 0xF024_E008, NOP, NOP],
        0x81 => [0x273C_0040, 0xF004_E000, 0x81C4_8000, 0x81CC_A004],
        0x82 => [0x273C_0040, 0xF024_E004, 0x81C4_8000, 0x81CC_A004],
        _ => [0x273C_0040, 0xC024_E00C, NOP, NOP],
    }
}

/// Word k of the trap table.
#[tactic(auto, unfolding(crate::specs::Handlers::trap_word))]
fn trap_word(k: usize) -> u32
    requires { k < 1024 }
    ensures { result ≡ trap_word k }
{
    let words = vector(k / 4);
    words[k % 4]
}

/// The overflow handler of a machine of n windows: turns WIM one place to the right and stores the window below the one
/// that the trap entered. The trap's vector has put WIM into %l3 and %g1 into %l4.
fn overflow_handler(n: u32) -> [u32; 20]
    requires few { 4 ≤ n }
    requires many { n ≤ 32 }
    ensures { result ≡ overflow_handler n }
{
    [
        0x8334_E001, // srl %l3,1,%g1
        0xAB2C_E000 + (n - 1), // sll %l3,n-1,%l5
        0x8215_4001, // or %l5,%g1,%g1
        0x81E0_0000, // save %g0,%g0,%g0, to the window that is stored
        0x8190_4000, // wr %g1,%g0,%wim
        NOP,
        NOP,
        NOP,
        0xE03B_A000, // std %l0,[%sp]
        0xE43B_A008, // std %l2,[%sp+8]
        0xE83B_A010, // std %l4,[%sp+16]
        0xEC3B_A018, // std %l6,[%sp+24]
        0xF03B_A020, // std %i0,[%sp+32]
        0xF43B_A028, // std %i2,[%sp+40]
        0xF83B_A030, // std %i4,[%sp+48]
        0xFC3B_A038, // std %i6,[%sp+56]
        0x81E8_0000, // restore %g0,%g0,%g0
        0x8210_0014, // or %g0,%l4,%g1
        0x81C4_4000, // jmpl %l1,%g0
        0x81CC_8000, // rett %l2
    ]
}

/// The underflow handler of a machine of n windows: turns WIM one place to the left and loads the window two above the
/// one that the trap entered. The trap's vector has put WIM into %l3 and WIM, shifted one place to the left, into %l4.
fn underflow_handler(n: u32) -> [u32; 20]
    requires few { 4 ≤ n }
    requires many { n ≤ 32 }
    ensures { result ≡ underflow_handler n }
{
    [
        0xAB34_E000 + (n - 1), // srl %l3,n-1,%l5
        0xA815_4014, // or %l5,%l4,%l4
        0x8195_0000, // wr %l4,%g0,%wim
        NOP,
        NOP,
        NOP,
        0x81E8_0000, // restore %g0,%g0,%g0, to the window that was left
        0x81E8_0000, // restore %g0,%g0,%g0, to the window that is loaded
        0xE01B_A000, // ldd [%sp],%l0
        0xE41B_A008, // ldd [%sp+8],%l2
        0xE81B_A010, // ldd [%sp+16],%l4
        0xEC1B_A018, // ldd [%sp+24],%l6
        0xF01B_A020, // ldd [%sp+32],%i0
        0xF41B_A028, // ldd [%sp+40],%i2
        0xF81B_A030, // ldd [%sp+48],%i4
        0xFC1B_A038, // ldd [%sp+56],%i6
        0x81E0_0000, // save %g0,%g0,%g0
        0x81E0_0000, // save %g0,%g0,%g0, to the window of the trap
        0x81C4_4000, // jmpl %l1,%g0
        0x81CC_8000, // rett %l2
    ]
}

/// Word k of a page with one handler at its start and another from byte 80 (hexadecimal) on.
#[tactic(auto, unfolding(crate::specs::Handlers::page_word))]
fn page_word(overflow: &[u32; 20], underflow: &[u32; 20], k: usize) -> u32
    ensures { result ≡ page_word overflow.now underflow.now k }
{
    if k < 20 {
        overflow[k]
    } else if k < 32 {
        NOP
    } else if k < 52 {
        underflow[k - 32]
    } else {
        NOP
    }
}

/// The words of the trap table of a machine of N windows, which begins at F0000000 and has four words for each trap
/// type (chapter 7). Window overflow and underflow go to their handlers, trap types 80, 81 and 82 are the services
/// `exit`, `get` and `put`, and every other trap stops the machine by a store to the device. N is 4 to 32; the words
/// are the same for each.
pub fn trap_table<const N: usize>() -> [u32; 1024]
    ensures { (k : ℕ) → k < 1024 → slice_index result k ≡ trap_word k }
{
    let mut table = [0; 1024];
    for k in 0..1024 {
        table[k] = trap_word(k);
    }
    table
}

/// The words of the page of window handlers of a machine of N windows, which begins at F0001000: the overflow handler
/// at its start, the underflow handler from byte 80 (hexadecimal) on, all else `nop`. N is 4 to 32.
pub fn handler_page<const N: usize>() -> [u32; 1024]
    requires few { 4 ≤ N }
    requires many { N ≤ 32 }
    ensures { (k : ℕ) → k < 1024 → slice_index result k ≡ handler_word N k }
{
    let overflow = overflow_handler(N as u32);
    let underflow = underflow_handler(N as u32);
    let mut page = [0; 1024];
    for k in 0..1024 {
        page[k] = page_word(&overflow, &underflow, k);
    }
    page
}

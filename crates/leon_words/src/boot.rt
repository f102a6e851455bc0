//! The boot stub: what `boot.s` assembles to.
ghost use Rattle.leon_words.specs.Words.{stub};
ghost use Rattle.std.specs.Prelude.{◌≡◌, ◌≤◌};

/// The words of the stub.
pub const BOOT_WORDS: usize = 62;

/// What the stub is made for.
#[derive(Clone, Copy)]
pub struct Boot {
    /// How many windows the processor has, 4 to 32.
    pub windows: u32,
    /// The physical address at which RAM begins, a multiple of 16 MB.
    pub base: u32,
    /// The virtual address of the words `jmpl %l2; rett %l2+4` in the system's pages.
    pub leave: u32,
}

/// The boot stub of a LEON3, from reset, or from a monitor, to the first instruction of an image in user mode. It runs
/// once, from physical address `base` + 4000 (hexadecimal) on.
pub fn boot_words(boot: &Boot) -> [u32; BOOT_WORDS]
    requires few { 4 ≤ boot.now.windows }
    requires many { boot.now.windows ≤ 32 }
    ensures { result ≡ stub boot.now.windows boot.now.base boot.now.leave }
{
    let highest = boot.windows - 1;
    let leave = boot.leave;
    let ram = boot.base >> 14;
    [
        // boot
        0x8188_2F80, // wr 0xf80,%psr
        0x0100_0000, // nop
        0x0100_0000, // nop
        0x0100_0000, // nop
        0x8190_2002, // wr 2,%wim
        0x033C_0000, // sethi %hi(0xf0000000),%g1
        0x8198_4000, // wr %g1,%tbr
        0x0100_0000, // nop
        0x0100_0000, // nop
        0x0100_0000, // nop
        0x8344_4000, // rd %asr17,%g1
        0x0500_0008, // sethi %hi(0x2000),%g2
        0x8410_A11F, // or %g2,0x11f,%g2
        0x8208_4002, // and %g1,%g2,%g1
        0x80A0_6100 + highest, // cmp %g1,0x100+N-1
        0x1280_002D, // bne wrong
        0x0100_0000, // nop
        0x8188_2F80 + highest, // wr 0xf80+N-1,%psr
        0x0100_0000, // nop
        0x0100_0000, // nop
        0x0100_0000, // nop
        0x0320_0000, // sethi %hi(0x80000000),%g1
        0x8210_6200, // or %g1,0x200,%g1
        0xC020_6040, // clr [%g1+0x40]
        0xC0A0_0220, // sta %g0,[%g0] 0x11
        0xC0A0_0200, // sta %g0,[%g0] 0x10
        0x8410_2100, // mov 0x100,%g2
        0x0300_0000 + ram, // sethi %hi(BOOT_TABLE>>4),%g1
        0x8210_6300, // or %g1,%lo(BOOT_TABLE>>4),%g1
        0xC2A0_8320, // sta %g1,[%g2] 0x19
        0x8610_2200, // mov 0x200,%g3
        0xC0A0_C320, // sta %g0,[%g3] 0x19
        0x8210_2001, // mov 1,%g1
        0xC2A0_0320, // sta %g1,[%g0] 0x19
        0x0100_0000, // nop
        0x0100_0000, // nop
        0x0100_0000, // nop
        0x0100_0000, // nop
        0xC0A0_0300, // sta %g0,[%g0] 0x18
        0x0100_0000, // nop
        0x0100_0000, // nop
        0x0100_0000, // nop
        0x0100_0000, // nop
        0xC280_0040, // lda [%g0] 0x2,%g1
        0x0900_0040, // sethi %hi(0x10000),%g4
        0x8811_200F, // or %g4,0xf,%g4
        0x8210_4004, // or %g1,%g4,%g1
        0xC2A0_0040, // sta %g1,[%g0] 0x2
        0x0100_0000, // nop
        0x0100_0000, // nop
        0x0100_0000, // nop
        0x2500_0100, // sethi %hi(0x40000),%l2
        0x3D00_03FF, // sethi %hi(0xffc00),%fp
        0xBC17_A3C0, // or %fp,0x3c0,%fp
        0x2100_0000 + (leave >> 10), // sethi %hi(leave),%l0
        0xA014_2000 + leave % 1024, // or %l0,%lo(leave),%l0
        0x2300_0000 + ram, // sethi %hi(CONTEXT_TABLE>>4),%l1
        0xA214_6200, // or %l1,%lo(CONTEXT_TABLE>>4),%l1
        0x81C4_0000, // jmp %l0
        0xE2A0_8320, // sta %l1,[%g2] 0x19
        // wrong
        0x91D0_2000, // ta 0
        0x0100_0000, // nop
    ]
}

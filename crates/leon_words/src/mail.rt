//! The services of an image whose input and output lie in RAM: what `mail.s` assembles to.

/// The vectors of trap types 80, 81 and 82: `exit`, `get` and `put`.
pub const SERVICES: [u32; 12] = [
    // exit_vector
    0x273C_0040, // sethi %hi(0xf0010000),%l3
    0x1080_025E, // b exit
    0xAE10_2001, // mov 1,%l7
    0x0100_0000, // nop
    // get_vector
    0x273C_0040, // sethi %hi(0xf0010000),%l3
    0x1080_023B, // b get
    0xE83C_E020, // std %l4,[%l3+0x20]
    0x0100_0000, // nop
    // put_vector
    0x273C_0040, // sethi %hi(0xf0010000),%l3
    0x1080_0249, // b put
    0xE83C_E020, // std %l4,[%l3+0x20]
    0x0100_0000, // nop
];

/// The vector of every other trap type but those of the window traps.
pub const STOP: [u32; 4] = [
    0xA158_0000, // rd %tbr,%l0
    0x293C_0004, // sethi %hi(0xf0001000),%l4
    0x81C5_2174, // jmp %l4+0x174
    0x273C_0040, // sethi %hi(0xf0010000),%l3
];

/// What the vectors branch to, from F0001100 on.
pub const ROUTINES: [u32; 37] = [
    // get
    0xEC3C_E028, // std %l6,[%l3+0x28]
    0xAD48_0000, // rd %psr,%l6
    0xE804_C000, // ld [%l3],%l4
    0xEA04_E004, // ld [%l3+4],%l5
    0x80A5_0015, // cmp %l4,%l5
    0x0280_0005, // be back
    0xB010_3FFF, // mov -1,%i0
    0xF00D_0000, // ldub [%l4],%i0
    0xA805_2001, // inc %l4
    0xE824_C000, // st %l4,[%l3]
    // back
    0x8188_0016, // wr %l6,%psr
    0x0100_0000, // nop
    0x0100_0000, // nop
    0x0100_0000, // nop
    0xE81C_E020, // ldd [%l3+0x20],%l4
    0xEC1C_E028, // ldd [%l3+0x28],%l6
    // leave
    0x81C4_8000, // jmp %l2
    0x81CC_A004, // rett %l2+4
    // put
    0xEC3C_E028, // std %l6,[%l3+0x28]
    0xAD48_0000, // rd %psr,%l6
    0xE804_E008, // ld [%l3+8],%l4
    0xEA04_E00C, // ld [%l3+0xc],%l5
    0x80A5_0015, // cmp %l4,%l5
    0x0280_0008, // be exit
    0xAE10_2003, // mov 3,%l7
    0xF02D_0000, // stb %i0,[%l4]
    0xA805_2001, // inc %l4
    0x10BF_FFEF, // b back
    0xE824_E008, // st %l4,[%l3+8]
    // stop
    0xB010_0010, // mov %l0,%i0
    0xAE10_2002, // mov 2,%l7
    // exit
    0xF024_E014, // st %i0,[%l3+0x14]
    0xE224_E018, // st %l1,[%l3+0x18]
    0xE424_E01C, // st %l2,[%l3+0x1c]
    0xEE24_E010, // st %l7,[%l3+0x10]
    0x91D0_2000, // ta 0
    0x0100_0000, // nop
];

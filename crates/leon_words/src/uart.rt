//! The services of an image whose input and output go over the UART: what `uart.s` assembles to.

/// The vectors of trap types 80, 81 and 82: `exit`, `get` and `put`.
pub const SERVICES: [u32; 12] = [
    // exit_vector
    0x293C_0044, // sethi %hi(0xf0011000),%l4
    0x1080_028C, // b exit
    0xAA10_2000, // clr %l5
    0x0100_0000, // nop
    // get_vector
    0x273C_0040, // sethi %hi(0xf0010000),%l3
    0x1080_0257, // b get
    0xE03C_E030, // std %l0,[%l3+0x30]
    0x0100_0000, // nop
    // put_vector
    0x273C_0040, // sethi %hi(0xf0010000),%l3
    0x1080_0272, // b put
    0xE03C_E030, // std %l0,[%l3+0x30]
    0x0100_0000, // nop
];

/// The vector of every other trap type but those of the window traps.
pub const STOP: [u32; 4] = [
    0xA158_0000, // rd %tbr,%l0
    0x293C_0004, // sethi %hi(0xf0001000),%l4
    0x81C5_222C, // jmp %l4+0x22c
    0x293C_0044, // sethi %hi(0xf0011000),%l4
];

/// What the vectors branch to, from F0001100 on.
pub const ROUTINES: [u32; 104] = [
    // send
    0xEC05_2104, // ld [%l4+0x104],%l6
    0x808D_A004, // btst 4,%l6
    0x02BF_FFFE, // be send
    0x0100_0000, // nop
    0x81C5_E008, // jmp %l7+8
    0xEA25_2100, // st %l5,[%l4+0x100]
    // take
    0xEC05_2104, // ld [%l4+0x104],%l6
    0x808D_A001, // btst 1,%l6
    0x02BF_FFFE, // be take
    0x0100_0000, // nop
    0xF005_2100, // ld [%l4+0x100],%i0
    0x81C5_E008, // jmp %l7+8
    0xB00E_20FF, // and %i0,0xff,%i0
    // word
    0xA010_0017, // mov %l7,%l0
    0x2D3C_0004, // sethi %hi(0xf0001000),%l6
    0xAFC5_A100, // jmpl %l6+0x100,%l7
    0xAB36_2018, // srl %i0,0x18,%l5
    0x2D3C_0004, // sethi %hi(0xf0001000),%l6
    0xAFC5_A100, // jmpl %l6+0x100,%l7
    0xAB36_2010, // srl %i0,0x10,%l5
    0x2D3C_0004, // sethi %hi(0xf0001000),%l6
    0xAFC5_A100, // jmpl %l6+0x100,%l7
    0xAB36_2008, // srl %i0,8,%l5
    0x2D3C_0004, // sethi %hi(0xf0001000),%l6
    0xAFC5_A100, // jmpl %l6+0x100,%l7
    0xAA10_0018, // mov %i0,%l5
    0x81C4_2008, // jmp %l0+8
    0x0100_0000, // nop
    // get
    0xE83C_E020, // std %l4,[%l3+0x20]
    0xEC3C_E028, // std %l6,[%l3+0x28]
    0xA148_0000, // rd %psr,%l0
    0x293C_0044, // sethi %hi(0xf0011000),%l4
    0x2D3C_0004, // sethi %hi(0xf0001000),%l6
    0xAFC5_A100, // jmpl %l6+0x100,%l7
    0xAA10_2010, // mov 0x10,%l5
    0x2D3C_0004, // sethi %hi(0xf0001000),%l6
    0xAFC5_A100, // jmpl %l6+0x100,%l7
    0xAA10_2001, // mov 1,%l5
    0x2D3C_0004, // sethi %hi(0xf0001000),%l6
    0xAFC5_A118, // jmpl %l6+0x118,%l7
    0x0100_0000, // nop
    0x80A6_2010, // cmp %i0,0x10
    0x1280_0008, // bne back
    0x0100_0000, // nop
    0x2D3C_0004, // sethi %hi(0xf0001000),%l6
    0xAFC5_A118, // jmpl %l6+0x118,%l7
    0x0100_0000, // nop
    0x80A6_2004, // cmp %i0,4
    0x2280_0002, // be,a back
    0xB010_3FFF, // mov -1,%i0
    // back
    0x8188_0010, // wr %l0,%psr
    0x0100_0000, // nop
    0x0100_0000, // nop
    0x0100_0000, // nop
    0xE81C_E020, // ldd [%l3+0x20],%l4
    0xEC1C_E028, // ldd [%l3+0x28],%l6
    0xE01C_E030, // ldd [%l3+0x30],%l0
    // leave
    0x81C4_8000, // jmp %l2
    0x81CC_A004, // rett %l2+4
    // put
    0xE83C_E020, // std %l4,[%l3+0x20]
    0xEC3C_E028, // std %l6,[%l3+0x28]
    0xA148_0000, // rd %psr,%l0
    0x293C_0044, // sethi %hi(0xf0011000),%l4
    0xAA0E_20FF, // and %i0,0xff,%l5
    0x80A5_6010, // cmp %l5,0x10
    0x1280_0005, // bne plain
    0x0100_0000, // nop
    0x2D3C_0004, // sethi %hi(0xf0001000),%l6
    0xAFC5_A100, // jmpl %l6+0x100,%l7
    0x0100_0000, // nop
    // plain
    0x2D3C_0004, // sethi %hi(0xf0001000),%l6
    0xAFC5_A100, // jmpl %l6+0x100,%l7
    0x0100_0000, // nop
    0x10BF_FFE9, // b back
    0x0100_0000, // nop
    // stop
    0xB010_0010, // mov %l0,%i0
    0xAA10_2002, // mov 2,%l5
    // exit
    0xA610_0015, // mov %l5,%l3
    0x2D3C_0004, // sethi %hi(0xf0001000),%l6
    0xAFC5_A100, // jmpl %l6+0x100,%l7
    0xAA10_2010, // mov 0x10,%l5
    0x2D3C_0004, // sethi %hi(0xf0001000),%l6
    0xAFC5_A100, // jmpl %l6+0x100,%l7
    0xAA10_0013, // mov %l3,%l5
    0x2D3C_0004, // sethi %hi(0xf0001000),%l6
    0xAFC5_A134, // jmpl %l6+0x134,%l7
    0x0100_0000, // nop
    0x80A4_E002, // cmp %l3,2
    0x1280_000A, // bne halt
    0x0100_0000, // nop
    0xB010_0011, // mov %l1,%i0
    0x2D3C_0004, // sethi %hi(0xf0001000),%l6
    0xAFC5_A134, // jmpl %l6+0x134,%l7
    0x0100_0000, // nop
    0xB010_0012, // mov %l2,%i0
    0x2D3C_0004, // sethi %hi(0xf0001000),%l6
    0xAFC5_A134, // jmpl %l6+0x134,%l7
    0x0100_0000, // nop
    // halt
    0xEC05_2104, // ld [%l4+0x104],%l6
    0x808D_A002, // btst 2,%l6
    0x02BF_FFFE, // be halt
    0x0100_0000, // nop
    0x91D0_2000, // ta 0
    0x0100_0000, // nop
];

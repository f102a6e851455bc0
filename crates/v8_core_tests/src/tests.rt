//! Programs and traps with the states that they leave.
use crate::small::Small;
use std::alloc::AllocError;
use std::process::Abort;
use v8_core::{DataAccess, Event, Machine, Turn};
use v8_mmu::{MmuRegs, PortFault, Stop};
use v8_word::{Reg, Size, TrapType};
use want::Want;

// One page table entry, at ROOT, maps each address to itself. Code begins at CODE and data at 2000; trap vectors begin
// at VECTORS, and that of `ta 3` returns after it has put the trap's place into %g2.
const ROOT: u64 = 0xFFC;

const CODE: u32 = 0x1000;

const VECTORS: u32 = 0x3000;

type Tested = Machine<8, Small<0x4000>>;

/// Writes words from a place on.
fn put_all(bus: &mut Small<0x4000>, place: u32, words: &[u32]) {
    let mut at = place;
    for word in words {
        bus.put(u64::from(at), *word);
        at = at.wrapping_add(4);
    }
}

/// A machine that comes to these words, on pages of this ACC.
fn machine(acc: u32, psr: u32, words: &[u32]) -> Tested {
    let mut bus = Small::new();
    bus.put(ROOT, (acc % 8) * 4 + 2);
    put_all(&mut bus, CODE, words);
    put_all(&mut bus, 0x3830, &[0x84046000, 0x81C48000, 0x81CCA004]);
    let mut machine = Machine::new(
        bus,
        MmuRegs {
            table: ROOT,
            context: 0,
        },
    );
    machine.set_pc(CODE);
    machine.set_npc(CODE + 4);
    machine.set_tbr(VECTORS);
    machine.set_psr(psr);
    machine
}

/// The word of a global register.
fn global(machine: &Tested, number: u8) -> u32 {
    match Reg::new(number) {
        Some(r) => machine.reg(r),
        None => 0,
    }
}

fn root_entry(machine: &Tested) -> Option<u32> {
    machine.bus().word_at(ROOT)
}

/// Words that run some turns from a state, and the state that they leave.
#[derive(Clone, Copy)]
struct Program {
    psr: u32,
    words: &'static [u32],
    turns: u32,
    globals: [u32; 3],
    pc: u32,
    psr_after: u32,
}

static PROGRAMS: [Program; 47] = [
    // or %g0,5,%g1; add %g1,7,%g2; sub %g2,%g1,%g3
    Program {
        psr: 0x20,
        words: &[0x82102005, 0x84006007, 0x86208001],
        turns: 3,
        globals: [0x5, 0xC, 0x7],
        pc: 0x100C,
        psr_after: 0x20,
    },
    // or %g0,5,%g0; add %g0,1,%g1
    Program {
        psr: 0x20,
        words: &[0x80102005, 0x82002001],
        turns: 2,
        globals: [0x1, 0x0, 0x0],
        pc: 0x1008,
        psr_after: 0x20,
    },
    // sethi 0x3FFFFF,%g1; or %g1,0x3FF,%g2; add %g2,1,%g3
    Program {
        psr: 0x20,
        words: &[0x033FFFFF, 0x841063FF, 0x8600A001],
        turns: 3,
        globals: [0xFFFFFC00, 0xFFFFFFFF, 0x0],
        pc: 0x100C,
        psr_after: 0x20,
    },
    // sethi 0x1FFFFF,%g1; or %g1,0x3FF,%g1; addcc %g1,1,%g2
    Program {
        psr: 0x20,
        words: &[0x031FFFFF, 0x821063FF, 0x84806001],
        turns: 3,
        globals: [0x7FFFFFFF, 0x80000000, 0x0],
        pc: 0x100C,
        psr_after: 0xA00020,
    },
    // subcc %g0,1,%g1; subx %g0,0,%g2; addx %g0,0,%g3
    Program {
        psr: 0x20,
        words: &[0x82A02001, 0x84602000, 0x86402000],
        turns: 3,
        globals: [0xFFFFFFFF, 0xFFFFFFFF, 0x1],
        pc: 0x100C,
        psr_after: 0x900020,
    },
    // or %g0,0xFF,%g1; andn %g1,0xF,%g2; xnor %g1,%g2,%g3
    Program {
        psr: 0x20,
        words: &[0x821020FF, 0x8428600F, 0x86384002],
        turns: 3,
        globals: [0xFF, 0xF0, 0xFFFFFFF0],
        pc: 0x100C,
        psr_after: 0x20,
    },
    // or %g0,0xFF,%g1; orn %g1,0xF,%g2; xorcc %g1,%g1,%g3
    Program {
        psr: 0x20,
        words: &[0x821020FF, 0x8430600F, 0x86984001],
        turns: 3,
        globals: [0xFF, 0xFFFFFFFF, 0x0],
        pc: 0x100C,
        psr_after: 0x400020,
    },
    // or %g0,-16,%g1; sra %g1,2,%g2; srl %g1,28,%g3
    Program {
        psr: 0x20,
        words: &[0x82103FF0, 0x85386002, 0x8730601C],
        turns: 3,
        globals: [0xFFFFFFF0, 0xFFFFFFFC, 0xF],
        pc: 0x100C,
        psr_after: 0x20,
    },
    // or %g0,3,%g1; or %g0,33,%g2; sll %g1,%g2,%g3
    Program {
        psr: 0x20,
        words: &[0x82102003, 0x84102021, 0x87284002],
        turns: 3,
        globals: [0x3, 0x21, 0x6],
        pc: 0x100C,
        psr_after: 0x20,
    },
    // or %g0,-1,%g1; umul %g1,%g1,%g2; rd %y,%g3
    Program {
        psr: 0x20,
        words: &[0x82103FFF, 0x84504001, 0x87400000],
        turns: 3,
        globals: [0xFFFFFFFF, 0x1, 0xFFFFFFFE],
        pc: 0x100C,
        psr_after: 0x20,
    },
    // or %g0,-2,%g1; smulcc %g1,3,%g2; rd %y,%g3
    Program {
        psr: 0x20,
        words: &[0x82103FFE, 0x84D86003, 0x87400000],
        turns: 3,
        globals: [0xFFFFFFFE, 0xFFFFFFFA, 0xFFFFFFFF],
        pc: 0x100C,
        psr_after: 0x800020,
    },
    // wr %g0,1,%y; udiv %g1,2,%g2
    Program {
        psr: 0x20,
        words: &[0x81802001, 0x84706002],
        turns: 2,
        globals: [0x0, 0x80000000, 0x0],
        pc: 0x1008,
        psr_after: 0x20,
    },
    // wr %g0,1,%y; udivcc %g0,1,%g2
    Program {
        psr: 0x20,
        words: &[0x81802001, 0x84F02001],
        turns: 2,
        globals: [0x0, 0xFFFFFFFF, 0x0],
        pc: 0x1008,
        psr_after: 0xA00020,
    },
    // wr %g0,-1,%y; sethi 0x200000,%g1; sdivcc %g1,-1,%g2
    Program {
        psr: 0x20,
        words: &[0x81803FFF, 0x03200000, 0x84F87FFF],
        turns: 3,
        globals: [0x80000000, 0x7FFFFFFF, 0x0],
        pc: 0x100C,
        psr_after: 0x200020,
    },
    // wr %g0,1,%y; or %g0,2,%g1; mulscc %g1,3,%g2; rd %y,%g3
    Program {
        psr: 0x20,
        words: &[0x81802001, 0x82102002, 0x85206003, 0x87400000],
        turns: 4,
        globals: [0x2, 0x4, 0x0],
        pc: 0x1010,
        psr_after: 0x20,
    },
    // or %g0,1,%g1; taddcc %g1,2,%g2
    Program {
        psr: 0x20,
        words: &[0x82102001, 0x85006002],
        turns: 2,
        globals: [0x1, 0x3, 0x0],
        pc: 0x1008,
        psr_after: 0x200020,
    },
    // or %g0,4,%g1; taddcctv %g1,8,%g2; tsubcctv %g1,4,%g3
    Program {
        psr: 0x20,
        words: &[0x82102004, 0x85106008, 0x87186004],
        turns: 3,
        globals: [0x4, 0xC, 0x0],
        pc: 0x100C,
        psr_after: 0x400020,
    },
    // or %g0,0xFF,%g1; wr %g1,0xF,%y; rd %y,%g2
    Program {
        psr: 0x20,
        words: &[0x821020FF, 0x8180600F, 0x85400000],
        turns: 3,
        globals: [0xFF, 0xF0, 0x0],
        pc: 0x100C,
        psr_after: 0x20,
    },
    // ba .12; or %g0,1,%g1; or %g0,2,%g2; or %g0,3,%g3
    Program {
        psr: 0x20,
        words: &[0x10800003, 0x82102001, 0x84102002, 0x86102003],
        turns: 3,
        globals: [0x1, 0x0, 0x3],
        pc: 0x1010,
        psr_after: 0x20,
    },
    // ba,a .12; or %g0,1,%g1; or %g0,2,%g2; or %g0,3,%g3
    Program {
        psr: 0x20,
        words: &[0x30800003, 0x82102001, 0x84102002, 0x86102003],
        turns: 3,
        globals: [0x0, 0x0, 0x3],
        pc: 0x1010,
        psr_after: 0x20,
    },
    // bn,a .12; or %g0,1,%g1; or %g0,2,%g2
    Program {
        psr: 0x20,
        words: &[0x20800003, 0x82102001, 0x84102002],
        turns: 3,
        globals: [0x0, 0x2, 0x0],
        pc: 0x100C,
        psr_after: 0x20,
    },
    // subcc %g0,%g0,%g0; bne,a .12; or %g0,1,%g1; or %g0,2,%g2
    Program {
        psr: 0x20,
        words: &[0x80A00000, 0x32800003, 0x82102001, 0x84102002],
        turns: 4,
        globals: [0x0, 0x2, 0x0],
        pc: 0x1010,
        psr_after: 0x400020,
    },
    // subcc %g0,%g0,%g0; be,a .12; or %g0,1,%g1; or %g0,2,%g2; or %g0,3,%g3
    Program {
        psr: 0x20,
        words: &[0x80A00000, 0x22800003, 0x82102001, 0x84102002, 0x86102003],
        turns: 4,
        globals: [0x1, 0x0, 0x3],
        pc: 0x1014,
        psr_after: 0x400020,
    },
    // or %g0,-1,%g1; subcc %g1,1,%g0; bl .12; or %g0,2,%g2; nop; bgu .12; or %g0,3,%g3
    Program {
        psr: 0x20,
        words: &[
            0x82103FFF, 0x80A06001, 0x06800003, 0x84102002, 0x01000000, 0x18800003, 0x86102003,
        ],
        turns: 6,
        globals: [0xFFFFFFFF, 0x2, 0x3],
        pc: 0x1020,
        psr_after: 0x800020,
    },
    // call .12; or %g0,1,%g1; nop; add %o7,0,%g2
    Program {
        psr: 0x20,
        words: &[0x40000003, 0x82102001, 0x01000000, 0x8403E000],
        turns: 3,
        globals: [0x1, 0x1000, 0x0],
        pc: 0x1010,
        psr_after: 0x20,
    },
    // call .8; nop; jmpl %o7+20,%g1; or %g0,1,%g2; nop; or %g0,3,%g3
    Program {
        psr: 0x20,
        words: &[
            0x40000002, 0x01000000, 0x83C3E014, 0x84102001, 0x01000000, 0x86102003,
        ],
        turns: 5,
        globals: [0x1008, 0x1, 0x3],
        pc: 0x1018,
        psr_after: 0x20,
    },
    // or %g0,9,%o0; save %o0,1,%g1; add %i0,0,%g2; restore %i0,2,%g3
    Program {
        psr: 0x20,
        words: &[0x90102009, 0x83E22001, 0x84062000, 0x87EE2002],
        turns: 4,
        globals: [0xA, 0x9, 0xB],
        pc: 0x1010,
        psr_after: 0x20,
    },
    // or %g0,9,%o0; save %o0,1,%l0; add %l0,0,%g1; add %o0,0,%g2
    Program {
        psr: 0x20,
        words: &[0x90102009, 0xA1E22001, 0x82042000, 0x84022000],
        turns: 4,
        globals: [0xA, 0x0, 0x0],
        pc: 0x1010,
        psr_after: 0x27,
    },
    // save %g0,%g0,%g0; restore %g0,%g0,%g0 with an unused bit set
    Program {
        psr: 0x20,
        words: &[0x81E00000, 0x81E80020],
        turns: 2,
        globals: [0x0, 0x0, 0x0],
        pc: 0x1008,
        psr_after: 0x20,
    },
    // sethi 8,%g1; st %g1,[%g1+4]; ld [%g1+4],%g2
    Program {
        psr: 0x20,
        words: &[0x03000008, 0xC2206004, 0xC4006004],
        turns: 3,
        globals: [0x2000, 0x2000, 0x0],
        pc: 0x100C,
        psr_after: 0x20,
    },
    // sethi 8,%g1; sethi 0x201008,%g3; st %g3,[%g1]; ldsb [%g1],%g2; ldub [%g1+1],%g3
    Program {
        psr: 0x20,
        words: &[0x03000008, 0x07201008, 0xC6204000, 0xC4484000, 0xC6086001],
        turns: 5,
        globals: [0x2000, 0xFFFFFF80, 0x40],
        pc: 0x1014,
        psr_after: 0x20,
    },
    // sethi 8,%g1; sethi 0x201008,%g3; st %g3,[%g1]; ldsh [%g1],%g2; lduh [%g1+2],%g3
    Program {
        psr: 0x20,
        words: &[0x03000008, 0x07201008, 0xC6204000, 0xC4504000, 0xC6106002],
        turns: 5,
        globals: [0x2000, 0xFFFF8040, 0x2000],
        pc: 0x1014,
        psr_after: 0x20,
    },
    // sethi 8,%g1; or %g0,0x1FF,%g2; sth %g2,[%g1+2]; stb %g2,[%g1+1]; ld [%g1],%g3
    Program {
        psr: 0x20,
        words: &[0x03000008, 0x841021FF, 0xC4306002, 0xC4286001, 0xC6004000],
        turns: 5,
        globals: [0x2000, 0x1FF, 0xFF01FF],
        pc: 0x1014,
        psr_after: 0x20,
    },
    // sethi 8,%g1; or %g0,3,%g2; or %g0,4,%g3; std %g2,[%g1+8]; ld [%g1+8],%g3; ld [%g1+12],%g2
    Program {
        psr: 0x20,
        words: &[
            0x03000008, 0x84102003, 0x86102004, 0xC4386008, 0xC6006008, 0xC400600C,
        ],
        turns: 6,
        globals: [0x2000, 0x4, 0x3],
        pc: 0x1018,
        psr_after: 0x20,
    },
    // sethi 8,%g1; or %g0,3,%g2; st %g2,[%g1+4]; ldd [%g1],%g2
    Program {
        psr: 0x20,
        words: &[0x03000008, 0x84102003, 0xC4206004, 0xC4184000],
        turns: 4,
        globals: [0x2000, 0x0, 0x3],
        pc: 0x1010,
        psr_after: 0x20,
    },
    // sethi 8,%g2; or %g0,7,%g3; st %g3,[%g2+4]; ldd [%g2],%g0
    Program {
        psr: 0x20,
        words: &[0x05000008, 0x86102007, 0xC620A004, 0xC0188000],
        turns: 4,
        globals: [0x7, 0x2000, 0x7],
        pc: 0x1010,
        psr_after: 0x20,
    },
    // sethi 8,%g1; ldstub [%g1+1],%g2; ld [%g1],%g3
    Program {
        psr: 0x20,
        words: &[0x03000008, 0xC4686001, 0xC6004000],
        turns: 3,
        globals: [0x2000, 0x0, 0xFF0000],
        pc: 0x100C,
        psr_after: 0x20,
    },
    // sethi 8,%g1; or %g0,5,%g2; or %g0,9,%g3; st %g3,[%g1]; swap [%g1],%g2; ld [%g1],%g3
    Program {
        psr: 0x20,
        words: &[
            0x03000008, 0x84102005, 0x86102009, 0xC6204000, 0xC4784000, 0xC6004000,
        ],
        turns: 6,
        globals: [0x2000, 0x9, 0x5],
        pc: 0x1018,
        psr_after: 0x20,
    },
    // rd %psr,%g1; rd %wim,%g2; rd %tbr,%g3
    Program {
        psr: 0xA0,
        words: &[0x83480000, 0x85500000, 0x87580000],
        turns: 3,
        globals: [0xA0, 0x2, 0x3000],
        pc: 0x100C,
        psr_after: 0xA0,
    },
    // or %g0,-1,%g1; wr %g1,0,%wim; rd %wim,%g2
    Program {
        psr: 0xA0,
        words: &[0x82103FFF, 0x81906000, 0x85500000],
        turns: 3,
        globals: [0xFFFFFFFF, 0xFF, 0x0],
        pc: 0x100C,
        psr_after: 0xA0,
    },
    // or %g0,-1,%g1; wr %g1,0,%tbr; rd %tbr,%g2
    Program {
        psr: 0xA0,
        words: &[0x82103FFF, 0x81986000, 0x85580000],
        turns: 3,
        globals: [0xFFFFFFFF, 0xFFFFF000, 0x0],
        pc: 0x100C,
        psr_after: 0xA0,
    },
    // or %g0,-25,%g1; wr %g1,0,%psr; rd %psr,%g2
    Program {
        psr: 0xA0,
        words: &[0x82103FE7, 0x81886000, 0x85480000],
        turns: 3,
        globals: [0xFFFFFFE7, 0xF00FE7, 0x0],
        pc: 0x100C,
        psr_after: 0xF00FE7,
    },
    // sethi 8,%g1; sta %g1,[%g1+%g0] 0xB; lda [%g1+%g0] 0xA,%g2; lda [%g1+%g0] 9,%g3
    Program {
        psr: 0xA0,
        words: &[0x03000008, 0xC2A04160, 0xC4804140, 0xC6804120],
        turns: 4,
        globals: [0x2000, 0x2000, 0x2000],
        pc: 0x1010,
        psr_after: 0xA0,
    },
    // stbar; flush %g0; or %g0,1,%g1
    Program {
        psr: 0x20,
        words: &[0x8143C000, 0x81D80000, 0x82102001],
        turns: 3,
        globals: [0x1, 0x0, 0x0],
        pc: 0x100C,
        psr_after: 0x20,
    },
    // te 3; or %g0,1,%g1
    Program {
        psr: 0x20,
        words: &[0x83D02003, 0x82102001],
        turns: 2,
        globals: [0x1, 0x0, 0x0],
        pc: 0x1008,
        psr_after: 0x20,
    },
    // ta 3; or %g0,1,%g1
    Program {
        psr: 0x20,
        words: &[0x91D02003, 0x82102001],
        turns: 5,
        globals: [0x1, 0x1000, 0x0],
        pc: 0x1008,
        psr_after: 0x20,
    },
    // or %g0,0x50,%g1; ta %g1+100
    Program {
        psr: 0x20,
        words: &[0x82102050, 0x91D06064],
        turns: 2,
        globals: [0x50, 0x0, 0x0],
        pc: 0x3B40,
        psr_after: 0x87,
    },
];

/// Words of which the last traps: PSR before them, the pages' ACC, the words, the trap, and the fault status that it
/// leaves.
type Trapping = (u32, u32, &'static [u32], u8, u32);

static TRAPS: [Trapping; 41] = [
    // sethi 0x20000,%g1; jmpl %g1,%g0; nop
    (0x20, 3, &[0x03020000, 0x81C04000, 0x01000000], 0x01, 0x56),
    // unimp 0
    (0x20, 3, &[0x00000000], 0x02, 0x0),
    // rd %psr,%g1
    (0x20, 3, &[0x83480000], 0x03, 0x0),
    // .word 0x81A00000
    (0x20, 3, &[0x81A00000], 0x04, 0x0),
    // .word 0x81B00000
    (0x20, 3, &[0x81B00000], 0x24, 0x0),
    // ldf [%g0+%g0],%f0
    (0x20, 3, &[0xC1000000], 0x04, 0x0),
    // ldc [%g0+%g0],%c0
    (0x20, 3, &[0xC1800000], 0x24, 0x0),
    // fba .+0
    (0x20, 3, &[0x11800000], 0x04, 0x0),
    // cba .+0
    (0x20, 3, &[0x11C00000], 0x24, 0x0),
    // save %g0,%g0,%g0
    (0x22, 3, &[0x81E00000], 0x05, 0x0),
    // restore %g0,%g0,%g0
    (0x20, 3, &[0x81E80000], 0x06, 0x0),
    // ld [%g0+2],%g1
    (0x20, 3, &[0xC2002002], 0x07, 0x0),
    // jmpl %g0+2,%g1
    (0x20, 3, &[0x83C02002], 0x07, 0x0),
    // sethi 0x20000,%g1; ld [%g1],%g2
    (0x20, 3, &[0x03020000, 0xC4004000], 0x09, 0x16),
    // or %g0,1,%g1; taddcctv %g1,0,%g2
    (0x20, 3, &[0x82102001, 0x85106000], 0x0A, 0x0),
    // udiv %g1,0,%g2
    (0x20, 3, &[0x84706000], 0x2A, 0x0),
    // ta 5
    (0x20, 3, &[0x91D02005], 0x85, 0x0),
    // ldd [%g0+1],%g1
    (0x20, 3, &[0xC2182001], 0x02, 0x0),
    // std %g1,[%g0+1]
    (0x20, 3, &[0xC2382001], 0x02, 0x0),
    // lda [%g0+%g0] 0xB,%g1
    (0x20, 3, &[0xC2800160], 0x03, 0x0),
    // lda [%g0+1],%g1
    (0x20, 3, &[0xC2802001], 0x03, 0x0),
    // lda [%g0+1],%g1
    (0xA0, 3, &[0xC2802001], 0x02, 0x0),
    // ldda [%g0+%g0] 0xB,%g1
    (0xA0, 3, &[0xC2980160], 0x02, 0x0),
    // or %g0,2,%g1; lda [%g1+%g0] 0x20,%g2
    (0xA0, 3, &[0x82102002, 0xC4804400], 0x07, 0x0),
    // lda [%g0+%g0] 0x20,%g1
    (0xA0, 3, &[0xC2800400], 0x09, 0x0),
    // rett %g0
    (0x20, 3, &[0x81C80000], 0x03, 0x0),
    // rett %g0+2
    (0xA0, 3, &[0x81C82002], 0x02, 0x0),
    // wr %g0,0x88,%psr
    (0x20, 3, &[0x81882088], 0x03, 0x0),
    // wr %g0,0x88,%psr
    (0xA0, 3, &[0x81882088], 0x02, 0x0),
    // lda [%g0+%g0] 0xA,%g1
    (0xA0, 4, &[0xC2800140], 0x09, 0xA),
    // lda [%g0+%g0] 0xB,%g1
    (0xA0, 4, &[0xC2800160], 0x09, 0x2A),
    // sta %g0,[%g0+%g0] 8
    (0xA0, 4, &[0xC0A00100], 0x09, 0xCA),
    // sta %g0,[%g0+%g0] 9
    (0xA0, 4, &[0xC0A00120], 0x09, 0xEA),
    // sta %g0,[%g0+%g0] 0xA
    (0xA0, 4, &[0xC0A00140], 0x09, 0x8A),
    // sta %g0,[%g0+%g0] 0xB
    (0xA0, 4, &[0xC0A00160], 0x09, 0xAA),
    // swapa [%g0+%g0] 0xB,%g1
    (0xA0, 4, &[0xC2F80160], 0x09, 0xAA),
    // lda [%g0+%g0] 8,%g1
    (0xA0, 7, &[0xC2800100], 0x09, 0x4E),
    // lda [%g0+%g0] 0xA,%g1
    (0xA0, 7, &[0xC2800140], 0x09, 0xE),
    // sta %g0,[%g0+%g0] 8
    (0xA0, 7, &[0xC0A00100], 0x09, 0xCE),
    // sta %g0,[%g0+%g0] 0xA
    (0xA0, 7, &[0xC0A00140], 0x09, 0x8E),
    // ldstuba [%g0+%g0] 0xA,%g1
    (0xA0, 7, &[0xC2E80140], 0x09, 0x8E),
];

// PSR and WIM before the word, and the trap that leads to error mode
const ERRORS: [(u32, u32, u32, u8); 5] = [
    // unimp 0
    (0x80, 2, 0x00000000, 0x02),
    // rett %g0
    (0x00, 2, 0x81C80000, 0x03),
    // rett %g0+2
    (0x80, 2, 0x81C82002, 0x06),
    // rett %g0+2
    (0x80, 0, 0x81C82002, 0x07),
    // ta 5
    (0x80, 2, 0x91D02005, 0x85),
];

// An alternate load or store that its pages' ACC admits.
const ADMITTED: [(u32, u32); 6] = [
    // lda [%g0+%g0] 8,%g1
    (4, 0xC2800100),
    // lda [%g0+%g0] 9,%g1
    (4, 0xC2800120),
    (7, 0xC2800120),
    // lda [%g0+%g0] 0xB,%g1
    (7, 0xC2800160),
    // sta %g0,[%g0+%g0] 9
    (7, 0xC0A00120),
    // sta %g0,[%g0+%g0] 0xB
    (7, 0xC0A00160),
];

/// Whether so many turns are made.
fn makes(machine: &mut Tested, turns: u32) -> bool {
    for _ in 0..turns {
        if machine.step().is_err() {
            return false;
        }
    }
    true
}

/// Whether a machine has the state that a program leaves.
fn has_state(machine: &Tested, program: &Program) -> bool {
    let globals = [global(machine, 1), global(machine, 2), global(machine, 3)];
    globals == program.globals && (machine.pc(), machine.psr()) == (program.pc, program.psr_after)
}

fn leaves_its_state(machine: &mut Tested, program: &Program) -> bool {
    makes(machine, program.turns) && has_state(machine, program)
}

/// Asserts that each program does.
fn leave_their_states(rt: &impl Abort, programs: &[Program]) {
    for number in 0..programs.len() {
        let program = &programs[number];
        let check = Check::Leaves(*program);
        assert!(rt; holds(3, program.psr, program.words, &check), "{number}");
    }
}

#[test]
fn programs_leave_the_state_of_the_manual(rt: HostRuntime) {
    leave_their_states(&rt, &PROGRAMS);
}

/// Steps up to the first turn that isn't an instruction that ran.
fn first_end(machine: &mut Tested) -> Option<Event> {
    for _ in 0..8 {
        match machine.step() {
            Ok(turn) if turn.event == Event::Ran => {}
            Ok(turn) => return Some(turn.event),
            Err(_) => return None,
        }
    }
    None
}

/// Whether a machine has entered the trap of a case: at its vector, traps disabled, the mode before it kept.
fn has_entered(machine: &Tested, psr: u32, trap: u8) -> bool {
    machine.pc() == VECTORS + u32::from(trap) * 16
        && machine.npc() == machine.pc().wrapping_add(4)
        && machine.psr() & 0xE0 == 0x80 + (psr & 0x80) / 2
        && machine.reg(Reg::L2) == machine.reg(Reg::L1).wrapping_add(4)
}

/// What traps writes no register: no word before it sets %g2, and before the first word %g1 is 0.
fn wrote_no_register(machine: &Tested, words: &[u32]) -> bool {
    global(machine, 2) == 0 && (words.len() > 1 || global(machine, 1) == 0)
}

fn traps_as_told(machine: &mut Tested, case: &Trapping) -> bool {
    let (psr, _acc, words, trap, status) = *case;
    first_end(machine) == Some(Event::Trapped(TrapType::new(trap)))
        && machine.fault_status() == status
        && has_entered(machine, psr, trap)
        && wrote_no_register(machine, words)
}

/// Asserts that each case does.
fn trap_as_told(rt: &impl Abort, cases: &[Trapping]) {
    for number in 0..cases.len() {
        let case = cases[number];
        assert!(rt;
            holds(case.1, case.0, case.2, &Check::Traps(case)),
            "{number}"
        );
    }
}

#[test]
fn traps_are_told_by_priority(rt: HostRuntime) {
    trap_as_told(&rt, &TRAPS);
}

/// Whether a machine that ends in error mode by this trap stays there, with TBR telling it.
fn stays_in_error_mode(machine: &mut Tested, psr: u32, wim: u32, trap: u8) -> bool {
    machine.set_wim(wim);
    let ended = Some(Event::ErrorMode(TrapType::new(trap)));
    first_end(machine) == ended
        && first_end(machine) == ended
        && (machine.pc(), machine.psr()) == (CODE, psr)
        && machine.tbr() == VECTORS + u32::from(trap) * 16
}

#[test]
fn traps_while_disabled_are_error_mode(rt: HostRuntime) {
    for &(psr, wim, word, trap) in &ERRORS {
        let check = Check::StaysInErrorMode(psr, wim, trap);
        assert!(rt; holds(3, psr, &[word], &check), "{word} {psr}");
    }
}

/// Whether the next word accesses its pages.
fn is_admitted(machine: &mut Tested) -> bool {
    match machine.step() {
        Ok(turn) => {
            turn.event == Event::Ran && turn.access.is_some() && machine.fault_status() == 0
        }
        Err(_) => false,
    }
}

#[test]
fn spaces_admit_what_their_pages_allow(rt: HostRuntime) {
    for &(acc, word) in &ADMITTED {
        assert!(rt;
            holds(acc, 0xA0, &[word], &Check::IsAdmitted),
            "{word} {acc}"
        );
    }
}

// loads and stores at 7F8, their sizes, and whether they are of a store kind
const ACCESSES: [(u32, Size, bool); 12] = [
    // ldub [%g0+0x7F8],%g2
    (0xC40827F8, Size::Byte, false),
    // ldsb [%g0+0x7F8],%g2
    (0xC44827F8, Size::Byte, false),
    // lduh [%g0+0x7F8],%g2
    (0xC41027F8, Size::Half, false),
    // ldsh [%g0+0x7F8],%g2
    (0xC45027F8, Size::Half, false),
    // ld [%g0+0x7F8],%g2
    (0xC40027F8, Size::Word, false),
    // ldd [%g0+0x7F8],%g2
    (0xC41827F8, Size::Double, false),
    // stb %g2,[%g0+0x7F8]
    (0xC42827F8, Size::Byte, true),
    // sth %g2,[%g0+0x7F8]
    (0xC43027F8, Size::Half, true),
    // st %g2,[%g0+0x7F8]
    (0xC42027F8, Size::Word, true),
    // std %g2,[%g0+0x7F8]
    (0xC43827F8, Size::Double, true),
    // ldstub [%g0+0x7F8],%g2
    (0xC46827F8, Size::Byte, true),
    // swap [%g0+0x7F8],%g2
    (0xC47827F8, Size::Word, true),
];

/// Whether the turn of a word tells this access of 7F8.
fn tells(machine: &mut Tested, word: u32, size: Size, store: bool) -> bool {
    let access = DataAccess {
        va: 0x7F8,
        pa: 0x7F8,
        size,
        store,
    };
    let turn = Turn {
        event: Event::Ran,
        cwp: 3,
        user: true,
        pc: CODE,
        word: Some(word),
        access: Some(access),
    };
    machine.step() == Ok(turn)
}

#[test]
fn turns_tell_what_moved(rt: HostRuntime) {
    for &(word, size, store) in &ACCESSES {
        assert!(rt;
            holds(3, 0x23, &[word], &Check::Tells(word, size, store)),
            "{word}"
        );
    }
}

// Accesses of the entry that maps them: %g1 before and after, and the entry after. A page entry of ACC 3 is E, R is 20
// and M is 40 (hexadecimal). The fetch of the word has set R.
const OWN_ENTRY: [(u32, u32, u32, u32); 7] = [
    // ld [%g0+0xFFC],%g1
    (0xC2002FFC, 0, 0x2E, 0x2E),
    // stb %g0,[%g0+0xFFC]
    (0xC0282FFC, 0, 0, 0x6E),
    // stb %g1,[%g0+0xFFC]
    (0xC2282FFC, 0x12, 0x12, 0x1200006E),
    // stb %g0,[%g0+0xFFF]
    (0xC0282FFF, 0, 0, 0),
    // st %g0,[%g0+0xFFC]
    (0xC0202FFC, 0, 0, 0),
    // swap [%g0+0xFFC],%g1
    (0xC2782FFC, 0, 0x6E, 0),
    // ldstub [%g0+0xFFF],%g1
    (0xC2682FFF, 0, 0x6E, 0xFF),
];

/// Whether the next turn runs an instruction.
fn runs(machine: &mut Tested) -> bool {
    match machine.step() {
        Ok(turn) => turn.event == Event::Ran,
        Err(_) => false,
    }
}

/// Whether a word that finds this in %g1 leaves these words in %g1 and in the entry.
fn leaves(machine: &mut Tested, before: u32, after: u32, entry: u32) -> bool {
    if let Some(first) = Reg::new(1) {
        machine.set_reg(first, before);
    }
    root_entry(machine) == Some(0xE)
        && runs(machine)
        && global(machine, 1) == after
        && root_entry(machine) == Some(entry)
}

/// Whether a fetch of the entry gives it with R, which is an UNIMP.
fn fetches_its_mark(machine: &mut Tested) -> bool {
    machine.set_pc(0xFFC);
    machine.set_npc(CODE);
    match machine.step() {
        Ok(turn) => {
            turn.event == Event::Trapped(TrapType::new(0x02))
                && turn.word == Some(0x2E)
                && root_entry(machine) == Some(0x2E)
        }
        Err(_) => false,
    }
}

/// R and M are set before the bytes of an access move.
#[test]
fn marks_come_before_the_bytes(rt: HostRuntime) {
    for &(word, before, after, entry) in &OWN_ENTRY {
        let check = Check::MarksItsEntry(before, after, entry);
        assert!(rt; holds(3, 0x20, &[word], &check), "{word}");
    }
    assert!(rt; holds(3, 0x20, &[], &Check::FetchesItsMark));
}

/// Whether words meet an annulled slot in window 0, and the fetches alone have marked the page.
fn annuls(machine: &mut Tested) -> bool {
    first_end(machine) == Some(Event::Annulled)
        && machine.psr() & 0x1F == 0
        && root_entry(machine) == Some(0x2E)
}

#[test]
fn annulled_turns_fetch_nothing(rt: HostRuntime) {
    // ba,a .+12; save %sp,-96,%sp; and after a comparison bne,a .+12; st %g0,[%g0+0xFFC]
    let over_a_save = [0x30800003, 0x9DE3BFA0, 0];
    let over_a_store = [0x80A00000, 0x32800003, 0xC0202FFC];
    assert!(rt; holds(3, 0x20, &over_a_save, &Check::Annuls));
    assert!(rt; holds(3, 0x20, &over_a_store, &Check::Annuls));
}

/// Whether a turn whose port fails changes nothing, and is made once the port works.
fn is_made_again(machine: &mut Tested, fault: PortFault) -> bool {
    if !makes(machine, 1) {
        return false;
    }
    machine.bus_mut().broken = true;
    let is_undone = machine.step() == Err(fault)
        && machine.pc() == CODE + 4
        && root_entry(machine) == Some(0x2E);
    machine.bus_mut().broken = false;
    is_undone && makes(machine, 1) && machine.pc() == CODE + 8
}

/// A fault of a port, as tables name it.
#[derive(Clone, Copy)]
enum Fault {
    Reader,
    Writer,
    Memory,
}

impl Fault {
    fn told(self) -> PortFault {
        match self {
            Fault::Reader => PortFault::Reader,
            Fault::Writer => PortFault::Writer,
            Fault::Memory => PortFault::Memory(Want::from(AllocError)),
        }
    }
}

// %g1 = 10000000, and then a load, a store, an exchange of the device's word
const FAILING: [(u32, Fault); 3] = [
    (0xC4004000, Fault::Reader),
    (0xC4204000, Fault::Writer),
    (0xC4784000, Fault::Memory),
];

#[test]
fn a_port_that_fails_changes_nothing(rt: HostRuntime) {
    for &(word, fault) in &FAILING {
        let check = Check::IsMadeAgain(fault);
        assert!(rt; holds(3, 0x20, &[0x03040000, word], &check), "{word}");
    }
}

const ENDED: Event = Event::Stopped(Stop::Exit(0x1000_0000));

/// Whether the next turn stores the exit word, and marks the page.
fn exits(machine: &mut Tested) -> bool {
    match machine.step() {
        Ok(turn) => {
            (turn.event, turn.pc) == (ENDED, CODE + 4)
                && turn.access.is_some()
                && machine.pc() == CODE + 8
                && root_entry(machine) == Some(0x6E)
        }
        Err(_) => false,
    }
}

/// Whether the next turn tells the end again, and moves nothing.
fn tells_the_end(machine: &mut Tested) -> bool {
    match machine.step() {
        Ok(turn) => {
            (turn.event, turn.word, turn.access) == (ENDED, None, None) && machine.pc() == CODE + 8
        }
        Err(_) => false,
    }
}

/// Whether the second turn exits, and the third tells the end again.
fn ends(machine: &mut Tested) -> bool {
    runs(machine) && exits(machine) && tells_the_end(machine)
}

#[test]
fn an_exit_ends_the_machine(rt: HostRuntime) {
    // st %g1,[%g1] at the device
    assert!(rt; holds(3, 0x20, &[0x03040000, 0xC2204000], &Check::Ends));
}

/// Whether Y, WIM and TBR are these.
fn has_set(machine: &Tested, y: u32, wim: u32, tbr: u32) -> bool {
    (machine.y(), machine.wim(), machine.tbr()) == (y, wim, tbr)
}

/// Whether a machine has booted, and kept the rest of its registers.
fn has_booted(machine: &Tested) -> bool {
    (machine.pc(), machine.npc(), machine.psr()) == (0x0004_0000, 0x0004_0004, 0x20)
        && has_set(machine, 5, 2, 0xF000_0000)
        && (machine.reg(Reg::SP), machine.reg(Reg::O7)) == (0x000F_FFC0, 9)
}

/// Whether a refused PSR changes nothing, and the other registers keep what is set, as far as there are bits for it.
fn keeps_what_is_set(machine: &mut Tested) -> bool {
    let is_refused = !machine.set_psr(0xFF) && machine.psr() == 0x20;
    machine.set_y(5);
    machine.set_wim(0x1FF);
    machine.set_tbr(0xABCD_EFFF);
    machine.set_reg(Reg::O7, 9);
    is_refused && has_set(machine, 5, 0xFF, 0xABCD_EFF0)
}

/// Whether a machine does, and boots then.
fn sets_and_boots(machine: &mut Tested) -> bool {
    if !keeps_what_is_set(machine) {
        return false;
    }
    machine.boot();
    has_booted(machine)
}

#[test]
fn state_registers_are_set_and_read(rt: HostRuntime) {
    assert!(rt; holds(3, 0x20, &[], &Check::SetsAndBoots));
}

/// The level of the page's entry that the machine keeps for an address.
fn kept_level(machine: &Tested, va: u32) -> Option<usize> {
    machine.cached(va).map(|found| found.level)
}

/// Whether the next fetch is refused with this fault status.
fn is_refused(machine: &mut Tested, status: u32) -> bool {
    first_end(machine) == Some(Event::Trapped(TrapType::new(0x01)))
        && machine.fault_status() == status
}

/// Whether a load's page is kept, and a store to the word that it was found by takes it away.
fn drops_what_is_stored(machine: &mut Tested) -> bool {
    if kept_level(machine, 0x7F8).is_some() || !runs(machine) {
        return false;
    }
    // An invalid entry at level 0: from supervisor instructions, of fault type 1.
    kept_level(machine, 0x7F8) == Some(0)
        && runs(machine)
        && kept_level(machine, 0x7F8).is_none()
        && is_refused(machine, 0x66)
}

/// A store to a table's word is seen by the next fetch, and takes with it what was kept by that word.
#[test]
fn a_stored_table_word_is_what_is_found(rt: HostRuntime) {
    // ld [%g0+0x7F8],%g2; st %g0,[%g0+0xFFC]
    let words = [0xC40027F8, 0xC0202FFC];
    assert!(rt; holds(3, 0xA0, &words, &Check::DropsWhatIsStored));
}

/// Whether the third fetch is refused: at level 0, from user instructions, of fault type 3.
fn is_refused_to_the_user(machine: &mut Tested) -> bool {
    runs(machine) && runs(machine) && is_refused(machine, 0x4E)
}

/// Whether the third fetch is allowed.
fn is_allowed_to_the_user(machine: &mut Tested) -> bool {
    runs(machine) && runs(machine) && runs(machine) && root_entry(machine) == Some(0x2E)
}

/// A page that a supervisor's fetches find again and again is refused to the user who comes next.
#[test]
fn a_mode_that_ends_takes_its_page_with_it(rt: HostRuntime) {
    // nop; wr %g0,0x20,%psr; nop
    let words = [0x01000000, 0x81882020, 0x01000000];
    assert!(rt; holds(7, 0xA0, &words, &Check::IsRefusedToTheUser));
    assert!(rt; holds(3, 0xA0, &words, &Check::IsAllowedToTheUser));
}

/// What is asked of a machine that comes to some words.
#[derive(Clone, Copy)]
enum Check {
    Leaves(Program),
    Traps(Trapping),
    StaysInErrorMode(u32, u32, u8),
    IsAdmitted,
    Tells(u32, Size, bool),
    MarksItsEntry(u32, u32, u32),
    FetchesItsMark,
    Annuls,
    IsMadeAgain(Fault),
    Ends,
    SetsAndBoots,
    DropsWhatIsStored,
    IsRefusedToTheUser,
    IsAllowedToTheUser,
}

/// Whether a machine answers as asked.
fn answers(machine: &mut Tested, check: &Check) -> bool {
    match check {
        Check::Leaves(program) => leaves_its_state(machine, program),
        Check::Traps(case) => traps_as_told(machine, case),
        Check::StaysInErrorMode(psr, wim, trap) => stays_in_error_mode(machine, *psr, *wim, *trap),
        Check::IsAdmitted => is_admitted(machine),
        Check::Tells(word, size, store) => tells(machine, *word, *size, *store),
        Check::MarksItsEntry(before, after, entry) => leaves(machine, *before, *after, *entry),
        Check::FetchesItsMark => fetches_its_mark(machine),
        Check::Annuls => annuls(machine),
        Check::IsMadeAgain(fault) => is_made_again(machine, fault.told()),
        Check::Ends => ends(machine),
        Check::SetsAndBoots => sets_and_boots(machine),
        Check::DropsWhatIsStored => drops_what_is_stored(machine),
        Check::IsRefusedToTheUser => is_refused_to_the_user(machine),
        Check::IsAllowedToTheUser => is_allowed_to_the_user(machine),
    }
}

/// Whether a machine that comes to these words, on pages of this ACC, does. No other function owns one.
fn holds(acc: u32, psr: u32, words: &[u32], check: &Check) -> bool {
    let mut machine = machine(acc, psr, words);
    answers(&mut machine, check)
}

//! What programs do.
use crate::told::are_told;

/// What stands behind `main:`, and what is told of the program: of each region of the data whether it may be read
/// alone, its first address and its bytes; of each function its name, the bytes of its frame, and its blocks. Of a
/// block the words of its steps, as binutils assembles what they have to be, and where control goes: `!` ends the run.
/// A region begins a page. It has 80 bytes before its first object, and 256 behind its last one, and is a multiple of
/// 8 bytes long. A program without objects has none.
static PROGRAMS: [(&str, &str); 12] = [
    // A slot's step stands before the return, and main's return ends the run.
    (" retl\n add %o0,1,%o0", "main 0: 90022001 !\n"),
    // What stands in a call's slot stands before the call.
    (
        " save %sp,-96,%sp\n call f\n mov 1,%o0\n ret\n restore\nf:\n retl\n nop",
        "main 64: 90102001 40000000 90100018 !\nf 0: .\n",
    ),
    // An annulled slot has a block of its own on the way on which it runs.
    (
        " cmp %o0,0\n be,a .L1\n mov 1,%o0\n mov 2,%o0\n.L1:\n retl\n nop",
        "main 0: 80a22000 ?3,1 90102002 >2 ! 90102001 >2\n",
    ),
    // A compare is repeated where a later block branches on it.
    (
        " cmp %o0,5\n be .L1\n nop\n bg .L1\n mov 3,%o1\n mov 4,%o1\n.L1:\n retl\n nop",
        "main 0: 80a22005 ?3,1 80a22005 92102003 ?3,2 92102004 >3 !\n",
    ),
    // Behind a branch that asks for the sign alone, which a compare of the difference with 0 tells, one that asks for
    // the carry gets the whole compare.
    (
        " subcc %o0,%o1,%o2\n be .L1\n nop\n bneg .L1\n nop\n bcs .L1\n mov 3,%o3\n mov 4,%o3\n.L1:\n retl\n nop",
        "main 0: 94a20009 ?4,1 80a2a000 ?4,2 80a20009 96102003 ?4,3 96102004 >4 !\n",
    ),
    // Plainer forms.
    (
        " tst %o0\n bl .L1\n nop\n add %o0,%o0,%o0\n.L1:\n retl\n nop",
        "main 0: 80a22000 ?2,1 912a2001 >2 !\n",
    ),
    // A block that control doesn't come to is left out.
    (
        " b .L2\n nop\n mov 9,%o0\n.L2:\n retl\n nop",
        "main 0: >1 !\n",
    ),
    // Words that are only spilled stay in the frame.
    (
        " save %sp,-104,%sp\n std %i0,[%fp-8]\n ld [%fp-4],%i0\n ret\n restore",
        "main 104: f023a060 f223a064 f003a064 90100018 !\n",
    ),
    // Where an address in it is taken, the frame's memory lies in the data.
    (
        " save %sp,-112,%sp\n add %fp,-16,%o0\n stb %i0,[%fp-16]\n ret\n restore",
        "rw 80000 448\nmain 64: 11000200 901220b0 0d000200 f029a0b0 90100018 !\n",
    ),
    // A seventh argument lies in the data, where a function has room for 512 bytes of arguments.
    (
        " save %sp,-96,%sp\n st %i0,[%sp+92]\n call f\n nop\n ret\n restore\nf:\n ld [%sp+92],%o0\n retl\n nop",
        "rw 80000 848\nmain 64: 0d000200 f021a06c 40000000 90100018 !\nf 0: 0d000200 d001a06c .\n",
    ),
    // A loop that is entered at two places gets one entry: who comes by the other one goes through a copy.
    (
        " cmp %o0,0\n be .L2\n nop\n.L1:\n add %o1,1,%o1\n.L2:\n subcc %o0,1,%o0\n bne .L1\n nop\n retl\n nop",
        "main 0: 80a22000 ?4,1 92026001 >2 90a22001 ?1,3 ! 90a22001 ?1,3\n",
    ),
    // Constants lie before what may be written, wherever they stand in the source.
    (
        CONSTANT,
        "ro 80000 344\nrw 81000 344\nmain 0: 03000200 d0006050 03000204 d0206050 !\n",
    ),
];

/// A constant is copied to what may be written, which stands before it.
const CONSTANT: &str =
    " sethi %hi(k),%g1\n ld [%g1+%lo(k)],%o0\n sethi %hi(v),%g1\n st %o0,[%g1+%lo(v)]\n retl\n nop
.data\n.align 4\nv:\n .long 0\n.section \".rodata\"\n.align 4\nk:\n .long 5\n";

#[test]
fn programs_do_what_their_sources_do(rt: HostRuntime) {
    are_told(&rt, rt.alloc(), &PROGRAMS);
}

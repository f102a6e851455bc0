//! Statements and the instructions that they are.
use crate::names::Fixed;
use arrayvec::{ArrayString, ArrayVec};
use sbx_text::{Token, tokens};
use std::alloc::{AllocError, Global};
use std::process::Abort;
use std::str::SplitWhitespace;
use v8_formats::{Instr, decode, encode};
use v8_forms::print_instr;
use v8_syntax::{
    SyntaxFault, after_first, bytes_between, is_same, length_of, parse_instr, register_named,
    sign_byte,
};

/// No name is known, at the address 0x40000.
pub const NAMELESS: Fixed = Fixed {
    word: None,
    here: 0x4_0000,
};

/// Every name is worth 0x12345678, at the address 0x40000.
const NAMED: Fixed = Fixed {
    word: Some(0x1234_5678),
    here: 0x4_0000,
};

type Parsed = Result<ArrayVec<Instr, 2>, SyntaxFault>;

/// What a statement is, if it has tokens.
fn parsed(alloc: Global, statement: &str, symbols: &Fixed) -> Option<Parsed> {
    let line = statement.as_bytes();
    match tokens(alloc, line) {
        Ok(found) => Some(parse_instr(line, &found, symbols)),
        Err(_fault) => None,
    }
}

/// Whether instructions are this word alone.
fn is_single(list: &[Instr], word: u32) -> bool {
    match list {
        [instr] => encode(instr) == word,
        _ => false,
    }
}

/// Whether a statement is this word.
pub(crate) fn is_word(alloc: Global, statement: &str, symbols: &Fixed, word: u32) -> bool {
    match parsed(alloc, statement, symbols) {
        Some(Ok(list)) => is_single(list.as_slice(), word),
        _ => false,
    }
}

fn next_word(pieces: &mut SplitWhitespace<'_>) -> Option<u32> {
    u32::from_str_radix(pieces.next()?, 16).ok()
}

/// Whether instructions are these words, in hexadecimal with a blank between two.
fn are_words(list: &[Instr], wanted: &str) -> bool {
    let mut pieces = wanted.split_whitespace();
    for instr in list {
        if next_word(&mut pieces) != Some(encode(instr)) {
            return false;
        }
    }
    pieces.next().is_none()
}

fn is_fault(alloc: Global, fault: SyntaxFault, wanted: &str) -> bool {
    match format!(in alloc; "{fault}") {
        Ok(text) => text.as_str() == wanted,
        Err(AllocError) => false,
    }
}

/// Whether these are the wanted words, or this is the wanted fault.
fn is_wanted(alloc: Global, parsed: &Parsed, wanted: &str) -> bool {
    match parsed {
        Ok(list) => are_words(list.as_slice(), wanted),
        Err(fault) => is_fault(alloc, *fault, wanted),
    }
}

/// Whether a statement gives these words, with a blank between two, or this fault.
pub(crate) fn gives(alloc: Global, statement: &str, symbols: &Fixed, wanted: &str) -> bool {
    match parsed(alloc, statement, symbols) {
        Some(parsed) => is_wanted(alloc, &parsed, wanted),
        None => false,
    }
}

/// Whether an instruction has this text.
fn has_text(instr: &Instr, wanted: &str) -> bool {
    let mut text = ArrayString::<64>::new();
    print_instr(instr, &mut text);
    text.as_str() == wanted
}

/// Whether this is the text of a word.
pub(crate) fn is_text(word: u32, wanted: &str) -> bool {
    has_text(&decode(word), wanted)
}

/// Whether the text of an instruction reads back as it.
fn reads_back(alloc: Global, instr: &Instr) -> bool {
    let mut text = ArrayString::<64>::new();
    print_instr(instr, &mut text);
    is_word(alloc, text.as_str(), &NAMELESS, encode(instr))
}

/// Whether the text of each instruction of a statement reads back.
fn read_back(alloc: Global, parsed: &Parsed) -> bool {
    if let Ok(list) = parsed {
        for instr in list.as_slice() {
            if !reads_back(alloc, instr) {
                return false;
            }
        }
    }
    true
}

/// Statements and their words, as GNU as gives them but for `tst`, `btst` and the plain `restore`: these have the
/// operands of this language's own forms.
const ENCODINGS: &str = "add %o7,%i7,%sp = 9C03C01F
addcc %g0,%o7,%i7 = BE80000F
addx %l0,%g0,%o7 = 9E440000
addxcc %g1,%l0,%g0 = 80C04010
sub %l3,%g1,%l0 = A024C001
subcc %g7,%l3,%g1 = 82A1C013
subx %l7,%g7,%l3 = A665C007
subxcc %o0,%l7,%g7 = 8EE20017
and %i0,%o0,%l7 = AE0E0008
andcc %o1,%i0,%o0 = 908A4018
andn %i4,%o1,%i0 = B02F0009
andncc %o5,%i4,%o1 = 92AB401C
or %fp,%o5,%i4 = B817800D
orcc %sp,%fp,%o5 = 9A93801E
orn %i7,%sp,%fp = BC37C00E
orncc %o7,%i7,%sp = 9CB3C01F
xor %g0,%o7,%i7 = BE18000F
xorcc %l0,%g0,%o7 = 9E9C0000
xnor %g1,%l0,%g0 = 80384010
xnorcc %l3,%g1,%l0 = A0BCC001
umul %g7,%l3,%g1 = 8251C013
umulcc %l7,%g7,%l3 = A6D5C007
smul %o0,%l7,%g7 = 8E5A0017
smulcc %i0,%o0,%l7 = AEDE0008
udiv %o1,%i0,%o0 = 90724018
udivcc %i4,%o1,%i0 = B0F70009
sdiv %o5,%i4,%o1 = 927B401C
sdivcc %fp,%o5,%i4 = B8FF800D
taddcc %sp,%fp,%o5 = 9B03801E
tsubcc %i7,%sp,%fp = BD0FC00E
taddcctv %o7,%i7,%sp = 9D13C01F
tsubcctv %g0,%o7,%i7 = BF18000F
mulscc %l0,%g0,%o7 = 9F240000
save %g1,%l0,%g0 = 81E04010
restore %l3,%g1,%l0 = A1ECC001
sll %g7,%l3,%g1 = 8329C013
sll %o7,31,%i7 = BF2BE01F
srl %i4,0,%o1 = 93372000
sra %l7,%g7,%l3 = A73DC007
sra %g0,31,%o7 = 9F38201F
ld [%i4+%o1],%o1 = D2070009
ldub [%o0-2047],%g1 = C20A3801
ldub [%i7],%fp = FC0FC000
lduh [%g7+1024],%l7 = EE11E400
ldsb [0],%o7 = DE482000
ldsb [%i4+%o1],%o1 = D24F0009
ldsh [%o0-5],%g1 = C2523FFB
ldd [%i7],%fp = FC1FC000
ldd [%o1+1],%i4 = F81A6001
ldstub [1024],%l3 = E6682400
swap [%i7+%sp],%sp = DC7FC00E
swap [%o5-4091],%o0 = D07B7005
st %g1,[%l0] = C2240000
stb %fp,[%i0+1] = FC2E2001
stb %l7,[1024] = EE282400
sth %o7,[%sp+%fp] = DE33801E
std %sp,[%i7-4] = DC3FFFFC
std %o0,[%l7] = D03DC000
lduba [%o7+%i7] 255,%i7 = FE8BDFFF
ldsba [%o1+%i0] 32,%i0 = F0CA4418
ldda [%g1+%l0] 9,%l0 = E0984130
swapa [%fp+%o5] 11,%o5 = DAFF816D
stba %o0,[%g7+%l3] 9 = D0A9C133
stda %g0,[%i7+%sp] 11 = C0BFC16E
bn,a .-4 = 20BFFFFF
be,a .-8 = 22BFFFFE
ble,a .-12 = 24BFFFFD
bl,a .-16 = 26BFFFFC
bleu,a .-20 = 28BFFFFB
bcs,a .-24 = 2ABFFFFA
bneg,a .-28 = 2CBFFFF9
bvs,a .-32 = 2EBFFFF8
ba,a .-36 = 30BFFFF7
bne,a .-40 = 32BFFFF6
bg,a .-44 = 34BFFFF5
bge,a .-48 = 36BFFFF4
bgu,a .-52 = 38BFFFF3
bcc,a .-56 = 3ABFFFF2
bpos,a .-60 = 3CBFFFF1
bvc,a .-64 = 3EBFFFF0
bnz .+8 = 12800002
blu .+8 = 0A800002
bz,a .-8 = 22BFFFFE
bne .+8388604 = 129FFFFF
call .+8 = 40000002
call .+0 = 40000000
call .-2147483648 = 60000000
te 8 = 83D02008
tl 24 = 87D02018
tcs 40 = 8BD02028
tvs 56 = 8FD02038
tne 72 = 93D02048
tge 88 = 97D02058
tcc 104 = 9BD02068
tvc 120 = 9FD02078
tne %g1+5 = 93D06005
ta 127 = 91D0207F
sethi 0,%g0 = 01000000
sethi 4194303,%l7 = 2F3FFFFF
unimp 0 = 00000000
stbar = 8143C000
jmpl %o0,%o7 = 9FC20000
jmpl %o0-4,%g0 = 81C23FFC
rett %l2+4 = 81CCA004
flush %o0 = 81DA0000
flush %o0+%o1 = 81DA0009
rd %psr,%l0 = A1480000
rd %tbr,%g7 = 8F580000
wr %o0,%o1,%y = 81820009
wr %l0,%l1,%psr = 818C0011
wr %l7,0,%tbr = 819DE000
cmp %o0,5 = 80A22005
cmp %o0,-1 = 80A23FFF
jmp %l1+%l2 = 81C44012
call %o0 = 9FC20000
tst %o3 = 8090000B
retl = 81C3E008
restore = 81E80000
not %o0,%o1 = 923A0000
neg %l0,%l1 = A2200010
inc 4,%o0 = 90022004
inccc 8,%l1 = A2846008
dec 4,%o0 = 90222004
deccc 16,%l0 = A0A42010
btst %o1,%o0 = 808A0009
bset %l1,%o0 = 90120011
bclr %l1,%o0 = 902A0011
btog %l1,%o0 = 901A0011
clr [%o0] = C0220000
clrb [%o0+1] = C02A2001
mov 5,%o0 = 90102005
mov -1,%l0 = A0103FFF
mov %y,%o0 = 91400000
mov %wim,%l0 = A1500000
mov %o0,%y = 81800008
mov %l0,%psr = 81880010
mov %l0,%tbr = 81980010
set 5,%o0 = 90102005
set 4095,%o0 = 90102FFF
set 4096,%o0 = 11000004
set 1024,%o0 = 90102400
set 0x12345678,%o0 = 11048D15 90122278
set 0x80000000,%o0 = 11200000
set 0x7FFFFFFF,%o0 = 111FFFFF 901223FF
set 0xEDB88320,%o0 = 113B6E20 90122320
ld [%fp-4],%o0 = D007BFFC
save %sp,-96,%sp = 9DE3BFA0
restore %o0,1,%o0 = 91EA2001
";

/// Statements and their words, worked out by hand from the formats and the synthetic forms.
const BY_HAND: &str = "add %o0,5,%o1 = 92022005
lda [%l0+%l1] 10,%l2 = E4840151
lduha [%o0+%o1] 10,%o2 = D4920149
ldsha [%o0+%o1] 10,%o2 = D4D20149
ldstuba [%o0+%o1] 10,%o2 = D4EA0149
sta %o2,[%o0+%o1] 10 = D4A20149
stha %o2,[%o0+%o1] 10 = D4B20149
b .+8 = 10800002
bgeu .+8 = 1A800002
tn 0 = 81D02000
tle 16 = 85D02010
tleu 32 = 89D02020
tneg 48 = 8DD02030
tg 80 = 95D02050
tgu 96 = 99D02060
tpos 112 = 9DD02070
rd %y,%o0 = 91400000
rd %wim,%o0 = 91500000
wr %o0,%o1,%wim = 81920009
save = 81E00000
not %o0 = 903A0000
neg %o0 = 90200008
inc %o0 = 90022001
inccc %o0 = 90822001
dec %o0 = 90222001
deccc %o0 = 90A22001
clr %o0 = 90100000
clrh [%o0] = C0320000
mov %psr,%o0 = 91480000
mov %tbr,%o0 = 91580000
mov %o0,%wim = 81900008
nop = 01000000
";

/// A row's statement, and what it gives: none does where nothing parts them.
pub(crate) fn halves(row: &str) -> (&str, &str) {
    row.split_once(" = ").unwrap_or((row, ""))
}

/// Whether these tokens of a statement have the length of its words, with a blank between two, and are them, and each
/// reads back.
fn are_so(alloc: Global, line: &[u8], found: &[Token], words: &str) -> bool {
    let parsed = parse_instr(line, found, &NAMELESS);
    length_of(line, found) == words.len().saturating_add(1) / 9
        && is_wanted(alloc, &parsed, words)
        && read_back(alloc, &parsed)
}

fn is_so(alloc: Global, statement: &str, words: &str) -> bool {
    let line = statement.as_bytes();
    match tokens(alloc, line) {
        Ok(found) => are_so(alloc, line, &found, words),
        Err(_fault) => false,
    }
}

/// Each row of a table, a line each, is read.
fn are_read(rt: &impl Abort, alloc: Global, rows: &str) {
    for row in rows.lines() {
        let (statement, words) = halves(row);
        assert!(rt; is_so(alloc, statement, words), "{row}");
    }
}

#[test]
fn statements(rt: HostRuntime) {
    are_read(&rt, rt.alloc(), ENCODINGS);
    are_read(&rt, rt.alloc(), BY_HAND);
}

/// What each statement gives where every symbol is worth 0x12345678, at the address 0x40000.
const OTHERS: &str = " = S1
%o0 = S1
frob %o0 = S1
.word 5 = S1
add %o0,4096,%o0 = S3
add %o0,4095,%o0 = 90022FFF
add %o0,-4096,%o0 = 90023000
add %o0,-4097,%o0 = S3
add %o0,sym,%o0 = S3
add %o0,sym-305419895,%o0 = 90022001
add %o0,5 = S2
add %o0,5,%o8 = S2
add %o0,5,%o1,%o2 = S2
add %o0,5000,[%o1] = S2
add %r8,5,%r9 = 92022005
add %r08,5,%r9 = S2
set 4096,%o0 = 11000004
set 5,%o0 = 90102005
set 0xFFFFF000,%o0 = 90103000
set 4294967296,%o0 = S3
set -2147483648,%o0 = 11200000
set -2147483649,%o0 = S3
set sym,%o0 = 11048D15 90122278
set sym-305419896,%o0 = 11000000 90122000
save %sp,-96,%sp = 9DE3BFA0
ret = 81C7E008
restore = 81E80000
ta 0 = 91D02000
ta 127 = 91D0207F
ta 128 = S3
ta -1 = S3
ta %g1-5 = S3
sll %o0,31,%o0 = 912A201F
sll %o0,32,%o0 = S3
sll %o0,-1,%o0 = S3
lda [%o0] 255,%o1 = D2821FE0
lda [%o0] 256,%o1 = S3
lda [%o0] -1,%o1 = S3
lda [%o0+4] 10,%o1 = S2
ld [%o0--4],%o1 = S2
ld [%o0+-4],%o1 = D2023FFC
ld [4+%o0],%o1 = D2022004
save %sp,-4096,%sp = 9DE3B000
save %sp,-4104,%sp = S3
ba .+8388604 = 109FFFFF
ba .+8388608 = S5
ba .-8388608 = 10A00000
ba .-8388612 = S5
ba .+6 = S5
ba 0x40008 = 10800002
bne , a 0x40008 = 32800002
add,a %o0,5,%o0 = S2
call 8 = 7FFF0002
call 0 = 7FFF0000
call -4 = S5
call 4294967292 = 7FFEFFFF
call 4294967296 = S5
call .+2147483644 = 5FFFFFFF
call .+2147483648 = S5
call .-2147483652 = S5
mov %o0,%psr = 81880008
sethi 4194304,%o0 = S3
sethi -1,%o0 = S3
unimp -1 = S3
";

/// Each row of a table, a line each, gives what it says.
fn are_given(rt: &impl Abort, alloc: Global, rows: &str) {
    for row in rows.lines() {
        let (statement, words) = halves(row);
        assert!(rt; gives(alloc, statement, &NAMED, words), "{row}");
    }
}

#[test]
fn other_statements(rt: HostRuntime) {
    are_given(&rt, rt.alloc(), OTHERS);
    assert!(rt; gives(rt.alloc(), "set sym,%o0", &NAMELESS, "S4"), "set");
    assert!(rt; gives(rt.alloc(), "ba sym", &NAMELESS, "S4"), "ba");
}

/// Words and their text.
static TEXTS: [(u32, &str); 19] = [
    (0xD0084000, "ldub [%g1+%g0],%o0"),
    (0x12BFFFFD, "bne .-12"),
    (0x81C7E008, "jmpl %i7+8,%g0"),
    (0x81E80000, "restore %g0,%g0,%g0"),
    (0x81E80020, "restore %g0,%g0,%g0"),
    (0x90102048, "or %g0,72,%o0"),
    (0x9DE3BFA0, "save %sp,-96,%sp"),
    (0x91D02000, "ta 0"),
    (0x93D06005, "tne %g1+5"),
    (0x91D00001, "ta %g0+%g1"),
    (0xDE482000, "ldsb [%g0+0],%o7"),
    (0xE0984130, "ldda [%g1+%l0] 9,%l0"),
    (0xC2802004, ".word 0xC2802004"),
    (0x01C0FFFF, ".word 0x01C0FFFF"),
    (0x60000000, "call .-2147483648"),
    (0x30BFFFFF, "ba,a .-4"),
    (0x81986001, "wr %g1,1,%tbr"),
    (0x3E000005, "unimp 5"),
    (0x2F3FFFFF, "sethi 4194303,%l7"),
];

/// Each word has its text.
fn are_texts(rt: &impl Abort, rows: &[(u32, &str)]) {
    for (word, wanted) in rows {
        assert!(rt; is_text(*word, wanted), "{wanted}");
    }
}

#[test]
fn texts(rt: HostRuntime) {
    are_texts(&rt, &TEXTS);
}

/// Names without their `%`, and the numbers of their registers.
static REGISTERS: [(&str, Option<u8>); 13] = [
    ("g0", Some(0)),
    ("o6", Some(14)),
    ("l1", Some(17)),
    ("i7", Some(31)),
    ("sp", Some(14)),
    ("fp", Some(30)),
    ("r9", Some(9)),
    ("r31", Some(31)),
    ("r32", None),
    ("r08", None),
    ("o8", None),
    ("y", None),
    ("", None),
];

fn is_register(name: &str, wanted: Option<u8>) -> bool {
    match register_named(name.as_bytes()) {
        Some(register) => Some(register.number()) == wanted,
        None => wanted.is_none(),
    }
}

/// Each name is that of its register.
fn are_registers(rt: &impl Abort, rows: &[(&str, Option<u8>)]) {
    for (name, wanted) in rows {
        assert!(rt; is_register(name, *wanted), "{name}");
    }
}

#[test]
fn registers(rt: HostRuntime) {
    are_registers(&rt, &REGISTERS);
}

/// Whether these are the bytes between two places of the line `add %o0`.
fn is_piece(start: usize, stop: usize, wanted: &[u8]) -> bool {
    bytes_between(b"add %o0", start, stop) == wanted
}

#[test]
fn pieces(rt: HostRuntime) {
    assert!(rt; is_piece(4, 7, b"%o0") && is_piece(4, 8, b"") && is_piece(3, 2, b""));
}

/// Whether this follows the first byte of a text, and this is its sign.
fn is_front(text: &[u8], rest: &[u8], sign: u8) -> bool {
    after_first(text) == rest && sign_byte(text) == sign
}

#[test]
fn fronts(rt: HostRuntime) {
    assert!(rt;
        is_front(b"add %o0", b"dd %o0", b'a') && is_front(b"+", b"", b'+') && is_front(b"", b"", 0)
    );
    assert!(rt; is_same(b"add", b"add") && !is_same(b"add", b"and"));
}

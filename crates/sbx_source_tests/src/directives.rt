//! Labels, directives and the bytes of their values.
use crate::instructions::halves;
use crate::names::OneName;
use sbx_directives::{
    DataFault, Directive, Name, Statement, Width, byte_len, label_count, push_values,
    read_statement, text_of,
};
use sbx_image::{Kind, Range};
use sbx_text::{Token, tokens};
use std::alloc::Global;
use std::process::Abort;
use std::str::SplitWhitespace;

/// A statement in a word, and its numbers in the order of its operands: so many of the five.
type Told = (&'static str, usize, [i128; 5]);

const NOTHING: [i128; 5] = [0; 5];

fn kind_name(kind: Kind) -> &'static str {
    match kind {
        Kind::Leaf => "leaf",
        Kind::Framed => "framed",
    }
}

fn width_name(width: Width) -> &'static str {
    match width {
        Width::Byte => "bytes",
        Width::Half => "halves",
        Width::Word => "words",
    }
}

const fn one(number: i128) -> [i128; 5] {
    [number, 0, 0, 0, 0]
}

const fn two(first: i128, second: i128) -> [i128; 5] {
    [first, second, 0, 0, 0]
}

fn three(range: Range) -> [i128; 5] {
    [
        range.lo as i128,
        range.hi as i128,
        range.alignment as i128,
        0,
        0,
    ]
}

fn five(name: Name, frame: u32, stack_room: u32, budget: u64) -> [i128; 5] {
    [
        name.start as i128,
        name.stop as i128,
        frame as i128,
        stack_room as i128,
        budget as i128,
    ]
}

fn told(directive: Directive) -> Told {
    match directive {
        Directive::Text => ("text", 0, NOTHING),
        Directive::Data => ("data", 0, NOTHING),
        Directive::Region { writable } => ("region", 1, one(writable as i128)),
        Directive::Services(services) => ("services", 1, one(services.0 as i128)),
        Directive::Stack(pages) => ("stack", 1, one(pages as i128)),
        Directive::Function {
            name,
            kind,
            frame,
            stack_room,
            budget,
        } => (kind_name(kind), 5, five(name, frame, stack_room, budget)),
        Directive::Param(range) => ("param", 3, three(range)),
        Directive::Result(range) => ("result", 3, three(range)),
        Directive::Depth(depth) => ("depth", 1, one(depth as i128)),
        Directive::Block(name) => ("block", 2, two(name.start as i128, name.stop as i128)),
        Directive::Cell(cell) => {
            let [lo, hi, alignment, _, _] = three(cell.range);
            ("cell", 4, [cell.location as i128, lo, hi, alignment, 0])
        }
        Directive::Fuel(fuel) => ("fuel", 1, one(fuel as i128)),
        Directive::Term(term) => (
            "term",
            2,
            two(term.location as i128, term.coefficient as i128),
        ),
        Directive::Values(width, count) => (width_name(width), 1, one(count as i128)),
        Directive::Skip(count) => ("skip", 1, one(count as i128)),
        Directive::Align(unit) => ("align", 1, one(unit as i128)),
    }
}

fn told_statement(statement: Statement) -> Told {
    match statement {
        Statement::Nothing => ("nothing", 0, NOTHING),
        Statement::Directive(directive) => told(directive),
        Statement::Malformed(..) => ("malformed", 0, NOTHING),
        Statement::Instruction => ("instruction", 0, NOTHING),
    }
}

fn next_number(pieces: &mut SplitWhitespace<'_>) -> Option<i128> {
    pieces.next()?.parse().ok()
}

/// Whether the next pieces are so many of these numbers, and there is no other.
fn are_rest(pieces: &mut SplitWhitespace<'_>, numbers: &[i128; 5], count: usize) -> bool {
    for place in 0..count {
        let number = next_number(pieces);
        if number.is_none() || number != numbers.get(place).copied() {
            return false;
        }
    }
    pieces.next().is_none()
}

/// Whether these words and numbers, between blanks, are the count of labels and what is told.
fn is_told(labels: usize, told: &Told, wanted: &str) -> bool {
    let mut pieces = wanted.split_whitespace();
    next_number(&mut pieces) == Some(labels as i128)
        && pieces.next() == Some(told.0)
        && are_rest(&mut pieces, &told.2, told.1)
}

/// The labels of a line, counted, and what stands behind them, are as wanted.
fn are_read(line: &[u8], found: &[Token], wanted: &str) -> bool {
    let labels = label_count(line, found);
    let statement = read_statement(line, found.split_at(2 * labels).1);
    is_told(labels, &told_statement(statement), wanted)
}

fn is_read(alloc: Global, line: &str, wanted: &str) -> bool {
    match tokens(alloc, line.as_bytes()) {
        Ok(found) => are_read(line.as_bytes(), &found, wanted),
        Err(_fault) => false,
    }
}

/// A line; and how many labels it has, what stands behind them, and the numbers of that: of a name its first place and
/// the one behind it, of a function those of its name, its frame, its room and its budget, of a region whether it is
/// written.
const STATEMENTS: &str = " = 0 nothing
a: .text : ! b: = 2 nothing
a: nop = 1 instruction
.foo 5 = 0 instruction
.TEXT = 0 instruction
%o0 = 0 instruction
5: = 0 instruction
x: .text = 1 text
.data = 0 data
.region ro = 0 region 0
x: .region rw = 1 region 1
.services exit,exit = 0 services 1
.services put , get = 0 services 6
.stack 16 = 0 stack 16
.function f,framed,4096,65536,0xFFFFFFFFFF = 0 framed 10 11 4096 65536 1099511627775
.param -2147483648,2147483647,3 = 0 param -2147483648 2147483647 3
.result 7,7,0 = 0 result 7 7 0
.depth 256 = 0 depth 256
.block loop = 0 block 7 11
.cell slot 1007,0,1,0 = 0 cell 1039 0 1 0
.cell %fp,0,1,0 = 0 cell 30 0 1 0
.fuel -1099511627775 = 0 fuel -1099511627775
.term slot -0,-2147483648 = 0 term 32 -2147483648
.word 1,-2,s,s+3,.-4 = 0 words 5
.half 70000 = 0 halves 1
.skip 262145 = 0 skip 262145
.align 8 = 0 align 8
";

/// Each row of a table, a line each, is read as it says.
fn are_so(rt: &impl Abort, alloc: Global, rows: &str) {
    for row in rows.lines() {
        let (line, wanted) = halves(row);
        assert!(rt; is_read(alloc, line, wanted), "{row}");
    }
}

#[test]
fn statements(rt: HostRuntime) {
    are_so(&rt, rt.alloc(), STATEMENTS);
}

/// Operands of another shape, and numbers past their bounds.
const MALFORMED: &str = ".text 5
.data x
.region
.region wr
.region ro,rw
.region ro rw
.region 1
.region ro+1
.services
.services exit,
.services stop
.services exit get
.stack
.stack 0
.stack 17
.stack 1,2
.function f,leaf,4097,0,1
.function f,leaf,0,65537,1
.function f,leaf,0,0,-1
.function f,tree,0,0,1
.function f,leaf,0,0
.function 5,leaf,0,0,1
.function f,leaf,0,0,1,2
.param 8,7,0
.param 0,7,4
.param -2147483649,7,0
.param 0,2147483648,0
.param 0,1
.result 0,1,s
.depth 257
.depth -1
.depth f
.block
.block 5
.cell %g0,0,1,0
.cell %y,0,1,0
.cell slot 1008,0,1,0
.cell slot -1,0,1,0
.cell slot+0,0,1,0
.cell word 5,0,1,0
.cell %o0,1,0,0
.fuel s
.term %o0,0
.term %o0,2147483648
.word
.word 1,,2
.word 1+2
.byte +5
.half -s
.word %o0
.skip -1
.align 16
.align 1
";

/// Each line has the shape of no statement.
fn are_malformed(rt: &impl Abort, alloc: Global, lines: &str) {
    for line in lines.lines() {
        assert!(rt; is_read(alloc, line, "0 malformed"), "{line}");
    }
}

#[test]
fn malformed_statements(rt: HostRuntime) {
    are_malformed(&rt, rt.alloc(), MALFORMED);
}

/// Whether the bytes of a name that begins at the seventh one are these.
fn is_name(line: &[u8], stop: usize, wanted: &[u8]) -> bool {
    text_of(line, Name { start: 7, stop }) == wanted
}

#[test]
fn names(rt: HostRuntime) {
    assert!(rt; is_name(b".block loop", 11, b"loop"), "whole");
    assert!(rt; is_name(b".block loop", 12, b""), "past the end");
}

/// Values, what they make of the byte 7, and their fault.
type Values = (Width, &'static str, &'static [u8], Option<DataFault>);

static VALUES: [Values; 14] = [
    (Width::Byte, ".byte 255,-128,0", b"\x07\xff\x80\x00", None),
    (
        Width::Byte,
        ".byte 256",
        b"\x07",
        Some(DataFault::Malformed),
    ),
    (
        Width::Byte,
        ".byte -129",
        b"\x07",
        Some(DataFault::Malformed),
    ),
    (
        Width::Half,
        ".half 65535,-32768",
        b"\x07\xff\xff\x80\x00",
        None,
    ),
    (
        Width::Half,
        ".half 65536",
        b"\x07",
        Some(DataFault::Malformed),
    ),
    (
        Width::Half,
        ".half -32769",
        b"\x07",
        Some(DataFault::Malformed),
    ),
    (
        Width::Word,
        ".word 4294967295,-2147483648",
        b"\x07\xff\xff\xff\xff\x80\x00\x00\x00",
        None,
    ),
    (
        Width::Word,
        ".word 4294967296",
        b"\x07",
        Some(DataFault::Malformed),
    ),
    (
        Width::Word,
        ".word -2147483649",
        b"\x07",
        Some(DataFault::Malformed),
    ),
    (
        Width::Word,
        ".word s,s+1",
        b"\x07\x12\x34\x56\x78\x12\x34\x56\x79",
        None,
    ),
    (Width::Half, ".half s-305419896", b"\x07\x00\x00", None),
    (Width::Byte, ".byte s", b"\x07", Some(DataFault::Malformed)),
    (
        Width::Byte,
        ".byte t,256",
        b"\x07",
        Some(DataFault::UnknownSymbol),
    ),
    (
        Width::Byte,
        ".byte 256,.",
        b"\x07",
        Some(DataFault::UnknownSymbol),
    ),
];

/// Whether the values of a directive make of these bytes, and tell, what the row says.
fn are_pushed(row: &Values, found: &[Token], out: &mut Vec<u8>) -> bool {
    let (width, line, bytes, wanted) = *row;
    let fault = push_values(width, &OneName, line.as_bytes(), found, out).err();
    fault == wanted && out.as_slice() == bytes
}

fn are_spelled(alloc: Global, row: &Values, found: &[Token]) -> bool {
    match vec![in alloc; 7] {
        Ok(out) => {
            let mut out = out;
            are_pushed(row, found, &mut out)
        }
        Err(_refused) => false,
    }
}

fn is_spelled(alloc: Global, row: &Values) -> bool {
    match tokens(alloc, row.1.as_bytes()) {
        Ok(found) => are_spelled(alloc, row, &found),
        Err(_fault) => false,
    }
}

/// Each row is spelled so.
fn are_all_spelled(rt: &impl Abort, alloc: Global, rows: &[Values]) {
    for row in rows {
        assert!(rt; is_spelled(alloc, row), "{}", row.1);
    }
}

#[test]
fn values(rt: HostRuntime) {
    are_all_spelled(&rt, rt.alloc(), &VALUES);
    assert!(rt;
        byte_len(Width::Byte) == 1 && byte_len(Width::Half) == 2 && byte_len(Width::Word) == 4
    );
}

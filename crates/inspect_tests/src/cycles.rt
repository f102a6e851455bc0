//! Tables as their bytes spell them, worked out by hand.
use inspect_cycles::{CycleTable, RowCause, TableFault, read_table};
use std::alloc::Global;
use std::process::Abort;
use std::test::Fail;

/// Each row, in another order than the fields', with comments, blanks, a line end of two bytes, and none at the end.
static WHOLE: &[u8] =
    b"# a part \xFF\r\nwalk 16\nfetch 15\ntrap 14\nput 13\r\n\n\tget  12 # a byte\nexit 11\nrestore 10\n\
    save 9\nexchange 8\nstore 7\nload 6\njump 5\nbranch 4\ndivide 3\nmultiply 0\nplain 4294967295";

/// Asserts that a table has the rows that it spells.
fn has_rows(rt: &impl Abort, table: &CycleTable) {
    let CycleTable {
        plain,
        multiply,
        divide,
        branch,
        jump,
        load,
        store,
        exchange,
        save,
        restore,
        exit,
        get,
        put,
        trap,
        fetch,
        walk,
    } = *table;
    assert!(rt; [plain, multiply, divide, branch, jump] == [u32::MAX, 0, 3, 4, 5]);
    assert!(rt; [load, store, exchange, save] == [6, 7, 8, 9]);
    assert!(rt; [restore, exit, get, put] == [10, 11, 12, 13]);
    assert!(rt; [trap, fetch, walk] == [14, 15, 16]);
}

#[test]
fn each_row_is_read(rt: HostRuntime) -> Result<(), Fail> {
    let table = read_table(WHOLE).ok().ok_or("no table")?;
    has_rows(&rt, &table);
    Ok(())
}

/// Lines that are no rows, and why.
static FAULTS: [(&str, RowCause); 12] = [
    ("plain\u{FC} 1", RowCause::Name),
    ("Plain 1", RowCause::Name),
    ("1 plain", RowCause::Name),
    ("load 2", RowCause::Again),
    ("load", RowCause::Count),
    ("plain 1 2", RowCause::Count),
    ("plain 0x10", RowCause::Number),
    ("plain +1", RowCause::Number),
    ("plain -1", RowCause::Number),
    ("plain 1.5", RowCause::Number),
    ("plain 4294967296", RowCause::Great),
    (
        "plain 99999999999999999999999999999999999999999",
        RowCause::Great,
    ),
];

/// Whether a file is told to be no table for this fault.
fn is_told(file: &[u8], fault: TableFault) -> bool {
    read_table(file).err() == Some(fault)
}

/// Whether a line is told to be no row for this cause, as the third of a file.
fn is_no_row(alloc: Global, text: &str, cause: RowCause) -> Result<bool, Fail> {
    let file = format!(in alloc; "load 1\n\n{text}\nnothing\n")?;
    Ok(is_told(file.as_str().as_bytes(), TableFault::Line(3, cause)))
}

#[test]
fn faults_are_told(rt: HostRuntime) -> Result<(), Fail> {
    for (text, cause) in &FAULTS {
        assert!(rt; is_no_row(rt.alloc(), text, *cause)?, "{text}");
    }
    assert!(rt; is_told(b"load 1\nplain \xFF1", TableFault::Line(2, RowCause::Text)));
    Ok(())
}

#[test]
fn a_row_that_lacks_is_named(rt: HostRuntime) {
    assert!(rt; is_told(b"", TableFault::Lacks("plain")));
    assert!(rt; is_told(&WHOLE[..WHOLE.len() - 17], TableFault::Lacks("plain")));
    assert!(rt; is_told(&WHOLE[20..], TableFault::Lacks("walk")));
}

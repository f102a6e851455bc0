//! Whole programs on the plain flat machine.
use crate::rows::{LOOPS, ROWS, Row};
use flat_plain::{Ending, Plain, Ran, traffic, weight};
use sbx_flat::Place;
use sbx_image::Image;
use std::alloc::Global;
use std::process::Abort;
use std::test::Fail;

/// Whether the run gives what the row says.
fn gives(row: &Row, machine: &Plain<'_>, ran: &Ran) -> bool {
    let exits = match ran.ending {
        Ending::Exit(word) => word == row.status,
        Ending::Failed(_) | Ending::Limit => false,
    };
    exits && machine.output() == row.output && ran.path.len() == row.steps
}

/// The run with this fill, and whether it gives what the row says.
fn run_of(alloc: Global, image: &Image, row: &Row, fill: u32) -> Result<(Ran, bool), Fail> {
    let mut machine = Plain::new(alloc, image, row.input, fill)?;
    let ran = machine.run(alloc, image, fill, 100_000)?;
    let is_given = gives(row, &machine, &ran);
    Ok((ran, is_given))
}

fn is_same(first: &Place, second: &Place) -> bool {
    first.pc == second.pc && first.annulled == second.annulled && first.address == second.address
}

fn are_same(first: &[Place], second: &[Place]) -> bool {
    for number in 0..first.len() {
        match second.get(number) {
            Some(other) if is_same(&first[number], other) => {}
            _ => return false,
        }
    }
    true
}

/// Whether the path's traffic is the row's, for each count of windows.
fn costs(image: &Image, row: &Row, path: &[Place]) -> bool {
    if path.len() >= 0x1_0000_0000 || weight(image, path) != row.weight {
        return false;
    }
    for windows in 4..33u32 {
        let told = traffic(image, windows, path);
        if (told.overflows, told.underflows, told.turns) != row.counts_on(windows) {
            return false;
        }
    }
    true
}

/// Whether the run with ones gives the row, along this path.
fn agrees(alloc: Global, image: &Image, row: &Row, path: &[Place]) -> Result<bool, Fail> {
    let (ones, is_given) = run_of(alloc, image, row, 0xFFFF_FFFF)?;
    Ok(is_given && are_same(path, &ones.path))
}

/// Whether both fills of open words give the row, along one path.
fn gives_both(alloc: Global, image: &Image, row: &Row) -> Result<bool, Fail> {
    let (zeros, is_given) = run_of(alloc, image, row, 0)?;
    let agreed = agrees(alloc, image, row, &zeros.path)?;
    Ok(is_given && agreed && costs(image, row, &zeros.path))
}

/// Whether the row is so.
fn is_so(alloc: Global, row: &Row) -> Result<bool, Fail> {
    let image = row.image(alloc)?;
    gives_both(alloc, &image, row)
}

/// Asserts that each row is so.
fn are_so(rt: &impl Abort, alloc: Global, rows: &[Row]) -> Result<(), Fail> {
    for row in rows {
        assert!(rt; is_so(alloc, row)?, "{}", row.name);
    }
    Ok(())
}

#[test]
fn programs_give_their_rows(rt: HostRuntime) -> Result<(), Fail> {
    are_so(&rt, rt.alloc(), &ROWS)
}

#[test]
fn long_loops_give_their_rows(rt: HostRuntime) -> Result<(), Fail> {
    are_so(&rt, rt.alloc(), &LOOPS)
}

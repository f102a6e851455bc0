//! The command `cycles`: a bound on the runs of an accepted image, in cycles of a processor.
use crate::by_source::at_file;
use crate::faults::InspectFault;
use crate::machine::bytes_of;
use crate::opened;
use cmd_command::CommandStop;
use cmd_filing::accepted_in;
use inspect_cycles::{
    CycleBound, CycleTable, Piece, dearest_of, most_beside_services, most_cycles, read_table,
};
use sbx_verify::Accepted;
use std::io;

/// The exit status where the bound is greater than what was asked for.
const GREATER: u8 = 1;

/// What the words ask for: an image, a table, and the most cycles that its runs may take.
#[derive(Clone, Copy)]
struct CyclesJob<'a> {
    image: &'a str,
    table: &'a str,
    most: Option<u64>,
}

/// What the words after the command give, each at most once.
#[derive(Clone, Copy)]
struct Options<'a> {
    image: Option<&'a str>,
    table: Option<&'a str>,
    most: Option<&'a str>,
}

/// What the next word is.
#[derive(Clone, Copy)]
enum Next {
    /// The path of an image, or the name of an option.
    Any,
    /// The path of a table.
    Table,
    /// The most cycles.
    Most,
}

/// Puts a word where none is yet.
fn put<'a>(place: &mut Option<&'a str>, word: &'a str) -> Option<Next> {
    match place {
        Some(_) => None,
        None => {
            *place = Some(word);
            Some(Next::Any)
        }
    }
}

impl<'a> Options<'a> {
    /// Takes a word, and says what the one after it is; nothing where the word has no place.
    fn take(&mut self, next: Next, word: &'a str) -> Option<Next> {
        match (next, word) {
            (Next::Table, path) => put(&mut self.table, path),
            (Next::Most, number) => put(&mut self.most, number),
            (Next::Any, "--table") => Some(Next::Table),
            (Next::Any, "--max-cycles") => Some(Next::Most),
            (Next::Any, path) => put(&mut self.image, path),
        }
    }
}

/// The number that a text spells by decimal digits alone.
pub fn cycles(text: &str) -> Option<u64> {
    if !text.as_bytes().iter().all(|byte| byte.is_ascii_digit()) {
        return None;
    }
    text.parse().ok()
}

/// The most cycles that a text gives, where there is one.
fn most_of(text: Option<&str>) -> Option<Option<u64>> {
    match text {
        None => Some(None),
        Some(text) => Some(Some(cycles(text)?)),
    }
}

/// The job that the words after the program's name ask for; none of words that ask for another one.
fn job_of(words: &[String]) -> Option<CyclesJob<'_>> {
    let (command, rest) = words.split_first()?;
    if command.as_str() != "cycles" {
        return None;
    }
    let mut options = Options {
        image: None,
        table: None,
        most: None,
    };
    let mut next = Next::Any;
    for word in rest {
        next = options.take(next, word.as_str())?;
    }
    match next {
        Next::Any => Some(CyclesJob {
            image: options.image?,
            table: options.table?,
            most: most_of(options.most)?,
        }),
        Next::Table | Next::Most => None,
    }
}

/// The table at a path.
fn table_at<'a>(rt: &HostRuntime, path: &'a str) -> Result<CycleTable, InspectFault<'a>> {
    let file = bytes_of(rt, path)?;
    match read_table(file.as_slice()) {
        Ok(table) => Ok(table),
        Err(fault) => Err(InspectFault::Table(path, fault)),
    }
}

/// The accepted image at a path.
fn accepted_at<'a>(rt: &HostRuntime, path: &'a str) -> Result<Accepted, InspectFault<'a>> {
    let mut file = opened(rt, path)?;
    match accepted_in(rt.alloc(), &mut file) {
        Ok(accepted) => Ok(accepted),
        Err(stop) => Err(at_file(path, stop)),
    }
}

/// What a piece takes by the turn, in thousandths of a cycle, rounded up.
fn thousandths(piece: Piece) -> u128 {
    (1000 * u128::from(piece.cycles)).div_ceil(u128::from(piece.turns).max(1))
}

/// What stands behind a noun: a letter where it isn't counted once.
fn plural(count: u64) -> &'static str {
    if count == 1 { "" } else { "s" }
}

/// Tells a block: where it begins, and its dearest piece.
fn tell_block(rt: &HostRuntime, address: u32, piece: Piece, mark: &str) -> io::Result<()> {
    let Piece { cycles, turns } = piece;
    let each = thousandths(piece);
    let (whole, rest) = (each / 1000, each % 1000);
    let (of_cycles, of_turns) = (plural(cycles), plural(turns));
    println!(rt;
        "  {address:08X}: {cycles} cycle{of_cycles} in {turns} turn{of_turns}, {whole}.{rest:03} a turn{mark}"
    )
}

/// What marks a block: of those whose pieces are the dearest the first has a mark.
fn mark_of(piece: Piece, dearest: &mut Option<Piece>) -> &'static str {
    match dearest {
        Some(most) if !piece.is_below(most) => {
            *dearest = None;
            ", the dearest"
        }
        _ => "",
    }
}

/// Tells the blocks of a function. The dearest piece is given until its block is marked.
fn tell_function(
    rt: &HostRuntime,
    table: &CycleTable,
    accepted: &Accepted,
    number: usize,
    dearest: &mut Option<Piece>,
) -> io::Result<()> {
    let Some(function) = accepted.image().functions().get(number) else {
        return Ok(());
    };
    println!(rt;
        "function {number} at {:08X}: budget {} turns",
        function.entry, function.budget
    )?;
    for (index, block) in function.blocks.as_slice().iter().enumerate() {
        if let Some(piece) = dearest_of(table, accepted, number, index) {
            tell_block(rt, block.address, piece, mark_of(piece, dearest))?;
        }
    }
    Ok(())
}

/// Tells the bound beside the services, and what each of them takes.
fn tell_beside(rt: &HostRuntime, table: &CycleTable, accepted: &Accepted) -> io::Result<()> {
    let most = most_beside_services(table, accepted).most;
    println!(rt;
        "beside services: {most} cycles, and {} an exit, {} a get, {} a put",
        table.exit, table.get, table.put
    )
}

/// Tells a bound, and the blocks by functions.
fn tell_all(
    rt: &HostRuntime,
    table: &CycleTable,
    accepted: &Accepted,
    bound: &CycleBound,
) -> io::Result<()> {
    let CycleBound {
        budget,
        dearest,
        most,
    } = *bound;
    let Piece { cycles, turns } = dearest;
    let (of_cycles, of_turns) = (plural(cycles), plural(turns));
    println!(rt; "budget: {budget} turns")?;
    println!(rt; "dearest piece: {cycles} cycle{of_cycles} in {turns} turn{of_turns}")?;
    println!(rt; "bound: {most} cycles")?;
    tell_beside(rt, table, accepted)?;
    let mut unmarked = Some(dearest);
    for (number, _) in accepted.image().functions().iter().enumerate() {
        tell_function(rt, table, accepted, number, &mut unmarked)?;
    }
    Ok(())
}

/// Tells them on standard output.
fn tell<'a>(
    rt: &HostRuntime,
    table: &CycleTable,
    accepted: &Accepted,
    bound: &CycleBound,
) -> Result<(), InspectFault<'a>> {
    match tell_all(rt, table, accepted, bound) {
        Ok(()) => Ok(()),
        Err(error) => Err(InspectFault::Stop(CommandStop::of(&error, CommandStop::Output))),
    }
}

/// Tells the bound that a job asks for, and gives the exit status.
fn perform<'a>(rt: &HostRuntime, job: &CyclesJob<'a>) -> Result<u8, InspectFault<'a>> {
    let table = table_at(rt, job.table)?;
    let accepted = accepted_at(rt, job.image)?;
    let bound = most_cycles(&table, &accepted);
    tell(rt, &table, &accepted, &bound)?;
    match job.most {
        Some(most) if bound.most > u128::from(most) => {
            let _ = eprintln!(rt;
                "inspect: {}: the bound is greater than {most} cycles",
                job.image
            );
            Ok(GREATER)
        }
        _ => Ok(0),
    }
}

/// Does what the words ask for, and gives the exit status; none of words that ask for no cycles.
pub fn answer(rt: &HostRuntime, words: &[String]) -> Option<u8> {
    let job = job_of(words)?;
    Some(match perform(rt, &job) {
        Ok(status) => status,
        Err(fault) => fault.report(rt),
    })
}

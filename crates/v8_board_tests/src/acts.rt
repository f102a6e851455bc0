//! What is done to a board and what it then shows, one act after another.
use crate::boards::{Placed, Tested, board_over, has_words, load, put_words, run, step};
use crate::images::End;
use crate::ports::{Fault, Probe};
use std::alloc::{AllocError, Global};
use std::process::Abort;
use std::test::Fail;
use v8_board::{Outcome, PageUse};
use v8_core::{DataAccess, Event, Turn};
use v8_mmu::PortFault;
use v8_word::{Reg, TrapType};

/// An act on a board of four windows.
#[derive(Clone, Copy)]
pub(crate) enum Act {
    /// These words and these data are loaded.
    Load(&'static [u32], &'static [u8]),
    /// A run of at most 100 turns ends so: its turns, its overflows, and the fault status. There are no underflows.
    Run(End, u64, u64, u32),
    /// The same, and below the stack it changes nothing but R and M of the page tables' entries.
    RunAside(End, u64, u64, u32),
    /// A run of at most 100 turns is cut short by this fault of the port.
    CutShort(Fault),
    /// The next turn is user code's in window 0, and reaches nothing: what happens, its place and its word, and the
    /// fault status then.
    User(Happening, u32, Option<u32>, u32),
    /// The next turn is the supervisor's in window 3: the same, and what it reaches.
    Supervisor(Happening, u32, Option<u32>, Option<DataAccess>, u32),
    /// So many turns run an instruction each.
    Steps(u32),
    /// The next turn fails by this fault of the port, and leaves what a board shows as it was.
    Undone(Fault),
    /// The board shows this.
    Shows(View),
}

/// What happens in a turn, with the number of its trap.
#[derive(Clone, Copy)]
pub(crate) enum Happening {
    Ran,
    Annulled,
    Trapped(u8),
    ErrorMode(u8),
}

/// What a board shows.
#[derive(Clone, Copy)]
pub(crate) enum View {
    /// PSR and WIM.
    State(u32, u32),
    /// The word of RAM at a place.
    Word(u64, u32),
    /// The pages of code, data and stack that were referenced and modified.
    Pages([u64; 3], [u64; 3]),
    /// The output that the port has kept.
    Output(&'static [u8]),
    /// How often the port has failed.
    Failures(u64),
    /// That it has not ended.
    NoEnd,
}

/// Acts on a new board, whose port has this input and fails once: at its call of this number, or never if that is 0. A
/// put fails so.
pub(crate) struct Script {
    pub name: &'static str,
    pub input: &'static [u8],
    pub fails: u64,
    pub at_put: Fault,
    pub acts: &'static [Act],
}

/// An outcome without underflows.
fn outcome(end: End, turns: u64, overflows: u64) -> Outcome {
    Outcome {
        ending: end.ending(),
        turns,
        overflows,
        underflows: 0,
    }
}

/// Whether the next run ends so, with this fault status.
fn ends(board: &mut Tested, told: &Outcome, status: u32) -> bool {
    run(board) == Ok(*told) && board.fault_status() == status
}

/// The words below the stack, which are the trap table, the handlers, the page tables, code and data; R and M aside.
fn words_below_the_stack(board: &Tested, alloc: Global) -> Result<Vec<Placed>, AllocError> {
    let mut words = Vec::new(alloc);
    put_words(&mut words, board, 0, 0x2_4000)?;
    Ok(words)
}

/// Whether the next run ends so, and leaves the words below the stack.
fn ends_aside(
    board: &mut Tested,
    alloc: Global,
    told: &Outcome,
    status: u32,
) -> Result<bool, Fail> {
    let words = words_below_the_stack(board, alloc)?;
    Ok(ends(board, told, status) && has_words(board, &words))
}

impl Happening {
    fn event(self) -> Event {
        match self {
            Happening::Ran => Event::Ran,
            Happening::Annulled => Event::Annulled,
            Happening::Trapped(number) => Event::Trapped(TrapType::new(number)),
            Happening::ErrorMode(number) => Event::ErrorMode(TrapType::new(number)),
        }
    }
}

/// The turn of user code's in window 0, which reaches nothing.
fn of_user(what: Happening, pc: u32, word: Option<u32>) -> Turn {
    Turn {
        event: what.event(),
        cwp: 0,
        user: true,
        pc,
        word,
        access: None,
    }
}

/// The turn of the supervisor's in window 3.
fn of_supervisor(what: Happening, pc: u32, word: Option<u32>, access: Option<DataAccess>) -> Turn {
    Turn {
        event: what.event(),
        cwp: 3,
        user: false,
        pc,
        word,
        access,
    }
}

/// Whether the next turn is this, and leaves this fault status.
fn steps(board: &mut Tested, turn: &Turn, status: u32) -> bool {
    step(board) == Ok(*turn) && board.fault_status() == status
}

/// Whether so many turns run an instruction each.
fn steps_on(board: &mut Tested, turns: u32) -> bool {
    for _ in 0..turns {
        match step(board) {
            Ok(turn) if turn.event == Event::Ran => {}
            _ => return false,
        }
    }
    true
}

/// What a board shows: registers of the current window, PSR and WIM, and the pages' use.
type Shown = ([u32; 32], [u32; 2], PageUse);

/// The registers of the current window.
fn registers(board: &Tested) -> [u32; 32] {
    let mut words = [0; 32];
    for number in 0..32u8 {
        if let Some(register) = Reg::new(number) {
            words[usize::from(number)] = board.reg(register);
        }
    }
    words
}

fn state_of(board: &Tested) -> Shown {
    let state = [board.psr(), board.wim()];
    (registers(board), state, board.page_use())
}

/// Whether the next turn fails so, and leaves what a board shows.
fn is_undone(board: &mut Tested, fault: PortFault) -> bool {
    let before = state_of(board);
    step(board) == Err(fault) && state_of(board) == before
}

/// Whether a board shows this.
fn shows(board: &Tested, view: &View) -> bool {
    match *view {
        View::State(psr, wim) => board.psr() == psr && board.wim() == wim,
        View::Word(place, word) => board.entry(place) == Some(word),
        View::Pages(referenced, modified) => {
            let wanted = PageUse {
                referenced,
                modified,
            };
            board.page_use() == wanted
        }
        View::Output(bytes) => board.port().kept.as_slice() == bytes,
        View::Failures(count) => board.port().failures == count,
        View::NoEnd => board.ending().is_none(),
    }
}

/// Whether an act goes as it says.
fn goes(board: &mut Tested, alloc: Global, act: &Act) -> Result<bool, Fail> {
    match *act {
        Act::Load(words, data) => {
            load(board, alloc, words, data)?;
            Ok(true)
        }
        Act::Run(end, turns, overflows, status) => {
            Ok(ends(board, &outcome(end, turns, overflows), status))
        }
        Act::RunAside(end, turns, overflows, status) => {
            ends_aside(board, alloc, &outcome(end, turns, overflows), status)
        }
        Act::CutShort(fault) => Ok(run(board) == Err(fault.told())),
        Act::User(what, pc, word, status) => Ok(steps(board, &of_user(what, pc, word), status)),
        Act::Supervisor(what, pc, word, access, status) => Ok(steps(
            board,
            &of_supervisor(what, pc, word, access),
            status,
        )),
        Act::Steps(turns) => Ok(steps_on(board, turns)),
        Act::Undone(fault) => Ok(is_undone(board, fault.told())),
        Act::Shows(view) => Ok(shows(board, &view)),
    }
}

/// How many of these acts go as they say, up to the first that doesn't.
fn going(board: &mut Tested, alloc: Global, acts: &[Act]) -> Result<usize, Fail> {
    for number in 0..acts.len() {
        if !goes(board, alloc, &acts[number])? {
            return Ok(number);
        }
    }
    Ok(acts.len())
}

/// The same of a script's acts, on its board.
fn going_on_its_board(alloc: Global, script: &Script) -> Result<usize, Fail> {
    let port = Probe::new(alloc, script.input, script.fails, script.at_put.told());
    let mut board = board_over(alloc, port)?;
    going(&mut board, alloc, script.acts)
}

/// Asserts that each act of these scripts goes as it says.
pub(crate) fn go(rt: &impl Abort, alloc: Global, scripts: &[Script]) -> Result<(), Fail> {
    for script in scripts {
        let number = going_on_its_board(alloc, script)?;
        assert!(rt; number == script.acts.len(), "{} {number}", script.name);
    }
    Ok(())
}

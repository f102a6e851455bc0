//! Laws of user code on a board of 4 to 32 windows, beside the flat machine. Each is the contract of a function that
//! does nothing.
ghost use Rattle.sbx_shows.specs.Laws.{AnnulledTurnsKeep, ReadsTheSame, RestoresUnderflow, SavesOverflow};
ghost use Rattle.sbx_shows.specs.Laws.{UserTurnsKeep};

/// A board that shows a flat state reads in each register what the flat machine reads, whatever windows the calls have.
pub fn registers_read_the_same()
    ensures { ReadsTheSame }
{}

/// Where the flat machine does not fail, every operation that takes no window trap keeps what the board shows: results,
/// loads, stores and exchanges of data and of frame words, SAVE and RESTORE, transfers of control, and the services
/// with their vectors. One that exits ends both machines with the same exit word and output.
pub fn user_turns_keep_what_is_shown()
    ensures { UserTurnsKeep }
{}

/// An annulled instruction keeps it too, wherever it stands.
pub fn annulled_turns_keep_what_is_shown()
    ensures { AnnulledTurnsKeep }
{}

/// A SAVE that finds no window traps, its handler spills the oldest window, and it is done again: 25 turns that the
/// image may make, after which the board shows the flat machine's next state, as many of whose calls have windows as
/// before.
pub fn saves_overflow()
    ensures { SavesOverflow }
{}

/// A RESTORE whose caller has no window traps, its handler fills one, and it is done again, likewise, in a delay slot
/// too.
pub fn restores_underflow()
    ensures { RestoresUnderflow }
{}

//! Laws of R and M, the marks of pages. Each is the contract of a function that does nothing.
ghost use Rattle.v8_marks.specs.Handlers.{OverflowMarks, UnderflowMarks};
ghost use Rattle.v8_marks.specs.Marks.{TurnsMark};
ghost use Rattle.v8_marks.specs.Users.{ServicesMark, UsersMark};

/// A turn of a contained board, whatever its code, marks the entry of the page that it fetched a word from, and that of
/// the page that its access reached: R, and M if it stored. No other entry of a page of code, data or stack changes,
/// and those in nothing else.
pub fn turns_mark_what_they_reach()
    ensures { TurnsMark }
{}

/// A turn of user code that ran marks its own page, and where it loads or stores that of the address, with M if it
/// stores.
pub fn user_turns_mark_their_page_and_their_address()
    ensures { UsersMark }
{}

/// A call of a service marks its own page alone: its vector marks pages of the supervisor.
pub fn services_mark_the_page_of_the_call()
    ensures { ServicesMark }
{}

/// The 24 turns of a SAVE that traps mark the page of the SAVE, and with R and M the pages of the 64 bytes that the
/// handler stores.
pub fn overflow_marks_the_save_area()
    ensures { OverflowMarks }
{}

/// Those of a RESTORE that traps mark with R alone the page of the RESTORE, and the pages of the 64 bytes that the
/// handler loads.
pub fn underflow_marks_the_save_area()
    ensures { UnderflowMarks }
{}

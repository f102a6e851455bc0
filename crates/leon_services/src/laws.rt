//! Laws of the services over a mailbox, for every count of windows, every current window and every place of RAM. Each
//! is the contract of a function that does nothing.
ghost use Rattle.leon_services.specs.Alike.{ExitsAlike, GetsAlike, PutsAlike};
ghost use Rattle.leon_services.specs.Laws.{ExitLaw, FullLaw, GetEndLaw, GetLaw, PutLaw};

/// `ta 0` writes status 1, %o0, PC and nPC into the mailbox and halts the processor, in nine turns.
pub fn exit_tells_its_status()
    ensures { ExitLaw }
{}

/// `ta 1` brings the byte at the input's place into %o0 and moves the place on by one, in 22 turns. The processor is
/// then as behind the sandbox machine's `get`.
pub fn get_gives_the_next_byte()
    ensures { GetLaw }
{}

/// At the input's end `ta 1` brings all ones into %o0, in 19 turns, and the mailbox stays.
pub fn get_tells_the_end()
    ensures { GetEndLaw }
{}

/// `ta 2` writes the low byte of %o0 at the output's place and moves the place on by one, in 23 turns. The processor is
/// then as behind the sandbox machine's `put`.
pub fn put_stores_the_low_byte()
    ensures { PutLaw }
{}

/// Where the room for output has ended, `ta 2` writes status 3 and halts the processor, in 16 turns, and no byte of
/// output is written.
pub fn put_stops_without_room()
    ensures { FullLaw }
{}

/// A LEON and a sandbox board with the same processor, at a call of `get`, come to the same processor again, in 22 or
/// 19 turns and in five. Where the mailbox spelled the board's device before, one spells it then.
pub fn gets_go_alike()
    ensures { GetsAlike }
{}

/// The same of `put`, where there is room, in 23 turns and in five.
pub fn puts_go_alike()
    ensures { PutsAlike }
{}

/// At a call of `exit` the LEON's mailbox comes to have the exit word with which the board stops.
pub fn exits_end_alike()
    ensures { ExitsAlike }
{}

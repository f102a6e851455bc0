//! How a run of a board ends, and what it counts.
ghost use Rattle.std.specs.Prelude.{◌≡◌};
ghost use Rattle.v8_board.specs.Counting.{counted, counts_after};

use v8_core::Event;
use v8_word::TrapType;

/// How a run of a board ends.
#[derive(Clone, Copy, PartialEq, Eq)]
pub enum Ending {
    /// The program stored this word as its exit status.
    Exit(u32),
    /// A trap of this type, which no handler serves.
    Trapped(TrapType),
    /// A trap of this type while traps were disabled.
    ErrorMode(TrapType),
    /// The limit of turns; the board goes on from there.
    Limit,
}

/// What was counted since an image was loaded, or the board was made: turns, window overflows and window underflows,
/// each up to 2^64 - 1, where a count stays.
#[derive(Clone, Copy)]
pub struct Counts {
    pub turns: u64,
    pub overflows: u64,
    pub underflows: u64,
}

/// The end of a run, with the counts.
#[derive(Clone, Copy, PartialEq, Eq)]
pub struct Outcome {
    pub ending: Ending,
    pub turns: u64,
    pub overflows: u64,
    pub underflows: u64,
}

impl Counts {
    pub(crate) const NONE: Counts = Counts {
        turns: 0,
        overflows: 0,
        underflows: 0,
    };

    /// One turn more.
    pub(crate) fn count(&mut self, event: &Event)
        ensures { self.new ≡ counts_after event.now self.old }
    {
        self.turns = counted(self.turns);
        if let Event::Trapped(trap) = event {
            match *trap {
                TrapType::WINDOW_OVERFLOW => self.overflows = counted(self.overflows),
                TrapType::WINDOW_UNDERFLOW => self.underflows = counted(self.underflows),
                _ => {}
            }
        }
    }
}

/// One more, up to 2^64 - 1.
fn counted(count: u64) -> u64
    ensures { result ≡ counted count }
{
    count.saturating_add(1)
}

//! The law of whole runs. It is the contract of a function that does nothing.
ghost use Rattle.sbx_shows.specs.WholeRuns.{RunsToItsEnd};

/// A safe image, loaded on any board of 4 to 32 windows, exits there as its flat run does, with the same exit word and
/// output. At each moment outside the vectors and handlers the board shows a state of that run; each turn is one that
/// the image may make; and the turns, overflows and underflows that the board counts are the window traffic of the
/// run's path, within its weight.
pub fn runs_to_its_end()
    ensures { RunsToItsEnd }
{}

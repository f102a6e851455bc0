//! Laws of RAM that stands higher: each is the contract of a function that does nothing.
ghost use Rattle.leon_moved.specs.Moved.{MarksMove, PathsMove, WalksMove, WordsMove};

/// A path of page tables that stands higher leads to the page of its address that is as much higher (appendix H,
/// "Table Walk").
pub fn paths_move()
    ensures { PathsMove }
{}

/// The walk of a permitted access comes to the page that is as much higher.
pub fn walks_move()
    ensures { WalksMove }
{}

/// R and M are set of a moved entry as of the entry.
pub fn marks_move()
    ensures { MarksMove }
{}

/// RAM above other bytes has its words as much higher, and they are written there.
pub fn words_move()
    ensures { WordsMove }
{}

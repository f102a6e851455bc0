//! Laws of what is known between two words. Each is the contract of a function that does nothing.
ghost use Rattle.sbx_domain.specs.Examples.{BranchesKnow, FramesKeep, RelationsAreThese, ResultsAreThese};
ghost use Rattle.sbx_domain.specs.Laws.{WritesKeepFitting};

/// What a few words leave in their destinations, from a start of two cells.
pub fn results_are_these()
    ensures { ResultsAreThese }
{}

/// What the condition codes were set from, and when that ends.
pub fn relations_are_these()
    ensures { RelationsAreThese }
{}

/// What branches let know after a comparison, and which of their ways are impossible.
pub fn branches_know()
    ensures { BranchesKnow }
{}

/// What SAVE, RESTORE, frame words and calls leave known.
pub fn frames_keep()
    ensures { FramesKeep }
{}

/// Words that fit still fit after a location gets a word that has what is then known of it; so do words that fit but
/// for multiples.
pub fn writes_keep_fitting()
    ensures { WritesKeepFitting }
{}

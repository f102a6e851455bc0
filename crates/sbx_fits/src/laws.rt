//! Each law is the contract of a function that does nothing. All have two halves: intervals, forms and relations stay
//! whatever the multiples are, and multiples stay too.
ghost use Rattle.sbx_fits.specs.Laws.{CallsKeepFitting, DataKeepsFitting, FrameWordsKeepFitting, FramesKeepFitting};
ghost use Rattle.sbx_fits.specs.Laws.{MovesKeepFitting, QuotientsKeepFitting, RefinementKeepsFitting};
ghost use Rattle.sbx_fits.specs.Laws.{ResultsKeepFitting, ServicesKeepFitting, StartsFit, TaggedResultsKeepFitting};

/// After an operation that has a result for all operands: its word, its codes and its Y.
pub fn results_keep_fitting()
    ensures { ResultsKeepFitting }
{}

/// After the four divisions.
pub fn quotients_keep_fitting()
    ensures { QuotientsKeepFitting }
{}

/// After TADDccTV and TSUBccTV, where they have a result; intervals and forms also where they have none.
pub fn tagged_results_keep_fitting()
    ensures { TaggedResultsKeepFitting }
{}

/// After SETHI, RDY and WRY.
pub fn moves_keep_fitting()
    ensures { MovesKeepFitting }
{}

/// After loads, stores and exchanges of data, whatever number comes in.
pub fn data_keeps_fitting()
    ensures { DataKeepsFitting }
{}

/// After loads and stores of frame words.
pub fn frame_words_keep_fitting()
    ensures { FrameWordsKeepFitting }
{}

/// After SAVE and RESTORE.
pub fn frames_keep_fitting()
    ensures { FramesKeepFitting }
{}

/// After a CALL, and where its callee has returned.
pub fn calls_keep_fitting()
    ensures { CallsKeepFitting }
{}

/// After services; branches and jumps leave what is known as it is.
pub fn services_keep_fitting()
    ensures { ServicesKeepFitting }
{}

/// Where a branch's condition holds, that way is possible, and what is known there fits.
pub fn refinement_keeps_fitting()
    ensures { RefinementKeepsFitting }
{}

/// What is known at the start of a block fits, over the numbers of the words themselves.
pub fn starts_fit()
    ensures { StartsFit }
{}

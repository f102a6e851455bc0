//! The law of pages on a board that is used again. It is the contract of a function that does nothing.
ghost use Rattle.sbx_batch.specs.Reuse.{RunsUseTheSamePages};

/// Two boards of as many windows, whatever they held, that an image which keeps the rules was loaded into, and that had
/// the same input to give, tell the same pages as referenced and as modified when the image has run to its end.
pub fn runs_use_the_same_pages()
    ensures { RunsUseTheSamePages }
{}

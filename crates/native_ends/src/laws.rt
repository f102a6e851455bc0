//! The law is the contract of a function that does nothing.
ghost use Rattle.native_ends.specs.Answers.{TranslationsRun};

/// A translation of an image that breaks no rule runs as the image does: on each input, and on each machine of two
/// windows or more, its run is over within so many steps for each turn of the budget, with the output, the exit word and
/// the window traffic of all flat runs. So it never comes to what has no meaning in C.
#[tactic(auto, using(crate::proofs::Whole::translations_run))]
pub fn translations_run()
    ensures { TranslationsRun }
{}

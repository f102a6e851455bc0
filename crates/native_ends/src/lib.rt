//! Programs that are translations of an image, and that their runs are the image's. `specs/Translations.antt` says block
//! by block and word by word what a translation is, and `specs/Answers.antt` what its runs give.
//!
//! How it is proved: the flat machine makes a run along with the program, whose frames begin with the words that the
//! program finds in its variables and its block. From each kind of word the program's run comes to its end where it does
//! from the next one (`proofs/Cases.antt`); behind a delay slot a block begins (`proofs/Spots.antt`); and the turns of
//! the budget pay for the statements (`proofs/Whole.antt`).
#![tactic(auto)]

pub mod laws;

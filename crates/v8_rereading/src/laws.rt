// Laws of instruction text.
ghost use Rattle.v8_rereading.specs.Laws.{CountsInstructions, ReadsEachTextBack, RefusesEachBareWord};

/// The text of each instruction that a word means, if it has a syntax, has tokens, and is a statement of that
/// instruction alone, whatever its names are worth and wherever it stands.
#[tactic(auto, using(crate::proofs::Whole::each_back))]
pub fn each_text_is_read_back()
    ensures { ReadsEachTextBack }
{}

/// The text of each other word has tokens, but its mnemonic, `.word`, is unknown: it is taken for no instruction.
#[tactic(auto, using(crate::proofs::Bare::bare_words))]
pub fn each_bare_word_is_refused()
    ensures { RefusesEachBareWord }
{}

/// A statement that has instructions has as many as `length_of` counts, whatever its names are worth and wherever it
/// stands, and tokens that are no statement count as one instruction: any line, any tokens. A value out of its range,
/// an unknown symbol or a target out of reach is no matter of shape, and `set` of a symbol counts as two there too.
#[tactic(auto, using(crate::proofs::Lengths::counts_instructions))]
pub fn each_length_is_counted()
    ensures { CountsInstructions }
{}

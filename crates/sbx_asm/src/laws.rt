//! What holds of the source meaning itself. Each law is the contract of a function that does nothing.
ghost use Rattle.sbx_asm.specs.Laws.{MeantImagesFitTheirFields, CodeIsItsStatements, CodeLiesWhereLabelsSay};
ghost use Rattle.sbx_asm.specs.Laws.{FunctionsBeginWhereNamesSay, DataLieWhereLabelsSay, RegionsBeginWhereLabelsSay};
ghost use Rattle.sbx_asm.specs.Laws.{WordsLookAheadByLabelsAlone, BlankLinesSayNothing, BlankLinesChangeNothing};
ghost use Rattle.sbx_asm.specs.Laws.{NumbersShowInFaultsAlone, LabelsMayBeRenamed, TheLeastFaultIsTold};
ghost use Rattle.sbx_asm.specs.Laws.{LinesWithoutFaultsAreAnImage, TwoFaultsAreOfTheWhole};

/// Of each image that a source means, each number is one that its field can hold, and its regions have bytes.
pub fn meant_images_fit_their_fields()
    ensures { MeantImagesFitTheirFields }
{}

/// The code of a source without faults is the words of its statements, one after the other.
#[tactic(auto, using(crate::proofs::Meanings::code_is))]
pub fn code_is_its_statements()
    ensures { CodeIsItsStatements }
{}

/// The code of an image lies where the source's labels say: a statement's words at its labels, a function's entry at
/// its line.
pub fn code_lies_where_labels_say()
    ensures words { CodeLiesWhereLabelsSay }
    ensures functions { FunctionsBeginWhereNamesSay }
{}

/// The data of an image lie where the source's labels say.
pub fn data_lie_where_labels_say()
    ensures { DataLieWhereLabelsSay }
{}

/// The regions of an image begin where the source's labels say.
pub fn regions_begin_where_labels_say()
    ensures { RegionsBeginWhereLabelsSay }
{}

/// What follows a line changes its words by the labels' worth alone.
#[tactic(auto, using(crate::proofs::Meanings::words_look))]
pub fn words_look_ahead_by_labels_alone()
    ensures { WordsLookAheadByLabelsAlone }
{}

/// A blank line or a comment has no label and says nothing; such a line changes the numbers of lines alone, and these
/// show in faults alone.
pub fn blank_lines_change_numbers_alone()
    ensures nothing { BlankLinesSayNothing }
    ensures anywhere { BlankLinesChangeNothing }
    ensures numbers { NumbersShowInFaultsAlone }
{}

/// Labels may be renamed one to one.
pub fn labels_may_be_renamed()
    ensures { LabelsMayBeRenamed }
{}

/// What is told is the least of the lines' faults; where they have none, it is told of the whole.
#[tactic(auto, using(crate::proofs::Meanings::least_told))]
pub fn the_least_fault_is_told()
    ensures { TheLeastFaultIsTold }
{}

/// Lines without faults are an image, where one is a `.function` and the data take at most 64 pages. So the fault at
/// the line after the last is one of these two, and no third.
pub fn lines_without_faults_are_an_image()
    ensures image { LinesWithoutFaultsAreAnImage }
    ensures whole { TwoFaultsAreOfTheWhole }
{}

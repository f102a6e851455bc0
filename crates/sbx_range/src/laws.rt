//! Laws of ranges. Each is the contract of a function that does nothing.
ghost use Rattle.sbx_range.specs.Laws.{DivisionsHaveResults, LoadsStayIn, OneEdgeIsLeft, OnesAreLeast, QuotientsStayIn};
ghost use Rattle.sbx_range.specs.Laws.{RefinementKeepsPairs, RefinementKeepsWords, ResultsStayAligned, ResultsStayIn};
ghost use Rattle.sbx_range.specs.Laws.{SumsAreExact, TaggedOperationsHaveResults, TaggedResultsStayIn, WordsStayIn};
ghost use Rattle.sbx_range.specs.Laws.{WrittenYStaysIn};

/// Of words in the intervals of two ranges, each operation's value lies in the interval of its range, and Y in that of
/// its own, whatever the condition codes are. Alignments don't matter.
pub fn results_stay_in()
    ensures { ResultsStayIn }
{}

/// Where the operands and Y are multiples as their ranges say, so are value and Y.
pub fn results_stay_aligned()
    ensures { ResultsStayAligned }
{}

/// The same of TADDccTV and TSUBccTV, where they have a result.
pub fn tagged_results_stay_in()
    ensures { TaggedResultsStayIn }
{}

/// The same of the four divisions; nothing is asked of alignments.
pub fn quotients_stay_in()
    ensures { QuotientsStayIn }
{}

/// They have a result where both operands are multiples of 4 and no sum, or difference, of their ranges overflows.
pub fn tagged_operations_have_results()
    ensures { TaggedOperationsHaveResults }
{}

/// A division has a result where the divisor's range has no 0.
pub fn divisions_have_results()
    ensures { DivisionsHaveResults }
{}

/// What WRY writes lies in the range of a written Y.
pub fn written_y_stays_in()
    ensures { WrittenYStaysIn }
{}

/// The words that bytes and halves are loaded as lie in their ranges, and those that the service get gives.
pub fn loads_stay_in()
    ensures { LoadsStayIn }
{}

/// A known word lies in its range, a word of two ranges in what they share, and a word of a range in each range that
/// this one lies in.
pub fn words_stay_in()
    ensures { WordsStayIn }
{}

/// Where all sums, or all differences, of two ranges are signed words, the result reads as the sum, or the difference.
pub fn sums_are_exact()
    ensures { SumsAreExact }
{}

/// The upper end of an OR or an XOR is 2^k - 1 with the least k that puts 2^k above both upper ends.
pub fn ones_are_least()
    ensures { OnesAreLeast }
{}

/// Refinement loses no pair of words for which the condition holds of the codes of the first less the second: the
/// answer is there, and each word lies in its side, with its alignment.
pub fn refinement_keeps_pairs()
    ensures { RefinementKeepsPairs }
{}

/// Refinement by value loses no word for which the condition holds of codes whose N and Z are the word's.
pub fn refinement_keeps_words()
    ensures { RefinementKeepsWords }
{}

/// The opposite of a condition holds exactly where it doesn't; of the two one at least is possible, of ranges that
/// aren't empty.
pub fn one_edge_is_left()
    ensures { OneEdgeIsLeft }
{}

//! Laws of the first codewords. Each function does nothing, and its contract is the law.

ghost use Rattle.list_viterbi.specs.Laws.{NamesOneList, AreFirstByDefinition, HaveLength};
ghost use Rattle.list_viterbi.specs.Laws.{HaveBestFirst, HaveFirstPassing};

/// The contract of the list decoder determines one list.
pub fn one_list()
    ensures { NamesOneList }
{}

/// The first codewords are those of the definition: the allowed codewords, numbered in their order,
/// that come first by falling score.
pub fn first_by_definition()
    ensures { AreFirstByDefinition }
{}

/// There are `k` first codewords, or all allowed codewords if there are fewer.
pub fn length_is_known()
    ensures { HaveLength }
{}

/// The first of them is the best codeword.
pub fn best_is_first()
    ensures { HaveBestFirst }
{}

/// If one of them passes a test, such as the check of its quality bits, the first of them that does
/// is also the first of all allowed codewords that do.
pub fn first_passing_of_all()
    ensures { HaveFirstPassing }
{}

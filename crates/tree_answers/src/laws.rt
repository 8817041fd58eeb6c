//! Laws of what trees answer: the contract of a function that does nothing.
ghost use Rattle.tree_answers.specs.TreeLaws.{TreesAnswerAlike, TreesHaveTheSameUnits};

/// A store that shows just a host's tree at the fleet's places has, without a host, each unit that the first store has for
/// the host, if the unit isn't crossed. If none is, each question has the same answer. Only the places that units tell
/// differ.
pub fn tree_answer_laws()
    ensures units { TreesHaveTheSameUnits }
    ensures answers { TreesAnswerAlike }
{}

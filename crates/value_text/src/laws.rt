// A law: the contract of a function that does nothing.
ghost use Rattle.value_text.specs.Laws.{WordsStandForOneValue};

/// A word of a heap stands for one value at most.
pub fn words_stand_for_one_value()
    ensures { WordsStandForOneValue }
{}

// What holds of the quick code of all checked modules: each function's contract is a law, and its body does nothing.
ghost use Rattle.fast_isel.specs.BlockLaws.{EveryCheckedIsTaken, QuickWordsAreOne};

/// Each module that passes the verifier is taken.
pub fn every_checked_module_is_taken()
    ensures { EveryCheckedIsTaken }
{}

/// A function of a program has no two lists of quick words.
pub fn quick_words_are_one()
    ensures { QuickWordsAreOne }
{}

// What holds of the quick code of all modules: each function's contract is a law, and its body only cites others.
ghost use Rattle.fast_isel.specs.ModuleLaws.{QuickCodeIsBounded, QuickCodeIsOne, QuickNeedIsOne};

use crate::block_laws::quick_words_are_one;

/// The quick versions of a module have the same words wherever they are made.
pub fn quick_code_is_one()
    ensures { QuickCodeIsOne }
{
    quick_words_are_one();
}

/// The quick code of a module needs one number of code words.
pub fn quick_need_is_one()
    ensures { QuickNeedIsOne }
{
    quick_words_are_one();
}

/// The quick code of a module needs at most 256 code words for each static unit and each operand of a phi, and a header for each function.
pub fn quick_code_is_bounded()
    ensures { QuickCodeIsBounded }
{}

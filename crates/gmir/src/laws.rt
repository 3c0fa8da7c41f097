// What holds of all functions of generic machine code: each function's contract is a law, and its body does nothing.
ghost use Rattle.gmir.specs.Laws.{FunctionsRefineThemselves, RefinementComposes, TranslationsMayBeRefined, PlaysHaveOneEnd};

/// A function refines itself.
pub fn functions_refine_themselves()
    ensures { FunctionsRefineThemselves }
{}

/// Refinement composes.
pub fn refinement_composes()
    ensures { RefinementComposes }
{}

/// What refines a translation refines the function that was translated.
pub fn translations_may_be_refined()
    ensures { TranslationsMayBeRefined }
{}

/// From one entry and with the same replies the play of a function comes to one end.
pub fn plays_have_one_end()
    ensures { PlaysHaveOneEnd }
{}

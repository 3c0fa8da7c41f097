// What holds of all functions of target code: each function's contract is a law, and its body does nothing.
ghost use Rattle.mir_play.specs.Laws.{FunctionsRefineThemselves, RefinementComposes, CompiledMayBeRefined, PlaysHaveOneEnd};
ghost use Rattle.mir_play.specs.Machine.{ValuesHold};

/// A function refines itself.
pub fn functions_refine_themselves()
    ensures { FunctionsRefineThemselves }
{}

/// Refinement composes.
pub fn refinement_composes()
    ensures { RefinementComposes }
{}

/// What refines a compiled function is compiled.
pub fn compiled_may_be_refined()
    ensures { CompiledMayBeRefined }
{}

/// From one entry and with the same replies the play of a function comes to one end.
pub fn plays_have_one_end()
    ensures { PlaysHaveOneEnd }
{}

/// What is known of values, branches and addresses is so on the machine, whatever the free bits are.
pub fn values_hold()
    ensures { ValuesHold }
{}

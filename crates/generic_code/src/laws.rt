// What holds of the generic operations that stand for instructions: each function's contract is a law, and its body does nothing.
ghost use Rattle.generic_code.specs.Laws.{OperatorsAgree, ComparisonsAgree, CastsAgree, ChoicesAgree};

/// What an operator gives, its generic operation gives.
pub fn operators_agree()
    ensures { OperatorsAgree }
{}

/// What a comparison gives, its generic operation gives.
pub fn comparisons_agree()
    ensures { ComparisonsAgree }
{}

/// What a cast gives, its generic operation gives.
pub fn casts_agree()
    ensures { CastsAgree }
{}

/// What a choice gives, its generic operation gives.
pub fn choices_agree()
    ensures { ChoicesAgree }
{}

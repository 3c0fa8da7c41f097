// What holds of calls on a hart: each function's contract is a law, and its body does nothing.
ghost use Rattle.hart.specs.Right.{AnswersAreRight, FixedPassesAreBacked, FixedAnswersAreRight};

/// Over a backed pass the answer of a listed call is right, and its run follows the evaluation.
pub fn answers_are_right()
    ensures { AnswersAreRight }
{}

/// What good versions serve is a backed pass.
pub fn fixed_passes_are_backed()
    ensures { FixedPassesAreBacked }
{}

/// Over a fabric of good versions the answer of a listed call is right, and its run follows the evaluation.
pub fn fixed_answers_are_right()
    ensures { FixedAnswersAreRight }
{}

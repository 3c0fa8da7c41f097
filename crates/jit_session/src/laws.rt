// What holds of calls over a bench: the function's contract is a law, and its body does nothing.
ghost use Rattle.jit_session.specs.Laws.{BenchAnswersAreRight};

/// Over a bench the answer of a listed call is right, and its run follows the evaluation.
pub fn bench_answers_are_right()
    ensures { BenchAnswersAreRight }
{}

// What holds of all spans: the contract is a law, and its body does nothing.
ghost use Rattle.liveness.specs.Laws.{SpansAreDetermined};

/// Spans that cover a function and are tight are the only ones for so many registers.
pub fn spans_are_determined()
    ensures { SpansAreDetermined }
{}

// What holds of words that run as a function of target code does: each function's contract is a law, and its body does nothing.
ghost use Rattle.good_code.specs.Laws.{CompiledIsGood, NarrowTypesAreNarrow, TypedIsNarrow};

/// Words that run as a compiled function does are a good version of the function that it is compiled from.
pub fn compiled_is_good()
    ensures { CompiledIsGood }
{}

/// A function of a typed module whose types are narrow is narrow.
pub fn narrow_types_are_narrow()
    ensures { NarrowTypesAreNarrow }
{}

/// The functions of typed modules with at most eight parameters are narrow.
pub fn typed_is_narrow()
    ensures { TypedIsNarrow }
{}

// What holds of a small function: each function's contract is a law, and its body does nothing.
ghost use Rattle.good_samples.specs.Calling.{CallingRuns, CallingIsCompiled, CallingIsGood};

/// Words that call a function with their own argument and give its answer run as the function of target code that does so.
pub fn calling_runs()
    ensures { CallingRuns }
{}

/// That function of target code is compiled from the function of a module that does so.
pub fn calling_is_compiled()
    ensures { CallingIsCompiled }
{}

/// The words are a good version of it.
pub fn calling_is_good()
    ensures { CallingIsGood }
{}

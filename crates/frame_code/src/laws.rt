// What holds of the code of target functions: each function's contract is a law, and its body does nothing.
ghost use Rattle.frame_code.specs.Laws.{FewWords, LaidOutStands, CodeStandsLaidOut, SimpleStepsRun, CodeRuns, LaidOutIsGood};
ghost use Rattle.frame_code.specs.Samples.{TwiceIsLaidOut};

/// The function that adds its parameter to itself, with both of its registers in s0, is these eighteen words.
pub fn twice_is_laid_out()
    ensures { TwiceIsLaidOut }
{}

/// Words that the assembler made of a function's code are no more than its static weight.
pub fn words_are_few()
    ensures { FewWords }
{}

/// Such words stand as the function's code.
pub fn laid_out_code_stands()
    ensures { LaidOutStands }
{}

/// It stands so from each entry where the frame fits, with each block at its label.
pub fn blocks_stand_at_labels()
    ensures { CodeStandsLaidOut }
{}

/// The code of operations, numbers, moves, jumps and branches does what their steps do, within their weight.
pub fn simple_steps_run()
    ensures { SimpleStepsRun }
{}

/// Words that stand as the code of a function run as the function does: they come to each call, return and want of stack within its weight, and have ended only where it ends.
pub fn laid_out_code_runs()
    ensures { CodeRuns }
{}

/// Words of a function that is compiled from one of a typed module are a good version of that.
pub fn laid_out_code_is_good()
    ensures { LaidOutIsGood }
{}

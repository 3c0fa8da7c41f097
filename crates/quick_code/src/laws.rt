// What holds of the quick code: each function's contract is a law, and its body does nothing.
ghost use Rattle.quick_code.specs.Laws.{FlowCodeIsGood, QuickCodeIsGood};

/// In a well typed module words that stand as the labelled code of a function of several blocks are good, where they are few
/// enough.
pub fn flow_code_is_good()
    ensures { FlowCodeIsGood }
{}

/// In a well typed module the words that the assembler makes of quick code are good.
pub fn quick_code_is_good()
    ensures { QuickCodeIsGood }
{}

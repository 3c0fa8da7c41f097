// What holds of all checked modules: each function's contract is a law, and its body does nothing.
ghost use Rattle.ir_verify.specs.Laws.{CheckedIsTyped, CheckedIsWellFormed};

/// A checked module is well typed.
pub fn checked_is_typed()
    ensures { CheckedIsTyped }
{}

/// In a checked module each limit holds, blocks have their shape, what is named is there, phis take the edges to their block,
/// and each use is assigned on every walk.
pub fn checked_is_well_formed()
    ensures { CheckedIsWellFormed }
{}

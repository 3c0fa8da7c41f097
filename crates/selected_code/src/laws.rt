// What holds of selected code: each function's contract is a law, and its body does nothing.
ghost use Rattle.selected_code.specs.Laws.{SelectedRefines, SelectedIsWellFormed};

/// The code of a function that is formed and legal refines it.
pub fn selected_refines()
    ensures { SelectedRefines }
{}

/// The code of a function that is formed and legal is well formed.
pub fn selected_is_well_formed()
    ensures { SelectedIsWellFormed }
{}

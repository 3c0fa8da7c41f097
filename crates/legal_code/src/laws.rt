// What holds of the legal forms of all functions: each function's contract is a law, and its body does nothing.
ghost use Rattle.legal_code.specs.Laws.{LegalFormsAreLegal, LegalFormsAreFormed, LegalFormsRefine};

/// The legal form of a function is legal, and the function's registers are its first.
pub fn legal_forms_are_legal()
    ensures { LegalFormsAreLegal }
{}

/// The legal form of a well formed function is well formed.
pub fn legal_forms_are_formed()
    ensures { LegalFormsAreFormed }
{}

/// The legal form of a well formed function refines it.
pub fn legal_forms_refine()
    ensures { LegalFormsRefine }
{}

// What holds of code with labels: the contract is a law, and the body does nothing.
ghost use Rattle.rv_asm.specs.Layout.{OneAssembly};

/// Code with labels has one assembly.
pub fn assemblies_are_one()
    ensures { OneAssembly }
{}

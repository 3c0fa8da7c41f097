// A law of printed text: the function's contract is the law, and its body does nothing.
ghost use Rattle.ir_print_laws.specs.TreeLaws.{ModulesReadBack};

/// A printed module is a text of its tree.
pub fn modules_read_back()
    ensures { ModulesReadBack }
{}

// Laws of printed text: each function's contract is a law, and its body does nothing.
ghost use Rattle.ir_print_laws.specs.PrintLaws.{TreesSayModules, FitsIsWritten, PrintsBack};

/// The tree of a printed module says this module.
pub fn trees_say_modules()
    ensures { TreesSayModules }
{}

/// A module whose parts fit is written as a text of the grammar.
pub fn fits_is_written()
    ensures { FitsIsWritten }
{}

/// A printed module reads back as it.
pub fn prints_back()
    ensures { PrintsBack }
{}

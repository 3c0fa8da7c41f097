// Laws of what is read: each function's contract is a law.
ghost use Rattle.ir_print_laws.specs.ReadLaws.{TextsReadAsOne, ReadsFit, ReadModulesPrintBack};

use crate::print_laws::prints_back;

/// A text reads as one module.
pub fn texts_read_as_one()
    ensures { TextsReadAsOne }
{}

/// A module that a text of bytes reads as fits.
pub fn reads_fit()
    ensures { ReadsFit }
{}

/// A module that a text of bytes reads as reads back from its printed text.
pub fn read_modules_print_back()
    ensures { ReadModulesPrintBack }
{
    reads_fit();
    prints_back();
}

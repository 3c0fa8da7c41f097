// Laws of the texts of many calls: each function's contract is a law.
ghost use Rattle.ir_print_laws.specs.ManyCallsLaws.{TextReads, ModulePasses, CallsRead};

use crate::print_laws::{fits_is_written, prints_back, trees_say_modules};
use crate::tree_laws::modules_read_back;

/// The module's text reads as the module, and as no other.
pub fn text_reads()
    ensures { TextReads }
{
    prints_back();
    modules_read_back();
    fits_is_written();
    trees_say_modules();
}

/// The module passes the verifier, whatever room its data memory has.
pub fn module_passes()
    ensures { ModulePasses }
{}

/// The text of so many calls, up to 65,536, is a list of these calls of the module.
pub fn calls_read()
    ensures { CallsRead }
{}

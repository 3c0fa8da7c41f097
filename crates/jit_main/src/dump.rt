//! The listing of a module's code.
ghost use Rattle.std.specs.Prelude.{IfOk, IfErr};
ghost use Rattle.jit_main.specs.Dumps.{Dumped, dump_room};
ghost use Rattle.jit_main.specs.Run.{IsCheckedText};
ghost use Rattle.jit_main.specs.Ends.{ModuleStop};

use crate::front::module_of;
use crate::stop::Stop;
use fast_isel::quick_versions;
use ir_verify::checked::Checked;
use jit_text::parts_text;
use rj_num::NoMemory;
use std::alloc::Global;

/// The bytes of data memory.
const ROOM: u64 = 1_048_576;

/// The listing of the code of a module.
fn listed(alloc: Global, text: &[u8], checked: &Checked) -> Result<Vec<u8>, NoMemory>
    requires is_module { IsCheckedText text.now dump_room checked.now }
    ensures { IfOk result (λ listed. Dumped text.now 1 listed.items) }
{
    let versions = quick_versions(alloc, checked)?;
    parts_text(alloc, checked.module().functions.as_slice(), &versions)
}

/// The listing of a module's code, or why there is none.
pub fn dumped<'a>(alloc: Global, module_text: &[u8]) -> Result<Vec<u8>, Stop<'a>>
    ensures text { IfOk result (λ text. Dumped module_text.now 1 text.items) }
    ensures stop { IfErr result (λ stop. ModuleStop module_text.now stop) }
{
    let checked = match module_of(alloc, module_text, ROOM) {
        Ok(checked) => checked,
        Err(stop) => return Err(stop),
    };
    match listed(alloc, module_text, &checked) {
        Ok(text) => Ok(text),
        Err(NoMemory) => Err(Stop::NoMemory),
    }
}

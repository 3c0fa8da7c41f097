//! The first version of each function.
ghost use Rattle.std.specs.Prelude.{◌≡◌, length, IfOk};
ghost use Rattle.fast_isel.specs.Modules.{AreQuick};

use crate::compile::quick_flow;
use ir_data::addresses::Places;
use ir_verify::checked::Checked;
use rj_num::NoMemory;
use rv_play::version::Version;
use std::alloc::Global;

/// The quick code of each function of a module, in order, each a version of level 1. The addresses of globals are computed once.
pub fn quick_versions(alloc: Global, module: &Checked) -> Result<Vec<Version>, NoMemory>
    ensures { IfOk result (λ versions. AreQuick «module».now versions.items) }
{
    let globals = Places::new(alloc, module)?;
    let count = module.module().functions.len();
    let mut versions = Vec::with_capacity(alloc, count).map_err(|_| NoMemory)?;
    for symbol in 0..count {
        versions.push_reserved(quick_flow(alloc, module, &globals, symbol as u32)?);
    }
    Ok(versions)
}

// What an evaluation begins with.
ghost use Rattle.std.specs.Prelude.{◌≡◌, ◌++◌, map, IfOk, OnOk, Some};
ghost use Rattle.ir_eval.specs.Code.{ArePlaces};
ghost use Rattle.ir_meaning.specs.Image.{first_memory as first_memory_of};
ghost use Rattle.ir_verify.specs.Verdict.{Passes};

use ir_core::layout::size_of;
use ir_core::program::Module;
use ir_data::places::{DATA_START, places, span, taken};
use ir_data::values::push_init;
use ir_ops::memory::DataMemory;
use sqlite_items::Items;
use std::alloc::{AllocError, Global};

/// The addresses of all globals, and the image's top behind them.
pub fn places_of(alloc: Global, all: &Module) -> Result<Items<u64>, AllocError>
    requires { Passes all.now }
    ensures { IfOk result (λ places. ArePlaces all.now.globals places) }
{
    let globals = all.globals.as_slice();
    let mut known = places(alloc, globals)?;
    known.push(DATA_START + taken(globals))?;
    Ok(known)
}

/// Adds bytes to a memory.
fn push_bytes(memory: &mut DataMemory, bytes: &[u8]) -> Result<(), AllocError>
    ensures { OnOk result (memory.new ≡ memory.old ++ map Some bytes.now) }
{
    for byte in bytes {
        memory.push(Some(u128::from(*byte)))?;
    }
    Ok(())
}

/// The first memory: each global's bytes, and poison up to where the next one starts.
pub fn first_memory(alloc: Global, all: &Module) -> Result<DataMemory, AllocError>
    requires { Passes all.now }
    ensures { IfOk result (λ memory. memory ≡ first_memory_of all.now.globals) }
{
    let globals = all.globals.as_slice();
    let known = places(alloc, globals)?;
    let mut memory = DataMemory::new(alloc);
    for global in globals {
        let mut bytes = Items::new(alloc);
        push_init(
            &mut bytes,
            globals,
            known.as_slice(),
            &global.init,
            &global.ty,
        )?;
        push_bytes(&mut memory, bytes.as_slice())?;
        let gap = span(global) - size_of(&global.ty);
        memory.extend(gap as usize)?;
    }
    Ok(memory)
}

// Instructions that read or change data memory, or leave the function.
ghost use Rattle.std.specs.Prelude.{◌≡◌, ◌^◌, ◌<◌, Some, slice_get, IfOk};
ghost use Rattle.ir_core.specs.Layout.{HasSizesWithin};
ghost use Rattle.ir_core.specs.declared.code.Op.TheVariants.{Alloca, Load, Store, Ret};
ghost use Rattle.ir_eval.specs.Code.{ArePlaces, program_with};
ghost use Rattle.ir_eval.specs.Fits.{HasNumbers, IsBounded};
ghost use Rattle.ir_eval.specs.Turns.{came, shown};
ghost use Rattle.ir_meaning.specs.Ranges.{FitsWidth};
ghost use Rattle.ir_meaning.specs.Step.{act, arguments_of as arguments_in, insts_at, operand as operand_of};

use crate::access::{load, raise_top, store};
use crate::behind::{give, pass};
use crate::done::Done;
use crate::operands::operand;
use ir_core::code::{Inst, Operand};
use ir_core::layout::size_of;
use ir_core::program::{Function, Module};
use ir_core::types::{MemTy, Ty};
use ir_meaning::activation::Activation;
use ir_ops::memory::DataMemory;
use sqlite_items::Items;
use std::alloc::{AllocError, Global};

/// `alloca`: fresh bytes behind the data top.
pub fn alloca_step(
    all: &Module,
    room: u64,
    function: &Function,
    numbers: &Items<Items<u32>>,
    now: &mut Activation,
    memory: &mut DataMemory,
    inst: &Inst,
    of: &MemTy,
    count: u64,
) -> Result<Done, AllocError>
    requires bounded { IsBounded function.now }
    requires numbers { HasNumbers function.now numbers.now }
    requires at { slice_get (insts_at function.now now.old.block) now.old.place ≡ Some inst.now }
    requires room { room < 2 ^ 32 }
    requires sizes { HasSizesWithin of.now }
    ensures { IfOk result (λ done. shown done now.new memory.new ≡ came now.old memory.old (act (program_with all.now room) function.now now.old memory.old inst.now (Alloca of.now count)).does) }
{
    let top = 0x1000_0000 + memory.len() as u128;
    if raise_top(memory, room, size_of(of), count)? {
        pass(function, numbers, now, inst, Some(top));
        Ok(Done::Goes)
    } else {
        Ok(Done::Overflows)
    }
}

/// `load`.
pub fn load_step(
    all: &Module,
    room: u64,
    places: &[u64],
    function: &Function,
    numbers: &Items<Items<u32>>,
    now: &mut Activation,
    memory: &DataMemory,
    inst: &Inst,
    address: Operand,
) -> Done
    requires places { ArePlaces all.now.globals places.now }
    requires bounded { IsBounded function.now }
    requires numbers { HasNumbers function.now numbers.now }
    requires at { slice_get (insts_at function.now now.old.block) now.old.place ≡ Some inst.now }
    requires address { FitsWidth 64 (operand_of (program_with all.now room) now.old.values address) }
    ensures { shown result now.new memory.now ≡ came now.old memory.now (act (program_with all.now room) function.now now.old memory.now inst.now (Load address)).does }
{
    let address = operand(all, room, places, now.values.as_slice(), address);
    let loaded = load(memory, address, inst.gives);
    give(function, numbers, now, memory, inst, loaded)
}

/// `store`.
pub fn store_step(
    all: &Module,
    room: u64,
    places: &[u64],
    function: &Function,
    numbers: &Items<Items<u32>>,
    now: &mut Activation,
    memory: &mut DataMemory,
    inst: &Inst,
    ty: Ty,
    value: Operand,
    address: Operand,
) -> Done
    requires places { ArePlaces all.now.globals places.now }
    requires bounded { IsBounded function.now }
    requires numbers { HasNumbers function.now numbers.now }
    requires at { slice_get (insts_at function.now now.old.block) now.old.place ≡ Some inst.now }
    requires address { FitsWidth 64 (operand_of (program_with all.now room) now.old.values address) }
    ensures { shown result now.new memory.new ≡ came now.old memory.old (act (program_with all.now room) function.now now.old memory.old inst.now (Store ty value address)).does }
{
    let value = operand(all, room, places, now.values.as_slice(), value);
    let address = operand(all, room, places, now.values.as_slice(), address);
    if store(memory, address, ty, value) {
        pass(function, numbers, now, inst, None);
        Done::Goes
    } else {
        Done::Breaks
    }
}

/// `ret`: the data top is the caller's again.
pub fn return_step(
    all: &Module,
    room: u64,
    places: &[u64],
    function: &Function,
    now: &Activation,
    memory: &mut DataMemory,
    inst: &Inst,
    value: Option<Operand>,
) -> Done
    requires places { ArePlaces all.now.globals places.now }
    ensures { shown result now.now memory.new ≡ came now.now memory.old (act (program_with all.now room) function.now now.now memory.old inst.now (Ret value)).does }
{
    memory.truncate(now.entry_length as usize);
    match value {
        None => Done::Returns(None),
        Some(x) => Done::Returns(operand(all, room, places, now.values.as_slice(), x)),
    }
}

/// The values of the arguments of a call.
pub fn arguments_of(
    alloc: Global,
    all: &Module,
    room: u64,
    places: &[u64],
    values: &[Option<u128>],
    arguments: &[(Ty, Operand)],
) -> Result<Items<Option<u128>>, AllocError>
    requires places { ArePlaces all.now.globals places.now }
    ensures { IfOk result (λ given. given ≡ arguments_in (program_with all.now room) values.now arguments.now) }
{
    let mut given = Items::new(alloc);
    for argument in arguments {
        given.push(operand(all, room, places, values, argument.1))?;
    }
    Ok(given)
}

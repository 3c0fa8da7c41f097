// Instructions that read or change data memory, apart from their operands.
ghost use Rattle.std.specs.Prelude.{◌≡◌, ◌+◌, ◌*◌, ◌^◌, ◌<◌, ◌≤◌, length, IfOk};
ghost use Rattle.ir_core.specs.Layout.{aligned};
ghost use Rattle.ir_meaning.specs.Memory.{byte_count as byte_count_of};
ghost use Rattle.ir_meaning.specs.Ranges.{FitsWidth};
ghost use Rattle.ir_ops.specs.Rows.{meant};
ghost use Rattle.ir_eval.specs.Access.{changed, fresh_of, load_of, store_of};

use ir_core::layout::int_extent;
use ir_core::types::Ty;
use ir_ops::memory::DataMemory;
use ir_ops::value::Computed;
use std::alloc::AllocError;

/// How many bytes a value of a type takes in memory.
pub fn byte_count(ty: Ty) -> u64
    ensures value { result ≡ byte_count_of ty }
    ensures few { result ≤ 16 }
{
    match ty {
        Ty::Void => 0,
        Ty::Int(width) => int_extent(width).size,
        Ty::Ptr => 8,
    }
}

/// What a load from an address gives.
pub fn load(memory: &DataMemory, address: Option<u128>, ty: Ty) -> Computed
    requires { FitsWidth 64 address }
    ensures { meant result ≡ load_of memory.now address ty }
{
    match address {
        None => Computed::NoMeaning,
        Some(address) => {
            let address = address as u64;
            let count = byte_count(ty);
            if memory.is_inside(address, count) {
                Computed::Gives(memory.load(address, count as usize))
            } else {
                Computed::NoMeaning
            }
        }
    }
}

/// Stores a value at an address. False where that is undefined.
pub fn store(memory: &mut DataMemory, address: Option<u128>, ty: Ty, value: Option<u128>) -> bool
    requires { FitsWidth 64 address }
    ensures { changed result memory.new ≡ store_of memory.old address ty value }
{
    match address {
        None => false,
        Some(address) => {
            let address = address as u64;
            let count = byte_count(ty);
            if memory.is_inside(address, count) {
                memory.store(address, count as usize, value);
                true
            } else {
                false
            }
        }
    }
}

/// Raises the data top by fresh bytes, up to the next multiple of 16. False where they pass the room.
pub fn raise_top(
    memory: &mut DataMemory,
    room: u64,
    size: u64,
    count: u64,
) -> Result<bool, AllocError>
    requires room { room < 2 ^ 32 }
    requires size { size ≤ 2 ^ 32 }
    ensures { IfOk result (λ fits. changed fits memory.new ≡ fresh_of room memory.old (aligned (size * count) 16)) }
{
    let bytes = u128::from(size) * u128::from(count);
    let bytes = bytes + (16 - bytes % 16) % 16;
    if memory.len() as u128 + bytes <= u128::from(room) {
        memory.extend(bytes as usize)?;
        Ok(true)
    } else {
        Ok(false)
    }
}

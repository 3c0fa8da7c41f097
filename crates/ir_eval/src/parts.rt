// Addresses of parts.
ghost use Rattle.std.specs.Prelude.{◌≡◌, ◌^◌, ◌<◌, Some, map, slice_get};
ghost use Rattle.ir_core.specs.declared.code.Op.TheVariants.{Gep};
ghost use Rattle.ir_core.specs.Layout.{HasSizesWithin, extent_of as extent_of_type, offset_of_field};
ghost use Rattle.ir_eval.specs.Beyond.{are_numbers, led_if, led_of};
ghost use Rattle.ir_eval.specs.Code.{ArePlaces, program_with};
ghost use Rattle.ir_eval.specs.Fits.{IndicesFit, HasNumbers, IsBounded};
ghost use Rattle.ir_eval.specs.Turns.{came, shown};
ghost use Rattle.ir_meaning.specs.Memory.{index_64 as index_64_of};
ghost use Rattle.ir_meaning.specs.Operators.{width as width_of};
ghost use Rattle.ir_meaning.specs.Ranges.{FitsWidth};
ghost use Rattle.ir_meaning.specs.Step.{act, index_numbers, insts_at, operand as operand_of, part as part_of};
ghost use Rattle.ir_meaning.specs.Typed.{IsInteger};

use crate::behind::give;
use crate::done::Done;
use crate::operands::operand;
use ir_core::code::{Inst, Operand};
use ir_core::layout::size_of;
use ir_core::program::{Function, Module};
use ir_core::types::{MemTy, Ty};
use ir_data::values::{extent_of, field_start};
use ir_meaning::activation::Activation;
use ir_ops::memory::DataMemory;
use ir_ops::value::Computed;
use rj_num::width::extend;
use sqlite_items::Items;

/// An index, sign-extended to 64 bits.
fn index_64(ty: Ty, n: u128) -> u64
    requires ty { IsInteger ty }
    requires n { n < 2 ^ width_of ty }
    ensures { result ≡ index_64_of (width_of ty) n }
{
    match ty {
        Ty::Int(width) => extend(n, width, 64) as u64,
        Ty::Void | Ty::Ptr => 0,
    }
}

/// No index is poison.
fn all_numbers(
    all: &Module,
    room: u64,
    places: &[u64],
    values: &[Option<u128>],
    indices: &[(Ty, Operand)],
) -> bool
    requires { ArePlaces all.now.globals places.now }
    ensures { result ≡ are_numbers (index_numbers (program_with all.now room) values.now indices.now) }
{
    let [index, rest @ ..] = indices else {
        return true;
    };
    operand(all, room, places, values, index.1).is_some()
        && all_numbers(all, room, places, values, rest)
}

/// Where a struct's field begins, or its last field ends where there is no such field.
fn offset_of(fields: &[MemTy], packed: bool, field: u64) -> u64
    requires sizes { HasSizesWithin (MemTy.Struct fields.now packed) }
    ensures { result ≡ offset_of_field (map extent_of_type fields.now) packed field }
{
    let mut end = 0;
    for i in 0..fields.len() {
        let extent = extent_of(&fields[i]);
        let start = field_start(packed, end, extent.align);
        if i as u64 == field {
            return start;
        }
        end = start + extent.size;
    }
    end
}

/// Where the part is that these indices lead to, from a part at an address, modulo two to 64; none where one is poison.
fn led(
    all: &Module,
    room: u64,
    places: &[u64],
    values: &[Option<u128>],
    indices: &[(Ty, Operand)],
    ty: &MemTy,
    address: u64,
) -> Option<u64>
    requires places { ArePlaces all.now.globals places.now }
    requires fits { IndicesFit (program_with all.now room) values.now indices.now }
    requires sizes { HasSizesWithin ty.now }
    ensures { result ≡ led_of ty.now address (index_numbers (program_with all.now room) values.now indices.now) }
{
    let [index, rest @ ..] = indices else {
        return Some(address);
    };
    let n = match operand(all, room, places, values, index.1) {
        None => return None,
        Some(n) => index_64(index.0, n),
    };
    match ty {
        MemTy::Int(_) | MemTy::Ptr => ended(all_numbers(all, room, places, values, rest), address),
        MemTy::Array(_, element) => {
            let element = element.get();
            let next = address.wrapping_add(n.wrapping_mul(size_of(element)));
            led(all, room, places, values, rest, element, next)
        }
        MemTy::Struct(fields, packed) => {
            let fields = fields.as_slice();
            let next = address.wrapping_add(offset_of(fields, *packed, n));
            if n < fields.len() as u64 {
                led(all, room, places, values, rest, &fields[n as usize], next)
            } else {
                ended(all_numbers(all, room, places, values, rest), next)
            }
        }
    }
}

/// The address, where it isn't poison.
fn ended(is_number: bool, address: u64) -> Option<u64>
    ensures { result ≡ led_if is_number address }
{
    if is_number { Some(address) } else { None }
}

/// The address of a part; poison where the base or an index is.
fn part_address(
    all: &Module,
    room: u64,
    places: &[u64],
    values: &[Option<u128>],
    of: &MemTy,
    base: Option<u128>,
    indices: &[(Ty, Operand)],
) -> Option<u128>
    requires places { ArePlaces all.now.globals places.now }
    requires sizes { HasSizesWithin of.now }
    requires base { FitsWidth 64 base }
    requires fits { IndicesFit (program_with all.now room) values.now indices.now }
    ensures { result ≡ part_of of.now base (index_numbers (program_with all.now room) values.now indices.now) }
{
    let base = match base {
        None => return None,
        Some(n) => n as u64,
    };
    let [first, rest @ ..] = indices else {
        return Some(u128::from(base));
    };
    let n = match operand(all, room, places, values, first.1) {
        None => return None,
        Some(n) => index_64(first.0, n),
    };
    let start = base.wrapping_add(n.wrapping_mul(size_of(of)));
    match led(all, room, places, values, rest, of, start) {
        None => None,
        Some(address) => Some(u128::from(address)),
    }
}

/// `getelementptr`.
pub fn part_step(
    all: &Module,
    room: u64,
    places: &[u64],
    function: &Function,
    numbers: &Items<Items<u32>>,
    now: &mut Activation,
    memory: &DataMemory,
    inst: &Inst,
    of: &MemTy,
    base: Operand,
    indices: &[(Ty, Operand)],
) -> Done
    requires places { ArePlaces all.now.globals places.now }
    requires bounded { IsBounded function.now }
    requires numbers { HasNumbers function.now numbers.now }
    requires at { slice_get (insts_at function.now now.old.block) now.old.place ≡ Some inst.now }
    requires sizes { HasSizesWithin of.now }
    requires base { FitsWidth 64 (operand_of (program_with all.now room) now.old.values base) }
    requires fits { IndicesFit (program_with all.now room) now.old.values indices.now }
    ensures { shown result now.new memory.now ≡ came now.old memory.now (act (program_with all.now room) function.now now.old memory.now inst.now (Gep of.now base indices.now)).does }
{
    let values = now.values.as_slice();
    let base = operand(all, room, places, values, base);
    let address = part_address(all, room, places, values, of, base, indices);
    give(
        function,
        numbers,
        now,
        memory,
        inst,
        Computed::Gives(address),
    )
}

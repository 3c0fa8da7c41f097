// What the indices of an address add: sizes of values, and the bytes of literal indices.
ghost use Rattle.std.specs.Prelude.{◌≡◌, ◌+◌, ◌%◌, ◌^◌, ◌<◌, ◌≤◌, ◌++◌, length, OnOk, IfOk};
ghost use Rattle.ir_core.specs.Layout.{HasSizesWithin};
ghost use Rattle.ir_flow.specs.Limits.{nodes};
ghost use Rattle.ir_meaning.specs.Operators.{width as width_of_type};
ghost use Rattle.ir_meaning.specs.Typed.{IsInteger};
ghost use Rattle.generic_code.specs.Parts.{sized, field_index, addends_into, addends_of, bytes_in};
ghost use Rattle.ir_translator_emit.specs.Sums.{IsRead, AreRead, addends_of_values, only_values};

use crate::lists::push;
use crate::sums::Scaled;
use ir_core::code::Operand;
use ir_core::layout::size_of;
use ir_core::types::{MemTy, Ty};
use ir_data::struct_fields::offset_of;
use rj_num::NoMemory;
use rj_num::width::extend;
use sqlite_items::Items;
use std::alloc::Global;

/// What indices add: a size for each of some values' numbers, and bytes, modulo two to 64.
#[derive(Drop)]
pub struct Sum {
    pub scaled: Items<Scaled>,
    pub bytes: u64,
}

// The bits of an integer.
fn width_of(ty: Ty) -> u32
    requires { IsInteger ty }
    ensures value { result ≡ width_of_type ty }
    ensures some { 1 ≤ result }
    ensures most { result ≤ 64 }
{
    match ty {
        Ty::Int(width) => width,
        Ty::Void | Ty::Ptr => 64,
    }
}

// The number of a literal index, read with its sign; 0 for others.
fn number_of(index: (Ty, Operand)) -> u64
    requires { IsRead index }
    ensures { result ≡ field_index index.0 index.1 }
{
    match index.1 {
        Operand::Num(number) => extend(number, width_of(index.0), 64) as u64,
        _ => 0,
    }
}

// Adds a size for an index: that of a value, or the bytes of a literal behind those so far.
#[tactic(auto, using(crate::proofs::Adding::values_push, crate::proofs::Adding::values_none))]
fn add_index(
    scaled: &mut Items<Scaled>,
    index: (Ty, Operand),
    size: u64,
    bytes: u64,
) -> Result<u64, NoMemory>
    requires { IsRead index }
    ensures scaled { OnOk result (addends_of_values scaled.new ≡ addends_of_values scaled.old ++ only_values (sized size index.0 index.1)) }
    ensures bytes { IfOk result (λ all. all ≡ (bytes + bytes_in (sized size index.0 index.1)) % 2 ^ 64) }
    ensures most { OnOk result (length scaled.new ≤ length scaled.old + 1) }
{
    match index.1 {
        Operand::Value(number) => {
            let width = width_of(index.0);
            push(
                scaled,
                Scaled {
                    width,
                    number,
                    size,
                },
            )?;
            Ok(bytes)
        }
        Operand::Num(_) => Ok(bytes.wrapping_add(number_of(index).wrapping_mul(size))),
        Operand::Null => Ok(bytes),
        Operand::Place(_, _) => Ok(bytes),
        Operand::Poison => Ok(bytes),
    }
}

// What indices into a type add.
fn add_into(
    scaled: &mut Items<Scaled>,
    of: &MemTy,
    indices: &[(Ty, Operand)],
    bytes: u64,
) -> Result<u64, NoMemory>
    requires indices { AreRead indices.now }
    requires sizes { HasSizesWithin of.now }
    requires few { nodes of.now ≤ 4096 }
    ensures scaled { OnOk result (addends_of_values scaled.new ≡ addends_of_values scaled.old ++ only_values (addends_into indices.now of.now)) }
    ensures bytes { IfOk result (λ all. all ≡ (bytes + bytes_in (addends_into indices.now of.now)) % 2 ^ 64) }
    ensures most { OnOk result (length scaled.new ≤ length scaled.old + length indices.now) }
{
    let [index, rest @ ..] = indices else {
        return Ok(bytes);
    };
    match of {
        MemTy::Int(_) | MemTy::Ptr => Ok(bytes),
        MemTy::Array(_, element) => {
            let element = element.get();
            let bytes = add_index(scaled, *index, size_of(element), bytes)?;
            add_into(scaled, element, rest, bytes)
        }
        MemTy::Struct(fields, packed) => {
            let fields = fields.as_slice();
            let field = number_of(*index);
            let bytes = bytes.wrapping_add(offset_of(fields, *packed, field));
            if field >= fields.len() as u64 {
                return Ok(bytes);
            }
            add_into(scaled, &fields[field as usize], rest, bytes)
        }
    }
}

/// What the indices of an address add: the first counts whole values of the type, the others lead into it.
pub fn sum_of(alloc: Global, of: &MemTy, indices: &[(Ty, Operand)]) -> Result<Sum, NoMemory>
    requires indices { AreRead indices.now }
    requires sizes { HasSizesWithin of.now }
    requires few { nodes of.now ≤ 4096 }
    ensures scaled { IfOk result (λ sum. addends_of_values sum.scaled ≡ only_values (addends_of of.now indices.now)) }
    ensures bytes { IfOk result (λ sum. sum.bytes ≡ bytes_in (addends_of of.now indices.now) % 2 ^ 64) }
    ensures most { IfOk result (λ sum. length sum.scaled ≤ length indices.now) }
{
    let mut scaled = Items::new(alloc);
    let [first, rest @ ..] = indices else {
        return Ok(Sum { scaled, bytes: 0 });
    };
    let bytes = add_index(&mut scaled, *first, size_of(of), 0)?;
    let bytes = add_into(&mut scaled, of, rest, bytes)?;
    Ok(Sum { scaled, bytes })
}

//! Indices, and how far they lead.
ghost use Rattle.std.specs.Prelude.{◌≡◌, ◌+◌, ◌*◌, ◌%◌, ◌^◌, ◌<◌, length, map, ℕ, Ok, nat_lt, IfSome, option_copied, if◌then◌else◌};
ghost use Rattle.ir_core.specs.declared.types.MemTy.{out-MemTy};
ghost use Rattle.ir_core.specs.Layout.{HasSizesWithin, extent_of, offset_of_field};
ghost use Rattle.ir_types.specs.Walk.{Gives};
ghost use Rattle.ir_resolve.specs.Addresses.{index_width, offset_of, offset_step, offsets_of, further, times, part_in, start_in, leads_into, distance};

use crate::numbers::{extended, literal_of};
use ir_core::layout::{field_offset, size_of};
use ir_core::types::MemTy;
use ir_grammar::type_tree::TypeNode;
use ir_types::{Fault, Step, natural, walk, width_of};
use ir_value_trees::value_tree::Index;
use sqlite_items::Items;
use std::alloc::Global;

/// An index, sign-extended to 64 bits, with the place of its number.
#[derive(Clone, Copy, Drop)]
pub struct Offset {
    pub value: u64,
    pub left: usize,
}

fn index_width(index: &Index) -> Result<u32, Fault>
    ensures { Gives (λ w. w) result (index_width index.now) }
{
    match &index.ty {
        TypeNode::Int(digits, left) => width_of(*left, natural(digits.as_slice())),
        _ => Err(Fault::Syntax(index.number.left)),
    }
}

/// `iN NUMBER`
#[tactic(auto, unfolding(crate::specs::Addresses::offset_of))]
fn offset_of(index: &Index) -> Result<Offset, Fault>
    ensures { Gives (λ offset. offset) result (offset_of index.now) }
{
    let width = index_width(index)?;
    let number = literal_of(&index.number, width)?;
    match extended(width, number) {
        Some(value) => Ok(Offset {
            value,
            left: index.number.left,
        }),
        None => Err(Fault::Syntax(index.number.left)),
    }
}

#[derive(Drop)]
pub struct OffsetList {
    pub all: Items<Offset>,
}

impl Step<Global, Index> for OffsetList {
    ghost steps = { λ alloc. offset_step };

    fn step(&mut self, _: &Global, index: &Index) -> Result<(), Fault> {
        let one = offset_of(index)?;
        self.all.push(one)?;
        Ok(())
    }
}

/// Indices one by one.
#[tactic(auto, unfolding(crate::specs::Addresses::offsets_of))]
pub fn offsets_of(alloc: Global, given: &[Index]) -> Result<Items<Offset>, Fault>
    ensures { Gives (λ all. all) result (offsets_of given.now) }
{
    let mut list = OffsetList {
        all: Items::new(alloc),
    };
    walk(&mut list, &alloc, given)?;
    Ok(list.all)
}

/// A sum modulo 2^64.
pub fn further(a: u64, b: u64) -> u64
    ensures { result ≡ further a b }
{
    a.wrapping_add(b)
}

/// A product modulo 2^64.
fn times(count: u64, size: u64) -> u64
    ensures { result ≡ times count size }
{
    count.wrapping_mul(size)
}

/// The part of a type to which an index leads.
fn part_in(index: u64, ty: &MemTy) -> Option<&MemTy>
    requires { HasSizesWithin ty.now }
    ensures value { option_copied result ≡ part_in index (out-MemTy ty.now) }
    ensures sizes { IfSome result (λ part. HasSizesWithin part.now) }
{
    match ty {
        MemTy::Int(_) | MemTy::Ptr => None,
        MemTy::Array(_, element) => Some(element.get()),
        MemTy::Struct(fields, _) => fields.get(index as usize),
    }
}

/// Where a field begins; 0 where there is none.
fn field_start(fields: &[MemTy], packed: bool, index: u64) -> Result<u64, Fault>
    requires sizes { HasSizesWithin (MemTy.Struct fields.now packed) }
    ensures { Gives (λ start. start) result (Ok (if nat_lt index (length fields.now) then offset_of_field (map extent_of fields.now) packed index else 0)) }
{
    if index >= fields.len() as u64 {
        return Ok(0);
    }
    match u32::try_from(index) {
        Ok(field) => Ok(field_offset(fields, packed, field)),
        Err(_) => Err(Fault::NoMemory),
    }
}

/// Where the part begins to which an index leads.
fn start_in(index: u64, ty: &MemTy) -> Result<u64, Fault>
    requires { HasSizesWithin ty.now }
    ensures { Gives (λ start. start) result (Ok (start_in index (out-MemTy ty.now))) }
{
    match ty {
        MemTy::Int(_) | MemTy::Ptr => Ok(0),
        MemTy::Array(_, element) => Ok(times(index, size_of(element.get()))),
        MemTy::Struct(fields, packed) => field_start(fields.as_slice(), *packed, index),
    }
}

/// How far indices lead into a type.
fn leads_into(offsets: &[Offset], ty: &MemTy) -> Result<u64, Fault>
    requires { HasSizesWithin ty.now }
    ensures { Gives (λ distance. distance) result (leads_into offsets.now ty.now) }
{
    let [offset, rest @ ..] = offsets else {
        return Ok(0);
    };
    let Some(part) = part_in(offset.value, ty) else {
        return Err(Fault::Syntax(offset.left));
    };
    let more = leads_into(rest, part)?;
    let start = start_in(offset.value, ty)?;
    Ok(further(start, more))
}

/// How far indices lead: the first counts whole values of the type, the others lead into it.
pub fn distance(ty: &MemTy, offsets: &[Offset]) -> Result<u64, Fault>
    requires { HasSizesWithin ty.now }
    ensures { Gives (λ distance. distance) result (distance ty.now offsets.now) }
{
    let [first, rest @ ..] = offsets else {
        return Ok(0);
    };
    let more = leads_into(rest, ty)?;
    Ok(further(times(first.value, size_of(ty)), more))
}

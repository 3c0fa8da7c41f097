// What patterns take of an instruction of generic machine code.
ghost use Rattle.std.specs.Prelude.{◌≡◌, ℕ, ◌-◌, ◌^◌, ◌++◌, min, drop, pos, slice_index_or, IfOk};
ghost use Rattle.ir_core.specs.declared.code.Pred.TheVariants.{Eq};
ghost use Rattle.gmir.specs.Play.{def_at, use_at};
ghost use Rattle.walks.specs.Bits.{predicates};
ghost use Rattle.selected_code.specs.Selected.{capped, load, store, paired};

use gmir::code::GInst;
use ir_core::code::Pred;
use rj_num::NoMemory;
use rv_core::instr::{LoadOp, StoreOp};
use sqlite_items::Items;
use std::alloc::Global;

/// The number at this place of a list, or 0.
fn at(list: &[u32], place: usize) -> u32
    ensures { result ≡ slice_index_or list.now place 0 }
{
    match list.get(place) {
        Some(number) => *number,
        None => 0,
    }
}

/// The register that the instruction writes.
pub fn written(inst: &GInst) -> u32
    ensures { result ≡ def_at inst.now 0 }
{
    at(inst.defs.as_slice(), 0)
}

/// The register that stands at this place among those that the instruction reads.
pub fn operand(inst: &GInst, place: usize) -> u32
    ensures { result ≡ use_at inst.now place }
{
    at(inst.uses.as_slice(), place)
}

/// The block, or the callee, at this place.
pub fn target(inst: &GInst, place: usize) -> u32
    ensures { result ≡ slice_index_or inst.now.to place 0 }
{
    at(inst.to.as_slice(), place)
}

/// The predicate at this place, and `Eq` past the last.
pub fn predicate(place: u128) -> Pred
    ensures { result ≡ slice_index_or predicates place Eq }
{
    match place {
        1 => Pred::Ne,
        2 => Pred::Ugt,
        3 => Pred::Uge,
        4 => Pred::Ult,
        5 => Pred::Ule,
        6 => Pred::Sgt,
        7 => Pred::Sge,
        8 => Pred::Slt,
        9 => Pred::Sle,
        _ => Pred::Eq,
    }
}

/// The number, or the greatest of 64 bits where it has more.
pub fn number(num: u128) -> u64
    ensures { result ≡ capped num }
{
    if num > 0xffff_ffff_ffff_ffff {
        0xffff_ffff_ffff_ffff
    } else {
        num as u64
    }
}

/// The place of an argument, at most 7.
pub fn argument_place(num: u128) -> u32
    ensures { result ≡ min num 7 }
{
    if num > 7 { 7 } else { num as u32 }
}

/// By how many bits the low `num` bits stand below the top.
pub fn distance(num: u128) -> i32
    ensures { result ≡ pos (64 - num) }
{
    if num > 64 { 0 } else { 64 - num as i32 }
}

/// The load of so many bits. What is above them is of no account, so bytes and halves go without their sign, as they most often want.
pub fn load_op(bits: u128) -> LoadOp
    ensures { result ≡ load bits }
{
    if bits == 8 {
        LoadOp::Lbu
    } else if bits == 16 {
        LoadOp::Lhu
    } else if bits == 32 {
        LoadOp::Lw
    } else {
        LoadOp::Ld
    }
}

/// The store of so many bits.
pub fn store_op(bits: u128) -> StoreOp
    ensures { result ≡ store bits }
{
    if bits == 8 {
        StoreOp::Sb
    } else if bits == 16 {
        StoreOp::Sh
    } else if bits == 32 {
        StoreOp::Sw
    } else {
        StoreOp::Sd
    }
}

/// A copy of a list of registers.
pub fn copied(alloc: Global, registers: &[u32]) -> Result<Items<u32>, NoMemory>
    ensures { IfOk result (λ copy. copy ≡ registers.now) }
{
    let mut copy = Vec::new(alloc);
    match copy.extend_from_slice(registers) {
        Ok(()) => Ok(Items::from_vec(copy)),
        Err(_) => Err(NoMemory),
    }
}

/// Each register with the block at its place.
fn pairs(alloc: Global, registers: &[u32], blocks: &[u32]) -> Result<Vec<(u32, u32)>, NoMemory>
    ensures { IfOk result (λ pairs. pairs.items ≡ paired registers.now blocks.now) }
{
    let mut pairs = Vec::new(alloc);
    for (register, block) in registers.iter().zip(blocks) {
        if pairs.push((*register, *block)).is_err() {
            return Err(NoMemory);
        }
    }
    Ok(pairs)
}

/// The registers that a phi reads, with the blocks that they come from.
pub fn sources(alloc: Global, inst: &GInst) -> Result<Items<(u32, u32)>, NoMemory>
    ensures { IfOk result (λ sources. sources ≡ paired inst.now.uses inst.now.to) }
{
    let pairs = pairs(alloc, inst.uses.as_slice(), inst.to.as_slice())?;
    Ok(Items::from_vec(pairs))
}

// What is read of an instruction of generic machine code and of the types of registers.
ghost use Rattle.std.specs.Prelude.{◌≡◌, ◌≤◌, ◌∷◌, [], ◌++◌, slice_index_or, IfOk, OnOk};
ghost use Rattle.gmir.specs.declared.code.GType.TheVariants.{P0};
ghost use Rattle.gmir.specs.Play.{width as width_at, use_at};
ghost use Rattle.legalizer.specs.Extends.{IsNarrowType, AreNarrow};

use gmir::code::{GInst, GType};
use rj_num::NoMemory;
use sqlite_items::Items;
use std::alloc::Global;

/// The type of a register; a pointer where there is none of that number.
pub fn type_of(types: &[GType], register: u32) -> GType
    requires { AreNarrow types.now }
    ensures is { result ≡ slice_index_or types.now register P0 }
    ensures narrow { IsNarrowType result }
{
    match types.get(register as usize) {
        Some(ty) => *ty,
        None => GType::P0,
    }
}

/// The first register that the instruction reads, or the register 0.
fn first_use(inst: &GInst) -> u32
    ensures { result ≡ use_at inst.now 0 }
{
    match inst.uses.get(0) {
        Some(register) => *register,
        None => 0,
    }
}

/// The width of the first register that the instruction reads.
pub fn first_width(types: &[GType], inst: &GInst) -> u32
    requires { AreNarrow types.now }
    ensures is { result ≡ width_at types.now (use_at inst.now 0) }
    ensures low { 1 ≤ result }
    ensures high { result ≤ 64 }
{
    match type_of(types, first_use(inst)) {
        GType::S(width) => width,
        GType::P0 => 64,
    }
}

/// A copy of a list of registers.
pub fn copied(alloc: Global, registers: &[u32]) -> Result<Items<u32>, NoMemory>
    ensures { IfOk result (λ copy. copy ≡ registers.now) }
{
    match Items::from_slice(alloc, registers) {
        Ok(copy) => Ok(copy),
        Err(_) => Err(NoMemory),
    }
}

/// A copy of a list of registers, and one behind them.
pub fn copied_and(alloc: Global, registers: &[u32], last: u32) -> Result<Items<u32>, NoMemory>
    ensures { IfOk result (λ copy. copy ≡ registers.now ++ last ∷ []) }
{
    let mut copy = Vec::new(alloc);
    if copy.extend_from_slice(registers).is_err() {
        return Err(NoMemory);
    }
    push(&mut copy, last)?;
    Ok(Items::from_vec(copy))
}

/// Puts a register behind the others.
pub fn push(registers: &mut Vec<u32>, register: u32) -> Result<(), NoMemory>
    ensures { OnOk result (registers.new.items ≡ registers.old.items ++ register ∷ []) }
{
    match registers.push(register) {
        Ok(()) => Ok(()),
        Err(_) => Err(NoMemory),
    }
}

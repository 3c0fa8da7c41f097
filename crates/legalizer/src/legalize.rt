// The legal form of a function.
ghost use Rattle.std.specs.Prelude.{◌≡◌, ◌+◌, ◌<◌, ◌^◌, ◌++◌, ◌∷◌, [], length, map, replicate, IfOk, OnOk};
ghost use Rattle.gmir.specs.declared.code.GType.TheVariants.{S};
ghost use Rattle.gmir.specs.Formed.{IsFormed};
ghost use Rattle.gmir.specs.Legal.{IsLegal};
ghost use Rattle.gmir.specs.Refines.{Refines};
ghost use Rattle.legal_code.specs.Legal.{KeepsRegisters, HasWideAddresses, legal_type as legal_type_of, legal_insts, legal_blocks as legal_blocks_of, spent_insts, spent_blocks, legalized};
ghost use Rattle.legalizer.specs.Extends.{AreNarrow};

use crate::legalizer::Legalizer;
use gmir::code::{GFunction, GInst, GType};
use legal_code::laws::{legal_forms_are_formed, legal_forms_are_legal, legal_forms_refine};
use rj_num::NoMemory;
use sqlite_items::Items;
use std::alloc::Global;

/// A block in its legal form, with new registers from this one on, and the first register that isn't taken then.
fn legal_block(
    alloc: Global,
    types: &[GType],
    insts: &[GInst],
    next: u32,
) -> Result<Legalizer, NoMemory>
    requires narrow { AreNarrow types.now }
    requires room { next + spent_insts types.now insts.now < 2 ^ 32 }
    ensures insts { IfOk result (λ legal. legal.insts.items ≡ legal_insts types.now next insts.now) }
    ensures next { IfOk result (λ legal. legal.next ≡ next + spent_insts types.now insts.now) }
{
    let mut legal = Legalizer::new(alloc, next);
    for inst in insts {
        legal.put_inst(types, inst)?;
    }
    Ok(legal)
}

fn legal_type(ty: GType) -> GType
    ensures { result ≡ legal_type_of ty }
{
    match ty {
        GType::S(_) => GType::S(64),
        GType::P0 => GType::P0,
    }
}

fn push_type(types: &mut Vec<GType>, ty: GType) -> Result<(), NoMemory>
    ensures { OnOk result (types.new.items ≡ types.old.items ++ ty ∷ []) }
{
    match types.push(ty) {
        Ok(()) => Ok(()),
        Err(_) => Err(NoMemory),
    }
}

/// The types of so many new registers.
fn new_types(alloc: Global, count: u32) -> Result<Vec<GType>, NoMemory>
    ensures { IfOk result (λ types. types.items ≡ replicate count (S 64)) }
{
    vec![in alloc; GType::S(64); count as usize].map_err(|_| NoMemory)
}

/// The legal types of the registers, and those of new registers behind them.
fn legal_types(alloc: Global, types: &[GType], more: u32) -> Result<Items<GType>, NoMemory>
    ensures { IfOk result (λ legal. legal ≡ map legal_type_of types.now ++ replicate more (S 64)) }
{
    let mut legal = Vec::new(alloc);
    for ty in types {
        push_type(&mut legal, legal_type(*ty))?;
    }
    let new = new_types(alloc, more)?;
    match legal.extend_from_slice(new.as_slice()) {
        Ok(()) => Ok(Items::from_vec(legal)),
        Err(_) => Err(NoMemory),
    }
}

/// The blocks of a function in their legal form, and how many new registers they have.
fn legal_blocks(alloc: Global, function: &GFunction) -> Result<(Items<Items<GInst>>, u32), NoMemory>
    requires narrow { AreNarrow function.now.types }
    requires room { length function.now.types + spent_blocks function.now.types function.now.blocks < 2 ^ 32 }
    ensures { IfOk result (λ made. (made.0 ≡ legal_blocks_of function.now.types (length function.now.types) function.now.blocks) × (made.1 ≡ spent_blocks function.now.types function.now.blocks)) }
{
    let types = function.types.as_slice();
    let first = types.len() as u32;
    let mut next = first;
    let mut blocks: Vec<Items<GInst>> = Vec::new(alloc);
    for insts in function.blocks.as_slice() {
        let Legalizer {
            insts,
            next: behind,
            ..
        } = legal_block(alloc, types, insts.as_slice(), next)?;
        if blocks.push(Items::from_vec(insts)).is_err() {
            return Err(NoMemory);
        }
        next = behind;
    }
    Ok((Items::from_vec(blocks), next - first))
}

/// The legal form of a function.
fn legal_form(alloc: Global, function: &GFunction) -> Result<GFunction, NoMemory>
    requires narrow { AreNarrow function.now.types }
    requires room { length function.now.types + spent_blocks function.now.types function.now.blocks < 2 ^ 32 }
    ensures { IfOk result (λ legal. legal ≡ legalized function.now) }
{
    let (blocks, more) = legal_blocks(alloc, function)?;
    let types = legal_types(alloc, function.types.as_slice(), more)?;
    Ok(GFunction {
        symbol: function.symbol,
        values: function.values,
        end: function.end,
        types,
        blocks,
    })
}

/// Puts a function into its legal form, which refines it: each register is a pointer or has 64 bits, and an operand is extended where
/// its meaning asks for the bits above its width. Its new registers stand behind those that it has, and `room::has_room` tests whether
/// there are numbers for them. Takes time in its length.
///
/// # Errors
/// `NoMemory` only where memory is refused.
pub fn legalize(alloc: Global, function: &GFunction) -> Result<GFunction, NoMemory>
    requires formed { IsFormed function.now }
    requires addresses { HasWideAddresses function.now }
    requires room { length function.now.types + spent_blocks function.now.types function.now.blocks < 2 ^ 32 }
    ensures refines { IfOk result (λ legal. Refines function.now legal) }
    ensures formed { IfOk result (λ legal. IsFormed legal) }
    ensures legal { IfOk result (λ legal. IsLegal legal) }
    ensures registers { IfOk result (λ legal. KeepsRegisters function.now legal) }
    ensures is { IfOk result (λ legal. legal ≡ legalized function.now) }
{
    legal_forms_refine();
    legal_forms_are_formed();
    legal_forms_are_legal();
    legal_form(alloc, function)
}

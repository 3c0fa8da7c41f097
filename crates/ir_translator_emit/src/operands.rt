// The operands of a phi by the blocks that they come from.
ghost use Rattle.std.specs.Prelude.{◌≡◌, OnOk, IfOk};
ghost use Rattle.ir_meaning.specs.Step.{on_edge};
ghost use Rattle.ir_translator_emit.specs.Maps.{Finds, Adds, found_or_poison};

use indexmap::IndexMap;
use ir_core::code::Operand;
use ir_core::types::Ty;
use rj_num::NoMemory;
use std::alloc::Global;
use std::marker::Model;

// So many pairs are looked through one after another; more of them stand in a map.
const FEW: usize = 8;

/// A phi: its type, and its operands, each with the block that it comes from. Each is found in the same time, however many there are.
#[derive(Drop)]
pub struct PhiOperands<'a> {
    gives: Ty,
    pairs: &'a [(Operand, u32)],
    first: IndexMap<u32, Operand>,
}

impl<'a> Model for PhiOperands<'a> {
    ghost use Rattle.std.specs.Prelude.{◌<◌, length};
    ghost use Rattle.ir_translator_emit.specs.Maps.{Finds};
    ghost use Rattle.ir_translator_emit.specs.Written.{Head};

    ghost Value = { Head };

    ghost view = { λ p. (p.gives, p.pairs.now) };

    ghost invariant = { λ p. 8 < length p.pairs.now → Finds p.pairs.now p.first.entries };
}

// Adds an operand where none of its block is there.
fn add(first: &mut IndexMap<u32, Operand>, block: u32, operand: Operand) -> Result<(), NoMemory>
    ensures { OnOk result (Adds first.old.entries block operand first.new.entries) }
{
    if first.get(&block).is_some() {
        return Ok(());
    }
    first.insert(block, operand).map_err(|_| NoMemory)?;
    Ok(())
}

// The first operand of each block.
fn by_block(alloc: Global, pairs: &[(Operand, u32)]) -> Result<IndexMap<u32, Operand>, NoMemory>
    ensures { IfOk result (λ first. Finds pairs.now first.entries) }
{
    let mut first = IndexMap::new(alloc);
    for (operand, block) in pairs {
        add(&mut first, *block, *operand)?;
    }
    Ok(first)
}

// The first of these pairs that comes from a block; poison where none does.
fn operand_among(pairs: &[(Operand, u32)], from: u32) -> Operand
    ensures { result ≡ on_edge from pairs.now }
{
    for (operand, block) in pairs {
        if *block == from {
            return *operand;
        }
    }
    Operand::Poison
}

// The first operand that stands in a map for a block; poison where none does.
fn operand_in(first: &IndexMap<u32, Operand>, from: u32) -> Operand
    ensures { result ≡ found_or_poison from first.now.entries }
{
    match first.get(&from) {
        Some(operand) => *operand,
        None => Operand::Poison,
    }
}

impl<'a> PhiOperands<'a> {
    /// A phi of a type with these operands.
    pub fn new(
        alloc: Global,
        gives: Ty,
        pairs: &'a [(Operand, u32)],
    ) -> Result<PhiOperands<'a>, NoMemory>
        ensures { IfOk result (λ all. all ≡ (gives, pairs.now)) }
    {
        if pairs.len() <= FEW {
            let first = IndexMap::new(alloc);
            return Ok(PhiOperands {
                gives,
                pairs,
                first,
            });
        }
        let first = by_block(alloc, pairs)?;
        Ok(PhiOperands {
            gives,
            pairs,
            first,
        })
    }

    /// The phi's type.
    pub fn gives(&self) -> Ty
        ensures { result ≡ self.now.0 }
    {
        self.gives
    }

    /// The operand for the edge from a block.
    pub fn on(&self, from: u32) -> Operand
        ensures { result ≡ on_edge from self.now.1 }
    {
        if self.pairs.len() <= FEW {
            operand_among(self.pairs, from)
        } else {
            operand_in(&self.first, from)
        }
    }
}

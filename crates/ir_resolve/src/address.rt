//! Constant addresses: a global, and how far from its first byte the indices lead.
ghost use Rattle.std.specs.Prelude.{◌≡◌, ◌-◌, ℕ, length, Ok};
ghost use Rattle.ir_types.specs.Walk.{Gives};
ghost use Rattle.ir_resolve.specs.Addresses.{head_distance, head_from, way_step, global_number, no_head_left, address};

use crate::offsets::{distance, further, offsets_of};
use ir_grammar::type_tree::{Type, TypeNode};
use ir_types::{Fault, Named, Step, Target, Types, memory, named_target, walk};
use ir_value_trees::value_tree::{Address, Index};
use sqlite_items::Items;
use std::alloc::Global;

/// A `getelementptr` of a type with indices.
#[tactic(auto, unfolding(crate::specs::Addresses::head_distance))]
fn head_distance(
    alloc: Global,
    types: &Types,
    head: &[TypeNode],
    tail: &[Index],
) -> Result<u64, Fault>
    ensures { Gives (λ distance. distance) result (head_distance types.now head.now tail.now) }
{
    let ty = memory(alloc, types, head)?;
    let offsets = offsets_of(alloc, tail)?;
    distance(&ty, offsets.as_slice())
}

/// What is known where addresses are read.
#[derive(Clone, Copy, Drop)]
pub struct Heads<'a> {
    pub alloc: Global,
    pub types: &'a Types,
    pub heads: &'a [Type],
}

/// How many types are still to come, and the offset so far.
#[derive(Clone, Copy, Drop)]
pub struct Way {
    pub heads: usize,
    pub offset: u64,
}

impl<'a> Step<Heads<'a>, Items<Index>> for Way {
    ghost steps = { λ known. way_step known.types.now known.heads.now };

    #[tactic(auto, unfolding(crate::specs::Addresses::way_step))]
    fn step(&mut self, known: &Heads<'a>, tail: &Items<Index>) -> Result<(), Fault> {
        if self.heads == 0 {
            return Err(Fault::Syntax(0));
        }
        match known.heads.get(self.heads - 1) {
            Some(head) => {
                let more = head_distance(
                    known.alloc,
                    known.types,
                    head.as_slice(),
                    tail.as_slice(),
                )?;
                self.heads -= 1;
                self.offset = further(self.offset, more);
                Ok(())
            }
            None => Err(Fault::Syntax(0)),
        }
    }
}

/// A global's number; a function's name is no operand.
pub fn global_number(left: usize, target: Target) -> Result<u32, Fault>
    ensures { Gives (λ number. number) result (global_number left target) }
{
    match target {
        Target::Global(number) => Ok(number),
        Target::Function(_) => Err(Fault::LeftOut(left)),
        _ => Err(Fault::Name(left)),
    }
}

fn no_head_left(left: usize, way: Way) -> Result<u64, Fault>
    ensures { Gives (λ offset. offset) result (no_head_left left way) }
{
    if way.heads == 0 {
        Ok(way.offset)
    } else {
        Err(Fault::Syntax(left))
    }
}

/// A constant place: a global's number in order of text, and the offset in bytes.
#[tactic(auto, unfolding(crate::specs::Addresses::address))]
pub fn place(
    alloc: Global,
    types: &Types,
    symbols: &Named,
    given: &Address,
) -> Result<(u32, u64), Fault>
    ensures { Gives (λ place. place) result (address types.now symbols.now given.now) }
{
    let target = named_target(alloc, symbols, &given.name)?;
    let global = global_number(given.name.left, target)?;
    let mut way = Way {
        heads: given.heads.len(),
        offset: 0,
    };
    let known = Heads {
        alloc,
        types,
        heads: given.heads.as_slice(),
    };
    walk(&mut way, &known, given.tails.as_slice())?;
    let offset = no_head_left(given.left, way)?;
    Ok((global, offset))
}

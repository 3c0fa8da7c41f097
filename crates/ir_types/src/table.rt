//! The types that the text of a module says.
ghost use Rattle.std.specs.Prelude.{◌≡◌, ℕ, Ok, None, OnOk, IfOk, option_copied};
ghost use Rattle.ir_core.specs.Layout.{HasSizesWithin};
ghost use Rattle.ir_flow.specs.Limits.{measured, capped_passing};
ghost use Rattle.ir_types.specs.Walk.{Gives};
ghost use Rattle.ir_types.specs.Replaced.{definition};
ghost use Rattle.ir_types.specs.Summaries.{summary_of};
ghost use Rattle.ir_types.specs.Types.{first_part, scalar_at, named_scalar, int_type, named_value, value_part, type_of, few_nodes, all_stand, few_bytes, memory};

use crate::build::{Known, built};
use crate::fault::Fault;
use crate::lists::walk;
use crate::names::Table;
use crate::number::natural;
use crate::parts::{Part, named_type, parts_of, width_of};
use crate::resolve::definition;
use crate::summary::{Entry, NO_PARTS, Summary, known_of};
use ir_core::program::What;
use ir_core::types::{MemTy, Ty};
use ir_flow::sizes::measure_of;
use ir_grammar::type_tree::TypeNode;
use ir_text::Name;
use sqlite_items::Items;
use std::alloc::Global;

/// The named types of a text: their names, their definitions in order of text, and what is known of each.
#[derive(Drop)]
pub struct Types {
    pub names: Table,
    /// An `opaque` type has none.
    pub bodies: Items<Option<Items<Part>>>,
    pub entries: Items<Entry>,
}

fn first_part(body: Option<&[Part]>) -> Option<Part>
    ensures { result ≡ first_part (option_copied body.entry) }
{
    match body {
        Some(parts) => parts.first().copied(),
        None => None,
    }
}

fn scalar_at(left: usize, part: Option<Part>) -> Result<Ty, Fault>
    ensures { Gives (λ ty. ty) result (scalar_at left part) }
{
    match part {
        Some(Part::Int(width, _)) => Ok(Ty::Int(width)),
        Some(Part::Ptr) => Ok(Ty::Ptr),
        _ => Err(Fault::Syntax(left)),
    }
}

fn named_scalar(types: &Types, left: usize, number: u32) -> Result<Ty, Fault>
    ensures { Gives (λ ty. ty) result (named_scalar types.now left number) }
{
    let (_, root) = known_of(left, types.entries.get(number as usize).copied())?;
    scalar_at(
        left,
        first_part(definition(types.bodies.as_slice(), root as usize)),
    )
}

fn int_type(left: usize, width: Option<u128>) -> Result<Ty, Fault>
    ensures { Gives (λ ty. ty) result (int_type left width) }
{
    let width = width_of(left, width)?;
    Ok(Ty::Int(width))
}

fn named_value(alloc: Global, types: &Types, name: &Name) -> Result<Ty, Fault>
    ensures { Gives (λ ty. ty) result (named_value types.now name.now) }
{
    let number = named_type(alloc, &types.names, name)?;
    named_scalar(types, name.left, number)
}

#[tactic(auto, unfolding(crate::specs::Types::value_part))]
fn value_part(alloc: Global, types: &Types, node: &TypeNode) -> Result<Ty, Fault>
    ensures { Gives (λ ty. ty) result (value_part types.now node.now) }
{
    match node {
        TypeNode::Void(_) => Ok(Ty::Void),
        TypeNode::Int(digits, left) => int_type(*left, natural(digits.as_slice())),
        TypeNode::Ptr(_) => Ok(Ty::Ptr),
        TypeNode::Named(name) => named_value(alloc, types, name),
        TypeNode::Array(_, left) => Err(Fault::Syntax(*left)),
        TypeNode::Struct(left) => Err(Fault::Syntax(*left)),
        TypeNode::Packed(left) => Err(Fault::Syntax(*left)),
        TypeNode::Close => Err(Fault::Syntax(0)),
    }
}

/// The type of a value: an integer, a pointer or `void`, by its name or not.
#[tactic(auto, unfolding(crate::specs::Types::type_of))]
pub fn type_of(alloc: Global, types: &Types, nodes: &[TypeNode]) -> Result<Ty, Fault>
    ensures { Gives (λ ty. ty) result (type_of types.now nodes.now) }
{
    match nodes.first() {
        Some(node) => value_part(alloc, types, node),
        None => Err(Fault::Syntax(0)),
    }
}

#[tactic(auto, unfolding(crate::specs::Summaries::summary_of))]
fn summary_of(entries: &Items<Entry>, parts: &[Part]) -> Result<Summary, Fault>
    ensures { Gives (λ summary. summary) result (summary_of entries.now parts.now) }
{
    let mut summary = NO_PARTS;
    walk(&mut summary, entries, parts)?;
    Ok(summary)
}

fn few_nodes(count: u64) -> Result<(), Fault>
    ensures { Gives (λ _. tt) result (few_nodes count) }
{
    if count > 4096 {
        Err(Fault::Limit(What::Nodes, count))
    } else {
        Ok(())
    }
}

fn all_stand(odd: Option<usize>) -> Result<(), Fault>
    ensures { Gives (λ _. tt) result (all_stand odd) }
{
    match odd {
        Some(left) => Err(Fault::LeftOut(left)),
        None => Ok(()),
    }
}

fn few_bytes(passing: Option<u64>) -> Result<(), Fault>
    ensures value { Gives (λ _. tt) result (few_bytes passing) }
    ensures none { OnOk result (passing ≡ None) }
{
    match passing {
        Some(size) => Err(Fault::Limit(What::Size, size)),
        None => Ok(()),
    }
}

/// The type of memory that a written type says: at most 4,096 types in one, of at most 2^32 bytes each.
#[tactic(auto, using(crate::proofs::Sizes::within), unfolding(crate::specs::Types::memory))]
pub fn memory(alloc: Global, types: &Types, nodes: &[TypeNode]) -> Result<MemTy, Fault>
    ensures value { Gives (λ ty. ty) result (memory types.now nodes.now) }
    ensures sizes { IfOk result (λ ty. HasSizesWithin ty) }
{
    let parts = parts_of(alloc, &types.names, nodes)?;
    let summary = summary_of(&types.entries, parts.as_slice())?;
    few_nodes(summary.nodes)?;
    all_stand(summary.odd)?;
    let known = Known {
        alloc,
        bodies: types.bodies.as_slice(),
        entries: types.entries.as_slice(),
    };
    let ty = built(&known, summary.rank, parts.as_slice())?;
    few_bytes(measure_of(&ty).passing)?;
    Ok(ty)
}

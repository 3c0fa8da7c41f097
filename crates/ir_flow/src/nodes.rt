// How many types a type of memory is made of, counted over a list of the types that are left and not by recursion.
ghost use Rattle.std.specs.Prelude.{◌≡◌, ℕ, ◌+◌, ◌<◌, ◌≤◌, ◌++◌, ◌∷◌, [], map, sum_by, IfOk, OnOk};
ghost use Rattle.ir_flow.specs.Limits.{capped, nodes as nodes_of};

use ir_core::types::MemTy;
use rj_num::NoMemory;
use std::alloc::Global;

fn push_type<'a>(left: &mut Vec<&'a MemTy>, ty: &'a MemTy) -> Result<(), NoMemory>
    ensures { OnOk result (map (λ t. t.now) left.new.items ≡ map (λ t. t.now) left.old.items ++ ty.now ∷ []) }
{
    match left.push(ty) {
        Ok(()) => Ok(()),
        Err(_) => Err(NoMemory),
    }
}

fn push_fields<'a>(left: &mut Vec<&'a MemTy>, fields: &'a [MemTy]) -> Result<(), NoMemory>
    ensures { OnOk result (map (λ t. t.now) left.new.items ≡ map (λ t. t.now) left.old.items ++ fields.now) }
{
    for field in fields {
        push_type(left, field)?;
    }
    Ok(())
}

/// Adds the types that a type is made of.
fn push_parts<'a>(left: &mut Vec<&'a MemTy>, ty: &'a MemTy) -> Result<(), NoMemory>
    ensures { OnOk result (sum_by nodes_of (map (λ t. t.now) left.new.items) + 1 ≡ sum_by nodes_of (map (λ t. t.now) left.old.items) + nodes_of ty.now) }
{
    match ty {
        MemTy::Int(_) | MemTy::Ptr => Ok(()),
        MemTy::Array(_, element) => push_type(left, element.get()),
        MemTy::Struct(fields, _) => push_fields(left, fields.as_slice()),
    }
}

/// How many types a type is made of, itself with them, up to the greatest number.
pub fn count_nodes(alloc: Global, ty: &MemTy) -> Result<u64, NoMemory>
    ensures { IfOk result (λ count. count ≡ capped (nodes_of ty.now)) }
{
    let mut left = Vec::new(alloc);
    push_type(&mut left, ty)?;
    let mut count = 0u64;
    while let Some(next) = left.pop() {
        count = count.saturating_add(1);
        push_parts(&mut left, next)?;
    }
    Ok(count)
}

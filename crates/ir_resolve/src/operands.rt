ghost use Rattle.std.specs.Prelude.{◌≡◌, ℕ};
ghost use Rattle.ir_types.specs.Walk.{Gives};
ghost use Rattle.ir_resolve.specs.Operands.{is_ty, number_operand, where_ty, value_number, block_number, local_operand, block_of, place_operand, address_operand, operand, typed, typed_as, place_of_value, place_of_node, place_of_type};

use crate::address::place;
use crate::numbers::literal_of;
use crate::scope::Outer;
use ir_core::code::Operand;
use ir_core::types::Ty;
use ir_grammar::type_tree::TypeNode;
use ir_text::{Name, Number};
use ir_types::{Fault, Table, Target, target_of, type_of};
use ir_value_trees::value_tree::{Address, Value};

pub fn is_ty(a: Ty, b: Ty) -> bool
    ensures { result ≡ is_ty a b }
{
    match a {
        Ty::Void => matches!(b, Ty::Void),
        Ty::Ptr => matches!(b, Ty::Ptr),
        Ty::Int(width) => match b {
            Ty::Int(other) => width == other,
            _ => false,
        },
    }
}

fn number_operand(ty: Ty, number: &Number) -> Result<Operand, Fault>
    ensures { Gives (λ operand. operand) result (number_operand ty number.now) }
{
    match ty {
        Ty::Int(width) => {
            let value = literal_of(number, width)?;
            Ok(Operand::Num(value))
        }
        Ty::Void | Ty::Ptr => Err(Fault::Syntax(number.left)),
    }
}

/// An operand where its type fits.
pub fn where_ty(fits: bool, left: usize, operand: Operand) -> Result<Operand, Fault>
    ensures { Gives (λ operand. operand) result (where_ty fits left operand) }
{
    if fits {
        Ok(operand)
    } else {
        Err(Fault::Syntax(left))
    }
}

fn value_number(left: usize, target: Target) -> Result<u32, Fault>
    ensures { Gives (λ number. number) result (value_number left target) }
{
    match target {
        Target::Value(number) => Ok(number),
        _ => Err(Fault::Name(left)),
    }
}

fn block_number(left: usize, target: Target) -> Result<u32, Fault>
    ensures { Gives (λ number. number) result (block_number left target) }
{
    match target {
        Target::Block(number) => Ok(number),
        _ => Err(Fault::Name(left)),
    }
}

#[tactic(auto, unfolding(crate::specs::Operands::local_operand))]
fn local_operand(outer: &Outer, table: &Table, name: &Name) -> Result<Operand, Fault>
    ensures { Gives (λ operand. operand) result (local_operand table.now name.now) }
{
    let target = target_of(outer.alloc, table, name)?;
    let number = value_number(name.left, target)?;
    Ok(Operand::Value(number))
}

/// A block by its name.
#[tactic(auto, unfolding(crate::specs::Operands::block_of))]
pub fn block_of(outer: &Outer, table: &Table, name: &Name) -> Result<u32, Fault>
    ensures { Gives (λ number. number) result (block_of table.now name.now) }
{
    let target = target_of(outer.alloc, table, name)?;
    block_number(name.left, target)
}

fn place_operand(outer: &Outer, given: &Address) -> Result<Operand, Fault>
    ensures { Gives (λ operand. operand) result (place_operand outer.now.types outer.now.symbols given.now) }
{
    let (global, offset) = place(outer.alloc, &outer.types, &outer.symbols, given)?;
    Ok(Operand::Place(global, offset))
}

fn address_operand(outer: &Outer, ty: Ty, given: &Address) -> Result<Operand, Fault>
    ensures { Gives (λ operand. operand) result (address_operand outer.now.types outer.now.symbols ty given.now) }
{
    match ty {
        Ty::Ptr => place_operand(outer, given),
        Ty::Void | Ty::Int(_) => Err(Fault::Syntax(given.left)),
    }
}

/// An operand of a type.
#[tactic(auto, unfolding(crate::specs::Operands::operand))]
pub fn operand(outer: &Outer, table: &Table, ty: Ty, value: &Value) -> Result<Operand, Fault>
    ensures { Gives (λ operand. operand) result (operand outer.now.types outer.now.symbols table.now ty value.now) }
{
    match value {
        Value::Local(name) => local_operand(outer, table, name),
        Value::Number(number) => number_operand(ty, number),
        Value::True(left) => where_ty(is_ty(ty, Ty::Int(1)), *left, Operand::Num(1)),
        Value::False(left) => where_ty(is_ty(ty, Ty::Int(1)), *left, Operand::Num(0)),
        Value::Null(left) => where_ty(is_ty(ty, Ty::Ptr), *left, Operand::Null),
        Value::Poison(left) => where_ty(!is_ty(ty, Ty::Void), *left, Operand::Poison),
        Value::Address(address) => address_operand(outer, ty, address),
    }
}

/// `T V`
#[tactic(auto, unfolding(crate::specs::Operands::typed))]
pub fn typed(
    outer: &Outer,
    table: &Table,
    nodes: &[TypeNode],
    given: &Value,
) -> Result<(Ty, Operand), Fault>
    ensures { Gives (λ typed. typed) result (typed outer.now.types outer.now.symbols table.now nodes.now given.now) }
{
    let ty = type_of(outer.alloc, &outer.types, nodes)?;
    let value = operand(outer, table, ty, given)?;
    Ok((ty, value))
}

pub fn place_of_value(value: &Value) -> usize
    ensures { result ≡ place_of_value value.now }
{
    match value {
        Value::Local(name) => name.left,
        Value::Number(number) => number.left,
        Value::True(left) => *left,
        Value::False(left) => *left,
        Value::Null(left) => *left,
        Value::Poison(left) => *left,
        Value::Address(address) => address.left,
    }
}

fn place_of_node(node: &TypeNode) -> usize
    ensures { result ≡ place_of_node node.now }
{
    match node {
        TypeNode::Void(left) => *left,
        TypeNode::Int(_, left) => *left,
        TypeNode::Ptr(left) => *left,
        TypeNode::Array(_, left) => *left,
        TypeNode::Struct(left) => *left,
        TypeNode::Packed(left) => *left,
        TypeNode::Close => 0,
        TypeNode::Named(name) => name.left,
    }
}

/// Where a type begins, by how much is left.
pub fn place_of_type(nodes: &[TypeNode]) -> usize
    ensures { result ≡ place_of_type nodes.now }
{
    match nodes {
        [node, ..] => place_of_node(node),
        [] => 0,
    }
}

/// `T V` where T is known.
#[tactic(auto, unfolding(crate::specs::Operands::typed_as))]
pub fn typed_as(
    outer: &Outer,
    table: &Table,
    ty: Ty,
    nodes: &[TypeNode],
    given: &Value,
) -> Result<Operand, Fault>
    ensures { Gives (λ operand. operand) result (typed_as outer.now.types outer.now.symbols table.now ty nodes.now given.now) }
{
    let (other, value) = typed(outer, table, nodes, given)?;
    where_ty(is_ty(other, ty), place_of_type(nodes), value)
}

//! The parts of a type: widths and counts as numbers, names as the types that they stand for.
ghost use Rattle.std.specs.Prelude.{◌≡◌, ◌^◌, ℕ};
ghost use Rattle.ir_types.specs.Walk.{Gives};
ghost use Rattle.ir_types.specs.Parts.{width_of, small_count, count_of, type_number, named_type, int_part, array_part, named_part, part_of, part_step, parts_of};

use crate::fault::Fault;
use crate::lists::{Step, walk};
use crate::names::{Table, target_of};
use crate::number::natural;
use crate::tables::Target;
use ir_core::types::MAX_WIDTH;
use ir_grammar::type_tree::TypeNode;
use ir_text::{Name, Number};
use sqlite_items::Items;
use std::alloc::Global;

/// A part of a type; what stands inside it follows. A place is how many bytes are left from it on.
#[derive(Clone, Copy, Drop)]
pub enum Part {
    /// The width, and the place.
    Int(u32, usize),
    Ptr,
    Array(u64),
    Struct,
    Packed,
    /// The end of a struct.
    Close,
    /// A named type by its number in order of text, and the place of its name.
    Named(u32, usize),
}

/// The width of an integer, in bits; one that is too wide is left out.
pub fn width_of(left: usize, width: Option<u128>) -> Result<u32, Fault>
    ensures { Gives (λ w. w) result (width_of left width) }
{
    let Some(width) = width else {
        return Err(Fault::LeftOut(left));
    };
    if width == 0 {
        return Err(Fault::Syntax(left));
    }
    match u32::try_from(width) {
        Ok(width) if width <= MAX_WIDTH => Ok(width),
        _ => Err(Fault::LeftOut(left)),
    }
}

fn small_count(number: Option<u128>) -> Option<u64>
    ensures { result ≡ small_count number }
{
    u64::try_from(number?).ok()
}

/// The count of an array.
#[tactic(auto, unfolding(crate::specs::Parts::count_of))]
fn count_of(number: &Number) -> Result<u64, Fault>
    ensures { Gives (λ n. n) result (count_of number.now) }
{
    if number.is_negative {
        return Err(Fault::Syntax(number.left));
    }
    match small_count(natural(number.digits.as_slice())) {
        Some(count) => Ok(count),
        None => Err(Fault::Syntax(number.left)),
    }
}

fn type_number(left: usize, target: Target) -> Result<u32, Fault>
    ensures { Gives (λ n. n) result (type_number left target) }
{
    match target {
        Target::Type(number) => Ok(number),
        _ => Err(Fault::Name(left)),
    }
}

/// The named type that a name stands for, by its number in order of text.
#[tactic(auto, unfolding(crate::specs::Parts::named_type))]
pub fn named_type(alloc: Global, names: &Table, name: &Name) -> Result<u32, Fault>
    ensures { Gives (λ n. n) result (named_type names.now name.now) }
{
    let target = target_of(alloc, names, name)?;
    type_number(name.left, target)
}

fn int_part(left: usize, width: Option<u128>) -> Result<Part, Fault>
    ensures { Gives (λ part. part) result (int_part left width) }
{
    let width = width_of(left, width)?;
    Ok(Part::Int(width, left))
}

fn array_part(count: &Number) -> Result<Part, Fault>
    ensures { Gives (λ part. part) result (array_part count.now) }
{
    let count = count_of(count)?;
    Ok(Part::Array(count))
}

fn named_part(alloc: Global, names: &Table, name: &Name) -> Result<Part, Fault>
    ensures { Gives (λ part. part) result (named_part names.now name.now) }
{
    let number = named_type(alloc, names, name)?;
    Ok(Part::Named(number, name.left))
}

/// A part of a type.
#[tactic(auto, unfolding(crate::specs::Parts::part_of))]
fn part_of(alloc: Global, names: &Table, node: &TypeNode) -> Result<Part, Fault>
    ensures { Gives (λ part. part) result (part_of names.now node.now) }
{
    match node {
        TypeNode::Void(left) => Err(Fault::Syntax(*left)),
        TypeNode::Int(digits, left) => int_part(*left, natural(digits.as_slice())),
        TypeNode::Ptr(_) => Ok(Part::Ptr),
        TypeNode::Array(count, _) => array_part(count),
        TypeNode::Struct(_) => Ok(Part::Struct),
        TypeNode::Packed(_) => Ok(Part::Packed),
        TypeNode::Close => Ok(Part::Close),
        TypeNode::Named(name) => named_part(alloc, names, name),
    }
}

/// What is known where the parts of types are read.
#[derive(Clone, Copy, Drop)]
pub struct Naming<'a> {
    pub alloc: Global,
    pub names: &'a Table,
}

#[derive(Drop)]
pub struct PartList {
    pub all: Items<Part>,
}

impl<'a> Step<Naming<'a>, TypeNode> for PartList {
    ghost steps = { λ naming. part_step naming.names.now };

    fn step(&mut self, naming: &Naming<'a>, node: &TypeNode) -> Result<(), Fault> {
        let part = part_of(naming.alloc, naming.names, node)?;
        self.all.push(part)?;
        Ok(())
    }
}

/// The parts of a type, in order of text.
#[tactic(auto, unfolding(crate::specs::Parts::parts_of))]
pub fn parts_of(alloc: Global, names: &Table, given: &[TypeNode]) -> Result<Items<Part>, Fault>
    ensures { Gives (λ all. all) result (parts_of names.now given.now) }
{
    let mut list = PartList {
        all: Items::new(alloc),
    };
    walk(&mut list, &Naming { alloc, names }, given)?;
    Ok(list.all)
}

// How many items are made, and what `align` says.
ghost use Rattle.std.specs.Prelude.{◌≡◌};
ghost use Rattle.ir_types.specs.Walk.{Gives};
ghost use Rattle.ir_instructions.specs.Counts.{small_number, small_align, align_step, small_aligns, below_size, number_count, value_count, item_count};

use ir_core::types::Ty;
use ir_grammar::type_tree::Align;
use ir_resolve::literal_of;
use ir_resolve::operands::place_of_value;
use ir_resolve::scope::Outer;
use ir_text::Number;
use ir_types::{Fault, Step, natural, type_of, walk};
use ir_value_trees::value_tree::{Typed, Value};

fn small_number(number: Option<u128>) -> bool
    ensures { result ≡ small_number number }
{
    match number {
        Some(number) => number <= 16,
        None => false,
    }
}

/// What `align` says: at most 16, or it is left out.
fn small_align(given: &Align) -> Result<(), Fault>
    ensures { Gives (λ _. tt) result (small_align given.now) }
{
    if given.number.is_negative {
        return Err(Fault::Syntax(given.number.left));
    }
    if small_number(natural(given.number.digits.as_slice())) {
        Ok(())
    } else {
        Err(Fault::LeftOut(given.left))
    }
}

/// How many of a list of `align` are looked at.
#[derive(Drop)]
pub struct Looked {
    pub aligns: usize,
}

impl Step<(), Align> for Looked {
    ghost steps = { λ _. align_step };

    fn step(&mut self, _: &(), given: &Align) -> Result<(), Fault> {
        small_align(given)
    }
}

#[tactic(auto, unfolding(crate::specs::Counts::small_aligns))]
pub fn small_aligns(given: &[Align]) -> Result<(), Fault>
    ensures { Gives (λ _. tt) result (small_aligns given.now) }
{
    let mut looked = Looked { aligns: 0 };
    walk::<(), Align, Looked>(&mut looked, &(), given)
}

fn below_size(left: usize, number: u128) -> Result<u64, Fault>
    ensures { Gives (λ number. number) result (below_size left number) }
{
    match u64::try_from(number) {
        Ok(number) => Ok(number),
        Err(_) => Err(Fault::Syntax(left)),
    }
}

fn number_count(ty: Ty, number: &Number) -> Result<u64, Fault>
    ensures { Gives (λ count. count) result (number_count ty number.now) }
{
    match ty {
        Ty::Int(width) => {
            let value = literal_of(number, width)?;
            below_size(number.left, value)
        }
        Ty::Void | Ty::Ptr => Err(Fault::Syntax(number.left)),
    }
}

fn value_count(place: usize, ty: Ty, value: &Value) -> Result<u64, Fault>
    ensures { Gives (λ count. count) result (value_count place ty value.now) }
{
    match value {
        Value::Number(number) => number_count(ty, number),
        Value::Local(_) => Err(Fault::LeftOut(place)),
        _ => Err(Fault::Syntax(place_of_value(value))),
    }
}

/// How many items an `alloca` makes: a number; a value that isn't constant is left out.
pub fn item_count(outer: &Outer, place: usize, count: &Option<Typed>) -> Result<u64, Fault>
    ensures { Gives (λ count. count) result (item_count outer.now.types place count.now) }
{
    match count {
        None => Ok(1),
        Some(given) => {
            let ty = type_of(outer.alloc, &outer.types, given.ty.as_slice())?;
            value_count(place, ty, &given.value)
        }
    }
}

ghost use Rattle.std.specs.Prelude.{◌≡◌, ℕ, List};
ghost use Rattle.ir_types.specs.Walk.{Gives};
ghost use Rattle.ir_resolve.specs.Operands.{place_of_value};
ghost use Rattle.ir_instructions.specs.Instructions.{typed_step, typed_list, incoming_step, incoming_list, case_number, case_value, case_step, case_list};

use ir_core::code::Operand;
use ir_core::types::Ty;
use ir_instruction_trees::{Case, Incoming};
use ir_resolve::operands::{block_of, operand, place_of_value, typed, typed_as};
use ir_resolve::scope::Outer;
use ir_types::{Fault, Step, Table, walk};
use ir_value_trees::value_tree::Typed;
use sqlite_items::Items;

/// What is known inside a function.
#[derive(Clone, Copy, Drop)]
pub struct Within<'a> {
    pub outer: &'a Outer,
    pub table: &'a Table,
}

#[derive(Drop)]
pub struct TypedList {
    pub all: Items<(Ty, Operand)>,
}

impl<'a> Step<Within<'a>, Typed> for TypedList {
    ghost steps = { λ within. typed_step within.outer.now.types within.outer.now.symbols within.table.now };

    fn step(&mut self, within: &Within<'a>, given: &Typed) -> Result<(), Fault> {
        let one = typed(
            within.outer,
            within.table,
            given.ty.as_slice(),
            &given.value,
        )?;
        self.all.push(one)?;
        Ok(())
    }
}

/// Typed operands one by one.
#[tactic(auto, unfolding(crate::specs::Instructions::typed_list))]
pub fn typed_list(
    outer: &Outer,
    table: &Table,
    given: &[Typed],
) -> Result<Items<(Ty, Operand)>, Fault>
    ensures { Gives (λ all. all) result (typed_list outer.now.types outer.now.symbols table.now given.now) }
{
    let mut list = TypedList {
        all: Items::new(outer.alloc),
    };
    walk(&mut list, &Within { outer, table }, given)?;
    Ok(list.all)
}

#[derive(Drop)]
pub struct IncomingList {
    pub ty: Ty,
    pub all: Items<(Operand, u32)>,
}

impl<'a> Step<Within<'a>, Incoming> for IncomingList {
    ghost steps = { λ within. incoming_step within.outer.now.types within.outer.now.symbols within.table.now };

    fn step(&mut self, within: &Within<'a>, given: &Incoming) -> Result<(), Fault> {
        let value = operand(within.outer, within.table, self.ty, &given.value)?;
        let block = block_of(within.outer, within.table, &given.block)?;
        self.all.push((value, block))?;
        Ok(())
    }
}

/// The operands of a phi, with their blocks.
#[tactic(auto, unfolding(crate::specs::Instructions::incoming_list))]
pub fn incoming_list(
    outer: &Outer,
    table: &Table,
    ty: Ty,
    given: &[Incoming],
) -> Result<Items<(Operand, u32)>, Fault>
    ensures { Gives (λ all. all) result (incoming_list outer.now.types outer.now.symbols table.now ty given.now) }
{
    let mut list = IncomingList {
        ty,
        all: Items::new(outer.alloc),
    };
    walk(&mut list, &Within { outer, table }, given)?;
    Ok(list.all)
}

fn case_number(left: usize, operand: Operand) -> Result<u128, Fault>
    ensures { Gives (λ number. number) result (case_number left operand) }
{
    match operand {
        Operand::Num(number) => Ok(number),
        _ => Err(Fault::Syntax(left)),
    }
}

/// `T NUMBER` of a case.
#[tactic(auto, unfolding(crate::specs::Instructions::case_value))]
fn case_value(outer: &Outer, table: &Table, ty: Ty, given: &Case) -> Result<u128, Fault>
    ensures { Gives (λ number. number) result (case_value outer.now.types outer.now.symbols table.now ty given.now) }
{
    let value = typed_as(outer, table, ty, given.ty.as_slice(), &given.value)?;
    case_number(place_of_value(&given.value), value)
}

#[derive(Drop)]
pub struct CaseList {
    pub ty: Ty,
    pub all: Items<(u128, u32)>,
}

impl<'a> Step<Within<'a>, Case> for CaseList {
    ghost steps = { λ within. case_step within.outer.now.types within.outer.now.symbols within.table.now };

    fn step(&mut self, within: &Within<'a>, given: &Case) -> Result<(), Fault> {
        let number = case_value(within.outer, within.table, self.ty, given)?;
        let block = block_of(within.outer, within.table, &given.block)?;
        self.all.push((number, block))?;
        Ok(())
    }
}

/// The cases of a switch.
#[tactic(auto, unfolding(crate::specs::Instructions::case_list))]
pub fn case_list(
    outer: &Outer,
    table: &Table,
    ty: Ty,
    given: &[Case],
) -> Result<Items<(u128, u32)>, Fault>
    ensures { Gives (λ all. all) result (case_list outer.now.types outer.now.symbols table.now ty given.now) }
{
    let mut list = CaseList {
        ty,
        all: Items::new(outer.alloc),
    };
    walk(&mut list, &Within { outer, table }, given)?;
    Ok(list.all)
}

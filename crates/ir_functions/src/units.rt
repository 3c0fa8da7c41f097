ghost use Rattle.std.specs.Prelude.{◌≡◌, ◌+◌, Ok};
ghost use Rattle.ir_types.specs.Walk.{Gives};
ghost use Rattle.ir_functions.specs.Functions.{parts_of, unit_step, block_units_step, units_of};

use ir_instruction_trees::{Instruction, Operation};
use ir_tree::Block;
use ir_types::{Fault, Step, walk};

/// The cases of a switch, the arguments of a call, and the indices of an address.
#[tactic(auto, unfolding(crate::specs::Functions::parts_of))]
fn parts_of(operation: &Operation) -> usize
    ensures { result ≡ parts_of operation.now }
{
    match operation {
        Operation::Gep(_, _, offsets) => offsets.len(),
        Operation::Call(_, _, _, arguments) => arguments.len(),
        Operation::Switch(_, _, cases) => cases.len(),
        _ => 0,
    }
}

/// A sum. Memory ends before sums of units do.
fn sum(a: u64, b: u64) -> Result<u64, Fault>
    ensures { Gives (λ sum. sum) result (Ok (a + b)) }
{
    match a.checked_add(b) {
        Some(sum) => Ok(sum),
        None => Err(Fault::NoMemory),
    }
}

/// Units of instructions so far.
#[derive(Drop)]
pub struct UnitCount {
    pub units: u64,
}

impl Step<(), Instruction> for UnitCount {
    ghost steps = { λ _. unit_step };

    fn step(&mut self, _: &(), given: &Instruction) -> Result<(), Fault> {
        let own = sum(1, parts_of(&given.operation) as u64)?;
        self.units = sum(self.units, own)?;
        Ok(())
    }
}

impl Step<(), Block> for UnitCount {
    ghost steps = { λ _. block_units_step };

    fn step(&mut self, known: &(), given: &Block) -> Result<(), Fault> {
        walk::<(), Instruction, UnitCount>(self, known, given.instructions.as_slice())
    }
}

/// The static units of a function's instructions.
#[tactic(auto, unfolding(crate::specs::Functions::units_of))]
pub fn units_of(blocks: &[Block]) -> Result<u64, Fault>
    ensures { Gives (λ units. units) result (units_of blocks.now) }
{
    let mut count = UnitCount { units: 0 };
    walk::<(), Block, UnitCount>(&mut count, &(), blocks)?;
    Ok(count.units)
}

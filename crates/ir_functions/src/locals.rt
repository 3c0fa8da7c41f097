ghost use Rattle.std.specs.Prelude.{◌≡◌, ◌+◌, Ok, None, length};
ghost use Rattle.ir_types.specs.Walk.{Gives};
ghost use Rattle.ir_types.specs.declared.tables.Target.TheVariants as targets;
ghost use Rattle.ir_functions.specs.Functions.{number_local, bytes_local, name_local, parameter_type, parameter_step, no_result, some_result, result_step, label, label_step};

use ir_core::types::Ty;
use ir_instruction_trees::Instruction;
use ir_instructions::instructions::result_type;
use ir_resolve::operands::{is_ty, place_of_type};
use ir_resolve::scope::Outer;
use ir_text::Name;
use ir_tree::{Block, Parameter};
use ir_types::{Fault, Step, Table, Target, bytes_of, is_numbered, number_of, type_of, walk};
use sqlite_items::Items;

/// What is named so far in a function, and the number of the next local without a name.
#[derive(Drop)]
pub struct Numbering {
    pub table: Table,
    pub counter: u64,
}

/// The number behind this one. Memory ends before numbers do.
fn number_behind(number: u64) -> Result<u64, Fault>
    ensures { Gives (λ next. next) result (Ok (number + 1)) }
{
    match number.checked_add(1) {
        Some(next) => Ok(next),
        None => Err(Fault::NoMemory),
    }
}

/// The place behind this one. Memory ends before places do.
pub fn place_behind(place: u32) -> Result<u32, Fault>
    ensures { Gives (λ next. next) result (Ok (place + 1)) }
{
    match place.checked_add(1) {
        Some(next) => Ok(next),
        None => Err(Fault::NoMemory),
    }
}

/// The value behind so many. Memory ends before places do.
pub fn place_of(len: usize) -> Result<u32, Fault>
    ensures { Gives (λ place. place) result (Ok len) }
{
    match u32::try_from(len) {
        Ok(place) => Ok(place),
        Err(_) => Err(Fault::NoMemory),
    }
}

impl Numbering {
    /// A local by its number, which isn't below the counter.
    #[tactic(auto, unfolding(crate::specs::Functions::number_local))]
    fn number_local(&mut self, name: &Name, target: Target) -> Result<(), Fault>
        ensures { Gives (λ _. self.new) result (number_local self.old name.now target) }
    {
        let number = number_of(name)?;
        if !self.table.numbered.define(number, target)? {
            return Err(Fault::Name(name.left));
        }
        if number < self.counter {
            return Err(Fault::Syntax(name.left));
        }
        self.counter = number_behind(number)?;
        Ok(())
    }

    /// A local by its bytes.
    #[tactic(auto, unfolding(crate::specs::Functions::bytes_local))]
    fn bytes_local(&mut self, outer: &Outer, name: &Name, target: Target) -> Result<(), Fault>
        ensures { Gives (λ _. self.new) result (bytes_local self.old name.now target) }
    {
        let bytes = bytes_of(outer.alloc, name)?;
        if !self
            .table
            .named
            .define(outer.alloc, bytes.as_slice(), target)?
        {
            return Err(Fault::Name(name.left));
        }
        Ok(())
    }

    fn unnamed_local(&mut self, target: Target) -> Result<(), Fault>
        ensures { Gives (λ _. self.new) result (name_local self.old None target) }
    {
        let _fresh = self.table.numbered.define(self.counter, target)?;
        self.counter = number_behind(self.counter)?;
        Ok(())
    }

    /// A local by its name, or by the counter where it has none.
    pub fn name_local(
        &mut self,
        outer: &Outer,
        name: &Option<Name>,
        target: Target,
    ) -> Result<(), Fault>
        ensures { Gives (λ _. self.new) result (name_local self.old name.now target) }
    {
        match name {
            None => self.unnamed_local(target),
            Some(name) => {
                if is_numbered(name.spelling) {
                    self.number_local(name, target)
                } else {
                    self.bytes_local(outer, name, target)
                }
            }
        }
    }
}

fn parameter_type(left: usize, ty: Ty) -> Result<Ty, Fault>
    ensures { Gives (λ ty. ty) result (parameter_type left ty) }
{
    if is_ty(ty, Ty::Void) {
        return Err(Fault::Syntax(left));
    }
    Ok(ty)
}

/// Parameters: their names and types.
#[derive(Drop)]
pub struct ParamList {
    pub names: Numbering,
    pub tys: Items<Ty>,
}

impl Step<Outer, Parameter> for ParamList {
    ghost steps = { λ outer. parameter_step outer.types };

    #[tactic(auto, unfolding(crate::specs::Functions::parameter_step))]
    fn step(&mut self, outer: &Outer, given: &Parameter) -> Result<(), Fault> {
        let written = type_of(outer.alloc, &outer.types, given.ty.as_slice())?;
        let ty = parameter_type(place_of_type(given.ty.as_slice()), written)?;
        let place = place_of(self.tys.len())?;
        self.names
            .name_local(outer, &given.name, Target::Value(place))?;
        self.tys.push(ty)?;
        Ok(())
    }
}

/// The names of a body, with how many values and blocks there are so far.
#[derive(Drop)]
pub struct BodyNames {
    pub names: Numbering,
    pub values: u32,
    pub blocks: u32,
}

impl BodyNames {
    fn no_result(&mut self, name: &Option<Name>) -> Result<(), Fault>
        ensures { Gives (λ _. self.new) result (no_result self.old name.now) }
    {
        match name {
            Some(name) => Err(Fault::Syntax(name.left)),
            None => Ok(()),
        }
    }

    #[tactic(auto, unfolding(crate::specs::Functions::some_result))]
    fn some_result(&mut self, outer: &Outer, name: &Option<Name>) -> Result<(), Fault>
        ensures { Gives (λ _. self.new) result (some_result self.old name.now) }
    {
        let target = Target::Value(self.values);
        self.names.name_local(outer, name, target)?;
        self.values = place_behind(self.values)?;
        Ok(())
    }

    #[tactic(auto, unfolding(crate::specs::Functions::label))]
    fn label(&mut self, outer: &Outer, name: &Option<Name>) -> Result<(), Fault>
        ensures { Gives (λ _. self.new) result (label self.old name.now) }
    {
        let target = Target::Block(self.blocks);
        self.names.name_local(outer, name, target)?;
        self.blocks = place_behind(self.blocks)?;
        Ok(())
    }
}

impl Step<Outer, Instruction> for BodyNames {
    ghost steps = { λ outer. result_step outer.types };

    #[tactic(auto, unfolding(crate::specs::Functions::result_step))]
    fn step(&mut self, outer: &Outer, given: &Instruction) -> Result<(), Fault> {
        let ty = result_type(outer, &given.operation)?;
        if is_ty(ty, Ty::Void) {
            return self.no_result(&given.result);
        }
        self.some_result(outer, &given.result)
    }
}

impl Step<Outer, Block> for BodyNames {
    ghost steps = { λ outer. label_step outer.types };

    #[tactic(auto, unfolding(crate::specs::Functions::label_step))]
    fn step(&mut self, outer: &Outer, given: &Block) -> Result<(), Fault> {
        self.label(outer, &given.label)?;
        walk::<Outer, Instruction, BodyNames>(self, outer, given.instructions.as_slice())
    }
}

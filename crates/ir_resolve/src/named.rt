//! The named types of a tree.
ghost use Rattle.std.specs.Prelude.{◌≡◌, ◌+◌, ℕ, Ok};
ghost use Rattle.ir_types.specs.Walk.{Gives};
ghost use Rattle.ir_resolve.specs.Named.{name_step, names_of, body_of, body_step, bodies_of, TypesAnswer};

use ir_grammar::type_tree::Type;
use ir_tree::NamedType;
use ir_types::{Fault, Part, Step, Table, Target, Types, known_types, parts_of, walk};
use sqlite_items::Items;
use std::alloc::Global;

/// The names of types so far, and how many there are.
#[derive(Drop)]
pub struct TypeNames {
    pub names: Table,
    pub count: u32,
}

impl Step<Global, NamedType> for TypeNames {
    ghost steps = { λ alloc. name_step };

    #[tactic(auto, unfolding(crate::specs::Named::name_step))]
    fn step(&mut self, alloc: &Global, given: &NamedType) -> Result<(), Fault> {
        self.names
            .define(*alloc, &given.name, Target::Type(self.count))?;
        match self.count.checked_add(1) {
            Some(count) => self.count = count,
            None => return Err(Fault::NoMemory),
        }
        Ok(())
    }
}

/// The names of types, each with its number in order of text.
#[tactic(auto, unfolding(crate::specs::Named::names_of))]
fn names_of(alloc: Global, given: &[NamedType]) -> Result<Table, Fault>
    ensures { Gives (λ names. names) result (names_of given.now) }
{
    let mut all = TypeNames {
        names: Table::new(alloc),
        count: 0,
    };
    walk(&mut all, &alloc, given)?;
    Ok(all.names)
}

fn body_of(alloc: Global, names: &Table, given: &Option<Type>) -> Result<Option<Items<Part>>, Fault>
    ensures { Gives (λ body. body) result (body_of names.now given.now) }
{
    match given {
        Some(nodes) => {
            let body = parts_of(alloc, names, nodes.as_slice())?;
            Ok(Some(body))
        }
        None => Ok(None),
    }
}

/// What is known where definitions are read.
#[derive(Clone, Copy, Drop)]
pub struct Naming<'a> {
    pub alloc: Global,
    pub names: &'a Table,
}

#[derive(Drop)]
pub struct BodyList {
    pub all: Items<Option<Items<Part>>>,
}

impl<'a> Step<Naming<'a>, NamedType> for BodyList {
    ghost steps = { λ naming. body_step naming.names.now };

    fn step(&mut self, naming: &Naming<'a>, given: &NamedType) -> Result<(), Fault> {
        let body = body_of(naming.alloc, naming.names, &given.ty)?;
        self.all.push(body)?;
        Ok(())
    }
}

/// The definitions in order of text.
#[tactic(auto, unfolding(crate::specs::Named::bodies_of))]
fn bodies_of(
    alloc: Global,
    names: &Table,
    given: &[NamedType],
) -> Result<Items<Option<Items<Part>>>, Fault>
    ensures { Gives (λ bodies. bodies) result (bodies_of names.now given.now) }
{
    let mut list = BodyList {
        all: Items::new(alloc),
    };
    walk(&mut list, &Naming { alloc, names }, given)?;
    Ok(list.all)
}

/// The named types of a tree, in any order; refused where a name is defined twice, isn't defined, or is that of a type that
/// holds itself.
pub fn types_of(alloc: Global, given: &[NamedType]) -> Result<Types, Fault>
    ensures { TypesAnswer given.now result }
{
    let names = names_of(alloc, given)?;
    let bodies = bodies_of(alloc, &names, given)?;
    let entries = known_types(alloc, bodies.as_slice())?;
    Ok(Types {
        names,
        bodies,
        entries,
    })
}

//! The globals of a tree.
ghost use Rattle.std.specs.Prelude.{◌≡◌, ◌+◌, ℕ, Ok};
ghost use Rattle.ir_types.specs.Walk.{Gives};
ghost use Rattle.ir_resolve.specs.Globals.{small_align, align_of, align_step, small_aligns, global, global_step, few_globals, globals_of, global_name, global_names};

use crate::values::{Scope, init_of};
use ir_core::program::{Global, What};
use ir_grammar::type_tree::Align;
use ir_types::{Fault, Named, Step, Target, bytes_of, memory, natural, walk};
use sqlite_items::Items;
use std::alloc::Global as Alloc;

fn small_align(left: usize, number: Option<u128>) -> Result<u128, Fault>
    ensures { Gives (λ n. n) result (small_align left number) }
{
    match number {
        Some(number) => {
            if number <= 16 {
                Ok(number)
            } else {
                Err(Fault::LeftOut(left))
            }
        }
        None => Err(Fault::LeftOut(left)),
    }
}

/// An alignment of at most 16.
fn align_of(given: &Align) -> Result<u128, Fault>
    ensures { Gives (λ n. n) result (align_of given.now) }
{
    if given.number.is_negative {
        return Err(Fault::Syntax(given.number.left));
    }
    small_align(given.left, natural(given.number.digits.as_slice()))
}

/// The last alignment.
#[derive(Clone, Copy, Drop)]
pub struct AlignList {
    pub last: u128,
}

impl Step<(), Align> for AlignList {
    ghost steps = { λ _. align_step };

    fn step(&mut self, _: &(), given: &Align) -> Result<(), Fault> {
        self.last = align_of(given)?;
        Ok(())
    }
}

#[tactic(auto, unfolding(crate::specs::Globals::small_aligns))]
fn small_aligns(given: &[Align]) -> Result<AlignList, Fault>
    ensures { Gives (λ list. list) result (small_aligns given.now) }
{
    let mut list = AlignList { last: 0 };
    walk(&mut list, &(), given)?;
    Ok(list)
}

/// A global: its name, its type and its initial value.
#[tactic(auto, unfolding(crate::specs::Globals::global))]
fn global(scope: &Scope<'_>, given: &ir_tree::Global) -> Result<Global, Fault>
    ensures { Gives (λ one. one) result (global scope.now.types.now scope.now.symbols.now given.now) }
{
    let name = bytes_of(scope.alloc, &given.name)?;
    let ty = memory(scope.alloc, scope.types, given.ty.as_slice())?;
    let init = init_of(scope, &ty, given.init.as_slice())?;
    small_aligns(given.aligns.as_slice())?;
    Ok(Global { name, ty, init })
}

#[derive(Drop)]
pub struct GlobalList {
    pub all: Items<Global>,
}

impl<'a> Step<Scope<'a>, ir_tree::Global> for GlobalList {
    ghost steps = { λ scope. global_step scope.types.now scope.symbols.now };

    fn step(&mut self, scope: &Scope<'a>, given: &ir_tree::Global) -> Result<(), Fault> {
        let one = global(scope, given)?;
        self.all.push(one)?;
        Ok(())
    }
}

fn few_globals(count: usize) -> Result<(), Fault>
    ensures { Gives (λ _. tt) result (few_globals count) }
{
    if count <= 4096 {
        Ok(())
    } else {
        Err(Fault::Limit(What::Globals, 4097))
    }
}

/// The globals in order of text: at most 4,096.
#[tactic(auto, unfolding(crate::specs::Globals::globals_of))]
pub fn globals_of(scope: &Scope<'_>, given: &[ir_tree::Global]) -> Result<Items<Global>, Fault>
    ensures { Gives (λ all. all) result (globals_of scope.now.types.now scope.now.symbols.now given.now) }
{
    few_globals(given.len())?;
    let mut list = GlobalList {
        all: Items::new(scope.alloc),
    };
    walk(&mut list, scope, given)?;
    Ok(list.all)
}

/// The names of globals so far, and how many there are.
#[derive(Drop)]
pub struct GlobalNames {
    pub named: Named,
    pub count: u32,
}

impl Step<Alloc, ir_tree::Global> for GlobalNames {
    ghost steps = { λ alloc. global_name };

    #[tactic(auto, unfolding(crate::specs::Globals::global_name))]
    fn step(&mut self, alloc: &Alloc, given: &ir_tree::Global) -> Result<(), Fault> {
        let bytes = bytes_of(*alloc, &given.name)?;
        let target = Target::Global(self.count);
        if !self.named.define(*alloc, bytes.as_slice(), target)? {
            return Err(Fault::Name(given.name.left));
        }
        match self.count.checked_add(1) {
            Some(count) => self.count = count,
            None => return Err(Fault::NoMemory),
        }
        Ok(())
    }
}

/// The names of globals, each with its number in order of text; one that is defined twice is refused.
#[tactic(auto, unfolding(crate::specs::Globals::global_names))]
pub fn global_names(alloc: Alloc, given: &[ir_tree::Global]) -> Result<Named, Fault>
    ensures { Gives (λ symbols. symbols) result (global_names given.now) }
{
    let mut all = GlobalNames {
        named: Named::new(alloc),
        count: 0,
    };
    walk(&mut all, &alloc, given)?;
    Ok(all.named)
}

//! The type of memory that parts say.
ghost use Rattle.std.specs.Prelude.{◌≡◌, ◌++◌, ◌∷◌, [], reverse, Ok};
ghost use Rattle.ir_types.specs.Walk.{Gives};
ghost use Rattle.ir_types.specs.Build.{completed, closed, begun, plain_part, build_step, place, place_with, place_named, built};

use crate::fault::Fault;
use crate::parts::Part;
use crate::resolve::definition;
use crate::summary::{Entry, known_of};
use ir_core::types::MemTy;
use sqlite_items::{Boxed, Items};
use std::alloc::Global;

/// A type whose end hasn't come: an array waits for its element, a struct has the fields so far.
#[derive(Drop)]
pub enum OpenType {
    Array(u64),
    Struct(Items<MemTy>, bool),
}

/// A type that is made part by part: the open types, the innermost one last, or the whole.
#[derive(Drop)]
pub struct Builder {
    pub outer: Items<OpenType>,
    pub done: Option<MemTy>,
}

/// What named types are, where parts are placed.
#[derive(Clone, Copy, Drop)]
pub struct Known<'a> {
    pub alloc: Global,
    pub bodies: &'a [Option<Items<Part>>],
    pub entries: &'a [Entry],
}

impl Builder {
    /// A struct with one more field.
    fn reopen(&mut self, given: Items<MemTy>, packed: bool, ty: MemTy) -> Result<(), Fault>
        ensures { Gives (λ _. self.new) result (Ok (begun self.old.outer (OpenType.Struct (given ++ ty ∷ []) packed))) }
    {
        let mut fields = given;
        fields.push(ty)?;
        self.outer.push(OpenType::Struct(fields, packed))?;
        self.done = None;
        Ok(())
    }

    /// A type that is whole, in the open ones around it.
    fn complete(&mut self, alloc: Global, given: MemTy) -> Result<(), Fault>
        ensures { Gives (λ _. self.new) result (Ok (completed given (reverse self.old.outer))) }
    {
        let mut ty = given;
        while let Some(open) = self.outer.pop() {
            match open {
                OpenType::Array(count) => {
                    ty = MemTy::Array(count, Boxed::new(alloc, ty)?);
                }
                OpenType::Struct(fields, packed) => return self.reopen(fields, packed, ty),
            }
        }
        self.done = Some(ty);
        Ok(())
    }

    fn begin(&mut self, one: OpenType) -> Result<(), Fault>
        ensures { Gives (λ _. self.new) result (Ok (begun self.old.outer one)) }
    {
        self.outer.push(one)?;
        self.done = None;
        Ok(())
    }

    fn close(&mut self, alloc: Global) -> Result<(), Fault>
        ensures { Gives (λ _. self.new) result (closed (reverse self.old.outer)) }
    {
        match self.outer.pop() {
            Some(OpenType::Struct(fields, packed)) => {
                self.complete(alloc, MemTy::Struct(fields, packed))
            }
            _ => Err(Fault::Syntax(0)),
        }
    }

    #[tactic(auto, unfolding(crate::specs::Build::plain_part))]
    fn plain_part(&mut self, alloc: Global, part: Part) -> Result<(), Fault>
        ensures { Gives (λ _. self.new) result (plain_part self.old.outer part) }
    {
        match part {
            Part::Int(width, _) => self.complete(alloc, MemTy::Int(width)),
            Part::Ptr => self.complete(alloc, MemTy::Ptr),
            Part::Array(count) => self.begin(OpenType::Array(count)),
            Part::Struct => self.begin(OpenType::Struct(Items::new(alloc), false)),
            Part::Packed => self.begin(OpenType::Struct(Items::new(alloc), true)),
            Part::Close => self.close(alloc),
            Part::Named(_, left) => Err(Fault::Name(left)),
        }
    }

    #[tactic(auto, unfolding(crate::specs::Build::build_step))]
    fn step(&mut self, alloc: Global, part: Part) -> Result<(), Fault>
        ensures { Gives (λ _. self.new) result (build_step self.old part) }
    {
        if self.done.is_some() {
            return Err(Fault::Syntax(0));
        }
        self.plain_part(alloc, part)
    }

    /// Parts, where names stand inside one another at most so deep.
    #[cycle(placing)]
    fn place(&mut self, known: &Known<'_>, depth: u64, parts: &[Part]) -> Result<(), Fault>
        ensures { Gives (λ _. self.new) result (place depth known.now.bodies.now known.now.entries.now self.old parts.now) }
    {
        for part in parts {
            self.place_part(known, depth, part)?;
        }
        Ok(())
    }

    #[cycle(placing)]
    fn place_part(&mut self, known: &Known<'_>, depth: u64, part: &Part) -> Result<(), Fault>
        ensures { Gives (λ _. self.new) result (place_with (place_named depth known.now.bodies.now known.now.entries.now) self.old part.now) }
    {
        match *part {
            Part::Named(number, left) => self.place_named(known, depth, number, left),
            plain => self.step(known.alloc, plain),
        }
    }

    #[cycle(placing)]
    #[tactic(auto, unfolding(crate::specs::Build::place_named))]
    fn place_named(
        &mut self,
        known: &Known<'_>,
        depth: u64,
        number: u32,
        left: usize,
    ) -> Result<(), Fault>
        ensures { Gives (λ _. self.new) result (place_named depth known.now.bodies.now known.now.entries.now self.old number left) }
    {
        if depth == 0 {
            return Err(Fault::Name(left));
        }
        let (_, root) = known_of(left, known.entries.get(number as usize).copied())?;
        match definition(known.bodies, root as usize) {
            Some(body) => self.place(known, depth - 1, body),
            None => Err(Fault::Name(left)),
        }
    }
}

/// The type of memory that parts say.
#[tactic(auto, unfolding(crate::specs::Build::built))]
pub fn built(known: &Known<'_>, depth: u64, parts: &[Part]) -> Result<MemTy, Fault>
    ensures { Gives (λ ty. ty) result (built depth known.now.bodies.now known.now.entries.now parts.now) }
{
    let mut builder = Builder {
        outer: Items::new(known.alloc),
        done: None,
    };
    builder.place(known, depth, parts)?;
    let Builder { outer: _, done } = builder;
    match done {
        Some(ty) => Ok(ty),
        None => Err(Fault::Syntax(0)),
    }
}

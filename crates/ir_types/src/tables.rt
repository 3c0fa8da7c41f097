ghost use Rattle.std.specs.Prelude.{◌≡◌, ℕ, List, map, [], IfOk};
ghost use Rattle.ir_types.specs.Tables.{target_named, target_numbered, put_named, put_numbered};
ghost use Rattle.ir_types.specs.declared.tables.Target.{Target};

use indexmap::IndexMap;
use std::alloc::{AllocError, Global};
use std::marker::Model;

/// What a name stands for, by its number in order of text.
#[derive(Clone, Copy, PartialEq, Eq, Drop)]
pub enum Target {
    Value(u32),
    Block(u32),
    Global(u32),
    Function(u32),
    Type(u32),
}

/// Names by their bytes, in order of definition, each with what it stands for.
#[derive(Drop)]
pub struct Named {
    targets: IndexMap<Vec<u8>, Target>,
}

impl Model for Named {
    ghost Value = { List (List ℕ × Target) };

    ghost view = { λ table. map (λ e. (e.0.items, e.1)) table.targets.entries };
}

impl Named {
    pub fn new(alloc: Global) -> Named
        ensures { result ≡ [] }
    {
        Named {
            targets: IndexMap::new(alloc),
        }
    }

    #[tactic(auto, using(crate::proofs::Lookups::lookup_by))]
    pub fn find(&self, name: &[u8]) -> Option<Target>
        ensures { result ≡ target_named name.now self.now }
    {
        self.targets.get(name).copied()
    }

    /// Adds a name where it is new; answers whether it is.
    #[tactic(auto, using(crate::proofs::Lookups::lookup_by, crate::proofs::Lookups::new_last, crate::proofs::Lookups::map_last))]
    pub fn define(&mut self, alloc: Global, name: &[u8], target: Target) -> Result<bool, AllocError>
        ensures { IfOk result (λ fresh. (fresh, self.new) ≡ put_named name.now target self.old) }
    {
        if self.find(name).is_some() {
            return Ok(false);
        }
        let key = Vec::from_slice(alloc, name)?;
        self.targets.insert(key, target)?;
        Ok(true)
    }
}

/// Names that are numbers, in order of definition, each with what it stands for.
#[derive(Drop)]
pub struct Numbered {
    targets: IndexMap<u64, Target>,
}

impl Model for Numbered {
    ghost Value = { List (ℕ × Target) };

    ghost view = { λ table. table.targets.entries };
}

impl Numbered {
    pub fn new(alloc: Global) -> Numbered
        ensures { result ≡ [] }
    {
        Numbered {
            targets: IndexMap::new(alloc),
        }
    }

    pub fn find(&self, number: u64) -> Option<Target>
        ensures { result ≡ target_numbered number self.now }
    {
        self.targets.get(&number).copied()
    }

    /// Adds a number where it is new; answers whether it is.
    #[tactic(auto, using(crate::proofs::Lookups::new_last))]
    pub fn define(&mut self, number: u64, target: Target) -> Result<bool, AllocError>
        ensures { IfOk result (λ fresh. (fresh, self.new) ≡ put_numbered number target self.old) }
    {
        if self.find(number).is_some() {
            return Ok(false);
        }
        self.targets.insert(number, target)?;
        Ok(true)
    }
}

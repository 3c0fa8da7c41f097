// The literals that registers hold since a block began.
ghost use Rattle.std.specs.Prelude.{◌≡◌, ◌++◌, [], ◌∷◌, None, OnOk};
ghost use Rattle.std.specs.Map.{lookup};
ghost use Rattle.generic_code.specs.Literals.{same_literal};

use indexmap::IndexMap;
use std::alloc::{AllocError, Global};
use std::marker::Model;

/// The literals that registers hold, in order of first use: the width of a literal's type, 0 for a pointer, and its number, with the
/// register. A literal is found in one step, however many there are.
#[derive(Drop)]
pub struct Literals {
    registers: IndexMap<(u32, u128), u32>,
}

impl Model for Literals {
    ghost use Rattle.std.specs.Prelude.{ℕ, List};
    ghost use Rattle.generic_code.specs.Literals.{Literal};

    ghost Value = { List (Literal × ℕ) };

    ghost view = { λ literals. literals.registers.entries };
}

impl Literals {
    /// No register holds a literal.
    pub fn new(alloc: Global) -> Literals
        ensures { result ≡ [] }
    {
        Literals {
            registers: IndexMap::new(alloc),
        }
    }

    /// The register that holds a literal.
    pub fn find(&self, width: u32, number: u128) -> Option<u32>
        ensures { result ≡ lookup (same_literal (width, number)) self.now }
    {
        self.registers.get(&(width, number)).copied()
    }

    /// Notes the register of a literal that none held.
    #[tactic(auto, using(crate::proofs::Maps::new_last))]
    pub fn hold(&mut self, width: u32, number: u128, register: u32) -> Result<(), AllocError>
        requires { lookup (same_literal (width, number)) self.old ≡ None }
        ensures { OnOk result (self.new ≡ self.old ++ ((width, number), register) ∷ []) }
    {
        self.registers.insert((width, number), register)?;
        Ok(())
    }
}

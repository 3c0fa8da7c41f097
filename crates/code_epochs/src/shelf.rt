//! The versions of a code region, their ranges and the current version of each symbol.
ghost use Rattle.std.specs.Prelude.{◌≡◌, ℕ, ◌+◌, ◌*◌, ◌-◌, ◌/◌, ◌<◌, ◌≤◌, ◌++◌, ◌∷◌, [], List, length, map, slice_set, slice_index, replicate, IfOk, OnOk, IfSome, IfNone, MatchOption, vec_len, vec_capacity, true, false};
ghost use Rattle.code_epochs.specs.declared.state.VersionState.{VersionState};
ghost use Rattle.code_epochs.specs.declared.state.Status.TheVariants.{Linked, Unlinked, Pending, GivenUp};
ghost use Rattle.code_epochs.specs.Sound.{At, Stays, IsBase, start_of};
ghost use Rattle.code_epochs.specs.Steps.{unlinked, with_status};
ghost use Rattle.code_space.specs.Space.{IsFree, HasRoom, count_free};
ghost use Rattle.code_epochs.specs.Shelf.{AreHeld, AreApart, AreCurrent, AreNumbers, IsApart, NoneFree, is_linked, count_staying};

use crate::state::{Status, VersionState};
use crate::steps::unlink_all;
use code_space::CodeSpace;
use rj_num::NoMemory;
use std::alloc::Global;

#[derive(Drop)]
pub struct Shelf {
    pub versions: Vec<VersionState>,
    pub current: Vec<u32>,
    pub space: CodeSpace,
    ghost size: { space.size ≤ 4194304 },
    ghost few: { length versions.items ≤ 1048576 },
    ghost held: { AreHeld versions.items space },
    ghost apart: { AreApart versions.items },
    ghost current_are: { AreCurrent versions.items current.items },
    ghost numbers_are: { AreNumbers versions.items current.items },
    ghost room: { count_staying versions.items ≤ space.spare },
}

// Makes room for one more version.
fn reserve_one(versions: &mut Vec<VersionState>) -> Result<(), NoMemory>
    ensures ok { OnOk result (vec_len versions.new < vec_capacity versions.new) }
    ensures same { (versions.new.items ≡ versions.old.items) × (vec_len versions.new ≡ vec_len versions.old) }
{
    versions.reserve(1).map_err(|_| NoMemory)
}

impl Shelf {
    /// A shelf without versions, for so many functions and words.
    pub fn new(alloc: Global, functions: u32, words: u32) -> Result<Shelf, NoMemory>
        requires { words ≤ 4194304 }
        ensures none { IfOk result (λ s. (s.versions.items ≡ []) × (s.current.items ≡ replicate functions 0)) }
        ensures space { IfOk result (λ s. (s.space.size ≡ words) × (count_free s.space.ranges ≡ words)) }
        ensures free { IfOk result (λ s. (w : ℕ) → w < words → IsFree s.space.ranges w) }
    {
        let current = vec![in alloc; 0u32; functions as usize].map_err(|_| NoMemory)?;
        let space = CodeSpace::new(alloc, words)?;
        Ok(Shelf {
            versions: Vec::new(alloc),
            current,
            space,
        })
    }

    /// Makes room for one more version, and for giving up each that there will be.
    pub fn reserve(&mut self, alloc: Global) -> Result<(), NoMemory>
        requires { length self.old.versions.items < 1048576 }
        ensures ok { OnOk result ((vec_len self.new.versions < vec_capacity self.new.versions) × (count_staying self.old.versions.items < self.new.space.spare)) }
        ensures same { (self.new.versions.items ≡ self.old.versions.items) × (self.new.current ≡ self.old.current) }
        ensures space { (self.new.space.size ≡ self.old.space.size) × (self.new.space.ranges ≡ self.old.space.ranges) }
    {
        reserve_one(&mut self.versions)?;
        self.space.reserve(alloc, self.versions.len() as u32 + 1)?;
        Ok(())
    }

    /// Takes a range for a version of so many words, with its header.
    pub fn take(&mut self, words: u32) -> Option<u32>
        requires { words < 4294967295 }
        ensures same { (self.new.versions ≡ self.old.versions) × (self.new.current ≡ self.old.current) × (self.new.space.size ≡ self.old.space.size) × (self.old.space.spare ≤ self.new.space.spare) }
        ensures taken { MatchOption result ((self.new ≡ self.old) × ((b : ℕ) → ¬ HasRoom self.old.space.ranges b (words + 1))) (λ b. (b + words < self.old.space.size) × NoneFree self.new.space b words × IsApart self.old.versions.items b words × (count_free self.new.space.ranges + words + 1 ≡ count_free self.old.space.ranges)) }
    {
        self.space.take(words + 1)
    }

    /// Links a version in a range that was taken for it.
    pub fn link(&mut self, symbol: u32, level: u8, place: u32, words: u32)
        requires symbol { symbol < length self.old.current.items }
        requires room { (vec_len self.old.versions < vec_capacity self.old.versions) × (length self.old.versions.items < 1048576) × (count_staying self.old.versions.items < self.old.space.spare) }
        requires range { (place + words < self.old.space.size) × NoneFree self.old.space place words × IsApart self.old.versions.items place words }
        ensures versions { self.new.versions.items ≡ map (unlinked symbol) self.old.versions.items ++ record { number = length self.old.versions.items; symbol = symbol; level = level; base = 16777220 + 4 * place; words = words; status = Linked } ∷ [] }
        ensures current { self.new.current.items ≡ slice_set self.old.current.items symbol (length self.old.versions.items + 1) }
        ensures space { self.new.space ≡ self.old.space }
    {
        let number = self.versions.len() as u32;
        unlink_all(self.versions.as_mut_slice(), symbol);
        self.versions.push_reserved(VersionState {
            number,
            symbol,
            level,
            base: 0x100_0004 + 4 * u64::from(place),
            words,
            status: Status::Linked,
        });
        self.current[symbol as usize] = number + 1;
    }

    /// The version with this number isn't linked any more, and has this status.
    pub fn pend(&mut self, number: u32, tag: u64, passed: u32)
        requires { (v : VersionState) × At self.old.versions.items number v × Stays v.status × (is_linked v.status ≡ false) }
        ensures versions { (v : VersionState) → At self.old.versions.items number v → self.new.versions.items ≡ slice_set self.old.versions.items number (with_status v (Pending tag passed)) }
        ensures same { (self.new.current ≡ self.old.current) × (self.new.space ≡ self.old.space) }
    {
        self.versions[number as usize].status = Status::Pending { tag, passed };
    }

    /// Gives a version up, whose words are free then.
    pub fn give_up(&mut self, number: u32)
        requires { (v : VersionState) × At self.old.versions.items number v × Stays v.status × (is_linked v.status ≡ false) }
        ensures versions { (v : VersionState) → At self.old.versions.items number v → self.new.versions.items ≡ slice_set self.old.versions.items number (with_status v GivenUp) }
        ensures same { (self.new.current ≡ self.old.current) × (self.new.space.size ≡ self.old.space.size) }
        ensures count { (v : VersionState) → At self.old.versions.items number v → count_free self.new.space.ranges ≡ count_free self.old.space.ranges + (v.words + 1) }
    {
        let version = self.versions[number as usize];
        let place = ((version.base - 0x100_0004) / 4) as u32;
        self.versions[number as usize].status = Status::GivenUp;
        self.space.give(place, version.words + 1);
    }
}

//! The keeper's steps.
ghost use Rattle.std.specs.Prelude.{◌≡◌, ◌<◌, ℕ, length, Some, None};
ghost use Rattle.code_epochs.specs.declared.state.VersionState.{VersionState};
ghost use Rattle.code_epochs.specs.Sound.{At};
ghost use Rattle.jit_core.specs.declared.event.Event.TheVariants as event;
ghost use Rattle.jit_core.specs.declared.publishing.Publishing.TheVariants.{Storing, Raising};
ghost use Rattle.jit_core.specs.Events.{lay_draft, raise_for, clear_of, look_at};
ghost use Rattle.jit_core.specs.Keeping.{IsPassed, IsOpen};
ghost use Rattle.jit_core.specs.Cores.{IsKept, IsAnswer, IsSameCore, StandsMore, Does, publishing_as};

use crate::event::Stepped;
use crate::laying::Laying;
use crate::publishing::{Pair, Publishing};
use crate::search::{first_passed, linked_version, next_look};
use crate::state_machine::Core;
use code_epochs::{clear_header, look, raise_epoch};

impl Core<'_> {
    /// The keeper makes its next step: for the version that is being published, else for one that was replaced.
    pub fn step_keeper(&mut self) -> Stepped
        requires kept { IsKept self.old }
        ensures kept { IsKept self.new }
        ensures same { IsSameCore self.old self.new }
        ensures answer { IsAnswer self.old event.Keeper result self.new }
        ensures stands { StandsMore self.old self.new (record { event = event.Keeper; answer = result }) }
    {
        match self.publishing.take() {
            Some(Publishing::Storing(laying)) => {
                self.lay(laying);
                Stepped::Moved
            }
            Some(Publishing::Raising(number)) => {
                self.raise(number);
                Stepped::Moved
            }
            None => self.reclaim(),
        }
    }

    // Stores the next word of the version, or links it where all are stored.
    fn lay(&mut self, mut laying: Laying)
        requires none { self.old.publishing ≡ None }
        requires kept { IsKept (publishing_as self.old (Some (Storing laying))) }
        ensures kept { IsKept self.new }
        ensures same { IsSameCore self.old self.new }
        ensures does { Does (publishing_as self.old (Some (Storing laying))) lay_draft self.new }
    {
        if laying.is_complete() {
            self.link(&laying);
            return;
        }
        laying.store_next(&mut self.state);
        self.publishing = Some(Publishing::Storing(laying));
    }

    // Links the version, all of which is stored.
    fn link(&mut self, laying: &Laying)
        requires none { self.old.publishing ≡ None }
        requires kept { IsKept (publishing_as self.old (Some (Storing laying.now))) }
        requires complete { length laying.now.version.words < laying.now.stored }
        ensures kept { IsKept self.new }
        ensures same { IsSameCore self.old self.new }
        ensures does { Does (publishing_as self.old (Some (Storing laying.now))) lay_draft self.new }
    {
        let symbol = laying.version.symbol;
        let Some(number) = linked_version(self.state.versions.as_slice(), symbol) else {
            unreachable!()
        };
        laying.link(&mut self.state);
        self.publishing = Some(Publishing::Raising(number));
    }

    // Raises the epoch for a version that was replaced.
    fn raise(&mut self, number: u32)
        requires none { self.old.publishing ≡ None }
        requires kept { IsKept (publishing_as self.old (Some (Raising number))) }
        ensures kept { IsKept self.new }
        ensures same { IsSameCore self.old self.new }
        ensures does { Does (publishing_as self.old (Some (Raising number))) (raise_for number) self.new }
    {
        raise_epoch(&mut self.state, number);
    }

    // A step for a version that was replaced: gives the first up that all harts have passed, or else looks at the next hart.
    fn reclaim(&mut self) -> Stepped
        requires none { self.old.publishing ≡ None }
        requires kept { IsKept self.old }
        ensures kept { IsKept self.new }
        ensures same { IsSameCore self.old self.new }
        ensures answer { IsAnswer self.old event.Keeper result self.new }
        ensures stands { StandsMore self.old self.new (record { event = event.Keeper; answer = result }) }
    {
        let harts = self.state.harts.len() as u32;
        if let Some(number) = first_passed(self.state.versions.as_slice(), harts) {
            self.clear(number);
            return Stepped::Moved;
        }
        match next_look(self.state.versions.as_slice(), harts, self.looked) {
            Some(pair) => {
                self.look_at(pair);
                Stepped::Moved
            }
            None => Stepped::Nothing,
        }
    }

    // Clears the header of a version that all harts have passed, and then gives its range back.
    fn clear(&mut self, number: u32)
        requires none { self.old.publishing ≡ None }
        requires kept { IsKept self.old }
        requires passed { (v : VersionState) × At self.old.state.versions.items number v × IsPassed (length self.old.state.harts.items) v }
        ensures kept { IsKept self.new }
        ensures same { IsSameCore self.old self.new }
        ensures does { Does self.old (clear_of number) self.new }
    {
        let version = self.state.versions[number as usize];
        clear_header(&mut self.state, number);
        let place = ((version.base - 0x100_0004) / 4) as u32;
        self.space.give(place, version.words + 1);
    }

    // Looks at the word of a hart for a pending version.
    fn look_at(&mut self, pair: Pair)
        requires none { self.old.publishing ≡ None }
        requires kept { IsKept self.old }
        requires open { IsOpen (length self.old.state.harts.items) self.old.state.versions.items pair.version pair.hart }
        ensures kept { IsKept self.new }
        ensures same { IsSameCore self.old self.new }
        ensures does { Does self.old (look_at pair.version pair.hart) self.new }
    {
        look(&mut self.state, pair.version, pair.hart);
        self.looked = Some(pair);
    }
}

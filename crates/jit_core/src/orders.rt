//! Orders of versions.
ghost use Rattle.std.specs.Prelude.{◌≡◌, ◌<◌, ◌+◌, ℕ, length, None, vec_len, vec_capacity};
ghost use Rattle.rv_play.specs.Good.{Good};
ghost use Rattle.code_space.specs.Space.{HasRoom};
ghost use Rattle.code_epochs.specs.Shelf.{count_staying};
ghost use Rattle.jit_core.specs.declared.event.Event.TheVariants as event;
ghost use Rattle.jit_core.specs.declared.event.Stepped.TheVariants as stepped;
ghost use Rattle.jit_core.specs.Cores.{IsKept, IsAnswer, IsSameCore, StandsMore, meaning_of};

use crate::event::Stepped;
use crate::laying::Laying;
use crate::publishing::Publishing;
use crate::state_machine::Core;
use code_epochs::{PublishRefusal, reserve_version};
use rv_play::version::Version;
use std::alloc::Global;

const MOST_VERSIONS: usize = 1_048_576;

impl Core<'_> {
    /// Takes the first free range for a version that is to be published, unless another is being published.
    pub fn order(&mut self, alloc: Global, version: Version) -> Stepped
        requires kept { IsKept self.old }
        requires symbol { version.symbol < (meaning_of self.old).functions }
        requires good { Good (meaning_of self.old) version.symbol version.words }
        ensures kept { IsKept self.new }
        ensures same { IsSameCore self.old self.new }
        ensures answer { IsAnswer self.old (event.Order version) result self.new }
        ensures stands { StandsMore self.old self.new (record { event = event.Order version; answer = result }) }
    {
        if self.publishing.is_some() {
            return Stepped::Busy(version);
        }
        let count = self.state.versions.len();
        if count >= MOST_VERSIONS {
            let refusal = PublishRefusal::ManyVersions {
                count: count as u32,
            };
            return Stepped::Refused(version, refusal);
        }
        if reserve_version(alloc, &mut self.state).is_err() {
            return Stepped::Refused(version, PublishRefusal::NoMemory);
        }
        if self.space.reserve(alloc, count as u32 + 1).is_err() {
            return Stepped::Refused(version, PublishRefusal::NoMemory);
        }
        let largest = self.space.largest();
        let needed = version.words.len() as u64 + 1;
        if needed > u64::from(largest) {
            let refusal = PublishRefusal::NoRoom { needed, largest };
            return Stepped::Refused(version, refusal);
        }
        self.take_range(version);
        Stepped::Taken
    }

    // Gives the version the first range that is free.
    fn take_range(&mut self, version: Version)
        requires kept { IsKept self.old }
        requires none { self.old.publishing ≡ None }
        requires symbol { version.symbol < (meaning_of self.old).functions }
        requires good { Good (meaning_of self.old) version.symbol version.words }
        requires memory { (vec_len self.old.state.versions < vec_capacity self.old.state.versions) × (count_staying self.old.state.versions.items < self.old.space.spare) }
        requires count { length self.old.state.versions.items < 1048576 }
        requires fits { (length version.words + 1 < 4294967296) × ((b : ℕ) × HasRoom self.old.space.ranges b (length version.words + 1)) }
        ensures kept { IsKept self.new }
        ensures same { IsSameCore self.old self.new }
        ensures answer { IsAnswer self.old (event.Order version) stepped.Taken self.new }
        ensures stands { StandsMore self.old self.new (record { event = event.Order version; answer = stepped.Taken }) }
    {
        let needed = version.words.len() as u32 + 1;
        let Some(place) = self.space.take(needed) else {
            unreachable!()
        };
        let base = 0x100_0004 + 4 * u64::from(place);
        self.publishing = Some(Publishing::Storing(Laying {
            version,
            base,
            stored: 0,
        }));
    }
}

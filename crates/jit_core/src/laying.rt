//! The version that is being stored, and the keeper's steps for it.
ghost use Rattle.std.specs.Prelude.{◌≡◌, ◌<◌, ◌≤◌, ◌+◌, length, nat_lt};
ghost use Rattle.jit_core.specs.Laying.{CanLay, Stores, Links};
ghost use Rattle.jit_core.specs.Seated.{IsSameSize};

use code_epochs::{CodeState, store_word, swap_cell};
use rv_play::version::Version;

/// A version that has a range from its base on, and how many of its words are stored there, its header with them.
#[derive(Drop)]
pub struct Laying {
    pub version: Version,
    pub base: u64,
    pub stored: u32,
}

impl Laying {
    /// Whether the header and all words are stored.
    pub fn is_complete(&self) -> bool
        ensures { result ≡ nat_lt (length self.now.version.words) self.now.stored }
    {
        self.stored as usize > self.version.words.len()
    }

    /// Stores the header, or the next word.
    pub fn store_next(&mut self, state: &mut CodeState)
        requires fits { CanLay self.old state.old }
        requires more { self.old.stored ≤ length self.old.version.words }
        ensures stores { Stores state.old state.new self.old self.new }
        ensures version { (self.new.version ≡ self.old.version) × (self.new.base ≡ self.old.base) × (self.new.stored ≡ self.old.stored + 1) }
        ensures fits { CanLay self.new state.new }
        ensures versions { state.new.versions ≡ state.old.versions }
        ensures size { IsSameSize state.old state.new }
    {
        let start = ((self.base - 0x100_0004) / 4) as u32;
        store_word(state, &self.version, self.base, start + self.stored);
        self.stored += 1;
    }

    /// Swaps the cell of the symbol, once the header and all words are stored: the version is linked.
    pub fn link(&self, state: &mut CodeState)
        requires fits { CanLay self.now state.old }
        requires complete { length self.now.version.words < self.now.stored }
        ensures links { Links state.old state.new self.now }
        ensures count { length state.new.versions.items ≡ length state.old.versions.items + 1 }
        ensures size { IsSameSize state.old state.new }
    {
        swap_cell(state, &self.version, self.base);
    }
}

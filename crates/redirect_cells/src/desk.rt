//! The keeper's desk: its seat of the table and its shelf of versions, which agree.
ghost use Rattle.std.specs.Prelude.{◌≡◌, ◌≢◌, ◌⊎◌, ◌+◌, ◌*◌, ◌-◌, ◌/◌, ◌<◌, ◌≤◌, [], ◌∷◌, ◌++◌, map, length, slice_set, vec_len, vec_capacity, None, IfOk, OnOk, IfErr, IsTrue, ℕ, List, true, false, MatchOption, replicate};
ghost use Rattle.code_epochs.specs.declared.state.Status.TheVariants.{Linked, Unlinked, Pending, GivenUp};
ghost use Rattle.code_epochs.specs.declared.state.VersionState.{VersionState};
ghost use Rattle.rv_play.specs.Good.{Good};
ghost use Rattle.code_epochs.specs.Sound.{At, HasPassed, AreMade, start_of};
ghost use Rattle.code_epochs.specs.Steps.{unlinked, linked_of, with_status, restatus};
ghost use Rattle.code_space.specs.Space.{HasRoom, IsFree, count_free};
ghost use Rattle.code_epochs.specs.Shelf.{NoneFree, IsApart, count_staying};
ghost use Rattle.redirect_cells.specs.Kept.{meaning_of, book_of, part_of, draft_at, joined_view, split_view, new_hart, word_in, JoinedBacked};
ghost use Rattle.redirect_cells.specs.Keeping.{LinkedAreCurrent, AreSameHarts};

use crate::hart_seat::HartSeat;
use crate::keeper_seat::KeeperSeat;
use code_epochs::{PublishRefusal, Shelf, Status, VersionState, marks};
use rj_num::NoMemory;
use rv_play::version::Version;
use std::alloc::Global;

const MOST_VERSIONS: usize = 1_048_576;

// This hart's mark is among these.
fn has_passed(passed: u32, hart: u32) -> bool
    requires { hart < 32 }
    ensures passed { result ≡ true → HasPassed passed hart }
    ensures behind { result ≡ false → ¬ HasPassed passed hart }
{
    (passed >> hart) % 2 == 1
}

// The first hart whose mark isn't among these.
fn first_behind(passed: u32, harts: u32) -> Option<u32>
    requires { harts ≤ 16 }
    ensures { MatchOption result ((h : ℕ) → h < harts → HasPassed passed h) (λ h. (h < harts) × ¬ HasPassed passed h) }
{
    for hart in 0..harts {
        if !has_passed(passed, hart) {
            return Some(hart);
        }
    }
    None
}

#[derive(Drop)]
pub struct Desk<'a> {
    pub(crate) seat: KeeperSeat<'a>,
    pub(crate) shelf: Shelf,
    ghost versions_are: { (book_of seat.seat.me.0).versions ≡ shelf.versions.items },
    ghost no_draft: { (book_of seat.seat.me.0).draft ≡ None },
    ghost size_is: { shelf.space.size ≡ seat.table.now.code_words },
    ghost functions_are: { length shelf.current.items ≡ seat.table.now.functions },
    ghost linked_are: { LinkedAreCurrent shelf.versions.items shelf.current.items },
}

impl<'a> Desk<'a> {
    ghost use Rattle.redirect_cells.specs.Keeping.{Published, IsSameShelf, IsCause, HasRange, IsUsed, IsLook, LookedAt, IsCurrent, AllCurrent, Settled, Collected, is_pending};

    /// The desk of a table without versions.
    pub fn new(alloc: Global, seat: KeeperSeat<'a>) -> Result<Desk<'a>, NoMemory>
        requires { ((book_of seat.seat.me.0).versions ≡ []) × ((book_of seat.seat.me.0).draft ≡ None) × (seat.table.now.code_words ≤ 4194304) }
        ensures empty { IfOk result (λ k. (k.seat ≡ seat.entry) × (k.shelf.versions.items ≡ []) × (k.shelf.current.items ≡ replicate seat.entry.table.now.functions 0)) }
        ensures free { IfOk result (λ k. ((w : ℕ) → w < seat.entry.table.now.code_words → IsFree k.shelf.space.ranges w) × (count_free k.shelf.space.ranges ≡ seat.entry.table.now.code_words)) }
    {
        let shelf = Shelf::new(alloc, seat.table.functions, seat.table.code_words)?;
        Ok(Desk { seat, shelf })
    }

    /// The linked version of a symbol.
    pub fn linked(&self, symbol: u32) -> VersionState
        requires exists { symbol < self.now.seat.table.now.functions }
        requires all { AllCurrent self.now.shelf.current.items }
        ensures { IsCurrent self.now.shelf symbol result }
    {
        let number = self.shelf.current[symbol as usize] - 1;
        self.shelf.versions[number as usize]
    }

    /// A seat for the next hart.
    pub fn seat(&mut self, number: u32) -> HartSeat<'a>
        requires next { (number ≡ (book_of self.old.seat.seat.me.0).seated) × (number < self.old.seat.table.now.harts) }
        requires all { AllCurrent self.old.shelf.current.items }
        ensures table { (self.new.seat.table ≡ self.old.seat.table) × (result.table ≡ self.old.seat.table) }
        ensures keeper { self.new.seat.seat.me.0 ≡ split_view self.old.seat.seat.me.0 }
        ensures hart { result.seat.me.0 ≡ new_hart self.old.seat.seat.me.0 }
        ensures shelf { self.new.shelf ≡ self.old.shelf }
    {
        self.seat.seat(number)
    }

    // Stores a version in a range that was taken for it, and swaps the cell of its symbol.
    pub(crate) fn add(&mut self, version: &Version, place: u32)
        requires good { Good (meaning_of self.old.seat.table.now.table.shared.key) version.now.symbol version.now.words }
        requires symbol { version.now.symbol < self.old.seat.table.now.functions }
        requires room { (vec_len self.old.shelf.versions < vec_capacity self.old.shelf.versions) × (length self.old.shelf.versions.items < 1048576) × (count_staying self.old.shelf.versions.items < self.old.shelf.space.spare) }
        requires range { (place + length version.now.words < self.old.shelf.space.size) × NoneFree self.old.shelf.space place (length version.now.words) × IsApart self.old.shelf.versions.items place (length version.now.words) }
        ensures table { self.new.seat.table ≡ self.old.seat.table }
        ensures versions { self.new.shelf.versions.items ≡ map (unlinked version.now.symbol) self.old.shelf.versions.items ++ linked_of (draft_at version.now place 1) (length self.old.shelf.versions.items) ∷ [] }
        ensures current { self.new.shelf.current.items ≡ slice_set self.old.shelf.current.items version.now.symbol (length self.old.shelf.versions.items + 1) }
        ensures space { self.new.shelf.space ≡ self.old.shelf.space }
        ensures harts { AreSameHarts (book_of self.old.seat.seat.me.0) (book_of self.new.seat.seat.me.0) }
    {
        let header = self.shelf.versions.len() as u64 + 1;
        let words = version.words.len() as u32;
        let base = 0x100_0004 + 4 * u64::from(place);
        self.seat.store_draft(place as usize, header, version);
        self.seat.swap_cell(version.symbol, base);
        self.shelf.link(version.symbol, version.level, place, words);
    }

    // Raises the epoch for a version that is unlinked.
    fn retire(&mut self, number: u32)
        requires { (v : VersionState) × At self.old.shelf.versions.items number v × (v.status ≡ Unlinked) }
        ensures table { self.new.seat.table ≡ self.old.seat.table }
        ensures versions { (v : VersionState) → At self.old.shelf.versions.items number v → (tag : ℕ) × (self.new.shelf.versions.items ≡ slice_set self.old.shelf.versions.items number (with_status v (Pending tag 0))) }
        ensures same { (self.new.shelf.current ≡ self.old.shelf.current) × (self.new.shelf.space ≡ self.old.shelf.space) }
        ensures harts { AreSameHarts (book_of self.old.seat.seat.me.0) (book_of self.new.seat.seat.me.0) }
    {
        let epoch = self.seat.raise_epoch(number);
        self.shelf.pend(number, epoch + 1, 0);
    }

    // Adds a version, and raises the epoch for the one that its symbol had.
    fn replace(&mut self, version: &Version, place: u32)
        requires good { Good (meaning_of self.old.seat.table.now.table.shared.key) version.now.symbol version.now.words }
        requires symbol { version.now.symbol < self.old.seat.table.now.functions }
        requires room { (vec_len self.old.shelf.versions < vec_capacity self.old.shelf.versions) × (length self.old.shelf.versions.items < 1048576) × (count_staying self.old.shelf.versions.items < self.old.shelf.space.spare) }
        requires range { (place + length version.now.words < self.old.shelf.space.size) × NoneFree self.old.shelf.space place (length version.now.words) × IsApart self.old.shelf.versions.items place (length version.now.words) }
        ensures table { self.new.seat.table ≡ self.old.seat.table }
        ensures published { Published self.old.shelf self.new.shelf version.now (length self.old.shelf.versions.items) }
        ensures space { self.new.shelf.space ≡ self.old.shelf.space }
        ensures harts { AreSameHarts (book_of self.old.seat.seat.me.0) (book_of self.new.seat.seat.me.0) }
    {
        let before = self.shelf.current[version.symbol as usize];
        self.add(version, place);
        if before == 0 {
            return;
        }
        self.retire(before - 1);
    }

    /// Publishes a version: stores its header and its words, swaps the cell of its symbol and raises the epoch for the one before. Gives its number.
    pub fn publish(
        &mut self,
        alloc: Global,
        version: Version,
    ) -> Result<u32, (Version, PublishRefusal)>
        requires good { Good (meaning_of self.old.seat.table.now.table.shared.key) version.symbol version.words }
        requires symbol { version.symbol < self.old.seat.table.now.functions }
        ensures table { self.new.seat.table ≡ self.old.seat.table }
        ensures ok { IfOk result (λ n. Published self.old.shelf self.new.shelf version n) }
        ensures same { IfErr result (λ e. (e.0 ≡ version) × IsSameShelf self.old.shelf self.new.shelf × (self.new.seat ≡ self.old.seat)) }
        ensures cause { IfErr result (λ e. IsCause self.old.shelf version e.1) }
        ensures fits { OnOk result (HasRange self.old.shelf version) }
        ensures used { IfOk result (λ n. IsUsed self.old.shelf self.new.shelf version) }
        ensures harts { AreSameHarts (book_of self.old.seat.seat.me.0) (book_of self.new.seat.seat.me.0) }
    {
        let count = self.shelf.versions.len();
        if count >= MOST_VERSIONS {
            let refusal = PublishRefusal::ManyVersions {
                count: count as u32,
            };
            return Err((version, refusal));
        }
        if self.shelf.reserve(alloc).is_err() {
            return Err((version, PublishRefusal::NoMemory));
        }
        let words = version.words.len();
        let largest = self.shelf.space.largest();
        if words >= largest as usize {
            let refusal = PublishRefusal::NoRoom {
                needed: words as u64 + 1,
                largest,
            };
            return Err((version, refusal));
        }
        let Some(place) = self.shelf.take(words as u32) else {
            unreachable!()
        };
        self.replace(&version, place);
        Ok(count as u32)
    }

    // Looks at a hart for a version, where that is pending and the hart hasn't passed it.
    fn look_once(&mut self, number: u32, hart: u32)
        requires number { number < length self.old.shelf.versions.items }
        requires hart { (hart < self.old.seat.table.now.harts) × (hart < 32) }
        ensures other { (v : VersionState) → At self.old.shelf.versions.items number v → is_pending v.status ≡ false → self.new ≡ self.old }
        ensures table { self.new.seat.table ≡ self.old.seat.table }
        ensures looked { (v : VersionState) (tag passed : ℕ) → At (book_of self.old.seat.seat.me.0).versions number v → v.status ≡ Pending tag passed → IsLook (book_of self.old.seat.seat.me.0) (book_of self.new.seat.seat.me.0) number hart v tag passed }
        ensures same { (self.new.shelf.current ≡ self.old.shelf.current) × (self.new.shelf.space ≡ self.old.shelf.space) }
        ensures count { length self.new.shelf.versions.items ≡ length self.old.shelf.versions.items }
    {
        let Status::Pending { tag, passed } = self.shelf.versions[number as usize].status else {
            return;
        };
        if has_passed(passed, hart) {
            return;
        }
        let found = self.seat.look(number, hart);
        self.shelf
            .pend(number, tag, marks(tag, passed, hart, found));
    }

    // Looks once at each hart that hasn't passed a pending version.
    fn look_at_harts(&mut self, number: u32)
        requires number { number < length self.old.shelf.versions.items }
        requires harts { self.old.seat.table.now.harts ≤ 16 }
        ensures other { (v : VersionState) → At self.old.shelf.versions.items number v → is_pending v.status ≡ false → self.new ≡ self.old }
        ensures table { self.new.seat.table ≡ self.old.seat.table }
        ensures looked { (v : VersionState) (tag passed : ℕ) → At (book_of self.old.seat.seat.me.0).versions number v → v.status ≡ Pending tag passed → LookedAt (book_of self.old.seat.seat.me.0) (book_of self.new.seat.seat.me.0) number v tag passed self.old.seat.table.now.harts }
        ensures same { (self.new.shelf.current ≡ self.old.shelf.current) × (self.new.shelf.space ≡ self.old.shelf.space) }
        ensures count { length self.new.shelf.versions.items ≡ length self.old.shelf.versions.items }
    {
        for hart in 0..self.seat.table.harts {
            self.look_once(number, hart);
        }
    }

    // Gives a version up, where each hart has passed it.
    fn give_up(&mut self, number: u32)
        requires { (v : VersionState) × (tag : ℕ) × (passed : ℕ) × At self.old.shelf.versions.items number v × (v.status ≡ Pending tag passed) × ((h : ℕ) → h < self.old.seat.table.now.harts → HasPassed passed h) }
        ensures table { self.new.seat.table ≡ self.old.seat.table }
        ensures given_up { (v : VersionState) → At self.old.shelf.versions.items number v → (self.new.shelf.versions.items ≡ slice_set self.old.shelf.versions.items number (with_status v GivenUp)) × (count_free self.new.shelf.space.ranges ≡ count_free self.old.shelf.space.ranges + (v.words + 1)) }
        ensures same { (self.new.shelf.current ≡ self.old.shelf.current) × (self.new.shelf.space.size ≡ self.old.shelf.space.size) }
        ensures book { (v : VersionState) → At self.old.shelf.versions.items number v → book_of self.new.seat.seat.me.0 ≡ restatus (book_of self.old.seat.seat.me.0) number v GivenUp }
    {
        let base = self.shelf.versions[number as usize].base;
        self.seat.clear(number, ((base - 0x100_0004) / 4) as usize);
        self.shelf.give_up(number);
    }

    // Looks at the harts for a pending version, and gives it up where each has passed. 1 where it did.
    fn settle(&mut self, number: u32) -> u32
        requires number { number < length self.old.shelf.versions.items }
        requires harts { self.old.seat.table.now.harts ≤ 16 }
        ensures table { self.new.seat.table ≡ self.old.seat.table }
        ensures settled { Settled (book_of self.old.seat.seat.me.0) (book_of self.new.seat.seat.me.0) self.old.shelf self.new.shelf self.old.seat.table.now.harts number result }
        ensures most { result ≤ 1 }
    {
        self.look_at_harts(number);
        let Status::Pending { tag: _, passed } = self.shelf.versions[number as usize].status else {
            return 0;
        };
        match first_behind(passed, self.seat.table.harts) {
            Some(_) => 0,
            None => {
                self.give_up(number);
                1
            }
        }
    }

    /// Looks at the harts for each pending version in order, and gives up those that each hart has passed. Gives their number.
    pub fn collect(&mut self) -> u32
        ensures table { self.new.seat.table ≡ self.old.seat.table }
        ensures collected { Collected (book_of self.old.seat.seat.me.0) (book_of self.new.seat.seat.me.0) self.old.shelf self.new.shelf self.old.seat.table.now.harts (length self.old.shelf.versions.items) result }
    {
        let mut given_up = 0;
        for number in 0..self.shelf.versions.len() as u32 {
            given_up += self.settle(number);
        }
        given_up
    }

    /// Takes in an idle hart's seat. The ended passes of all seats that were taken in are backed by the keeper's versions.
    pub fn take_in(&mut self, seat: HartSeat<'_>)
        requires table { seat.table.now.table.shared.table_id ≡ self.old.seat.table.now.table.shared.table_id }
        requires idle { word_in seat.seat.me.0.role ≡ 0 }
        ensures table { self.new.seat.table ≡ self.old.seat.table }
        ensures joined { self.new.seat.seat.me.0 ≡ joined_view self.old.seat.seat.me.0 seat.entry.seat.me.0 }
        ensures gone { (book_of self.new.seat.seat.me.0).gone ≡ (book_of self.old.seat.seat.me.0).gone ++ seat.entry.number ∷ [] }
        ensures parts { (book_of self.new.seat.seat.me.0).joined ≡ (book_of self.old.seat.seat.me.0).joined ++ part_of seat.entry.seat.me.0 ∷ [] }
        ensures shelf { self.new.shelf ≡ self.old.shelf }
        ensures backed { JoinedBacked self.new.seat.seat.me.0 }
    {
        self.seat.join(seat);
    }

    /// Learns that the words of each version are good, and that the versions back the ended passes of all seats that were taken in.
    pub fn learn(&mut self)
        ensures table { self.new.seat.table ≡ self.old.seat.table }
        ensures same { (self.new.shelf ≡ self.old.shelf) × (self.new.seat.seat.me.0 ≡ self.old.seat.seat.me.0) }
        ensures backed { JoinedBacked self.old.seat.seat.me.0 }
        ensures made { AreMade (meaning_of self.old.seat.seat.me.0.plan) (book_of self.old.seat.seat.me.0) }
    {
        self.seat.learn();
    }
}

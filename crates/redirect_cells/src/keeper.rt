//! The keeper, which publishes versions and gives them up.
ghost use Rattle.std.specs.Prelude.{◌≡◌, ◌+◌, ◌<◌, ◌≤◌, ◌++◌, length, IfOk, OnOk, IfErr, ℕ, List, All, map};
ghost use Rattle.code_epochs.specs.declared.state.VersionState.{VersionState};
ghost use Rattle.code_epochs.specs.Sound.{AreMade};
ghost use Rattle.rv_play.specs.Good.{Good};
ghost use Rattle.code_space.specs.Space.{count_free};
ghost use Rattle.redirect_cells.specs.Kept.{meaning_of, book_of, JoinedBacked};
ghost use Rattle.redirect_cells.specs.Keeping.{AllCurrent, NoneUnlinked, AreSameHarts, held_words};

use crate::desk::Desk;
use crate::hart_seat::HartSeat;
use code_epochs::PublishRefusal;
use rv_play::version::Version;
use std::alloc::Global;

/// The keeper of a table in which each symbol has a linked version.
#[derive(Drop)]
pub struct Keeper<'a> {
    pub(crate) desk: Desk<'a>,
    ghost all_current: { AllCurrent desk.shelf.current.items },
    ghost none_unlinked: { NoneUnlinked desk.shelf.versions.items },
    ghost words_are: { count_free desk.shelf.space.ranges + held_words desk.shelf.versions.items ≡ desk.shelf.space.size },
}

impl Keeper<'_> {
    ghost use Rattle.redirect_cells.specs.Keeping.{Published, IsSameShelf, IsCause, HasRange, IsUsed, IsCurrent, Collected, AllGone, NonePending, IsClosed};
    ghost use Rattle.redirect_cells.specs.Gathered.{IsIdleSeat, AreAllHarts, numbers_of, parts_of};

    /// The level of the linked version of a symbol.
    pub fn level(&self, symbol: u32) -> u8
        requires { symbol < self.now.desk.seat.table.now.functions }
        ensures { (v : VersionState) × IsCurrent self.now.desk.shelf symbol v × (result ≡ v.level) }
    {
        self.desk.linked(symbol).level
    }

    /// The number of words of the linked version of a symbol, without its header.
    pub fn words(&self, symbol: u32) -> u32
        requires { symbol < self.now.desk.seat.table.now.functions }
        ensures { (v : VersionState) × IsCurrent self.now.desk.shelf symbol v × (result ≡ v.words) }
    {
        self.desk.linked(symbol).words
    }

    /// The base of the linked version of a symbol.
    pub fn base(&self, symbol: u32) -> u64
        requires { symbol < self.now.desk.seat.table.now.functions }
        ensures { (v : VersionState) × IsCurrent self.now.desk.shelf symbol v × (result ≡ v.base) }
    {
        self.desk.linked(symbol).base
    }

    /// The number of versions, those that were given up with them.
    pub fn versions(&self) -> u32
        ensures { result ≡ length self.now.desk.shelf.versions.items }
    {
        self.desk.shelf.versions.len() as u32
    }

    /// The number of code words that aren't free: those of the versions that aren't given up, and their headers.
    pub fn used(&self) -> u32
        ensures held { result ≡ held_words self.now.desk.shelf.versions.items }
        ensures free { result + count_free self.now.desk.shelf.space.ranges ≡ self.now.desk.seat.table.now.code_words }
    {
        self.desk.seat.table.code_words - self.desk.shelf.space.count()
    }

    /// Publishes a version: stores its header and its words, swaps the cell of its symbol and raises the epoch for the one before. Gives its number.
    pub fn publish(
        &mut self,
        alloc: Global,
        version: Version,
    ) -> Result<u32, (Version, PublishRefusal)>
        requires good { Good (meaning_of self.old.desk.seat.table.now.table.shared.key) version.symbol version.words }
        requires symbol { version.symbol < self.old.desk.seat.table.now.functions }
        ensures table { self.new.desk.seat.table ≡ self.old.desk.seat.table }
        ensures ok { IfOk result (λ n. Published self.old.desk.shelf self.new.desk.shelf version n) }
        ensures same { IfErr result (λ e. (e.0 ≡ version) × IsSameShelf self.old.desk.shelf self.new.desk.shelf × (self.new.desk.seat ≡ self.old.desk.seat)) }
        ensures cause { IfErr result (λ e. IsCause self.old.desk.shelf version e.1) }
        ensures fits { OnOk result (HasRange self.old.desk.shelf version) }
        ensures used { IfOk result (λ n. IsUsed self.old.desk.shelf self.new.desk.shelf version) }
        ensures harts { AreSameHarts (book_of self.old.desk.seat.seat.me.0) (book_of self.new.desk.seat.seat.me.0) }
    {
        self.desk.publish(alloc, version)
    }

    /// Looks at the harts for each pending version in order, and gives up those that each hart has passed. Gives their number.
    pub fn collect(&mut self) -> u32
        ensures table { self.new.desk.seat.table ≡ self.old.desk.seat.table }
        ensures collected { Collected (book_of self.old.desk.seat.seat.me.0) (book_of self.new.desk.seat.seat.me.0) self.old.desk.shelf self.new.desk.shelf self.old.desk.seat.table.now.harts (length self.old.desk.shelf.versions.items) result }
        ensures none_pending { AllGone self.old.desk.seat.table.now.harts (book_of self.old.desk.seat.seat.me.0) → NonePending self.new.desk.shelf.versions.items }
    {
        self.desk.collect()
    }

    /// Takes in the seats of all harts. Their ended passes are backed by the keeper's versions.
    pub fn gather(&mut self, seats: Vec<HartSeat<'_>>)
        requires idle { All (IsIdleSeat self.old.desk.seat.table.now) seats.items }
        requires all { AreAllHarts self.old.desk.seat.table.now.harts seats.items }
        ensures table { self.new.desk.seat.table ≡ self.old.desk.seat.table }
        ensures shelf { self.new.desk.shelf ≡ self.old.desk.shelf }
        ensures gone { (book_of self.new.desk.seat.seat.me.0).gone ≡ (book_of self.old.desk.seat.seat.me.0).gone ++ numbers_of seats.entry.items }
        ensures joined { (book_of self.new.desk.seat.seat.me.0).joined ≡ (book_of self.old.desk.seat.seat.me.0).joined ++ parts_of seats.entry.items }
        ensures all_gone { AllGone self.old.desk.seat.table.now.harts (book_of self.new.desk.seat.seat.me.0) }
        ensures backed { JoinedBacked self.new.desk.seat.seat.me.0 }
    {
        for seat in seats {
            self.desk.take_in(seat);
        }
    }

    // Learns that the words of each version are good, and that the versions back the ended passes of all seats that were taken in.
    fn learn(&mut self)
        ensures table { self.new.desk.seat.table ≡ self.old.desk.seat.table }
        ensures same { (self.new.desk.shelf ≡ self.old.desk.shelf) × (self.new.desk.seat.seat.me.0 ≡ self.old.desk.seat.seat.me.0) }
        ensures backed { JoinedBacked self.old.desk.seat.seat.me.0 }
        ensures made { AreMade (meaning_of self.old.desk.seat.seat.me.0.plan) (book_of self.old.desk.seat.seat.me.0) }
    {
        self.desk.learn();
    }

    /// Collects once more, when all harts are gone, and gives the number of code words then in use. The versions that there are then back
    /// all ended passes of the harts that were taken in.
    pub fn close(mut self) -> u32
        requires { AllGone self.desk.seat.table.now.harts (book_of self.desk.seat.seat.me.0) }
        ensures { IsClosed self.entry.desk.seat.seat.me.0 self.entry.desk.shelf self.entry.desk.seat.table.now.harts result }
    {
        self.collect();
        self.learn();
        self.used()
    }
}

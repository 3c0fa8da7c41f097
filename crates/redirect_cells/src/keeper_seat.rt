//! The keeper's seat, and its single steps.
ghost use Rattle.std.specs.Prelude.{◌≡◌, ◌+◌, ◌*◌, ◌%◌, ◌-◌, ◌/◌, ◌<◌, ◌≤◌, [], length, Some};
ghost use Rattle.code_epochs.specs.Sound.{start_of, AreMade};
ghost use Rattle.code_epochs.specs.Steps.{AllLinked, with_draft};
ghost use Rattle.std.specs.Coded.{Coded-set};
ghost use Rattle.redirect_cells.specs.Plans.{plan_code};
ghost use Rattle.redirect_cells.specs.Kept.{meaning_of, functions_of, IsKeeper, book_of, MayBegin, IsNextWord, IsWhole, header_stored, next_stored, draft_linked, opened, split_view, new_hart, keeper_view, draft_at, joined_view, JoinedBacked, word_in, IsUnlinkedAt, IsPendingAt, HasAllPassed, epoch_raised_by, hart_looked_at, found_gone, version_given_up};

use crate::hart_seat::HartSeat;
use crate::plays::{
    ClearHeader, Drafting, HartGoes, Learn, LookAtHart, NewHart, Numbered, RaiseEpoch, StoreHeader,
    StoreNext, SwapCell,
};
use crate::table::CodeTable;
use crate::view::View;
use atomic_table::Seat;
use rv_play::version::Version;
use std::marker::Brand;

#[derive(Drop)]
pub struct KeeperSeat<'a> {
    pub(crate) table: &'a CodeTable,
    pub(crate) seat: Seat<(), View>,
    ghost here: { seat.table_id ≡ table.now.table.shared.table_id },
    ghost empty: { seat.me.1 ≡ [] },
    ghost plan: { seat.me.0.plan ≡ table.now.table.shared.key } by { Coded-set plan_code _ _ },
    ghost keeper: { IsKeeper seat.me.0 },
}

impl<'a> KeeperSeat<'a> {
    /// The keeper of a new table.
    pub fn new(table: &'a CodeTable, seat: Seat<(), View>) -> KeeperSeat<'a>
        requires here { seat.table_id ≡ table.now.table.shared.table_id }
        requires first { seat.me ≡ (opened table.now.table.shared.key, []) }
        ensures table { result.table ≡ table.entry }
        ensures first { result.seat.me.0 ≡ opened table.entry.now.table.shared.key }
    {
        KeeperSeat { table, seat }
    }

    /// A seat for the next hart.
    pub fn seat(&mut self, number: u32) -> HartSeat<'a>
        requires next { (number ≡ (book_of self.old.seat.me.0).seated) × (number < self.old.table.now.harts) }
        requires linked { AllLinked (functions_of self.old.table.now.table.shared.key) (book_of self.old.seat.me.0) }
        ensures table { (self.new.table ≡ self.old.table) × (result.table ≡ self.old.table) }
        ensures keeper { self.new.seat.me.0 ≡ split_view self.old.seat.me.0 }
        ensures hart { result.seat.me.0 ≡ new_hart self.old.seat.me.0 }
    {
        let seat = self
            .table
            .table
            .shared
            .split_seat::<NewHart>(&mut self.seat);
        HartSeat {
            table: self.table,
            seat,
            number,
            code: self.table.first_code_place(),
        }
    }

    /// Takes in an idle hart's seat. The ended passes of all seats that were taken in are backed by the keeper's versions.
    pub fn join(&mut self, other: HartSeat<'_>)
        requires table { other.table.now.table.shared.table_id ≡ self.old.table.now.table.shared.table_id }
        requires idle { word_in other.seat.me.0.role ≡ 0 }
        ensures table { self.new.table ≡ self.old.table }
        ensures joined { self.new.seat.me.0 ≡ joined_view self.old.seat.me.0 other.entry.seat.me.0 }
        ensures backed { JoinedBacked self.new.seat.me.0 }
    {
        let HartSeat {
            table: _,
            seat,
            number: _,
            code: _,
        } = other;
        let shared = &self.table.table.shared;
        shared.join_seat::<HartGoes>(&mut self.seat, seat);
        shared.load::<Learn>(&mut self.seat, 0);
    }

    /// Learns, by a load that changes nothing, that the words of each version are good, and that the versions back the ended passes of
    /// all seats that were taken in.
    pub fn learn(&mut self)
        ensures table { self.new.table ≡ self.old.table }
        ensures same { self.new.seat.me.0 ≡ self.old.seat.me.0 }
        ensures backed { JoinedBacked self.old.seat.me.0 }
        ensures made { AreMade (meaning_of self.old.seat.me.0.plan) (book_of self.old.seat.me.0) }
    {
        self.table.table.shared.load::<Learn>(&mut self.seat, 0);
    }

    // Raises the epoch for the version N. The answer is the epoch before.
    fn raise_named<N: Numbered>(&mut self, number: u32) -> u64
        requires named { number ≡ N.number }
        requires unlinked { IsUnlinkedAt (book_of self.old.seat.me.0) N.number }
        ensures table { self.new.table ≡ self.old.table }
        ensures fits { result + 1 < 18446744073709551616 }
        ensures raised { epoch_raised_by N.number self.old.seat.me.0 result self.new.seat.me.0 }
    {
        let _ = number;
        self.table
            .table
            .shared
            .fetch_add::<RaiseEpoch<N>>(&mut self.seat, 0, 1)
    }

    /// Raises the epoch for a version that is unlinked. The answer is the epoch before.
    pub fn raise_epoch(&mut self, number: u32) -> u64
        requires { IsUnlinkedAt (book_of self.old.seat.me.0) number }
        ensures table { self.new.table ≡ self.old.table }
        ensures fits { result + 1 < 18446744073709551616 }
        ensures raised { epoch_raised_by number self.old.seat.me.0 result self.new.seat.me.0 }
    {
        self.raise_named::<Brand>(number)
    }

    // Looks at the word of a hart for the version N.
    fn look_named<N: Numbered>(&mut self, number: u32, hart: u32) -> u64
        requires named { number ≡ N.number }
        requires pending { IsPendingAt (book_of self.old.seat.me.0) N.number }
        requires hart { hart < self.old.table.now.harts }
        ensures table { self.new.table ≡ self.old.table }
        ensures looked { hart_looked_at N.number (1 + self.old.table.now.functions + hart) self.old.seat.me.0 result self.new.seat.me.0 }
        ensures gone { found_gone (1 + self.old.table.now.functions + hart) self.old.seat.me.0 result }
    {
        let _ = number;
        let word = self.table.hart_place(hart);
        self.table
            .table
            .shared
            .load::<LookAtHart<N>>(&mut self.seat, word)
    }

    /// Looks at the word of a hart for a pending version.
    pub fn look(&mut self, number: u32, hart: u32) -> u64
        requires pending { IsPendingAt (book_of self.old.seat.me.0) number }
        requires hart { hart < self.old.table.now.harts }
        ensures table { self.new.table ≡ self.old.table }
        ensures looked { hart_looked_at number (1 + self.old.table.now.functions + hart) self.old.seat.me.0 result self.new.seat.me.0 }
        ensures gone { found_gone (1 + self.old.table.now.functions + hart) self.old.seat.me.0 result }
    {
        self.look_named::<Brand>(number, hart)
    }

    // Clears the header of the version N.
    fn clear_named<N: Numbered>(&mut self, number: u32, place: usize)
        requires named { number ≡ N.number }
        requires passed { HasAllPassed (book_of self.old.seat.me.0) N.number self.old.table.now.harts place }
        requires place { place < self.old.table.now.code_words }
        ensures table { self.new.table ≡ self.old.table }
        ensures cleared { version_given_up N.number self.old.seat.me.0 self.new.seat.me.0 }
    {
        let _ = number;
        let word = self.table.code_place(place);
        self.table
            .table
            .shared
            .store::<ClearHeader<N>>(&mut self.seat, word, 0);
    }

    /// Clears the header of a pending version that each hart has passed.
    pub fn clear(&mut self, number: u32, place: usize)
        requires passed { HasAllPassed (book_of self.old.seat.me.0) number self.old.table.now.harts place }
        requires place { place < self.old.table.now.code_words }
        ensures table { self.new.table ≡ self.old.table }
        ensures cleared { version_given_up number self.old.seat.me.0 self.new.seat.me.0 }
    {
        self.clear_named::<Brand>(number, place);
    }

    // Stores the header of this version, which begins the draft D.
    fn store_header<D: Drafting>(&mut self, place: usize, header: u64, version: &Version)
        requires place { (place < self.old.table.now.code_words) × (place ≡ start_of D.draft.base) }
        requires header { header ≡ length (book_of self.old.seat.me.0).versions + 1 }
        requires begins { MayBegin self.old.table.now.table.shared.key (book_of self.old.seat.me.0) D.draft }
        ensures table { self.new.table ≡ self.old.table }
        ensures begun { header_stored D.draft self.old.seat.me.0 self.new.seat.me.0 }
    {
        let _ = version;
        let word = self.table.code_place(place);
        self.table
            .table
            .shared
            .store::<StoreHeader<D>>(&mut self.seat, word, header);
    }

    // Stores the header and the words of a version from a place on.
    pub(crate) fn store_draft(&mut self, place: usize, header: u64, version: &Version)
        requires place { place + length version.now.words < self.old.table.now.code_words }
        requires header { header ≡ length (book_of self.old.seat.me.0).versions + 1 }
        requires begins { MayBegin self.old.table.now.table.shared.key (book_of self.old.seat.me.0) (draft_at version.now place 1) }
        ensures table { self.new.table ≡ self.old.table }
        ensures stored { self.new.seat.me.0 ≡ keeper_view self.old.seat.me.0 (with_draft (book_of self.old.seat.me.0) (Some (draft_at version.now place (length version.now.words + 1)))) }
    {
        self.store_header::<Brand>(place, header, version);
        for (i, word) in version.words.as_slice().iter().enumerate() {
            self.store_next(place + 1 + i, *word);
        }
    }

    // Stores the next word of the draft.
    fn store_next(&mut self, place: usize, next: u32)
        requires place { place < self.old.table.now.code_words }
        requires draft { IsNextWord (book_of self.old.seat.me.0).draft place next }
        ensures table { self.new.table ≡ self.old.table }
        ensures stored { next_stored self.old.seat.me.0 self.new.seat.me.0 }
    {
        let word = self.table.code_place(place);
        self.table
            .table
            .shared
            .store::<StoreNext>(&mut self.seat, word, u64::from(next));
    }

    // Swaps the cell, which links the draft.
    pub(crate) fn swap_cell(&mut self, symbol: u32, base: u64) -> u64
        requires symbol { symbol < self.old.table.now.functions }
        requires draft { IsWhole (book_of self.old.seat.me.0).draft symbol base }
        ensures table { self.new.table ≡ self.old.table }
        ensures linked { draft_linked self.old.seat.me.0 self.new.seat.me.0 }
    {
        self.table
            .table
            .shared
            .swap::<SwapCell>(&mut self.seat, 1 + symbol as usize, base)
    }
}

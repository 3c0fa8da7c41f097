//! A hart's seat.
ghost use Rattle.std.specs.Prelude.{◌≡◌, ◌+◌, ◌*◌, ◌%◌, ◌-◌, ◌/◌, ◌<◌, ◌≤◌, [], length, true};
ghost use Rattle.code_epochs.specs.Steps.{with_item, ended_part};
ghost use Rattle.code_epochs.specs.declared.parts.Item.TheVariants.{Held, Saw};
ghost use Rattle.std.specs.Coded.{Coded-set};
ghost use Rattle.redirect_cells.specs.Plans.{plan_code};
ghost use Rattle.redirect_cells.specs.Kept.{IsAddress, IsBegun, IsServed, is_hart, number_in, word_in, part_of};

use crate::plays::{Announce, GoIdle, LoadCell, LoadEpoch, LoadWord};
use crate::table::CodeTable;
use crate::view::View;
use atomic_table::Seat;

#[derive(Drop)]
pub struct HartSeat<'a> {
    pub(crate) table: &'a CodeTable,
    pub(crate) seat: Seat<(), View>,
    pub(crate) number: u32,
    /// The word of the table that has the first code word.
    pub(crate) code: usize,
    ghost here: { seat.table_id ≡ table.now.table.shared.table_id },
    ghost empty: { seat.me.1 ≡ [] },
    ghost plan: { seat.me.0.plan ≡ table.now.table.shared.key } by { Coded-set plan_code _ _ },
    ghost hart: { is_hart seat.me.0.role ≡ true },
    ghost number_is: { number_in seat.me.0.role ≡ number },
    ghost number_fits: { number < table.now.harts },
    ghost code_is: { code ≡ 1 + table.now.functions + table.now.harts },
    ghost rested: { word_in seat.me.0.role ≡ 0 → length (part_of seat.me.0).pass ≡ 0 },
}

impl HartSeat<'_> {
    /// The number of symbols of the table.
    pub fn symbols(&self) -> u32
        ensures { result ≡ self.now.table.now.functions }
    {
        self.table.functions
    }

    /// The number of code words of the table.
    pub fn code_words(&self) -> u32
        ensures { result ≡ self.now.table.now.code_words }
    {
        self.table.code_words
    }

    /// The number of the hart among those of the table.
    pub fn number(&self) -> u32
        ensures { result ≡ self.now.number }
    {
        self.number
    }

    /// Loads the cell of a symbol.
    pub fn cell(&mut self, symbol: u32) -> u64
        requires exists { symbol < self.old.table.now.functions }
        requires begun { IsBegun self.old.seat.me.0 }
        ensures same { (self.new.table ≡ self.old.table) × IsBegun self.new.seat.me.0 }
        ensures number { self.new.number ≡ self.old.number }
        ensures held { part_of self.new.seat.me.0 ≡ with_item (part_of self.old.seat.me.0) (Held symbol result) }
    {
        self.table
            .table
            .shared
            .load::<LoadCell>(&mut self.seat, 1 + symbol as usize)
    }

    /// Loads the code word at an address.
    pub fn fetch(&mut self, address: u64) -> u32
        requires exists { IsAddress self.old.table.now.code_words address }
        requires begun { IsBegun self.old.seat.me.0 }
        ensures same { (self.new.table ≡ self.old.table) × IsBegun self.new.seat.me.0 }
        ensures number { self.new.number ≡ self.old.number }
        ensures seen { part_of self.new.seat.me.0 ≡ with_item (part_of self.old.seat.me.0) (Saw address result) }
    {
        let place = ((address - 0x100_0000) / 4) as usize;
        let word = self.code_place(place);
        self.table
            .table
            .shared
            .load::<LoadWord>(&mut self.seat, word) as u32
    }

    // The word of the table that has this code word.
    #[inline(always)]
    fn code_place(&self, place: usize) -> usize
        requires { place < self.now.table.now.code_words }
        ensures { result ≡ 1 + self.now.table.now.functions + self.now.table.now.harts + place }
    {
        self.code + place
    }

    /// Begins a pass: loads the epoch and announces it.
    pub fn begin(&mut self)
        requires idle { word_in self.old.seat.me.0.role ≡ 0 }
        ensures table { self.new.table ≡ self.old.table }
        ensures number { self.new.number ≡ self.old.number }
        ensures begun { IsBegun self.new.seat.me.0 }
        ensures pass { ((part_of self.new.seat.me.0).pass ≡ (part_of self.old.seat.me.0).pass) × ((part_of self.new.seat.me.0).ended ≡ (part_of self.old.seat.me.0).ended) }
    {
        let shared = &self.table.table.shared;
        let word = self.table.hart_place(self.number);
        let epoch = shared.load::<LoadEpoch>(&mut self.seat, 0);
        shared.store::<Announce>(&mut self.seat, word, epoch);
    }

    /// Ends the pass. Until then the hart was served: the table's versions back its pass, and none that it holds is given up.
    pub fn end(&mut self)
        requires begun { IsBegun self.old.seat.me.0 }
        ensures table { self.new.table ≡ self.old.table }
        ensures number { self.new.number ≡ self.old.number }
        ensures idle { word_in self.new.seat.me.0.role ≡ 0 }
        ensures ended { part_of self.new.seat.me.0 ≡ ended_part (part_of self.old.seat.me.0) }
        ensures served { IsServed self.old.table.now.table.shared.key (number_in self.old.seat.me.0.role) (word_in self.old.seat.me.0.role) (part_of self.old.seat.me.0) }
    {
        let word = self.table.hart_place(self.number);
        self.table
            .table
            .shared
            .swap::<GoIdle>(&mut self.seat, word, 0);
    }
}

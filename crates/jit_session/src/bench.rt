//! What serves a hart of a session: its seat at the code table, its seat at the counts, and a gate.
ghost use Rattle.std.specs.Prelude.{◌≡◌};
ghost use Rattle.redirect_cells.specs.Kept.{word_in};
ghost use Rattle.jit_session.specs.Benches.{has_begun, StandsFor};

use crate::gate::{Gate, Point};
use entry_counts::CountSeat;
use hart::Fabric;
use redirect_cells::HartSeat;

/// The seats of a hart. Each entry and each end of a call is told to the gate.
#[derive(Drop)]
pub struct Bench<'a, G> {
    hart: u32,
    call: u32,
    /// The base that was loaded last.
    base: u64,
    seat: HartSeat<'a>,
    counts: CountSeat<'a>,
    gate: &'a G,
    ghost symbols: { counts.counts.now.symbols ≡ seat.table.now.functions },
}

impl<'a, G> Bench<'a, G> {
    /// A bench that isn't begun, by seats of a table and of counts for as many symbols. The gate is told this number of the hart.
    pub fn new(hart: u32, seat: HartSeat<'a>, counts: CountSeat<'a>, gate: &'a G) -> Bench<'a, G>
        requires idle { word_in seat.seat.me.0.role ≡ 0 }
        requires symbols { counts.counts.now.symbols ≡ seat.table.now.functions }
        ensures seat { result.seat ≡ seat.entry }
        ensures counts { result.counts ≡ counts.entry }
        ensures hart { result.hart ≡ hart }
    {
        Bench {
            hart,
            call: 0,
            base: 0,
            seat,
            counts,
            gate,
        }
    }

    /// The gate is told this number of the call from now on.
    pub fn name_call(&mut self, call: u32)
        requires { word_in self.old.seat.seat.me.0.role ≡ 0 }
        ensures seat { self.new.seat ≡ self.old.seat }
        ensures counts { self.new.counts ≡ self.old.counts }
        ensures hart { self.new.hart ≡ self.old.hart }
        ensures call { self.new.call ≡ call }
    {
        self.call = call;
    }

    /// The seats.
    pub fn parts(self) -> (HartSeat<'a>, CountSeat<'a>)
        requires { word_in self.seat.seat.me.0.role ≡ 0 }
        ensures { result ≡ (self.entry.seat, self.entry.counts) }
    {
        let Bench {
            hart: _,
            call: _,
            base: _,
            seat,
            counts,
            gate: _,
        } = self;
        (seat, counts)
    }
}

impl<G: Gate> Fabric for Bench<'_, G> {
    ghost symbol_count = { λ b. b.seat.table.now.functions };

    ghost code_word_count = { λ b. b.seat.table.now.code_words };

    ghost is_begun = { λ b. has_begun b.seat.seat.me.0.role };

    ghost stands = { λ since b pass counted. StandsFor since.seat since.counts b.seat b.counts pass counted };

    fn symbols(&self) -> u32 {
        self.seat.symbols()
    }

    fn code_words(&self) -> u32 {
        self.seat.code_words()
    }

    fn begin(&mut self) {
        self.seat.begin();
    }

    fn cell(&mut self, symbol: u32) -> u64 {
        self.base = self.seat.cell(symbol);
        self.base
    }

    #[inline(always)]
    fn fetch(&mut self, address: u64) -> u32 {
        self.seat.fetch(address)
    }

    fn count(&mut self, symbol: u32) {
        self.counts.count(symbol);
        self.gate.at(Point::Entry {
            hart: self.hart,
            call: self.call,
            symbol,
            base: self.base,
        });
    }

    fn end(&mut self) {
        self.seat.end();
        self.gate.at(Point::Ended {
            hart: self.hart,
            call: self.call,
        });
    }
}

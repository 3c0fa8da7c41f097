//! The first versions of a table, and the seats of its harts.
ghost use Rattle.std.specs.Prelude.{◌≡◌, ◌+◌, ◌<◌, ◌≤◌, ℕ, [], length, min, All, IfOk, IfErr, OnOk, vec_len};
ghost use Rattle.code_epochs.specs.Sound.{At};
ghost use Rattle.code_space.specs.Space.{IsFree, count_free};
ghost use Rattle.redirect_cells.specs.Kept.{meaning_of, functions_of, book_of, opened as opened_view};
ghost use Rattle.redirect_cells.specs.Keeping.{AllCurrent, AreSameHarts};
ghost use Rattle.redirect_cells.specs.Opened.{words_of, laid, AreQuick, AreLaid, AreNewSeats, IsOpenCause};
ghost use Rattle.redirect_cells.specs.Gathered.{IsIdleSeat, AreAllHarts};

use crate::desk::Desk;
use crate::hart_seat::HartSeat;
use crate::keeper::Keeper;
use crate::keeper_seat::KeeperSeat;
use crate::table::{CodeTable, Opening};
use code_epochs::OpenRefusal;
use rj_num::NoMemory;
use rv_play::version::Version;
use std::alloc::Global;

// The code words that the versions need, with their headers.
fn words_needed(quick: &[Version]) -> u64
    ensures { result ≡ min (words_of quick.now) 18446744073709551615 }
{
    let mut needed: u64 = 0;
    for version in quick {
        let words = version.words.len() as u64;
        needed = needed.saturating_add(words).saturating_add(1);
    }
    needed
}

// Takes so many code words in a row, of a desk on which there is no version and all words are free.
fn take_first(desk: &mut Desk, needed: u32) -> u32
    requires none { desk.old.shelf.versions.items ≡ [] }
    requires free { (w : ℕ) → w < desk.old.shelf.space.size → IsFree desk.old.shelf.space.ranges w }
    requires room { needed ≤ desk.old.shelf.space.size }
    ensures seat { desk.new.seat ≡ desk.old.seat }
    ensures same { (desk.new.shelf.versions.items ≡ []) × (desk.new.shelf.current ≡ desk.old.shelf.current) × (desk.new.shelf.space.size ≡ desk.old.shelf.space.size) }
    ensures range { (result + needed ≤ desk.old.shelf.space.size) × ((w : ℕ) → result ≤ w → w < result + needed → ¬ IsFree desk.new.shelf.space.ranges w) }
    ensures count { count_free desk.new.shelf.space.ranges + needed ≡ count_free desk.old.shelf.space.ranges }
{
    if needed == 0 {
        return 0;
    }
    match desk.shelf.take(needed - 1) {
        Some(place) => place,
        None => unreachable!(),
    }
}

// Stores the versions one after another from a place on, in a range that was taken for them, and links them.
fn place_all(desk: &mut Desk, alloc: Global, quick: &[Version], first: u32) -> Result<(), NoMemory>
    requires none { desk.old.shelf.versions.items ≡ [] }
    requires quick { AreQuick desk.old.seat.table.now.table.shared.key quick.now }
    requires range { (first + words_of quick.now ≤ desk.old.shelf.space.size) × ((w : ℕ) → first ≤ w → w < first + words_of quick.now → ¬ IsFree desk.old.shelf.space.ranges w) }
    ensures table { desk.new.seat.table ≡ desk.old.seat.table }
    ensures versions { OnOk result (desk.new.shelf.versions.items ≡ laid quick.now first 0) }
    ensures current { OnOk result ((k : ℕ) → k < length quick.now → At desk.new.shelf.current.items k (k + 1)) }
    ensures space { (desk.new.shelf.space.size ≡ desk.old.shelf.space.size) × (desk.new.shelf.space.ranges ≡ desk.old.shelf.space.ranges) }
    ensures harts { AreSameHarts (book_of desk.old.seat.seat.me.0) (book_of desk.new.seat.seat.me.0) }
{
    let mut place = first;
    for version in quick {
        desk.shelf.reserve(alloc)?;
        desk.add(version, place);
        place += version.words.len() as u32 + 1;
    }
    Ok(())
}

// The seats of all harts.
fn hart_seats<'a>(desk: &mut Desk<'a>, alloc: Global) -> Result<Vec<HartSeat<'a>>, NoMemory>
    requires none { (book_of desk.old.seat.seat.me.0).seated ≡ 0 }
    requires all { AllCurrent desk.old.shelf.current.items }
    ensures table { desk.new.seat.table ≡ desk.old.seat.table }
    ensures shelf { desk.new.shelf ≡ desk.old.shelf }
    ensures gone { ((book_of desk.new.seat.seat.me.0).gone ≡ (book_of desk.old.seat.seat.me.0).gone) × ((book_of desk.new.seat.seat.me.0).joined ≡ (book_of desk.old.seat.seat.me.0).joined) }
    ensures seats { IfOk result (λ v. AreNewSeats desk.old.seat.table.now desk.old.seat.table.now.harts v.items) }
{
    let harts = desk.seat.table.harts;
    let mut seats = Vec::with_capacity(alloc, harts as usize).map_err(|_| NoMemory)?;
    for number in 0..harts {
        seats.push_reserved(desk.seat(number));
    }
    Ok(seats)
}

// The desk of a table on which these versions are linked.
fn opened<'a>(
    alloc: Global,
    table: &'a CodeTable,
    opening: Opening,
    quick: &[Version],
    needed: u32,
) -> Result<Desk<'a>, NoMemory>
    requires opening { (opening.seat.table_id ≡ table.now.table.shared.table_id) × (opening.seat.me ≡ (opened_view table.now.table.shared.key, [])) }
    requires quick { AreQuick table.now.table.shared.key quick.now }
    requires needed { (needed ≡ words_of quick.now) × (needed ≤ table.now.code_words) }
    ensures table { IfOk result (λ d. d.seat.table ≡ table.entry) }
    ensures versions { IfOk result (λ d. AreLaid d.shelf quick.now) }
    ensures count { IfOk result (λ d. count_free d.shelf.space.ranges + words_of quick.now ≡ d.shelf.space.size) }
    ensures harts { IfOk result (λ d. ((book_of d.seat.seat.me.0).seated ≡ 0) × ((book_of d.seat.seat.me.0).gone ≡ []) × ((book_of d.seat.seat.me.0).joined ≡ [])) }
{
    let Opening { seat } = opening;
    let mut desk = Desk::new(alloc, KeeperSeat::new(table, seat))?;
    let first = take_first(&mut desk, needed);
    place_all(&mut desk, alloc, quick, first)?;
    Ok(desk)
}

impl CodeTable {
    /// Publishes a version of each symbol, in order, and gives the seats of all harts and the keeper.
    pub fn seats(
        &self,
        alloc: Global,
        opening: Opening,
        quick: Vec<Version>,
    ) -> Result<(Vec<HartSeat<'_>>, Keeper<'_>), OpenRefusal>
        requires opening { (opening.seat.table_id ≡ self.now.table.shared.table_id) × (opening.seat.me ≡ (opened_view self.now.table.shared.key, [])) }
        requires quick { AreQuick self.now.table.shared.key quick.items }
        ensures fits { OnOk result (words_of quick.items ≤ self.now.code_words) }
        ensures cause { IfErr result (λ e. IsOpenCause self.now quick.items e) }
        ensures keeper { IfOk result (λ r. r.1.desk.seat.table ≡ self.entry) }
        ensures versions { IfOk result (λ r. AreLaid r.1.desk.shelf quick.items) }
        ensures gone { IfOk result (λ r. ((book_of r.1.desk.seat.seat.me.0).gone ≡ []) × ((book_of r.1.desk.seat.seat.me.0).joined ≡ [])) }
        ensures seats { IfOk result (λ r. AreNewSeats self.now self.now.harts r.0.items) }
        ensures idle { IfOk result (λ r. All (IsIdleSeat self.now) r.0.items) }
        ensures all { IfOk result (λ r. AreAllHarts self.now.harts r.0.items) }
    {
        let needed = words_needed(quick.as_slice());
        if needed > u64::from(self.code_words) {
            return Err(OpenRefusal::NoRoom {
                needed,
                room: self.code_words,
            });
        }
        let Ok(mut desk) = opened(alloc, self, opening, quick.as_slice(), needed as u32) else {
            return Err(OpenRefusal::NoMemory);
        };
        let Ok(seats) = hart_seats(&mut desk, alloc) else {
            return Err(OpenRefusal::NoMemory);
        };
        Ok((seats, Keeper { desk }))
    }
}

//! What a session comes to once all of its calls have ended.
ghost use Rattle.std.specs.Prelude.{◌≡◌, ◌+◌, ◌<◌, ◌≤◌, ℕ, [], length, sum_by, All, vec_capacity};
ghost use Rattle.ir_core.specs.Program.{Program};
ghost use Rattle.entry_counts.specs.Tally.{times};
ghost use Rattle.jit_session.specs.Runs.{AllRight, Each, HasAnswered, place_of};
ghost use Rattle.jit_session.specs.OpenedHarts.{parts_of};
ghost use Rattle.jit_session.specs.Settling.{IsRow, AreRows, AreAnswersOf, CanPart, column, seats_of};

use crate::runner::Runner;
use entry_counts::CountSeat;
use ir_meaning::calls::{Ended, ListedCall};
use redirect_cells::HartSeat;
use sqlite_items::Items;

/// The answers of all harts, in the order of their calls.
pub fn gather_answers<G>(runners: &[Runner<'_, G>], calls: &[ListedCall], answers: &mut Vec<Ended>)
    requires some { 0 < length runners.now }
    requires whole { Each (λ h r. length calls.now ≤ place_of (length runners.now) h (length r.answers.items)) runners.now }
    requires none { answers.old.items ≡ [] }
    requires room { length calls.now ≤ vec_capacity answers.old }
    ensures right { (program : Program) → Each (λ h r. HasAnswered program calls.now (length runners.now) h r.answers.items) runners.now → AllRight program calls.now answers.new.items }
    ensures same { Each (λ h r. AreAnswersOf (length calls.now) (length runners.now) h answers.new.items r.answers.items) runners.now }
{
    let harts = runners.len();
    for place in 0..calls.len() {
        answers.push_reserved(runners[place % harts].answers[place / harts]);
    }
}

// How often a seat counted each symbol.
fn row(counts: &CountSeat, symbols: u32, mut entries: Vec<u64>) -> Vec<u64>
    requires symbols { counts.now.counts.now.symbols ≡ symbols }
    requires none { entries.items ≡ [] }
    requires room { symbols ≤ vec_capacity entries }
    ensures { IsRow symbols counts.now result.items }
{
    for symbol in 0..symbols {
        entries.push_reserved(counts.own(symbol));
    }
    entries
}

/// Takes harts apart, in order: their seats, a row of what each counted, and all that they counted in one seat of the counts.
pub fn part<'a, G>(
    runners: Vec<Runner<'a, G>>,
    all: &mut CountSeat<'a>,
    symbols: u32,
    seats: &mut Vec<HartSeat<'a>>,
    by_hart: &mut Vec<Items<u64>>,
)
    requires parts { All (CanPart all.old.counts.now) runners.items }
    requires symbols { all.old.counts.now.symbols ≡ symbols }
    requires joined { all.old.seat.me.0.joined ≡ [] }
    requires none { (seats.old.items ≡ []) × (by_hart.old.items ≡ []) }
    requires room { (length runners.items ≤ vec_capacity seats.old) × (length runners.items ≤ vec_capacity by_hart.old) }
    ensures seats { seats.new.items ≡ seats_of runners.entry.items }
    ensures count { length by_hart.new.items ≡ length runners.entry.items }
    ensures rows { All (λ row. length row ≡ symbols) by_hart.new.items }
    ensures own { AreRows symbols runners.entry.items by_hart.new.items }
    ensures joined { (k : ℕ) → k < symbols → times k all.new.seat.me.0.joined ≡ column k by_hart.new.items }
    ensures parts { all.new.seat.me.0.parts ≡ all.old.seat.me.0.parts + sum_by parts_of runners.entry.items }
    ensures same { (all.new.counts ≡ all.old.counts) × (all.new.seat.me.0.own ≡ all.old.seat.me.0.own) }
{
    for runner in runners {
        let Runner {
            number: _,
            hart: _,
            bench,
            answers: _,
            entries,
        } = runner;
        let (seat, counts) = bench.parts();
        by_hart.push_reserved(Items::from_vec(row(&counts, symbols, entries)));
        seats.push_reserved(seat);
        all.join(counts);
    }
}

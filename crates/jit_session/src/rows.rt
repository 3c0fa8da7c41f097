//! The rows of symbols once all calls have ended.
ghost use Rattle.std.specs.Prelude.{◌≡◌, ◌≤◌, [], length, vec_capacity};
ghost use Rattle.jit_session.specs.Runs.{Each};
ghost use Rattle.jit_session.specs.Rows.{IsRowOf};

use entry_counts::CountSeat;
use redirect_cells::Keeper;
use session_types::SymbolRow;

/// A row for each of so many symbols: the entries that a seat with all parts has taken in, and the level and the words of the linked version.
pub fn fill_rows(
    keeper: &Keeper<'_>,
    all: &mut CountSeat<'_>,
    symbols: u32,
    rows: &mut Vec<SymbolRow>,
)
    requires table { keeper.now.desk.seat.table.now.functions ≡ symbols }
    requires symbols { all.old.counts.now.symbols ≡ symbols }
    requires whole { all.old.seat.me.0.parts ≡ 64 }
    requires own { all.old.seat.me.0.own ≡ [] }
    requires none { rows.old.items ≡ [] }
    requires room { symbols ≤ vec_capacity rows.old }
    ensures count { length rows.new.items ≡ symbols }
    ensures rows { Each (IsRowOf keeper.now.desk.shelf all.old.seat.me.0.joined) rows.new.items }
{
    for symbol in 0..symbols {
        let entries = all.total(symbol);
        rows.push_reserved(SymbolRow {
            entries,
            level: keeper.level(symbol),
            words: keeper.words(symbol),
        });
    }
}

//! What stands under the lock that workers share.
ghost use Rattle.std.specs.Prelude.{◌≡◌, ◌<◌, ◌≤◌, ◌∷◌, [], length, MatchOption};
ghost use Rattle.std.specs.Coded.{Coded-set, coded_list};
ghost use Rattle.ir_core.specs.Program.{Program};
ghost use Rattle.ir_meaning.specs.Meaning.{meaning};
ghost use Rattle.rv_play.specs.Good.{Good};
ghost use Rattle.redirect_cells.specs.contracts.table.CodeTable as code_table;
ghost use Rattle.jit_session.specs.Few.{HasFew};
ghost use Rattle.jit_session.specs.Shelves.{KeepsAll, IsRenewed};
ghost use Rattle.jit_session.specs.Names.{IsNamed};

use redirect_cells::Keeper;
use rv_play::version::Version;
use std::alloc::Global;
use std::marker::{Brand, PhantomData};

/// Names the code table of a session, in a list of one.
pub trait Naming {
    ghost use Rattle.std.specs.Prelude.{List};
    ghost use Rattle.redirect_cells.specs.declared.table.CodeTable.{CodeTable};

    ghost tables: { List CodeTable };
}

impl Naming for Brand {
    ghost use Rattle.std.specs.Prelude.{[]};

    ghost tables = { [] };
}

/// The keeper of the table that N names. It has few versions: a symbol gets another only at a higher level.
#[derive(Drop)]
pub struct Locked<'a, N: Naming> {
    keeper: Keeper<'a>,
    of: PhantomData<N>,
    ghost named: { N.tables ≡ keeper.desk.seat.table.now ∷ [] } by { Coded-set (coded_list code_table.the_row.coded) _ _ },
    ghost few: { HasFew keeper.desk.shelf },
}

impl<'a, N: Naming> Locked<'a, N> {
    pub fn new(keeper: Keeper<'a>) -> Locked<'a, N>
        requires named { N.tables ≡ keeper.desk.seat.table.now ∷ [] }
        requires few { HasFew keeper.desk.shelf }
    {
        Locked {
            keeper,
            of: PhantomData,
        }
    }

    pub fn into_keeper(self) -> Keeper<'a>
        ensures named { N.tables ≡ result.desk.seat.table.now ∷ [] }
        ensures few { HasFew result.desk.shelf }
    {
        let Locked { keeper, of: _ } = self;
        keeper
    }

    /// Collects, and publishes a version whose level is above its symbol's. Gives its base then; a version that is refused is dropped.
    pub fn publish(&mut self, alloc: Global, version: Version) -> Option<u64>
        requires good { (program : Program) × IsNamed N.tables program × Good (meaning program) version.symbol version.words × (version.symbol < length program.module_.functions) }
        requires level { version.level ≤ 3 }
        ensures { MatchOption result (KeepsAll self.old.keeper.desk.shelf self.new.keeper.desk.shelf) (IsRenewed self.old.keeper.desk.shelf self.new.keeper.desk.shelf version) }
    {
        self.keeper.collect();
        let (symbol, level) = (version.symbol, version.level);
        if level <= self.keeper.level(symbol) {
            return None;
        }
        match self.keeper.publish(alloc, version) {
            Ok(_) => Some(self.keeper.base(symbol)),
            Err(_) => None,
        }
    }
}

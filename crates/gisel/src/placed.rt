// From target code to words: phis become moves on edges, registers get places, and the code is laid out.
ghost use Rattle.std.specs.Prelude.{◌≡◌, ◌+◌, ◌<◌, ◌≤◌, ◌^◌, length, IfOk, IfErr};
ghost use Rattle.mir.specs.WellFormed.{IsWellFormed, HasNoPhi};
ghost use Rattle.phi_out.specs.Lowering.{edge_count};
ghost use Rattle.frame_out.specs.Words.{AreGood};
ghost use Rattle.gisel.specs.Good.{IsCrowded};

use frame_out::layout::lay_out;
use liveness::intervals::intervals;
use mir::code::MFunction;
use mir_play::laws::compiled_may_be_refined;
use phi_out::lowering::lower_phis;
use regalloc::place::{PlaceRefusal, place};
use rj_num::NoMemory;
use rv_play::version::MakeRefusal;
use sqlite_items::Items;
use std::alloc::Global;

/// Words of a function of target code without phis, in s0 to s10 and the slots of its frame.
fn laid_out(alloc: Global, function: &MFunction) -> Result<Items<u32>, MakeRefusal>
    requires formed { IsWellFormed function.now }
    requires without_phi { HasNoPhi function.now }
    requires few { length function.now.blocks < 2 ^ 32 }
    requires values { function.now.values ≤ 32764 }
    requires symbol { function.now.symbol < 1024 }
    ensures good { IfOk result (AreGood function.now) }
    ensures crowded { IfErr result (IsCrowded function.now.values) }
{
    let Ok(spans) = intervals(alloc, function) else {
        return Err(MakeRefusal::NoMemory);
    };
    let places = match place(alloc, &spans, 4 * function.values + 4) {
        Ok(places) => places,
        Err(PlaceRefusal::Crowded { point, overlap }) => {
            return Err(MakeRefusal::Crowded { point, overlap });
        }
        Err(PlaceRefusal::NoMemory) => return Err(MakeRefusal::NoMemory),
    };
    match lay_out(alloc, function, &places) {
        Ok(words) => Ok(words),
        Err(NoMemory) => Err(MakeRefusal::NoMemory),
    }
}

/// Words of a function of target code.
pub fn placed(alloc: Global, function: MFunction) -> Result<Items<u32>, MakeRefusal>
    requires formed { IsWellFormed function }
    requires regs { function.regs + 1 < 2 ^ 32 }
    requires few { length function.blocks + edge_count function < 2 ^ 32 }
    requires values { function.values ≤ 32764 }
    requires symbol { function.symbol < 1024 }
    ensures good { IfOk result (AreGood function) }
    ensures crowded { IfErr result (IsCrowded function.values) }
{
    compiled_may_be_refined();
    match lower_phis(alloc, function) {
        Ok(lowered) => laid_out(alloc, &lowered),
        Err(NoMemory) => Err(MakeRefusal::NoMemory),
    }
}

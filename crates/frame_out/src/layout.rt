// The words of a function of target code.
ghost use Rattle.std.specs.Prelude.{◌≡◌, ℕ, ◌^◌, ◌<◌, ◌≤◌, IfOk, Some, length};
ghost use Rattle.walks.specs.Face.{frame_of};
ghost use Rattle.mir.specs.declared.code.MInst.{MInst as Inst};
ghost use Rattle.mir.specs.declared.places.Intervals.{Intervals};
ghost use Rattle.mir.specs.Code.{inst_at};
ghost use Rattle.mir.specs.WellFormed.{IsWellFormed, HasNoPhi};
ghost use Rattle.mir.specs.Live.{Covers};
ghost use Rattle.mir.specs.Places.{Fits};
ghost use Rattle.frame_code.specs.Frame.{slots_of};
ghost use Rattle.frame_code.specs.Assembly.{code_of as code_of_function, IsLaidOut};
ghost use Rattle.frame_out.specs.Ready.{IsReady};
ghost use Rattle.frame_out.specs.Words.{AreGood};

use crate::placed::Placed;
use code_emit::labels::with_labels;
use mir::code::MFunction;
use mir::places::Places;
use rj_num::NoMemory;
use rv_asm::asm::Asm;
use sqlite_items::Items;
use std::alloc::Global;

// The code of a function, with a label for each block.
fn code_of(alloc: Global, function: &MFunction, places: &Places) -> Result<Asm, NoMemory>
    requires symbol { function.now.symbol < 1024 }
    requires small { frame_of function.now.values ≤ 2 ^ 20 }
    requires few { length function.now.blocks < 2 ^ 32 }
    requires ready { (b place : ℕ) (inst : Inst) → inst_at function.now b place ≡ Some inst → IsReady places.now inst }
    ensures { IfOk result (λ asm. asm ≡ code_of_function function.now places.now) }
{
    let placed = Placed::new(function, places);
    let count = function.blocks.len() as u32;
    let mut asm = with_labels(alloc, count)?;
    placed.put_entry(&mut asm, alloc)?;
    placed.put_blocks(&mut asm, alloc, count)?;
    Ok(asm)
}

/// The words of a function whose registers have these places: a register stands in s0 to s10 or in a slot of the frame, and operands in slots go through t0 to t2. Where the function
/// is compiled from one of a typed module with at most eight parameters, the words are a good version of that.
pub fn lay_out(alloc: Global, function: &MFunction, places: &Places) -> Result<Items<u32>, NoMemory>
    requires formed { IsWellFormed function.now }
    requires without_phi { HasNoPhi function.now }
    requires fits { (intervals : Intervals) × Covers function.now intervals × Fits intervals (slots_of function.now.values) places.now }
    requires small { frame_of function.now.values ≤ 2 ^ 20 }
    requires symbol { function.now.symbol < 1024 }
    requires few { length function.now.blocks < 2 ^ 32 }
    ensures words { IfOk result (λ words. IsLaidOut function.now places.now words) }
    ensures good { IfOk result (λ words. AreGood function.now words) }
{
    let asm = code_of(alloc, function, places)?;
    let words = asm.finish(alloc)?;
    Ok(Items::from_vec(words))
}

// The state behind an instruction.
ghost use Rattle.std.specs.Prelude.{◌≡◌, Some, slice_get};
ghost use Rattle.ir_meaning.specs.Step.{Goes as GoesTo, behind as behind_of, insts_at};
ghost use Rattle.ir_eval.specs.Beyond.{given_does};
ghost use Rattle.ir_eval.specs.Fits.{HasNumbers, IsBounded};
ghost use Rattle.ir_eval.specs.Turns.{came, shown};
ghost use Rattle.ir_ops.specs.Rows.{meant};

use crate::done::Done;
use crate::numbers::put;
use ir_core::code::Inst;
use ir_core::program::Function;
use ir_meaning::activation::Activation;
use ir_ops::memory::DataMemory;
use ir_ops::value::Computed;
use sqlite_items::Items;

/// The activation behind an instruction that gave this value.
pub fn pass(
    function: &Function,
    numbers: &Items<Items<u32>>,
    now: &mut Activation,
    inst: &Inst,
    value: Option<u128>,
)
    requires bounded { IsBounded function.now }
    requires numbers { HasNumbers function.now numbers.now }
    requires at { slice_get (insts_at function.now now.old.block) now.old.place ≡ Some inst.now }
    ensures { now.new ≡ behind_of function.now now.old inst.now value }
{
    let block = now.block;
    let place = now.place;
    put(
        function,
        numbers,
        &mut now.values,
        block,
        place,
        inst,
        value,
    );
    now.place = place + 1;
}

/// What an instruction leads to that gives this.
pub fn give(
    function: &Function,
    numbers: &Items<Items<u32>>,
    now: &mut Activation,
    memory: &DataMemory,
    inst: &Inst,
    computed: Computed,
) -> Done
    requires bounded { IsBounded function.now }
    requires numbers { HasNumbers function.now numbers.now }
    requires at { slice_get (insts_at function.now now.old.block) now.old.place ≡ Some inst.now }
    ensures { shown result now.new memory.now ≡ came now.old memory.now (given_does (λ value. GoesTo (behind_of function.now now.old inst.now value) memory.now) (meant computed)) }
{
    match computed {
        Computed::NoMeaning => Done::Breaks,
        Computed::Gives(value) => {
            pass(function, numbers, now, inst, value);
            Done::Goes
        }
    }
}

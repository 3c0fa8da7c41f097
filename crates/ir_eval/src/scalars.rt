// Instructions that compute a value of values alone.
ghost use Rattle.std.specs.Prelude.{◌≡◌, Some, true, slice_get};
ghost use Rattle.ir_eval.specs.Beyond.{is_scalar};
ghost use Rattle.ir_eval.specs.Code.{ArePlaces, program_with};
ghost use Rattle.ir_eval.specs.Fits.{AreTwo, HasNumbers, IsBounded, OpFits};
ghost use Rattle.ir_eval.specs.Turns.{came, shown};
ghost use Rattle.ir_meaning.specs.Step.{act, arguments_of, built_in as built_in_of, insts_at};
ghost use Rattle.ir_meaning.specs.Operators.{width as width_of};

use crate::behind::give;
use crate::done::Done;
use crate::operands::operand;
use ir_core::code::{BuiltIn, Inst, Op, Operand};
use ir_core::program::{Function, Module};
use ir_core::types::Ty;
use ir_meaning::activation::Activation;
use ir_ops::binary::binary;
use ir_ops::casts::{cast, width};
use ir_ops::choices::{built_in, freeze, select};
use ir_ops::compare::compare;
use ir_ops::memory::DataMemory;
use ir_ops::value::Computed;
use sqlite_items::Items;

/// What a built-in of two numbers gives.
pub fn of_two(
    all: &Module,
    room: u64,
    places: &[u64],
    values: &[Option<u128>],
    gives: Ty,
    which: BuiltIn,
    arguments: &[(Ty, Operand)],
) -> Option<u128>
    requires places { ArePlaces all.now.globals places.now }
    requires two { AreTwo gives (arguments_of (program_with all.now room) values.now arguments.now) }
    ensures { result ≡ built_in_of which (width_of gives) (arguments_of (program_with all.now room) values.now arguments.now) }
{
    let a = operand(all, room, places, values, arguments[0].1);
    let b = operand(all, room, places, values, arguments[1].1);
    built_in(which, width(gives), a, b)
}

/// One instruction that computes a value of values alone, or never does anything.
pub fn scalar(
    all: &Module,
    room: u64,
    places: &[u64],
    function: &Function,
    numbers: &Items<Items<u32>>,
    now: &mut Activation,
    memory: &DataMemory,
    inst: &Inst,
) -> Done
    requires places { ArePlaces all.now.globals places.now }
    requires bounded { IsBounded function.now }
    requires numbers { HasNumbers function.now numbers.now }
    requires at { slice_get (insts_at function.now now.old.block) now.old.place ≡ Some inst.now }
    requires kind { is_scalar inst.now.op ≡ true }
    requires fits { OpFits (program_with all.now room) now.old.values inst.now.gives inst.now.op }
    ensures { shown result now.new memory.now ≡ came now.old memory.now (act (program_with all.now room) function.now now.old memory.now inst.now inst.now.op).does }
{
    let values = now.values.as_slice();
    match &inst.op {
        Op::Binary(op, flags, a, b) => {
            let a = operand(all, room, places, values, *a);
            let b = operand(all, room, places, values, *b);
            give(
                function,
                numbers,
                now,
                memory,
                inst,
                binary(*op, *flags, width(inst.gives), a, b),
            )
        }
        Op::Icmp(pred, flags, ty, a, b) => {
            let a = operand(all, room, places, values, *a);
            let b = operand(all, room, places, values, *b);
            give(
                function,
                numbers,
                now,
                memory,
                inst,
                Computed::Gives(compare(*pred, *flags, width(*ty), a, b)),
            )
        }
        Op::Cast(op, flags, from, a) => {
            let a = operand(all, room, places, values, *a);
            give(
                function,
                numbers,
                now,
                memory,
                inst,
                Computed::Gives(cast(*op, *flags, *from, inst.gives, a)),
            )
        }
        Op::Select(condition, a, b) => {
            let condition = operand(all, room, places, values, *condition);
            let a = operand(all, room, places, values, *a);
            let b = operand(all, room, places, values, *b);
            give(
                function,
                numbers,
                now,
                memory,
                inst,
                Computed::Gives(select(condition, a, b)),
            )
        }
        Op::Freeze(a) => {
            let a = operand(all, room, places, values, *a);
            give(function, numbers, now, memory, inst, freeze(a))
        }
        _ => Done::Breaks,
    }
}

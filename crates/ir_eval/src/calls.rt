// Calls that can be evaluated.
ghost use Rattle.std.specs.Prelude.{◌≡◌, ◌↔◌, IsTrue};
ghost use Rattle.ir_eval.specs.Entries.{IsCall, are_args as are_args_of};

use ir_core::types::Ty;
use ir_meaning::calls::ListedCall;
use ir_verify::checked::Checked;
use ir_verify::ranges::number_fits;

/// As many numbers as types, each of its type's width.
fn are_args(types: &[Ty], args: &[u128]) -> bool
    ensures { result ≡ are_args_of types.now args.now }
{
    let [ty, more_types @ ..] = types else {
        return args.is_empty();
    };
    let [n, more @ ..] = args else {
        return false;
    };
    number_fits(*n, *ty) && are_args(more_types, more)
}

/// A call of a function of the module, with a number of its width for each parameter, and from 1 to 2^32 turns.
pub fn is_call(program: &Checked, call: &ListedCall) -> bool
    ensures { IsTrue result ↔ IsCall program.now call.now }
{
    let all = program.module();
    let function = match all.functions.get(call.symbol as usize) {
        None => return false,
        Some(function) => function,
    };
    if call.turns < 1 {
        return false;
    }
    if call.turns > 1 << 32 {
        return false;
    }
    are_args(function.params.as_slice(), call.args.as_slice())
}

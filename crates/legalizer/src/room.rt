// Whether the numbers of registers have room in a function's legal form.
ghost use Rattle.std.specs.Prelude.{◌≡◌, ◌+◌, ◌<◌, ◌≤◌, ◌^◌, length, min, MatchBool};
ghost use Rattle.gmir.specs.Formed.{IsFormed};
ghost use Rattle.legal_code.specs.Legal.{taken as taken_by, taken_all, spent, spent_insts, spent_blocks};
ghost use Rattle.legalizer.specs.Extends.{extension_of, AreNarrow};

use crate::extend::{Extended, extension};
use gmir::code::{GFunction, GInst, GOp, GType};

/// How many new registers an extension takes.
fn taken(extended: Extended) -> u64
    ensures { result ≡ taken_by (extension_of extended) }
{
    match extended {
        Extended::Kept => 0,
        Extended::ByZeros(_) => 2,
        Extended::BySigns(_) => 1,
    }
}

/// A count and the new registers of the operands' extensions, up to the greatest `u64`.
fn with_operands(count: u64, types: &[GType], inst: &GInst) -> u64
    requires { AreNarrow types.now }
    ensures { result ≡ min (count + taken_all types.now inst.now.op inst.now.num 0 inst.now.uses) 18446744073709551615 }
{
    let mut total = count;
    for (place, register) in inst.uses.as_slice().iter().enumerate() {
        total = total.saturating_add(taken(extension(types, inst, place, *register)));
    }
    total
}

/// A count and the new registers of an instruction's legal form, up to the greatest `u64`.
fn with_inst(count: u64, types: &[GType], inst: &GInst) -> u64
    requires { AreNarrow types.now }
    ensures { result ≡ min (count + spent types.now inst.now) 18446744073709551615 }
{
    match inst.op {
        GOp::ZExt => count.saturating_add(1),
        GOp::SExt => count,
        GOp::Trunc => count,
        GOp::AnyExt => count,
        _ => with_operands(count, types, inst),
    }
}

/// A count and the new registers of a block's legal form, up to the greatest `u64`.
fn with_block(count: u64, types: &[GType], insts: &[GInst]) -> u64
    requires { AreNarrow types.now }
    ensures { result ≡ min (count + spent_insts types.now insts.now) 18446744073709551615 }
{
    let mut total = count;
    for inst in insts {
        total = with_inst(total, types, inst);
    }
    total
}

/// The registers of a function's legal form, up to the greatest `u64`.
fn registers(function: &GFunction) -> u64
    requires { AreNarrow function.now.types }
    ensures { result ≡ min (length function.now.types + spent_blocks function.now.types function.now.blocks) 18446744073709551615 }
{
    let types = function.types.as_slice();
    let mut total = types.len() as u64;
    for insts in function.blocks.as_slice() {
        total = with_block(total, types, insts.as_slice());
    }
    total
}

/// The numbers of the registers in a function's legal form fit 32 bits. Takes time in the length of the function.
pub fn has_room(function: &GFunction) -> bool
    requires { IsFormed function.now }
    ensures { MatchBool result (length function.now.types + spent_blocks function.now.types function.now.blocks < 2 ^ 32)
        (2 ^ 32 ≤ length function.now.types + spent_blocks function.now.types function.now.blocks) }
{
    registers(function) < 1 << 32
}

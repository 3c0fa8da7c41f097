// Casts, from one width to another.
ghost use Rattle.std.specs.Prelude.{◌≡◌, ◌^◌, ◌<◌, ◌≤◌};
ghost use Rattle.ir_meaning.specs.Operators.{truncate as truncate_of, zero_extend as zero_extend_of, cast as cast_of, width as width_of};
ghost use Rattle.ir_meaning.specs.Ranges.{FitsWidth};
ghost use Rattle.ir_meaning.specs.Typed.{IsCast};
ghost use Rattle.ir_ops.specs.Rows.{IsWidth};

use crate::value::{is_negative, low};
use ir_core::code::{CastOp, Flags};
use ir_core::types::Ty;
use rj_num::width::extend;

/// The low bits: poison where the extension that a flag names doesn't give the operand back.
fn truncate(flags: Flags, from: u32, to: u32, n: u128) -> Option<u128>
    requires from { IsWidth from }
    requires to { IsWidth to }
    requires narrower { to < from }
    ensures { result ≡ truncate_of flags from to n }
{
    let bits = low(n, to);
    if flags.nuw && bits != n {
        return None;
    }
    if flags.nsw && extend(bits, to, from) != n {
        return None;
    }
    Some(bits)
}

fn zero_extend(flags: Flags, from: u32, n: u128) -> Option<u128>
    requires { IsWidth from }
    ensures { result ≡ zero_extend_of flags from n }
{
    if flags.nneg && is_negative(from, n) {
        return None;
    }
    Some(n)
}

/// The width of a type's numbers: a pointer is a number of 64 bits.
pub fn width(ty: Ty) -> u32
    ensures { result ≡ width_of ty }
{
    match ty {
        Ty::Void => 0,
        Ty::Int(width) => width,
        Ty::Ptr => 64,
    }
}

/// A cast between types that it goes between.
pub fn cast(op: CastOp, flags: Flags, from: Ty, to: Ty, a: Option<u128>) -> Option<u128>
    requires types { IsCast op from to }
    requires a { FitsWidth (width_of from) a }
    ensures { result ≡ cast_of op flags (width_of from) (width_of to) a }
{
    let n = match a {
        None => return None,
        Some(n) => n,
    };
    match op {
        CastOp::Trunc => truncate(flags, width(from), width(to), n),
        CastOp::ZExt => zero_extend(flags, width(from), n),
        CastOp::SExt => Some(extend(n, width(from), width(to))),
        CastOp::PtrToInt => Some(low(n, width(to))),
        CastOp::IntToPtr => Some(low(n, width(to))),
        CastOp::Same => Some(n),
    }
}

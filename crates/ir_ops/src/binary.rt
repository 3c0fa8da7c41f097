// Operators of two values of one width.
ghost use Rattle.std.specs.Prelude.{◌≡◌, ◌^◌, ◌<◌, Some};
ghost use Rattle.ir_meaning.specs.Operators.{binary as binary_of, or as or_of};
ghost use Rattle.ir_meaning.specs.Ranges.{FitsWidth};
ghost use Rattle.ir_ops.specs.Rows.{IsPoison, IsWidth, meant};

use crate::quotients::{sdiv, srem, udiv, urem};
use crate::shifts::{ashr, lshr, shl};
use crate::sums::{add, mul, sub};
use crate::value::Computed;
use ir_core::code::{BinOp, Flags};

/// `or`: poison where a flag says that there is no common one, and there is.
fn or(flags: Flags, width: u32, a: u128, b: u128) -> Option<u128>
    ensures { result ≡ or_of flags width a b }
{
    if flags.disjoint && a & b != 0 {
        return None;
    }
    Some(a | b)
}

/// What an operator gives of two numbers.
fn of_numbers(op: BinOp, flags: Flags, width: u32, a: u128, b: u128) -> Computed
    requires width { IsWidth width }
    requires a { a < 2 ^ width }
    requires b { b < 2 ^ width }
    ensures { meant result ≡ binary_of op flags width (Some a) (Some b) }
{
    match op {
        BinOp::Add => Computed::Gives(add(flags, width, a, b)),
        BinOp::Sub => Computed::Gives(sub(flags, width, a, b)),
        BinOp::Mul => Computed::Gives(mul(flags, width, a, b)),
        BinOp::UDiv => udiv(flags, width, Some(a), Some(b)),
        BinOp::SDiv => sdiv(flags, width, Some(a), Some(b)),
        BinOp::URem => urem(flags, width, Some(a), Some(b)),
        BinOp::SRem => srem(flags, width, Some(a), Some(b)),
        BinOp::Shl => Computed::Gives(shl(flags, width, a, b)),
        BinOp::LShr => Computed::Gives(lshr(flags, width, a, b)),
        BinOp::AShr => Computed::Gives(ashr(flags, width, a, b)),
        BinOp::And => Computed::Gives(Some(a & b)),
        BinOp::Or => Computed::Gives(or(flags, width, a, b)),
        BinOp::Xor => Computed::Gives(Some(a ^ b)),
    }
}

/// What an operator gives where an operand is poison.
fn of_poison(op: BinOp, flags: Flags, width: u32, a: Option<u128>, b: Option<u128>) -> Computed
    requires width { IsWidth width }
    requires a { FitsWidth width a }
    requires b { FitsWidth width b }
    requires poison { IsPoison a b }
    ensures { meant result ≡ binary_of op flags width a b }
{
    match op {
        BinOp::UDiv => udiv(flags, width, a, b),
        BinOp::SDiv => sdiv(flags, width, a, b),
        BinOp::URem => urem(flags, width, a, b),
        BinOp::SRem => srem(flags, width, a, b),
        _ => Computed::Gives(None),
    }
}

/// What an operator gives.
pub fn binary(op: BinOp, flags: Flags, width: u32, a: Option<u128>, b: Option<u128>) -> Computed
    requires width { IsWidth width }
    requires a { FitsWidth width a }
    requires b { FitsWidth width b }
    ensures { meant result ≡ binary_of op flags width a b }
{
    match (a, b) {
        (Some(a), Some(b)) => of_numbers(op, flags, width, a, b),
        (None, _) | (Some(_), None) => of_poison(op, flags, width, a, b),
    }
}

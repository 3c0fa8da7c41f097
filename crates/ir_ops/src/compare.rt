// Comparisons: a number of one bit.
ghost use Rattle.std.specs.Prelude.{◌≡◌, ◌^◌, ◌<◌};
ghost use Rattle.ir_meaning.specs.Operators.{holds as holds_of, compare as compare_of};
ghost use Rattle.ir_meaning.specs.Ranges.{FitsWidth};
ghost use Rattle.ir_ops.specs.Rows.{IsWidth};

use crate::value::is_negative;
use ir_core::code::{Flags, Pred};
use rj_num::width::sign_of;

fn holds(pred: Pred, width: u32, a: u128, b: u128) -> bool
    requires width { IsWidth width }
    requires a { a < 2 ^ width }
    requires b { b < 2 ^ width }
    ensures { result ≡ holds_of pred width a b }
{
    match pred {
        Pred::Eq => a == b,
        Pred::Ne => a != b,
        Pred::Ugt => a > b,
        Pred::Uge => a >= b,
        Pred::Ult => a < b,
        Pred::Ule => a <= b,
        Pred::Sgt => sign_of(a, width) > sign_of(b, width),
        Pred::Sge => sign_of(a, width) >= sign_of(b, width),
        Pred::Slt => sign_of(a, width) < sign_of(b, width),
        Pred::Sle => sign_of(a, width) <= sign_of(b, width),
    }
}

/// `icmp`: of two pointers at the width 64.
pub fn compare(
    pred: Pred,
    flags: Flags,
    width: u32,
    a: Option<u128>,
    b: Option<u128>,
) -> Option<u128>
    requires width { IsWidth width }
    requires a { FitsWidth width a }
    requires b { FitsWidth width b }
    ensures { result ≡ compare_of pred flags width a b }
{
    match (a, b) {
        (None, _) | (Some(_), None) => None,
        (Some(a), Some(b)) => {
            if flags.samesign && is_negative(width, a) != is_negative(width, b) {
                None
            } else if holds(pred, width, a, b) {
                Some(1)
            } else {
                Some(0)
            }
        }
    }
}

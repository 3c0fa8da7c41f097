// Quotients and remainders: undefined where the divisor is 0 or poison, or the least value is divided by -1.
ghost use Rattle.std.specs.Prelude.{◌≡◌, ◌^◌, ◌<◌};
ghost use Rattle.ir_meaning.specs.Operators.{unsigned_quotient as unsigned_quotient_of, signed_quotient as signed_quotient_of, signed_remainder as signed_remainder_of, unsigned_remainder, unsigned_division, signed_division, overflows_quotient as overflows_quotient_of};
ghost use Rattle.ir_meaning.specs.Ranges.{FitsWidth};
ghost use Rattle.ir_ops.specs.Rows.{IsWidth, meant};

use crate::value::{Computed, signed_ratio, signed_rest};
use ir_core::code::Flags;
use rj_num::width::{mask, wrap};

fn unsigned_quotient(flags: Flags, width: u32, a: u128, b: u128) -> Option<u128>
    requires { 0 < b }
    ensures { result ≡ unsigned_quotient_of flags width a b }
{
    if flags.exact && a % b != 0 {
        return None;
    }
    Some(a / b)
}

fn signed_quotient(flags: Flags, width: u32, a: u128, b: u128) -> Option<u128>
    requires width { IsWidth width }
    requires a { a < 2 ^ width }
    requires b { (0 < b) × (b < 2 ^ width) }
    ensures { result ≡ signed_quotient_of flags width a b }
{
    if flags.exact && wrap(signed_rest(width, a, b), width) != 0 {
        return None;
    }
    Some(wrap(signed_ratio(width, a, b), width))
}

fn signed_remainder(flags: Flags, width: u32, a: u128, b: u128) -> Option<u128>
    requires width { IsWidth width }
    requires a { a < 2 ^ width }
    requires b { (0 < b) × (b < 2 ^ width) }
    ensures { result ≡ signed_remainder_of flags width a b }
{
    Some(wrap(signed_rest(width, a, b), width))
}

/// The least value is divided by -1.
fn overflows_quotient(width: u32, a: u128, b: u128) -> bool
    requires { IsWidth width }
    ensures { result ≡ overflows_quotient_of width a b }
{
    a == 1 << (width - 1) && b == mask(width)
}

/// `udiv`.
pub fn udiv(flags: Flags, width: u32, a: Option<u128>, b: Option<u128>) -> Computed
    ensures { meant result ≡ unsigned_division (unsigned_quotient_of flags width) a b }
{
    match (a, b) {
        (_, None) | (_, Some(0)) => Computed::NoMeaning,
        (None, Some(_)) => Computed::Gives(None),
        (Some(a), Some(b)) => Computed::Gives(unsigned_quotient(flags, width, a, b)),
    }
}

/// `urem`.
pub fn urem(flags: Flags, width: u32, a: Option<u128>, b: Option<u128>) -> Computed
    ensures { meant result ≡ unsigned_division (unsigned_remainder flags width) a b }
{
    match (a, b) {
        (_, None) | (_, Some(0)) => Computed::NoMeaning,
        (None, Some(_)) => Computed::Gives(None),
        (Some(a), Some(b)) => Computed::Gives(Some(a % b)),
    }
}

/// `sdiv`.
pub fn sdiv(flags: Flags, width: u32, a: Option<u128>, b: Option<u128>) -> Computed
    requires width { IsWidth width }
    requires a { FitsWidth width a }
    requires b { FitsWidth width b }
    ensures { meant result ≡ signed_division width (signed_quotient_of flags width) a b }
{
    match (a, b) {
        (_, None) | (_, Some(0)) => Computed::NoMeaning,
        (None, Some(_)) => Computed::Gives(None),
        (Some(a), Some(b)) => {
            if overflows_quotient(width, a, b) {
                Computed::NoMeaning
            } else {
                Computed::Gives(signed_quotient(flags, width, a, b))
            }
        }
    }
}

/// `srem`.
pub fn srem(flags: Flags, width: u32, a: Option<u128>, b: Option<u128>) -> Computed
    requires width { IsWidth width }
    requires a { FitsWidth width a }
    requires b { FitsWidth width b }
    ensures { meant result ≡ signed_division width (signed_remainder_of flags width) a b }
{
    match (a, b) {
        (_, None) | (_, Some(0)) => Computed::NoMeaning,
        (None, Some(_)) => Computed::Gives(None),
        (Some(a), Some(b)) => {
            if overflows_quotient(width, a, b) {
                Computed::NoMeaning
            } else {
                Computed::Gives(signed_remainder(flags, width, a, b))
            }
        }
    }
}

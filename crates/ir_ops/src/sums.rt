// Sums, differences and products: modulo two to the width, poison on the overflow that a flag names.
ghost use Rattle.std.specs.Prelude.{◌≡◌, ◌^◌, ◌<◌};
ghost use Rattle.ir_meaning.specs.Operators.{add as add_of, sub as sub_of, mul as mul_of};
ghost use Rattle.ir_ops.specs.Rows.{IsWidth};

use crate::value::{difference, low, product, signed_difference, signed_product, signed_sum, sum};
use ir_core::code::Flags;
use rj_num::width::{fits_signed, fits_unsigned, wrap};

/// A sum of two numbers of the width.
pub fn add(flags: Flags, width: u32, a: u128, b: u128) -> Option<u128>
    requires width { IsWidth width }
    requires a { a < 2 ^ width }
    requires b { b < 2 ^ width }
    ensures { result ≡ add_of flags width a b }
{
    let sum = sum(width, a, b);
    if flags.nuw && !fits_unsigned(sum, width) {
        return None;
    }
    if flags.nsw && !fits_signed(signed_sum(width, a, b), width) {
        return None;
    }
    Some(low(sum, width))
}

/// A difference of two numbers of the width.
pub fn sub(flags: Flags, width: u32, a: u128, b: u128) -> Option<u128>
    requires width { IsWidth width }
    requires a { a < 2 ^ width }
    requires b { b < 2 ^ width }
    ensures { result ≡ sub_of flags width a b }
{
    if flags.nuw && a < b {
        return None;
    }
    if flags.nsw && !fits_signed(signed_difference(width, a, b), width) {
        return None;
    }
    Some(wrap(difference(width, a, b), width))
}

/// A product of two numbers of the width.
pub fn mul(flags: Flags, width: u32, a: u128, b: u128) -> Option<u128>
    requires width { IsWidth width }
    requires a { a < 2 ^ width }
    requires b { b < 2 ^ width }
    ensures { result ≡ mul_of flags width a b }
{
    let product = product(width, a, b);
    if flags.nuw && !fits_unsigned(product, width) {
        return None;
    }
    if flags.nsw && !fits_signed(signed_product(width, a, b), width) {
        return None;
    }
    Some(low(product, width))
}

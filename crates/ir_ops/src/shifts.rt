// Shifts: poison where the amount is at least the width, or where a flag is broken.
ghost use Rattle.std.specs.Prelude.{◌≡◌, ◌-◌, ◌^◌, ◌<◌, if◌then◌else◌};
ghost use Rattle.rj_num.specs.Width.{is_negative as is_negative_of};
ghost use Rattle.ir_meaning.specs.Operators.{shift, shl as shl_of, lshr as lshr_of, ashr as ashr_of, out_left as out_left_of, out_right as out_right_of, keeps_sign as keeps_sign_of, shifted_left as shifted_left_of};
ghost use Rattle.ir_ops.specs.Rows.{IsWidth};

use crate::value::{is_negative, low};
use ir_core::code::Flags;
use rj_num::width::mask;

/// The bits that are shifted out to the left.
fn out_left(width: u32, a: u128, by: u32) -> u128
    requires width { IsWidth width }
    requires by { by < width }
    ensures { result ≡ out_left_of width a by }
{
    a >> (width - by)
}

/// The bits that are shifted out to the right.
fn out_right(width: u32, a: u128, by: u32) -> u128
    requires width { IsWidth width }
    requires by { by < width }
    ensures { result ≡ out_right_of a by }
{
    a % (1 << by)
}

fn shifted_left(width: u32, a: u128, by: u32) -> u128
    requires width { IsWidth width }
    requires a { a < 2 ^ width }
    requires by { by < width }
    ensures value { result ≡ shifted_left_of width a by }
    ensures within { result < 2 ^ width }
{
    low(a << by, width)
}

/// Each bit that is shifted out to the left is the sign bit of the result.
fn keeps_sign(width: u32, a: u128, by: u32) -> bool
    requires width { IsWidth width }
    requires a { a < 2 ^ width }
    requires by { by < width }
    ensures { result ≡ keeps_sign_of width a by }
{
    let signs = if is_negative(width, shifted_left(width, a, by)) {
        (1 << by) - 1
    } else {
        0
    };
    out_left(width, a, by) == signs
}

/// `shl` of two numbers of the width.
pub fn shl(flags: Flags, width: u32, a: u128, by: u128) -> Option<u128>
    requires width { IsWidth width }
    requires a { a < 2 ^ width }
    ensures { result ≡ shift (shl_of flags width) width a by }
{
    if by >= u128::from(width) {
        return None;
    }
    let by = by as u32;
    if flags.nuw && out_left(width, a, by) != 0 {
        return None;
    }
    if flags.nsw && !keeps_sign(width, a, by) {
        return None;
    }
    Some(shifted_left(width, a, by))
}

/// `lshr` of two numbers of the width.
pub fn lshr(flags: Flags, width: u32, a: u128, by: u128) -> Option<u128>
    requires width { IsWidth width }
    ensures { result ≡ shift (lshr_of flags width) width a by }
{
    if by >= u128::from(width) {
        return None;
    }
    let by = by as u32;
    if flags.exact && out_right(width, a, by) != 0 {
        return None;
    }
    Some(a >> by)
}

/// The copies of the sign bit that come in from the left.
fn sign_bits(width: u32, a: u128, by: u32) -> u128
    requires width { IsWidth width }
    requires by { by < width }
    ensures value { result ≡ (if is_negative_of width a then 2 ^ width - 2 ^ (width - by) else 0) }
    ensures within { result < 2 ^ width }
{
    if is_negative(width, a) {
        mask(width) - mask(width - by)
    } else {
        0
    }
}

/// `ashr` of two numbers of the width.
pub fn ashr(flags: Flags, width: u32, a: u128, by: u128) -> Option<u128>
    requires width { IsWidth width }
    requires a { a < 2 ^ width }
    ensures { result ≡ shift (ashr_of flags width) width a by }
{
    if by >= u128::from(width) {
        return None;
    }
    let by = by as u32;
    if flags.exact && out_right(width, a, by) != 0 {
        return None;
    }
    Some((a >> by) + sign_bits(width, a, by))
}

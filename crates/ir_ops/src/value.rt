// What an instruction gives, and numbers of a width. In values None is poison.
ghost use Rattle.std.specs.Prelude.{◌≡◌, ◌+◌, ◌-◌, ◌*◌, ◌%◌, ◌^◌, ◌<◌, ◌≤◌, ◌≢◌, ◌-ℤ◌, ◌+ℤ◌, ◌*ℤ◌, pos, unsigned_abs, int_div, int_rem};
ghost use Rattle.ir_ops.specs.Rows.{IsWidth};
ghost use Rattle.rj_num.specs.Width.{signed as signed_of, is_negative as is_negative_of};

use rj_num::width::{mask, sign_of};

/// What an instruction gives where it may be undefined.
#[derive(Clone, Copy, PartialEq, Eq, Drop)]
pub enum Computed {
    Gives(Option<u128>),
    NoMeaning,
}

/// The low bits of a number.
pub fn low(value: u128, width: u32) -> u128
    requires { IsWidth width }
    ensures value { result ≡ value % 2 ^ width }
    ensures within { result < 2 ^ width }
{
    value & mask(width)
}

/// The sign bit of a number of a width is set.
pub fn is_negative(width: u32, value: u128) -> bool
    requires { IsWidth width }
    ensures { result ≡ is_negative_of width value }
{
    !(value < 1 << (width - 1))
}

/// A number of a width, read with its sign.
pub fn signed(width: u32, a: u128) -> i128
    requires width { IsWidth width }
    requires a { a < 2 ^ width }
    ensures value { result ≡ signed_of width a }
    ensures within { unsigned_abs result ≤ 2 ^ 63 }
{
    sign_of(a, width)
}

/// A sum of numbers of a width.
pub fn sum(width: u32, a: u128, b: u128) -> u128
    requires width { IsWidth width }
    requires a { a < 2 ^ width }
    requires b { b < 2 ^ width }
    ensures { result ≡ a + b }
{
    a + b
}

/// A difference of numbers of a width.
pub fn difference(width: u32, a: u128, b: u128) -> i128
    requires width { IsWidth width }
    requires a { a < 2 ^ width }
    requires b { b < 2 ^ width }
    ensures { result ≡ pos a -ℤ pos b }
{
    a as i128 - b as i128
}

/// A product of numbers of a width.
pub fn product(width: u32, a: u128, b: u128) -> u128
    requires width { IsWidth width }
    requires a { a < 2 ^ width }
    requires b { b < 2 ^ width }
    ensures { result ≡ a * b }
{
    a * b
}

/// A sum of numbers of a width, read with their signs.
pub fn signed_sum(width: u32, a: u128, b: u128) -> i128
    requires width { IsWidth width }
    requires a { a < 2 ^ width }
    requires b { b < 2 ^ width }
    ensures { result ≡ signed_of width a +ℤ signed_of width b }
{
    signed(width, a) + signed(width, b)
}

/// A difference of numbers of a width, read with their signs.
pub fn signed_difference(width: u32, a: u128, b: u128) -> i128
    requires width { IsWidth width }
    requires a { a < 2 ^ width }
    requires b { b < 2 ^ width }
    ensures { result ≡ signed_of width a -ℤ signed_of width b }
{
    signed(width, a) - signed(width, b)
}

/// A product of numbers of a width, read with their signs.
pub fn signed_product(width: u32, a: u128, b: u128) -> i128
    requires width { IsWidth width }
    requires a { a < 2 ^ width }
    requires b { b < 2 ^ width }
    ensures { result ≡ signed_of width a *ℤ signed_of width b }
{
    signed(width, a) * signed(width, b)
}

/// A quotient of numbers of a width, read with their signs, towards zero.
pub fn signed_ratio(width: u32, a: u128, b: u128) -> i128
    requires width { IsWidth width }
    requires a { a < 2 ^ width }
    requires b { (0 < b) × (b < 2 ^ width) }
    ensures { result ≡ int_div (signed_of width a) (signed_of width b) }
{
    signed(width, a) / signed(width, b)
}

/// What such a quotient leaves, with the dividend's sign.
pub fn signed_rest(width: u32, a: u128, b: u128) -> i128
    requires width { IsWidth width }
    requires a { a < 2 ^ width }
    requires b { (0 < b) × (b < 2 ^ width) }
    ensures { result ≡ int_rem (signed_of width a) (signed_of width b) }
{
    signed(width, a) % signed(width, b)
}

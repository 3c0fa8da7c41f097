// Choices between values.
ghost use Rattle.std.specs.Prelude.{◌≡◌, ◌^◌, ◌<◌, [], ◌∷◌, Option};
ghost use Rattle.ir_meaning.specs.Operators.{select as select_of, freeze as freeze_of, signed_max as signed_max_of, signed_min as signed_min_of, absolute as absolute_of};
ghost use Rattle.ir_meaning.specs.Step.{built_in as built_in_of};
ghost use Rattle.ir_meaning.specs.Ranges.{FitsWidth};
ghost use Rattle.ir_ops.specs.Rows.{IsWidth, meant};

use crate::value::{Computed, is_negative};
use ir_core::code::BuiltIn;
use rj_num::width::{mask, sign_of};

/// Poison where the condition is poison, else the chosen value.
pub fn select(condition: Option<u128>, a: Option<u128>, b: Option<u128>) -> Option<u128>
    ensures { result ≡ select_of condition a b }
{
    match condition {
        None => None,
        Some(chosen) => { if chosen == 0 { b } else { a } }
    }
}

/// The value, undefined where it is poison.
pub fn freeze(a: Option<u128>) -> Computed
    ensures { meant result ≡ freeze_of a }
{
    match a {
        None => Computed::NoMeaning,
        Some(n) => Computed::Gives(Some(n)),
    }
}

fn signed_max(width: u32, a: u128, b: u128) -> Option<u128>
    requires width { IsWidth width }
    requires a { a < 2 ^ width }
    requires b { b < 2 ^ width }
    ensures { result ≡ signed_max_of width a b }
{
    if sign_of(a, width) < sign_of(b, width) {
        Some(b)
    } else {
        Some(a)
    }
}

fn signed_min(width: u32, a: u128, b: u128) -> Option<u128>
    requires width { IsWidth width }
    requires a { a < 2 ^ width }
    requires b { b < 2 ^ width }
    ensures { result ≡ signed_min_of width a b }
{
    if sign_of(b, width) < sign_of(a, width) {
        Some(b)
    } else {
        Some(a)
    }
}

/// Modulo two to the width: the least value is its own, and poison where the second operand is true.
fn absolute(width: u32, n: u128, least_is_poison: u128) -> Option<u128>
    requires width { IsWidth width }
    requires n { n < 2 ^ width }
    ensures { result ≡ absolute_of width n least_is_poison }
{
    if n == 1 << (width - 1) && least_is_poison != 0 {
        return None;
    }
    if is_negative(width, n) {
        Some(mask(width) - n + 1)
    } else {
        Some(n)
    }
}

/// What a built-in of two numbers gives.
fn of_numbers(which: BuiltIn, width: u32, a: u128, b: u128) -> Option<u128>
    requires width { IsWidth width }
    requires a { a < 2 ^ width }
    requires b { b < 2 ^ width }
    ensures { result ≡ built_in_of which width (Option.Some a ∷ Option.Some b ∷ []) }
{
    match which {
        BuiltIn::MemCpy | BuiltIn::MemMove | BuiltIn::MemSet => None,
        BuiltIn::SMax => signed_max(width, a, b),
        BuiltIn::SMin => signed_min(width, a, b),
        BuiltIn::UMax => Some(if a < b { b } else { a }),
        BuiltIn::UMin => Some(if b < a { b } else { a }),
        BuiltIn::Abs => absolute(width, a, b),
    }
}

/// What a built-in of two values gives; poison where it moves bytes.
pub fn built_in(which: BuiltIn, width: u32, a: Option<u128>, b: Option<u128>) -> Option<u128>
    requires width { IsWidth width }
    requires a { FitsWidth width a }
    requires b { FitsWidth width b }
    ensures { result ≡ built_in_of which width (a ∷ b ∷ []) }
{
    match (a, b) {
        (None, _) | (Some(_), None) => None,
        (Some(a), Some(b)) => of_numbers(which, width, a, b),
    }
}

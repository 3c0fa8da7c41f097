//! What numbers say in the place of a constant.
ghost use Rattle.std.specs.Prelude.{◌≡◌, ◌<◌, ◌≤◌, ◌^◌, ℕ};
ghost use Rattle.ir_types.specs.Walk.{Gives};
ghost use Rattle.ir_resolve.specs.Literals.{literal_from, literal_of, widened, extended};

use ir_core::types::MAX_WIDTH;
use ir_text::Number;
use ir_types::{Fault, literal, natural};

/// A number of a width.
#[tactic(auto, unfolding(crate::specs::Literals::literal_of))]
pub fn literal_of(number: &Number, width: u32) -> Result<u128, Fault>
    ensures { Gives (λ value. value) result (literal_of number.now width) }
{
    match natural(number.digits.as_slice()) {
        Some(value) => match literal(width, number.is_negative, value) {
            Some(value) => Ok(value),
            None => Err(Fault::Syntax(number.left)),
        },
        None => Err(Fault::Syntax(number.left)),
    }
}

/// A number below a bound, read with its sign and modulo 2^64.
fn widened(bound: u128, number: u128) -> u64
    requires small { (number < bound) × (bound ≤ 2 ^ 64) }
    ensures { result ≡ widened bound number }
{
    if 2 * number < bound {
        number as u64
    } else {
        (number + (1 << 64) - bound) as u64
    }
}

/// A literal of a width, sign-extended to 64 bits.
pub fn extended(width: u32, number: u128) -> Option<u64>
    ensures { result ≡ extended width number }
{
    if width > MAX_WIDTH {
        return None;
    }
    let bound = 1u128 << width;
    if number < bound {
        Some(widened(bound, number))
    } else {
        None
    }
}

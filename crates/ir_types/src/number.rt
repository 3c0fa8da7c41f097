ghost use Rattle.std.specs.Prelude.{◌≡◌, ◌^◌, ◌<◌, ◌≤◌, ◌*◌, ◌+◌};
ghost use Rattle.ir_types.specs.Numbers.{natural, small, literal, negative};

use ir_core::types::MAX_WIDTH;

/// A number with a digit behind it, or none at 2^128 and above.
fn shifted(number: u128, digit: u128) -> Option<u128>
    ensures { result ≡ small (number * 10 + digit) }
{
    number.checked_mul(10)?.checked_add(digit)
}

/// The number that decimal digits stand for, or none at 2^128 and above.
pub fn natural(digits: &[u8]) -> Option<u128>
    ensures { result ≡ natural digits.now }
{
    let mut number: u128 = 0;
    for digit in digits {
        let more = u128::from(digit.saturating_sub(b'0'));
        number = match shifted(number, more) {
            Some(next) => next,
            None => return None,
        };
    }
    Some(number)
}

/// A literal of a width: a number from -2^(w-1) to 2^w - 1, modulo 2^w.
pub fn literal(width: u32, is_negative: bool, number: u128) -> Option<u128>
    ensures { result ≡ literal width is_negative number }
{
    if width > MAX_WIDTH {
        return None;
    }
    let bound = 1u128 << width;
    if is_negative {
        negative(bound, number)
    } else if number < bound {
        Some(number)
    } else {
        None
    }
}

/// A negative number modulo a bound, where it isn't below minus half of that.
fn negative(bound: u128, number: u128) -> Option<u128>
    requires small { (1 ≤ bound) × (bound ≤ 2 ^ 64) }
    ensures { result ≡ negative bound number }
{
    if number <= bound / 2 {
        Some((bound - number) % bound)
    } else {
        None
    }
}

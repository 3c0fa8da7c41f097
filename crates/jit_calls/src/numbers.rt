// Numbers in a list of calls.
ghost use Rattle.std.specs.Prelude.{◌≡◌, ◌≤◌, ◌<◌, ◌^◌, IfSome, IfNone};
ghost use Rattle.ir_types.specs.Numbers.{decimal, literal};
ghost use Rattle.jit_calls.specs.Numbers.{some_digits, if_between, number_between, number, width_of};
ghost use Rattle.jit_calls.specs.Reads.{Steps};

use crate::cursor::Cursor;
use crate::form::Refusal;
use ir_core::types::MAX_WIDTH;
use ir_types::{literal, natural};

/// One digit or more.
#[tactic(auto, unfolding(crate::specs::Numbers::some_digits))]
pub fn some_digits<'a>(cursor: &mut Cursor<'a>) -> Result<&'a [u8], Refusal>
    ensures { Steps (λ digits. digits.now) result cursor.new (some_digits.read cursor.old) }
{
    match cursor.digits() {
        [] => Err(Refusal::Form),
        digits => Ok(digits),
    }
}

/// The number of these digits, where it is in these bounds.
fn if_between(least: u64, most: u64, digits: &[u8]) -> Option<u64>
    ensures { result ≡ if_between least most (decimal digits.now) }
{
    match natural(digits) {
        Some(n) if u128::from(least) <= n && n <= u128::from(most) => Some(n as u64),
        _ => None,
    }
}

/// Digits of a number in these bounds, both included.
#[tactic(auto, unfolding(crate::specs::Numbers::number_between))]
pub fn number_between(cursor: &mut Cursor, least: u64, most: u64) -> Result<u64, Refusal>
    ensures { Steps (λ n. n) result cursor.new ((number_between least most).read cursor.old) }
{
    let digits = some_digits(cursor)?;
    match if_between(least, most, digits) {
        Some(n) => Ok(n),
        None => Err(Refusal::Form),
    }
}

/// The value of a number of a width of at most 64, where it is one of the width.
fn literal_of(width: u32, is_negative: bool, digits: &[u8]) -> Option<u128>
    ensures { result ≡ literal width is_negative (decimal digits.now) }
{
    literal(width, is_negative, natural(digits)?)
}

/// A number of a width: its value, where it is one of the width.
#[tactic(auto, unfolding(crate::specs::Numbers::number))]
pub fn number(cursor: &mut Cursor, width: u32) -> Result<Option<u128>, Refusal>
    ensures { Steps (λ value. value) result cursor.new ((number width).read cursor.old) }
{
    if cursor.begins(b"-") {
        cursor.literal(b"-")?;
        let digits = some_digits(cursor)?;
        Ok(literal_of(width, true, digits))
    } else {
        let digits = some_digits(cursor)?;
        Ok(literal_of(width, false, digits))
    }
}

/// The width that these digits say; 0 where it is above the greatest.
pub fn width_of(digits: &[u8]) -> u32
    ensures { result ≡ width_of (decimal digits.now) }
{
    match natural(digits) {
        Some(n) if n <= u128::from(MAX_WIDTH) => n as u32,
        _ => 0,
    }
}

ghost use Rattle.std.specs.Prelude.{◌≡◌, ◌≤◌, ◌&&◌, ℕ, nat_le, length, option_map, option_and_then, IfSome};
ghost use Rattle.std.specs.List.{list_all};
ghost use Rattle.std.specs.Char.{is_ascii_digit};
ghost use Rattle.command_words.specs.Commands.{number, within, number_within, number_or};

/// Whether each byte is a decimal digit.
fn is_digits(bytes: &[u8]) -> bool
    ensures { result ≡ list_all is_ascii_digit bytes.now }
{
    bytes.iter().all(|byte| byte.is_ascii_digit())
}

/// Whether the text is 1 to 20 decimal digits.
fn is_number(text: &str) -> bool
    ensures { result ≡ (nat_le 1 (length text.now) && nat_le (length text.now) 20 && list_all is_ascii_digit text.now) }
{
    let digits = text.as_bytes();
    1 <= digits.len() && digits.len() <= 20 && is_digits(digits)
}

/// The number of 1 to 20 decimal digits, or none at 2^64 and above.
fn number(text: &str) -> Option<u64>
    ensures { result ≡ option_and_then (within 0 18446744073709551615) (number text.now) }
{
    if is_number(text) {
        text.parse::<u64>().ok()
    } else {
        None
    }
}

/// The number of 1 to 20 decimal digits, where it is from `least` to `most`.
pub fn number_within(text: &str, least: u64, most: u64) -> Option<u64>
    ensures number { result ≡ number_within least most text.now }
    ensures bounds { IfSome result (λ n. (least ≤ n) × (n ≤ most)) }
{
    let number = number(text)?;
    if least <= number && number <= most {
        Some(number)
    } else {
        None
    }
}

/// The same below 2^32.
pub fn small_within(text: &str, least: u32, most: u32) -> Option<u32>
    ensures number { result ≡ number_within least most text.now }
    ensures bounds { IfSome result (λ n. (least ≤ n) × (n ≤ most)) }
{
    let number = number_within(text, u64::from(least), u64::from(most))?;
    u32::try_from(number).ok()
}

/// The number of an option's text, or the usual one where there is none.
pub fn number_or(text: Option<&str>, usual: u64, least: u64, most: u64) -> Option<u64>
    ensures number { result ≡ number_or usual least most (option_map (λ t. t.now) text.entry) }
    ensures bounds { least ≤ usual → usual ≤ most → IfSome result (λ n. (least ≤ n) × (n ≤ most)) }
{
    match text {
        Some(text) => number_within(text, least, most),
        None => Some(usual),
    }
}

/// The same below 2^32.
pub fn small_or(text: Option<&str>, usual: u32, least: u32, most: u32) -> Option<u32>
    ensures number { result ≡ number_or usual least most (option_map (λ t. t.now) text.entry) }
    ensures bounds { least ≤ usual → usual ≤ most → IfSome result (λ n. (least ≤ n) × (n ≤ most)) }
{
    match text {
        Some(text) => small_within(text, least, most),
        None => Some(usual),
    }
}

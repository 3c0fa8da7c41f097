ghost use Rattle.std.specs.Prelude.{◌≡◌, ◌++◌, ◌∷◌, [], ◌<◌, OnOk};
ghost use Rattle.std.specs.List.{list_all, flat_map};
ghost use Rattle.std.specs.Char.{is_ascii_digit};
ghost use Rattle.ir_text.specs.Token.{is_name_byte};
ghost use Rattle.ir_print_names.specs.Names.{is_bare, is_numeral, hexadecimal_digit, is_plain, quoted_byte, quoted_text, name_text};

use crate::page::Page;
use rj_num::NoMemory;

fn is_name_byte(byte: u8) -> bool
    ensures { result ≡ is_name_byte byte }
{
    matches!(byte, b'a'..=b'z' | b'A'..=b'Z' | b'0'..=b'9' | b'$' | b'.' | b'_' | b'-')
}

fn are_name_bytes(bytes: &[u8]) -> bool
    ensures { result ≡ list_all is_name_byte bytes.now }
{
    bytes.iter().all(|byte| is_name_byte(*byte))
}

fn are_digits(bytes: &[u8]) -> bool
    ensures { result ≡ list_all is_ascii_digit bytes.now }
{
    bytes.iter().all(|byte| byte.is_ascii_digit())
}

fn is_bare(bytes: &[u8]) -> bool
    ensures { result ≡ is_bare bytes.now }
{
    match bytes {
        [first, ..] => !first.is_ascii_digit() && are_name_bytes(bytes),
        [] => false,
    }
}

fn is_numeral(bytes: &[u8]) -> bool
    ensures { result ≡ is_numeral bytes.now }
{
    match bytes {
        [_, ..] => are_digits(bytes),
        [] => false,
    }
}

/// An upper-case hexadecimal digit.
fn hexadecimal_digit(value: u8) -> u8
    requires { value < 16 }
    ensures { result ≡ hexadecimal_digit value }
{
    if value < 10 { 48 + value } else { 55 + value }
}

fn is_plain(byte: u8) -> bool
    ensures { result ≡ is_plain byte }
{
    32 <= byte && byte <= 126 && byte != b'"' && byte != b'\\'
}

/// A byte between quotes.
fn quoted_byte(page: &mut Page, byte: u8) -> Result<(), NoMemory>
    ensures { OnOk result (page.new ≡ page.old ++ quoted_byte byte) }
{
    if is_plain(byte) {
        return page.byte(byte);
    }
    page.byte(b'\\')?;
    page.byte(hexadecimal_digit(byte / 16))?;
    page.byte(hexadecimal_digit(byte % 16))
}

/// Bytes between quotes.
fn quoted_bytes(page: &mut Page, bytes: &[u8]) -> Result<(), NoMemory>
    ensures { OnOk result (page.new ≡ page.old ++ flat_map quoted_byte bytes.now) }
{
    for byte in bytes {
        quoted_byte(page, *byte)?;
    }
    Ok(())
}

/// Quoted bytes, in which a quote, a backslash and each byte below 32 or above 126 is `\` and two hexadecimal digits.
pub fn quoted(page: &mut Page, bytes: &[u8]) -> Result<(), NoMemory>
    ensures { OnOk result (page.new ≡ page.old ++ quoted_text bytes.now) }
{
    page.write(b"\"")?;
    quoted_bytes(page, bytes)?;
    page.write(b"\"")
}

/// A name, as a bare part or a number where its bytes are one, and else quoted.
pub fn name(page: &mut Page, bytes: &[u8]) -> Result<(), NoMemory>
    ensures { OnOk result (page.new ≡ page.old ++ name_text bytes.now) }
{
    if is_bare(bytes) {
        return page.write(bytes);
    }
    if is_numeral(bytes) {
        return page.write(bytes);
    }
    quoted(page, bytes)
}

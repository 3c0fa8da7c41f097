ghost use Rattle.std.specs.Prelude.{◌≡◌, ◌<◌, ◌++◌, ◌∷◌, [], IfOk, IfSome, List, ℕ, Option};
ghost use Rattle.ir_text.specs.Quoted.{hexadecimal, escaped, unquoted, unquoted_behind, before, onto, goes_on, said};
ghost use Rattle.ir_text.specs.declared.quoted.Escape.TheVariants.{Closed};

use crate::name::Name;
use crate::token::Spelling;
use sqlite_items::Items;
use std::alloc::{AllocError, Global};

/// What stands before a byte of quoted text: no backslash, one, or one and a digit.
#[derive(Clone, Copy, PartialEq, Eq, Drop)]
pub enum Escape {
    Closed,
    Opened,
    Half(u8),
}

/// The value of a hexadecimal digit.
fn hexadecimal(digit: u8) -> Option<u8>
    ensures value { result ≡ hexadecimal digit }
    ensures bound { IfSome result (λ value. value < 16) }
{
    match digit {
        b'0'..=b'9' => Some(digit - b'0'),
        b'A'..=b'F' => Some(digit - 55),
        b'a'..=b'f' => Some(digit - 87),
        _ => None,
    }
}

/// The byte of two hexadecimal digits.
fn escaped(high: u8, low: u8) -> Option<u8>
    ensures { result ≡ escaped high low }
{
    match hexadecimal(high) {
        Some(high) => match hexadecimal(low) {
            Some(low) => Some(16 * high + low),
            None => None,
        },
        None => None,
    }
}

/// Adds a byte that quoted text says, where it says one.
#[tactic(auto, using(crate::proofs::Unquoting::onto_before, crate::proofs::Unquoting::onto_none))]
fn say(bytes: &mut Items<u8>, byte: Option<u8>) -> Result<Option<Escape>, AllocError>
    ensures { IfOk result (λ next. (text : List ℕ) → onto bytes.old (before byte (unquoted_behind Closed text)) ≡ goes_on next bytes.new text) }
{
    match byte {
        Some(byte) => {
            bytes.push(byte)?;
            Ok(Some(Escape::Closed))
        }
        None => Ok(None),
    }
}

/// Reads a byte of quoted text: what it says is added, and what stands before the next byte is the answer.
#[tactic(auto, unfolding(crate::specs::Quoted::unquoted_behind))]
fn unquote_byte(
    bytes: &mut Items<u8>,
    escape: Escape,
    byte: u8,
) -> Result<Option<Escape>, AllocError>
    ensures { IfOk result (λ next. (text : List ℕ) → onto bytes.old (unquoted_behind escape (byte ∷ text)) ≡ goes_on next bytes.new text) }
{
    match escape {
        Escape::Closed => {
            if byte == b'\\' {
                Ok(Some(Escape::Opened))
            } else {
                say(bytes, Some(byte))
            }
        }
        Escape::Opened => {
            if byte == b'\\' {
                say(bytes, Some(byte))
            } else {
                Ok(Some(Escape::Half(byte)))
            }
        }
        Escape::Half(high) => say(bytes, escaped(high, byte)),
    }
}

/// The bytes of quoted text: `\` and two hexadecimal digits are one byte, and `\\` is one backslash, as in LLVM's
/// lexer. `None` where a backslash stands before anything else.
pub fn unquote(alloc: Global, text: &[u8]) -> Result<Option<Items<u8>>, AllocError>
    ensures { IfOk result (λ bytes. bytes ≡ unquoted text.now) }
{
    let mut bytes = Items::new(alloc);
    let mut escape = Escape::Closed;
    for byte in text {
        match unquote_byte(&mut bytes, escape, *byte)? {
            Some(next) => escape = next,
            None => return Ok(None),
        }
    }
    match escape {
        Escape::Closed => Ok(Some(bytes)),
        _ => Ok(None),
    }
}

/// The bytes of a name, whichever way it is written. `None` where it is quoted and a backslash stands before anything
/// else than another or two hexadecimal digits.
pub fn said(alloc: Global, name: &Name) -> Result<Option<Items<u8>>, AllocError>
    ensures { IfOk result (λ bytes. bytes ≡ said name.now.spelling name.now.bytes) }
{
    match name.spelling {
        Spelling::Quoted => unquote(alloc, name.bytes.as_slice()),
        _ => Ok(Some(Items::from_slice(alloc, name.bytes.as_slice())?)),
    }
}

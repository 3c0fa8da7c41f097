// Bytes at the end of a list of bytes.
ghost use Rattle.std.specs.Prelude.{◌≡◌, ◌+◌, ◌++◌, length, map, Some, OnOk};
ghost use Rattle.ir_meaning.specs.Memory.{number_bytes};
ghost use Rattle.ir_meaning.specs.Image.{zeros};

use sqlite_items::Items;
use std::alloc::AllocError;

/// Adds so many zeros.
pub fn push_zeros(bytes: &mut Items<u8>, count: u64) -> Result<(), AllocError>
    ensures value { OnOk result (map Some bytes.new ≡ map Some bytes.old ++ zeros count) }
    ensures more { OnOk result (length bytes.new ≡ length bytes.old + count) }
{
    for _ in 0..count {
        bytes.push(0)?;
    }
    Ok(())
}

/// Adds so many bytes of a number, the lowest first.
pub fn push_number(bytes: &mut Items<u8>, count: u64, n: u128) -> Result<(), AllocError>
    ensures value { OnOk result (map Some bytes.new ≡ map Some bytes.old ++ number_bytes count n) }
    ensures more { OnOk result (length bytes.new ≡ length bytes.old + count) }
{
    let mut rest = n;
    for _ in 0..count {
        bytes.push((rest % 256) as u8)?;
        rest /= 256;
    }
    Ok(())
}

/// Adds a text's bytes.
pub fn push_text(bytes: &mut Items<u8>, text: &[u8]) -> Result<(), AllocError>
    ensures value { OnOk result (map Some bytes.new ≡ map Some bytes.old ++ map Some text.now) }
    ensures more { OnOk result (length bytes.new ≡ length bytes.old + length text.now) }
{
    for byte in text {
        bytes.push(*byte)?;
    }
    Ok(())
}

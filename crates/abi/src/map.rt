// The address map. Each region begins at its constant.

ghost use Rattle.std.specs.Prelude.{◌≡◌, ◌<◌, ◌≤◌, ◌+◌, ◌*◌, ◌^◌};
ghost use Rattle.abi.specs.Map.{stub_place, cell_place, word_place};

/// Arriving here ends the call.
pub const EXIT: u64 = 0x8000;

/// 16 bytes per symbol: four instructions that jump to what the symbol's cell holds.
pub const STUBS: u64 = 0x1_0000;

/// 8 bytes per symbol, read by an aligned `ld` alone.
pub const CELLS: u64 = 0x10_0000;

/// 4 bytes per code word.
pub const CODE: u64 = 0x100_0000;

/// The end of the code region.
pub const CODE_END: u64 = 0x200_0000;

/// The image, then the data stack, which grows upward.
pub const DATA: u64 = 0x1000_0000;

/// The control stack, which grows downward from its end.
pub const CONTROL: u64 = 0x4000_0000;

pub const CONTROL_END: u64 = 0x4080_0000;

/// The values of t0 at an `ecall`: counts an entry of the symbol in t1, or ends the call for want of stack.
pub const COUNT_ENTRY: u64 = 1;

pub const END_AS_STACK: u64 = 2;

/// The address of a symbol's stub.
pub fn stub_of(symbol: u32) -> u64
    ensures { result ≡ stub_place symbol }
{
    STUBS + 16 * u64::from(symbol)
}

/// The address of a symbol's cell.
pub fn cell_of(symbol: u32) -> u64
    ensures { result ≡ cell_place symbol }
{
    CELLS + 8 * u64::from(symbol)
}

/// The address of a code word.
pub fn address_of_word(index: u32) -> u64
    ensures { result ≡ word_place index }
{
    CODE + 4 * u64::from(index)
}

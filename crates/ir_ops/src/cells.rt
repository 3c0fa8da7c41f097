// Cells of 16 bits, each a byte or poison.
ghost use Rattle.std.specs.Prelude.{◌≡◌, ◌^◌, ◌<◌, ◌≤◌, length, replicate};
ghost use Rattle.ir_meaning.specs.Memory.{from_bytes, number_bytes};
ghost use Rattle.ir_meaning.specs.Ranges.{FitsWidth};
ghost use Rattle.ir_ops.specs.Cells.{byte_of, bytes_of};

/// What stands for a poison byte.
pub const POISON: u16 = 256;

/// The cell of a byte.
pub fn cell_of(byte: Option<u128>) -> u16
    requires { FitsWidth 8 byte }
    ensures { byte_of result ≡ byte }
{
    match byte {
        None => POISON,
        Some(number) => number as u16,
    }
}

/// The number of at most sixteen bytes, the lowest first; poison where one of them is.
pub fn number_of(cells: &[u16]) -> Option<u128>
    requires { length cells.now ≤ 16 }
    ensures { result ≡ from_bytes (bytes_of cells.now) }
{
    let mut value = 0u128;
    let mut left = cells.len();
    while left > 0 {
        let cell = cells[left - 1];
        if cell >= POISON {
            return None;
        }
        value = value * 256 + u128::from(cell);
        left -= 1;
    }
    Some(value)
}

/// Writes a number's bytes, the lowest first, over all of these cells.
pub fn put_number(cells: &mut [u16], n: u128)
    ensures { bytes_of cells.new ≡ number_bytes (length cells.old) n }
{
    let mut rest = n;
    for i in 0..cells.len() {
        cells[i] = (rest % 256) as u16;
        rest /= 256;
    }
}

/// Writes one cell over all of these.
pub fn fill_cells(cells: &mut [u16], cell: u16)
    ensures { cells.new ≡ replicate (length cells.old) cell }
{
    cells.fill(cell);
}

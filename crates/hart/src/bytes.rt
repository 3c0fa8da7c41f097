// Numbers in bytes, the lowest byte first.
ghost use Rattle.std.specs.Prelude.{◌≡◌, ◌+◌, ◌≤◌, length, slice_index, vec_len};
ghost use Rattle.rv_core.specs.Bytes.{load_bytes, store_bytes};
ghost use Rattle.rv_play.specs.Machine.{load_size, store_size, extended};

use rv_core::instr::{LoadOp, StoreOp};

/// The number in one byte.
#[inline(always)]
pub fn load_1(bytes: &[u8], place: usize) -> u8
    requires { place + 1 ≤ length bytes.now }
    ensures { result ≡ load_bytes (slice_index bytes.now) place 1 }
{
    bytes[place]
}

/// The number in two bytes.
#[inline(always)]
pub fn load_2(bytes: &[u8], place: usize) -> u16
    requires { place + 2 ≤ length bytes.now }
    ensures { result ≡ load_bytes (slice_index bytes.now) place 2 }
{
    let s = &bytes[place..place + 2];
    u16::from_le_bytes([s[0], s[1]])
}

/// The number in four bytes.
#[inline(always)]
pub fn load_4(bytes: &[u8], place: usize) -> u32
    requires { place + 4 ≤ length bytes.now }
    ensures { result ≡ load_bytes (slice_index bytes.now) place 4 }
{
    let s = &bytes[place..place + 4];
    u32::from_le_bytes([s[0], s[1], s[2], s[3]])
}

/// The number in eight bytes.
#[inline(always)]
pub fn load_8(bytes: &[u8], place: usize) -> u64
    requires { place + 8 ≤ length bytes.now }
    ensures { result ≡ load_bytes (slice_index bytes.now) place 8 }
{
    let s = &bytes[place..place + 8];
    u64::from_le_bytes([s[0], s[1], s[2], s[3], s[4], s[5], s[6], s[7]])
}

/// Writes a number's lowest byte.
#[inline(always)]
pub fn store_1(bytes: &mut [u8], place: usize, value: u64)
    requires { place + 1 ≤ length bytes.old }
    ensures bytes { slice_index bytes.new ≡ store_bytes (slice_index bytes.old) place 1 value }
    ensures length { length bytes.new ≡ length bytes.old }
{
    bytes[place] = (value % (1 << 8)) as u8;
}

/// Writes a number's lowest two bytes.
#[inline(always)]
pub fn store_2(bytes: &mut [u8], place: usize, value: u64)
    requires { place + 2 ≤ length bytes.old }
    ensures bytes { slice_index bytes.new ≡ store_bytes (slice_index bytes.old) place 2 value }
    ensures length { length bytes.new ≡ length bytes.old }
{
    store_1(bytes, place, value);
    store_1(bytes, place + 1, value >> 8);
}

/// Writes a number's lowest four bytes.
#[inline(always)]
pub fn store_4(bytes: &mut [u8], place: usize, value: u64)
    requires { place + 4 ≤ length bytes.old }
    ensures bytes { slice_index bytes.new ≡ store_bytes (slice_index bytes.old) place 4 value }
    ensures length { length bytes.new ≡ length bytes.old }
{
    store_2(bytes, place, value);
    store_2(bytes, place + 2, value >> 16);
}

/// Writes a number's lowest eight bytes.
#[inline(always)]
pub fn store_8(bytes: &mut [u8], place: usize, value: u64)
    requires { place + 8 ≤ length bytes.old }
    ensures bytes { slice_index bytes.new ≡ store_bytes (slice_index bytes.old) place 8 value }
    ensures length { length bytes.new ≡ length bytes.old }
{
    store_4(bytes, place, value);
    store_4(bytes, place + 4, value >> 32);
}

/// How many bytes a load takes.
#[inline(always)]
pub fn size_of_load(op: LoadOp) -> u64
    ensures value { result ≡ load_size op }
    ensures small { result ≤ 8 }
{
    match op {
        LoadOp::Lb | LoadOp::Lbu => 1,
        LoadOp::Lh | LoadOp::Lhu => 2,
        LoadOp::Lw | LoadOp::Lwu => 4,
        LoadOp::Ld => 8,
    }
}

/// How many bytes a store takes.
#[inline(always)]
pub fn size_of_store(op: StoreOp) -> u64
    ensures value { result ≡ store_size op }
    ensures small { result ≤ 8 }
{
    match op {
        StoreOp::Sb => 1,
        StoreOp::Sh => 2,
        StoreOp::Sw => 4,
        StoreOp::Sd => 8,
    }
}

/// The bytes at a place as a register's value.
#[tactic(auto, using(rv_core::proofs::Numbers::modulo_fits))]
#[inline(always)]
pub fn load_number(op: LoadOp, bytes: &[u8], place: usize) -> u64
    requires { place + load_size op ≤ length bytes.now }
    ensures { result ≡ extended op (load_bytes (slice_index bytes.now) place (load_size op)) }
{
    match op {
        LoadOp::Lb => (load_1(bytes, place).cast_signed() as i64).cast_unsigned(),
        LoadOp::Lh => (load_2(bytes, place).cast_signed() as i64).cast_unsigned(),
        LoadOp::Lw => (load_4(bytes, place).cast_signed() as i64).cast_unsigned(),
        LoadOp::Ld => load_8(bytes, place),
        LoadOp::Lbu => load_1(bytes, place) as u64,
        LoadOp::Lhu => load_2(bytes, place) as u64,
        LoadOp::Lwu => load_4(bytes, place) as u64,
    }
}

/// Writes a register's lowest bytes to a place.
#[inline(always)]
pub fn store_number(op: StoreOp, bytes: &mut Vec<u8>, place: usize, value: u64)
    requires { place + store_size op ≤ length bytes.old.items }
    ensures bytes { slice_index bytes.new.items ≡ store_bytes (slice_index bytes.old.items) place (store_size op) value }
    ensures length { vec_len bytes.new ≡ vec_len bytes.old }
{
    match op {
        StoreOp::Sb => store_1(bytes, place, value),
        StoreOp::Sh => store_2(bytes, place, value),
        StoreOp::Sw => store_4(bytes, place, value),
        StoreOp::Sd => store_8(bytes, place, value),
    }
}

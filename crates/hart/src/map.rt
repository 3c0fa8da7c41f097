// The address map: where data memory, the control stack, cells, stubs and code stand.
ghost use Rattle.std.specs.Prelude.{◌≡◌, ◌<◌, ◌≤◌, ◌*◌, ◌+◌, ◌^◌, ◌-◌, ◌%◌, ◌==◌, ◌&&◌, nat_le, nat_lt, IfSome};
ghost use Rattle.rv_core.specs.Instr.{IsValid};
ghost use Rattle.rv_core.specs.declared.instr.Instr.{Instr};
ghost use Rattle.rv_play.specs.Machine.{code_base, stub_base, stub_of};
ghost use Rattle.rv_play.specs.Ending.{stub_instr, upper, lower};
ghost use Rattle.hart.specs.Places.{found_at, is_within, symbol_of_cell};

use rv_core::instr::{ImmOp, Instr, LoadOp};
use rv_core::reg::Reg;

pub const EXIT: u64 = 0x8000;

pub const STUBS: u64 = 0x1_0000;

pub const CELLS: u64 = 0x10_0000;

pub const CODE: u64 = 0x100_0000;

pub const DATA: u64 = 0x1000_0000;

pub const CONTROL: u64 = 0x4000_0000;

pub const CONTROL_END: u64 = 0x4080_0000;

/// Where bytes stand: at a place of data memory, at one of the control stack, or in neither.
#[derive(Clone, Copy, PartialEq, Eq)]
pub enum Found {
    Bytes(usize),
    Control(usize),
    Nowhere,
}

/// Where an instruction stands, or why none is run any more: at the exit, for want of fuel, or because none stands there.
#[derive(Clone, Copy, PartialEq, Eq)]
pub enum At {
    Exit,
    Spent,
    /// A symbol's stub, and which of its instructions.
    Stub(u32, u64),
    Code,
    Nowhere,
}

/// Where so many bytes from an address on stand wholly, in a data memory and a control stack of these lengths.
#[inline(always)]
pub fn find(bytes: usize, control: usize, address: u64, size: u64) -> Found
    requires bytes { bytes ≤ 67108864 }
    requires control { control ≤ 8388608 }
    requires size { size ≤ 8 }
    ensures { result ≡ found_at bytes control address size }
{
    if is_in(CONTROL, control as u64, address, size) {
        Found::Control((address - CONTROL) as usize)
    } else if is_in(DATA, bytes as u64, address, size) {
        Found::Bytes((address - DATA) as usize)
    } else {
        Found::Nowhere
    }
}

// Whether so many bytes from an address on stand wholly in a region.
#[inline(always)]
fn is_in(base: u64, length: u64, address: u64, size: u64) -> bool
    requires base { base ≤ 1073741824 }
    requires length { length ≤ 67108864 }
    requires size { size ≤ 8 }
    ensures { result ≡ is_within base length address size }
{
    size <= length && address.wrapping_sub(base) <= length - size
}

/// Whether a code word stands at an address, in code that ends at a limit.
#[inline(always)]
pub fn is_code(limit: u64, address: u64) -> bool
    ensures { result ≡ ((nat_le code_base address) && ((nat_lt address limit) && (address % 4 == 0))) }
{
    CODE <= address && address < limit && address % 4 == 0
}

/// Whether a symbol's stub begins at an address.
#[inline(always)]
pub fn is_stub(functions: u32, address: u64) -> bool
    requires { functions ≤ 1024 }
    ensures { result ≡ ((nat_le stub_base address) && ((nat_lt address (stub_of functions)) && ((address - stub_base) % 16 == 0))) }
{
    STUBS <= address && address < STUBS + 16 * functions as u64 && (address - STUBS) % 16 == 0
}

/// The symbol whose cell a load of an address reads, if it is such a load.
#[inline(always)]
pub fn cell_of(op: LoadOp, functions: u32, address: u64) -> Option<u32>
    requires { functions ≤ 1024 }
    ensures value { result ≡ symbol_of_cell op functions address }
    ensures below { IfSome result (λ symbol. symbol < functions) }
{
    match op {
        LoadOp::Ld => if CELLS <= address
            && address < CELLS + 8 * functions as u64
            && address % 8 == 0
        {
            Some(((address - CELLS) / 8) as u32)
        } else {
            None
        },
        _ => None,
    }
}

/// One of the four instructions of a symbol's stub.
pub fn stub_word(symbol: u32, place: u64) -> Instr
    requires { symbol < 1024 }
    ensures value { result ≡ stub_instr symbol place }
    ensures valid { IsValid result }
{
    let cell = CELLS as u32 + 8 * symbol;
    match place {
        0 => Instr::Lui(Reg::T1, (cell + 2048) / 4096),
        1 => load_base(cell),
        2 => Instr::Jalr(Reg::X0, Reg::T1, 0),
        _ => Instr::Imm(ImmOp::Addi, Reg::X0, Reg::X0, 0),
    }
}

// Loads what a cell holds, where the upper bits of its address stand in the register.
fn load_base(cell: u32) -> Instr
    ensures value { result ≡ Instr.Load LoadOp.Ld Reg.T1 Reg.T1 (lower cell) }
    ensures valid { IsValid result }
{
    let low = (cell % 4096) as i32;
    if low < 2048 {
        Instr::Load(LoadOp::Ld, Reg::T1, Reg::T1, low)
    } else {
        Instr::Load(LoadOp::Ld, Reg::T1, Reg::T1, low - 4096)
    }
}

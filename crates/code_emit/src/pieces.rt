// Plain instructions behind the code of an assembler.
ghost use Rattle.std.specs.Prelude.{◌≡◌, ◌<◌, ◌^◌, [], ◌∷◌, OnOk};
ghost use Rattle.rv_core.specs.Instr.{IsValid, AreValid, Fits12};
ghost use Rattle.rv_play.specs.Ending.{upper, lower};
ghost use Rattle.code_pieces.specs.Code.{argument_reg, load_at, store_at, const_code, call_code};
ghost use Rattle.code_emit.specs.Written.{put_code};

use rj_num::NoMemory;
use rv_asm::asm::Asm;
use rv_core::instr::{Instr, LoadOp, RegOp, StoreOp};
use rv_core::reg::Reg;
use std::alloc::Global;

/// The register of the argument at a place.
pub fn argument_register(place: u32) -> Reg
    requires { place < 8 }
    ensures { result ≡ argument_reg place }
{
    Reg::from_number(10 + place as u8)
}

/// One instruction.
#[tactic(auto, unfolding(crate::specs::Written::put_code))]
pub fn put_instr(asm: &mut Asm, alloc: Global, instr: Instr) -> Result<(), NoMemory>
    requires { IsValid instr }
    ensures { OnOk result (asm.new ≡ put_code asm.old (instr ∷ [])) }
{
    asm.push(alloc, instr)
}

/// Instructions, one behind another.
#[tactic(auto, using(crate::proofs::Put::code_code, crate::proofs::Put::code_none))]
pub fn put_all(asm: &mut Asm, alloc: Global, instrs: &[Instr]) -> Result<(), NoMemory>
    requires { AreValid instrs.now }
    ensures { OnOk result (asm.new ≡ put_code asm.old instrs.now) }
{
    for instr in instrs {
        put_instr(asm, alloc, *instr)?;
    }
    Ok(())
}

/// A number of 64 bits in a register.
pub fn put_const(asm: &mut Asm, alloc: Global, register: Reg, number: u64) -> Result<(), NoMemory>
    ensures { OnOk result (asm.new ≡ put_code asm.old (const_code 3 register number)) }
{
    asm.load_const(alloc, register, number)?;
    Ok(())
}

// A number's low twelve bits, read as signed.
fn low_part_of(number: u64) -> i32
    ensures value { result ≡ lower number }
    ensures fits { Fits12 result }
{
    let low = (number % 4096) as i32;
    if low < 2048 { low } else { low - 4096 }
}

// A number's bits above the low twelve, for which those are read as signed.
fn high_part_of(offset: u32) -> u32
    requires { offset < 2 ^ 20 }
    ensures { result ≡ upper offset }
{
    (offset + 2048) / 4096
}

/// Loads what stands at an offset above sp.
#[tactic(auto, unfolding(code_pieces::specs::Code::load_at))]
pub fn put_load_at(asm: &mut Asm, alloc: Global, register: Reg, offset: u32) -> Result<(), NoMemory>
    requires { offset < 2 ^ 20 }
    ensures { OnOk result (asm.new ≡ put_code asm.old (load_at register offset)) }
{
    if offset < 2048 {
        return put_instr(
            asm,
            alloc,
            Instr::Load(LoadOp::Ld, register, Reg::Sp, offset as i32),
        );
    }
    put_all(
        asm,
        alloc,
        &[
            Instr::Lui(register, high_part_of(offset)),
            Instr::Op(RegOp::Add, register, register, Reg::Sp),
            Instr::Load(
                LoadOp::Ld,
                register,
                register,
                low_part_of(u64::from(offset)),
            ),
        ],
    )
}

/// Stores a register at an offset above sp.
#[tactic(auto, unfolding(code_pieces::specs::Code::store_at))]
pub fn put_store_at(
    asm: &mut Asm,
    alloc: Global,
    register: Reg,
    offset: u32,
) -> Result<(), NoMemory>
    requires { offset < 2 ^ 20 }
    ensures { OnOk result (asm.new ≡ put_code asm.old (store_at register offset)) }
{
    if offset < 2048 {
        return put_instr(
            asm,
            alloc,
            Instr::Store(StoreOp::Sd, register, Reg::Sp, offset as i32),
        );
    }
    put_all(
        asm,
        alloc,
        &[
            Instr::Lui(Reg::T6, high_part_of(offset)),
            Instr::Op(RegOp::Add, Reg::T6, Reg::T6, Reg::Sp),
            Instr::Store(
                StoreOp::Sd,
                register,
                Reg::T6,
                low_part_of(u64::from(offset)),
            ),
        ],
    )
}

/// Calls a symbol's stub.
pub fn put_call_of(asm: &mut Asm, alloc: Global, symbol: u32) -> Result<(), NoMemory>
    requires { symbol < 1024 }
    ensures { OnOk result (asm.new ≡ put_code asm.old (call_code symbol)) }
{
    let stub = u64::from(0x0001_0000 + 16 * symbol);
    put_all(
        asm,
        alloc,
        &[
            Instr::Lui(Reg::T1, (stub as u32 + 2048) / 4096),
            Instr::Jalr(Reg::Ra, Reg::T1, low_part_of(stub)),
        ],
    )
}

// Allocas: fresh bytes behind the data top, which stands in s11.
ghost use Rattle.std.specs.Prelude.{◌≡◌, ◌*◌, ◌≤◌, ◌^◌, [], ◌∷◌, ◌++◌, pos, OnOk};
ghost use Rattle.ir_core.specs.Layout.{size, aligned};
ghost use Rattle.rv_core.specs.declared.reg.Reg.TheVariants.{T0, S11};
ghost use Rattle.code_pieces.specs.Code.{store_value};
ghost use Rattle.code_pieces.specs.Bytes.{save_code, restore_code, taken_bytes as taken_bytes_of};
ghost use Rattle.quick_code.specs.Data.{is_alloca as is_alloca_op, insts_take as insts_take_data, blocks_take as blocks_take_data, takes_data as takes_data_of, alloca_code};
ghost use Rattle.code_emit.specs.Written.{put_code};

use crate::pieces::put_store_value;
use code_emit::bytes::put_stop;
use code_emit::pieces::{put_const, put_instr, put_load_at, put_store_at};
use ir_core::code::{Block, Inst, Op};
use ir_core::program::Function;
use ir_core::types::MemTy;
use ir_flow::sizes::measure_of;
use rj_num::NoMemory;
use rv_asm::asm::Asm;
use rv_core::instr::{ImmOp, Instr, RegOp};
use rv_core::reg::Reg;
use std::alloc::Global;

fn is_alloca(op: &Op) -> bool
    ensures { result ≡ is_alloca_op op.now }
{
    match op {
        Op::Alloca(_, _) => true,
        _ => false,
    }
}

fn insts_take(insts: &[Inst]) -> bool
    ensures { result ≡ insts_take_data insts.now }
{
    for inst in insts {
        if is_alloca(&inst.op) {
            return true;
        }
    }
    false
}

fn blocks_take(blocks: &[Block]) -> bool
    ensures { result ≡ blocks_take_data blocks.now }
{
    for block in blocks {
        if insts_take(block.insts.as_slice()) {
            return true;
        }
    }
    false
}

/// Whether a function has an alloca.
pub fn takes_data(function: &Function) -> bool
    ensures { result ≡ takes_data_of function.now }
{
    blocks_take(function.blocks.as_slice())
}

/// Saves s11 in the frame of a function that has an alloca.
#[tactic(auto, using(code_emit::proofs::Put::code_none))]
pub fn put_save(asm: &mut Asm, alloc: Global, takes: bool, frame: u32) -> Result<(), NoMemory>
    requires large { 128 ≤ frame }
    requires small { frame ≤ 2 ^ 20 }
    ensures { OnOk result (asm.new ≡ put_code asm.old (save_code takes frame)) }
{
    if takes {
        return put_store_at(asm, alloc, Reg::S11, frame - 104);
    }
    Ok(())
}

/// Restores s11 from the frame of a function that has an alloca.
#[tactic(auto, using(code_emit::proofs::Put::code_none))]
pub fn put_restore(asm: &mut Asm, alloc: Global, takes: bool, frame: u32) -> Result<(), NoMemory>
    requires large { 128 ≤ frame }
    requires small { frame ≤ 2 ^ 20 }
    ensures { OnOk result (asm.new ≡ put_code asm.old (restore_code takes frame)) }
{
    if takes {
        return put_load_at(asm, alloc, Reg::S11, frame - 104);
    }
    Ok(())
}

// The bytes that an alloca takes, 2^32 for more.
fn taken_bytes(of: &MemTy, count: u64) -> u64
    ensures { result ≡ taken_bytes_of (aligned (size of.now * count) 16) }
{
    let bytes = u128::from(measure_of(of).extent.size) * u128::from(count);
    let bytes = bytes + (16 - bytes % 16) % 16;
    if bytes < 1 << 32 {
        bytes as u64
    } else {
        1 << 32
    }
}

// The old data top becomes the value, and the new one in t0 the data top.
#[tactic(auto, using(code_emit::proofs::Put::code_code))]
fn put_top(asm: &mut Asm, alloc: Global, value: u32) -> Result<(), NoMemory>
    requires { value ≤ 32764 }
    ensures { OnOk result (asm.new ≡ put_code asm.old (store_value S11 value ++ Instr.Imm ImmOp.Addi S11 T0 (pos 0) ∷ [])) }
{
    put_store_value(asm, alloc, Reg::S11, value)?;
    put_instr(asm, alloc, Instr::Imm(ImmOp::Addi, Reg::S11, Reg::T0, 0))
}

/// An alloca of so many values of a type, in a data memory of so many bytes, which gives this value.
#[tactic(auto, using(code_emit::proofs::Put::code_code))]
pub fn put_alloca(
    asm: &mut Asm,
    alloc: Global,
    room: u64,
    of: &MemTy,
    count: u64,
    value: u32,
) -> Result<(), NoMemory>
    requires room { room ≤ 67108864 }
    requires value { value ≤ 32764 }
    ensures { OnOk result (asm.new ≡ put_code asm.old (alloca_code room of.now count value)) }
{
    put_const(asm, alloc, Reg::T0, taken_bytes(of, count))?;
    put_instr(
        asm,
        alloc,
        Instr::Op(RegOp::Add, Reg::T0, Reg::S11, Reg::T0),
    )?;
    put_const(asm, alloc, Reg::T1, 0x1000_0000 + room)?;
    put_stop(asm, alloc)?;
    put_top(asm, alloc, value)?;
    Ok(())
}

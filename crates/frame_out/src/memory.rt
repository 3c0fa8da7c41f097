// Data memory that is taken and given back.
ghost use Rattle.std.specs.Prelude.{◌≡◌, ◌+◌, ◌^◌, ◌≤◌, [], ◌∷◌, ◌++◌, pos, OnOk};
ghost use Rattle.rv_core.specs.declared.reg.Reg.TheVariants.{X0, T0, T1, S11};
ghost use Rattle.rv_core.specs.declared.instr.BranchOp.TheVariants.{Bgeu};
ghost use Rattle.code_pieces.specs.Code.{const_code};
ghost use Rattle.code_pieces.specs.Bytes.{taken_bytes as taken_bytes_of};
ghost use Rattle.frame_code.specs.Code.{taken_by as taken_by_inst, taken_in, taken as taken_in_function, give_back, store_place};
ghost use Rattle.code_emit.specs.Written.{put_code};
ghost use Rattle.frame_out.specs.Ready.{IsNear};

use crate::stands::put_store_place;
use code_emit::bytes::put_stop;
use code_emit::pieces::{put_const, put_instr};
use mir::code::{MFunction, MInst};
use mir::places::Place;
use rj_num::NoMemory;
use rv_asm::asm::Asm;
use rv_core::instr::{ImmOp, Instr, RegOp};
use rv_core::reg::Reg;
use std::alloc::Global;

/// Bytes that are taken: 2^32 for more, which no data memory has.
pub fn capped(bytes: u64) -> u64
    ensures value { result ≡ taken_bytes_of bytes }
    ensures small { result ≤ 2 ^ 32 }
{
    if bytes < 1 << 32 { bytes } else { 1 << 32 }
}

fn taken_by(inst: &MInst) -> u64
    ensures value { result ≡ taken_by_inst inst.now }
{
    match inst {
        MInst::TakeData(_, bytes) => *bytes,
        _ => 0,
    }
}

// The bytes that instructions take.
fn taken_by_all(insts: &[MInst]) -> u64
    ensures value { result ≡ taken_bytes_of (taken_in insts.now) }
    ensures small { result ≤ 2 ^ 32 }
{
    let mut bytes = 0;
    for inst in insts {
        let more = capped(taken_by(inst));
        bytes = capped(bytes + more);
    }
    bytes
}

/// The bytes of data memory that a function takes, of which its first block takes all.
pub fn taken(function: &MFunction) -> u64
    ensures value { result ≡ taken_bytes_of (taken_in_function function.now) }
    ensures small { result ≤ 2 ^ 32 }
{
    match function.blocks.get(0) {
        Some(insts) => taken_by_all(insts.as_slice()),
        None => 0,
    }
}

// The data top falls by any number of bytes.
#[tactic(auto, using(code_emit::proofs::Put::code_code))]
fn put_less_data(asm: &mut Asm, alloc: Global, bytes: u64) -> Result<(), NoMemory>
    ensures { OnOk result (asm.new ≡ put_code asm.old (const_code 3 T0 (taken_bytes_of bytes) ++ Instr.Op RegOp.Sub S11 S11 T0 ∷ [])) }
{
    put_const(asm, alloc, Reg::T0, capped(bytes))?;
    put_instr(
        asm,
        alloc,
        Instr::Op(RegOp::Sub, Reg::S11, Reg::S11, Reg::T0),
    )
}

/// The data top falls by so many bytes.
#[tactic(auto, using(code_emit::proofs::Put::code_none), unfolding(frame_code::specs::Code::give_back))]
pub fn put_give_back(asm: &mut Asm, alloc: Global, bytes: u64) -> Result<(), NoMemory>
    ensures { OnOk result (asm.new ≡ put_code asm.old (give_back bytes)) }
{
    if bytes == 0 {
        return Ok(());
    }
    if bytes <= 2048 {
        return put_instr(
            asm,
            alloc,
            Instr::Imm(ImmOp::Addi, Reg::S11, Reg::S11, -(bytes as i32)),
        );
    }
    put_less_data(asm, alloc, bytes)
}

// The new data top in t0, and the end of data memory in t1.
#[tactic(auto, using(code_emit::proofs::Put::code_code))]
fn put_new_top(asm: &mut Asm, alloc: Global, bytes: u64, end: u64) -> Result<(), NoMemory>
    ensures { OnOk result (asm.new ≡ put_code asm.old (const_code 3 T0 (taken_bytes_of bytes) ++ (Instr.Op RegOp.Add T0 S11 T0 ∷ const_code 3 T1 end))) }
{
    put_const(asm, alloc, Reg::T0, capped(bytes))?;
    put_instr(
        asm,
        alloc,
        Instr::Op(RegOp::Add, Reg::T0, Reg::S11, Reg::T0),
    )?;
    put_const(asm, alloc, Reg::T1, end)
}

// The test of the new data top, and the old one to its place.
#[tactic(auto, using(code_emit::proofs::Put::code_code))]
fn put_taken(asm: &mut Asm, alloc: Global, to: Option<Place>) -> Result<(), NoMemory>
    requires { IsNear to }
    ensures { OnOk result (asm.new ≡ put_code asm.old (Instr.Branch Bgeu T1 T0 (pos 12) ∷ Instr.Imm ImmOp.Addi T0 X0 (pos 2) ∷ Instr.Ecall ∷ (store_place S11 to ++ Instr.Imm ImmOp.Addi S11 T0 (pos 0) ∷ []))) }
{
    put_stop(asm, alloc)?;
    put_store_place(asm, alloc, Reg::S11, to)?;
    put_instr(asm, alloc, Instr::Imm(ImmOp::Addi, Reg::S11, Reg::T0, 0))
}

/// So many bytes are taken behind the data top, where there is room before the end of data memory, and the old top goes to its place.
#[tactic(auto, using(code_emit::proofs::Put::code_code))]
pub fn put_take(
    asm: &mut Asm,
    alloc: Global,
    to: Option<Place>,
    bytes: u64,
    end: u64,
) -> Result<(), NoMemory>
    requires { IsNear to }
    ensures { OnOk result (asm.new ≡ put_code asm.old (const_code 3 T0 (taken_bytes_of bytes) ++ (Instr.Op RegOp.Add T0 S11 T0 ∷ (const_code 3 T1 end ++ (Instr.Branch Bgeu T1 T0 (pos 12) ∷ Instr.Imm ImmOp.Addi T0 X0 (pos 2) ∷ Instr.Ecall ∷ (store_place S11 to ++ Instr.Imm ImmOp.Addi S11 T0 (pos 0) ∷ [])))))) }
{
    put_new_top(asm, alloc, bytes, end)?;
    put_taken(asm, alloc, to)?;
    Ok(())
}

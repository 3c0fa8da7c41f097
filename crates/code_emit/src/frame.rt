// The code that enters and leaves: the count of the entry, the frame, ra and the return.
ghost use Rattle.std.specs.Prelude.{◌≡◌, ◌+◌, ◌<◌, ◌≤◌, ◌^◌, [], ◌∷◌, ◌++◌, pos, OnOk};
ghost use Rattle.rv_core.specs.Instr.{IsValid};
ghost use Rattle.rv_core.specs.declared.instr.Instr.TheVariants.{Imm, Op as RegisterOp, Ecall};
ghost use Rattle.code_pieces.specs.Code.{lowered_code, lower_sp, prologue, const_code, raised_code, leave_code};
ghost use Rattle.code_emit.specs.Written.{put_code};

use crate::pieces::{put_all, put_const, put_instr, put_load_at, put_store_at};
use rj_num::NoMemory;
use rv_asm::asm::Asm;
use rv_core::instr::{BranchOp, ImmOp, Instr, RegOp};
use rv_core::reg::Reg;
use std::alloc::Global;

// Sp less a frame of any size, in t0.
#[tactic(auto, using(crate::proofs::Put::code_code))]
fn put_less(asm: &mut Asm, alloc: Global, frame: u32) -> Result<(), NoMemory>
    ensures { OnOk result (asm.new ≡ put_code asm.old (const_code 3 Reg.T0 frame ++ RegisterOp RegOp.Sub Reg.T0 Reg.Sp Reg.T0 ∷ [])) }
{
    put_const(asm, alloc, Reg::T0, u64::from(frame))?;
    put_instr(asm, alloc, Instr::Op(RegOp::Sub, Reg::T0, Reg::Sp, Reg::T0))
}

// Sp less a frame, in t0.
#[tactic(auto, unfolding(code_pieces::specs::Code::lowered_code))]
fn put_lowered(asm: &mut Asm, alloc: Global, frame: u32) -> Result<(), NoMemory>
    requires { 128 ≤ frame }
    ensures { OnOk result (asm.new ≡ put_code asm.old (lowered_code frame)) }
{
    if frame <= 2048 {
        return put_instr(
            asm,
            alloc,
            Instr::Imm(ImmOp::Addi, Reg::T0, Reg::Sp, -(frame as i32)),
        );
    }
    put_less(asm, alloc, frame)
}

// Lowers sp by a frame, where t0 is sp less the frame.
fn lower_by(frame: u32) -> Instr
    requires { 128 ≤ frame }
    ensures value { result ≡ lower_sp frame }
    ensures valid { IsValid result }
{
    if frame <= 2048 {
        Instr::Imm(ImmOp::Addi, Reg::Sp, Reg::Sp, -(frame as i32))
    } else {
        Instr::Imm(ImmOp::Addi, Reg::Sp, Reg::T0, 0)
    }
}

// Counts the entry of a symbol.
fn put_count(asm: &mut Asm, alloc: Global, symbol: u32) -> Result<(), NoMemory>
    requires { symbol < 1024 }
    ensures { OnOk result (asm.new ≡ put_code asm.old (Imm ImmOp.Addi Reg.T0 Reg.X0 (pos 1) ∷ Imm ImmOp.Addi Reg.T1 Reg.X0 (pos symbol) ∷ Ecall ∷ [])) }
{
    put_all(
        asm,
        alloc,
        &[
            Instr::Imm(ImmOp::Addi, Reg::T0, Reg::X0, 1),
            Instr::Imm(ImmOp::Addi, Reg::T1, Reg::X0, symbol as i32),
            Instr::Ecall,
        ],
    )
}

/// Counts the entry of a symbol, takes a frame where there is room for it, and saves ra.
pub fn put_prologue(asm: &mut Asm, alloc: Global, symbol: u32, frame: u32) -> Result<(), NoMemory>
    requires symbol { symbol < 1024 }
    requires large { 128 ≤ frame }
    requires small { frame ≤ 2 ^ 20 }
    ensures { OnOk result (asm.new ≡ put_code asm.old (prologue symbol frame)) }
{
    put_count(asm, alloc, symbol)?;
    put_lowered(asm, alloc, frame)?;
    let test = [
        Instr::Lui(Reg::T2, 0x40000),
        Instr::Branch(BranchOp::Bgeu, Reg::T0, Reg::T2, 12),
        Instr::Imm(ImmOp::Addi, Reg::T0, Reg::X0, 2),
        Instr::Ecall,
        lower_by(frame),
    ];
    put_all(asm, alloc, &test)?;
    put_store_at(asm, alloc, Reg::Ra, frame - 8)?;
    Ok(())
}

// Raises sp by a frame of any size.
#[tactic(auto, using(crate::proofs::Put::code_code))]
fn put_more(asm: &mut Asm, alloc: Global, frame: u32) -> Result<(), NoMemory>
    ensures { OnOk result (asm.new ≡ put_code asm.old (const_code 3 Reg.T0 frame ++ RegisterOp RegOp.Add Reg.Sp Reg.Sp Reg.T0 ∷ [])) }
{
    put_const(asm, alloc, Reg::T0, u64::from(frame))?;
    put_instr(asm, alloc, Instr::Op(RegOp::Add, Reg::Sp, Reg::Sp, Reg::T0))
}

// Raises sp by a frame.
#[tactic(auto, unfolding(code_pieces::specs::Code::raised_code))]
fn put_raised(asm: &mut Asm, alloc: Global, frame: u32) -> Result<(), NoMemory>
    ensures { OnOk result (asm.new ≡ put_code asm.old (raised_code frame)) }
{
    if frame < 2048 {
        return put_instr(
            asm,
            alloc,
            Instr::Imm(ImmOp::Addi, Reg::Sp, Reg::Sp, frame as i32),
        );
    }
    put_more(asm, alloc, frame)
}

/// Restores ra and sp, and returns.
#[tactic(auto, using(crate::proofs::Put::code_code))]
pub fn put_leave(asm: &mut Asm, alloc: Global, frame: u32) -> Result<(), NoMemory>
    requires large { 128 ≤ frame }
    requires small { frame ≤ 2 ^ 20 }
    ensures { OnOk result (asm.new ≡ put_code asm.old (leave_code frame)) }
{
    put_load_at(asm, alloc, Reg::Ra, frame - 8)?;
    put_raised(asm, alloc, frame)?;
    put_instr(asm, alloc, Instr::Jalr(Reg::X0, Reg::Ra, 0))
}

// Data memory: the test of its top, and loops that move bytes of it.
ghost use Rattle.std.specs.Prelude.{◌≡◌, [], ◌∷◌, pos, OnOk};
ghost use Rattle.rv_core.specs.declared.reg.Reg.TheVariants.{X0, T0, T1};
ghost use Rattle.code_pieces.specs.Bytes.{move_code, fill_code};
ghost use Rattle.code_emit.specs.Written.{put_code};

use crate::pieces::put_all;
use rj_num::NoMemory;
use rv_asm::asm::Asm;
use rv_core::instr::{BranchOp, ImmOp, Instr, LoadOp, RegOp, StoreOp};
use rv_core::reg::Reg;
use std::alloc::Global;

/// The test of the new data top in t0 against the end in t1.
pub fn put_stop(asm: &mut Asm, alloc: Global) -> Result<(), NoMemory>
    ensures { OnOk result (asm.new ≡ put_code asm.old (Instr.Branch BranchOp.Bgeu T1 T0 (pos 12) ∷ Instr.Imm ImmOp.Addi T0 X0 (pos 2) ∷ Instr.Ecall ∷ [])) }
{
    put_all(
        asm,
        alloc,
        &[
            Instr::Branch(BranchOp::Bgeu, Reg::T1, Reg::T0, 12),
            Instr::Imm(ImmOp::Addi, Reg::T0, Reg::X0, 2),
            Instr::Ecall,
        ],
    )
}

/// Copies bytes to t0 from t1, as many as t2 says: from the last one down where they go upwards.
pub fn put_copy(asm: &mut Asm, alloc: Global) -> Result<(), NoMemory>
    ensures { OnOk result (asm.new ≡ put_code asm.old move_code) }
{
    put_all(
        asm,
        alloc,
        &[
            Instr::Branch(BranchOp::Beq, Reg::T2, Reg::X0, 56),
            Instr::Imm(ImmOp::Addi, Reg::T4, Reg::X0, 1),
            Instr::Branch(BranchOp::Bgeu, Reg::T1, Reg::T0, 24),
            Instr::Op(RegOp::Add, Reg::T0, Reg::T0, Reg::T2),
            Instr::Op(RegOp::Add, Reg::T1, Reg::T1, Reg::T2),
            Instr::Imm(ImmOp::Addi, Reg::T0, Reg::T0, -1),
            Instr::Imm(ImmOp::Addi, Reg::T1, Reg::T1, -1),
            Instr::Imm(ImmOp::Addi, Reg::T4, Reg::X0, -1),
            Instr::Load(LoadOp::Lbu, Reg::T3, Reg::T1, 0),
            Instr::Store(StoreOp::Sb, Reg::T3, Reg::T0, 0),
            Instr::Op(RegOp::Add, Reg::T1, Reg::T1, Reg::T4),
            Instr::Op(RegOp::Add, Reg::T0, Reg::T0, Reg::T4),
            Instr::Imm(ImmOp::Addi, Reg::T2, Reg::T2, -1),
            Instr::Branch(BranchOp::Bne, Reg::T2, Reg::X0, -20),
        ],
    )
}

/// Writes the byte in t1 to t0 on, as often as t2 says.
pub fn put_fill(asm: &mut Asm, alloc: Global) -> Result<(), NoMemory>
    ensures { OnOk result (asm.new ≡ put_code asm.old fill_code) }
{
    put_all(
        asm,
        alloc,
        &[
            Instr::Branch(BranchOp::Beq, Reg::T2, Reg::X0, 20),
            Instr::Store(StoreOp::Sb, Reg::T1, Reg::T0, 0),
            Instr::Imm(ImmOp::Addi, Reg::T0, Reg::T0, 1),
            Instr::Imm(ImmOp::Addi, Reg::T2, Reg::T2, -1),
            Instr::Branch(BranchOp::Bne, Reg::T2, Reg::X0, -12),
        ],
    )
}

// The names of registers and instructions.

ghost use Rattle.std.specs.Prelude.{◌≡◌};
ghost use Rattle.rv_print.specs.Names.{reg_name, branch_name, load_name, store_name, imm_name, op_name};

use rv_core::instr::{BranchOp, ImmOp, LoadOp, RegOp, StoreOp};
use rv_core::reg::Reg;

/// A register's ABI name; the first is `x0`.
pub fn reg_name(reg: Reg) -> &'static str
    ensures { result.now ≡ reg_name reg }
{
    match reg {
        Reg::X0 => "x0",
        Reg::Ra => "ra",
        Reg::Sp => "sp",
        Reg::Gp => "gp",
        Reg::Tp => "tp",
        Reg::T0 => "t0",
        Reg::T1 => "t1",
        Reg::T2 => "t2",
        Reg::S0 => "s0",
        Reg::S1 => "s1",
        Reg::A0 => "a0",
        Reg::A1 => "a1",
        Reg::A2 => "a2",
        Reg::A3 => "a3",
        Reg::A4 => "a4",
        Reg::A5 => "a5",
        Reg::A6 => "a6",
        Reg::A7 => "a7",
        Reg::S2 => "s2",
        Reg::S3 => "s3",
        Reg::S4 => "s4",
        Reg::S5 => "s5",
        Reg::S6 => "s6",
        Reg::S7 => "s7",
        Reg::S8 => "s8",
        Reg::S9 => "s9",
        Reg::S10 => "s10",
        Reg::S11 => "s11",
        Reg::T3 => "t3",
        Reg::T4 => "t4",
        Reg::T5 => "t5",
        Reg::T6 => "t6",
    }
}

pub fn branch_name(op: BranchOp) -> &'static str
    ensures { result.now ≡ branch_name op }
{
    match op {
        BranchOp::Beq => "beq",
        BranchOp::Bne => "bne",
        BranchOp::Blt => "blt",
        BranchOp::Bge => "bge",
        BranchOp::Bltu => "bltu",
        BranchOp::Bgeu => "bgeu",
    }
}

pub fn load_name(op: LoadOp) -> &'static str
    ensures { result.now ≡ load_name op }
{
    match op {
        LoadOp::Lb => "lb",
        LoadOp::Lh => "lh",
        LoadOp::Lw => "lw",
        LoadOp::Ld => "ld",
        LoadOp::Lbu => "lbu",
        LoadOp::Lhu => "lhu",
        LoadOp::Lwu => "lwu",
    }
}

pub fn store_name(op: StoreOp) -> &'static str
    ensures { result.now ≡ store_name op }
{
    match op {
        StoreOp::Sb => "sb",
        StoreOp::Sh => "sh",
        StoreOp::Sw => "sw",
        StoreOp::Sd => "sd",
    }
}

pub fn imm_name(op: ImmOp) -> &'static str
    ensures { result.now ≡ imm_name op }
{
    match op {
        ImmOp::Addi => "addi",
        ImmOp::Slti => "slti",
        ImmOp::Sltiu => "sltiu",
        ImmOp::Xori => "xori",
        ImmOp::Ori => "ori",
        ImmOp::Andi => "andi",
        ImmOp::Slli => "slli",
        ImmOp::Srli => "srli",
        ImmOp::Srai => "srai",
        ImmOp::Addiw => "addiw",
        ImmOp::Slliw => "slliw",
        ImmOp::Srliw => "srliw",
        ImmOp::Sraiw => "sraiw",
    }
}

pub fn op_name(op: RegOp) -> &'static str
    ensures { result.now ≡ op_name op }
{
    match op {
        RegOp::Add => "add",
        RegOp::Sub => "sub",
        RegOp::Sll => "sll",
        RegOp::Slt => "slt",
        RegOp::Sltu => "sltu",
        RegOp::Xor => "xor",
        RegOp::Srl => "srl",
        RegOp::Sra => "sra",
        RegOp::Or => "or",
        RegOp::And => "and",
        RegOp::Mul => "mul",
        RegOp::Mulh => "mulh",
        RegOp::Mulhsu => "mulhsu",
        RegOp::Mulhu => "mulhu",
        RegOp::Div => "div",
        RegOp::Divu => "divu",
        RegOp::Rem => "rem",
        RegOp::Remu => "remu",
        RegOp::Addw => "addw",
        RegOp::Subw => "subw",
        RegOp::Sllw => "sllw",
        RegOp::Srlw => "srlw",
        RegOp::Sraw => "sraw",
        RegOp::Mulw => "mulw",
        RegOp::Divw => "divw",
        RegOp::Divuw => "divuw",
        RegOp::Remw => "remw",
        RegOp::Remuw => "remuw",
    }
}

// The forms in which instructions are kept by a hart, each operation a variant of its own.
ghost use Rattle.std.specs.Prelude.{◌≡◌, Some};
ghost use Rattle.rv_core.specs.declared.instr.Instr.{Instr};
ghost use Rattle.hart.specs.Forms.{reads_as};

use rv_core::instr::{BranchOp, ImmOp, Instr, LoadOp, RegOp, StoreOp};
use rv_core::reg::Reg;

/// An instruction by its operation. Registers come in the order of `Instr`.
#[derive(Clone, Copy, PartialEq, Eq)]
pub enum Form {
    Lui(Reg, u32),
    Auipc(Reg, u32),
    Jal(Reg, i32),
    Jalr(Reg, Reg, i32),
    Beq(Reg, Reg, i32),
    Bne(Reg, Reg, i32),
    Blt(Reg, Reg, i32),
    Bge(Reg, Reg, i32),
    Bltu(Reg, Reg, i32),
    Bgeu(Reg, Reg, i32),
    Lb(Reg, Reg, i32),
    Lh(Reg, Reg, i32),
    Lw(Reg, Reg, i32),
    Ld(Reg, Reg, i32),
    Lbu(Reg, Reg, i32),
    Lhu(Reg, Reg, i32),
    Lwu(Reg, Reg, i32),
    Sb(Reg, Reg, i32),
    Sh(Reg, Reg, i32),
    Sw(Reg, Reg, i32),
    Sd(Reg, Reg, i32),
    Addi(Reg, Reg, i32),
    Slti(Reg, Reg, i32),
    Sltiu(Reg, Reg, i32),
    Xori(Reg, Reg, i32),
    Ori(Reg, Reg, i32),
    Andi(Reg, Reg, i32),
    Slli(Reg, Reg, i32),
    Srli(Reg, Reg, i32),
    Srai(Reg, Reg, i32),
    Addiw(Reg, Reg, i32),
    Slliw(Reg, Reg, i32),
    Srliw(Reg, Reg, i32),
    Sraiw(Reg, Reg, i32),
    Add(Reg, Reg, Reg),
    Sub(Reg, Reg, Reg),
    Sll(Reg, Reg, Reg),
    Slt(Reg, Reg, Reg),
    Sltu(Reg, Reg, Reg),
    Xor(Reg, Reg, Reg),
    Srl(Reg, Reg, Reg),
    Sra(Reg, Reg, Reg),
    Or(Reg, Reg, Reg),
    And(Reg, Reg, Reg),
    Mul(Reg, Reg, Reg),
    Addw(Reg, Reg, Reg),
    Subw(Reg, Reg, Reg),
    Sllw(Reg, Reg, Reg),
    Srlw(Reg, Reg, Reg),
    Sraw(Reg, Reg, Reg),
    Mulw(Reg, Reg, Reg),
    /// An operation that is rarer.
    Op(RegOp, Reg, Reg, Reg),
    /// Any other word.
    Other,
}

/// The form of an instruction.
pub fn form_of(instr: Instr) -> Form
    ensures { reads_as result (Some instr) ≡ Some instr }
{
    match instr {
        Instr::Lui(rd, field) => Form::Lui(rd, field),
        Instr::Auipc(rd, field) => Form::Auipc(rd, field),
        Instr::Jal(rd, offset) => Form::Jal(rd, offset),
        Instr::Jalr(rd, rs1, offset) => Form::Jalr(rd, rs1, offset),
        Instr::Branch(op, rs1, rs2, offset) => branch_form(op, rs1, rs2, offset),
        Instr::Load(op, rd, rs1, offset) => load_form(op, rd, rs1, offset),
        Instr::Store(op, rs2, rs1, offset) => store_form(op, rs2, rs1, offset),
        Instr::Imm(op, rd, rs1, number) => imm_form(op, rd, rs1, number),
        Instr::Op(op, rd, rs1, rs2) => op_form(op, rd, rs1, rs2),
        Instr::Fence => Form::Other,
        Instr::Ecall => Form::Other,
        Instr::Ebreak => Form::Other,
    }
}

fn branch_form(op: BranchOp, rs1: Reg, rs2: Reg, offset: i32) -> Form
    ensures { reads_as result (Some (Instr.Branch op rs1 rs2 offset)) ≡ Some (Instr.Branch op rs1 rs2 offset) }
{
    match op {
        BranchOp::Beq => Form::Beq(rs1, rs2, offset),
        BranchOp::Bne => Form::Bne(rs1, rs2, offset),
        BranchOp::Blt => Form::Blt(rs1, rs2, offset),
        BranchOp::Bge => Form::Bge(rs1, rs2, offset),
        BranchOp::Bltu => Form::Bltu(rs1, rs2, offset),
        BranchOp::Bgeu => Form::Bgeu(rs1, rs2, offset),
    }
}

fn load_form(op: LoadOp, rd: Reg, rs1: Reg, offset: i32) -> Form
    ensures { reads_as result (Some (Instr.Load op rd rs1 offset)) ≡ Some (Instr.Load op rd rs1 offset) }
{
    match op {
        LoadOp::Lb => Form::Lb(rd, rs1, offset),
        LoadOp::Lh => Form::Lh(rd, rs1, offset),
        LoadOp::Lw => Form::Lw(rd, rs1, offset),
        LoadOp::Ld => Form::Ld(rd, rs1, offset),
        LoadOp::Lbu => Form::Lbu(rd, rs1, offset),
        LoadOp::Lhu => Form::Lhu(rd, rs1, offset),
        LoadOp::Lwu => Form::Lwu(rd, rs1, offset),
    }
}

fn store_form(op: StoreOp, rs2: Reg, rs1: Reg, offset: i32) -> Form
    ensures { reads_as result (Some (Instr.Store op rs2 rs1 offset)) ≡ Some (Instr.Store op rs2 rs1 offset) }
{
    match op {
        StoreOp::Sb => Form::Sb(rs2, rs1, offset),
        StoreOp::Sh => Form::Sh(rs2, rs1, offset),
        StoreOp::Sw => Form::Sw(rs2, rs1, offset),
        StoreOp::Sd => Form::Sd(rs2, rs1, offset),
    }
}

fn imm_form(op: ImmOp, rd: Reg, rs1: Reg, number: i32) -> Form
    ensures { reads_as result (Some (Instr.Imm op rd rs1 number)) ≡ Some (Instr.Imm op rd rs1 number) }
{
    match op {
        ImmOp::Addi => Form::Addi(rd, rs1, number),
        ImmOp::Slti => Form::Slti(rd, rs1, number),
        ImmOp::Sltiu => Form::Sltiu(rd, rs1, number),
        ImmOp::Xori => Form::Xori(rd, rs1, number),
        ImmOp::Ori => Form::Ori(rd, rs1, number),
        ImmOp::Andi => Form::Andi(rd, rs1, number),
        ImmOp::Slli => Form::Slli(rd, rs1, number),
        ImmOp::Srli => Form::Srli(rd, rs1, number),
        ImmOp::Srai => Form::Srai(rd, rs1, number),
        ImmOp::Addiw => Form::Addiw(rd, rs1, number),
        ImmOp::Slliw => Form::Slliw(rd, rs1, number),
        ImmOp::Srliw => Form::Srliw(rd, rs1, number),
        ImmOp::Sraiw => Form::Sraiw(rd, rs1, number),
    }
}

fn op_form(op: RegOp, rd: Reg, rs1: Reg, rs2: Reg) -> Form
    ensures { reads_as result (Some (Instr.Op op rd rs1 rs2)) ≡ Some (Instr.Op op rd rs1 rs2) }
{
    match op {
        RegOp::Add => Form::Add(rd, rs1, rs2),
        RegOp::Sub => Form::Sub(rd, rs1, rs2),
        RegOp::Sll => Form::Sll(rd, rs1, rs2),
        RegOp::Slt => Form::Slt(rd, rs1, rs2),
        RegOp::Sltu => Form::Sltu(rd, rs1, rs2),
        RegOp::Xor => Form::Xor(rd, rs1, rs2),
        RegOp::Srl => Form::Srl(rd, rs1, rs2),
        RegOp::Sra => Form::Sra(rd, rs1, rs2),
        RegOp::Or => Form::Or(rd, rs1, rs2),
        RegOp::And => Form::And(rd, rs1, rs2),
        RegOp::Mul => Form::Mul(rd, rs1, rs2),
        RegOp::Addw => Form::Addw(rd, rs1, rs2),
        RegOp::Subw => Form::Subw(rd, rs1, rs2),
        RegOp::Sllw => Form::Sllw(rd, rs1, rs2),
        RegOp::Srlw => Form::Srlw(rd, rs1, rs2),
        RegOp::Sraw => Form::Sraw(rd, rs1, rs2),
        RegOp::Mulw => Form::Mulw(rd, rs1, rs2),
        _ => Form::Op(op, rd, rs1, rs2),
    }
}

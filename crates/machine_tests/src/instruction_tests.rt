// One instruction at a time, at the ends of the ranges. The values are those of the manual's rules, worked out by hand
// or by a script of its own.

use rv_core::instr::{BranchOp, ImmOp, Instr, LoadOp, RegOp, StoreOp};
use rv_core::reg::Reg;
use rv_core::step::{Regs, Stepped, step_instr};

const ONES: u64 = u64::MAX;

const LEAST: u64 = 1 << 63;

const GREATEST: u64 = LEAST - 1;

const PC: u64 = 0x0100_0000;

fn with_operands(a1: u64, a2: u64) -> Regs {
    let mut regs = Regs { x: [0; 32], pc: PC };
    regs.write(Reg::A1, a1);
    regs.write(Reg::A2, a2);
    regs
}

#[test]
fn operations_on_two_registers(rt: HostRuntime) {
    for (op, a, b, wanted) in [
        (RegOp::Add, GREATEST, 1, LEAST),
        (RegOp::Add, ONES, 1, 0),
        (RegOp::Sub, 0, 1, ONES),
        (RegOp::Sub, LEAST, 1, GREATEST),
        (RegOp::Sll, 1, 63, LEAST),
        (RegOp::Sll, 3, 127, LEAST),
        (RegOp::Slt, LEAST, GREATEST, 1),
        (RegOp::Slt, ONES, 0, 1),
        (RegOp::Slt, 0, ONES, 0),
        (RegOp::Sltu, LEAST, GREATEST, 0),
        (RegOp::Sltu, 0, ONES, 1),
        (RegOp::Xor, ONES, GREATEST, LEAST),
        (RegOp::Srl, LEAST, 63, 1),
        (RegOp::Srl, ONES, 65, GREATEST),
        (RegOp::Sra, LEAST, 63, ONES),
        (RegOp::Sra, GREATEST, 62, 1),
        (RegOp::Sra, 0xfffffffffffffffe, 65, ONES),
        (RegOp::Or, LEAST, GREATEST, ONES),
        (RegOp::And, ONES, GREATEST, GREATEST),
        (RegOp::Mul, LEAST, 2, 0),
        (RegOp::Mul, ONES, ONES, 1),
        (RegOp::Mulh, ONES, ONES, 0),
        (RegOp::Mulh, LEAST, LEAST, 0x4000000000000000),
        (RegOp::Mulh, LEAST, ONES, 0),
        (RegOp::Mulhsu, ONES, ONES, ONES),
        (RegOp::Mulhsu, LEAST, ONES, LEAST),
        (RegOp::Mulhsu, GREATEST, ONES, 0x7ffffffffffffffe),
        (RegOp::Mulhu, ONES, ONES, 0xfffffffffffffffe),
        (RegOp::Mulhu, LEAST, LEAST, 0x4000000000000000),
        (RegOp::Div, LEAST, ONES, LEAST),
        (RegOp::Div, 5, 0, ONES),
        (RegOp::Div, 0xfffffffffffffff9, 2, 0xfffffffffffffffd),
        (RegOp::Divu, 5, 0, ONES),
        (RegOp::Divu, ONES, 2, GREATEST),
        (RegOp::Rem, LEAST, ONES, 0),
        (RegOp::Rem, 5, 0, 5),
        (RegOp::Rem, 0xfffffffffffffff9, 2, ONES),
        (RegOp::Remu, 5, 0, 5),
        (RegOp::Remu, ONES, GREATEST, 1),
        (RegOp::Addw, (1 << 31) - 1, 1, ONES << 31),
        (RegOp::Addw, 1 << 32, ONES, ONES),
        (RegOp::Subw, 0, 1 << 31, ONES << 31),
        (RegOp::Subw, 1 << 31, 1, (1 << 31) - 1),
        (RegOp::Sllw, 1, 31, ONES << 31),
        (RegOp::Sllw, 1, 32, 1),
        (RegOp::Sllw, (1 << 31) + 1, 1, 2),
        (RegOp::Srlw, 1 << 31, 0, ONES << 31),
        (RegOp::Srlw, 1 << 31, 31, 1),
        (RegOp::Srlw, ONES, 33, (1 << 31) - 1),
        (RegOp::Sraw, 1 << 31, 31, ONES),
        (RegOp::Sraw, (1 << 31) - 1, 30, 1),
        (RegOp::Sraw, 0x180000000, 1, 0xffffffffc0000000),
        (RegOp::Mulw, 1 << 31, 2, 0),
        (RegOp::Mulw, (1 << 31) - 1, (1 << 31) - 1, 1),
        (RegOp::Divw, 1 << 31, (1 << 32) - 1, ONES << 31),
        (RegOp::Divw, 1 << 31, 1, ONES << 31),
        (RegOp::Divw, 7, 1 << 32, ONES),
        (RegOp::Divuw, 5, 1 << 32, ONES),
        (RegOp::Divuw, (1 << 32) - 1, 1, ONES),
        (RegOp::Remw, 1 << 31, (1 << 32) - 1, 0),
        (RegOp::Remw, (1 << 31) + 1, 0, 0xffffffff80000001),
        (RegOp::Remw, 0xfffffffffffffff9, 2, ONES),
        (RegOp::Remuw, 1 << 31, 1 << 32, ONES << 31),
        (RegOp::Remuw, (1 << 32) - 1, 1 << 31, (1 << 31) - 1),
    ] {
        let mut regs = with_operands(a, b);
        let stepped = step_instr(&mut regs, Instr::Op(op, Reg::A0, Reg::A1, Reg::A2));
        assert_eq!(rt; regs.read(Reg::A0), wanted, "{op:?} of {a} and {b}");
        assert!(rt; stepped == Stepped::Done && regs.pc == PC + 4);
    }
}

#[test]
fn immediates_and_jumps(rt: HostRuntime) {
    for (instr, a1, a2, a0, pc) in [
        (
            Instr::Imm(ImmOp::Addi, Reg::A0, Reg::A1, -2048),
            0,
            0,
            ONES - 2047,
            PC + 4,
        ),
        (
            Instr::Imm(ImmOp::Addi, Reg::A0, Reg::A1, 2047),
            ONES,
            0,
            2046,
            PC + 4,
        ),
        (
            Instr::Imm(ImmOp::Slti, Reg::A0, Reg::A1, -1),
            LEAST,
            0,
            1,
            PC + 4,
        ),
        (
            Instr::Imm(ImmOp::Sltiu, Reg::A0, Reg::A1, -1),
            5,
            0,
            1,
            PC + 4,
        ),
        (
            Instr::Imm(ImmOp::Xori, Reg::A0, Reg::A1, -1),
            GREATEST,
            0,
            LEAST,
            PC + 4,
        ),
        (
            Instr::Imm(ImmOp::Ori, Reg::A0, Reg::A1, -2048),
            5,
            0,
            ONES - 2042,
            PC + 4,
        ),
        (
            Instr::Imm(ImmOp::Andi, Reg::A0, Reg::A1, -1),
            LEAST,
            0,
            LEAST,
            PC + 4,
        ),
        (
            Instr::Imm(ImmOp::Slli, Reg::A0, Reg::A1, 63),
            3,
            0,
            LEAST,
            PC + 4,
        ),
        (
            Instr::Imm(ImmOp::Srli, Reg::A0, Reg::A1, 32),
            1 << 32,
            0,
            1,
            PC + 4,
        ),
        (
            Instr::Imm(ImmOp::Srai, Reg::A0, Reg::A1, 63),
            LEAST,
            0,
            ONES,
            PC + 4,
        ),
        (
            Instr::Imm(ImmOp::Addiw, Reg::A0, Reg::A1, 1),
            GREATEST,
            0,
            0,
            PC + 4,
        ),
        (
            Instr::Imm(ImmOp::Slliw, Reg::A0, Reg::A1, 31),
            1,
            0,
            ONES << 31,
            PC + 4,
        ),
        (
            Instr::Imm(ImmOp::Srliw, Reg::A0, Reg::A1, 31),
            ONES,
            0,
            1,
            PC + 4,
        ),
        (
            Instr::Imm(ImmOp::Sraiw, Reg::A0, Reg::A1, 31),
            1 << 31,
            0,
            ONES,
            PC + 4,
        ),
        (Instr::Lui(Reg::A0, 0x80000), 0, 0, ONES << 31, PC + 4),
        (Instr::Auipc(Reg::A0, 0xfffff), 0, 0, PC - 4096, PC + 4),
        (Instr::Jal(Reg::A0, -1048576), 0, 0, PC + 4, PC - 1048576),
        (Instr::Jalr(Reg::A0, Reg::A0, 3), 0, 0, PC + 4, 2),
        (Instr::Jalr(Reg::A0, Reg::A1, -1), 0, 0, PC + 4, ONES - 1),
        (
            Instr::Branch(BranchOp::Beq, Reg::A1, Reg::A2, -4096),
            7,
            7,
            0,
            PC - 4096,
        ),
        (
            Instr::Branch(BranchOp::Bne, Reg::A1, Reg::A2, 4094),
            7,
            7,
            0,
            PC + 4,
        ),
        (
            Instr::Branch(BranchOp::Blt, Reg::A1, Reg::A2, 8),
            LEAST,
            0,
            0,
            PC + 8,
        ),
        (
            Instr::Branch(BranchOp::Bge, Reg::A1, Reg::A2, 8),
            LEAST,
            0,
            0,
            PC + 4,
        ),
        (
            Instr::Branch(BranchOp::Bltu, Reg::A1, Reg::A2, 8),
            LEAST,
            0,
            0,
            PC + 4,
        ),
        (
            Instr::Branch(BranchOp::Bgeu, Reg::A1, Reg::A2, 8),
            0,
            0,
            0,
            PC + 8,
        ),
    ] {
        assert!(rt; instr.is_valid());
        let mut regs = with_operands(a1, a2);
        let stepped = step_instr(&mut regs, instr);
        assert_eq!(rt; regs.read(Reg::A0), a0, "{instr:?}");
        assert_eq!(rt; regs.pc, pc, "{instr:?}");
        assert!(rt; stepped == Stepped::Done);
    }
}

#[test]
fn requests(rt: HostRuntime) {
    for (instr, wanted, pc) in [
        (
            Instr::Load(LoadOp::Lw, Reg::A0, Reg::A1, -4),
            Stepped::Load(LoadOp::Lw, Reg::A0, 96),
            PC + 4,
        ),
        (
            Instr::Store(StoreOp::Sd, Reg::A2, Reg::A1, 8),
            Stepped::Store(StoreOp::Sd, 9, 108),
            PC + 4,
        ),
        (Instr::Fence, Stepped::Done, PC + 4),
        (Instr::Ecall, Stepped::Call, PC + 4),
        (Instr::Ebreak, Stepped::Break, PC),
    ] {
        assert!(rt; instr.is_valid());
        let mut regs = with_operands(100, 9);
        assert!(rt;
            step_instr(&mut regs, instr) == wanted && regs.pc == pc,
            "{instr:?}"
        );
    }
    let mut regs = with_operands(0, 0);
    regs.write(Reg::X0, 1);
    assert!(rt;
        regs.read(Reg::X0) == 0 && regs.x[0] == 0 && Reg::from_number(Reg::T6.number()) == Reg::T6
    );
}

#[test]
fn what_has_a_spelling(rt: HostRuntime) {
    for (instr, wanted) in [
        (Instr::Lui(Reg::A0, 0xfffff), true),
        (Instr::Auipc(Reg::A0, 0x100000), false),
        (Instr::Jal(Reg::A0, 1048574), true),
        (Instr::Jal(Reg::A0, 1048576), false),
        (Instr::Jal(Reg::A0, 3), false),
        (Instr::Jalr(Reg::A0, Reg::A1, -2049), false),
        (Instr::Branch(BranchOp::Beq, Reg::A0, Reg::A1, -4096), true),
        (Instr::Branch(BranchOp::Beq, Reg::A0, Reg::A1, 4096), false),
        (Instr::Store(StoreOp::Sb, Reg::A0, Reg::A1, 2048), false),
        (Instr::Imm(ImmOp::Srai, Reg::A0, Reg::A1, 63), true),
        (Instr::Imm(ImmOp::Srai, Reg::A0, Reg::A1, 64), false),
        (Instr::Imm(ImmOp::Sraiw, Reg::A0, Reg::A1, 32), false),
        (Instr::Imm(ImmOp::Slli, Reg::A0, Reg::A1, -1), false),
    ] {
        assert_eq!(rt; instr.is_valid(), wanted, "{instr:?}");
    }
}

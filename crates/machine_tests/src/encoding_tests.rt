// Words as LLVM's assembler writes them, with every format's ends of range, and words that spell nothing.

use rv_core::instr::{BranchOp, ImmOp, Instr, LoadOp, RegOp, StoreOp};
use rv_core::reg::Reg;
use rv_encode::decode::decode;
use rv_encode::encode::encode;

#[test]
fn words_of_instructions(rt: HostRuntime) {
    for (word, instr) in [
        (0x00000537, Instr::Lui(Reg::A0, 0)),
        (0xffffffb7, Instr::Lui(Reg::T6, 0xfffff)),
        (0x12345097, Instr::Auipc(Reg::Ra, 0x12345)),
        (0x800000ef, Instr::Jal(Reg::Ra, -1048576)),
        (0x7ffff06f, Instr::Jal(Reg::X0, 1048574)),
        (0x00008067, Instr::Jalr(Reg::X0, Reg::Ra, 0)),
        (0x800f8567, Instr::Jalr(Reg::A0, Reg::T6, -2048)),
        (
            0x80b50063,
            Instr::Branch(BranchOp::Beq, Reg::A0, Reg::A1, -4096),
        ),
        (
            0x7e0d9fe3,
            Instr::Branch(BranchOp::Bne, Reg::S11, Reg::X0, 4094),
        ),
        (
            0x00b540e3,
            Instr::Branch(BranchOp::Blt, Reg::A0, Reg::A1, 2048),
        ),
        (
            0xfeb55fe3,
            Instr::Branch(BranchOp::Bge, Reg::A0, Reg::A1, -2),
        ),
        (
            0x00b56f63,
            Instr::Branch(BranchOp::Bltu, Reg::A0, Reg::A1, 30),
        ),
        (
            0x0072f663,
            Instr::Branch(BranchOp::Bgeu, Reg::T0, Reg::T2, 12),
        ),
        (0x80010503, Instr::Load(LoadOp::Lb, Reg::A0, Reg::Sp, -2048)),
        (0x7ff11503, Instr::Load(LoadOp::Lh, Reg::A0, Reg::Sp, 2047)),
        (0x00012403, Instr::Load(LoadOp::Lw, Reg::S0, Reg::Sp, 0)),
        (0x0b813083, Instr::Load(LoadOp::Ld, Reg::Ra, Reg::Sp, 184)),
        (0x00154503, Instr::Load(LoadOp::Lbu, Reg::A0, Reg::A0, 1)),
        (0x00255503, Instr::Load(LoadOp::Lhu, Reg::A0, Reg::A0, 2)),
        (0xffffef83, Instr::Load(LoadOp::Lwu, Reg::T6, Reg::T6, -1)),
        (
            0x80a10023,
            Instr::Store(StoreOp::Sb, Reg::A0, Reg::Sp, -2048),
        ),
        (
            0x7ea11fa3,
            Instr::Store(StoreOp::Sh, Reg::A0, Reg::Sp, 2047),
        ),
        (0xffff2fa3, Instr::Store(StoreOp::Sw, Reg::T6, Reg::T5, -1)),
        (0x0a113c23, Instr::Store(StoreOp::Sd, Reg::Ra, Reg::Sp, 184)),
        (0xf4010293, Instr::Imm(ImmOp::Addi, Reg::T0, Reg::Sp, -192)),
        (0x7ff50513, Instr::Imm(ImmOp::Addi, Reg::A0, Reg::A0, 2047)),
        (0xfff5a513, Instr::Imm(ImmOp::Slti, Reg::A0, Reg::A1, -1)),
        (0x0015b513, Instr::Imm(ImmOp::Sltiu, Reg::A0, Reg::A1, 1)),
        (0xfff5c513, Instr::Imm(ImmOp::Xori, Reg::A0, Reg::A1, -1)),
        (0x8005e513, Instr::Imm(ImmOp::Ori, Reg::A0, Reg::A1, -2048)),
        (0x0ff5f513, Instr::Imm(ImmOp::Andi, Reg::A0, Reg::A1, 255)),
        (0x03f51513, Instr::Imm(ImmOp::Slli, Reg::A0, Reg::A0, 63)),
        (0x02055513, Instr::Imm(ImmOp::Srli, Reg::A0, Reg::A0, 32)),
        (0x41f55513, Instr::Imm(ImmOp::Srai, Reg::A0, Reg::A0, 31)),
        (0xfff5051b, Instr::Imm(ImmOp::Addiw, Reg::A0, Reg::A0, -1)),
        (0x01f5151b, Instr::Imm(ImmOp::Slliw, Reg::A0, Reg::A0, 31)),
        (0x0015551b, Instr::Imm(ImmOp::Srliw, Reg::A0, Reg::A0, 1)),
        (0x41f5551b, Instr::Imm(ImmOp::Sraiw, Reg::A0, Reg::A0, 31)),
        (0x00b50533, Instr::Op(RegOp::Add, Reg::A0, Reg::A0, Reg::A1)),
        (
            0x411d8fb3,
            Instr::Op(RegOp::Sub, Reg::T6, Reg::S11, Reg::A7),
        ),
        (0x00c59533, Instr::Op(RegOp::Sll, Reg::A0, Reg::A1, Reg::A2)),
        (0x00c5a533, Instr::Op(RegOp::Slt, Reg::A0, Reg::A1, Reg::A2)),
        (
            0x00c5b533,
            Instr::Op(RegOp::Sltu, Reg::A0, Reg::A1, Reg::A2),
        ),
        (0x00c5c533, Instr::Op(RegOp::Xor, Reg::A0, Reg::A1, Reg::A2)),
        (0x00c5d533, Instr::Op(RegOp::Srl, Reg::A0, Reg::A1, Reg::A2)),
        (0x40c5d533, Instr::Op(RegOp::Sra, Reg::A0, Reg::A1, Reg::A2)),
        (0x00c5e533, Instr::Op(RegOp::Or, Reg::A0, Reg::A1, Reg::A2)),
        (0x00c5f533, Instr::Op(RegOp::And, Reg::A0, Reg::A1, Reg::A2)),
        (0x02c58533, Instr::Op(RegOp::Mul, Reg::A0, Reg::A1, Reg::A2)),
        (
            0x02c59533,
            Instr::Op(RegOp::Mulh, Reg::A0, Reg::A1, Reg::A2),
        ),
        (
            0x02c5a533,
            Instr::Op(RegOp::Mulhsu, Reg::A0, Reg::A1, Reg::A2),
        ),
        (
            0x02c5b533,
            Instr::Op(RegOp::Mulhu, Reg::A0, Reg::A1, Reg::A2),
        ),
        (0x02c5c533, Instr::Op(RegOp::Div, Reg::A0, Reg::A1, Reg::A2)),
        (
            0x02c5d533,
            Instr::Op(RegOp::Divu, Reg::A0, Reg::A1, Reg::A2),
        ),
        (0x02c5e533, Instr::Op(RegOp::Rem, Reg::A0, Reg::A1, Reg::A2)),
        (
            0x02c5f533,
            Instr::Op(RegOp::Remu, Reg::A0, Reg::A1, Reg::A2),
        ),
        (
            0x00c5853b,
            Instr::Op(RegOp::Addw, Reg::A0, Reg::A1, Reg::A2),
        ),
        (
            0x40c5853b,
            Instr::Op(RegOp::Subw, Reg::A0, Reg::A1, Reg::A2),
        ),
        (
            0x00c5953b,
            Instr::Op(RegOp::Sllw, Reg::A0, Reg::A1, Reg::A2),
        ),
        (
            0x00c5d53b,
            Instr::Op(RegOp::Srlw, Reg::A0, Reg::A1, Reg::A2),
        ),
        (
            0x40c5d53b,
            Instr::Op(RegOp::Sraw, Reg::A0, Reg::A1, Reg::A2),
        ),
        (
            0x02c5853b,
            Instr::Op(RegOp::Mulw, Reg::A0, Reg::A1, Reg::A2),
        ),
        (
            0x02c5c53b,
            Instr::Op(RegOp::Divw, Reg::A0, Reg::A1, Reg::A2),
        ),
        (
            0x02c5d53b,
            Instr::Op(RegOp::Divuw, Reg::A0, Reg::A1, Reg::A2),
        ),
        (
            0x02c5e53b,
            Instr::Op(RegOp::Remw, Reg::A0, Reg::A1, Reg::A2),
        ),
        (
            0x02c5f53b,
            Instr::Op(RegOp::Remuw, Reg::A0, Reg::A1, Reg::A2),
        ),
        (0x0ff0000f, Instr::Fence),
        (0x00000073, Instr::Ecall),
        (0x00100073, Instr::Ebreak),
    ] {
        assert!(rt; instr.is_valid());
        assert!(rt; encode(instr) == word, "{instr:?}");
        assert!(rt; decode(word) == Some(instr), "{instr:?}");
    }
}

#[test]
fn words_that_spell_nothing(rt: HostRuntime) {
    for word in [
        0,
        0xffff_ffff,
        0x4015_1513,
        0x0000_1067,
        0x0000_2063,
        0x0000_7003,
        0x0000_4023,
        0x8000_5013,
        0x0200_151b,
        0x4200_551b,
        0x0000_201b,
        0x4000_1033,
        0x0400_0033,
        0x0200_103b,
        0x4000_103b,
        0x0330_000f,
        0x0ff0_008f,
        0x0000_100f,
        0x0000_00f3,
        0x0020_0073,
        0x1050_0073,
        0x0000_0001,
    ] {
        assert!(rt; decode(word) == None, "{word}");
    }
}

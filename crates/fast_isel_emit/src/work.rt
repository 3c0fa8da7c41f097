// The work of operators, compares and casts, on operands that stand in t0 and t1; its result stands in t0.
ghost use Rattle.std.specs.Prelude.{◌≡◌, ◌-◌, ◌^◌, ◌==◌, ◌≤◌, if◌then◌else◌, [], ◌∷◌, ◌++◌, pos, OnOk};
ghost use Rattle.rv_core.specs.Instr.{AreValid, Fits12};
ghost use Rattle.rv_core.specs.declared.reg.Reg.TheVariants.{T0, T1};
ghost use Rattle.rv_core.specs.declared.instr.Instr.TheVariants.{Op as RegisterOp};
ghost use Rattle.quick_code.specs.Narrow.{zero_extended, sign_extended, binary_code, compare_code, cast_code};
ghost use Rattle.code_emit.specs.Written.{put_code};

use code_emit::pieces::{put_all, put_instr};
use ir_core::code::{BinOp, CastOp, Pred};
use rj_num::NoMemory;
use rv_asm::asm::Asm;
use rv_core::instr::{ImmOp, Instr, RegOp};
use rv_core::reg::Reg;
use std::alloc::Global;

// The bits of a register above a width.
fn bits_above(width: u32) -> i32
    requires { width ≤ 64 }
    ensures { result ≡ pos (64 - width) }
{
    (64 - width) as i32
}

// The number of so many ones.
fn ones(width: u32) -> i32
    requires { width ≤ 11 }
    ensures value { result ≡ pos (2 ^ width - 1) }
    ensures fits { Fits12 result }
{
    ((1 << width) - 1) as i32
}

/// Cuts a register to a width.
#[tactic(auto, using(code_emit::proofs::Put::code_none))]
pub fn put_cut(asm: &mut Asm, alloc: Global, width: u32, register: Reg) -> Result<(), NoMemory>
    requires some { 1 ≤ width }
    requires most { width ≤ 64 }
    ensures { OnOk result (asm.new ≡ put_code asm.old (zero_extended width register)) }
{
    if width == 64 {
        return Ok(());
    }
    if width <= 11 {
        return put_instr(
            asm,
            alloc,
            Instr::Imm(ImmOp::Andi, register, register, ones(width)),
        );
    }
    let above = bits_above(width);
    put_all(
        asm,
        alloc,
        &[
            Instr::Imm(ImmOp::Slli, register, register, above),
            Instr::Imm(ImmOp::Srli, register, register, above),
        ],
    )
}

/// Extends a register's sign from a width.
#[tactic(auto, using(code_emit::proofs::Put::code_none))]
pub fn put_sign(asm: &mut Asm, alloc: Global, width: u32, register: Reg) -> Result<(), NoMemory>
    requires some { 1 ≤ width }
    requires most { width ≤ 64 }
    ensures { OnOk result (asm.new ≡ put_code asm.old (sign_extended width register)) }
{
    if width == 64 {
        return Ok(());
    }
    if width == 32 {
        return put_instr(asm, alloc, Instr::Imm(ImmOp::Addiw, register, register, 0));
    }
    let above = bits_above(width);
    put_all(
        asm,
        alloc,
        &[
            Instr::Imm(ImmOp::Slli, register, register, above),
            Instr::Imm(ImmOp::Srai, register, register, above),
        ],
    )
}

// An operation whose result is no wider than its operands.
fn put_op(asm: &mut Asm, alloc: Global, op: RegOp) -> Result<(), NoMemory>
    ensures { OnOk result (asm.new ≡ put_code asm.old (RegisterOp op T0 T0 T1 ∷ [])) }
{
    put_instr(asm, alloc, Instr::Op(op, Reg::T0, Reg::T0, Reg::T1))
}

// An operation whose result is cut.
#[tactic(auto, using(code_emit::proofs::Put::code_code))]
fn put_cut_op(asm: &mut Asm, alloc: Global, op: RegOp, width: u32) -> Result<(), NoMemory>
    requires some { 1 ≤ width }
    requires most { width ≤ 64 }
    ensures { OnOk result (asm.new ≡ put_code asm.old (RegisterOp op T0 T0 T1 ∷ zero_extended width T0)) }
{
    put_op(asm, alloc, op)?;
    put_cut(asm, alloc, width, Reg::T0)
}

// An operation on both operands with their signs, that on words where they are such.
#[tactic(auto, using(code_emit::proofs::Put::code_code))]
fn put_signed_op(
    asm: &mut Asm,
    alloc: Global,
    op: RegOp,
    word: RegOp,
    width: u32,
) -> Result<(), NoMemory>
    requires some { 1 ≤ width }
    requires most { width ≤ 64 }
    ensures { OnOk result (asm.new ≡ put_code asm.old (if width == 32 then RegisterOp word T0 T0 T1 ∷ zero_extended width T0 else sign_extended width T0 ++ (sign_extended width T1 ++ RegisterOp op T0 T0 T1 ∷ zero_extended width T0))) }
{
    if width == 32 {
        return put_cut_op(asm, alloc, word, width);
    }
    put_sign(asm, alloc, width, Reg::T0)?;
    put_sign(asm, alloc, width, Reg::T1)?;
    put_cut_op(asm, alloc, op, width)
}

// A shift to the right that copies the sign.
#[tactic(auto, using(code_emit::proofs::Put::code_code))]
fn put_sign_shift(asm: &mut Asm, alloc: Global, width: u32) -> Result<(), NoMemory>
    requires some { 1 ≤ width }
    requires most { width ≤ 64 }
    ensures { OnOk result (asm.new ≡ put_code asm.old (binary_code BinOp.AShr width)) }
{
    if width == 32 {
        return put_cut_op(asm, alloc, RegOp::Sraw, width);
    }
    put_sign(asm, alloc, width, Reg::T0)?;
    put_cut_op(asm, alloc, RegOp::Sra, width)
}

/// An operator of two numbers of a width.
pub fn put_operator(asm: &mut Asm, alloc: Global, op: BinOp, width: u32) -> Result<(), NoMemory>
    requires some { 1 ≤ width }
    requires most { width ≤ 64 }
    ensures { OnOk result (asm.new ≡ put_code asm.old (binary_code op width)) }
{
    match op {
        BinOp::Add => put_cut_op(asm, alloc, RegOp::Add, width),
        BinOp::Sub => put_cut_op(asm, alloc, RegOp::Sub, width),
        BinOp::Mul => put_cut_op(asm, alloc, RegOp::Mul, width),
        BinOp::UDiv => put_op(asm, alloc, RegOp::Divu),
        BinOp::SDiv => put_signed_op(asm, alloc, RegOp::Div, RegOp::Divw, width),
        BinOp::URem => put_op(asm, alloc, RegOp::Remu),
        BinOp::SRem => put_signed_op(asm, alloc, RegOp::Rem, RegOp::Remw, width),
        BinOp::Shl => put_cut_op(asm, alloc, RegOp::Sll, width),
        BinOp::LShr => put_op(asm, alloc, RegOp::Srl),
        BinOp::AShr => put_sign_shift(asm, alloc, width),
        BinOp::And => put_op(asm, alloc, RegOp::And),
        BinOp::Or => put_op(asm, alloc, RegOp::Or),
        BinOp::Xor => put_op(asm, alloc, RegOp::Xor),
    }
}

// Instructions on both operands with their signs.
#[tactic(auto, using(code_emit::proofs::Put::code_code))]
fn put_signed(asm: &mut Asm, alloc: Global, width: u32, instrs: &[Instr]) -> Result<(), NoMemory>
    requires some { 1 ≤ width }
    requires most { width ≤ 64 }
    requires valid { AreValid instrs.now }
    ensures { OnOk result (asm.new ≡ put_code asm.old ((sign_extended width T0 ++ sign_extended width T1) ++ instrs.now)) }
{
    put_sign(asm, alloc, width, Reg::T0)?;
    put_sign(asm, alloc, width, Reg::T1)?;
    put_all(asm, alloc, instrs)
}

/// A comparison of two numbers of a width.
pub fn put_comparison(asm: &mut Asm, alloc: Global, pred: Pred, width: u32) -> Result<(), NoMemory>
    requires some { 1 ≤ width }
    requires most { width ≤ 64 }
    ensures { OnOk result (asm.new ≡ put_code asm.old (compare_code pred width)) }
{
    let turned = Instr::Imm(ImmOp::Xori, Reg::T0, Reg::T0, 1);
    let less = Instr::Op(RegOp::Sltu, Reg::T0, Reg::T0, Reg::T1);
    let greater = Instr::Op(RegOp::Sltu, Reg::T0, Reg::T1, Reg::T0);
    let less_signed = Instr::Op(RegOp::Slt, Reg::T0, Reg::T0, Reg::T1);
    let greater_signed = Instr::Op(RegOp::Slt, Reg::T0, Reg::T1, Reg::T0);
    let unlike = Instr::Op(RegOp::Xor, Reg::T0, Reg::T0, Reg::T1);
    let none = Instr::Imm(ImmOp::Sltiu, Reg::T0, Reg::T0, 1);
    let some = Instr::Op(RegOp::Sltu, Reg::T0, Reg::X0, Reg::T0);
    match pred {
        Pred::Eq => put_all(asm, alloc, &[unlike, none]),
        Pred::Ne => put_all(asm, alloc, &[unlike, some]),
        Pred::Ugt => put_all(asm, alloc, &[greater]),
        Pred::Uge => put_all(asm, alloc, &[less, turned]),
        Pred::Ult => put_all(asm, alloc, &[less]),
        Pred::Ule => put_all(asm, alloc, &[greater, turned]),
        Pred::Sgt => put_signed(asm, alloc, width, &[greater_signed]),
        Pred::Sge => put_signed(asm, alloc, width, &[less_signed, turned]),
        Pred::Slt => put_signed(asm, alloc, width, &[less_signed]),
        Pred::Sle => put_signed(asm, alloc, width, &[greater_signed, turned]),
    }
}

// A number's sign is extended from a width to another.
#[tactic(auto, using(code_emit::proofs::Put::code_code))]
fn put_sign_between(asm: &mut Asm, alloc: Global, from: u32, to: u32) -> Result<(), NoMemory>
    requires some_from { 1 ≤ from }
    requires most_from { from ≤ 64 }
    requires some_to { 1 ≤ to }
    requires most_to { to ≤ 64 }
    ensures { OnOk result (asm.new ≡ put_code asm.old (sign_extended from T0 ++ zero_extended to T0)) }
{
    put_sign(asm, alloc, from, Reg::T0)?;
    put_cut(asm, alloc, to, Reg::T0)
}

/// A cast of the number in t0 from a width to another.
#[tactic(auto, using(code_emit::proofs::Put::code_none))]
pub fn put_cast_work(
    asm: &mut Asm,
    alloc: Global,
    op: CastOp,
    from: u32,
    to: u32,
) -> Result<(), NoMemory>
    requires some_from { 1 ≤ from }
    requires most_from { from ≤ 64 }
    requires some_to { 1 ≤ to }
    requires most_to { to ≤ 64 }
    ensures { OnOk result (asm.new ≡ put_code asm.old (cast_code op from to)) }
{
    match op {
        CastOp::Trunc | CastOp::PtrToInt => put_cut(asm, alloc, to, Reg::T0),
        CastOp::SExt => put_sign_between(asm, alloc, from, to),
        CastOp::ZExt | CastOp::IntToPtr | CastOp::Same => Ok(()),
    }
}

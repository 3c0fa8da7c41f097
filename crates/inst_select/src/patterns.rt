// The pattern of each operation.
ghost use Rattle.std.specs.Prelude.{◌≡◌, ◌+◌, ◌++◌, ◌∷◌, [], ◌<◌, ◌^◌, pos, OnOk};
ghost use Rattle.ir_core.specs.declared.code.Pred.TheVariants as pred;
ghost use Rattle.rv_core.specs.declared.instr.ImmOp.TheVariants.{Xori};
ghost use Rattle.mir.specs.declared.code.MInst.TheVariants.{Op, Imm, Move};
ghost use Rattle.gmir.specs.Play.{def_at, use_at};
ghost use Rattle.gmir.specs.declared.code.GOp.TheVariants.{Icmp, Select, SExtInReg, BrCond, Call};
ghost use Rattle.selected_code.specs.Selected.{compare as compare_code, code_by, code as code_of, fresh};

use crate::code::Code;
use crate::operands::{
    argument_place, copied, distance, load_op, number, operand, predicate, sources, store_op,
    target, written,
};
use gmir::code::{GInst, GOp};
use ir_core::code::Pred;
use mir::code::MInst;
use rj_num::NoMemory;
use rv_core::instr::{BranchOp, ImmOp, RegOp};
use std::alloc::Global;

/// A register that is written, and two that are read.
#[derive(Clone, Copy)]
struct Triple {
    written: u32,
    first: u32,
    second: u32,
}

/// An operation on two registers.
fn put_op(code: &mut Code, op: RegOp, at: Triple) -> Result<(), NoMemory>
    ensures insts { OnOk result (code.new.insts.items ≡ code.old.insts.items ++ Op op at.written at.first at.second ∷ []) }
    ensures next { OnOk result (code.new.next ≡ code.old.next) }
{
    code.put(MInst::Op(op, at.written, at.first, at.second))
}

/// An operation on the first two operands.
fn put_two(code: &mut Code, op: RegOp, inst: &GInst) -> Result<(), NoMemory>
    ensures insts { OnOk result (code.new.insts.items ≡ code.old.insts.items ++ Op op (def_at inst.now 0) (use_at inst.now 0) (use_at inst.now 1) ∷ []) }
    ensures next { OnOk result (code.new.next ≡ code.old.next) }
{
    code.put(MInst::Op(op, written(inst), operand(inst, 0), operand(inst, 1)))
}

/// A move of the first operand.
fn put_move(code: &mut Code, inst: &GInst) -> Result<(), NoMemory>
    ensures insts { OnOk result (code.new.insts.items ≡ code.old.insts.items ++ Move (def_at inst.now 0) (use_at inst.now 0) ∷ []) }
    ensures next { OnOk result (code.new.next ≡ code.old.next) }
{
    code.put(MInst::Move(written(inst), operand(inst, 0)))
}

/// An operation on two registers into a new one, and its lowest bit turned.
fn put_turned(code: &mut Code, op: RegOp, new: u32, at: Triple) -> Result<(), NoMemory>
    ensures insts { OnOk result (code.new.insts.items ≡ code.old.insts.items ++ Op op new at.first at.second ∷ Imm Xori at.written new (pos 1) ∷ []) }
    ensures next { OnOk result (code.new.next ≡ code.old.next) }
{
    code.put(MInst::Op(op, new, at.first, at.second))?;
    code.put(MInst::Imm(ImmOp::Xori, at.written, new, 1))
}

/// 1 where two registers are equal.
fn put_equal(code: &mut Code, new: u32, at: Triple) -> Result<(), NoMemory>
    ensures insts { OnOk result (code.new.insts.items ≡ code.old.insts.items ++ compare_code pred.Eq new at.written at.first at.second) }
    ensures next { OnOk result (code.new.next ≡ code.old.next) }
{
    code.put(MInst::Op(RegOp::Xor, new, at.first, at.second))?;
    code.put(MInst::Imm(ImmOp::Sltiu, at.written, new, 1))
}

/// 1 where two registers differ.
fn put_different(code: &mut Code, new: u32, at: Triple) -> Result<(), NoMemory>
    requires room { new + 1 < 2 ^ 32 }
    ensures insts { OnOk result (code.new.insts.items ≡ code.old.insts.items ++ compare_code pred.Ne new at.written at.first at.second) }
    ensures next { OnOk result (code.new.next ≡ code.old.next) }
{
    put_equal(
        code,
        new,
        Triple {
            written: new + 1,
            ..at
        },
    )?;
    code.put(MInst::Imm(ImmOp::Xori, at.written, new + 1, 1))
}

/// The pattern of a compare of two registers.
fn put_by_predicate(code: &mut Code, predicate: Pred, new: u32, at: Triple) -> Result<(), NoMemory>
    requires room { new + 1 < 2 ^ 32 }
    ensures insts { OnOk result (code.new.insts.items ≡ code.old.insts.items ++ compare_code predicate new at.written at.first at.second) }
    ensures next { OnOk result (code.new.next ≡ code.old.next) }
{
    let turned = Triple {
        written: at.written,
        first: at.second,
        second: at.first,
    };
    match predicate {
        Pred::Eq => put_equal(code, new, at),
        Pred::Ne => put_different(code, new, at),
        Pred::Ugt => put_op(code, RegOp::Sltu, turned),
        Pred::Uge => put_turned(code, RegOp::Sltu, new, at),
        Pred::Ult => put_op(code, RegOp::Sltu, at),
        Pred::Ule => put_turned(code, RegOp::Sltu, new, turned),
        Pred::Sgt => put_op(code, RegOp::Slt, turned),
        Pred::Sge => put_turned(code, RegOp::Slt, new, at),
        Pred::Slt => put_op(code, RegOp::Slt, at),
        Pred::Sle => put_turned(code, RegOp::Slt, new, turned),
    }
}

/// A compare.
fn put_compare(code: &mut Code, inst: &GInst) -> Result<(), NoMemory>
    requires room { code.now.next + 2 < 2 ^ 32 }
    ensures insts { OnOk result (code.new.insts.items ≡ code.old.insts.items ++ code_by code.old.next inst.now Icmp) }
    ensures next { OnOk result (code.new.next ≡ code.old.next + 2) }
{
    let new = code.fresh(2);
    let at = Triple {
        written: written(inst),
        first: operand(inst, 0),
        second: operand(inst, 1),
    };
    put_by_predicate(code, predicate(inst.num), new, at)
}

/// A choice by masks.
fn put_choice(code: &mut Code, inst: &GInst) -> Result<(), NoMemory>
    requires room { code.now.next + 5 < 2 ^ 32 }
    ensures insts { OnOk result (code.new.insts.items ≡ code.old.insts.items ++ code_by code.old.next inst.now Select) }
    ensures next { OnOk result (code.new.next ≡ code.old.next + 5) }
{
    let new = code.fresh(5);
    let mask = new + 1;
    code.put(MInst::Imm(ImmOp::Slli, new, operand(inst, 0), 63))?;
    code.put(MInst::Imm(ImmOp::Srai, mask, new, 63))?;
    code.put(MInst::Op(RegOp::And, new + 2, operand(inst, 1), mask))?;
    code.put(MInst::Imm(ImmOp::Xori, new + 3, mask, -1))?;
    code.put(MInst::Op(RegOp::And, new + 4, operand(inst, 2), new + 3))?;
    code.put(MInst::Op(RegOp::Or, written(inst), new + 2, new + 4))
}

/// The low bits, extended by their sign.
fn put_extension(code: &mut Code, inst: &GInst) -> Result<(), NoMemory>
    requires room { code.now.next + 1 < 2 ^ 32 }
    ensures insts { OnOk result (code.new.insts.items ≡ code.old.insts.items ++ code_by code.old.next inst.now SExtInReg) }
    ensures next { OnOk result (code.new.next ≡ code.old.next + 1) }
{
    let new = code.fresh(1);
    let by = distance(inst.num);
    code.put(MInst::Imm(ImmOp::Slli, new, operand(inst, 0), by))?;
    code.put(MInst::Imm(ImmOp::Srai, written(inst), new, by))
}

/// A branch by the lowest bit.
fn put_branch(code: &mut Code, inst: &GInst) -> Result<(), NoMemory>
    requires room { code.now.next + 2 < 2 ^ 32 }
    ensures insts { OnOk result (code.new.insts.items ≡ code.old.insts.items ++ code_by code.old.next inst.now BrCond) }
    ensures next { OnOk result (code.new.next ≡ code.old.next + 2) }
{
    let new = code.fresh(2);
    code.put(MInst::Imm(ImmOp::Andi, new, operand(inst, 0), 1))?;
    code.put(MInst::Const(new + 1, 0))?;
    code.put(MInst::Branch(
        BranchOp::Bne,
        new,
        new + 1,
        target(inst, 0),
        target(inst, 1),
    ))
}

/// A call.
fn put_call(alloc: Global, code: &mut Code, inst: &GInst) -> Result<(), NoMemory>
    ensures insts { OnOk result (code.new.insts.items ≡ code.old.insts.items ++ code_by code.old.next inst.now Call) }
    ensures next { OnOk result (code.new.next ≡ code.old.next) }
{
    let arguments = copied(alloc, inst.uses.as_slice())?;
    let results = copied(alloc, inst.defs.as_slice())?;
    code.put(MInst::Call(target(inst, 0), arguments, results))
}

/// Puts the pattern of an instruction by its operation.
fn put_by(alloc: Global, code: &mut Code, inst: &GInst, op: GOp) -> Result<(), NoMemory>
    requires room { code.now.next + fresh op < 2 ^ 32 }
    ensures insts { OnOk result (code.new.insts.items ≡ code.old.insts.items ++ code_by code.old.next inst.now op) }
    ensures next { OnOk result (code.new.next ≡ code.old.next + fresh op) }
{
    match op {
        GOp::Add => put_two(code, RegOp::Add, inst),
        GOp::Sub => put_two(code, RegOp::Sub, inst),
        GOp::Mul => put_two(code, RegOp::Mul, inst),
        GOp::UDiv => put_two(code, RegOp::Divu, inst),
        GOp::SDiv => put_two(code, RegOp::Div, inst),
        GOp::URem => put_two(code, RegOp::Remu, inst),
        GOp::SRem => put_two(code, RegOp::Rem, inst),
        GOp::And => put_two(code, RegOp::And, inst),
        GOp::Or => put_two(code, RegOp::Or, inst),
        GOp::Xor => put_two(code, RegOp::Xor, inst),
        GOp::Shl => put_two(code, RegOp::Sll, inst),
        GOp::LShr => put_two(code, RegOp::Srl, inst),
        GOp::AShr => put_two(code, RegOp::Sra, inst),
        GOp::PtrAdd => put_two(code, RegOp::Add, inst),
        GOp::Icmp => put_compare(code, inst),
        GOp::Select => put_choice(code, inst),
        GOp::SExtInReg => put_extension(code, inst),
        GOp::Trunc => put_move(code, inst),
        GOp::ZExt => put_move(code, inst),
        GOp::SExt => put_move(code, inst),
        GOp::AnyExt => put_move(code, inst),
        GOp::PtrToInt => put_move(code, inst),
        GOp::IntToPtr => put_move(code, inst),
        GOp::Copy => put_move(code, inst),
        GOp::Constant => code.put(MInst::Const(written(inst), number(inst.num))),
        GOp::Phi => code.put(MInst::Phi(written(inst), sources(alloc, inst)?)),
        GOp::Load => code.put(MInst::Load(load_op(inst.num), written(inst), operand(inst, 0), 0)),
        GOp::Store => code.put(MInst::Store(
            store_op(inst.num),
            operand(inst, 0),
            operand(inst, 1),
            0,
        )),
        GOp::Br => code.put(MInst::Jump(target(inst, 0))),
        GOp::BrCond => put_branch(code, inst),
        GOp::Param => code.put(MInst::Param(written(inst), argument_place(inst.num))),
        GOp::Call => put_call(alloc, code, inst),
        GOp::Return => code.put(MInst::Return(copied(alloc, inst.uses.as_slice())?)),
        GOp::TakeData => code.put(MInst::TakeData(written(inst), number(inst.num))),
        GOp::CopyBytes => code.put(MInst::CopyBytes(
            operand(inst, 0),
            operand(inst, 1),
            operand(inst, 2),
        )),
        GOp::FillBytes => code.put(MInst::FillBytes(
            operand(inst, 0),
            operand(inst, 1),
            operand(inst, 2),
        )),
        GOp::Trap => code.put(MInst::Trap),
    }
}

/// Puts the pattern of an instruction behind the code.
pub fn put_inst(alloc: Global, code: &mut Code, inst: &GInst) -> Result<(), NoMemory>
    requires room { code.now.next + fresh inst.now.op < 2 ^ 32 }
    ensures insts { OnOk result (code.new.insts.items ≡ code.old.insts.items ++ code_of code.old.next inst.now) }
    ensures next { OnOk result (code.new.next ≡ code.old.next + fresh inst.now.op) }
{
    put_by(alloc, code, inst, inst.op)
}

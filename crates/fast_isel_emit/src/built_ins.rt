// Built-ins: the greatest, the least, an absolute value, and bytes that are moved.
ghost use Rattle.std.specs.Prelude.{◌≡◌, ◌≤◌, if◌then◌else◌, [], ◌∷◌, ◌++◌, length, pos, OnOk, true};
ghost use Rattle.ir_core.specs.declared.code.Op.TheVariants.{BuiltIn as CallBuiltIn};
ghost use Rattle.rv_core.specs.declared.reg.Reg.TheVariants.{X0, T0, T1};
ghost use Rattle.rv_core.specs.declared.instr.BranchOp.TheVariants.{Bge};
ghost use Rattle.rv_core.specs.declared.instr.RegOp.TheVariants.{Sub};
ghost use Rattle.rv_core.specs.declared.instr.Instr.TheVariants.{Branch, Op as RegisterOp};
ghost use Rattle.ir_meaning.specs.Step.{moves_bytes as moves_bytes_of};
ghost use Rattle.quick_code.specs.Data.{moved_code};
ghost use Rattle.quick_code.specs.Narrow.{zero_extended, sign_extended, taken_second, built_in_code};
ghost use Rattle.quick_code.specs.Operations.{values_code, built_in_operands, operation_code};
ghost use Rattle.code_emit.specs.Written.{put_code};
ghost use Rattle.fast_isel_emit.specs.Operands.{is_width, is_built_in, are_arguments};

use crate::moves::{moves_bytes, put_moved};
use crate::operations::{put_one, put_two};
use crate::pieces::{put_store_value, width_of};
use crate::work::{put_cut, put_sign};
use code_emit::pieces::put_all;
use ir_core::code::{BuiltIn, Operand};
use ir_core::types::Ty;
use ir_data::addresses::Places;
use rj_num::NoMemory;
use rv_asm::asm::Asm;
use rv_core::instr::{BranchOp, ImmOp, Instr, RegOp};
use rv_core::reg::Reg;
use std::alloc::Global;

// Leaves what stands in t0 where a comparison of two registers holds, and else takes what stands in t1.
fn put_unless(
    asm: &mut Asm,
    alloc: Global,
    op: BranchOp,
    first: Reg,
    second: Reg,
) -> Result<(), NoMemory>
    ensures { OnOk result (asm.new ≡ put_code asm.old (Branch op first second (pos 8) ∷ taken_second ∷ [])) }
{
    put_all(
        asm,
        alloc,
        &[
            Instr::Branch(op, first, second, 8),
            Instr::Imm(ImmOp::Addi, Reg::T0, Reg::T1, 0),
        ],
    )
}

// The same of numbers of a width with their signs.
#[tactic(auto, using(code_emit::proofs::Put::code_code))]
fn put_unless_less(
    asm: &mut Asm,
    alloc: Global,
    first: Reg,
    second: Reg,
    width: u32,
) -> Result<(), NoMemory>
    requires some { 1 ≤ width }
    requires most { width ≤ 64 }
    ensures { OnOk result (asm.new ≡ put_code asm.old ((sign_extended width T0 ++ sign_extended width T1) ++ Branch Bge first second (pos 8) ∷ taken_second ∷ zero_extended width T0)) }
{
    put_sign(asm, alloc, width, Reg::T0)?;
    put_sign(asm, alloc, width, Reg::T1)?;
    put_unless(asm, alloc, BranchOp::Bge, first, second)?;
    put_cut(asm, alloc, width, Reg::T0)
}

// The difference of 0 and a number of a width that is below it.
#[tactic(auto, using(code_emit::proofs::Put::code_code))]
fn put_absolute(asm: &mut Asm, alloc: Global, width: u32) -> Result<(), NoMemory>
    requires some { 1 ≤ width }
    requires most { width ≤ 64 }
    ensures { OnOk result (asm.new ≡ put_code asm.old (sign_extended width T0 ++ Branch Bge T0 X0 (pos 8) ∷ RegisterOp Sub T0 X0 T0 ∷ zero_extended width T0)) }
{
    put_sign(asm, alloc, width, Reg::T0)?;
    put_all(
        asm,
        alloc,
        &[
            Instr::Branch(BranchOp::Bge, Reg::T0, Reg::X0, 8),
            Instr::Op(RegOp::Sub, Reg::T0, Reg::X0, Reg::T0),
        ],
    )?;
    put_cut(asm, alloc, width, Reg::T0)
}

// The work of a built-in on numbers of a width.
#[tactic(auto, using(code_emit::proofs::Put::code_none))]
fn put_built_in_work(
    asm: &mut Asm,
    alloc: Global,
    which: BuiltIn,
    width: u32,
) -> Result<(), NoMemory>
    requires some { 1 ≤ width }
    requires most { width ≤ 64 }
    ensures { OnOk result (asm.new ≡ put_code asm.old (built_in_code which width)) }
{
    match which {
        BuiltIn::SMax => put_unless_less(asm, alloc, Reg::T0, Reg::T1, width),
        BuiltIn::SMin => put_unless_less(asm, alloc, Reg::T1, Reg::T0, width),
        BuiltIn::UMax => put_unless(asm, alloc, BranchOp::Bgeu, Reg::T0, Reg::T1),
        BuiltIn::UMin => put_unless(asm, alloc, BranchOp::Bgeu, Reg::T1, Reg::T0),
        BuiltIn::Abs => put_absolute(asm, alloc, width),
        BuiltIn::MemCpy | BuiltIn::MemMove | BuiltIn::MemSet => Ok(()),
    }
}

// What a built-in works on, in t0 and t1: of an absolute value the first argument alone.
fn put_operands(
    asm: &mut Asm,
    alloc: Global,
    globals: &Places,
    which: BuiltIn,
    arguments: &[(Ty, Operand)],
    values: u32,
) -> Result<(), NoMemory>
    requires two { length arguments.now ≡ 2 }
    requires arguments { are_arguments values arguments.now ≡ true }
    requires values { values ≤ 32764 }
    ensures { OnOk result (asm.new ≡ put_code asm.old (values_code globals.now 5 (built_in_operands which arguments.now))) }
{
    let first = arguments[0].1;
    let second = arguments[1].1;
    match which {
        BuiltIn::Abs => put_one(asm, alloc, globals, first, values),
        _ => put_two(asm, alloc, globals, first, second, values),
    }
}

// A built-in that gives this value.
#[tactic(auto, using(code_emit::proofs::Put::code_code))]
fn put_value_built_in(
    asm: &mut Asm,
    alloc: Global,
    globals: &Places,
    gives: Ty,
    which: BuiltIn,
    arguments: &[(Ty, Operand)],
    value: u32,
    values: u32,
) -> Result<(), NoMemory>
    requires gives { is_width gives ≡ true }
    requires two { length arguments.now ≡ 2 }
    requires arguments { are_arguments values arguments.now ≡ true }
    requires value { value ≤ values }
    requires values { values ≤ 32764 }
    ensures { OnOk result (asm.new ≡ put_code asm.old (operation_code globals.now gives (CallBuiltIn which arguments.now) value)) }
{
    put_operands(asm, alloc, globals, which, arguments, values)?;
    put_built_in_work(asm, alloc, which, width_of(gives))?;
    put_store_value(asm, alloc, Reg::T0, value)
}

/// A built-in: one that moves bytes, or one that gives this value.
pub fn put_built_in(
    asm: &mut Asm,
    alloc: Global,
    globals: &Places,
    gives: Ty,
    which: BuiltIn,
    arguments: &[(Ty, Operand)],
    value: u32,
    values: u32,
) -> Result<(), NoMemory>
    requires form { is_built_in gives (moves_bytes_of which) arguments.now ≡ true }
    requires arguments { are_arguments values arguments.now ≡ true }
    requires value { value ≤ values }
    requires values { values ≤ 32764 }
    ensures { OnOk result (asm.new ≡ put_code asm.old (if moves_bytes_of which then moved_code globals.now which arguments.now else operation_code globals.now gives (CallBuiltIn which arguments.now) value)) }
{
    if moves_bytes(which) {
        return put_moved(asm, alloc, globals, which, arguments, values);
    }
    put_value_built_in(asm, alloc, globals, gives, which, arguments, value, values)
}

// Instructions that give a value: operands are loaded, worked on, and the result is stored.
ghost use Rattle.std.specs.Prelude.{◌≡◌, ◌≤◌, [], ◌∷◌, OnOk, true};
ghost use Rattle.ir_core.specs.declared.code.Op.TheVariants.{Binary, Icmp, Cast, Select, Freeze, Load};
ghost use Rattle.quick_code.specs.Operations.{values_code, choice_code, operation_code, keeping_code, load_op as load_op_of_width, store_op as store_op_of_width};
ghost use Rattle.code_emit.specs.Written.{put_code};
ghost use Rattle.fast_isel_emit.specs.Operands.{is_width, is_operand};

use crate::pieces::{put_store_value, put_value, width_of};
use crate::work::{put_cast_work, put_comparison, put_operator};
use code_emit::pieces::{put_all, put_instr};
use ir_core::code::{BinOp, CastOp, Flags, Operand, Pred};
use ir_core::types::Ty;
use ir_data::addresses::Places;
use rj_num::NoMemory;
use rv_asm::asm::Asm;
use rv_core::instr::{BranchOp, ImmOp, Instr, LoadOp, StoreOp};
use rv_core::reg::Reg;
use std::alloc::Global;

/// An operand in t0.
pub fn put_one(
    asm: &mut Asm,
    alloc: Global,
    globals: &Places,
    a: Operand,
    values: u32,
) -> Result<(), NoMemory>
    requires a { is_operand values a ≡ true }
    requires values { values ≤ 32764 }
    ensures { OnOk result (asm.new ≡ put_code asm.old (values_code globals.now 5 (a ∷ []))) }
{
    put_value(asm, alloc, globals, Reg::T0, a, values)?;
    Ok(())
}

/// Two operands in t0 and t1.
pub fn put_two(
    asm: &mut Asm,
    alloc: Global,
    globals: &Places,
    a: Operand,
    b: Operand,
    values: u32,
) -> Result<(), NoMemory>
    requires a { is_operand values a ≡ true }
    requires b { is_operand values b ≡ true }
    requires values { values ≤ 32764 }
    ensures { OnOk result (asm.new ≡ put_code asm.old (values_code globals.now 5 (a ∷ b ∷ []))) }
{
    put_value(asm, alloc, globals, Reg::T0, a, values)?;
    put_value(asm, alloc, globals, Reg::T1, b, values)?;
    Ok(())
}

/// Three operands in t0, t1 and t2.
pub fn put_three(
    asm: &mut Asm,
    alloc: Global,
    globals: &Places,
    a: Operand,
    b: Operand,
    c: Operand,
    values: u32,
) -> Result<(), NoMemory>
    requires a { is_operand values a ≡ true }
    requires b { is_operand values b ≡ true }
    requires c { is_operand values c ≡ true }
    requires values { values ≤ 32764 }
    ensures { OnOk result (asm.new ≡ put_code asm.old (values_code globals.now 5 (a ∷ b ∷ c ∷ []))) }
{
    put_value(asm, alloc, globals, Reg::T0, a, values)?;
    put_value(asm, alloc, globals, Reg::T1, b, values)?;
    put_value(asm, alloc, globals, Reg::T2, c, values)?;
    Ok(())
}

/// An operator of two operands, which gives this value.
#[tactic(auto, using(code_emit::proofs::Put::code_code))]
pub fn put_binary(
    asm: &mut Asm,
    alloc: Global,
    globals: &Places,
    gives: Ty,
    op: BinOp,
    flags: Flags,
    a: Operand,
    b: Operand,
    value: u32,
    values: u32,
) -> Result<(), NoMemory>
    requires gives { is_width gives ≡ true }
    requires a { is_operand values a ≡ true }
    requires b { is_operand values b ≡ true }
    requires value { value ≤ values }
    requires values { values ≤ 32764 }
    ensures { OnOk result (asm.new ≡ put_code asm.old (operation_code globals.now gives (Binary op flags a b) value)) }
{
    put_two(asm, alloc, globals, a, b, values)?;
    put_operator(asm, alloc, op, width_of(gives))?;
    put_store_value(asm, alloc, Reg::T0, value)
}

/// A compare of two operands of a type, which gives this value.
#[tactic(auto, using(code_emit::proofs::Put::code_code))]
pub fn put_compare(
    asm: &mut Asm,
    alloc: Global,
    globals: &Places,
    gives: Ty,
    pred: Pred,
    flags: Flags,
    of: Ty,
    a: Operand,
    b: Operand,
    value: u32,
    values: u32,
) -> Result<(), NoMemory>
    requires of { is_width of ≡ true }
    requires a { is_operand values a ≡ true }
    requires b { is_operand values b ≡ true }
    requires value { value ≤ values }
    requires values { values ≤ 32764 }
    ensures { OnOk result (asm.new ≡ put_code asm.old (operation_code globals.now gives (Icmp pred flags of a b) value)) }
{
    put_two(asm, alloc, globals, a, b, values)?;
    put_comparison(asm, alloc, pred, width_of(of))?;
    put_store_value(asm, alloc, Reg::T0, value)
}

/// A cast of an operand from a type, which gives this value.
#[tactic(auto, using(code_emit::proofs::Put::code_code))]
pub fn put_cast(
    asm: &mut Asm,
    alloc: Global,
    globals: &Places,
    gives: Ty,
    op: CastOp,
    flags: Flags,
    from: Ty,
    a: Operand,
    value: u32,
    values: u32,
) -> Result<(), NoMemory>
    requires gives { is_width gives ≡ true }
    requires from { is_width from ≡ true }
    requires a { is_operand values a ≡ true }
    requires value { value ≤ values }
    requires values { values ≤ 32764 }
    ensures { OnOk result (asm.new ≡ put_code asm.old (operation_code globals.now gives (Cast op flags from a) value)) }
{
    put_one(asm, alloc, globals, a, values)?;
    put_cast_work(asm, alloc, op, width_of(from), width_of(gives))?;
    put_store_value(asm, alloc, Reg::T0, value)
}

// Keeps what stands in t0 where t2 isn't 0, and else takes what stands in t1.
fn put_chosen(asm: &mut Asm, alloc: Global) -> Result<(), NoMemory>
    ensures { OnOk result (asm.new ≡ put_code asm.old choice_code) }
{
    put_all(
        asm,
        alloc,
        &[
            Instr::Branch(BranchOp::Bne, Reg::T2, Reg::X0, 8),
            Instr::Imm(ImmOp::Addi, Reg::T0, Reg::T1, 0),
        ],
    )
}

/// The choice of one of two operands, which gives this value.
#[tactic(auto, using(code_emit::proofs::Put::code_code))]
pub fn put_choice(
    asm: &mut Asm,
    alloc: Global,
    globals: &Places,
    gives: Ty,
    condition: Operand,
    a: Operand,
    b: Operand,
    value: u32,
    values: u32,
) -> Result<(), NoMemory>
    requires condition { is_operand values condition ≡ true }
    requires a { is_operand values a ≡ true }
    requires b { is_operand values b ≡ true }
    requires value { value ≤ values }
    requires values { values ≤ 32764 }
    ensures { OnOk result (asm.new ≡ put_code asm.old (operation_code globals.now gives (Select condition a b) value)) }
{
    put_three(asm, alloc, globals, a, b, condition, values)?;
    put_chosen(asm, alloc)?;
    put_store_value(asm, alloc, Reg::T0, value)
}

/// A freeze of an operand, which gives this value.
#[tactic(auto, using(code_emit::proofs::Put::code_code))]
pub fn put_same(
    asm: &mut Asm,
    alloc: Global,
    globals: &Places,
    gives: Ty,
    a: Operand,
    value: u32,
    values: u32,
) -> Result<(), NoMemory>
    requires a { is_operand values a ≡ true }
    requires value { value ≤ values }
    requires values { values ≤ 32764 }
    ensures { OnOk result (asm.new ≡ put_code asm.old (operation_code globals.now gives (Freeze a) value)) }
{
    put_one(asm, alloc, globals, a, values)?;
    put_store_value(asm, alloc, Reg::T0, value)
}

// The load of a width without a sign.
fn load_op(width: u32) -> LoadOp
    ensures { result ≡ load_op_of_width width }
{
    match width {
        8 => LoadOp::Lbu,
        16 => LoadOp::Lhu,
        32 => LoadOp::Lwu,
        _ => LoadOp::Ld,
    }
}

fn store_op(width: u32) -> StoreOp
    ensures { result ≡ store_op_of_width width }
{
    match width {
        8 => StoreOp::Sb,
        16 => StoreOp::Sh,
        32 => StoreOp::Sw,
        _ => StoreOp::Sd,
    }
}

/// A load from an address, which gives this value.
#[tactic(auto, using(code_emit::proofs::Put::code_code))]
pub fn put_load(
    asm: &mut Asm,
    alloc: Global,
    globals: &Places,
    gives: Ty,
    address: Operand,
    value: u32,
    values: u32,
) -> Result<(), NoMemory>
    requires gives { is_width gives ≡ true }
    requires address { is_operand values address ≡ true }
    requires value { value ≤ values }
    requires values { values ≤ 32764 }
    ensures { OnOk result (asm.new ≡ put_code asm.old (operation_code globals.now gives (Load address) value)) }
{
    put_one(asm, alloc, globals, address, values)?;
    let op = load_op(width_of(gives));
    put_instr(asm, alloc, Instr::Load(op, Reg::T0, Reg::T0, 0))?;
    put_store_value(asm, alloc, Reg::T0, value)
}

/// A store of an operand of a type at an address.
#[tactic(auto, using(code_emit::proofs::Put::code_code))]
pub fn put_store(
    asm: &mut Asm,
    alloc: Global,
    globals: &Places,
    of: Ty,
    a: Operand,
    address: Operand,
    values: u32,
) -> Result<(), NoMemory>
    requires of { is_width of ≡ true }
    requires a { is_operand values a ≡ true }
    requires address { is_operand values address ≡ true }
    requires values { values ≤ 32764 }
    ensures { OnOk result (asm.new ≡ put_code asm.old (keeping_code globals.now of a address)) }
{
    put_two(asm, alloc, globals, a, address, values)?;
    let op = store_op(width_of(of));
    put_instr(asm, alloc, Instr::Store(op, Reg::T0, Reg::T1, 0))
}

// Operands, parameters, calls, returns and phis.
ghost use Rattle.std.specs.Prelude.{◌≡◌, ◌+◌, ◌*◌, ◌<◌, ◌≤◌, ◌^◌, ◌++◌, length, map, OnOk, true};
ghost use Rattle.ir_meaning.specs.Operators.{width as width_type};
ghost use Rattle.code_pieces.specs.Code.{argument_reg, store_value, leave_code};
ghost use Rattle.code_pieces.specs.Bytes.{restore_code};
ghost use Rattle.quick_code.specs.Narrow.{zero_extended};
ghost use Rattle.quick_code.specs.Operations.{value_code, values_code};
ghost use Rattle.quick_code.specs.Blocks.{load_next, store_next, next_code, return_code, answer_code, called_code, arguments_code};
ghost use Rattle.code_emit.specs.Written.{put_code};
ghost use Rattle.fast_isel_emit.specs.Operands.{is_width, are_widths, is_given, is_operand, are_arguments, is_answer};

use crate::allocas::put_restore;
use crate::work::put_cut;
use code_emit::frame::put_leave;
use code_emit::pieces::{argument_register, put_call_of, put_const, put_load_at, put_store_at};
use ir_core::code::Operand;
use ir_core::types::Ty;
use ir_data::addresses::Places;
use rj_num::NoMemory;
use rv_asm::asm::Asm;
use rv_core::reg::Reg;
use sqlite_items::Items;
use std::alloc::Global;

/// The bits of a value of this type.
pub fn width_of(ty: Ty) -> u32
    requires { is_width ty ≡ true }
    ensures value { result ≡ width_type ty }
    ensures some { 1 ≤ result }
    ensures most { result ≤ 64 }
{
    match ty {
        Ty::Int(width) => width,
        Ty::Void | Ty::Ptr => 64,
    }
}

/// Stores a register in a value's slot.
pub fn put_store_value(
    asm: &mut Asm,
    alloc: Global,
    register: Reg,
    value: u32,
) -> Result<(), NoMemory>
    requires { value ≤ 32764 }
    ensures { OnOk result (asm.new ≡ put_code asm.old (store_value register value)) }
{
    put_store_at(asm, alloc, register, 32 * value)
}

/// Loads an operand into a register, where there are so many values; nothing for poison.
#[tactic(auto, using(code_emit::proofs::Put::code_code, code_emit::proofs::Put::code_none))]
pub fn put_value(
    asm: &mut Asm,
    alloc: Global,
    globals: &Places,
    register: Reg,
    operand: Operand,
    values: u32,
) -> Result<(), NoMemory>
    requires operand { is_operand values operand ≡ true }
    requires values { values ≤ 32764 }
    ensures { OnOk result (asm.new ≡ put_code asm.old (value_code globals.now register operand)) }
{
    match operand {
        Operand::Value(value) => put_load_at(asm, alloc, register, 32 * value),
        Operand::Num(number) => put_const(asm, alloc, register, number as u64),
        Operand::Null => put_const(asm, alloc, register, 0),
        Operand::Place(global, offset) => {
            put_const(asm, alloc, register, globals.address(global, offset))
        }
        Operand::Poison => Ok(()),
    }
}

// An argument is cut to its width and stored in its slot.
#[tactic(auto, using(code_emit::proofs::Put::code_code))]
fn put_parameter(asm: &mut Asm, alloc: Global, ty: Ty, place: u32) -> Result<(), NoMemory>
    requires width { is_width ty ≡ true }
    requires place { place < 8 }
    ensures { OnOk result (asm.new ≡ put_code asm.old (zero_extended (width_type ty) (argument_reg place) ++ store_value (argument_reg place) place)) }
{
    let register = argument_register(place);
    put_cut(asm, alloc, width_of(ty), register)?;
    put_store_value(asm, alloc, register, place)
}

/// Stores the arguments of parameters of these types into their slots.
#[tactic(auto, using(code_emit::proofs::Put::code_code, code_emit::proofs::Put::code_none))]
pub fn put_parameters(asm: &mut Asm, alloc: Global, tys: &[Ty]) -> Result<(), NoMemory>
    requires few { length tys.now ≤ 8 }
    requires widths { are_widths tys.now ≡ true }
    ensures { OnOk result (asm.new ≡ put_code asm.old (arguments_code 0 tys.now)) }
{
    let mut place = 0;
    for ty in tys {
        put_parameter(asm, alloc, *ty, place)?;
        place += 1;
    }
    Ok(())
}

// Loads arguments into their registers, where there are so many values.
#[tactic(auto, using(code_emit::proofs::Put::code_code, code_emit::proofs::Put::code_none))]
fn put_arguments(
    asm: &mut Asm,
    alloc: Global,
    globals: &Places,
    arguments: &[(Ty, Operand)],
    values: u32,
) -> Result<(), NoMemory>
    requires arguments { are_arguments values arguments.now ≡ true }
    requires few { length arguments.now ≤ 8 }
    requires values { values ≤ 32764 }
    ensures { OnOk result (asm.new ≡ put_code asm.old (values_code globals.now 10 (map (λ argument. argument.1) arguments.now))) }
{
    let mut place = 0;
    for argument in arguments {
        put_value(
            asm,
            alloc,
            globals,
            argument_register(place),
            argument.1,
            values,
        )?;
        place += 1;
    }
    Ok(())
}

// The answer of a call is cut to its width and stored in its slot.
#[tactic(auto, using(code_emit::proofs::Put::code_code, code_emit::proofs::Put::code_none))]
fn put_answer(asm: &mut Asm, alloc: Global, gives: Ty, value: u32) -> Result<(), NoMemory>
    requires gives { is_given gives ≡ true }
    requires value { value ≤ 32764 }
    ensures { OnOk result (asm.new ≡ put_code asm.old (answer_code gives value)) }
{
    if gives == Ty::Void {
        return Ok(());
    }
    put_cut(asm, alloc, width_of(gives), Reg::A0)?;
    put_store_value(asm, alloc, Reg::A0, value)
}

/// A call of a symbol, which gives this value where it has a result.
#[tactic(auto, using(code_emit::proofs::Put::code_code))]
pub fn put_call(
    asm: &mut Asm,
    alloc: Global,
    globals: &Places,
    gives: Ty,
    callee: u32,
    arguments: &Items<(Ty, Operand)>,
    value: u32,
    values: u32,
) -> Result<(), NoMemory>
    requires gives { is_given gives ≡ true }
    requires callee { callee < 1024 }
    requires few { length arguments.now ≤ 8 }
    requires arguments { are_arguments values arguments.now ≡ true }
    requires value { value ≤ values }
    requires values { values ≤ 32764 }
    ensures { OnOk result (asm.new ≡ put_code asm.old (called_code globals.now gives callee arguments.now value)) }
{
    put_arguments(asm, alloc, globals, arguments.as_slice(), values)?;
    put_call_of(asm, alloc, callee)?;
    put_answer(asm, alloc, gives, value)
}

// Restores s11 where it was saved, and ra and sp, and returns.
#[tactic(auto, using(code_emit::proofs::Put::code_code))]
fn put_back(asm: &mut Asm, alloc: Global, takes: bool, frame: u32) -> Result<(), NoMemory>
    requires large { 128 ≤ frame }
    requires small { frame ≤ 2 ^ 20 }
    ensures { OnOk result (asm.new ≡ put_code asm.old (restore_code takes frame ++ leave_code frame)) }
{
    put_restore(asm, alloc, takes, frame)?;
    put_leave(asm, alloc, frame)
}

/// Loads the answer where there is one, restores s11, ra and sp, and returns.
#[tactic(auto, using(code_emit::proofs::Put::code_code))]
pub fn put_return(
    asm: &mut Asm,
    alloc: Global,
    globals: &Places,
    takes: bool,
    answer: Option<Operand>,
    values: u32,
) -> Result<(), NoMemory>
    requires answer { is_answer values answer ≡ true }
    requires values { values ≤ 32764 }
    ensures { OnOk result (asm.new ≡ put_code asm.old (return_code globals.now takes (128 + 32 * values) answer)) }
{
    match answer {
        Some(answer) => put_answered(asm, alloc, globals, takes, answer, values),
        None => put_back(asm, alloc, takes, 128 + 32 * values),
    }
}

#[tactic(auto, using(code_emit::proofs::Put::code_code))]
fn put_answered(
    asm: &mut Asm,
    alloc: Global,
    globals: &Places,
    takes: bool,
    answer: Operand,
    values: u32,
) -> Result<(), NoMemory>
    requires answer { is_operand values answer ≡ true }
    requires values { values ≤ 32764 }
    ensures { OnOk result (asm.new ≡ put_code asm.old (value_code globals.now Reg.A0 answer ++ (restore_code takes (128 + 32 * values) ++ leave_code (128 + 32 * values)))) }
{
    put_value(asm, alloc, globals, Reg::A0, answer, values)?;
    put_back(asm, alloc, takes, 128 + 32 * values)
}

/// The next value of a phi becomes its value.
#[tactic(auto, using(code_emit::proofs::Put::code_code))]
pub fn put_phi(asm: &mut Asm, alloc: Global, value: u32) -> Result<(), NoMemory>
    requires { value ≤ 32764 }
    ensures { OnOk result (asm.new ≡ put_code asm.old (load_next Reg.T0 value ++ store_value Reg.T0 value)) }
{
    put_load_at(asm, alloc, Reg::T0, 32 * value + 16)?;
    put_store_value(asm, alloc, Reg::T0, value)
}

/// A phi takes its next value from an operand; nothing is stored for poison.
#[tactic(auto, using(code_emit::proofs::Put::code_code, code_emit::proofs::Put::code_none))]
pub fn put_next(
    asm: &mut Asm,
    alloc: Global,
    globals: &Places,
    value: u32,
    operand: Operand,
    values: u32,
) -> Result<(), NoMemory>
    requires operand { is_operand values operand ≡ true }
    requires value { value ≤ values }
    requires values { values ≤ 32764 }
    ensures { OnOk result (asm.new ≡ put_code asm.old (next_code globals.now value operand)) }
{
    match operand {
        Operand::Poison => Ok(()),
        _ => put_next_of(asm, alloc, globals, value, operand, values),
    }
}

#[tactic(auto, using(code_emit::proofs::Put::code_code))]
fn put_next_of(
    asm: &mut Asm,
    alloc: Global,
    globals: &Places,
    value: u32,
    operand: Operand,
    values: u32,
) -> Result<(), NoMemory>
    requires operand { is_operand values operand ≡ true }
    requires value { value ≤ values }
    requires values { values ≤ 32764 }
    ensures { OnOk result (asm.new ≡ put_code asm.old (value_code globals.now Reg.T0 operand ++ store_next Reg.T0 value)) }
{
    put_value(asm, alloc, globals, Reg::T0, operand, values)?;
    put_store_at(asm, alloc, Reg::T0, 32 * value + 16)
}

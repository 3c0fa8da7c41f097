// The types of operands and results.
ghost use Rattle.std.specs.Prelude.{◌≡◌, ℕ, ◌+◌, ◌^◌, ◌<◌, ◌≤◌, length, map, slice_get, drop, Option, Some, None, [], ◌∷◌, ◌++◌, IfOk, OnOk};
ghost use Rattle.ir_flow.specs.Code.{places, typed_pairs};
ghost use Rattle.ir_flow.specs.First.{first_refused};
ghost use Rattle.ir_meaning.specs.Typed.{types as types_of};
ghost use Rattle.std.specs.Option.{option_copied};
ghost use Rattle.ir_core.specs.Layout.{is_memory_width as is_memory_width_number};
ghost use Rattle.ir_core.specs.Units.{instructions};
ghost use Rattle.ir_verify.specs.Types.{same_type as same_type_of, is_void as is_void_type, is_ptr as is_ptr_type, is_int as is_int_type, is_int_of as is_int_of_width, fits_place as fits_place_of, width_of as width_of_type, is_narrow as is_narrow_op, is_cast as is_cast_of, is_stored as is_stored_type, is_built_in as is_built_in_of, all_int as all_int_of, all_fit_places, field_named as field_named_in, is_returned as is_returned_of, leads_into as leads_into_type, is_part as is_part_of, gives_type as gives_type_of, is_typed as is_typed_inst, is_length as is_length_type, is_number as is_number_operand, is_zero as is_zero_operand, is_false as is_false_argument};

use ir_core::code::{BinOp, BuiltIn, CastOp, Inst, Op, Operand};
use ir_core::program::Function;
use ir_core::types::{MAX_WIDTH, MemTy, Ty};
use rj_num::NoMemory;
use std::alloc::Global;

fn is_void(ty: Ty) -> bool
    ensures { result ≡ is_void_type ty }
{
    match ty {
        Ty::Void => true,
        _ => false,
    }
}

fn is_ptr(ty: Ty) -> bool
    ensures { result ≡ is_ptr_type ty }
{
    match ty {
        Ty::Ptr => true,
        _ => false,
    }
}

fn is_int(ty: Ty) -> bool
    ensures { result ≡ is_int_type ty }
{
    match ty {
        Ty::Int(_) => true,
        _ => false,
    }
}

fn is_int_of(width: u32, ty: Ty) -> bool
    ensures { result ≡ is_int_of_width width ty }
{
    match ty {
        Ty::Int(w) => w == width,
        _ => false,
    }
}

pub fn same_type(a: Ty, b: Ty) -> bool
    ensures { result ≡ same_type_of a b }
{
    match a {
        Ty::Void => is_void(b),
        Ty::Int(w) => is_int_of(w, b),
        Ty::Ptr => is_ptr(b),
    }
}

/// An operand of a place of this type, among values of these types.
fn fits_place(types: &[Ty], ty: Ty, operand: &Operand) -> bool
    ensures { result ≡ fits_place_of types.now ty operand.now }
{
    match operand {
        Operand::Value(number) => match types.get(*number as usize) {
            Some(found) => same_type(ty, *found),
            None => false,
        },
        Operand::Num(_) => is_int(ty),
        Operand::Null | Operand::Place(_, _) => is_ptr(ty),
        Operand::Poison => !is_void(ty),
    }
}

fn width_of(ty: Ty) -> u32
    ensures { result ≡ width_of_type ty }
{
    match ty {
        Ty::Int(w) => w,
        _ => 0,
    }
}

/// A product or a quotient is of at most 64 bits.
fn is_narrow(op: BinOp, width: u32) -> bool
    ensures { result ≡ is_narrow_op op width }
{
    match op {
        BinOp::Mul | BinOp::UDiv | BinOp::SDiv | BinOp::URem | BinOp::SRem => width <= 64,
        _ => true,
    }
}

fn is_cast(op: CastOp, from: Ty, to: Ty) -> bool
    ensures { result ≡ is_cast_of op from to }
{
    match op {
        CastOp::Trunc => is_int(from) && is_int(to) && width_of(to) < width_of(from),
        CastOp::ZExt => is_int(from) && is_int(to) && width_of(from) < width_of(to),
        CastOp::SExt => is_int(from) && is_int(to) && width_of(from) < width_of(to),
        CastOp::PtrToInt => is_ptr(from) && is_int(to),
        CastOp::IntToPtr => is_int(from) && is_ptr(to),
        CastOp::Same => same_type(from, to) && !is_void(from),
    }
}

/// An integer of this width can stand in memory.
pub fn is_memory_width(width: u32) -> bool
    ensures { result ≡ is_memory_width_number width }
{
    (width == 8 || width == 16 || width == 32 || width == 64 || width == 128) && width <= MAX_WIDTH
}

fn is_stored(ty: Ty) -> bool
    ensures { result ≡ is_stored_type ty }
{
    match ty {
        Ty::Void => false,
        Ty::Int(w) => is_memory_width(w),
        Ty::Ptr => true,
    }
}

fn is_length(ty: Ty) -> bool
    ensures { result ≡ is_length_type ty }
{
    is_int_of(32, ty) || is_int_of(64, ty)
}

fn is_number(operand: &Operand) -> bool
    ensures { result ≡ is_number_operand operand.now }
{
    match operand {
        Operand::Num(_) => true,
        _ => false,
    }
}

/// `i1 false`: a memory built-in that is not volatile.
fn is_false(argument: &(Ty, Operand)) -> bool
    ensures { result ≡ is_false_argument argument.now }
{
    is_int_of(1, argument.0) && is_zero(&argument.1)
}

fn is_zero(operand: &Operand) -> bool
    ensures { result ≡ is_zero_operand operand.now }
{
    match operand {
        Operand::Num(n) => *n == 0,
        _ => false,
    }
}

fn are_all_int(indices: &[(Ty, Operand)]) -> bool
    ensures { result ≡ all_int_of indices.now }
{
    for (ty, _) in indices {
        if !is_int(*ty) {
            return false;
        }
    }
    true
}

/// Each argument is of a place of its type.
fn all_fit(types: &[Ty], arguments: &[(Ty, Operand)]) -> bool
    ensures { result ≡ all_fit_places types.now arguments.now }
{
    for (ty, operand) in arguments {
        if !fits_place(types, *ty, operand) {
            return false;
        }
    }
    true
}

fn pairs_fit(types: &[Ty], ty: Ty, pairs: &[(Operand, u32)]) -> bool
    ensures { result ≡ all_fit_places types.now (typed_pairs ty pairs.now) }
{
    for (operand, _) in pairs {
        if !fits_place(types, ty, operand) {
            return false;
        }
    }
    true
}

/// Each operand of an instruction is of its place's type.
fn places_fit(types: &[Ty], ret: Ty, ty: Ty, op: &Op) -> bool
    ensures { result ≡ all_fit_places types.now (places ret ty op.now) }
{
    match op {
        Op::Binary(_, _, a, b) => fits_place(types, ty, a) && fits_place(types, ty, b),
        Op::Icmp(_, _, of, a, b) => fits_place(types, *of, a) && fits_place(types, *of, b),
        Op::Cast(_, _, from, a) => fits_place(types, *from, a),
        Op::Select(condition, a, b) => {
            fits_place(types, Ty::Int(1), condition)
                && fits_place(types, ty, a)
                && fits_place(types, ty, b)
        }
        Op::Freeze(a) => fits_place(types, ty, a),
        Op::Phi(pairs) => pairs_fit(types, ty, pairs.as_slice()),
        Op::Alloca(_, _) => true,
        Op::Load(address) => fits_place(types, Ty::Ptr, address),
        Op::Store(of, a, address) => fits_place(types, *of, a)
            && fits_place(types, Ty::Ptr, address),
        Op::Gep(_, base, indices) => fits_place(types, Ty::Ptr, base)
            && all_fit(types, indices.as_slice()),
        Op::Call(_, arguments) => all_fit(types, arguments.as_slice()),
        Op::BuiltIn(_, arguments) => all_fit(types, arguments.as_slice()),
        Op::Ret(Some(a)) => fits_place(types, ret, a),
        Op::Ret(None) => true,
        Op::Br(_) => true,
        Op::CondBr(condition, _, _) => fits_place(types, Ty::Int(1), condition),
        Op::Switch(of, a, _, _) => fits_place(types, *of, a),
        Op::Unreachable => true,
    }
}

fn is_built_in(which: BuiltIn, arguments: &[(Ty, Operand)], ty: Ty) -> bool
    ensures { result ≡ is_built_in_of which arguments.now ty }
{
    match which {
        BuiltIn::MemCpy | BuiltIn::MemMove => match arguments {
            [to, from, count, volatile] => is_ptr(to.0)
                && is_ptr(from.0)
                && is_length(count.0)
                && is_false(volatile)
                && is_void(ty),
            _ => false,
        },
        BuiltIn::MemSet => match arguments {
            [to, byte, count, volatile] => is_ptr(to.0)
                && is_int_of(8, byte.0)
                && is_length(count.0)
                && is_false(volatile)
                && is_void(ty),
            _ => false,
        },
        BuiltIn::SMax | BuiltIn::SMin | BuiltIn::UMax | BuiltIn::UMin => match arguments {
            [a, b] => is_int(ty) && same_type(a.0, ty) && same_type(b.0, ty),
            _ => false,
        },
        BuiltIn::Abs => match arguments {
            [a, b] => is_int(ty) && same_type(a.0, ty) && is_int_of(1, b.0) && is_number(&b.1),
            _ => false,
        },
    }
}

fn is_returned(ret: Ty, value: &Option<Operand>) -> bool
    ensures { result ≡ is_returned_of ret value.now }
{
    match value {
        None => is_void(ret),
        Some(_) => !is_void(ret),
    }
}

/// The field that a literal names.
fn field_named<'a>(fields: &'a [MemTy], operand: &Operand) -> Option<&'a MemTy>
    ensures { option_copied result ≡ field_named_in fields.now operand.now }
{
    match operand {
        Operand::Num(n) if *n < fields.len() as u128 => fields.get(*n as usize),
        _ => None,
    }
}

/// The indices lead into arrays, and into fields of structs that are named by literals.
fn leads_into(indices: &[(Ty, Operand)], ty: &MemTy) -> bool
    ensures { result ≡ leads_into_type indices.now ty.now }
{
    let [index, rest @ ..] = indices else {
        return true;
    };
    match ty {
        MemTy::Int(_) | MemTy::Ptr => false,
        MemTy::Array(_, element) => leads_into(rest, element.get()),
        MemTy::Struct(fields, _) => match field_named(fields.as_slice(), &index.1) {
            Some(field) => leads_into(rest, field),
            None => false,
        },
    }
}

fn is_part(ty: &MemTy, indices: &[(Ty, Operand)]) -> bool
    ensures { result ≡ is_part_of ty.now indices.now }
{
    !indices.is_empty() && are_all_int(indices) && leads_into(&indices[1..], ty)
}

/// The operation gives this type, beside what its places ask.
fn gives_type(ret: Ty, ty: Ty, op: &Op) -> bool
    ensures { result ≡ gives_type_of ret ty op.now }
{
    match op {
        Op::Binary(op, _, _, _) => is_int(ty) && is_narrow(*op, width_of(ty)),
        Op::Icmp(_, _, of, _, _) => is_int_of(1, ty) && !is_void(*of),
        Op::Cast(op, _, from, _) => is_cast(*op, *from, ty),
        Op::Select(_, _, _) | Op::Freeze(_) | Op::Phi(_) => !is_void(ty),
        Op::Alloca(_, _) => is_ptr(ty),
        Op::Load(_) => is_stored(ty),
        Op::Store(of, _, _) => is_void(ty) && is_stored(*of),
        Op::Gep(of, _, indices) => is_ptr(ty) && is_part(of, indices.as_slice()),
        Op::Call(_, _) => true,
        Op::BuiltIn(which, arguments) => is_built_in(*which, arguments.as_slice(), ty),
        Op::Ret(value) => is_void(ty) && is_returned(ret, value),
        Op::Br(_) | Op::CondBr(_, _, _) | Op::Unreachable => is_void(ty),
        Op::Switch(of, _, _, _) => is_void(ty) && is_int(*of),
    }
}

fn is_typed(types: &[Ty], ret: Ty, inst: &Inst) -> bool
    ensures { result ≡ is_typed_inst types.now ret inst.now }
{
    gives_type(ret, inst.gives, &inst.op) && places_fit(types, ret, inst.gives, &inst.op)
}

/// The first instruction with wrong types, among values of these types.
pub fn mistyped(types: &[Ty], function: &Function) -> Option<u32>
    requires { length (instructions function.now.blocks) < 2 ^ 32 }
    ensures { result ≡ first_refused (is_typed_inst types.now function.now.ret) 0 (instructions function.now.blocks) }
{
    let mut at = 0;
    for block in function.blocks.as_slice() {
        for inst in block.insts.as_slice() {
            if !is_typed(types, function.ret, inst) {
                return Some(at);
            }
            at += 1;
        }
    }
    None
}

fn push_type(types: &mut Vec<Ty>, ty: Ty) -> Result<(), NoMemory>
    ensures { OnOk result (types.new.items ≡ types.old.items ++ ty ∷ []) }
{
    match types.push(ty) {
        Ok(()) => Ok(()),
        Err(_) => Err(NoMemory),
    }
}

/// The types of a function's values by their numbers.
pub fn value_types(alloc: Global, function: &Function) -> Result<Vec<Ty>, NoMemory>
    ensures { IfOk result (λ found. found.items ≡ types_of function.now) }
{
    let mut types = Vec::new(alloc);
    for ty in function.params.as_slice() {
        push_type(&mut types, *ty)?;
    }
    for block in function.blocks.as_slice() {
        for inst in block.insts.as_slice() {
            if inst.gives != Ty::Void {
                push_type(&mut types, inst.gives)?;
            }
        }
    }
    Ok(types)
}

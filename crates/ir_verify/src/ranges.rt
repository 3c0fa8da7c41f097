// Numbers that name something, and the widths of types.
ghost use Rattle.std.specs.Prelude.{◌≡◌, ◌<◌, ◌≤◌, ◌^◌, length, map, Option, Some, None};
ghost use Rattle.ir_core.specs.Units.{instructions, types_in, types_of_arguments, values};
ghost use Rattle.ir_flow.specs.First.{first_refused};
ghost use Rattle.ir_flow.specs.Code.{pair_blocks, case_blocks, blocks_named as blocks_named_by, places, typed_pairs};
ghost use Rattle.ir_verify.specs.Ranges.{is_width as is_width_number, has_width as has_width_of, all_have_widths as all_have_widths_in, names_what_is as names_what_is_there, all_named as all_named_there, all_below, all_cases_fit as all_cases_fit_in, is_parameter as is_parameter_type, all_parameters as all_parameters_of, number_fits_width, all_true, has_memory_widths as has_memory_widths_in, names_more as names_more_there, is_in_range as is_in_range_there, out_of_range as out_of_range_in};

use crate::types::is_memory_width;
use ir_core::code::{Inst, Op, Operand};
use ir_core::program::{Function, Module};
use ir_core::types::{MAX_WIDTH, MemTy, Ty};
use ir_core::units::values_of;
use rj_num::width::fits_unsigned;

/// An integer has a width from 1 to the greatest.
fn is_width(width: u32) -> bool
    ensures { result ≡ is_width_number width }
{
    1 <= width && width <= MAX_WIDTH
}

fn has_width(ty: Ty) -> bool
    ensures { result ≡ has_width_of ty }
{
    match ty {
        Ty::Int(width) => is_width(width),
        Ty::Void | Ty::Ptr => true,
    }
}

fn is_parameter(ty: Ty) -> bool
    ensures { result ≡ is_parameter_type ty }
{
    match ty {
        Ty::Void => false,
        Ty::Int(width) => is_width(width),
        Ty::Ptr => true,
    }
}

fn all_parameters(types: &[Ty]) -> bool
    ensures { result ≡ all_parameters_of types.now }
{
    for ty in types {
        if !is_parameter(*ty) {
            return false;
        }
    }
    true
}

/// A number fits a type's width: any where it is wider than all numbers.
pub fn number_fits(n: u128, ty: Ty) -> bool
    ensures { result ≡ number_fits_width n ty }
{
    match ty {
        Ty::Void => n == 0,
        Ty::Int(0) => n == 0,
        Ty::Int(width) if width >= 128 => true,
        Ty::Int(width) => fits_unsigned(n, width),
        Ty::Ptr => fits_unsigned(n, 64),
    }
}

/// A place's operand names what is there, and a number fits the place's width.
fn names_what_is(all: &Module, count: u64, ty: Ty, operand: &Operand) -> bool
    ensures { result ≡ names_what_is_there all.now count ty operand.now }
{
    match operand {
        Operand::Value(number) => u64::from(*number) < count,
        Operand::Num(n) => number_fits(*n, ty),
        Operand::Place(global, _) => (*global as usize) < all.globals.len(),
        Operand::Null | Operand::Poison => true,
    }
}

fn all_named(all: &Module, count: u64, places: &[(Ty, Operand)]) -> bool
    ensures { result ≡ all_named_there all.now count places.now }
{
    for (ty, operand) in places {
        if !names_what_is(all, count, *ty, operand) {
            return false;
        }
    }
    true
}

fn pairs_below(count: usize, pairs: &[(Operand, u32)]) -> bool
    ensures { result ≡ all_below count (pair_blocks pairs.now) }
{
    for (_, block) in pairs {
        if *block as usize >= count {
            return false;
        }
    }
    true
}

fn cases_below(count: usize, cases: &[(u128, u32)]) -> bool
    ensures { result ≡ all_below count (case_blocks cases.now) }
{
    for (_, block) in cases {
        if *block as usize >= count {
            return false;
        }
    }
    true
}

/// The blocks that an instruction names are there.
fn blocks_are_there(count: usize, op: &Op) -> bool
    ensures { result ≡ all_below count (blocks_named_by op.now) }
{
    match op {
        Op::Phi(pairs) => pairs_below(count, pairs.as_slice()),
        Op::Br(to) => (*to as usize) < count,
        Op::CondBr(_, if_true, if_false) => (*if_true as usize) < count
            && (*if_false as usize) < count,
        Op::Switch(_, _, otherwise, cases) => (*otherwise as usize) < count
            && cases_below(count, cases.as_slice()),
        _ => true,
    }
}

/// Each integer inside can stand in memory.
#[cycle(widths)]
pub fn has_memory_widths(ty: &MemTy) -> bool
    ensures { result ≡ has_memory_widths_in ty.now }
{
    match ty {
        MemTy::Int(width) => is_memory_width(*width),
        MemTy::Ptr => true,
        MemTy::Array(_, element) => has_memory_widths(element.get()),
        MemTy::Struct(fields, _) => have_memory_widths(fields.as_slice()),
    }
}

#[cycle(widths)]
fn have_memory_widths(fields: &[MemTy]) -> bool
    ensures { result ≡ all_true (map has_memory_widths_in fields.now) }
{
    for field in fields {
        if !has_memory_widths(field) {
            return false;
        }
    }
    true
}

fn have_widths(arguments: &[(Ty, Operand)]) -> bool
    ensures { result ≡ all_have_widths_in (types_of_arguments arguments.now) }
{
    for (ty, _) in arguments {
        if !has_width(*ty) {
            return false;
        }
    }
    true
}

/// The types that are written in an instruction have widths.
fn all_have_widths(op: &Op) -> bool
    ensures { result ≡ all_have_widths_in (types_in op.now) }
{
    match op {
        Op::Icmp(_, _, ty, _, _) | Op::Cast(_, _, ty, _) | Op::Store(ty, _, _) => has_width(*ty),
        Op::Switch(ty, _, _, _) => has_width(*ty),
        Op::Gep(_, _, indices) => have_widths(indices.as_slice()),
        Op::Call(_, arguments) => have_widths(arguments.as_slice()),
        Op::BuiltIn(_, arguments) => have_widths(arguments.as_slice()),
        _ => true,
    }
}

fn pairs_named(all: &Module, count: u64, ty: Ty, pairs: &[(Operand, u32)]) -> bool
    ensures { result ≡ all_named_there all.now count (typed_pairs ty pairs.now) }
{
    for (operand, _) in pairs {
        if !names_what_is(all, count, ty, operand) {
            return false;
        }
    }
    true
}

/// Each operand of an instruction names what is there.
fn places_named(all: &Module, count: u64, ret: Ty, ty: Ty, op: &Op) -> bool
    ensures { result ≡ all_named_there all.now count (places ret ty op.now) }
{
    match op {
        Op::Binary(_, _, a, b) => names_what_is(all, count, ty, a)
            && names_what_is(all, count, ty, b),
        Op::Icmp(_, _, of, a, b) => names_what_is(all, count, *of, a)
            && names_what_is(all, count, *of, b),
        Op::Cast(_, _, from, a) => names_what_is(all, count, *from, a),
        Op::Select(condition, a, b) => {
            names_what_is(all, count, Ty::Int(1), condition)
                && names_what_is(all, count, ty, a)
                && names_what_is(all, count, ty, b)
        }
        Op::Freeze(a) => names_what_is(all, count, ty, a),
        Op::Phi(pairs) => pairs_named(all, count, ty, pairs.as_slice()),
        Op::Alloca(_, _) => true,
        Op::Load(address) => names_what_is(all, count, Ty::Ptr, address),
        Op::Store(of, a, address) => names_what_is(all, count, *of, a)
            && names_what_is(all, count, Ty::Ptr, address),
        Op::Gep(_, base, indices) => names_what_is(all, count, Ty::Ptr, base)
            && all_named(all, count, indices.as_slice()),
        Op::Call(_, arguments) => all_named(all, count, arguments.as_slice()),
        Op::BuiltIn(_, arguments) => all_named(all, count, arguments.as_slice()),
        Op::Ret(Some(a)) => names_what_is(all, count, ret, a),
        Op::Ret(None) => true,
        Op::Br(_) => true,
        Op::CondBr(condition, _, _) => names_what_is(all, count, Ty::Int(1), condition),
        Op::Switch(of, a, _, _) => names_what_is(all, count, *of, a),
        Op::Unreachable => true,
    }
}

/// The cases of a switch are numbers of its type.
fn cases_fit(ty: Ty, cases: &[(u128, u32)]) -> bool
    ensures { result ≡ all_cases_fit_in ty cases.now }
{
    for (number, _) in cases {
        if !number_fits(*number, ty) {
            return false;
        }
    }
    true
}

/// A function, a type of memory and the numbers of cases that an instruction names.
fn names_more(all: &Module, op: &Op) -> bool
    ensures { result ≡ names_more_there all.now op.now }
{
    match op {
        Op::Alloca(of, _) => has_memory_widths(of),
        Op::Gep(of, _, _) => has_memory_widths(of),
        Op::Call(callee, _) => (*callee as usize) < all.functions.len(),
        Op::Switch(of, _, _, cases) => cases_fit(*of, cases.as_slice()),
        _ => true,
    }
}

fn is_in_range(all: &Module, function: &Function, count: u64, inst: &Inst) -> bool
    requires { count ≡ values function.now }
    ensures { result ≡ is_in_range_there all.now function.now inst.now }
{
    has_width(inst.gives)
        && all_have_widths(&inst.op)
        && places_named(all, count, function.ret, inst.gives, &inst.op)
        && blocks_are_there(function.blocks.len(), &inst.op)
        && names_more(all, &inst.op)
}

/// The first instruction that names what isn't there; 0 for a parameter or the result.
pub fn out_of_range(all: &Module, function: &Function) -> Option<u32>
    requires values { values function.now < 2 ^ 64 }
    requires insts { length (instructions function.now.blocks) < 2 ^ 32 }
    ensures { result ≡ out_of_range_in all.now function.now }
{
    if !all_parameters(function.params.as_slice()) || !has_width(function.ret) {
        return Some(0);
    }
    let count = values_of(function);
    let mut at = 0;
    for block in function.blocks.as_slice() {
        for inst in block.insts.as_slice() {
            if !is_in_range(all, function, count, inst) {
                return Some(at);
            }
            at += 1;
        }
    }
    None
}

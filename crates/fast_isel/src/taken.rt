// Which functions of several blocks the compiler takes.
ghost use Rattle.std.specs.Prelude.{◌≡◌, ◌≤◌, length, All, true};
ghost use Rattle.ir_verify.specs.Small.{IsSmall};
ghost use Rattle.ir_meaning.specs.Step.{moves_bytes as moves_bytes_of};
ghost use Rattle.quick_code.specs.Parts.{is_index as is_index_operand, is_literal as is_literal_operand, are_steps as are_steps_of, is_path as is_path_of};
ghost use Rattle.fast_isel_emit.specs.Operands.{is_width as is_width_type, are_widths as are_widths_types, is_given as is_given_type, is_operand as is_operand_at, are_arguments as are_arguments_at, is_answer as is_answer_at, is_integer as is_integer_type, is_index as is_index_of, is_index_at as is_index_at_of, are_indices as are_indices_at, is_built_in as is_built_in_of};
ghost use Rattle.fast_isel.specs.Taken.{are_edge_operands as are_edge_operands_at, are_cases as are_cases_at, is_form as is_form_at, are_forms as are_forms_at, are_blocks as are_blocks_at, is_taken as is_taken_function, are_taken as are_taken_functions};

use fast_isel_emit::moves::moves_bytes;
use fast_isel_emit::parts::{bits_of, literal};
use ir_core::code::{Block, BuiltIn, Inst, Op, Operand};
use ir_core::program::Function;
use ir_core::types::{MemTy, Ty};
use ir_core::units::values_of;
use ir_verify::checked::Checked;

fn is_width(ty: Ty) -> bool
    ensures { result ≡ is_width_type ty }
{
    match ty {
        Ty::Void => false,
        Ty::Int(width) => 1 <= width && width <= 64,
        Ty::Ptr => true,
    }
}

fn are_widths(tys: &[Ty]) -> bool
    ensures { result ≡ are_widths_types tys.now }
{
    for ty in tys {
        if !is_width(*ty) {
            return false;
        }
    }
    true
}

// What a call may give.
fn is_given(ty: Ty) -> bool
    ensures { result ≡ is_given_type ty }
{
    match ty {
        Ty::Void => true,
        _ => is_width(ty),
    }
}

// One of so many values, a number of 64 bits, an address or poison.
fn is_operand(values: u32, operand: Operand) -> bool
    ensures { result ≡ is_operand_at values operand }
{
    match operand {
        Operand::Value(number) => number < values,
        Operand::Num(number) => number < 1 << 64,
        Operand::Null | Operand::Place(_, _) | Operand::Poison => true,
    }
}

fn are_edge_operands(values: u32, pairs: &[(Operand, u32)]) -> bool
    ensures { result ≡ are_edge_operands_at values pairs.now }
{
    for (operand, _) in pairs {
        if !is_operand(values, *operand) {
            return false;
        }
    }
    true
}

fn are_arguments(values: u32, arguments: &[(Ty, Operand)]) -> bool
    ensures { result ≡ are_arguments_at values arguments.now }
{
    for (_, operand) in arguments {
        if !is_operand(values, *operand) {
            return false;
        }
    }
    true
}

fn is_answer(values: u32, answer: Option<Operand>) -> bool
    ensures { result ≡ is_answer_at values answer }
{
    match answer {
        Some(answer) => is_operand(values, answer),
        None => true,
    }
}

// Cases are numbers of 64 bits, and lead to blocks.
fn are_cases(blocks: usize, cases: &[(u128, u32)]) -> bool
    ensures { result ≡ are_cases_at blocks cases.now }
{
    for (number, to) in cases {
        if *number >= 1 << 64 || (*to as usize) >= blocks {
            return false;
        }
    }
    true
}

fn is_integer(ty: Ty) -> bool
    ensures { result ≡ is_integer_type ty }
{
    match ty {
        Ty::Int(width) => 1 <= width && width <= 64,
        _ => false,
    }
}

// One of so many values, a number of a width, or poison.
fn is_index(values: u32, width: u32, operand: Operand) -> bool
    requires { width ≤ 64 }
    ensures { result ≡ is_index_of values width operand }
{
    match operand {
        Operand::Value(number) => number < values,
        Operand::Num(number) => number < 1 << width,
        Operand::Poison => true,
        _ => false,
    }
}

fn is_index_at(values: u32, index: (Ty, Operand)) -> bool
    ensures { result ≡ is_index_at_of values index }
{
    is_integer(index.0) && is_index(values, bits_of(index.0), index.1)
}

fn are_indices(values: u32, indices: &[(Ty, Operand)]) -> bool
    ensures { result ≡ are_indices_at values indices.now }
{
    for index in indices {
        if !is_index_at(values, *index) {
            return false;
        }
    }
    true
}

// An index is a value, a literal or poison.
fn is_number(operand: Operand) -> bool
    ensures { result ≡ is_index_operand operand }
{
    match operand {
        Operand::Value(_) | Operand::Num(_) | Operand::Poison => true,
        Operand::Null | Operand::Place(_, _) => false,
    }
}

fn is_literal(operand: Operand) -> bool
    ensures { result ≡ is_literal_operand operand }
{
    match operand {
        Operand::Num(_) => true,
        _ => false,
    }
}

// Indices lead from a type to parts of it, into a struct by a literal.
fn are_steps(ty: &MemTy, indices: &[(Ty, Operand)], values: u32) -> bool
    requires { are_indices_at values indices.now ≡ true }
    ensures { result ≡ are_steps_of indices.now ty.now }
{
    let [index, rest @ ..] = indices else {
        return true;
    };
    match ty {
        MemTy::Int(_) | MemTy::Ptr => false,
        MemTy::Array(_, element) => is_number(index.1) && are_steps(element.get(), rest, values),
        MemTy::Struct(fields, _) => {
            let fields = fields.as_slice();
            if !is_literal(index.1) {
                return false;
            }
            if fields.len() >= 1 << 32 {
                return false;
            }
            let field = literal(*index, values);
            if field >= fields.len() as u64 {
                return true;
            }
            are_steps(&fields[field as usize], rest, values)
        }
    }
}

fn is_path(of: &MemTy, indices: &[(Ty, Operand)], values: u32) -> bool
    requires { are_indices_at values indices.now ≡ true }
    ensures { result ≡ is_path_of of.now indices.now }
{
    let [first, rest @ ..] = indices else {
        return true;
    };
    is_number(first.1) && are_steps(of, rest, values)
}

// A built-in that moves bytes, or one that gives a value of two arguments.
fn is_built_in(gives: Ty, which: BuiltIn, arguments: &[(Ty, Operand)]) -> bool
    ensures { result ≡ is_built_in_of gives (moves_bytes_of which) arguments.now }
{
    moves_bytes(which) || (is_width(gives) && arguments.len() == 2)
}

// An instruction among so many values and blocks.
fn is_form(values: u32, blocks: usize, gives: Ty, op: &Op) -> bool
    ensures { result ≡ is_form_at values blocks gives op.now }
{
    match op {
        Op::Binary(_, _, a, b) => {
            is_width(gives) && is_operand(values, *a) && is_operand(values, *b)
        }
        Op::Icmp(_, _, of, a, b) => {
            gives != Ty::Void && is_width(*of) && is_operand(values, *a) && is_operand(values, *b)
        }
        Op::Cast(_, _, from, a) => is_width(gives) && is_width(*from) && is_operand(values, *a),
        Op::Select(condition, a, b) => {
            is_width(gives)
                && is_operand(values, *condition)
                && is_operand(values, *a)
                && is_operand(values, *b)
        }
        Op::Freeze(a) => is_width(gives) && is_operand(values, *a),
        Op::Load(address) => is_width(gives) && is_operand(values, *address),
        Op::Store(ty, a, address) => {
            is_width(*ty) && is_operand(values, *a) && is_operand(values, *address)
        }
        Op::Phi(pairs) => gives != Ty::Void && are_edge_operands(values, pairs.as_slice()),
        Op::Call(callee, arguments) => {
            is_given(gives)
                && *callee < 1024
                && arguments.len() <= 8
                && are_arguments(values, arguments.as_slice())
        }
        Op::Ret(answer) => is_answer(values, *answer),
        Op::Br(to) => (*to as usize) < blocks,
        Op::CondBr(condition, if_true, if_false) => {
            is_operand(values, *condition)
                && (*if_true as usize) < blocks
                && (*if_false as usize) < blocks
        }
        Op::Switch(of, value, otherwise, cases) => {
            is_width(*of)
                && is_operand(values, *value)
                && (*otherwise as usize) < blocks
                && are_cases(blocks, cases.as_slice())
        }
        Op::Gep(of, base, indices) => {
            is_width(gives)
                && is_operand(values, *base)
                && are_indices(values, indices.as_slice())
                && is_path(of, indices.as_slice(), values)
        }
        Op::BuiltIn(which, arguments) => {
            is_built_in(gives, *which, arguments.as_slice())
                && are_arguments(values, arguments.as_slice())
        }
        Op::Unreachable | Op::Alloca(_, _) => true,
    }
}

fn are_forms(values: u32, blocks: usize, insts: &[Inst]) -> bool
    ensures { result ≡ are_forms_at values blocks insts.now }
{
    for inst in insts {
        if !is_form(values, blocks, inst.gives, &inst.op) {
            return false;
        }
    }
    true
}

fn are_blocks(values: u32, blocks: &[Block]) -> bool
    ensures { result ≡ are_blocks_at values (length blocks.now) blocks.now }
{
    let many = blocks.len();
    for block in blocks {
        if !are_forms(values, many, block.insts.as_slice()) {
            return false;
        }
    }
    true
}

// Whether a function is taken.
fn is_taken(function: &Function) -> bool
    requires { IsSmall function.now }
    ensures { result ≡ is_taken_function function.now }
{
    let values = values_of(function);
    are_widths(function.params.as_slice())
        && function.params.len() <= 8
        && values <= 32764
        && function.blocks.len() <= 16384
        && are_blocks(values as u32, function.blocks.as_slice())
}

fn are_taken(functions: &[Function]) -> bool
    requires { All IsSmall functions.now }
    ensures { result ≡ are_taken_functions functions.now }
{
    for function in functions {
        if !is_taken(function) {
            return false;
        }
    }
    true
}

/// Whether each function of a module is taken: at most eight parameters, 32,764 values and 16,384 blocks, and instructions of the forms that
/// the compiler knows.
pub fn takes(module: &Checked) -> bool
    ensures { result ≡ are_taken_functions «module».now.module_.functions }
{
    let all = module.module();
    are_taken(all.functions.as_slice())
}

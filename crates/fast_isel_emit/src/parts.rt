// Addresses of parts: what the indices add to the address in t0.
ghost use Rattle.std.specs.Prelude.{◌≡◌, ◌+◌, ◌%◌, ◌^◌, ◌<◌, ◌≤◌, [], ◌∷◌, ◌++◌, OnOk, IfOk, IfSome, true};
ghost use Rattle.ir_core.specs.declared.code.Op.TheVariants.{Gep};
ghost use Rattle.ir_core.specs.Layout.{HasSizesWithin};
ghost use Rattle.ir_meaning.specs.Operators.{width as width_of_type};
ghost use Rattle.rv_core.specs.Instr.{Fits12};
ghost use Rattle.rv_core.specs.declared.reg.Reg.TheVariants.{T0, T1, T2};
ghost use Rattle.rv_core.specs.declared.instr.RegOp.TheVariants.{Add, Mul};
ghost use Rattle.rv_core.specs.declared.instr.Instr.TheVariants.{Op as RegisterOp};
ghost use Rattle.code_pieces.specs.Code.{const_code};
ghost use Rattle.quick_code.specs.Operations.{operation_code};
ghost use Rattle.quick_code.specs.Parts.{sized, literal as literal_of, pieces, pieces_into, pieces_code, bytes_in, exponent, scale_code, times_code, twelve, bytes_code, is_path, are_steps};
ghost use Rattle.code_emit.specs.Written.{put_code};
ghost use Rattle.fast_isel_emit.specs.Operands.{is_operand, is_integer, is_index_at, are_indices};

use crate::operations::put_one;
use crate::pieces::put_store_value;
use crate::work::put_sign;
use code_emit::pieces::{put_const, put_instr, put_load_at};
use ir_core::code::Operand;
use ir_core::layout::{field_offset, size_of};
use ir_core::types::{MemTy, Ty};
use ir_data::addresses::Places;
use ir_data::struct_fields::end_of;
use rj_num::NoMemory;
use rj_num::width::extend;
use rv_asm::asm::Asm;
use rv_core::instr::{ImmOp, Instr, RegOp};
use rv_core::reg::Reg;
use std::alloc::Global;

/// The bits of an integer.
pub fn bits_of(ty: Ty) -> u32
    requires { is_integer ty ≡ true }
    ensures value { result ≡ width_of_type ty }
    ensures some { 1 ≤ result }
    ensures most { result ≤ 64 }
{
    match ty {
        Ty::Int(width) => width,
        Ty::Void | Ty::Ptr => 64,
    }
}

/// The number of a literal index, read with its sign.
pub fn literal(index: (Ty, Operand), values: u32) -> u64
    requires { is_index_at values index ≡ true }
    ensures { result ≡ literal_of index.0 index.1 }
{
    match index.1 {
        Operand::Num(number) => extend(number, bits_of(index.0), 64) as u64,
        _ => 0,
    }
}

// The exponent of a power of two.
fn exponent_of(size: u64) -> Option<u32>
    ensures value { result ≡ exponent size }
    ensures few { IfSome result (λ k. k < 64) }
{
    let zeros = size.trailing_zeros();
    if zeros < 64 && size == 1 << zeros {
        Some(zeros)
    } else {
        None
    }
}

// Multiplies t1 by a size: by a shift where that is a power of two.
#[tactic(auto, using(code_emit::proofs::Put::code_none))]
fn put_scale(asm: &mut Asm, alloc: Global, size: u64) -> Result<(), NoMemory>
    ensures { OnOk result (asm.new ≡ put_code asm.old (scale_code size)) }
{
    if size == 1 {
        return Ok(());
    }
    match exponent_of(size) {
        Some(bits) => put_instr(
            asm,
            alloc,
            Instr::Imm(ImmOp::Slli, Reg::T1, Reg::T1, bits as i32),
        ),
        None => put_product(asm, alloc, size),
    }
}

#[tactic(auto, using(code_emit::proofs::Put::code_code))]
fn put_product(asm: &mut Asm, alloc: Global, size: u64) -> Result<(), NoMemory>
    ensures { OnOk result (asm.new ≡ put_code asm.old (const_code 3 T2 size ++ RegisterOp Mul T1 T1 T2 ∷ [])) }
{
    put_const(asm, alloc, Reg::T2, size)?;
    put_instr(asm, alloc, Instr::Op(RegOp::Mul, Reg::T1, Reg::T1, Reg::T2))
}

// Adds a size for each of a value's number to t0.
#[tactic(auto, using(code_emit::proofs::Put::code_code))]
fn put_times(
    asm: &mut Asm,
    alloc: Global,
    width: u32,
    number: u32,
    size: u64,
) -> Result<(), NoMemory>
    requires some { 1 ≤ width }
    requires most { width ≤ 64 }
    requires number { number ≤ 32764 }
    ensures { OnOk result (asm.new ≡ put_code asm.old (times_code width number size)) }
{
    put_load_at(asm, alloc, Reg::T1, 32 * number)?;
    put_sign(asm, alloc, width, Reg::T1)?;
    put_scale(asm, alloc, size)?;
    put_instr(asm, alloc, Instr::Op(RegOp::Add, Reg::T0, Reg::T0, Reg::T1))
}

// What an index adds of a size: the code of a value, and the bytes of a literal behind those so far, modulo two to 64.
#[tactic(auto, using(code_emit::proofs::Put::code_none))]
fn put_index(
    asm: &mut Asm,
    alloc: Global,
    index: (Ty, Operand),
    size: u64,
    values: u32,
    bytes: u64,
) -> Result<u64, NoMemory>
    requires index { is_index_at values index ≡ true }
    requires values { values ≤ 32764 }
    ensures code { OnOk result (asm.new ≡ put_code asm.old (pieces_code (sized size index.0 index.1))) }
    ensures bytes { IfOk result (λ all. all ≡ (bytes + bytes_in (sized size index.0 index.1)) % 2 ^ 64) }
{
    match index.1 {
        Operand::Value(number) => {
            put_times(asm, alloc, bits_of(index.0), number, size)?;
            Ok(bytes)
        }
        Operand::Num(_) => {
            let count = literal(index, values);
            Ok(bytes.wrapping_add(count.wrapping_mul(size)))
        }
        _ => Ok(bytes),
    }
}

// What indices into a type add.
fn put_into(
    asm: &mut Asm,
    alloc: Global,
    ty: &MemTy,
    indices: &[(Ty, Operand)],
    values: u32,
    bytes: u64,
) -> Result<u64, NoMemory>
    requires indices { are_indices values indices.now ≡ true }
    requires steps { are_steps indices.now ty.now ≡ true }
    requires sizes { HasSizesWithin ty.now }
    requires values { values ≤ 32764 }
    ensures code { OnOk result (asm.new ≡ put_code asm.old (pieces_code (pieces_into indices.now ty.now))) }
    ensures bytes { IfOk result (λ all. all ≡ (bytes + bytes_in (pieces_into indices.now ty.now)) % 2 ^ 64) }
{
    let [index, rest @ ..] = indices else {
        return Ok(bytes);
    };
    match ty {
        MemTy::Int(_) | MemTy::Ptr => Ok(bytes),
        MemTy::Array(_, element) => {
            let element = element.get();
            let bytes = put_index(asm, alloc, *index, size_of(element), values, bytes)?;
            put_into(asm, alloc, element, rest, values, bytes)
        }
        MemTy::Struct(fields, packed) => {
            let fields = fields.as_slice();
            let field = literal(*index, values);
            if field >= fields.len() as u64 {
                return Ok(bytes.wrapping_add(end_of(fields, *packed)));
            }
            let bytes = bytes.wrapping_add(field_offset(fields, *packed, field as u32));
            put_into(asm, alloc, &fields[field as usize], rest, values, bytes)
        }
    }
}

// What all indices add: the first counts whole values of the type.
fn put_pieces(
    asm: &mut Asm,
    alloc: Global,
    of: &MemTy,
    indices: &[(Ty, Operand)],
    values: u32,
) -> Result<u64, NoMemory>
    requires indices { are_indices values indices.now ≡ true }
    requires path { is_path of.now indices.now ≡ true }
    requires sizes { HasSizesWithin of.now }
    requires values { values ≤ 32764 }
    ensures code { OnOk result (asm.new ≡ put_code asm.old (pieces_code (pieces of.now indices.now))) }
    ensures bytes { IfOk result (λ all. all ≡ bytes_in (pieces of.now indices.now) % 2 ^ 64) }
{
    let [first, rest @ ..] = indices else {
        return Ok(0);
    };
    let bytes = put_index(asm, alloc, *first, size_of(of), values, 0)?;
    put_into(asm, alloc, of, rest, values, bytes)
}

// A number as one of twelve bits with its sign, where it is one.
fn twelve_of(count: u64) -> Option<i32>
    ensures value { result ≡ twelve count }
    ensures fits { IfSome result Fits12 }
{
    if count < 2048 {
        return Some(count as i32);
    }
    let below = u64::MAX - count;
    if below < 2048 {
        return Some(-1 - below as i32);
    }
    None
}

// Adds so many bytes to t0.
#[tactic(auto, using(code_emit::proofs::Put::code_none))]
fn put_bytes(asm: &mut Asm, alloc: Global, count: u64) -> Result<(), NoMemory>
    ensures { OnOk result (asm.new ≡ put_code asm.old (bytes_code count)) }
{
    if count == 0 {
        return Ok(());
    }
    match twelve_of(count) {
        Some(few) => put_instr(asm, alloc, Instr::Imm(ImmOp::Addi, Reg::T0, Reg::T0, few)),
        None => put_sum(asm, alloc, count),
    }
}

#[tactic(auto, using(code_emit::proofs::Put::code_code))]
fn put_sum(asm: &mut Asm, alloc: Global, count: u64) -> Result<(), NoMemory>
    ensures { OnOk result (asm.new ≡ put_code asm.old (const_code 3 T1 count ++ RegisterOp Add T0 T0 T1 ∷ [])) }
{
    put_const(asm, alloc, Reg::T1, count)?;
    put_instr(asm, alloc, Instr::Op(RegOp::Add, Reg::T0, Reg::T0, Reg::T1))
}

/// The address of a part of a type, from a base on, which gives this value.
#[tactic(auto, using(code_emit::proofs::Put::code_code))]
pub fn put_part(
    asm: &mut Asm,
    alloc: Global,
    globals: &Places,
    gives: Ty,
    of: &MemTy,
    base: Operand,
    indices: &[(Ty, Operand)],
    value: u32,
    values: u32,
) -> Result<(), NoMemory>
    requires base { is_operand values base ≡ true }
    requires indices { are_indices values indices.now ≡ true }
    requires path { is_path of.now indices.now ≡ true }
    requires sizes { HasSizesWithin of.now }
    requires value { value ≤ values }
    requires values { values ≤ 32764 }
    ensures { OnOk result (asm.new ≡ put_code asm.old (operation_code globals.now gives (Gep of.now base indices.now) value)) }
{
    put_one(asm, alloc, globals, base, values)?;
    let bytes = put_pieces(asm, alloc, of, indices, values)?;
    put_bytes(asm, alloc, bytes)?;
    put_store_value(asm, alloc, Reg::T0, value)
}

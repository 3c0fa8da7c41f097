// The code of instructions that take no edge.
ghost use Rattle.std.specs.Prelude.{◌≡◌, ◌+◌, ◌*◌, ◌^◌, ◌<◌, ◌≤◌, ◌==◌, [], ◌∷◌, length, take, true, OnOk};
ghost use Rattle.ir_core.specs.declared.code.Operand.TheVariants.{Num};
ghost use Rattle.ir_core.specs.Layout.{aligned as aligned_to};
ghost use Rattle.ir_meaning.specs.Memory.{byte_count};
ghost use Rattle.ir_meaning.specs.Operators.{width as width_of};
ghost use Rattle.ir_meaning.specs.Step.{moves_bytes};
ghost use Rattle.gmir.specs.declared.code.GOp.TheVariants.{Call};
ghost use Rattle.generic_code.specs.Code.{binary_op as binary_op_of, predicate as predicate_of, cast_op as cast_op_of, one, cast, address, choice, negated, absolute, built_in, returned, result as result_of};
ghost use Rattle.ir_translator_emit.specs.Written.{put, put_piece};

use crate::lists::{add_all, list};
use crate::translator::{Translator, type_of};
use gmir::code::{GOp, GType};
use ir_core::code::{BinOp, BuiltIn, CastOp, Operand, Pred};
use ir_core::layout::int_extent;
use ir_core::types::Ty;
use rj_num::NoMemory;

/// The generic operation of an operator.
pub fn binary_op(op: BinOp) -> GOp
    ensures { result ≡ binary_op_of op }
{
    match op {
        BinOp::Add => GOp::Add,
        BinOp::Sub => GOp::Sub,
        BinOp::Mul => GOp::Mul,
        BinOp::UDiv => GOp::UDiv,
        BinOp::SDiv => GOp::SDiv,
        BinOp::URem => GOp::URem,
        BinOp::SRem => GOp::SRem,
        BinOp::Shl => GOp::Shl,
        BinOp::LShr => GOp::LShr,
        BinOp::AShr => GOp::AShr,
        BinOp::And => GOp::And,
        BinOp::Or => GOp::Or,
        BinOp::Xor => GOp::Xor,
    }
}

/// The number of a predicate: its place in `Pred`.
pub fn predicate(pred: Pred) -> u128
    ensures { result ≡ predicate_of pred }
{
    match pred {
        Pred::Eq => 0,
        Pred::Ne => 1,
        Pred::Ugt => 2,
        Pred::Uge => 3,
        Pred::Ult => 4,
        Pred::Ule => 5,
        Pred::Sgt => 6,
        Pred::Sge => 7,
        Pred::Slt => 8,
        Pred::Sle => 9,
    }
}

/// The generic operation of a cast.
pub fn cast_op(op: CastOp) -> GOp
    ensures { result ≡ cast_op_of op }
{
    match op {
        CastOp::Trunc => GOp::Trunc,
        CastOp::ZExt => GOp::ZExt,
        CastOp::SExt => GOp::SExt,
        CastOp::PtrToInt => GOp::PtrToInt,
        CastOp::IntToPtr => GOp::IntToPtr,
        CastOp::Same => GOp::Copy,
    }
}

/// How many bits of a type stand in memory.
pub fn bits_in_memory(ty: Ty) -> u128
    ensures { result ≡ 8 * byte_count ty }
{
    match ty {
        Ty::Void => 0,
        Ty::Int(width) => 8 * u128::from(int_extent(width).size),
        Ty::Ptr => 64,
    }
}

/// Whether a type has 64 bits.
fn is_wide(ty: Ty) -> bool
    ensures { result ≡ (width_of ty == 64) }
{
    match ty {
        Ty::Void => false,
        Ty::Int(width) => width == 64,
        Ty::Ptr => true,
    }
}

/// Bytes up to the next multiple of 16.
pub fn aligned(bytes: u128) -> u128
    requires { bytes < 2 ^ 127 }
    ensures { result ≡ aligned_to bytes 16 }
{
    bytes + (16 - bytes % 16) % 16
}

impl<'x, 'a> Translator<'x, 'a> {
    /// The operands' literals, and one instruction that reads the operands.
    #[tactic(auto, using(crate::proofs::Put::put_code, crate::proofs::Put::put_pool))]
    pub fn emit_one(
        &mut self,
        operands: &[(Ty, Operand)],
        op: GOp,
        defs: &[u32],
        num: u128,
        to: &[u32],
    ) -> Result<(), NoMemory>
        requires { self.old.pool.next + length operands.now < 2 ^ 32 }
        ensures written { OnOk result (self.new ≡ put_piece self.old (one self.old.globals self.old.pool operands.now op defs.now num to.now)) }
        ensures most { OnOk result (self.new.pool.next ≤ self.old.pool.next + length operands.now) }
    {
        let uses = self.read_all(operands)?;
        self.emit(op, defs, uses.as_slice(), num, to)
    }

    // The address that a number is: one of fewer than 64 bits is extended by zeros first.
    #[tactic(auto, using(crate::proofs::Put::put_code, crate::proofs::Put::put_types, crate::proofs::Put::put_pool))]
    fn emit_address(&mut self, from: Ty, a: Operand, value: u32) -> Result<(), NoMemory>
        requires { self.old.pool.next + 2 < 2 ^ 32 }
        ensures written { OnOk result (self.new ≡ put_piece self.old (address self.old.globals (width_of from == 64) self.old.pool value ((from, a) ∷ []))) }
        ensures most { OnOk result (self.new.pool.next ≤ self.old.pool.next + 2) }
    {
        let read = self.read_all(&[(from, a)])?;
        if is_wide(from) {
            return self.emit(GOp::IntToPtr, &[value], read.as_slice(), 0, &[]);
        }
        let wide = self.take(GType::S(64))?;
        self.emit(GOp::ZExt, &[wide], read.as_slice(), 0, &[])?;
        self.emit(GOp::IntToPtr, &[value], &[wide], 0, &[])
    }

    /// A cast.
    pub fn emit_cast(
        &mut self,
        op: CastOp,
        from: Ty,
        a: Operand,
        value: u32,
    ) -> Result<(), NoMemory>
        requires { self.old.pool.next + 2 < 2 ^ 32 }
        ensures written { OnOk result (self.new ≡ put_piece self.old (cast self.old.globals self.old.pool value from a op)) }
        ensures most { OnOk result (self.new.pool.next ≤ self.old.pool.next + 2) }
    {
        match op {
            CastOp::IntToPtr => self.emit_address(from, a, value),
            CastOp::Trunc => self.emit_one(&[(from, a)], cast_op(op), &[value], 0, &[]),
            CastOp::ZExt => self.emit_one(&[(from, a)], cast_op(op), &[value], 0, &[]),
            CastOp::SExt => self.emit_one(&[(from, a)], cast_op(op), &[value], 0, &[]),
            CastOp::PtrToInt => self.emit_one(&[(from, a)], cast_op(op), &[value], 0, &[]),
            CastOp::Same => self.emit_one(&[(from, a)], cast_op(op), &[value], 0, &[]),
        }
    }

    /// The greater or lesser of two numbers: a comparison, and the choice by it.
    #[tactic(auto, using(crate::proofs::Put::put_code, crate::proofs::Put::put_types, crate::proofs::Put::put_pool, crate::proofs::Put::two_behind))]
    pub fn emit_choice(
        &mut self,
        operands: &[(Ty, Operand)],
        value: u32,
        predicate: u128,
    ) -> Result<(), NoMemory>
        requires { self.old.pool.next + length operands.now + 1 < 2 ^ 32 }
        ensures written { OnOk result (self.new ≡ put_piece self.old (choice self.old.globals self.old.pool value operands.now predicate)) }
        ensures most { OnOk result (self.new.pool.next ≤ self.old.pool.next + length operands.now + 1) }
    {
        let uses = self.read_all(operands)?;
        let bit = self.take(GType::S(1))?;
        self.emit(GOp::Icmp, &[bit], uses.as_slice(), predicate, &[])?;
        let mut chosen = list(self.alloc(), &[bit])?;
        add_all(&mut chosen, uses)?;
        self.emit(GOp::Select, &[value], chosen.as_slice(), 0, &[])
    }

    /// The number without its sign: its negation where it is negative.
    #[tactic(auto, using(crate::proofs::Put::put_code, crate::proofs::Put::put_types, crate::proofs::Put::put_pool, crate::proofs::Put::two_behind, crate::proofs::Put::skip_two))]
    pub fn emit_absolute(&mut self, value: u32, ty: Ty, a: (Ty, Operand)) -> Result<(), NoMemory>
        requires { self.old.pool.next + 4 < 2 ^ 32 }
        ensures written { OnOk result (self.new ≡ put_piece self.old (absolute self.old.globals self.old.pool value ty (a ∷ (ty, Num 0) ∷ []))) }
        ensures most { OnOk result (self.new.pool.next ≤ self.old.pool.next + 4) }
    {
        let uses = self.read_all(&[a, (ty, Operand::Num(0))])?;
        let negative = self.take(type_of(ty))?;
        let bit = self.take(GType::S(1))?;
        self.emit_negated(uses.as_slice(), value, negative, bit)
    }

    // The negation of the first register, where the second holds 0, and the choice by its sign.
    #[tactic(auto, using(crate::proofs::Put::put_code, crate::proofs::Put::put_pool))]
    fn emit_negated(
        &mut self,
        uses: &[u32],
        value: u32,
        negative: u32,
        bit: u32,
    ) -> Result<(), NoMemory>
        requires two { length uses.now ≡ 2 }
        requires bit { bit ≡ negative + 1 }
        ensures written { OnOk result (self.new ≡ put self.old (negated self.old.globals negative value uses.now) [] self.old.pool) }
        ensures same { OnOk result (self.new.pool ≡ self.old.pool) }
    {
        let a = uses[0];
        let none = uses[1];
        self.emit(GOp::Sub, &[negative], &[none, a], 0, &[])?;
        self.emit(GOp::Icmp, &[bit], &[a, none], predicate(Pred::Slt), &[])?;
        self.emit(GOp::Select, &[value], &[bit, negative, a], 0, &[])
    }

    /// A built-in: one that moves bytes, or one that gives this value.
    pub fn emit_built_in(
        &mut self,
        value: u32,
        ty: Ty,
        arguments: &[(Ty, Operand)],
        which: BuiltIn,
    ) -> Result<(), NoMemory>
        requires room { self.old.pool.next + length arguments.now + 4 < 2 ^ 32 }
        requires two { 2 ≤ length arguments.now }
        requires three { moves_bytes which ≡ true → 3 ≤ length arguments.now }
        ensures written { OnOk result (self.new ≡ put_piece self.old (built_in self.old.globals self.old.pool value ty arguments.now which)) }
        ensures most { OnOk result (self.new.pool.next ≤ self.old.pool.next + length arguments.now + 4) }
    {
        match which {
            BuiltIn::MemCpy => self.emit_moved(arguments, GOp::CopyBytes),
            BuiltIn::MemMove => self.emit_moved(arguments, GOp::CopyBytes),
            BuiltIn::MemSet => self.emit_moved(arguments, GOp::FillBytes),
            BuiltIn::Abs => self.emit_absolute(value, ty, arguments[0]),
            BuiltIn::SMax => self.emit_choice(arguments, value, predicate(Pred::Sge)),
            BuiltIn::SMin => self.emit_choice(arguments, value, predicate(Pred::Sle)),
            BuiltIn::UMax => self.emit_choice(arguments, value, predicate(Pred::Uge)),
            BuiltIn::UMin => self.emit_choice(arguments, value, predicate(Pred::Ule)),
        }
    }

    // Bytes that are moved or filled, by the first three arguments.
    fn emit_moved(&mut self, arguments: &[(Ty, Operand)], op: GOp) -> Result<(), NoMemory>
        requires room { self.old.pool.next + 3 < 2 ^ 32 }
        requires three { 3 ≤ length arguments.now }
        ensures written { OnOk result (self.new ≡ put_piece self.old (one self.old.globals self.old.pool (take 3 arguments.now) op [] 0 [])) }
        ensures most { OnOk result (self.new.pool.next ≤ self.old.pool.next + 3) }
    {
        self.emit_one(&arguments[..3], op, &[], 0, &[])
    }

    /// A return of an operand or of nothing.
    pub fn emit_return(&mut self, ret: Ty, answer: Option<Operand>) -> Result<(), NoMemory>
        requires { self.old.pool.next + 1 < 2 ^ 32 }
        ensures written { OnOk result (self.new ≡ put_piece self.old (returned self.old.globals self.old.pool ret answer)) }
        ensures most { OnOk result (self.new.pool.next ≤ self.old.pool.next + 1) }
    {
        match answer {
            Some(a) => self.emit_one(&[(ret, a)], GOp::Return, &[], 0, &[]),
            None => self.emit_one(&[], GOp::Return, &[], 0, &[]),
        }
    }

    /// A call, which gives this value where it has a result.
    pub fn emit_call(
        &mut self,
        value: u32,
        ty: Ty,
        callee: u32,
        arguments: &[(Ty, Operand)],
    ) -> Result<(), NoMemory>
        requires { self.old.pool.next + length arguments.now < 2 ^ 32 }
        ensures written { OnOk result (self.new ≡ put_piece self.old (one self.old.globals self.old.pool arguments.now Call (result_of ty value) 0 (callee ∷ []))) }
        ensures most { OnOk result (self.new.pool.next ≤ self.old.pool.next + length arguments.now) }
    {
        match ty {
            Ty::Void => self.emit_one(arguments, GOp::Call, &[], 0, &[callee]),
            Ty::Int(_) => self.emit_one(arguments, GOp::Call, &[value], 0, &[callee]),
            Ty::Ptr => self.emit_one(arguments, GOp::Call, &[value], 0, &[callee]),
        }
    }
}

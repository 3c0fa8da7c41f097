// Sums of addresses: values of indices are extended, multiplied and added, and the bytes of literal indices at last.
ghost use Rattle.std.specs.Prelude.{◌≡◌, ◌+◌, ◌*◌, ◌%◌, ◌^◌, ◌<◌, ◌≤◌, [], ◌∷◌, ◌++◌, length, map, OnOk, IfOk, IfSome, true, ◌==◌};
ghost use Rattle.ir_core.specs.Layout.{HasSizesWithin};
ghost use Rattle.gmir.specs.declared.code.GOp.TheVariants.{Shl, Mul};
ghost use Rattle.generic_code.specs.Parts.{Bytes, exponent, extended, multiplied, with_literal, left_of, offset, first_register};
ghost use Rattle.ir_translator_emit.specs.Written.{put};
ghost use Rattle.ir_translator_emit.specs.Sums.{addend_of, addends_of_values, put_left, steps, stepped, summed};

use crate::lists::{add_all, list};
use crate::translator::Translator;
use gmir::code::{GOp, GType};
use ir_core::code::Operand;
use ir_core::types::Ty;
use rj_num::NoMemory;

/// A size for each of a value's number, which is read with its sign from a width.
#[derive(Clone, Copy, Drop)]
pub struct Scaled {
    pub width: u32,
    pub number: u32,
    pub size: u64,
}

// The exponent of a power of two.
fn exponent_of(size: u64) -> Option<u32>
    ensures { result ≡ exponent size }
{
    let zeros = size.trailing_zeros();
    if zeros < 64 && size == 1 << zeros {
        Some(zeros)
    } else {
        None
    }
}

/// The first of registers.
pub fn first_of(registers: &[u32]) -> u32
    ensures { result ≡ first_register registers.now }
{
    match registers.get(0) {
        Some(register) => *register,
        None => 0,
    }
}

impl<'x, 'a> Translator<'x, 'a> {
    // A value's number, read with its sign from a width.
    #[tactic(auto, using(crate::proofs::Put::put_code, crate::proofs::Put::put_types, crate::proofs::Put::put_pool, crate::proofs::Put::put_globals, crate::proofs::Put::put_same))]
    fn emit_extended(&mut self, width: u32, number: u32) -> Result<u32, NoMemory>
        requires { self.old.pool.next + 1 < 2 ^ 32 }
        ensures written { OnOk result (self.new ≡ put_left self.old (extended (width == 64) self.old.pool number)) }
        ensures register { IfOk result (λ register. register ≡ (extended (width == 64) self.old.pool number).register) }
        ensures globals { OnOk result (self.new.globals ≡ self.old.globals) }
        ensures pool { OnOk result (self.new.pool ≡ (extended (width == 64) self.old.pool number).pool) }
        ensures most { OnOk result (self.new.pool.next ≤ self.old.pool.next + 1) }
    {
        if width == 64 {
            return Ok(number);
        }
        let wide = self.take(GType::S(64))?;
        self.emit(GOp::SExt, &[wide], &[number], 0, &[])?;
        Ok(wide)
    }

    // A register multiplied by a literal, or shifted by it.
    #[tactic(auto, using(crate::proofs::Put::put_code, crate::proofs::Put::put_types, crate::proofs::Put::put_pool, crate::proofs::Put::put_globals))]
    fn emit_with_literal(&mut self, op: GOp, literal: u64, number: u32) -> Result<u32, NoMemory>
        requires { self.old.pool.next + 2 < 2 ^ 32 }
        ensures written { OnOk result (self.new ≡ put_left self.old (with_literal self.old.globals (op, literal) self.old.pool number)) }
        ensures register { IfOk result (λ register. register ≡ (with_literal self.old.globals (op, literal) self.old.pool number).register) }
        ensures globals { OnOk result (self.new.globals ≡ self.old.globals) }
        ensures pool { OnOk result (self.new.pool ≡ (with_literal self.old.globals (op, literal) self.old.pool number).pool) }
        ensures most { OnOk result (self.new.pool.next ≤ self.old.pool.next + 2) }
    {
        let read = self.read_all(&[(Ty::Int(64), Operand::Num(u128::from(literal)))])?;
        let product = self.take(GType::S(64))?;
        let mut uses = list(self.alloc(), &[number])?;
        add_all(&mut uses, read)?;
        self.emit(op, &[product], uses.as_slice(), 0, &[])?;
        Ok(product)
    }

    // A register multiplied by a size.
    #[tactic(auto, using(crate::proofs::Put::put_same))]
    fn emit_multiplied(&mut self, size: u64, number: u32) -> Result<u32, NoMemory>
        requires { self.old.pool.next + 2 < 2 ^ 32 }
        ensures written { OnOk result (self.new ≡ put_left self.old (multiplied self.old.globals size self.old.pool number)) }
        ensures register { IfOk result (λ register. register ≡ (multiplied self.old.globals size self.old.pool number).register) }
        ensures globals { OnOk result (self.new.globals ≡ self.old.globals) }
        ensures pool { OnOk result (self.new.pool ≡ (multiplied self.old.globals size self.old.pool number).pool) }
        ensures most { OnOk result (self.new.pool.next ≤ self.old.pool.next + 2) }
    {
        if size == 1 {
            return Ok(number);
        }
        match exponent_of(size) {
            Some(bits) => self.emit_with_literal(GOp::Shl, u64::from(bits), number),
            None => self.emit_with_literal(GOp::Mul, size, number),
        }
    }

    // A size for each of a value's number, in a register.
    #[tactic(auto, using(crate::proofs::Put::put_put, crate::proofs::Put::put_pool))]
    fn emit_scaled(&mut self, one: Scaled) -> Result<u32, NoMemory>
        requires { self.old.pool.next + 3 < 2 ^ 32 }
        ensures written { OnOk result (self.new ≡ put_left self.old (left_of self.old.globals (addend_of one) self.old.pool)) }
        ensures register { IfOk result (λ register. register ≡ (left_of self.old.globals (addend_of one) self.old.pool).register) }
        ensures globals { OnOk result (self.new.globals ≡ self.old.globals) }
        ensures most { OnOk result (self.new.pool.next ≤ self.old.pool.next + 3) }
    {
        let wide = self.emit_extended(one.width, one.number)?;
        self.emit_multiplied(one.size, wide)
    }
}

impl<'x, 'a> Translator<'x, 'a> {
    // Adds a size for each of a value's number to an address.
    #[tactic(auto, using(crate::proofs::Put::put_code, crate::proofs::Put::put_types, crate::proofs::Put::put_pool, crate::proofs::Put::put_globals))]
    fn emit_step(&mut self, from: u32, one: Scaled) -> Result<u32, NoMemory>
        requires { self.old.pool.next + 4 < 2 ^ 32 }
        ensures written { OnOk result (self.new ≡ stepped self.old from (left_of self.old.globals (addend_of one) self.old.pool)) }
        ensures register { IfOk result (λ register. register ≡ (left_of self.old.globals (addend_of one) self.old.pool).pool.next) }
        ensures globals { OnOk result (self.new.globals ≡ self.old.globals) }
        ensures most { OnOk result (self.new.pool.next ≤ self.old.pool.next + 4) }
    {
        let left = self.emit_scaled(one)?;
        let to = self.take(GType::P0)?;
        self.emit(GOp::PtrAdd, &[to], &[from, left], 0, &[])?;
        Ok(to)
    }

    // Adds a size for each of values' numbers to an address, one after another.
    fn emit_steps(&mut self, from: u32, all: &[Scaled]) -> Result<u32, NoMemory>
        requires { self.old.pool.next + 4 * length all.now < 2 ^ 32 }
        ensures written { OnOk result (self.new ≡ put_left self.old (steps self.old.globals from self.old.pool (addends_of_values all.now))) }
        ensures register { IfOk result (λ register. register ≡ (steps self.old.globals from self.old.pool (addends_of_values all.now)).register) }
        ensures globals { OnOk result (self.new.globals ≡ self.old.globals) }
        ensures most { OnOk result (self.new.pool.next ≤ self.old.pool.next + 4 * length all.now) }
    {
        let mut address = from;
        for one in all {
            address = self.emit_step(address, *one)?;
        }
        Ok(address)
    }
}

impl<'x, 'a> Translator<'x, 'a> {
    // Bytes, in a register.
    #[tactic(auto, using(crate::proofs::Put::put_pool, crate::proofs::Put::put_globals))]
    fn emit_bytes(&mut self, count: u64) -> Result<u32, NoMemory>
        requires { self.old.pool.next + 1 < 2 ^ 32 }
        ensures written { OnOk result (self.new ≡ put_left self.old (left_of self.old.globals (Bytes count) self.old.pool)) }
        ensures register { IfOk result (λ register. register ≡ (left_of self.old.globals (Bytes count) self.old.pool).register) }
        ensures most { OnOk result (self.new.pool.next ≤ self.old.pool.next + 1) }
    {
        let literal = self.read_all(&[(Ty::Int(64), Operand::Num(u128::from(count)))])?;
        Ok(first_of(literal.as_slice()))
    }

    // What values add to an address, and then bytes.
    fn emit_offset(
        &mut self,
        value: u32,
        from: u32,
        scaled: &[Scaled],
        bytes: u64,
    ) -> Result<(), NoMemory>
        requires { self.old.pool.next + 4 * length scaled.now + 1 < 2 ^ 32 }
        ensures written { OnOk result (self.new ≡ summed self.old value from (addends_of_values scaled.now ++ Bytes bytes ∷ [])) }
        ensures most { OnOk result (self.new.pool.next ≤ self.old.pool.next + 4 * length scaled.now + 1) }
    {
        let address = self.emit_steps(from, scaled)?;
        let left = self.emit_bytes(bytes)?;
        self.emit(GOp::PtrAdd, &[value], &[address, left], 0, &[])
    }

    // What values add to an address, the last apart.
    fn emit_last(
        &mut self,
        value: u32,
        from: u32,
        before: &[Scaled],
        last: Scaled,
    ) -> Result<(), NoMemory>
        requires { self.old.pool.next + 4 * length before.now + 4 < 2 ^ 32 }
        ensures written { OnOk result (self.new ≡ summed self.old value from (addends_of_values before.now ++ addend_of last ∷ [])) }
        ensures most { OnOk result (self.new.pool.next ≤ self.old.pool.next + 4 * length before.now + 4) }
    {
        let address = self.emit_steps(from, before)?;
        let left = self.emit_scaled(last)?;
        self.emit(GOp::PtrAdd, &[value], &[address, left], 0, &[])
    }

    /// What values and bytes add to an address, which gives this value.
    #[tactic(auto, using(crate::proofs::Adding::split_last))]
    pub fn emit_sum(
        &mut self,
        value: u32,
        from: u32,
        scaled: &[Scaled],
        bytes: u64,
    ) -> Result<(), NoMemory>
        requires { self.old.pool.next + 4 * length scaled.now + 4 < 2 ^ 32 }
        ensures written { OnOk result (self.new ≡ summed self.old value from (addends_of_values scaled.now ++ offset bytes)) }
        ensures most { OnOk result (self.new.pool.next ≤ self.old.pool.next + 4 * length scaled.now + 4) }
    {
        if bytes != 0 {
            return self.emit_offset(value, from, scaled, bytes);
        }
        let count = scaled.len();
        if count == 0 {
            return self.emit(GOp::Copy, &[value], &[from], 0, &[]);
        }
        self.emit_last(value, from, &scaled[..count - 1], scaled[count - 1])
    }
}

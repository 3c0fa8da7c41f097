// The code of an instruction that ends a block: a jump, a conditional branch, a switch.
ghost use Rattle.std.specs.Prelude.{◌≡◌, ◌∷◌, [], ◌+◌, ◌*◌, ◌^◌, ◌<◌, ◌≤◌, length, OnOk};
ghost use Rattle.ir_core.specs.declared.code.Op.TheVariants.{CondBr, Switch};
ghost use Rattle.ir_core.specs.Units.{parts_in};
ghost use Rattle.generic_code.specs.Edges.{no_ending, tests, ending_of};
ghost use Rattle.ir_translator_emit.specs.Written.{HasFewPhis};
ghost use Rattle.ir_translator_emit.specs.Jumps.{whole};
ghost use Rattle.ir_translator_emit.specs.Forms.{AreLed, IsLed};

use crate::sums::first_of;
use crate::translator::Translator;
use ir_core::code::{Op, Operand};
use ir_core::types::Ty;
use rj_num::NoMemory;

impl<'x, 'a> Translator<'x, 'a> {
    // The last test of a switch, whose edges go to its case and to the block where none holds.
    #[tactic(auto, using(crate::proofs::Put::put_pool, crate::proofs::Put::put_globals, crate::proofs::Put::put_function, crate::proofs::Put::put_own))]
    fn emit_last_case(
        &mut self,
        from: u32,
        at: u32,
        of: Ty,
        register: u32,
        otherwise: u32,
        case: (u128, u32),
    ) -> Result<(), NoMemory>
        requires to { case.1 < length self.old.function.blocks }
        requires otherwise { otherwise < length self.old.function.blocks }
        requires few { HasFewPhis self.old.function }
        requires room { self.old.pool.next + 32770 < 2 ^ 32 }
        requires own { self.old.own + 2 < 2 ^ 32 }
        ensures written { OnOk result (whole self.new no_ending ≡ whole self.old (tests self.old.globals self.old.function from of register otherwise at self.old.pool self.old.own (case ∷ []))) }
        ensures most { OnOk result (self.new.pool.next ≤ self.old.pool.next + 32770) }
        ensures own { OnOk result (self.new.own ≤ self.old.own + 2) }
    {
        let (number, to) = case;
        let bit = self.emit_test(from, of, register, number)?;
        self.emit_branch(from, at, bit, to, otherwise)
    }
}

impl<'x, 'a> Translator<'x, 'a> {
    // The tests of a register against cases, the first of them in the block under way.
    fn emit_tests(
        &mut self,
        from: u32,
        of: Ty,
        register: u32,
        otherwise: u32,
        cases: &[(u128, u32)],
    ) -> Result<(), NoMemory>
        requires some { 1 ≤ length cases.now }
        requires cases { AreLed (length self.old.function.blocks) cases.now }
        requires otherwise { otherwise < length self.old.function.blocks }
        requires few { HasFewPhis self.old.function }
        requires room { self.old.pool.next + 16386 * length cases.now + 32770 < 2 ^ 32 }
        requires own { self.old.own + 2 * length cases.now + 2 < 2 ^ 32 }
        ensures written { OnOk result (whole self.new no_ending ≡ whole self.old (tests self.old.globals self.old.function from of register otherwise from self.old.pool self.old.own cases.now)) }
        ensures most { OnOk result (self.new.pool.next ≤ self.old.pool.next + 16386 * length cases.now + 32770) }
        ensures own { OnOk result (self.new.own ≤ self.old.own + 2 * length cases.now + 2) }
    {
        let last = cases.len() - 1;
        let mut at = from;
        for place in 0..last {
            at = self.emit_case(from, at, of, register, cases[place])?;
        }
        self.emit_last_case(from, at, of, register, otherwise, cases[last])
    }

    // A conditional branch at the end of a block.
    #[tactic(auto, using(crate::proofs::Put::put_pool, crate::proofs::Put::put_globals, crate::proofs::Put::put_function, crate::proofs::Put::put_own))]
    fn emit_conditional(
        &mut self,
        from: u32,
        condition: Operand,
        if_one: u32,
        if_zero: u32,
    ) -> Result<(), NoMemory>
        requires if_one { if_one < length self.old.function.blocks }
        requires if_zero { if_zero < length self.old.function.blocks }
        requires few { HasFewPhis self.old.function }
        requires room { self.old.pool.next + 32769 < 2 ^ 32 }
        requires own { self.old.own + 2 < 2 ^ 32 }
        ensures written { OnOk result (whole self.new no_ending ≡ whole self.old (ending_of self.old.globals self.old.function from self.old.pool self.old.own (CondBr condition if_one if_zero))) }
        ensures most { OnOk result (self.new.pool.next ≤ self.old.pool.next + 32769) }
        ensures own { OnOk result (self.new.own ≤ self.old.own + 2) }
    {
        let read = self.read_all(&[(Ty::Int(1), condition)])?;
        self.emit_branch(from, from, first_of(read.as_slice()), if_one, if_zero)
    }

    // A switch at the end of a block.
    #[tactic(auto, using(crate::proofs::Put::put_pool, crate::proofs::Put::put_globals, crate::proofs::Put::put_function, crate::proofs::Put::put_own))]
    fn emit_switch(
        &mut self,
        from: u32,
        of: Ty,
        a: Operand,
        otherwise: u32,
        cases: &[(u128, u32)],
    ) -> Result<(), NoMemory>
        requires cases { AreLed (length self.old.function.blocks) cases.now }
        requires otherwise { otherwise < length self.old.function.blocks }
        requires few { HasFewPhis self.old.function }
        requires room { self.old.pool.next + 16386 * length cases.now + 32771 < 2 ^ 32 }
        requires own { self.old.own + 2 * length cases.now + 2 < 2 ^ 32 }
        ensures written { OnOk result (whole self.new no_ending ≡ whole self.old (ending_of self.old.globals self.old.function from self.old.pool self.old.own (Switch of a otherwise cases.now))) }
        ensures most { OnOk result (self.new.pool.next ≤ self.old.pool.next + 16386 * length cases.now + 32771) }
        ensures own { OnOk result (self.new.own ≤ self.old.own + 2 * length cases.now + 2) }
    {
        let read = self.read_all(&[(of, a)])?;
        let register = first_of(read.as_slice());
        if cases.is_empty() {
            return self.emit_jump(from, from, otherwise);
        }
        self.emit_tests(from, of, register, otherwise, cases)
    }

    /// The code of an instruction that takes an edge, at the end of the block of this number.
    pub fn translate_end(&mut self, from: u32, op: &Op) -> Result<(), NoMemory>
        requires led { IsLed (length self.old.function.blocks) op.now }
        requires few { HasFewPhis self.old.function }
        requires room { self.old.pool.next + 16386 * parts_in op.now + 32771 < 2 ^ 32 }
        requires own { self.old.own + 2 * parts_in op.now + 2 < 2 ^ 32 }
        ensures written { OnOk result (whole self.new no_ending ≡ whole self.old (ending_of self.old.globals self.old.function from self.old.pool self.old.own op.now)) }
        ensures most { OnOk result (self.new.pool.next ≤ self.old.pool.next + 16386 * parts_in op.now + 32771) }
        ensures own { OnOk result (self.new.own ≤ self.old.own + 2 * parts_in op.now + 2) }
    {
        match op {
            Op::Br(to) => self.emit_jump(from, from, *to),
            Op::CondBr(condition, if_one, if_zero) => {
                self.emit_conditional(from, *condition, *if_one, *if_zero)
            }
            Op::Switch(of, a, otherwise, cases) => {
                self.emit_switch(from, *of, *a, *otherwise, cases.as_slice())
            }
            _ => Ok(()),
        }
    }
}

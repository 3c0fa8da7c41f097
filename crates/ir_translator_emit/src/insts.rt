// The code of an instruction.
ghost use Rattle.std.specs.Prelude.{◌≡◌, ◌+◌, ◌*◌, ◌^◌, ◌<◌, ◌≤◌, [], ◌∷◌, length, OnOk};
ghost use Rattle.ir_core.specs.declared.types.Ty.TheVariants.{Ptr};
ghost use Rattle.ir_core.specs.Layout.{HasSizesWithin};
ghost use Rattle.ir_core.specs.Units.{parts_in};
ghost use Rattle.ir_flow.specs.Limits.{nodes};
ghost use Rattle.gmir.specs.declared.code.GOp.TheVariants.{TakeData, Trap};
ghost use Rattle.generic_code.specs.Code.{one, part, piece_of};
ghost use Rattle.generic_code.specs.Parts.{addends_of, in_order};
ghost use Rattle.ir_core.specs.Layout.{size, aligned as aligned_to};
ghost use Rattle.ir_translator_emit.specs.Written.{put_piece};
ghost use Rattle.ir_translator_emit.specs.Sums.{AreRead};
ghost use Rattle.ir_translator_emit.specs.Forms.{IsTaken};

use crate::parts::sum_of;
use crate::sums::first_of;
use crate::translator::Translator;
use crate::values::{aligned, binary_op, bits_in_memory, predicate};
use gmir::code::GOp;
use ir_core::code::{Inst, Op, Operand};
use ir_core::layout::size_of;
use ir_core::types::{MemTy, Ty};
use rj_num::NoMemory;

impl<'x, 'a> Translator<'x, 'a> {
    // The address of a part, which gives this value.
    #[tactic(auto, using(crate::proofs::Put::put_put, crate::proofs::Put::put_pool, crate::proofs::Put::put_globals, crate::proofs::Adding::in_their_order))]
    fn emit_part(
        &mut self,
        value: u32,
        base: Operand,
        of: &MemTy,
        indices: &[(Ty, Operand)],
    ) -> Result<(), NoMemory>
        requires indices { AreRead indices.now }
        requires sizes { HasSizesWithin of.now }
        requires few { nodes of.now ≤ 4096 }
        requires room { self.old.pool.next + 5 + 4 * length indices.now < 2 ^ 32 }
        ensures written { OnOk result (self.new ≡ put_piece self.old (part self.old.globals self.old.pool value ((Ptr, base) ∷ []) (in_order (addends_of of.now indices.now)))) }
        ensures most { OnOk result (self.new.pool.next ≤ self.old.pool.next + 5 + 4 * length indices.now) }
    {
        let read = self.read_all(&[(Ty::Ptr, base)])?;
        let sum = sum_of(self.alloc(), of, indices)?;
        self.emit_sum(
            value,
            first_of(read.as_slice()),
            sum.scaled.as_slice(),
            sum.bytes,
        )
    }

    // The address of fresh bytes, which gives this value.
    fn emit_alloca(&mut self, value: u32, of: &MemTy, count: u64) -> Result<(), NoMemory>
        requires sizes { HasSizesWithin of.now }
        requires room { self.old.pool.next < 2 ^ 32 }
        ensures written { OnOk result (self.new ≡ put_piece self.old (one self.old.globals self.old.pool [] TakeData (value ∷ []) (aligned_to (size of.now * count) 16) [])) }
        ensures most { OnOk result (self.new.pool.next ≤ self.old.pool.next) }
    {
        let bytes = u128::from(size_of(of)) * u128::from(count);
        self.emit_one(&[], GOp::TakeData, &[value], aligned(bytes), &[])
    }

    // What is never reached.
    fn emit_trap(&mut self) -> Result<(), NoMemory>
        requires { self.old.pool.next < 2 ^ 32 }
        ensures written { OnOk result (self.new ≡ put_piece self.old (one self.old.globals self.old.pool [] Trap [] 0 [])) }
        ensures most { OnOk result (self.new.pool.next ≤ self.old.pool.next) }
    {
        self.emit_one(&[], GOp::Trap, &[], 0, &[])
    }

    /// The code of an instruction that takes no edge, which gives the value of this number, in a function with this result.
    pub fn translate_inst(&mut self, ret: Ty, value: u32, inst: &Inst) -> Result<(), NoMemory>
        requires taken { IsTaken inst.now.op }
        requires room { self.old.pool.next + 8 + 8 * parts_in inst.now.op < 2 ^ 32 }
        ensures written { OnOk result (self.new ≡ put_piece self.old (piece_of self.old.globals ret value self.old.pool inst.now.gives inst.now.op)) }
        ensures most { OnOk result (self.new.pool.next ≤ self.old.pool.next + 8 + 8 * parts_in inst.now.op) }
    {
        let ty = inst.gives;
        match &inst.op {
            Op::Binary(op, _, a, b) => {
                self.emit_one(&[(ty, *a), (ty, *b)], binary_op(*op), &[value], 0, &[])
            }
            Op::Icmp(pred, _, of, a, b) => self.emit_one(
                &[(*of, *a), (*of, *b)],
                GOp::Icmp,
                &[value],
                predicate(*pred),
                &[],
            ),
            Op::Cast(op, _, from, a) => self.emit_cast(*op, *from, *a, value),
            Op::Select(condition, a, b) => self.emit_one(
                &[(Ty::Int(1), *condition), (ty, *a), (ty, *b)],
                GOp::Select,
                &[value],
                0,
                &[],
            ),
            Op::Freeze(a) => self.emit_one(&[(ty, *a)], GOp::Copy, &[value], 0, &[]),
            Op::Alloca(of, count) => self.emit_alloca(value, of, *count),
            Op::Load(address) => self.emit_one(
                &[(Ty::Ptr, *address)],
                GOp::Load,
                &[value],
                bits_in_memory(ty),
                &[],
            ),
            Op::Store(of, a, address) => self.emit_one(
                &[(*of, *a), (Ty::Ptr, *address)],
                GOp::Store,
                &[],
                bits_in_memory(*of),
                &[],
            ),
            Op::Gep(of, base, indices) => self.emit_part(value, *base, of, indices.as_slice()),
            Op::Call(callee, arguments) => {
                self.emit_call(value, ty, *callee, arguments.as_slice())
            }
            Op::BuiltIn(which, arguments) => {
                self.emit_built_in(value, ty, arguments.as_slice(), *which)
            }
            Op::Ret(answer) => self.emit_return(ret, *answer),
            Op::Phi(_) => self.emit_trap(),
            Op::Br(_) => self.emit_trap(),
            Op::CondBr(_, _, _) => self.emit_trap(),
            Op::Switch(_, _, _, _) => self.emit_trap(),
            Op::Unreachable => self.emit_trap(),
        }
    }
}

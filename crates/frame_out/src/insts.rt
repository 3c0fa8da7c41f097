// The code of instructions.
ghost use Rattle.std.specs.Prelude.{◌≡◌, ◌+◌, ◌^◌, ◌<◌, ◌≤◌, ◌==◌, [], ◌∷◌, ◌++◌, if◌then◌else◌, length, OnOk};
ghost use Rattle.mir.specs.Places.{place_of};
ghost use Rattle.mir.specs.declared.code.MInst.TheVariants.{Return as Returns};
ghost use Rattle.code_pieces.specs.Code.{call_code};
ghost use Rattle.code_pieces.specs.Bytes.{move_code as copy_code, fill_code};
ghost use Rattle.code_pieces.specs.Items.{Goto, Test, plain};
ghost use Rattle.code_pieces.specs.Assembly.{put};
ghost use Rattle.rv_core.specs.declared.reg.Reg.TheVariants.{T0, T1};
ghost use Rattle.frame_code.specs.Code.{held_in, fetch, bytes_code, arguments_code, answer_code, result_code, inst_code, inst_items};
ghost use Rattle.code_emit.specs.Written.{put_code};
ghost use Rattle.frame_out.specs.Ready.{IsNear, AreNear, IsReady, goes_items};

use crate::frames::put_restores;
use crate::memory::{put_give_back, put_take};
use crate::placed::Placed;
use crate::stands::{
    put_bytes, put_fetch, put_imm, put_load, put_load_place, put_move, put_number, put_op,
    put_store, put_store_place, register_of,
};
use code_emit::frame::put_leave;
use code_emit::pieces::{argument_register, put_call_of, put_instr};
use code_emit::{bytes, labels};
use mir::code::MInst;
use mir::places::Place;
use rj_num::NoMemory;
use rv_asm::asm::Asm;
use rv_core::instr::{BranchOp, Instr};
use rv_core::reg::Reg;
use sqlite_items::Items;
use std::alloc::Global;

// A jump from a block, where the other isn't the next one.
#[tactic(auto, using(code_emit::proofs::Put::put_none))]
fn put_goto(asm: &mut Asm, alloc: Global, block: u32, to: u32) -> Result<(), NoMemory>
    requires { block + 1 < 2 ^ 32 }
    ensures { OnOk result (asm.new ≡ put asm.old (if to == block + 1 then [] else Goto to ∷ [])) }
{
    if to == block + 1 {
        return Ok(());
    }
    labels::put_goto(asm, alloc, to)
}

// Two places, tested.
fn put_tested(
    asm: &mut Asm,
    alloc: Global,
    op: BranchOp,
    a: Option<Place>,
    b: Option<Place>,
    to: u32,
) -> Result<(), NoMemory>
    requires a { IsNear a }
    requires b { IsNear b }
    ensures { OnOk result (asm.new ≡ put asm.old (plain (fetch T0 a ++ fetch T1 b) ++ Test op (held_in T0 a) (held_in T1 b) to ∷ [])) }
{
    let (first, second) = (register_of(Reg::T0, a), register_of(Reg::T1, b));
    put_fetch(asm, alloc, Reg::T0, a)?;
    put_fetch(asm, alloc, Reg::T1, b)?;
    labels::put_test(asm, alloc, op, first, second, to)?;
    Ok(())
}

impl Placed<'_> {
    // The arguments of a call into their registers.
    fn put_arguments(&self, asm: &mut Asm, alloc: Global, arguments: &[u32]) -> Result<(), NoMemory>
        requires near { AreNear self.now.places.now arguments.now }
        requires few { length arguments.now ≤ 8 }
        ensures { OnOk result (asm.new ≡ put_code asm.old (arguments_code self.now.function.now self.now.places.now 0 arguments.now)) }
    {
        let mut number = 0;
        for argument in arguments {
            let register = argument_register(number);
            put_load_place(asm, alloc, register, self.at(*argument))?;
            number += 1;
        }
        Ok(())
    }

    // The answer of a call to its place.
    #[tactic(auto, using(code_emit::proofs::Put::code_none))]
    fn put_answer(&self, asm: &mut Asm, alloc: Global, results: &[u32]) -> Result<(), NoMemory>
        requires { AreNear self.now.places.now results.now }
        ensures { OnOk result (asm.new ≡ put_code asm.old (answer_code self.now.function.now self.now.places.now results.now)) }
    {
        if results.is_empty() {
            return Ok(());
        }
        put_store_place(asm, alloc, Reg::A0, self.at(results[0]))
    }

    // A call, with its arguments and its answer.
    #[tactic(auto, using(code_emit::proofs::Put::code_code))]
    fn put_call(
        &self,
        asm: &mut Asm,
        alloc: Global,
        callee: u32,
        arguments: &Items<u32>,
        results: &Items<u32>,
    ) -> Result<(), NoMemory>
        requires callee { callee < 1024 }
        requires few { length arguments.now ≤ 8 }
        requires near { AreNear self.now.places.now arguments.now }
        requires results { AreNear self.now.places.now results.now }
        ensures { OnOk result (asm.new ≡ put_code asm.old (arguments_code self.now.function.now self.now.places.now 0 arguments.now ++ (call_code callee ++ answer_code self.now.function.now self.now.places.now results.now))) }
    {
        self.put_arguments(asm, alloc, arguments.as_slice())?;
        put_call_of(asm, alloc, callee)?;
        self.put_answer(asm, alloc, results.as_slice())
    }

    // Copies bytes.
    #[tactic(auto, using(code_emit::proofs::Put::code_code))]
    fn put_copy(
        &self,
        asm: &mut Asm,
        alloc: Global,
        to: u32,
        from: u32,
        count: u32,
    ) -> Result<(), NoMemory>
        requires to { IsNear (place_of self.now.places.now to) }
        requires from { IsNear (place_of self.now.places.now from) }
        requires count { IsNear (place_of self.now.places.now count) }
        ensures { OnOk result (asm.new ≡ put_code asm.old (bytes_code (place_of self.now.places.now to) (place_of self.now.places.now from) (place_of self.now.places.now count) ++ copy_code)) }
    {
        put_bytes(asm, alloc, self.at(to), self.at(from), self.at(count))?;
        bytes::put_copy(asm, alloc)
    }

    // Fills bytes.
    #[tactic(auto, using(code_emit::proofs::Put::code_code))]
    fn put_fill(
        &self,
        asm: &mut Asm,
        alloc: Global,
        to: u32,
        byte: u32,
        count: u32,
    ) -> Result<(), NoMemory>
        requires to { IsNear (place_of self.now.places.now to) }
        requires byte { IsNear (place_of self.now.places.now byte) }
        requires count { IsNear (place_of self.now.places.now count) }
        ensures { OnOk result (asm.new ≡ put_code asm.old (bytes_code (place_of self.now.places.now to) (place_of self.now.places.now byte) (place_of self.now.places.now count) ++ fill_code)) }
    {
        put_bytes(asm, alloc, self.at(to), self.at(byte), self.at(count))?;
        bytes::put_fill(asm, alloc)
    }

    // The result into a0.
    #[tactic(auto, using(code_emit::proofs::Put::code_none))]
    fn put_result(&self, asm: &mut Asm, alloc: Global, results: &[u32]) -> Result<(), NoMemory>
        requires { AreNear self.now.places.now results.now }
        ensures { OnOk result (asm.new ≡ put_code asm.old (result_code self.now.function.now self.now.places.now results.now)) }
    {
        if results.is_empty() {
            return Ok(());
        }
        put_load_place(asm, alloc, Reg::A0, self.at(results[0]))
    }

    // The result, data memory as it was, the s registers, ra and sp, and the return.
    fn put_return(&self, asm: &mut Asm, alloc: Global, results: &[u32]) -> Result<(), NoMemory>
        requires { AreNear self.now.places.now results.now }
        ensures { OnOk result (asm.new ≡ put_code asm.old (inst_code self.now.function.now self.now.places.now (Returns results.now))) }
    {
        let frame = self.frame();
        self.put_result(asm, alloc, results)?;
        put_give_back(asm, alloc, self.taken)?;
        put_restores(asm, alloc, frame, self.places)?;
        put_leave(asm, alloc, frame)?;
        Ok(())
    }

    // The code of an instruction that doesn't go to a block.
    #[tactic(auto, using(code_emit::proofs::Put::code_none))]
    fn put_work(&self, asm: &mut Asm, alloc: Global, inst: &MInst) -> Result<(), NoMemory>
        requires { IsReady self.now.places.now inst.now }
        ensures { OnOk result (asm.new ≡ put_code asm.old (inst_code self.now.function.now self.now.places.now inst.now)) }
    {
        match inst {
            MInst::Param(d, n) => put_store_place(asm, alloc, argument_register(*n), self.at(*d)),
            MInst::Op(op, d, a, b) => put_op(
                asm,
                alloc,
                *op,
                self.at(*d),
                self.at(*a),
                self.at(*b),
            ),
            MInst::Imm(op, d, a, n) => put_imm(asm, alloc, *op, self.at(*d), self.at(*a), *n),
            MInst::Const(d, n) => put_number(asm, alloc, self.at(*d), *n),
            MInst::Move(d, a) => put_move(asm, alloc, self.at(*d), self.at(*a)),
            MInst::Load(op, d, a, n) => put_load(asm, alloc, *op, self.at(*d), self.at(*a), *n),
            MInst::Store(op, a, b, n) => put_store(asm, alloc, *op, self.at(*a), self.at(*b), *n),
            MInst::Call(callee, arguments, results) => self.put_call(
                asm, alloc, *callee, arguments, results,
            ),
            MInst::TakeData(d, n) => put_take(asm, alloc, self.at(*d), *n, self.function.end),
            MInst::CopyBytes(a, b, n) => self.put_copy(asm, alloc, *a, *b, *n),
            MInst::FillBytes(a, b, n) => self.put_fill(asm, alloc, *a, *b, *n),
            MInst::Return(results) => self.put_return(asm, alloc, results.as_slice()),
            MInst::Trap => put_instr(asm, alloc, Instr::Ebreak),
            MInst::Phi(_, _) | MInst::Branch(_, _, _, _, _) | MInst::Jump(_) => Ok(()),
        }
    }

    // What goes to blocks.
    #[tactic(auto, using(code_emit::proofs::Put::put_none))]
    fn put_goes(
        &self,
        asm: &mut Asm,
        alloc: Global,
        block: u32,
        inst: &MInst,
    ) -> Result<(), NoMemory>
        requires block { block + 1 < 2 ^ 32 }
        requires ready { IsReady self.now.places.now inst.now }
        ensures { OnOk result (asm.new ≡ put asm.old (goes_items self.now.function.now self.now.places.now block inst.now)) }
    {
        match inst {
            MInst::Branch(op, a, b, then, other) => {
                put_tested(asm, alloc, *op, self.at(*a), self.at(*b), *then)?;
                put_goto(asm, alloc, block, *other)?;
                Ok(())
            }
            MInst::Jump(to) => put_goto(asm, alloc, block, *to),
            _ => Ok(()),
        }
    }

    /// The code of an instruction of a block.
    pub fn put_inst(
        &self,
        asm: &mut Asm,
        alloc: Global,
        block: u32,
        inst: &MInst,
    ) -> Result<(), NoMemory>
        requires block { block + 1 < 2 ^ 32 }
        requires ready { IsReady self.now.places.now inst.now }
        ensures { OnOk result (asm.new ≡ put asm.old (inst_items self.now.function.now self.now.places.now block inst.now)) }
    {
        self.put_work(asm, alloc, inst)?;
        self.put_goes(asm, alloc, block, inst)?;
        Ok(())
    }
}

// The code of a block's end: edges with the literals that phis read, branches and switches.
ghost use Rattle.std.specs.Prelude.{◌≡◌, ◌+◌, ◌^◌, ◌<◌, ◌≤◌, length, OnOk, IfOk};
ghost use Rattle.generic_code.specs.Literals.{behind_all};
ghost use Rattle.generic_code.specs.Edges.{case_operand, spare as spare_of, goes_to as goes_to_of};
ghost use Rattle.ir_translator_emit.specs.Written.{HasFewPhis};
ghost use Rattle.ir_translator_emit.specs.Jumps.{jumped, edge_taken, branched, tested, cased};

use crate::lists::{add_all, list};
use crate::translator::Translator;
use gmir::code::{GOp, GType};
use ir_core::code::Operand;
use ir_core::types::Ty;
use rj_num::NoMemory;

impl<'x, 'a> Translator<'x, 'a> {
    // How many blocks an edge of a conditional branch to a block takes.
    fn spare(&self, to: u32) -> u32
        requires { to < length self.now.function.blocks }
        ensures value { result ≡ spare_of self.now.globals self.now.function to }
        ensures most { result ≤ 1 }
    {
        if self.has_no_phis(to) { 0 } else { 1 }
    }

    // Where a conditional branch goes, whose edge would take a block.
    fn goes_to(&self, from: u32, own: u32, to: u32) -> u32
        requires { to < length self.now.function.blocks }
        ensures { result ≡ goes_to_of self.now.globals self.now.function from own to }
    {
        if self.has_no_phis(to) { to } else { own }
    }

    // A jump at a block to another, with the literals of its edge before it.
    #[tactic(auto, unfolding(crate::specs::Jumps::jumped), using(crate::proofs::Put::put_code, crate::proofs::Put::put_pool, crate::proofs::Put::put_globals, crate::proofs::Put::put_function, crate::proofs::Put::put_own, crate::proofs::Put::edge_pool, crate::proofs::Put::edge_own, crate::proofs::Heads::few_reads))]
    pub(crate) fn emit_jump(&mut self, from: u32, at: u32, to: u32) -> Result<(), NoMemory>
        requires to { to < length self.old.function.blocks }
        requires few { HasFewPhis self.old.function }
        requires room { self.old.pool.next + 16384 < 2 ^ 32 }
        ensures written { OnOk result (self.new ≡ jumped self.old.globals self.old.function from self.old at to) }
        ensures most { OnOk result (self.new.pool.next ≤ self.old.pool.next + 16384) }
        ensures own { OnOk result (self.new.own ≡ self.old.own) }
    {
        let operands = self.operands_on(from, to)?;
        let uses = self.read_all(operands.as_slice())?;
        self.emit(GOp::Br, &[], &[], 0, &[to])?;
        self.note_edge(to, at, uses)
    }

    // The edge of a conditional branch at a block to another: in a block of its own, where it leads to phis.
    #[tactic(auto, unfolding(crate::specs::Jumps::edge_taken), using(crate::proofs::Put::begun_globals, crate::proofs::Put::begun_function, crate::proofs::Put::begun_next, crate::proofs::Put::begun_own, crate::proofs::Put::edge_pool, crate::proofs::Put::edge_own))]
    fn emit_edge(&mut self, from: u32, at: u32, to: u32) -> Result<(), NoMemory>
        requires to { to < length self.old.function.blocks }
        requires few { HasFewPhis self.old.function }
        requires room { self.old.pool.next + 16384 < 2 ^ 32 }
        requires own { self.old.own + 1 < 2 ^ 32 }
        ensures written { OnOk result (self.new ≡ edge_taken self.old.globals self.old.function from self.old at to) }
        ensures most { OnOk result (self.new.pool.next ≤ self.old.pool.next + 16384) }
        ensures few { OnOk result (self.new.own ≤ self.old.own + 1) }
    {
        if self.has_no_phis(to) {
            let none = list(self.alloc(), &[])?;
            return self.note_edge(to, at, none);
        }
        let own = self.begin()?;
        self.emit_jump(from, own, to)
    }
}

impl<'x, 'a> Translator<'x, 'a> {
    // A conditional branch at a block on a bit.
    #[tactic(auto, unfolding(crate::specs::Jumps::branched), using(crate::proofs::Put::put_pool, crate::proofs::Put::put_globals, crate::proofs::Put::put_function, crate::proofs::Put::put_own))]
    pub(crate) fn emit_branch(
        &mut self,
        from: u32,
        at: u32,
        bit: u32,
        if_one: u32,
        if_zero: u32,
    ) -> Result<(), NoMemory>
        requires if_one { if_one < length self.old.function.blocks }
        requires if_zero { if_zero < length self.old.function.blocks }
        requires room { self.old.pool.next + 32768 < 2 ^ 32 }
        requires few { HasFewPhis self.old.function }
        requires own { self.old.own + 2 < 2 ^ 32 }
        ensures written { OnOk result (self.new ≡ branched self.old.globals self.old.function from self.old at bit if_one if_zero) }
        ensures most { OnOk result (self.new.pool.next ≤ self.old.pool.next + 32768) }
        ensures own { OnOk result (self.new.own ≤ self.old.own + 2) }
    {
        let own = self.own();
        let first = self.goes_to(from, own, if_one);
        let second = self.goes_to(from, own + self.spare(if_one), if_zero);
        self.emit(GOp::BrCond, &[], &[bit], 0, &[first, second])?;
        self.emit_edge(from, at, if_one)?;
        self.emit_edge(from, at, if_zero)
    }
}

impl<'x, 'a> Translator<'x, 'a> {
    // The test of a register against a number of its type, which gives a bit.
    #[tactic(auto, using(crate::proofs::Put::put_code, crate::proofs::Put::put_types, crate::proofs::Put::put_pool, crate::proofs::Put::put_globals, crate::proofs::Put::put_function, crate::proofs::Put::put_own))]
    pub(crate) fn emit_test(
        &mut self,
        from: u32,
        of: Ty,
        register: u32,
        number: u128,
    ) -> Result<u32, NoMemory>
        requires room { self.old.pool.next + 2 < 2 ^ 32 }
        ensures written { OnOk result (self.new ≡ tested self.old.globals self.old.function from self.old of register number) }
        ensures bit { IfOk result (λ bit. bit ≡ (behind_all self.old.globals self.old.pool (case_operand self.old.globals self.old.function from of number)).next) }
        ensures most { OnOk result (self.new.pool.next ≤ self.old.pool.next + 2) }
    {
        let read = self.read_all(&[(of, Operand::Num(number))])?;
        let bit = self.take(GType::S(1))?;
        let mut uses = list(self.alloc(), &[register])?;
        add_all(&mut uses, read)?;
        self.emit(GOp::Icmp, &[bit], uses.as_slice(), 0, &[])?;
        Ok(bit)
    }

    // The test of a case that isn't the last, and its edge: the block of the next test.
    #[tactic(auto, unfolding(crate::specs::Jumps::cased), using(crate::proofs::Put::put_pool, crate::proofs::Put::put_globals, crate::proofs::Put::put_function, crate::proofs::Put::put_own, crate::proofs::Put::begun_next))]
    pub(crate) fn emit_case(
        &mut self,
        from: u32,
        at: u32,
        of: Ty,
        register: u32,
        case: (u128, u32),
    ) -> Result<u32, NoMemory>
        requires to { case.1 < length self.old.function.blocks }
        requires few { HasFewPhis self.old.function }
        requires room { self.old.pool.next + 16386 < 2 ^ 32 }
        requires own { self.old.own + 2 < 2 ^ 32 }
        ensures written { OnOk result (self.new ≡ cased self.old.globals self.old.function from self.old at of register case.0 case.1) }
        ensures most { OnOk result (self.new.pool.next ≤ self.old.pool.next + 16386) }
        ensures own { OnOk result (self.new.own ≤ self.old.own + 2) }
        ensures next { IfOk result (λ next. next ≡ self.old.own + spare_of self.old.globals self.old.function case.1) }
    {
        let (number, to) = case;
        let own = self.own();
        let first = self.goes_to(from, own, to);
        let next = own + self.spare(to);
        let bit = self.emit_test(from, of, register, number)?;
        self.emit(GOp::BrCond, &[], &[bit], 0, &[first, next])?;
        self.emit_edge(from, at, to)?;
        self.begin()?;
        Ok(next)
    }
}

// What is written of a function, and how it grows.
ghost use Rattle.std.specs.Prelude.{◌≡◌, ◌+◌, ◌^◌, ◌<◌, ◌≤◌, ◌++◌, [], ◌∷◌, None, Some, length, slice_get, OnOk, IfOk};
ghost use Rattle.std.specs.Map.{lookup};
ghost use Rattle.generic_code.specs.Literals.{empty_pool, find, skip, literal, load, loaded, behind, register_of, registers, behind_all, same_literal, scalar_width as scalar_width_of, type_of as type_of_ty, write_register, write_pool, constant};
ghost use Rattle.generic_code.specs.Edges.{no_ending, no_phis, edge_operands};
ghost use Rattle.ir_translator_emit.specs.Jumps.{whole};
ghost use Rattle.ir_translator_emit.specs.Written.{unwritten, without, reads_on as reads_on_edge, heads_of, put, put_inst, put_edge, put_reads, begun};

use crate::edge::Edge;
use crate::lists::{list, push};
use crate::literals::Literals;
use crate::operands::PhiOperands;
use gmir::code::{GInst, GOp, GType};
use ir_core::code::Operand;
use ir_core::program::Function;
use ir_core::types::Ty;
use ir_data::addresses::Places;
use rj_num::NoMemory;
use sqlite_items::Items;
use std::alloc::Global;
use std::marker::Model;
use std::mem::replace;

/// A function on its way to generic machine code: what is read, and what is written so far.
#[derive(Drop)]
pub struct Translator<'x, 'a> {
    alloc: Global,
    globals: &'x Places<'a>,
    function: &'a Function,
    heads: &'x [Items<PhiOperands<'a>>],
    known: Literals,
    code: Items<GInst>,
    types: Items<GType>,
    done: Items<Items<GInst>>,
    own: u32,
    edges: Items<Edge>,
}

impl<'x, 'a> Model for Translator<'x, 'a> {
    ghost use Rattle.std.specs.Prelude.{◌≡◌, length};
    ghost use Rattle.std.specs.Coded.{codes};
    ghost use Rattle.ir_core.specs.contracts.types.MemTy as mem_ty;
    ghost use Rattle.ir_core.specs.contracts.program.Init as init;
    ghost use Rattle.ir_translator_emit.specs.Written.{Written, heads_of};

    ghost Value = { Written };

    ghost coded = { Prim.hlevel (codes, mem_ty.the_row.coded, init.the_row.coded) };

    ghost view = { λ t. record {
      globals = t.globals.now;
      function = t.function.now;
      done = t.done;
      code = t.code;
      types = t.types;
      pool = record { next = length t.types; known = t.known };
      own = t.own;
      edges = t.edges;
    } };

    ghost invariant = { λ t. t.heads.now ≡ heads_of t.function.now };
}

/// The type of the register of a value.
pub fn type_of(ty: Ty) -> GType
    ensures { result ≡ type_of_ty ty }
{
    match ty {
        Ty::Int(width) => GType::S(width),
        Ty::Void | Ty::Ptr => GType::P0,
    }
}

// The width of an integer, 0 for a pointer.
fn scalar_width(ty: Ty) -> u32
    ensures { result ≡ scalar_width_of ty }
{
    match ty {
        Ty::Int(width) => width,
        Ty::Void | Ty::Ptr => 0,
    }
}

// What phis read on the edge from a block, each with its type.
fn reads_on(
    alloc: Global,
    from: u32,
    heads: &[PhiOperands],
) -> Result<Items<(Ty, Operand)>, NoMemory>
    ensures { IfOk result (λ operands. operands ≡ reads_on_edge from heads.now) }
{
    let mut operands = Items::new(alloc);
    for head in heads {
        push(&mut operands, (head.gives(), head.on(from)))?;
    }
    Ok(operands)
}

/// What is written of a function: the types of its registers, the finished blocks and the edges.
#[derive(Drop)]
pub struct Parts {
    pub types: Items<GType>,
    pub blocks: Items<Items<GInst>>,
    pub edges: Items<Edge>,
}

impl<'x, 'a> Translator<'x, 'a> {
    /// Nothing is written yet of a function whose values have registers of these types.
    pub fn new(
        alloc: Global,
        globals: &'x Places<'a>,
        function: &'a Function,
        heads: &'x [Items<PhiOperands<'a>>],
        types: Items<GType>,
    ) -> Translator<'x, 'a>
        requires heads { heads.now ≡ heads_of function.now }
        requires blocks { length function.now.blocks < 2 ^ 32 }
        ensures { result ≡ unwritten globals.now function.now types }
    {
        Translator {
            alloc,
            globals,
            function,
            heads,
            known: Literals::new(alloc),
            code: Items::new(alloc),
            types,
            done: Items::new(alloc),
            own: function.blocks.len() as u32,
            edges: Items::new(alloc),
        }
    }

    /// How many blocks are finished.
    pub fn finished(&self) -> usize
        ensures { result ≡ length self.now.done }
    {
        self.done.len()
    }

    /// Finishes the block under way, and takes the finished block of this place out.
    #[tactic(auto, using(crate::proofs::Put::ended), unfolding(crate::specs::Jumps::whole))]
    pub fn finish(&mut self, at: usize) -> Result<Items<GInst>, NoMemory>
        requires { at ≤ length self.old.done }
        ensures code { IfOk result (λ code. slice_get (whole self.old no_ending).done at ≡ Some code) }
        ensures rest { OnOk result (self.new ≡ without (whole self.old no_ending) at) }
        ensures next { OnOk result (self.new.pool.next ≡ self.old.pool.next) }
        ensures own { OnOk result (self.new.own ≡ self.old.own) }
    {
        let alloc = self.alloc;
        let code = replace(&mut self.code, Items::new(alloc));
        push(&mut self.done, code)?;
        self.known = Literals::new(alloc);
        Ok(self.done.remove(at))
    }

    /// What is written.
    pub fn into_parts(self) -> Parts
        ensures types { result.types ≡ self.entry.types }
        ensures blocks { result.blocks ≡ self.entry.done }
        ensures edges { result.edges ≡ self.entry.edges }
    {
        Parts {
            types: self.types,
            blocks: self.done,
            edges: self.edges,
        }
    }

    /// The first register that is free.
    pub fn next(&self) -> u32
        requires { self.now.pool.next < 2 ^ 32 }
        ensures value { result ≡ self.now.pool.next }
        ensures counted { self.now.pool.next ≡ length self.now.types }
    {
        self.types.len() as u32
    }

    /// The number of the next block behind those of the function.
    pub fn own(&self) -> u32
        ensures { result ≡ self.now.own }
    {
        self.own
    }

    /// The allocator.
    pub fn alloc(&self) -> Global {
        self.alloc
    }

    /// Takes the first register that is free, for a value of a type.
    #[tactic(auto, unfolding(crate::specs::Written::put))]
    pub fn take(&mut self, ty: GType) -> Result<u32, NoMemory>
        requires { self.old.pool.next + 1 < 2 ^ 32 }
        ensures register { IfOk result (λ register. register ≡ self.old.pool.next) }
        ensures written { OnOk result (self.new ≡ put self.old [] (ty ∷ []) (skip 1 self.old.pool)) }
        ensures most { OnOk result (self.new.pool.next ≤ self.old.pool.next + 1) }
    {
        let register = self.types.len() as u32;
        push(&mut self.types, ty)?;
        Ok(register)
    }

    /// Writes an instruction.
    #[tactic(auto, unfolding(crate::specs::Written::put))]
    pub fn emit(
        &mut self,
        op: GOp,
        defs: &[u32],
        uses: &[u32],
        num: u128,
        to: &[u32],
    ) -> Result<(), NoMemory>
        ensures written { OnOk result (self.new ≡ put_inst self.old (record { op = op; defs = defs.now; uses = uses.now; num = num; to = to.now })) }
        ensures same { OnOk result (self.new.pool ≡ self.old.pool) }
    {
        let alloc = self.alloc;
        let inst = GInst {
            op,
            defs: list(alloc, defs)?,
            uses: list(alloc, uses)?,
            num,
            to: list(alloc, to)?,
        };
        push(&mut self.code, inst)
    }

    // Writes a literal that no register holds to the first register that is free.
    #[tactic(auto, unfolding(crate::specs::Written::put))]
    fn write_literal(&mut self, ty: Ty, number: u128) -> Result<u32, NoMemory>
        requires room { self.old.pool.next + 1 < 2 ^ 32 }
        requires fresh { find self.old.pool (scalar_width_of ty, number) ≡ None }
        ensures register { IfOk result (λ register. register ≡ self.old.pool.next) }
        ensures written { OnOk result (self.new ≡ put self.old (constant self.old.pool.next number ∷ []) (type_of_ty ty ∷ []) (write_pool None (scalar_width_of ty, number) self.old.pool)) }
        ensures most { OnOk result (self.new.pool.next ≤ self.old.pool.next + 1) }
    {
        let register = self.types.len() as u32;
        push(&mut self.types, type_of(ty))?;
        self.emit(GOp::Constant, &[register], &[], number, &[])?;
        match self.known.hold(scalar_width(ty), number, register) {
            Ok(()) => Ok(register),
            Err(_) => Err(NoMemory),
        }
    }

    // The register of a literal.
    #[tactic(auto, using(crate::proofs::Put::put_same))]
    fn read_literal(&mut self, ty: Ty, number: u128) -> Result<u32, NoMemory>
        requires { self.old.pool.next + 1 < 2 ^ 32 }
        ensures register { IfOk result (λ register. register ≡ write_register (find self.old.pool (scalar_width_of ty, number)) self.old.pool.next) }
        ensures written { OnOk result (self.new ≡ put self.old (load (Some number) ty self.old.pool) (loaded (Some number) ty self.old.pool) (behind (Some number) ty self.old.pool)) }
        ensures most { OnOk result (self.new.pool.next ≤ self.old.pool.next + 1) }
    {
        match self.known.find(scalar_width(ty), number) {
            Some(register) => Ok(register),
            None => self.write_literal(ty, number),
        }
    }

    /// The register of an operand of a type. A literal that no register holds is written to one.
    #[tactic(auto, using(crate::proofs::Put::put_same))]
    pub fn read(&mut self, ty: Ty, operand: Operand) -> Result<u32, NoMemory>
        requires { self.old.pool.next + 1 < 2 ^ 32 }
        ensures register { IfOk result (λ register. register ≡ register_of operand (literal self.old.globals operand) ty self.old.pool) }
        ensures written { OnOk result (self.new ≡ put self.old (load (literal self.old.globals operand) ty self.old.pool) (loaded (literal self.old.globals operand) ty self.old.pool) (behind (literal self.old.globals operand) ty self.old.pool)) }
        ensures most { OnOk result (self.new.pool.next ≤ self.old.pool.next + 1) }
    {
        match operand {
            Operand::Value(number) => Ok(number),
            Operand::Num(number) => self.read_literal(ty, number),
            Operand::Null | Operand::Poison => self.read_literal(ty, 0),
            Operand::Place(global, offset) => {
                let address = self.globals.address(global, offset);
                self.read_literal(ty, u128::from(address))
            }
        }
    }

    /// The registers of operands, in order.
    pub fn read_all(&mut self, operands: &[(Ty, Operand)]) -> Result<Items<u32>, NoMemory>
        requires { self.old.pool.next + length operands.now < 2 ^ 32 }
        ensures registers { IfOk result (λ all. all ≡ registers self.old.globals self.old.pool operands.now) }
        ensures written { OnOk result (self.new ≡ put_reads self.old operands.now) }
        ensures most { OnOk result (self.new.pool.next ≤ self.old.pool.next + length operands.now) }
    {
        let mut all = Items::new(self.alloc);
        for (ty, operand) in operands {
            let register = self.read(*ty, *operand)?;
            push(&mut all, register)?;
        }
        Ok(all)
    }

    /// Whether no phi stands in a block.
    pub fn has_no_phis(&self, block: u32) -> bool
        requires { block < length self.now.function.blocks }
        ensures { result ≡ no_phis self.now.globals self.now.function block }
    {
        self.heads[block as usize].len() == 0
    }

    /// What the phis of a block read on the edge from another, each with its type.
    pub fn operands_on(&self, from: u32, to: u32) -> Result<Items<(Ty, Operand)>, NoMemory>
        requires { to < length self.now.function.blocks }
        ensures { IfOk result (λ operands. operands ≡ edge_operands self.now.globals self.now.function from to) }
    {
        let heads = self.heads[to as usize].as_slice();
        let operands = reads_on(self.alloc, from, heads)?;
        Ok(operands)
    }

    /// Notes an edge, which the generic block of that number takes, with the registers that phis read on it.
    #[tactic(auto, unfolding(crate::specs::Written::put_edge))]
    pub fn note_edge(&mut self, to: u32, at: u32, uses: Items<u32>) -> Result<(), NoMemory>
        ensures { OnOk result (self.new ≡ put_edge self.old (record { to = to; at = at; uses = uses })) }
    {
        push(&mut self.edges, Edge { to, at, uses })
    }

    /// Finishes the block under way and begins the next, whose number it gives.
    #[tactic(auto, unfolding(crate::specs::Written::begun))]
    pub fn begin(&mut self) -> Result<u32, NoMemory>
        requires { self.old.own + 1 < 2 ^ 32 }
        ensures number { IfOk result (λ number. number ≡ self.old.own) }
        ensures begun { OnOk result (self.new ≡ begun self.old) }
        ensures counted { self.old.pool.next ≡ length self.old.types }
    {
        let alloc = self.alloc;
        let number = self.own;
        let code = replace(&mut self.code, Items::new(alloc));
        push(&mut self.done, code)?;
        self.known = Literals::new(alloc);
        self.own = number + 1;
        Ok(number)
    }
}

// Code with labels, as it is written.

ghost use Rattle.std.specs.Prelude.{◌≡◌, ◌↔◌, IsTrue, ◌≢◌, ◌≤◌, ◌<◌, ◌^◌, ◌++◌, [], ◌∷◌, length, map, IfOk, OnOk, OnErr, Some, None, slice_get, slice_set};
ghost use Rattle.rj_num.specs.Constant.{words_of_constant};
ghost use Rattle.rv_core.specs.Instr.{IsValid};
ghost use Rattle.rv_core.specs.Reg.{number_of};
ghost use Rattle.rv_asm.specs.declared.item.Item.TheVariants.{Plain, BranchTo, JumpTo};
ghost use Rattle.rv_asm.specs.Code.{empty, IsSound, IsCode};
ghost use Rattle.rv_asm.specs.Constant.{const_code, Puts};
ghost use Rattle.rv_asm.specs.Layout.{IsAssembly};
ghost use Rattle.rv_asm.specs.Runs.{RunsAs};

use crate::constant::put_const;
use crate::item::{Item, Label};
use crate::layout::words_of_items;
use rj_num::NoMemory;
use rv_core::instr::{BranchOp, Instr};
use rv_core::reg::Reg;
use std::alloc::Global;
use std::marker::Model;

/// Instructions, branches and jumps in order, and labels between them. It holds at most 2 ^ 29 of them, and more is want
/// of memory.
#[derive(Drop)]
pub struct Asm {
    items: Vec<Item>,
    bound: Vec<Option<u32>>,
}

impl Model for Asm {
    ghost use Rattle.rv_asm.specs.Code.{Code, IsCode};

    ghost Value = { Code };

    ghost view = { λ s. record { items = s.items.items; bound = s.bound.items } };

    ghost invariant = { λ s. IsCode s.items.items };
}

impl Asm {
    /// Code without an item.
    pub fn new(alloc: Global) -> Result<Asm, NoMemory>
        ensures { IfOk result (λ asm. asm ≡ empty) }
    {
        Ok(Asm {
            items: Vec::new(alloc),
            bound: Vec::new(alloc),
        })
    }

    /// A new label, which stands nowhere yet.
    pub fn label(&mut self, _alloc: Global) -> Result<Label, NoMemory>
        ensures number { IfOk result (λ label. label.number ≡ length self.old.bound) }
        ensures added { OnOk result (self.new ≡ record self.old { bound = self.old.bound ++ None ∷ [] }) }
        ensures unchanged { OnErr result (self.new ≡ self.old) }
    {
        match u32::try_from(self.bound.len()) {
            Ok(number) => match self.bound.push(None) {
                Ok(()) => Ok(Label { number }),
                Err(_) => Err(NoMemory),
            },
            Err(_) => Err(NoMemory),
        }
    }

    /// Whether a label is one of this code's, and stands nowhere yet.
    pub fn is_free(&self, label: Label) -> bool
        ensures { IsTrue result ↔ (slice_get self.now.bound label.number ≡ Some None) }
    {
        match self.bound.get(label.number as usize) {
            Some(place) => place.is_none(),
            None => false,
        }
    }

    /// Puts a label before the next item.
    pub fn bind(&mut self, label: Label)
        requires { slice_get self.old.bound label.number ≡ Some None }
        ensures { self.new ≡ record self.old { bound = slice_set self.old.bound label.number (Some (length self.old.items)) } }
    {
        let next = self.items.len() as u32;
        self.bound[label.number as usize] = Some(next);
    }

    /// Appends an instruction.
    pub fn push(&mut self, _alloc: Global, instr: Instr) -> Result<(), NoMemory>
        requires { IsValid instr }
        ensures added { OnOk result (self.new ≡ record self.old { items = self.old.items ++ Plain instr ∷ [] }) }
        ensures unchanged { OnErr result (self.new ≡ self.old) }
    {
        put_item(&mut self.items, Item::Plain(instr))
    }

    /// Appends the instructions that load a constant, of which there are as many as the constant takes.
    pub fn load_const(&mut self, _alloc: Global, reg: Reg, value: u64) -> Result<(), NoMemory>
        ensures added { OnOk result (self.new ≡ record self.old { items = self.old.items ++ map Plain (const_code 3 reg value) }) }
        ensures unchanged { OnErr result (self.new ≡ self.old) }
        ensures words { length (const_code 3 reg value) ≡ words_of_constant value }
        ensures puts { number_of reg ≢ 0 → Puts (const_code 3 reg value) reg value }
    {
        let before = self.items.len();
        let done = put_const(&mut self.items, reg, value, 3);
        if done.is_err() {
            self.items.truncate(before);
        }
        done
    }

    /// Appends a branch to a label.
    pub fn branch(
        &mut self,
        _alloc: Global,
        op: BranchOp,
        a: Reg,
        b: Reg,
        to: Label,
    ) -> Result<(), NoMemory>
        ensures added { OnOk result (self.new ≡ record self.old { items = self.old.items ++ BranchTo op a b to.number ∷ [] }) }
        ensures unchanged { OnErr result (self.new ≡ self.old) }
    {
        put_item(&mut self.items, Item::BranchTo(op, a, b, to.number))
    }

    /// Appends a jump to a label.
    pub fn jump(&mut self, _alloc: Global, to: Label) -> Result<(), NoMemory>
        ensures added { OnOk result (self.new ≡ record self.old { items = self.old.items ++ JumpTo to.number ∷ [] }) }
        ensures unchanged { OnErr result (self.new ≡ self.old) }
    {
        put_item(&mut self.items, Item::JumpTo(to.number))
    }

    /// The words. They run as the code does, wherever they stand.
    pub fn finish(self, alloc: Global) -> Result<Vec<u32>, NoMemory>
        ensures words { IfOk result (λ words. IsAssembly self words.items) }
        ensures runs { IfOk result (λ words. length words.items ≤ 2 ^ 22 → RunsAs self words.items) }
    {
        words_of_items(alloc, &self.items, &self.bound)
    }
}

// Appends an item.
pub fn put_item(items: &mut Vec<Item>, item: Item) -> Result<(), NoMemory>
    requires item { IsSound item }
    requires items { IsCode items.old.items }
    ensures items { IsCode items.new.items }
    ensures added { OnOk result (items.new.items ≡ items.old.items ++ item ∷ []) }
    ensures unchanged { OnErr result (items.new.items ≡ items.old.items) }
{
    if items.len() >= 1 << 29 {
        return Err(NoMemory);
    }
    items.push(item).map_err(|_| NoMemory)
}

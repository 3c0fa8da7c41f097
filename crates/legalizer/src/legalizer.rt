// Instructions of generic machine code in their legal form.
ghost use Rattle.std.specs.Prelude.{◌≡◌, ◌+◌, ◌<◌, ◌^◌, ◌≤◌, ◌++◌, ◌∷◌, [], IfOk, OnOk};
ghost use Rattle.gmir.specs.declared.code.GOp.TheVariants.{Copy};
ghost use Rattle.legal_code.specs.Legal.{mask as mask_of, masked as masked_of, signed as signed_of, extends as extends_of, extended as extended_at, taken as taken_by, extensions, operands as operands_of, taken_all};
ghost use Rattle.legal_code.specs.Legal.{Same, Masks, Extends, before, before_by, last, last_by, spent, spent_by};
ghost use Rattle.legalizer.specs.Extends.{extension_of, IsNarrow, AreNarrow};

use crate::extend::{Extended, extension};
use crate::operands::{copied, copied_and, first_width, push};
use gmir::code::{GInst, GOp, GType};
use rj_num::NoMemory;
use rj_num::width::mask;
use sqlite_items::Items;
use std::alloc::Global;

/// Instructions in their legal form so far, and the first register that isn't taken yet.
#[derive(Drop)]
pub struct Legalizer {
    alloc: Global,
    pub insts: Vec<GInst>,
    pub next: u32,
}

impl Legalizer {
    /// No instructions yet, with new registers from this one on.
    pub fn new(alloc: Global, next: u32) -> Legalizer
        ensures insts { result.insts.items ≡ [] }
        ensures next { result.next ≡ next }
    {
        Legalizer {
            alloc,
            insts: Vec::new(alloc),
            next,
        }
    }

    /// A new register.
    fn fresh(&mut self) -> u32
        requires { self.old.next + 1 < 2 ^ 32 }
        ensures register { result ≡ self.old.next }
        ensures insts { self.new.insts.items ≡ self.old.insts.items }
        ensures next { self.new.next ≡ self.old.next + 1 }
    {
        let register = self.next;
        self.next = register + 1;
        register
    }

    /// Puts an instruction behind the others.
    fn put(&mut self, inst: GInst) -> Result<(), NoMemory>
        ensures insts { OnOk result (self.new.insts.items ≡ self.old.insts.items ++ inst ∷ []) }
        ensures next { OnOk result (self.new.next ≡ self.old.next) }
    {
        match self.insts.push(inst) {
            Ok(()) => Ok(()),
            Err(_) => Err(NoMemory),
        }
    }

    /// Puts an operation on registers into one behind the others.
    fn put_op(&mut self, op: GOp, written: u32, read: &[u32], num: u128) -> Result<(), NoMemory>
        ensures insts { OnOk result (self.new.insts.items ≡ self.old.insts.items ++ record { op = op; defs = written ∷ []; uses = read.now; num = num; to = [] } ∷ []) }
        ensures next { OnOk result (self.new.next ≡ self.old.next) }
    {
        let defs = copied(self.alloc, &[written])?;
        let uses = copied(self.alloc, read)?;
        self.put(GInst {
            op,
            defs,
            uses,
            num,
            to: Items::new(self.alloc),
        })
    }

    /// Puts the ones of a width into a register.
    fn put_mask(&mut self, written: u32, width: u32) -> Result<(), NoMemory>
        requires width { (1 ≤ width) × (width ≤ 64) }
        ensures insts { OnOk result (self.new.insts.items ≡ self.old.insts.items ++ mask_of written width ∷ []) }
        ensures next { OnOk result (self.new.next ≡ self.old.next) }
    {
        self.put_op(GOp::Constant, written, &[], mask(width))
    }

    /// Extends a register of a width by zeros, into the second of two new registers.
    fn put_zeros(&mut self, width: u32, register: u32) -> Result<u32, NoMemory>
        requires width { (1 ≤ width) × (width ≤ 64) }
        requires room { self.old.next + 2 < 2 ^ 32 }
        ensures insts { OnOk result (self.new.insts.items ≡ self.old.insts.items ++ mask_of self.old.next width ∷ masked_of (self.old.next + 1) register self.old.next ∷ []) }
        ensures next { OnOk result (self.new.next ≡ self.old.next + 2) }
        ensures operand { IfOk result (λ operand. operand ≡ self.old.next + 1) }
    {
        let ones = self.fresh();
        let extended = self.fresh();
        self.put_mask(ones, width)?;
        self.put_op(GOp::And, extended, &[register, ones], 0)?;
        Ok(extended)
    }

    /// Extends a register of a width by its sign, into a new register.
    fn put_signs(&mut self, width: u32, register: u32) -> Result<u32, NoMemory>
        requires room { self.old.next + 1 < 2 ^ 32 }
        ensures insts { OnOk result (self.new.insts.items ≡ self.old.insts.items ++ signed_of self.old.next register width ∷ []) }
        ensures next { OnOk result (self.new.next ≡ self.old.next + 1) }
        ensures operand { IfOk result (λ operand. operand ≡ self.old.next) }
    {
        let extended = self.fresh();
        self.put_op(GOp::SExtInReg, extended, &[register], u128::from(width))?;
        Ok(extended)
    }

    /// Extends an operand, and gives where it then stands.
    fn put_extension(&mut self, extended: Extended, register: u32) -> Result<u32, NoMemory>
        requires narrow { IsNarrow extended }
        requires room { self.old.next + taken_by (extension_of extended) < 2 ^ 32 }
        ensures insts { OnOk result (self.new.insts.items ≡ self.old.insts.items ++ extends_of (extension_of extended) register self.old.next) }
        ensures next { OnOk result (self.new.next ≡ self.old.next + taken_by (extension_of extended)) }
        ensures operand { IfOk result (λ operand. operand ≡ extended_at (extension_of extended) register self.old.next) }
    {
        match extended {
            Extended::Kept => Ok(register),
            Extended::ByZeros(width) => self.put_zeros(width, register),
            Extended::BySigns(width) => self.put_signs(width, register),
        }
    }

    /// Extends each operand of an instruction that asks for it, and gives where they then stand.
    fn put_operands(&mut self, types: &[GType], inst: &GInst) -> Result<Items<u32>, NoMemory>
        requires narrow { AreNarrow types.now }
        requires room { self.old.next + taken_all types.now inst.now.op inst.now.num 0 inst.now.uses < 2 ^ 32 }
        ensures insts { OnOk result (self.new.insts.items ≡ self.old.insts.items ++ extensions types.now inst.now.op inst.now.num 0 self.old.next inst.now.uses) }
        ensures next { OnOk result (self.new.next ≡ self.old.next + taken_all types.now inst.now.op inst.now.num 0 inst.now.uses) }
        ensures operands { IfOk result (λ operands. operands ≡ operands_of types.now inst.now.op inst.now.num 0 self.old.next inst.now.uses) }
    {
        let mut operands = Vec::new(self.alloc);
        for (place, register) in inst.uses.as_slice().iter().enumerate() {
            let extended = extension(types, inst, place, *register);
            let operand = self.put_extension(extended, *register)?;
            push(&mut operands, operand)?;
        }
        Ok(Items::from_vec(operands))
    }

    /// Puts an instruction with another operation, other operands and another number behind the others.
    fn put_changed(
        &mut self,
        inst: &GInst,
        op: GOp,
        uses: Items<u32>,
        num: u128,
    ) -> Result<(), NoMemory>
        ensures insts { OnOk result (self.new.insts.items ≡ self.old.insts.items ++ record inst.now { op = op; uses = uses; num = num } ∷ []) }
        ensures next { OnOk result (self.new.next ≡ self.old.next) }
    {
        let defs = copied(self.alloc, inst.defs.as_slice())?;
        let to = copied(self.alloc, inst.to.as_slice())?;
        self.put(GInst {
            op,
            defs,
            uses,
            num,
            to,
        })
    }

    /// Puts an instruction whose operation stays, behind the extensions of its operands.
    fn put_same(&mut self, types: &[GType], inst: &GInst) -> Result<(), NoMemory>
        requires narrow { AreNarrow types.now }
        requires room { self.old.next + spent_by types.now Same inst.now < 2 ^ 32 }
        ensures insts { OnOk result (self.new.insts.items ≡ self.old.insts.items ++ (before_by types.now Same self.old.next inst.now ++ last_by types.now Same self.old.next inst.now ∷ [])) }
        ensures next { OnOk result (self.new.next ≡ self.old.next + spent_by types.now Same inst.now) }
    {
        let operands = self.put_operands(types, inst)?;
        self.put_changed(inst, inst.op, operands, inst.num)
    }

    /// Puts a number that grows by zeros as one under a mask.
    fn put_masked(&mut self, types: &[GType], inst: &GInst) -> Result<(), NoMemory>
        requires narrow { AreNarrow types.now }
        requires room { self.old.next + spent_by types.now Masks inst.now < 2 ^ 32 }
        ensures insts { OnOk result (self.new.insts.items ≡ self.old.insts.items ++ (before_by types.now Masks self.old.next inst.now ++ last_by types.now Masks self.old.next inst.now ∷ [])) }
        ensures next { OnOk result (self.new.next ≡ self.old.next + spent_by types.now Masks inst.now) }
    {
        let ones = self.fresh();
        self.put_mask(ones, first_width(types, inst))?;
        let operands = copied_and(self.alloc, inst.uses.as_slice(), ones)?;
        self.put_changed(inst, GOp::And, operands, inst.num)
    }

    /// Puts a number that grows by its sign as one that is extended within its register.
    fn put_extended(&mut self, types: &[GType], inst: &GInst) -> Result<(), NoMemory>
        requires narrow { AreNarrow types.now }
        ensures insts { OnOk result (self.new.insts.items ≡ self.old.insts.items ++ (before_by types.now Extends self.old.next inst.now ++ last_by types.now Extends self.old.next inst.now ∷ [])) }
        ensures next { OnOk result (self.new.next ≡ self.old.next + spent_by types.now Extends inst.now) }
    {
        let operands = copied(self.alloc, inst.uses.as_slice())?;
        let width = first_width(types, inst);
        self.put_changed(inst, GOp::SExtInReg, operands, u128::from(width))
    }

    /// Puts a number whose new bits are free, or which loses bits, as a copy.
    fn put_copy(&mut self, inst: &GInst) -> Result<(), NoMemory>
        ensures insts { OnOk result (self.new.insts.items ≡ self.old.insts.items ++ record inst.now { op = Copy } ∷ []) }
        ensures next { OnOk result (self.new.next ≡ self.old.next) }
    {
        let operands = copied(self.alloc, inst.uses.as_slice())?;
        self.put_changed(inst, GOp::Copy, operands, inst.num)
    }

    /// Puts an instruction in its legal form behind the others.
    pub fn put_inst(&mut self, types: &[GType], inst: &GInst) -> Result<(), NoMemory>
        requires narrow { AreNarrow types.now }
        requires room { self.old.next + spent types.now inst.now < 2 ^ 32 }
        ensures insts { OnOk result (self.new.insts.items ≡ self.old.insts.items ++ (before types.now self.old.next inst.now ++ last types.now self.old.next inst.now ∷ [])) }
        ensures next { OnOk result (self.new.next ≡ self.old.next + spent types.now inst.now) }
    {
        match inst.op {
            GOp::ZExt => self.put_masked(types, inst),
            GOp::SExt => self.put_extended(types, inst),
            GOp::Trunc => self.put_copy(inst),
            GOp::AnyExt => self.put_copy(inst),
            _ => self.put_same(types, inst),
        }
    }
}

// Code that grows, with its new registers.
ghost use Rattle.std.specs.Prelude.{◌≡◌, ◌+◌, ◌++◌, ◌∷◌, [], ◌<◌, ◌^◌, OnOk};
ghost use Rattle.mir.specs.declared.code.MInst.{MInst};

use mir::code::MInst;
use rj_num::NoMemory;
use std::alloc::Global;

/// The code of a block so far, and the first register that isn't taken yet.
#[derive(Drop)]
pub struct Code {
    pub insts: Vec<MInst>,
    pub next: u32,
}

impl Code {
    /// No code yet, with new registers from this one on.
    pub fn new(alloc: Global, next: u32) -> Code
        ensures insts { result.insts.items ≡ [] }
        ensures next { result.next ≡ next }
    {
        Code {
            insts: Vec::new(alloc),
            next,
        }
    }

    /// Puts an instruction behind the others.
    pub fn put(&mut self, inst: MInst) -> Result<(), NoMemory>
        ensures insts { OnOk result (self.new.insts.items ≡ self.old.insts.items ++ inst ∷ []) }
        ensures next { OnOk result (self.new.next ≡ self.old.next) }
    {
        match self.insts.push(inst) {
            Ok(()) => Ok(()),
            Err(_) => Err(NoMemory),
        }
    }

    /// So many new registers, of which the first is answered.
    pub fn fresh(&mut self, count: u32) -> u32
        requires room { self.now.next + count < 2 ^ 32 }
        ensures first { result ≡ self.old.next }
        ensures insts { self.new.insts.items ≡ self.old.insts.items }
        ensures next { self.new.next ≡ self.old.next + count }
    {
        let first = self.next;
        self.next += count;
        first
    }
}

// One instruction on a hart.
ghost use Rattle.std.specs.Prelude.{◌≡◌, ◌≤◌, ◌<◌, ℕ, length, List, Option};
ghost use Rattle.rv_core.specs.Instr.{IsValid};
ghost use Rattle.rv_core.specs.Step.{view, write};
ghost use Rattle.ir_meaning.specs.Plays.{Meaning};
ghost use Rattle.rv_play.specs.Ending.{Item, do_instr};
ghost use Rattle.hart.specs.Places.{symbol_of_cell};
ghost use Rattle.hart.specs.Standing.{IsFor, IsSameCall, IsAllowed, Serves, machine_of, run_of, next_of};

use crate::bytes::{load_number, size_of_load, size_of_store, store_number};
use crate::hart::{Did, Hart};
use crate::map::{Found, cell_of, find};
use rv_core::instr::{Instr, LoadOp, StoreOp};
use rv_core::reg::Reg;
use rv_core::step::{Stepped, step_instr};

impl Hart {
    /// Does an instruction, and says what it has led to. A fault leaves the registers as they were.
    #[inline(always)]
    pub(crate) fn execute(&mut self, instr: Instr) -> Did
        requires { IsValid instr }
        ensures does { (m : Meaning) → IsFor m self.old → (counted : List ℕ) (pass : List Item) → do_instr m (run_of self.old counted pass) instr ≡ next_of self.new counted pass result }
        ensures keeps { IsSameCall self.old self.new }
        ensures left { self.new.left ≡ self.old.left }
        ensures phase { self.new.phase ≡ self.old.phase }
        ensures allowed { IsAllowed self.old result }
    {
        let pc = self.regs.pc;
        let asked = step_instr(&mut self.regs, instr);
        let did = self.serve(asked);
        if let Did::Fault = did {
            self.regs.pc = pc;
        }
        did
    }

    // Serves what an instruction asks.
    #[inline(always)]
    fn serve(&mut self, asked: Stepped) -> Did
        ensures does { (m : Meaning) → IsFor m self.old → Serves m (machine_of self.old) asked (machine_of self.new) result }
        ensures keeps { IsSameCall self.old self.new }
        ensures left { self.new.left ≡ self.old.left }
        ensures phase { self.new.phase ≡ self.old.phase }
        ensures allowed { IsAllowed self.old result }
    {
        match asked {
            Stepped::Done => Did::On,
            Stepped::Load(op, rd, address) => self.load(op, rd, address),
            Stepped::Store(op, value, address) => self.store(op, value, address),
            Stepped::Call => self.call(),
            Stepped::Break => Did::Fault,
        }
    }

    #[inline(never)]
    fn load(&mut self, op: LoadOp, rd: Reg, address: u64) -> Did
        ensures does { (m : Meaning) → IsFor m self.old → Serves m (machine_of self.old) (Stepped.Load op rd address) (machine_of self.new) result }
        ensures keeps { IsSameCall self.old self.new }
        ensures left { self.new.left ≡ self.old.left }
        ensures phase { self.new.phase ≡ self.old.phase }
        ensures allowed { IsAllowed self.old result }
    {
        match cell_of(op, self.functions, address) {
            Some(symbol) => Did::Cell(rd, symbol),
            None => match find(
                self.bytes.len(),
                self.control.len(),
                address,
                size_of_load(op),
            ) {
                Found::Bytes(place) => {
                    let value = load_number(op, &self.bytes, place);
                    self.regs.write(rd, value);
                    Did::On
                }
                Found::Control(place) => {
                    let value = load_number(op, &self.control, place);
                    self.regs.write(rd, value);
                    Did::On
                }
                Found::Nowhere => Did::Fault,
            },
        }
    }

    #[inline(never)]
    fn store(&mut self, op: StoreOp, value: u64, address: u64) -> Did
        ensures does { (m : Meaning) → IsFor m self.old → Serves m (machine_of self.old) (Stepped.Store op value address) (machine_of self.new) result }
        ensures keeps { IsSameCall self.old self.new }
        ensures left { self.new.left ≡ self.old.left }
        ensures phase { self.new.phase ≡ self.old.phase }
        ensures allowed { IsAllowed self.old result }
    {
        match find(
            self.bytes.len(),
            self.control.len(),
            address,
            size_of_store(op),
        ) {
            Found::Bytes(place) => {
                store_number(op, &mut self.bytes, place, value);
                Did::On
            }
            Found::Control(place) => {
                store_number(op, &mut self.control, place, value);
                Did::On
            }
            Found::Nowhere => Did::Fault,
        }
    }

    // Counts an entry, or ends the call for want of stack, as t0 says.
    #[inline]
    fn call(&mut self) -> Did
        ensures does { (m : Meaning) → IsFor m self.old → Serves m (machine_of self.old) Stepped.Call (machine_of self.new) result }
        ensures keeps { IsSameCall self.old self.new }
        ensures left { self.new.left ≡ self.old.left }
        ensures phase { self.new.phase ≡ self.old.phase }
        ensures allowed { IsAllowed self.old result }
    {
        let symbol = self.regs.read(Reg::T1);
        match self.regs.read(Reg::T0) {
            1 => if symbol < self.functions as u64 {
                Did::Count(symbol as u32)
            } else {
                Did::Fault
            },
            2 => Did::Overflow,
            _ => Did::Fault,
        }
    }
}

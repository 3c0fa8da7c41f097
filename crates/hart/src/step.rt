// One instruction in its form on a hart, with the program counter beside it.
ghost use Rattle.std.specs.Prelude.{◌≡◌, ℕ, Some, MatchOption, IfSome};
ghost use Rattle.rv_core.specs.declared.instr.Instr.{Instr};
ghost use Rattle.rv_core.specs.Step.{view, read, plus};
ghost use Rattle.hart.specs.Steps.{DoesAt, RunsAt, CountsAt};

use crate::bytes::{load_number, size_of_load, size_of_store, store_number};
use crate::form::Form;
use crate::hart::Hart;
use crate::map::{Found, find, is_code};
use rv_core::instr::{BranchOp, ImmOp, LoadOp, RegOp, StoreOp};
use rv_core::reg::Reg;
use rv_core::step::{add_offset, extend_word, in_registers, low_bits, operate, taken};

// The word of the instruction that counts entries.
const ECALL: u32 = 0x73;

impl Hart {
    /// Runs an instruction that stands at an address, and answers the address of the next. None where it is left to be run
    /// otherwise.
    #[inline(always)]
    pub(crate) fn run_form(&mut self, pc: u64, form: Form) -> Option<u64>
        ensures { MatchOption result (self.new ≡ self.old) (RunsAt self.old pc form self.new) }
    {
        match form {
            Form::Lui(rd, field) => Some(self.load_upper(pc, rd, field)),
            Form::Auipc(rd, field) => Some(self.add_upper(pc, rd, field)),
            Form::Jal(rd, offset) => Some(self.jump(pc, rd, offset)),
            Form::Jalr(rd, rs1, offset) => Some(self.jump_to(pc, rd, rs1, offset)),
            Form::Beq(rs1, rs2, offset) => Some(self.branch(pc, BranchOp::Beq, rs1, rs2, offset)),
            Form::Bne(rs1, rs2, offset) => Some(self.branch(pc, BranchOp::Bne, rs1, rs2, offset)),
            Form::Blt(rs1, rs2, offset) => Some(self.branch(pc, BranchOp::Blt, rs1, rs2, offset)),
            Form::Bge(rs1, rs2, offset) => Some(self.branch(pc, BranchOp::Bge, rs1, rs2, offset)),
            Form::Bltu(rs1, rs2, offset) => Some(self.branch(pc, BranchOp::Bltu, rs1, rs2, offset)),
            Form::Bgeu(rs1, rs2, offset) => Some(self.branch(pc, BranchOp::Bgeu, rs1, rs2, offset)),
            Form::Lb(rd, rs1, offset) => self.load_at(pc, LoadOp::Lb, rd, rs1, offset),
            Form::Lh(rd, rs1, offset) => self.load_at(pc, LoadOp::Lh, rd, rs1, offset),
            Form::Lw(rd, rs1, offset) => self.load_at(pc, LoadOp::Lw, rd, rs1, offset),
            Form::Ld(rd, rs1, offset) => self.load_at(pc, LoadOp::Ld, rd, rs1, offset),
            Form::Lbu(rd, rs1, offset) => self.load_at(pc, LoadOp::Lbu, rd, rs1, offset),
            Form::Lhu(rd, rs1, offset) => self.load_at(pc, LoadOp::Lhu, rd, rs1, offset),
            Form::Lwu(rd, rs1, offset) => self.load_at(pc, LoadOp::Lwu, rd, rs1, offset),
            Form::Sb(rs2, rs1, offset) => self.store_at(pc, StoreOp::Sb, rs2, rs1, offset),
            Form::Sh(rs2, rs1, offset) => self.store_at(pc, StoreOp::Sh, rs2, rs1, offset),
            Form::Sw(rs2, rs1, offset) => self.store_at(pc, StoreOp::Sw, rs2, rs1, offset),
            Form::Sd(rs2, rs1, offset) => self.store_at(pc, StoreOp::Sd, rs2, rs1, offset),
            Form::Addi(rd, rs1, number) => Some(self.operate_on(pc, ImmOp::Addi, rd, rs1, number)),
            Form::Slti(rd, rs1, number) => Some(self.operate_on(pc, ImmOp::Slti, rd, rs1, number)),
            Form::Sltiu(rd, rs1, number) => Some(self.operate_on(
                pc,
                ImmOp::Sltiu,
                rd,
                rs1,
                number,
            )),
            Form::Xori(rd, rs1, number) => Some(self.operate_on(pc, ImmOp::Xori, rd, rs1, number)),
            Form::Ori(rd, rs1, number) => Some(self.operate_on(pc, ImmOp::Ori, rd, rs1, number)),
            Form::Andi(rd, rs1, number) => Some(self.operate_on(pc, ImmOp::Andi, rd, rs1, number)),
            Form::Slli(rd, rs1, number) => Some(self.operate_on(pc, ImmOp::Slli, rd, rs1, number)),
            Form::Srli(rd, rs1, number) => Some(self.operate_on(pc, ImmOp::Srli, rd, rs1, number)),
            Form::Srai(rd, rs1, number) => Some(self.operate_on(pc, ImmOp::Srai, rd, rs1, number)),
            Form::Addiw(rd, rs1, number) => Some(self.operate_on(
                pc,
                ImmOp::Addiw,
                rd,
                rs1,
                number,
            )),
            Form::Slliw(rd, rs1, number) => Some(self.operate_on(
                pc,
                ImmOp::Slliw,
                rd,
                rs1,
                number,
            )),
            Form::Srliw(rd, rs1, number) => Some(self.operate_on(
                pc,
                ImmOp::Srliw,
                rd,
                rs1,
                number,
            )),
            Form::Sraiw(rd, rs1, number) => Some(self.operate_on(
                pc,
                ImmOp::Sraiw,
                rd,
                rs1,
                number,
            )),
            Form::Add(rd, rs1, rs2) => Some(self.operate(pc, RegOp::Add, rd, rs1, rs2)),
            Form::Sub(rd, rs1, rs2) => Some(self.operate(pc, RegOp::Sub, rd, rs1, rs2)),
            Form::Sll(rd, rs1, rs2) => Some(self.operate(pc, RegOp::Sll, rd, rs1, rs2)),
            Form::Slt(rd, rs1, rs2) => Some(self.operate(pc, RegOp::Slt, rd, rs1, rs2)),
            Form::Sltu(rd, rs1, rs2) => Some(self.operate(pc, RegOp::Sltu, rd, rs1, rs2)),
            Form::Xor(rd, rs1, rs2) => Some(self.operate(pc, RegOp::Xor, rd, rs1, rs2)),
            Form::Srl(rd, rs1, rs2) => Some(self.operate(pc, RegOp::Srl, rd, rs1, rs2)),
            Form::Sra(rd, rs1, rs2) => Some(self.operate(pc, RegOp::Sra, rd, rs1, rs2)),
            Form::Or(rd, rs1, rs2) => Some(self.operate(pc, RegOp::Or, rd, rs1, rs2)),
            Form::And(rd, rs1, rs2) => Some(self.operate(pc, RegOp::And, rd, rs1, rs2)),
            Form::Mul(rd, rs1, rs2) => Some(self.operate(pc, RegOp::Mul, rd, rs1, rs2)),
            Form::Addw(rd, rs1, rs2) => Some(self.operate(pc, RegOp::Addw, rd, rs1, rs2)),
            Form::Subw(rd, rs1, rs2) => Some(self.operate(pc, RegOp::Subw, rd, rs1, rs2)),
            Form::Sllw(rd, rs1, rs2) => Some(self.operate(pc, RegOp::Sllw, rd, rs1, rs2)),
            Form::Srlw(rd, rs1, rs2) => Some(self.operate(pc, RegOp::Srlw, rd, rs1, rs2)),
            Form::Sraw(rd, rs1, rs2) => Some(self.operate(pc, RegOp::Sraw, rd, rs1, rs2)),
            Form::Mulw(rd, rs1, rs2) => Some(self.operate(pc, RegOp::Mulw, rd, rs1, rs2)),
            Form::Op(op, rd, rs1, rs2) => Some(self.operate(pc, op, rd, rs1, rs2)),
            Form::Other => None,
        }
    }

    #[inline(always)]
    fn load_upper(&mut self, pc: u64, rd: Reg, field: u32) -> u64
        ensures { DoesAt self.old pc (Some (Instr.Lui rd field)) self.new result }
    {
        self.regs.write(rd, extend_word((field as u64) << 12));
        add_offset(pc, 4)
    }

    #[inline(always)]
    fn add_upper(&mut self, pc: u64, rd: Reg, field: u32) -> u64
        ensures { DoesAt self.old pc (Some (Instr.Auipc rd field)) self.new result }
    {
        let value = pc.wrapping_add(extend_word((field as u64) << 12));
        self.regs.write(rd, value);
        add_offset(pc, 4)
    }

    #[inline(always)]
    fn jump(&mut self, pc: u64, rd: Reg, offset: i32) -> u64
        ensures { DoesAt self.old pc (Some (Instr.Jal rd offset)) self.new result }
    {
        self.regs.write(rd, add_offset(pc, 4));
        add_offset(pc, offset)
    }

    #[inline(always)]
    fn jump_to(&mut self, pc: u64, rd: Reg, rs1: Reg, offset: i32) -> u64
        ensures { DoesAt self.old pc (Some (Instr.Jalr rd rs1 offset)) self.new result }
    {
        let target = add_offset(self.regs.read(rs1), offset);
        self.regs.write(rd, add_offset(pc, 4));
        target - target % 2
    }

    #[inline(always)]
    fn branch(&mut self, pc: u64, op: BranchOp, rs1: Reg, rs2: Reg, offset: i32) -> u64
        ensures { DoesAt self.old pc (Some (Instr.Branch op rs1 rs2 offset)) self.new result }
    {
        if taken(op, self.regs.read(rs1), self.regs.read(rs2)) {
            add_offset(pc, offset)
        } else {
            add_offset(pc, 4)
        }
    }

    #[inline(always)]
    fn operate_on(&mut self, pc: u64, op: ImmOp, rd: Reg, rs1: Reg, number: i32) -> u64
        ensures { DoesAt self.old pc (Some (Instr.Imm op rd rs1 number)) self.new result }
    {
        let value = operate(in_registers(op), self.regs.read(rs1), low_bits(number));
        self.regs.write(rd, value);
        add_offset(pc, 4)
    }

    #[inline(always)]
    fn operate(&mut self, pc: u64, op: RegOp, rd: Reg, rs1: Reg, rs2: Reg) -> u64
        ensures { DoesAt self.old pc (Some (Instr.Op op rd rs1 rs2)) self.new result }
    {
        let value = operate(op, self.regs.read(rs1), self.regs.read(rs2));
        self.regs.write(rd, value);
        add_offset(pc, 4)
    }

    // The address that a load or store names.
    #[inline(always)]
    fn address_of(&self, rs1: Reg, offset: i32) -> u64
        ensures { result ≡ plus (read (view self.now.regs) rs1) offset }
    {
        add_offset(self.regs.read(rs1), offset)
    }

    #[inline(always)]
    fn load_at(&mut self, pc: u64, op: LoadOp, rd: Reg, rs1: Reg, offset: i32) -> Option<u64>
        ensures { MatchOption result (self.new ≡ self.old) (DoesAt self.old pc (Some (Instr.Load op rd rs1 offset)) self.new) }
    {
        let address = self.address_of(rs1, offset);
        match find(
            self.bytes.len(),
            self.control.len(),
            address,
            size_of_load(op),
        ) {
            Found::Bytes(place) => {
                let value = load_number(op, &self.bytes, place);
                self.regs.write(rd, value);
                Some(add_offset(pc, 4))
            }
            Found::Control(place) => {
                let value = load_number(op, &self.control, place);
                self.regs.write(rd, value);
                Some(add_offset(pc, 4))
            }
            Found::Nowhere => None,
        }
    }

    #[inline(always)]
    fn store_at(&mut self, pc: u64, op: StoreOp, rs2: Reg, rs1: Reg, offset: i32) -> Option<u64>
        ensures { MatchOption result (self.new ≡ self.old) (DoesAt self.old pc (Some (Instr.Store op rs2 rs1 offset)) self.new) }
    {
        let address = self.address_of(rs1, offset);
        let value = self.regs.read(rs2);
        match find(
            self.bytes.len(),
            self.control.len(),
            address,
            size_of_store(op),
        ) {
            Found::Bytes(place) => {
                store_number(op, &mut self.bytes, place, value);
                Some(add_offset(pc, 4))
            }
            Found::Control(place) => {
                store_number(op, &mut self.control, place, value);
                Some(add_offset(pc, 4))
            }
            Found::Nowhere => None,
        }
    }

    /// The symbol whose entry a word counts, where the call goes on at a code word behind it.
    #[inline(always)]
    pub(crate) fn counted_at(&self, limit: u64, pc: u64, left: u64, word: u32) -> Option<u32>
        ensures { IfSome result (λ symbol. CountsAt self.now limit pc left word symbol) }
    {
        let symbol = self.regs.read(Reg::T1);
        if word == ECALL
            && self.regs.read(Reg::T0) == 1
            && symbol < self.functions as u64
            && left > 0
            && is_code(limit, add_offset(pc, 4))
        {
            Some(symbol as u32)
        } else {
            None
        }
    }
}

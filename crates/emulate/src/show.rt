// What is printed.
ghost use Rattle.std.specs.Prelude.{◌≡◌, IfSome};
ghost use Rattle.rv_core.specs.Instr.{IsValid};

use ir_meaning::calls::Ended;
use rv_core::instr::Instr;
use rv_core::reg::Reg;
use rv_core::step::{Regs, Stepped, step_instr};
use rv_encode::decode::decode;
use rv_encode::encode::encode;
use rv_print::listing::listing;
use rv_print::names::reg_name;
use std::alloc::Global;
use std::io::{self, Write};

// Where the instruction of a step stands.
const PC: u64 = 0x0100_0000;

/// The instruction that a word spells, which is valid.
fn instr_at(word: u32) -> Option<Instr>
    ensures { IfSome result IsValid }
{
    decode(word)
}

/// Prints a word's line, and where what it spells has another word, that word.
pub fn show_spelled(rt: &HostRuntime, alloc: Global, word: u32) -> io::Result<()> {
    match listing(alloc, &[word]) {
        Ok(text) => io::writer(rt).write_all(text.as_slice())?,
        Err(_) => println!(rt; "no memory")?,
    }
    match instr_at(word) {
        Some(instr) => show_other(rt, word, encode(instr)),
        None => Ok(()),
    }
}

fn show_other(rt: &HostRuntime, word: u32, spelled: u32) -> io::Result<()> {
    if spelled == word {
        Ok(())
    } else {
        println!(rt; "spelled {spelled:x}")
    }
}

/// Registers that hold two numbers in a1 and a2, and in every other one its own number in each byte.
fn registers(a1: u64, a2: u64) -> Regs {
    let mut regs = Regs { x: [0; 32], pc: PC };
    for number in 0..32u8 {
        regs.write(
            Reg::from_number(number),
            number as u64 * 0x0101_0101_0101_0101,
        );
    }
    regs.write(Reg::A1, a1);
    regs.write(Reg::A2, a2);
    regs
}

/// Prints each register that an instruction changes, how far the program counter goes, and what is asked of the machine.
pub fn show_step(rt: &HostRuntime, word: u32, a1: u64, a2: u64) -> io::Result<()> {
    match instr_at(word) {
        Some(instr) => {
            let before = registers(a1, a2);
            let mut after = before;
            let asked = step_instr(&mut after, instr);
            show_changes(rt, &before, &after)?;
            show_asked(rt, after.pc, asked)
        }
        None => println!(rt; "word"),
    }
}

fn show_changes(rt: &HostRuntime, before: &Regs, after: &Regs) -> io::Result<()> {
    for number in 0..32u8 {
        let reg = Reg::from_number(number);
        let value = after.read(reg);
        if value != before.read(reg) {
            print!(rt; "{} {value:x}, ", reg_name(reg))?;
        }
    }
    Ok(())
}

fn show_asked(rt: &HostRuntime, pc: u64, asked: Stepped) -> io::Result<()> {
    match asked {
        Stepped::Done => println!(rt; "pc {pc:x}"),
        Stepped::Load(op, rd, address) => {
            println!(rt; "pc {pc:x}, {op:?} {} from {address:x}", reg_name(rd))
        }
        Stepped::Store(op, value, address) => {
            println!(rt; "pc {pc:x}, {op:?} {value:x} to {address:x}")
        }
        Stepped::Call => println!(rt; "pc {pc:x}, call"),
        Stepped::Break => println!(rt; "pc {pc:x}, break"),
    }
}

/// Prints how a call ends.
pub fn show_ended(rt: &HostRuntime, ended: Ended) -> io::Result<()> {
    match ended {
        Ended::Value(value) => println!(rt; "value {value:x}"),
        Ended::Void => println!(rt; "void"),
        Ended::Stack => println!(rt; "stack"),
        Ended::Fuel { spent } => println!(rt; "fuel {spent:x}"),
        Ended::Fault { pc } => println!(rt; "fault {pc:x}"),
    }
}

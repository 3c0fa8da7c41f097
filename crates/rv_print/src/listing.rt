// A line of text for each word.

ghost use Rattle.std.specs.Prelude.{◌≡◌, ◌<◌, ◌++◌, [], ◌∷◌, IfOk, OnOk, codes, string_bytes};
ghost use Rattle.std.specs.Fmt.{signed_decimal};
ghost use Rattle.rv_encode.specs.Reading.{instr_of};
ghost use Rattle.rv_print.specs.Names.{reg_name};
ghost use Rattle.rv_print.specs.Listing.{two_digits, eight_digits, from_base, field_text, spaced, instr_text, spelled_text, line, listing_of};

use crate::names::{branch_name, imm_name, load_name, op_name, reg_name, store_name};
use rj_num::NoMemory;
use rv_core::instr::Instr;
use rv_core::reg::Reg;
use rv_encode::decode::decode;
use std::alloc::Global;
use std::fmt::Write;

/// One line per word: eight hexadecimal digits, the instruction's name, and its operands.
#[tactic(auto, using(crate::proofs::Digits::lines_from))]
pub fn listing(alloc: Global, words: &[u32]) -> Result<Vec<u8>, NoMemory>
    ensures { IfOk result (λ text. text.items ≡ listing_of words.now) }
{
    let mut text = String::new(alloc);
    for word in words {
        put_line(&mut text, *word)?;
    }
    Ok(text.into_bytes())
}

fn put_line(text: &mut String, word: u32) -> Result<(), NoMemory>
    ensures { OnOk result (string_bytes text.new ≡ string_bytes text.old ++ line word) }
{
    put_digits(text, word)?;
    put(text, " ")?;
    put_spelled(text, word)?;
    put(text, "\n")
}

// What the word spells, or that it is a word.
fn put_spelled(text: &mut String, word: u32) -> Result<(), NoMemory>
    ensures { OnOk result (string_bytes text.new ≡ string_bytes text.old ++ spelled_text (instr_of word)) }
{
    match decode(word) {
        Some(instr) => put_instr(text, instr),
        None => put(text, "word"),
    }
}

fn put(text: &mut String, piece: &str) -> Result<(), NoMemory>
    ensures { OnOk result (string_bytes text.new ≡ string_bytes text.old ++ piece.now) }
{
    text.push_str(piece).map_err(|_| NoMemory)
}

// The digits of a word.
fn put_digits(text: &mut String, word: u32) -> Result<(), NoMemory>
    ensures { OnOk result (string_bytes text.new ≡ string_bytes text.old ++ eight_digits word) }
{
    put_byte(text, word >> 24)?;
    put_byte(text, (word >> 16) % 256)?;
    put_byte(text, (word >> 8) % 256)?;
    put_byte(text, word % 256)
}

#[tactic(auto, using(crate::proofs::Digits::two_digits_are))]
fn put_byte(text: &mut String, byte: u32) -> Result<(), NoMemory>
    requires { byte < 256 }
    ensures { OnOk result (string_bytes text.new ≡ string_bytes text.old ++ two_digits byte) }
{
    let high = byte / 16;
    let low = byte % 16;
    write!(text, "{high:x}{low:x}").map_err(|_| NoMemory)
}

fn put_instr(text: &mut String, instr: Instr) -> Result<(), NoMemory>
    ensures { OnOk result (string_bytes text.new ≡ string_bytes text.old ++ instr_text instr) }
{
    match instr {
        Instr::Lui(rd, field) => put_upper(text, "lui", rd, field),
        Instr::Auipc(rd, field) => put_upper(text, "auipc", rd, field),
        Instr::Jal(rd, offset) => put_jump(text, rd, offset),
        Instr::Jalr(rd, rs1, offset) => put_at(text, "jalr", rd, offset, rs1),
        Instr::Branch(op, rs1, rs2, offset) => put_number(text, branch_name(op), rs1, rs2, offset),
        Instr::Load(op, rd, rs1, offset) => put_at(text, load_name(op), rd, offset, rs1),
        Instr::Store(op, rs2, rs1, offset) => put_at(text, store_name(op), rs2, offset, rs1),
        Instr::Imm(op, rd, rs1, number) => put_number(text, imm_name(op), rd, rs1, number),
        Instr::Op(op, rd, rs1, rs2) => put_registers(text, op_name(op), rd, rs1, rs2),
        Instr::Fence => put(text, "fence"),
        Instr::Ecall => put(text, "ecall"),
        Instr::Ebreak => put(text, "ebreak"),
    }
}

fn put_upper(text: &mut String, name: &str, rd: Reg, field: u32) -> Result<(), NoMemory>
    ensures { OnOk result (string_bytes text.new ≡ string_bytes text.old ++ name.now ++ spaced (reg_name rd ∷ field_text field ∷ [])) }
{
    let rd = reg_name(rd);
    write!(text, "{name} {rd},0x{field:x}").map_err(|_| NoMemory)
}

fn put_jump(text: &mut String, rd: Reg, offset: i32) -> Result<(), NoMemory>
    ensures { OnOk result (string_bytes text.new ≡ string_bytes text.old ++ codes "jal" ++ spaced (reg_name rd ∷ signed_decimal offset ∷ [])) }
{
    let rd = reg_name(rd);
    write!(text, "jal {rd},{offset}").map_err(|_| NoMemory)
}

// A register, and an address by an offset from another.
fn put_at(text: &mut String, name: &str, reg: Reg, offset: i32, base: Reg) -> Result<(), NoMemory>
    ensures { OnOk result (string_bytes text.new ≡ string_bytes text.old ++ name.now ++ spaced (reg_name reg ∷ from_base offset base ∷ [])) }
{
    let reg = reg_name(reg);
    let base = reg_name(base);
    write!(text, "{name} {reg},{offset}({base})").map_err(|_| NoMemory)
}

fn put_number(
    text: &mut String,
    name: &str,
    first: Reg,
    second: Reg,
    number: i32,
) -> Result<(), NoMemory>
    ensures { OnOk result (string_bytes text.new ≡ string_bytes text.old ++ name.now ++ spaced (reg_name first ∷ reg_name second ∷ signed_decimal number ∷ [])) }
{
    let first = reg_name(first);
    let second = reg_name(second);
    write!(text, "{name} {first},{second},{number}").map_err(|_| NoMemory)
}

fn put_registers(text: &mut String, name: &str, rd: Reg, rs1: Reg, rs2: Reg) -> Result<(), NoMemory>
    ensures { OnOk result (string_bytes text.new ≡ string_bytes text.old ++ name.now ++ spaced (reg_name rd ∷ reg_name rs1 ∷ reg_name rs2 ∷ [])) }
{
    let rd = reg_name(rd);
    let rs1 = reg_name(rs1);
    let rs2 = reg_name(rs2);
    write!(text, "{name} {rd},{rs1},{rs2}").map_err(|_| NoMemory)
}

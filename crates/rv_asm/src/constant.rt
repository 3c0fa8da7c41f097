// The instructions that load a constant.

ghost use Rattle.std.specs.Prelude.{◌≡◌, ◌==◌, ◌<◌, ◌%◌, ◌-◌, ◌^◌, if◌then◌else◌, [], ◌∷◌, ◌++◌, map, length, take, OnOk, nat_lt, pos, negsuc, true};
ghost use Rattle.rv_core.specs.Instr.{IsValid, Fits12};
ghost use Rattle.rv_asm.specs.declared.item.Item.TheVariants.{Plain};
ghost use Rattle.rv_asm.specs.Code.{IsCode};
ghost use Rattle.rv_asm.specs.Constant.{is_twelve, is_word, high_part, upper, lower, word_code, const_code};

use crate::asm::put_item;
use crate::item::Item;
use rj_num::NoMemory;
use rv_core::instr::{ImmOp, Instr};
use rv_core::reg::Reg;

// Loads a number of 64 bits: its high part first, which is taken at most so many times.
pub fn put_const(items: &mut Vec<Item>, reg: Reg, number: u64, cuts: u8) -> Result<(), NoMemory>
    requires { IsCode items.old.items }
    ensures items { IsCode items.new.items }
    ensures added { OnOk result (items.new.items ≡ items.old.items ++ map Plain (const_code cuts reg number)) }
    ensures kept { take (length items.old.items) items.new.items ≡ items.old.items }
{
    if cuts == 0 || is_word(number) {
        return put_word(items, reg, number);
    }
    put_const(items, reg, high_part_of(number), cuts - 1)?;
    put_item(items, Item::Plain(Instr::Imm(ImmOp::Slli, reg, reg, 12)))?;
    put_low(items, number, add_low_part(reg, number))
}

// Loads a number of 32 bits with its sign.
fn put_word(items: &mut Vec<Item>, reg: Reg, number: u64) -> Result<(), NoMemory>
    requires { IsCode items.old.items }
    ensures items { IsCode items.new.items }
    ensures added { OnOk result (items.new.items ≡ items.old.items ++ map Plain (word_code reg number)) }
    ensures kept { take (length items.old.items) items.new.items ≡ items.old.items }
{
    if is_twelve(number) {
        return put_item(items, Item::Plain(add_small(reg, number)));
    }
    put_item(items, Item::Plain(Instr::Lui(reg, upper_part_of(number))))?;
    put_low(items, number, add_low_word(reg, number))
}

// The instruction that adds a number's low part, where it isn't 0.
fn put_low(items: &mut Vec<Item>, number: u64, instr: Instr) -> Result<(), NoMemory>
    requires instr { IsValid instr }
    requires items { IsCode items.old.items }
    ensures items { IsCode items.new.items }
    ensures added { OnOk result (items.new.items ≡ items.old.items ++ map Plain (if number % 4096 == 0 then [] else instr ∷ [])) }
    ensures kept { take (length items.old.items) items.new.items ≡ items.old.items }
{
    if number % 4096 == 0 {
        Ok(())
    } else {
        put_item(items, Item::Plain(instr))
    }
}

fn add_small(reg: Reg, number: u64) -> Instr
    requires { is_twelve number ≡ true }
    ensures value { result ≡ Instr.Imm ImmOp.Addi reg Reg.X0 (if nat_lt number 2048 then pos number else negsuc (2 ^ 64 - 1 - number)) }
    ensures valid { IsValid result }
{
    Instr::Imm(ImmOp::Addi, reg, Reg::X0, small_number(number))
}

fn add_low_word(reg: Reg, number: u64) -> Instr
    ensures value { result ≡ Instr.Imm ImmOp.Addiw reg reg (lower number) }
    ensures valid { IsValid result }
{
    Instr::Imm(ImmOp::Addiw, reg, reg, low_part_of(number))
}

fn add_low_part(reg: Reg, number: u64) -> Instr
    ensures value { result ≡ Instr.Imm ImmOp.Addi reg reg (lower number) }
    ensures valid { IsValid result }
{
    Instr::Imm(ImmOp::Addi, reg, reg, low_part_of(number))
}

// Whether a number, read with its sign, has twelve bits.
fn is_twelve(number: u64) -> bool
    ensures { result ≡ is_twelve number }
{
    number < 2048 || number >= u64::MAX - 2047
}

// Whether a number, read with its sign, has 32 bits.
fn is_word(number: u64) -> bool
    ensures { result ≡ is_word number }
{
    number < 1 << 31 || number >= u64::MAX - ((1 << 31) - 1)
}

// A number of twelve bits with its sign.
fn small_number(number: u64) -> i32
    requires { is_twelve number ≡ true }
    ensures value { result ≡ (if nat_lt number 2048 then pos number else negsuc (2 ^ 64 - 1 - number)) }
    ensures fits { Fits12 result }
{
    if number < 2048 {
        number as i32
    } else {
        -1 - (u64::MAX - number) as i32
    }
}

// A number's low twelve bits, read with a sign.
pub fn low_part_of(number: u64) -> i32
    ensures value { result ≡ lower number }
    ensures fits { Fits12 result }
{
    let low = (number % 4096) as i32;
    if low < 2048 { low } else { low - 4096 }
}

// The upper 20 of a number's low 32 bits, rounded so that the rest is a signed number of twelve bits.
fn upper_part_of(number: u64) -> u32
    requires { number < 2 ^ 64 - 2048 }
    ensures value { result ≡ upper number % 2 ^ 20 }
    ensures fits { result < 2 ^ 20 }
{
    ((number + 2048) / 4096 % (1 << 20)) as u32
}

// What is left of a number without its low part, moved down.
fn high_part_of(number: u64) -> u64
    requires { number < 2 ^ 64 - 2048 }
    ensures { result ≡ high_part number }
{
    let high = (number + 2048) / 4096;
    if number < 1 << 63 {
        high
    } else {
        high + (u64::MAX - ((1 << 52) - 1))
    }
}

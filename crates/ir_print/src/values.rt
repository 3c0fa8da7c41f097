ghost use Rattle.std.specs.Prelude.{◌≡◌, ◌≤◌, ◌++◌, OnOk, map, slice_get, codes, decimal, if◌then◌else◌};
ghost use Rattle.std.specs.Option.{option_copied};
ghost use Rattle.ir_print_names.specs.Names.{quoted_text};
ghost use Rattle.ir_core.specs.declared.types.MemTy.{out-MemTy};
ghost use Rattle.ir_print.specs.Types.{comma, memory_text};
ghost use Rattle.ir_print_names.specs.Numbers.{number_text};
ghost use Rattle.ir_print.specs.Values.{width_of, width_of_memory, global_of, global_text, place_text, operand_text, typed_text, part_of, list_opening, list_ending, part_text, list_text, init_text};

use crate::types::{comma, lead, memory, tail, ty};
use ir_core::code::Operand;
use ir_core::program::{Global, Init};
use ir_core::types::{MemTy, Ty};
use ir_print_names::{Page, name, number, quoted};
use rj_num::NoMemory;

pub fn width_of(ty: Ty) -> u32
    ensures { result ≡ width_of ty }
{
    match ty {
        Ty::Int(width) => width,
        Ty::Void | Ty::Ptr => 0,
    }
}

#[tactic(auto, using(crate::proofs::Layers::out_int, crate::proofs::Layers::out_ptr, crate::proofs::Layers::out_array, crate::proofs::Layers::out_struct))]
fn width_of_memory(ty: &MemTy) -> u32
    ensures { result ≡ width_of_memory ty.now }
{
    match ty {
        MemTy::Int(width) => *width,
        MemTy::Ptr | MemTy::Array(..) | MemTy::Struct(..) => 0,
    }
}

fn name_of(global: Option<&Global>) -> &[u8]
    ensures { result.now ≡ global_of (option_copied global.entry) }
{
    match global {
        Some(global) => global.name.as_slice(),
        None => &[],
    }
}

/// `@NAME` of a global by its number.
fn global(page: &mut Page, globals: &[Global], number: u32) -> Result<(), NoMemory>
    ensures { OnOk result (page.new ≡ page.old ++ global_text globals.now number) }
{
    page.write(b"@")?;
    name(page, name_of(globals.get(number as usize)))
}

/// The address of a global, and an offset that isn't 0.
fn far_place(page: &mut Page, globals: &[Global], number: u32, offset: u64) -> Result<(), NoMemory>
    ensures { OnOk result (page.new ≡ page.old ++ (codes "getelementptr (i8, ptr " ++ global_text globals.now number ++ codes ", i64 " ++ decimal offset ++ codes ")")) }
{
    page.write(b"getelementptr (i8, ptr ")?;
    global(page, globals, number)?;
    page.write(b", i64 ")?;
    page.number(offset as u128)?;
    page.write(b")")
}

/// The address of a global, and an offset.
fn place(page: &mut Page, globals: &[Global], number: u32, offset: u64) -> Result<(), NoMemory>
    ensures { OnOk result (page.new ≡ page.old ++ place_text globals.now number offset) }
{
    if offset == 0 {
        return global(page, globals, number);
    }
    far_place(page, globals, number, offset)
}

pub fn operand(
    page: &mut Page,
    globals: &[Global],
    ty: Ty,
    operand: Operand,
) -> Result<(), NoMemory>
    ensures { OnOk result (page.new ≡ page.old ++ operand_text globals.now ty operand) }
{
    match operand {
        Operand::Value(value) => local(page, value),
        Operand::Num(n) => number(page, width_of(ty), n),
        Operand::Null => page.write(b"null"),
        Operand::Place(k, offset) => place(page, globals, k, offset),
        Operand::Poison => page.write(b"poison"),
    }
}

fn local(page: &mut Page, value: u32) -> Result<(), NoMemory>
    ensures { OnOk result (page.new ≡ page.old ++ (codes "%v" ++ decimal value)) }
{
    page.write(b"%v")?;
    page.number(value as u128)
}

/// `T V`
pub fn typed(page: &mut Page, globals: &[Global], given: Ty, value: Operand) -> Result<(), NoMemory>
    ensures { OnOk result (page.new ≡ page.old ++ typed_text globals.now given value) }
{
    ty(page, given)?;
    page.write(b" ")?;
    operand(page, globals, given, value)
}

/// `c"..."`
fn text(page: &mut Page, bytes: &[u8]) -> Result<(), NoMemory>
    ensures { OnOk result (page.new ≡ page.old ++ (codes "c" ++ quoted_text bytes.now)) }
{
    page.write(b"c")?;
    quoted(page, bytes)
}

/// The type of a value of a list by its number, as the type of the list asks.
#[tactic(auto, using(crate::proofs::Layers::out_int, crate::proofs::Layers::out_ptr, crate::proofs::Layers::out_array, crate::proofs::Layers::out_struct))]
fn part_of(ty: &MemTy, number: usize) -> Option<&MemTy>
    ensures { option_copied result ≡ part_of (out-MemTy ty.now) number }
{
    match ty {
        MemTy::Array(_, element) => Some(element.get()),
        MemTy::Struct(fields, _) => fields.get(number),
        MemTy::Int(_) | MemTy::Ptr => None,
    }
}

/// What opens a list as the value of a type.
#[tactic(auto, using(crate::proofs::Layers::out_int, crate::proofs::Layers::out_ptr, crate::proofs::Layers::out_array, crate::proofs::Layers::out_struct))]
fn list_opening(page: &mut Page, ty: &MemTy, is_empty: bool) -> Result<(), NoMemory>
    ensures { OnOk result (page.new ≡ page.old ++ list_opening (out-MemTy ty.now) is_empty) }
{
    match ty {
        MemTy::Array(..) => page.write(b"["),
        MemTy::Struct(_, is_packed) => lead(page, *is_packed, is_empty),
        MemTy::Int(_) | MemTy::Ptr => Ok(()),
    }
}

/// What closes a list as the value of a type.
#[tactic(auto, using(crate::proofs::Layers::out_int, crate::proofs::Layers::out_ptr, crate::proofs::Layers::out_array, crate::proofs::Layers::out_struct))]
fn list_ending(page: &mut Page, ty: &MemTy, is_empty: bool) -> Result<(), NoMemory>
    ensures { OnOk result (page.new ≡ page.old ++ list_ending (out-MemTy ty.now) is_empty) }
{
    match ty {
        MemTy::Array(..) => page.write(b"]"),
        MemTy::Struct(_, is_packed) => tail(page, *is_packed, is_empty),
        MemTy::Int(_) | MemTy::Ptr => Ok(()),
    }
}

/// A comma before each part but the first, and the part's type.
fn part_lead(page: &mut Page, ty: &MemTy, number: usize) -> Result<(), NoMemory>
    ensures { OnOk result (page.new ≡ page.old ++ (comma number ++ memory_text ty.now ++ codes " ")) }
{
    comma(page, number)?;
    memory(page, ty)?;
    page.write(b" ")
}

/// An initial value of a type.
#[cycle(init)]
#[tactic(auto, using(crate::proofs::Layers::init_num, crate::proofs::Layers::init_null, crate::proofs::Layers::init_zero, crate::proofs::Layers::init_place, crate::proofs::Layers::init_bytes, crate::proofs::Layers::init_list))]
pub fn init(page: &mut Page, globals: &[Global], init: &Init, ty: &MemTy) -> Result<(), NoMemory>
    ensures { OnOk result (page.new ≡ page.old ++ init_text globals.now init.now ty.now) }
{
    match init {
        Init::Num(n) => number(page, width_of_memory(ty), *n),
        Init::Null => page.write(b"null"),
        Init::Zero => page.write(b"zeroinitializer"),
        Init::Place(k, offset) => place(page, globals, *k, *offset),
        Init::Bytes(bytes) => text(page, bytes.as_slice()),
        Init::List(items) => list(page, globals, items.as_slice(), ty),
    }
}

/// A list as the value of an array or a struct.
#[cycle(init)]
fn list(page: &mut Page, globals: &[Global], items: &[Init], ty: &MemTy) -> Result<(), NoMemory>
    ensures { OnOk result (page.new ≡ page.old ++ list_text (out-MemTy ty.now) (map (init_text globals.now) items.now)) }
{
    list_opening(page, ty, items.is_empty())?;
    for (index, item) in items.iter().enumerate() {
        part(page, globals, item, part_of(ty, index), index)?;
    }
    list_ending(page, ty, items.is_empty())
}

/// A part of a list by its number, where the type of the list asks for one.
#[cycle(init)]
fn part(
    page: &mut Page,
    globals: &[Global],
    item: &Init,
    given: Option<&MemTy>,
    number: usize,
) -> Result<(), NoMemory>
    ensures { OnOk result (page.new ≡ page.old ++ part_text (option_copied given.entry) number (init_text globals.now item.now)) }
{
    match given {
        Some(ty) => {
            part_lead(page, ty, number)?;
            init(page, globals, item, ty)
        }
        None => Ok(()),
    }
}

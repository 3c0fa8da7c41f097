ghost use Rattle.std.specs.Prelude.{◌≡◌, ◌++◌, OnOk, codes, decimal, nat_eq, length};
ghost use Rattle.ir_print.specs.Types.{integer_text, ty_text, opening, ending, opening_of, ending_of, comma, listed, memory_text};

use ir_core::types::{MemTy, Ty};
use ir_print_names::Page;
use rj_num::NoMemory;

pub fn integer(page: &mut Page, width: u32) -> Result<(), NoMemory>
    ensures { OnOk result (page.new ≡ page.old ++ integer_text width) }
{
    page.write(b"i")?;
    page.number(width as u128)
}

/// The type of a value.
pub fn ty(page: &mut Page, ty: Ty) -> Result<(), NoMemory>
    ensures { OnOk result (page.new ≡ page.old ++ ty_text ty) }
{
    match ty {
        Ty::Void => page.write(b"void"),
        Ty::Int(width) => integer(page, width),
        Ty::Ptr => page.write(b"ptr"),
    }
}

/// What opens a struct.
fn opening(page: &mut Page, is_packed: bool) -> Result<(), NoMemory>
    ensures { OnOk result (page.new ≡ page.old ++ opening is_packed) }
{
    if is_packed {
        page.write(b"<{")
    } else {
        page.write(b"{")
    }
}

/// What closes a struct.
fn ending(page: &mut Page, is_packed: bool) -> Result<(), NoMemory>
    ensures { OnOk result (page.new ≡ page.old ++ ending is_packed) }
{
    if is_packed {
        page.write(b"}>")
    } else {
        page.write(b"}")
    }
}

/// What opens a struct: a blank stands behind it where the struct has parts.
pub fn lead(page: &mut Page, is_packed: bool, is_empty: bool) -> Result<(), NoMemory>
    ensures { OnOk result (page.new ≡ page.old ++ opening_of is_packed is_empty) }
{
    opening(page, is_packed)?;
    if is_empty {
        return Ok(());
    }
    page.write(b" ")
}

/// What closes a struct: a blank stands before it where the struct has parts.
pub fn tail(page: &mut Page, is_packed: bool, is_empty: bool) -> Result<(), NoMemory>
    ensures { OnOk result (page.new ≡ page.old ++ ending_of is_packed is_empty) }
{
    if is_empty {
        return ending(page, is_packed);
    }
    page.write(b" ")?;
    ending(page, is_packed)
}

/// A comma before each item but the first.
pub fn comma(page: &mut Page, number: usize) -> Result<(), NoMemory>
    ensures { OnOk result (page.new ≡ page.old ++ comma number) }
{
    if number == 0 {
        return Ok(());
    }
    page.write(b", ")
}

/// `[N x `
fn array_lead(page: &mut Page, count: u64) -> Result<(), NoMemory>
    ensures { OnOk result (page.new ≡ page.old ++ (codes "[" ++ decimal count ++ codes " x ")) }
{
    page.write(b"[")?;
    page.number(count as u128)?;
    page.write(b" x ")
}

/// A type by which memory is laid out.
#[cycle(memory)]
#[tactic(auto, using(crate::proofs::Layers::memory_int, crate::proofs::Layers::memory_ptr, crate::proofs::Layers::memory_array, crate::proofs::Layers::memory_struct))]
pub fn memory(page: &mut Page, ty: &MemTy) -> Result<(), NoMemory>
    ensures { OnOk result (page.new ≡ page.old ++ memory_text ty.now) }
{
    match ty {
        MemTy::Int(width) => integer(page, *width),
        MemTy::Ptr => page.write(b"ptr"),
        MemTy::Array(count, element) => {
            array_lead(page, *count)?;
            memory(page, element.get())?;
            page.write(b"]")
        }
        MemTy::Struct(fields, is_packed) => structure(page, fields.as_slice(), *is_packed),
    }
}

/// A struct of these fields.
#[cycle(memory)]
fn structure(page: &mut Page, fields: &[MemTy], is_packed: bool) -> Result<(), NoMemory>
    ensures { OnOk result (page.new ≡ page.old ++ (opening_of is_packed (nat_eq (length fields.now) 0) ++ listed memory_text 0 fields.now ++ ending_of is_packed (nat_eq (length fields.now) 0))) }
{
    lead(page, is_packed, fields.is_empty())?;
    for (index, field) in fields.iter().enumerate() {
        comma(page, index)?;
        memory(page, field)?;
    }
    tail(page, is_packed, fields.is_empty())
}

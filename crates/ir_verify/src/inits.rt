// What globals hold at first, against their types.
ghost use Rattle.std.specs.Prelude.{◌≡◌, length, map, replicate};
ghost use Rattle.ir_verify.specs.Ranges.{all_fit, items_fit as items_fit_type, number_fits as number_fits_memory, is_pointer as is_pointer_type, is_byte as is_byte_type, bytes_fit as bytes_fit_type, init_fits as init_fits_type, is_global as is_global_there, all_globals as all_globals_there};

use crate::ranges::{has_memory_widths, number_fits};
use ir_core::program::{Global, Init, Module};
use ir_core::types::{MemTy, Ty};

fn number_fits_type(n: u128, ty: &MemTy) -> bool
    ensures { result ≡ number_fits_memory n ty.now }
{
    match ty {
        MemTy::Int(width) => number_fits(n, Ty::Int(*width)),
        _ => false,
    }
}

fn is_pointer(ty: &MemTy) -> bool
    ensures { result ≡ is_pointer_type ty.now }
{
    match ty {
        MemTy::Ptr => true,
        _ => false,
    }
}

fn is_byte(ty: &MemTy) -> bool
    ensures { result ≡ is_byte_type ty.now }
{
    match ty {
        MemTy::Int(width) => *width == 8,
        _ => false,
    }
}

/// Bytes fill an array of so many integers of 8 bits.
fn bytes_fit(count: usize, ty: &MemTy) -> bool
    ensures { result ≡ bytes_fit_type count ty.now }
{
    match ty {
        MemTy::Array(n, element) => *n == count as u64 && is_byte(element.get()),
        _ => false,
    }
}

/// A first value fits a type, in a module of so many globals.
#[cycle(inits)]
fn init_fits(globals: usize, init: &Init, ty: &MemTy) -> bool
    ensures { result ≡ init_fits_type globals init.now ty.now }
{
    match init {
        Init::Num(n) => number_fits_type(*n, ty),
        Init::Null => is_pointer(ty),
        Init::Zero => true,
        Init::Place(global, _) => (*global as usize) < globals && is_pointer(ty),
        Init::Bytes(bytes) => bytes_fit(bytes.len(), ty),
        Init::List(items) => items_fit(globals, items.as_slice(), ty),
    }
}

/// Items fit the elements of an array, or the fields of a struct.
#[cycle(inits)]
fn items_fit(globals: usize, items: &[Init], ty: &MemTy) -> bool
    ensures { result ≡ items_fit_type (map (init_fits_type globals) items.now) ty.now }
{
    match ty {
        MemTy::Int(_) | MemTy::Ptr => false,
        MemTy::Array(count, element) => items.len() as u64 == *count
            && elements_fit(globals, items, element.get()),
        MemTy::Struct(fields, _) => fields_fit(globals, items, fields.as_slice()),
    }
}

#[cycle(inits)]
fn elements_fit(globals: usize, items: &[Init], element: &MemTy) -> bool
    ensures { result ≡ all_fit (map (init_fits_type globals) items.now) (replicate (length items.now) element.now) }
{
    for item in items {
        if !init_fits(globals, item, element) {
            return false;
        }
    }
    true
}

#[cycle(inits)]
fn fields_fit(globals: usize, items: &[Init], fields: &[MemTy]) -> bool
    ensures { result ≡ all_fit (map (init_fits_type globals) items.now) fields.now }
{
    if items.len() != fields.len() {
        return false;
    }
    for i in 0..items.len() {
        if !init_fits(globals, &items[i], &fields[i]) {
            return false;
        }
    }
    true
}

fn is_global(globals: usize, global: &Global) -> bool
    ensures { result ≡ is_global_there globals global.now }
{
    has_memory_widths(&global.ty) && init_fits(globals, &global.init, &global.ty)
}

/// Each global has a type that stands in memory, and a first value that fits it.
pub fn all_globals(all: &Module) -> bool
    ensures { result ≡ all_globals_there (length all.now.globals) all.now.globals }
{
    let count = all.globals.len();
    for global in all.globals.as_slice() {
        if !is_global(count, global) {
            return false;
        }
    }
    true
}

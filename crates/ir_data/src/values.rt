// What globals hold at first, byte by byte.
ghost use Rattle.std.specs.Prelude.{◌≡◌, ◌+◌, ◌-◌, ◌*◌, ◌^◌, ◌<◌, ◌≤◌, ◌++◌, length, map, Some, IfOk, OnOk};
ghost use Rattle.ir_core.specs.Layout.{align, size, field_start as field_start_of, HasSizesWithin};
ghost use Rattle.ir_meaning.specs.Image.{elements, fields_from, filled, initial, place_address, zeros};
ghost use Rattle.ir_data.specs.Image.{AreElements, AreFields, IsField, IsWritable, fillings, places_from};
ghost use Rattle.ir_meaning.specs.Memory.{data_start};

use crate::bytes::{push_number, push_text, push_zeros};
use ir_core::layout::{Extent, size_of};
use ir_core::program::{Global as GlobalItem, Init};
use ir_core::types::MemTy;
use ir_flow::sizes::measure_of;
use sqlite_items::Items;
use std::alloc::AllocError;

/// The address of a global's byte, modulo two to 64.
fn place_of(globals: &[GlobalItem], places: &[u64], global: u32, offset: u64) -> u64
    requires exists { global < length globals.now }
    requires places { places.now ≡ places_from data_start globals.now }
    ensures { result ≡ place_address globals.now global offset }
{
    places[global as usize].wrapping_add(offset)
}

/// Where a field begins, whose alignment this is: packed fields follow one another.
pub fn field_start(packed: bool, place: u64, align: u64) -> u64
    requires align { 0 < align }
    requires fits { place + align < 2 ^ 64 }
    ensures value { result ≡ field_start_of packed place align }
    ensures grows { (place ≤ result) × (result < place + align) }
{
    if packed {
        place
    } else {
        place + (align - place % align) % align
    }
}

/// Adds a first value of a type that it fits.
#[cycle(initial)]
pub fn push_init(
    bytes: &mut Items<u8>,
    globals: &[GlobalItem],
    places: &[u64],
    init: &Init,
    ty: &MemTy,
) -> Result<(), AllocError>
    requires { IsWritable globals.now places.now init.now ty.now }
    ensures value { OnOk result (map Some bytes.new ≡ map Some bytes.old ++ initial globals.now ty.now init.now) }
    ensures more { OnOk result (length bytes.new ≡ length bytes.old + size ty.now) }
{
    match init {
        Init::Num(n) => push_number(bytes, size_of(ty), *n),
        Init::Null | Init::Zero => push_zeros(bytes, size_of(ty)),
        Init::Place(global, offset) => {
            let address = place_of(globals, places, *global, *offset);
            push_number(bytes, size_of(ty), u128::from(address))
        }
        Init::Bytes(text) => push_text(bytes, text.as_slice()),
        Init::List(items) => push_items(bytes, globals, places, items.as_slice(), ty),
    }
}

/// Adds the elements of an array, or the fields of a struct.
#[cycle(initial)]
fn push_items(
    bytes: &mut Items<u8>,
    globals: &[GlobalItem],
    places: &[u64],
    items: &[Init],
    ty: &MemTy,
) -> Result<(), AllocError>
    requires { IsWritable globals.now places.now (Init.List items.now) ty.now }
    ensures value { OnOk result (map Some bytes.new ≡ map Some bytes.old ++ initial globals.now ty.now (Init.List items.now)) }
    ensures more { OnOk result (length bytes.new ≡ length bytes.old + size ty.now) }
{
    match ty {
        MemTy::Int(_) | MemTy::Ptr => Ok(()),
        MemTy::Array(_, element) => push_elements(bytes, globals, places, items, element.get()),
        MemTy::Struct(fields, packed) => {
            let size = size_of(ty);
            push_fields(
                bytes,
                globals,
                places,
                items,
                fields.as_slice(),
                *packed,
                size,
            )
        }
    }
}

#[cycle(initial)]
fn push_elements(
    bytes: &mut Items<u8>,
    globals: &[GlobalItem],
    places: &[u64],
    items: &[Init],
    element: &MemTy,
) -> Result<(), AllocError>
    requires { AreElements globals.now places.now items.now element.now }
    ensures value { OnOk result (map Some bytes.new ≡ map Some bytes.old ++ elements element.now (fillings globals.now items.now)) }
    ensures more { OnOk result (length bytes.new ≡ length bytes.old + length items.now * size element.now) }
{
    for item in items {
        push_init(bytes, globals, places, item, element)?;
    }
    Ok(())
}

/// The size of a type, and the number of which its address is a multiple.
pub fn extent_of(ty: &MemTy) -> Extent
    requires { HasSizesWithin ty.now }
    ensures size { result.size ≡ size ty.now }
    ensures align { result.align ≡ align ty.now }
    ensures most { result.size ≤ 2 ^ 32 }
    ensures least { (1 ≤ result.align) × (result.align ≤ 16) }
{
    measure_of(ty).extent
}

/// Adds a field of a struct, with zeros before it, and tells where it ends.
#[cycle(initial)]
fn push_field(
    bytes: &mut Items<u8>,
    globals: &[GlobalItem],
    places: &[u64],
    item: &Init,
    field: &MemTy,
    packed: bool,
    place: u64,
) -> Result<u64, AllocError>
    requires { IsField globals.now places.now item.now field.now place }
    ensures next { IfOk result (λ next. next ≡ field_start_of packed place (align field.now) + size field.now) }
    ensures value { OnOk result (map Some bytes.new ≡ (map Some bytes.old ++ zeros (field_start_of packed place (align field.now) - place)) ++ initial globals.now field.now item.now) }
    ensures more { IfOk result (λ next. length bytes.new + place ≡ length bytes.old + next) }
{
    let extent = extent_of(field);
    let start = field_start(packed, place, extent.align);
    push_zeros(bytes, start - place)?;
    push_init(bytes, globals, places, item, field)?;
    Ok(start + extent.size)
}

/// Adds the fields of a struct of this size, with zeros before, between and behind them.
#[cycle(initial)]
fn push_fields(
    bytes: &mut Items<u8>,
    globals: &[GlobalItem],
    places: &[u64],
    items: &[Init],
    fields: &[MemTy],
    packed: bool,
    size: u64,
) -> Result<(), AllocError>
    requires { AreFields globals.now places.now items.now fields.now packed size }
    ensures value { OnOk result (map Some bytes.new ≡ map Some bytes.old ++ filled size (fields_from packed 0 fields.now (fillings globals.now items.now))) }
    ensures more { OnOk result (length bytes.new ≡ length bytes.old + size) }
{
    let mut place = 0;
    for i in 0..items.len() {
        place = push_field(bytes, globals, places, &items[i], &fields[i], packed, place)?;
    }
    push_zeros(bytes, size - place)
}

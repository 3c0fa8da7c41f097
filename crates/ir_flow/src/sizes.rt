// Sizes of types of memory, by arithmetic that stops at the greatest number.
ghost use Rattle.std.specs.Prelude.{◌≡◌, ℕ, ◌+◌, ◌^◌, ◌<◌, ◌≤◌, map, Option, Some, None, if◌then◌else◌};
ghost use Rattle.ir_core.specs.Layout.{aligned as aligned_of, field_start as field_start_of, struct_extent};
ghost use Rattle.ir_flow.specs.First.{or_then};
ghost use Rattle.ir_flow.specs.Limits.{capped, capped_passing, own_or_parts as own_or_parts_of, first_passing, extents_of, measured as measured_type};

use ir_core::layout::{Extent, int_extent};
use ir_core::types::MemTy;

/// The extent of a type, and the size of the outermost type in it that takes more than 2^32 bytes.
#[derive(Clone, Copy, Drop)]
pub struct Measured {
    pub extent: Extent,
    pub passing: Option<u64>,
}

/// The least multiple of the alignment that is the place or more, up to the greatest number.
fn aligned(place: u64, align: u64) -> u64
    requires { 0 < align }
    ensures { result ≡ capped (aligned_of place align) }
{
    place.saturating_add((align - place % align) % align)
}

/// Where a field begins, up to the greatest number.
fn field_start(packed: bool, place: u64, align: u64) -> u64
    requires { 0 < align }
    ensures { result ≡ capped (field_start_of packed place align) }
{
    if packed { place } else { aligned(place, align) }
}

fn first_of(first: Option<u64>, second: Option<u64>) -> Option<u64>
    ensures { result ≡ or_then first second }
{
    match first {
        Some(size) => Some(size),
        None => second,
    }
}

/// A type's own size where it is too large, or what its parts show.
fn own_or_parts(size: u64, parts: Option<u64>) -> Option<u64>
    ensures { result ≡ own_or_parts_of size parts }
{
    if size > 1 << 32 { Some(size) } else { parts }
}

/// The measure of a type. It goes down the type by recursion, so callers count its nodes first.
#[cycle(measures)]
pub fn measure_of(ty: &MemTy) -> Measured
    ensures size { result.extent.size ≡ capped (measured_type ty.now).extent.size }
    ensures align { result.extent.align ≡ (measured_type ty.now).extent.align }
    ensures least { (1 ≤ result.extent.align) × (result.extent.align ≤ 16) }
    ensures passing { result.passing ≡ capped_passing (measured_type ty.now).passing }
{
    match ty {
        MemTy::Int(width) => Measured {
            extent: int_extent(*width),
            passing: None,
        },
        MemTy::Ptr => Measured {
            extent: Extent { size: 8, align: 8 },
            passing: None,
        },
        MemTy::Array(count, element) => {
            let element = measure_of(element.get());
            let size = count.saturating_mul(element.extent.size);
            Measured {
                extent: Extent {
                    size,
                    align: element.extent.align,
                },
                passing: own_or_parts(size, element.passing),
            }
        }
        MemTy::Struct(fields, packed) => struct_measure(fields.as_slice(), *packed),
    }
}

/// The measure of a struct with these fields.
#[cycle(measures)]
fn struct_measure(fields: &[MemTy], packed: bool) -> Measured
    ensures size { result.extent.size ≡ capped (struct_extent (extents_of (map measured_type fields.now)) packed).size }
    ensures align { result.extent.align ≡ (struct_extent (extents_of (map measured_type fields.now)) packed).align }
    ensures least { (1 ≤ result.extent.align) × (result.extent.align ≤ 16) }
    ensures passing { result.passing ≡ capped_passing (own_or_parts_of (struct_extent (extents_of (map measured_type fields.now)) packed).size (first_passing (map measured_type fields.now))) }
{
    let mut end = 0u64;
    let mut align = 1;
    let mut passing = None;
    for field in fields {
        let part = measure_of(field);
        end = field_start(packed, end, part.extent.align).saturating_add(part.extent.size);
        align = align.max(part.extent.align);
        passing = first_of(passing, part.passing);
    }
    let extent = struct_end(packed, end, align);
    Measured {
        extent,
        passing: own_or_parts(extent.size, passing),
    }
}

/// The extent of a struct whose fields end here, with their greatest alignment.
fn struct_end(packed: bool, end: u64, align: u64) -> Extent
    requires { 0 < align }
    ensures size { result.size ≡ capped (if packed then end else aligned_of end align) }
    ensures align { result.align ≡ (if packed then 1 else align) }
{
    if packed {
        Extent {
            size: end,
            align: 1,
        }
    } else {
        Extent {
            size: aligned(end, align),
            align,
        }
    }
}

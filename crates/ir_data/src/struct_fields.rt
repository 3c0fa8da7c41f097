// Where the fields of a struct begin.
ghost use Rattle.std.specs.Prelude.{◌≡◌, ◌^◌, ◌<◌, length, map};
ghost use Rattle.ir_core.specs.Layout.{HasSizesWithin, extent_of as extent_of_type, end_of_fields, offset_of_field};

use ir_core::layout::{field_offset, size_of};
use ir_core::types::MemTy;

/// Where the last field of a struct ends.
pub fn end_of(fields: &[MemTy], packed: bool) -> u64
    requires few { length fields.now < 2 ^ 32 }
    requires sizes { HasSizesWithin (MemTy.Struct fields.now packed) }
    ensures { result ≡ end_of_fields packed 0 (map extent_of_type fields.now) }
{
    if fields.is_empty() {
        return 0;
    }
    let last = fields.len() as u32 - 1;
    field_offset(fields, packed, last) + size_of(&fields[last as usize])
}

/// Where a field of a struct begins; where the last one ends, if there is none of that number.
pub fn offset_of(fields: &[MemTy], packed: bool, field: u64) -> u64
    requires few { length fields.now < 2 ^ 32 }
    requires sizes { HasSizesWithin (MemTy.Struct fields.now packed) }
    ensures { result ≡ offset_of_field (map extent_of_type fields.now) packed field }
{
    if field < fields.len() as u64 {
        field_offset(fields, packed, field as u32)
    } else {
        end_of(fields, packed)
    }
}

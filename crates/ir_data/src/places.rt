// Where globals stand.
ghost use Rattle.std.specs.Prelude.{◌≡◌, ◌+◌, ◌*◌, ◌^◌, ◌<◌, ◌≤◌, length, IfOk, None};
ghost use Rattle.ir_core.specs.Layout.{HasSizesWithin};
ghost use Rattle.ir_flow.specs.Limits.{limit_passed};
ghost use Rattle.ir_meaning.specs.Memory.{data_start};
ghost use Rattle.ir_meaning.specs.Image.{span as span_of, address_of as address_of_global};
ghost use Rattle.ir_data.specs.Image.{HasFewBytes, places_from, taken as taken_by};

use ir_core::layout::size_of;
use ir_core::program::{Global as GlobalItem, Module};
use sqlite_items::Items;
use std::alloc::{AllocError, Global};

/// Where data memory starts.
pub const DATA_START: u64 = 0x1000_0000;

/// The bytes from a global's start to that of the next: a multiple of 16.
pub fn span(global: &GlobalItem) -> u64
    requires { HasSizesWithin global.now.ty }
    ensures value { result ≡ span_of global.now }
    ensures most { result ≤ 2 ^ 32 }
{
    let size = size_of(&global.ty);
    size + (16 - size % 16) % 16
}

/// How many bytes these globals take, up to the next multiple of 16.
pub fn taken(globals: &[GlobalItem]) -> u64
    requires { HasFewBytes globals.now }
    ensures value { result ≡ taken_by globals.now }
    ensures most { result ≤ 2 ^ 44 }
{
    let mut bytes = 0;
    for global in globals {
        bytes += span(global);
    }
    bytes
}

/// The address of a global: each stands at the next multiple of 16, in order of text.
pub fn address_of(all: &Module, global: u32) -> u64
    requires limits { limit_passed all.now ≡ None }
    requires exists { global < length all.now.globals }
    ensures { result ≡ address_of_global all.now.globals global }
{
    DATA_START + taken(&all.globals.as_slice()[..global as usize])
}

/// The addresses of all globals.
pub fn places(alloc: Global, globals: &[GlobalItem]) -> Result<Items<u64>, AllocError>
    requires { HasFewBytes globals.now }
    ensures { IfOk result (λ places. places ≡ places_from data_start globals.now) }
{
    let mut places = Items::new(alloc);
    let mut next = DATA_START;
    for global in globals {
        places.push(next)?;
        next += span(global);
    }
    Ok(places)
}

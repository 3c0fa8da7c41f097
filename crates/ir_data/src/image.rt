// The image of a module.
ghost use Rattle.std.specs.Prelude.{◌≡◌, ◌+◌, ◌≤◌, IfOk, MatchResult};
ghost use Rattle.ir_meaning.specs.Memory.{data_start};
ghost use Rattle.ir_verify.specs.Verdict.{Passes};
ghost use Rattle.ir_data.specs.Image.{AreFirstBytes, IsFirstImage};
ghost use Rattle.ir_data.specs.Refusals.{Refuses};

use crate::bytes::push_zeros;
use crate::places::{DATA_START, places, span, taken};
use crate::values::push_init;
use ir_core::program::Module;
use ir_verify::checked::Checked;
use sqlite_items::Items;
use std::alloc::{AllocError, Global};
use thiserror::Error;

/// The first bytes of data memory, up to the last global's end, and the address behind those that globals take.
#[derive(Drop)]
pub struct Image {
    pub bytes: Items<u8>,
    pub top: u64,
}

/// Why a module has no image.
#[derive(Clone, Copy, Debug, PartialEq, Eq, Drop, Error)]
pub enum ImageRefusal {
    /// The globals take this many bytes, and the data memory has fewer.
    #[error("needs {bytes} bytes, has {room}")]
    TooBig { bytes: u64, room: u64 },
    #[error("no memory")]
    NoMemory,
}

/// The bytes that the globals hold at first, to the last one's end.
fn first_bytes(alloc: Global, all: &Module) -> Result<Items<u8>, AllocError>
    requires { Passes all.now }
    ensures { IfOk result (λ bytes. AreFirstBytes all.now.globals bytes) }
{
    let globals = all.globals.as_slice();
    let places = places(alloc, globals)?;
    let mut bytes = Items::new(alloc);
    let mut start = 0;
    for global in globals {
        let len = bytes.len() as u64;
        push_zeros(&mut bytes, start - len)?;
        push_init(
            &mut bytes,
            globals,
            places.as_slice(),
            &global.init,
            &global.ty,
        )?;
        start += span(global);
    }
    Ok(bytes)
}

/// The image of the first data memory: the globals at multiples of 16 in order of text, with 0 in padding.
pub fn first_image(alloc: Global, program: &Checked) -> Result<Image, ImageRefusal>
    ensures { MatchResult result (λ image. IsFirstImage program.now.module_.globals image × (image.top ≤ data_start + program.now.room)) (λ e. Refuses program.now e) }
{
    let all = program.module();
    let room = program.room();
    let bytes = taken(all.globals.as_slice());
    if bytes > room {
        return Err(ImageRefusal::TooBig { bytes, room });
    }
    match first_bytes(alloc, all) {
        Ok(written) => Ok(Image {
            bytes: written,
            top: DATA_START + bytes,
        }),
        Err(_) => Err(ImageRefusal::NoMemory),
    }
}

// The frame: its entry, and the s registers that are saved in it.
ghost use Rattle.std.specs.Prelude.{◌≡◌, ◌^◌, ◌<◌, ◌≤◌, OnOk};
ghost use Rattle.frame_code.specs.Frame.{is_saved, some_saved, save_offset, uses, used};
ghost use Rattle.frame_code.specs.Code.{save_code, restore_code, entry_code};
ghost use Rattle.code_emit.specs.Written.{put_code};
ghost use Rattle.frame_out.specs.Saving.{save_one, restore_one};

use crate::placed::Placed;
use crate::stands::saved_register;
use code_emit::frame::put_prologue;
use code_emit::pieces::{put_load_at, put_store_at};
use mir::places::{Place, Places};
use rj_num::NoMemory;
use rv_asm::asm::Asm;
use std::alloc::Global;

fn is_saved_in(number: u32, place: Option<Place>) -> bool
    ensures { result ≡ is_saved number place }
{
    match place {
        Some(Place::Saved(saved)) => number == saved,
        Some(Place::Slot(_)) | None => false,
    }
}

// Whether one of these places is the s register of that number.
fn is_among(number: u32, places: &[Option<Place>]) -> bool
    ensures { result ≡ some_saved number places.now }
{
    for place in places {
        if is_saved_in(number, *place) {
            return true;
        }
    }
    false
}

// Whether a register stands in the s register of that number.
fn is_used(places: &Places, number: u32) -> bool
    ensures { result ≡ uses places.now number }
{
    is_among(number, places.at.as_slice())
}

// Where the frame keeps the s register of that number, in bytes above sp.
fn save_place(frame: u32, number: u32) -> u32
    requires large { 128 ≤ frame }
    requires number { number < 11 }
    ensures { result ≡ save_offset frame number }
{
    frame - 8 - 8 * (number + 1)
}

// Saves the s register of that number, where it is in use.
#[tactic(auto, using(code_emit::proofs::Put::code_none))]
fn put_save(
    asm: &mut Asm,
    alloc: Global,
    frame: u32,
    places: &Places,
    number: u32,
) -> Result<(), NoMemory>
    requires large { 128 ≤ frame }
    requires small { frame ≤ 2 ^ 20 }
    requires number { number < 11 }
    ensures { OnOk result (asm.new ≡ put_code asm.old (save_one frame (uses places.now number) number)) }
{
    if is_used(places, number) {
        put_store_at(
            asm,
            alloc,
            saved_register(number),
            save_place(frame, number),
        )
    } else {
        Ok(())
    }
}

// Saves the s registers in use.
#[tactic(auto, using(code_emit::proofs::Put::code_code, code_emit::proofs::Put::code_none))]
fn put_saves(asm: &mut Asm, alloc: Global, frame: u32, places: &Places) -> Result<(), NoMemory>
    requires large { 128 ≤ frame }
    requires small { frame ≤ 2 ^ 20 }
    ensures { OnOk result (asm.new ≡ put_code asm.old (save_code frame (used places.now))) }
{
    for number in 0..11 {
        put_save(asm, alloc, frame, places, number)?;
    }
    Ok(())
}

// Restores the s register of that number, where it is in use.
#[tactic(auto, using(code_emit::proofs::Put::code_none))]
fn put_restore(
    asm: &mut Asm,
    alloc: Global,
    frame: u32,
    places: &Places,
    number: u32,
) -> Result<(), NoMemory>
    requires large { 128 ≤ frame }
    requires small { frame ≤ 2 ^ 20 }
    requires number { number < 11 }
    ensures { OnOk result (asm.new ≡ put_code asm.old (restore_one frame (uses places.now number) number)) }
{
    if is_used(places, number) {
        put_load_at(
            asm,
            alloc,
            saved_register(number),
            save_place(frame, number),
        )
    } else {
        Ok(())
    }
}

/// Restores the s registers in use.
#[tactic(auto, using(code_emit::proofs::Put::code_code, code_emit::proofs::Put::code_none))]
pub fn put_restores(
    asm: &mut Asm,
    alloc: Global,
    frame: u32,
    places: &Places,
) -> Result<(), NoMemory>
    requires large { 128 ≤ frame }
    requires small { frame ≤ 2 ^ 20 }
    ensures { OnOk result (asm.new ≡ put_code asm.old (restore_code frame (used places.now))) }
{
    for number in 0..11 {
        put_restore(asm, alloc, frame, places, number)?;
    }
    Ok(())
}

impl Placed<'_> {
    /// Counts the entry, makes the frame where there is room for it, and saves ra and the s registers in use.
    #[tactic(auto, using(code_emit::proofs::Put::code_code))]
    pub fn put_entry(&self, asm: &mut Asm, alloc: Global) -> Result<(), NoMemory>
        ensures { OnOk result (asm.new ≡ put_code asm.old (entry_code self.now.function.now self.now.places.now)) }
    {
        put_prologue(asm, alloc, self.function.symbol, self.frame())?;
        put_saves(asm, alloc, self.frame(), self.places)
    }
}

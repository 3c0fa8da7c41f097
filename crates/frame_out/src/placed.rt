// A function, with where its registers stand.
ghost use Rattle.std.specs.Prelude.{◌≡◌, ◌^◌, ◌<◌, ◌≤◌};
ghost use Rattle.walks.specs.Face.{frame_of};
ghost use Rattle.mir.specs.Places.{place_of};
ghost use Rattle.code_pieces.specs.Bytes.{taken_bytes};
ghost use Rattle.frame_code.specs.Code.{taken as taken_in_function};

use crate::memory::taken;
use crate::stands::place_at;
use mir::code::MFunction;
use mir::places::{Place, Places};

/// A function and the places of its registers.
#[derive(Drop)]
pub struct Placed<'a> {
    pub function: &'a MFunction,
    pub places: &'a Places,
    /// The bytes of data memory that it takes, 2^32 for more.
    pub taken: u64,
    ghost symbol: { function.now.symbol < 1024 },
    ghost small: { frame_of function.now.values ≤ 2 ^ 20 },
    ghost sum: { taken ≡ taken_bytes (taken_in_function function.now) },
}

impl<'a> Placed<'a> {
    /// A function with these places.
    pub fn new(function: &'a MFunction, places: &'a Places) -> Placed<'a>
        requires symbol { function.now.symbol < 1024 }
        requires small { frame_of function.now.values ≤ 2 ^ 20 }
        ensures function { result.function.now ≡ function.now }
        ensures places { result.places.now ≡ places.now }
    {
        Placed {
            function,
            places,
            taken: taken(function),
        }
    }

    /// The place of a register, where it has one.
    pub fn at(&self, register: u32) -> Option<Place>
        ensures { result ≡ place_of self.now.places.now register }
    {
        place_at(self.places, register)
    }

    /// The bytes of its frame, at most a mebibyte.
    pub fn frame(&self) -> u32
        ensures { result ≡ frame_of self.now.function.now.values }
    {
        128 + 32 * self.function.values
    }
}

// The values of operands.
ghost use Rattle.std.specs.Prelude.{◌≡◌, ◌<◌, length};
ghost use Rattle.ir_meaning.specs.Image.{place_address};
ghost use Rattle.ir_meaning.specs.Step.{operand as operand_of};
ghost use Rattle.ir_eval.specs.Code.{ArePlaces, program_with};

use ir_core::code::Operand;
use ir_core::program::Module;

/// The address of a global's byte, modulo two to 64.
fn place_of(all: &Module, places: &[u64], global: u32, offset: u64) -> u64
    requires { ArePlaces all.now.globals places.now }
    ensures { result ≡ place_address all.now.globals global offset }
{
    let global = (global as usize).min(all.globals.len());
    places[global].wrapping_add(offset)
}

/// The value of an operand, among these values.
pub fn operand(
    all: &Module,
    room: u64,
    places: &[u64],
    values: &[Option<u128>],
    x: Operand,
) -> Option<u128>
    requires { ArePlaces all.now.globals places.now }
    ensures { result ≡ operand_of (program_with all.now room) values.now x }
{
    match x {
        Operand::Value(number) => values.get(number as usize).copied().unwrap_or(None),
        Operand::Num(n) => Some(n),
        Operand::Null => Some(0),
        Operand::Place(global, offset) => Some(u128::from(place_of(all, places, global, offset))),
        Operand::Poison => None,
    }
}

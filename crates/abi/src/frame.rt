// Registers of arguments, registers that a call keeps, and where a frame holds what.

ghost use Rattle.std.specs.Prelude.{◌≡◌, ◌<◌, ◌≤◌, ◌+◌, ◌-◌, ◌*◌};
ghost use Rattle.rv_core.specs.Reg.{reg_at};
ghost use Rattle.abi.specs.Frame.{saved, save_place, slot_place, FramesAreDisjoint};

use rv_core::reg::Reg;

/// The register of an argument: a0 to a7. The result comes in a0.
pub fn arg_reg(place: u32) -> Reg
    requires { place < 8 }
    ensures { result ≡ reg_at (10 + place) }
{
    Reg::from_number(10 + place as u8)
}

/// The registers that a version saves in its frame: ra and s0 to s10. s11 is the data top.
pub fn saved_regs() -> [Reg; 12]
    ensures { result ≡ saved }
{
    [
        Reg::Ra,
        Reg::S0,
        Reg::S1,
        Reg::S2,
        Reg::S3,
        Reg::S4,
        Reg::S5,
        Reg::S6,
        Reg::S7,
        Reg::S8,
        Reg::S9,
        Reg::S10,
    ]
}

/// How far from sp a saved register stands, by its place in `saved_regs`, in a frame of so many bytes.
pub fn save_offset(frame: u64, place: u32) -> u64
    requires frame { 128 ≤ frame }
    requires place { place < 12 }
    ensures { result ≡ save_place frame place }
{
    frame - 8 - 8 * u64::from(place)
}

/// How far from sp a slot of eight bytes stands.
pub fn slot_offset(slot: u32) -> u64
    ensures { result ≡ slot_place slot }
{
    8 * u64::from(slot)
}

/// In a frame of 128 bytes and 32 for each of n values, the saved registers and 4 n + 4 slots lie apart from one another.
pub fn frames_are_disjoint()
    ensures { FramesAreDisjoint }
{}

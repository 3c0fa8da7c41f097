//! The harts of the core.
ghost use Rattle.std.specs.Prelude.{◌≡◌, ◌<◌, ◌≤◌, length, vec_len, true, false};
ghost use Rattle.code_epochs.specs.Sound.{At};
ghost use Rattle.jit_core.specs.Left.{all_left};
ghost use Rattle.jit_core.specs.Seated.{IsSameSize};
ghost use Rattle.jit_core.specs.Harts.{Moves, AreReady, IsOver};

use crate::seat::{Seat, Work};
use code_epochs::CodeState;

/// The next step of the hart with this number on a shared word. False where its calls have ended.
pub fn step_hart(seats: &mut Vec<Seat>, state: &mut CodeState, number: u32, work: Work<'_>) -> bool
    requires number { number < length seats.old.items }
    requires ready { AreReady seats.old.items state.old work }
    ensures moves { result ≡ true → Moves state.old state.new seats.old.items seats.new.items work.entry number }
    ensures over { result ≡ false → (seats.new.items ≡ seats.old.items) × (state.new ≡ state.old) × IsOver seats.old.items work.entry number }
    ensures fewer { result ≡ true → all_left work.entry seats.new.items < all_left work.entry seats.old.items }
    ensures going { result ≡ true → ¬ IsOver seats.old.items work.entry number }
    ensures ready { AreReady seats.new.items state.new work.entry }
    ensures count { length seats.new.items ≡ length seats.old.items }
    ensures size { IsSameSize state.old state.new }
    ensures versions { state.new.versions ≡ state.old.versions }
{
    seats[number as usize].step(state, number, work)
}

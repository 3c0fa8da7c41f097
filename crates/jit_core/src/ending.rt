//! Rounds over the harts until all calls have ended.
ghost use Rattle.std.specs.Prelude.{◌≡◌, ◌<◌, ◌≤◌, ◌++◌, ◌∷◌, [], ℕ, List, map, length, true, false};
ghost use Rattle.jit_core.specs.declared.event.Event.TheVariants as event;
ghost use Rattle.jit_core.specs.declared.event.Stepped.TheVariants as answer;
ghost use Rattle.jit_core.specs.Events.{Told};
ghost use Rattle.jit_core.specs.Harts.{IsOver};
ghost use Rattle.jit_core.specs.Cores.{Stands, IsKept, IsSameCore};
ghost use Rattle.jit_core.specs.Simulated.{Makes, MakesAll, event_of};
ghost use Rattle.jit_core.specs.Left.{all_left};
ghost use Rattle.jit_core.specs.Finished.{one_round, rounds, AllOver, HasAnswered};

use crate::event::Stepped;
use crate::state_machine::Core;

// One step was made now or before.
fn has_moved(stepped: &Stepped, moved: bool) -> bool
    ensures now { result ≡ true → moved ≡ false → stepped.now ≡ answer.Moved }
    ensures none { result ≡ false → (moved ≡ false) × (stepped.now ≡ answer.Moved → ⊥) }
{
    match stepped {
        Stepped::Moved => true,
        _ => moved,
    }
}

// One event of a hart. True where it made a step, or one was made before.
fn go_on(core: &mut Core<'_>, number: u32, moved: bool) -> bool
    requires kept { IsKept core.old }
    requires number { number < length core.old.seats.items }
    ensures kept { IsKept core.new }
    ensures same { IsSameCore core.old core.new }
    ensures makes { (t : Told) × (t.event ≡ event.Hart number) × Makes core.old t core.new }
    ensures most { all_left core.new.work core.new.seats.items ≤ all_left core.old.work core.old.seats.items }
    ensures fewer { result ≡ true → moved ≡ false → all_left core.new.work core.new.seats.items < all_left core.old.work core.old.seats.items }
    ensures over { result ≡ false → (moved ≡ false) × (core.new.work ≡ core.old.work) × (core.new.seats.items ≡ core.old.seats.items) × IsOver core.old.seats.items core.old.work number }
{
    let stepped = core.step_hart(number);
    has_moved(&stepped, moved)
}

// An event of each hart in order. True where one made a step.
fn go_round(core: &mut Core<'_>) -> bool
    requires kept { IsKept core.old }
    ensures kept { IsKept core.new }
    ensures same { IsSameCore core.old core.new }
    ensures makes { (told : List Told) × (map event_of told ≡ one_round (length core.old.seats.items)) × MakesAll core.old told core.new }
    ensures fewer { result ≡ true → all_left core.new.work core.new.seats.items < all_left core.old.work core.old.seats.items }
    ensures over { result ≡ false → AllOver core.new }
{
    let mut moved = false;
    for number in 0..core.seats.len() as u32 {
        moved = go_on(core, number, moved);
    }
    moved
}

/// Goes round the harts, an event of each in order, until all calls have ended.
pub fn finish(core: &mut Core<'_>)
    requires kept { IsKept core.old }
    ensures kept { IsKept core.new }
    ensures same { IsSameCore core.old core.new }
    ensures makes { (told : List Told) × (n : ℕ) × (map event_of told ≡ rounds n (length core.old.seats.items)) × MakesAll core.old told core.new × ((before : List Told) → Stands core.old before → Stands core.new (before ++ told)) }
    ensures ended { (place : ℕ) → place < length core.new.work.calls.now → HasAnswered core.new place }
{
    loop {
        if !go_round(core) {
            return;
        }
    }
}

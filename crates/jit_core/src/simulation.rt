//! Many events, one after another.
ghost use Rattle.std.specs.Prelude.{◌≡◌, ◌++◌, ℕ, List, map};
ghost use Rattle.code_epochs.specs.Sound.{At};
ghost use Rattle.jit_core.specs.declared.event.Event.{Event};
ghost use Rattle.jit_core.specs.Events.{Told};
ghost use Rattle.jit_core.specs.Cores.{Stands, IsKept, IsEvent, IsSameCore};
ghost use Rattle.jit_core.specs.Simulated.{Makes, MakesAll, event_of};

use crate::event::Event;
use crate::state_machine::Core;
use std::alloc::Global;

// Makes one event happen, and drops what is handed back.
fn happen(alloc: Global, core: &mut Core<'_>, event: Event)
    requires kept { IsKept core.old }
    requires event { IsEvent core.old event }
    ensures kept { IsKept core.new }
    ensures same { IsSameCore core.old core.new }
    ensures makes { (t : Told) × (t.event ≡ event) × Makes core.old t core.new }
{
    let _stepped = core.step(alloc, event);
}

/// Makes the events happen in order, and drops what is handed back.
pub fn simulate(alloc: Global, core: &mut Core<'_>, events: Vec<Event>)
    requires kept { IsKept core.old }
    requires events { (i : ℕ) (e : Event) → At events.items i e → IsEvent core.old e }
    ensures kept { IsKept core.new }
    ensures same { IsSameCore core.old core.new }
    ensures makes { (told : List Told) × (map event_of told ≡ events.items) × MakesAll core.old told core.new × ((before : List Told) → Stands core.old before → Stands core.new (before ++ told)) }
{
    for event in events {
        happen(alloc, core, event);
    }
}

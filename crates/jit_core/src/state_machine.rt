//! The core: harts, a keeper and orders over one state of the code.
ghost use Rattle.std.specs.Prelude.{◌≡◌, ◌<◌, ◌≤◌, ◌++◌, ◌∷◌, [], List, length, IfSome, IfNone};
ghost use Rattle.jit_core.specs.declared.event.Event.TheVariants as event;
ghost use Rattle.jit_core.specs.declared.event.Stepped.TheVariants as stepped;
ghost use Rattle.jit_core.specs.Left.{all_left};
ghost use Rattle.jit_core.specs.Events.{Told};
ghost use Rattle.jit_core.specs.Cores.{Stands, IsKept, IsEvent, IsAnswer, IsSameCore, StandsMore, IsRightAnswer, IsSeatAnswer, HasNotEnded};

use crate::event::{Event, Stepped};
use crate::harts::step_hart;
use crate::publishing::{Pair, Publishing};
use crate::seat::{Seat, Work};
use code_epochs::CodeState;
use code_space::CodeSpace;
use ir_meaning::calls::Ended;
use ir_verify::checked::Checked;
use std::alloc::Global;

/// Harts, a keeper and orders over one state of the code.
#[derive(Drop)]
pub struct Core<'a> {
    pub(crate) all: &'a Checked,
    pub(crate) work: Work<'a>,
    pub(crate) state: CodeState,
    pub(crate) seats: Vec<Seat>,
    /// The code words that are in no range of a version.
    pub(crate) space: CodeSpace,
    pub(crate) publishing: Option<Publishing>,
    /// What the keeper looked at last.
    pub(crate) looked: Option<Pair>,
}

impl Core<'_> {
    /// Makes one event happen: at most one step on a shared word.
    pub fn step(&mut self, alloc: Global, event: Event) -> Stepped
        requires kept { IsKept self.old }
        requires event { IsEvent self.old event }
        ensures kept { IsKept self.new }
        ensures same { IsSameCore self.old self.new }
        ensures answer { IsAnswer self.old event result self.new }
        ensures stands { StandsMore self.old self.new (record { event = event; answer = result }) }
    {
        match event {
            Event::Hart(number) => self.step_hart(number),
            Event::Keeper => self.step_keeper(),
            Event::Order(version) => self.order(alloc, version),
        }
    }

    /// The hart with this number goes on, up to and with its next step on a shared word.
    pub fn step_hart(&mut self, number: u32) -> Stepped
        requires kept { IsKept self.old }
        requires number { number < length self.old.seats.items }
        ensures kept { IsKept self.new }
        ensures same { IsSameCore self.old self.new }
        ensures answer { IsAnswer self.old (event.Hart number) result self.new }
        ensures fewer { result ≡ stepped.Moved → all_left self.new.work self.new.seats.items < all_left self.old.work self.old.seats.items }
        ensures stands { StandsMore self.old self.new (record { event = event.Hart number; answer = result }) }
    {
        if step_hart(&mut self.seats, &mut self.state, number, self.work) {
            Stepped::Moved
        } else {
            Stepped::Nothing
        }
    }

    /// The answer of a call, by its place in the list. None where it hasn't ended.
    pub fn answer(&self, call: u32) -> Option<Ended>
        requires kept { IsKept self.now }
        ensures right { IfSome result (IsRightAnswer self.now call) }
        ensures seat { IfSome result (IsSeatAnswer self.now call) }
        ensures none { IfNone result (HasNotEnded self.now call) }
    {
        let harts = self.seats.len();
        let seat = &self.seats[call as usize % harts];
        let place = call as usize / harts;
        if place >= seat.answers.len() {
            return None;
        }
        Some(seat.answers[place])
    }
}

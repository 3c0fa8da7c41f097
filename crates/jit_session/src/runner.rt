//! A hart of a session, and its calls.
ghost use Rattle.ir_core.specs.Program.{Program};
ghost use Rattle.ir_meaning.specs.Right.{Right};
ghost use Rattle.jit_session.specs.Runs.{IsReady, IsSameSeat, IsSameCounts};
ghost use Rattle.jit_session.specs.Served.{HasServedOne};
ghost use Rattle.jit_session.specs.Runners.{IsWork, MayAnswer, CanRun, HasRun};

use crate::bench::Bench;
use crate::gate::Gate;
use hart::{Hart, Image};
use ir_meaning::calls::{Ended, ListedCall};

/// A hart with what serves it, and with room for its answers and for a row of its counts.
#[derive(Drop)]
pub struct Runner<'a, G> {
    pub(crate) number: u32,
    pub(crate) hart: Hart,
    pub(crate) bench: Bench<'a, G>,
    pub(crate) answers: Vec<Ended>,
    pub(crate) entries: Vec<u64>,
}

/// Runs a call of a program.
fn answer<G: Gate>(
    hart: &mut Hart,
    bench: &mut Bench<'_, G>,
    image: &Image,
    call: &ListedCall,
) -> Ended
    requires { (program : Program) × MayAnswer program image.now call.now hart.old bench.old.seat }
    ensures right { (program : Program) → MayAnswer program image.now call.now hart.old bench.old.seat → IsReady program hart.new bench.new.seat × Right program call.now result }
    ensures seat { IsSameSeat bench.old.seat bench.new.seat }
    ensures counts { IsSameCounts bench.old.counts bench.new.counts }
    ensures served { (program : Program) → MayAnswer program image.now call.now hart.old bench.old.seat → HasServedOne program call.now bench.old.seat bench.new.seat bench.old.counts bench.new.counts result }
{
    hart.run_call(bench, image, call)
}

impl<G: Gate> Runner<'_, G> {
    /// Runs the calls of this hart, in order: of so many harts, those whose places leave its number as remainder.
    pub fn run(&mut self, image: &Image, calls: &[ListedCall], harts: u32)
        requires { (program : Program) × IsWork program image.now calls.now harts × CanRun program calls.now harts self.old }
        ensures { (program : Program) → IsWork program image.now calls.now harts → CanRun program calls.now harts self.old → HasRun program calls.now harts self.old self.new }
    {
        let mut place = self.number as usize;
        while place < calls.len() {
            self.bench.name_call(place as u32);
            let end = answer(&mut self.hart, &mut self.bench, image, &calls[place]);
            self.answers.push_reserved(end);
            place += harts as usize;
        }
    }
}

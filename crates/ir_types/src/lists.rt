ghost use Rattle.std.specs.Prelude.{◌≡◌, Result, Ok};
ghost use Rattle.ir_types.specs.Walk.{Gives, walk};
ghost use Rattle.ir_types.specs.declared.fault.Fault.{Fault};

use crate::fault::Fault;

/// What is made of a list, one item after another, where a context is known.
pub trait Step<C, T> {
    /// What an item makes of what was made so far.
    ghost steps: { C → Self → T → Result Self Fault };

    fn step(&mut self, context: &C, given: &T) -> Result<(), Fault>
        ensures { Gives (λ _. self.new) result (steps context.now self.old given.now) };
}

/// Takes the items from the front.
pub fn walk<C, T, S: Step<C, T>>(state: &mut S, context: &C, given: &[T]) -> Result<(), Fault>
    ensures { Gives (λ _. state.new) result (walk (S.steps context.now) state.old given.now) }
{
    for one in given {
        state.step(context, one)?;
    }
    Ok(())
}

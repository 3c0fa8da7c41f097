//! What is known of types without writing them out.
ghost use Rattle.std.specs.Prelude.{◌≡◌, ◌+◌, ◌-◌, ◌^◌, min, ℕ, slice_get, length, Ok};
ghost use Rattle.ir_core.specs.Layout.{is_memory_width};
ghost use Rattle.ir_flow.specs.First.{or_then};
ghost use Rattle.ir_types.specs.Walk.{Gives};
ghost use Rattle.ir_types.specs.Replaced.{nodes_of, odd_of};
ghost use Rattle.ir_types.specs.Summaries.{known_of, with_named, with_part, summary_step, summary_of};

use crate::fault::Fault;
use crate::lists::Step;
use crate::parts::Part;
use ir_core::types::MAX_WIDTH;
use sqlite_items::Items;

/// What is known of a type without writing it out.
#[derive(Clone, Copy, Drop)]
pub struct Summary {
    /// How many types it is made of, itself with them, up to the greatest number.
    pub nodes: u64,
    /// The place of the first integer that can't stand in memory.
    pub odd: Option<usize>,
    /// How deep names stand inside one another.
    pub rank: u64,
}

/// A named type while definitions are resolved.
#[derive(Clone, Copy, Drop)]
pub enum Entry {
    Fresh,
    /// Its definition is being gone through.
    Open,
    /// Its summary, and the number of a type whose definition says the same and isn't a name alone.
    Known(Summary, u32),
}

/// What is known of the type of a name that stands here.
pub fn known_of(left: usize, entry: Option<Entry>) -> Result<(Summary, u32), Fault>
    ensures { Gives (λ known. known) result (known_of left entry) }
{
    match entry {
        Some(Entry::Known(summary, root)) => Ok((summary, root)),
        _ => Err(Fault::Name(left)),
    }
}

fn first_of(first: Option<usize>, second: Option<usize>) -> Option<usize>
    ensures { result ≡ or_then first second }
{
    match first {
        Some(left) => Some(left),
        None => second,
    }
}

fn with_named(before: Summary, named: Summary) -> Summary
    ensures { result ≡ with_named before named }
{
    Summary {
        nodes: before.nodes.saturating_add(named.nodes),
        odd: first_of(before.odd, named.odd),
        rank: before.rank.max(named.rank),
    }
}

fn is_memory_width(width: u32) -> bool
    ensures { result ≡ is_memory_width width }
{
    match width {
        8 | 16 | 32 | 64 | 128 => width <= MAX_WIDTH,
        _ => false,
    }
}

fn nodes_of(part: Part) -> u64
    ensures { result ≡ nodes_of part }
{
    match part {
        Part::Close => 0,
        Part::Named(_, _) => 0,
        _ => 1,
    }
}

fn odd_of(part: Part) -> Option<usize>
    ensures { result ≡ odd_of part }
{
    match part {
        Part::Int(width, left) => {
            if is_memory_width(width) {
                None
            } else {
                Some(left)
            }
        }
        _ => None,
    }
}

fn with_part(before: Summary, part: Part) -> Summary
    ensures { result ≡ with_part before part }
{
    Summary {
        nodes: before.nodes.saturating_add(nodes_of(part)),
        odd: first_of(before.odd, odd_of(part)),
        rank: before.rank,
    }
}

/// One more part, by what is known of named types.
#[tactic(auto, unfolding(crate::specs::Summaries::summary_step))]
pub fn summary_step(known: &[Entry], before: Summary, part: Part) -> Result<Summary, Fault>
    ensures { Gives (λ after. after) result (summary_step known.now before part) }
{
    match part {
        Part::Named(number, left) => {
            let (named, _) = known_of(left, known.get(number as usize).copied())?;
            Ok(with_named(before, named))
        }
        _ => Ok(with_part(before, part)),
    }
}

impl Step<Items<Entry>, Part> for Summary {
    ghost steps = { λ known. summary_step known };

    fn step(&mut self, known: &Items<Entry>, part: &Part) -> Result<(), Fault> {
        *self = summary_step(known.as_slice(), *self, *part)?;
        Ok(())
    }
}

/// What is known of no parts.
pub const NO_PARTS: Summary = Summary {
    nodes: 0,
    odd: None,
    rank: 0,
};

// Which place each register takes.
ghost use Rattle.std.specs.Prelude.{◌≡◌, ℕ, ◌+◌, ◌<◌, ◌≤◌, ◌^◌, length, map, count_by, IfOk, IfErr, MatchBool};
ghost use Rattle.mir.specs.Places.{Fits};
ghost use Rattle.regalloc.specs.Overlap.{contains, overlap, HasRoom, Refuses};
ghost use Rattle.regalloc.specs.FirstFit.{place_at, IsFirstFit, UsesNoSlot};
ghost use Rattle.regalloc.specs.Steps.{place_without_points, Assigns, IsFull};

use crate::ends::Ends;
use crate::starts::{Start, ordered};
use mir::places::{Intervals, Place, Places};
use rj_num::NoMemory;
use sqlite_items::Items;
use std::alloc::Global;

/// The registers s0 to s10 keep their values over calls.
const SAVED: usize = 11;

/// Why registers can't all be placed.
#[derive(Clone, Copy, Debug, PartialEq, Eq, Drop)]
pub enum PlaceRefusal {
    /// More spans contain the point than there are places: it is the least such point, with their number.
    Crowded { point: u32, overlap: u32 },
    NoMemory,
}

impl From<NoMemory> for PlaceRefusal {
    ghost use Rattle.regalloc.specs.declared.place.PlaceRefusal.{PlaceRefusal};
    ghost use Rattle.regalloc.specs.declared.place.PlaceRefusal.TheVariants.{NoMemory};

    ghost from_gives = { λ _ e. e ≡ NoMemory };

    fn from(_: NoMemory) -> PlaceRefusal {
        PlaceRefusal::NoMemory
    }
}

/// The place of that rank: s0 to s10, then the slots from 0 on.
fn place_of_rank(rank: usize) -> Place
    requires { rank < 11 + 2 ^ 32 }
    ensures { result ≡ place_at rank }
{
    if rank < 11 {
        Place::Saved(rank as u32)
    } else {
        Place::Slot((rank - 11) as u32)
    }
}

/// The span contains the point.
fn holds(span: &Option<(u32, u32)>, point: u32) -> bool
    ensures { result ≡ contains point span.now }
{
    match span {
        Some((first, last)) => *first <= point && point <= *last,
        None => false,
    }
}

/// The refusal at a point, with the number of spans that contain it.
fn crowded(spans: &[Option<(u32, u32)>], point: u32) -> PlaceRefusal
    requires { length spans.now < 2 ^ 32 }
    ensures { result ≡ PlaceRefusal.Crowded point (count_by (contains point) spans.now) }
{
    let mut overlap = 0;
    for span in spans {
        if holds(span, point) {
            overlap += 1;
        }
    }
    PlaceRefusal::Crowded { point, overlap }
}

/// The first place where the span has no point, and none yet elsewhere.
fn place_before_all(span: &Option<(u32, u32)>) -> Option<Place>
    ensures { result ≡ place_without_points span.now }
{
    match span {
        Some((first, last)) => {
            if *first <= *last {
                None
            } else {
                Some(Place::Saved(0))
            }
        }
        None => None,
    }
}

fn unplaced(alloc: Global, spans: &[Option<(u32, u32)>]) -> Result<Vec<Option<Place>>, NoMemory>
    ensures { IfOk result (λ at. at.items ≡ map place_without_points spans.now) }
{
    let mut at = Vec::new(alloc);
    for span in spans {
        if at.push(place_before_all(span)).is_err() {
            return Err(NoMemory);
        }
    }
    Ok(at)
}

/// Gives the register the first free place below the limit, and says whether there is one.
fn assign(
    at: &mut Vec<Option<Place>>,
    ends: &mut Ends,
    start: Start,
    limit: usize,
) -> Result<bool, NoMemory>
    requires register { start.register < length at.old.items }
    requires limit { limit < 11 + 2 ^ 32 }
    ensures { IfOk result (λ is_placed. MatchBool is_placed
        (Assigns start limit ends.old at.old.items ends.new at.new.items)
        (IsFull start.first limit ends.old)) }
{
    match ends.take(start.first, start.last, limit)? {
        Some(rank) => {
            at[start.register as usize] = Some(place_of_rank(rank));
            Ok(true)
        }
        None => Ok(false),
    }
}

/// A place among s0 to s10 and so many slots for each register with a span: in order of where spans start, and then of
/// the registers' numbers, each takes the first that is free, s0 to s10 before the slots.
pub fn place(alloc: Global, intervals: &Intervals, slots: u32) -> Result<Places, PlaceRefusal>
    ensures fits { IfOk result (λ places. Fits intervals.now slots places) }
    ensures first { IfOk result (λ places. IsFirstFit intervals.now slots places) }
    ensures saved { IfOk result (λ places. HasRoom intervals.now 0 → UsesNoSlot places) }
    ensures room { IfOk result (λ places. HasRoom intervals.now slots) }
    ensures refused { IfErr result (λ refusal. Refuses intervals.now slots refusal) }
{
    let spans = intervals.spans.as_slice();
    if spans.len() > u32::MAX as usize {
        return Err(PlaceRefusal::NoMemory);
    }
    let starts = ordered(alloc, spans)?;
    let limit = SAVED + slots as usize;
    let mut ends = Ends::new(alloc);
    let mut at = unplaced(alloc, spans)?;
    for start in starts.as_slice() {
        let is_placed = assign(&mut at, &mut ends, *start, limit)?;
        if !is_placed {
            return Err(crowded(spans, start.first));
        }
    }
    Ok(Places {
        at: Items::from_vec(at),
    })
}

// The last points up to which places are taken.
ghost use Rattle.std.specs.Prelude.{◌≡◌, ℕ, ◌+◌, ◌*◌, ◌/◌, ◌<◌, ◌≤◌, ◌^◌, List, [], ◌∷◌, ◌++◌, length, slice_index, slice_set, IfOk, OnOk, OnErr, MatchOption};
ghost use Rattle.regalloc.specs.Steps.{IsFree, IsFull, Takes, AreLeast, HasAtMost, IsLowered};

use rj_num::NoMemory;
use std::alloc::Global;
use std::marker::Model;

/// So many places share a least last point.
const GROUP: usize = 64;

/// For each place the last point of what it holds. A place is free at each point behind that.
#[derive(Drop)]
pub struct Ends {
    last: Vec<u32>,
    /// For each group of places the least of their last points.
    least: Vec<u32>,
}

impl Model for Ends {
    ghost use Rattle.std.specs.Prelude.{List, ℕ};
    ghost use Rattle.regalloc.specs.Steps.{AreLeast};

    ghost Value = { List ℕ };

    ghost view = { λ e. e.last.items };

    ghost invariant = { λ e. AreLeast e.last.items e.least.items };
}

fn push(list: &mut Vec<u32>, number: u32) -> Result<(), NoMemory>
    ensures pushed { OnOk result (list.new.items ≡ list.old.items ++ number ∷ []) }
    ensures kept { OnErr result (list.new.items ≡ list.old.items) }
{
    match list.push(number) {
        Ok(()) => Ok(()),
        Err(_) => Err(NoMemory),
    }
}

/// Lowers the least number of a group, which is new where it stands behind all.
fn lower(least: &mut Vec<u32>, group: usize, last: u32) -> Result<(), NoMemory>
    requires { group ≤ length least.old.items }
    ensures kept { IsLowered least.old.items least.new.items }
    ensures low { OnOk result (HasAtMost least.new.items group last) }
{
    if group == least.len() {
        return push(least, last);
    }
    least[group] = least[group].min(last);
    Ok(())
}

/// The least of 64 numbers from a place on, or the greatest `u32` where there are none.
fn least_from(numbers: &[u32], start: usize) -> u32
    ensures { (j : ℕ) → start ≤ j → j < start + 64 → j < length numbers.now → result ≤ slice_index numbers.now j }
{
    let end = numbers.len().min(start.saturating_add(GROUP));
    let mut least = u32::MAX;
    for place in start..end {
        least = least.min(numbers[place]);
    }
    least
}

/// The first number from a place on that is below the point, or how many there are.
fn first_below(numbers: &[u32], start: usize, point: u32) -> usize
    ensures within { result ≤ length numbers.now }
    ensures busy { (j : ℕ) → start ≤ j → j < result → point ≤ slice_index numbers.now j }
    ensures found { result < length numbers.now → slice_index numbers.now result < point }
{
    for place in start..numbers.len() {
        if numbers[place] < point {
            return place;
        }
    }
    numbers.len()
}

impl Ends {
    /// No place is taken.
    pub fn new(alloc: Global) -> Ends
        ensures { result ≡ [] }
    {
        Ends {
            last: Vec::new(alloc),
            least: Vec::new(alloc),
        }
    }

    /// The first place that is free at the point, or a new one behind all.
    fn free_place(&self, point: u32) -> usize
        ensures { IsFree point self.now result }
    {
        let group = first_below(self.least.as_slice(), 0, point);
        first_below(self.last.as_slice(), group.saturating_mul(GROUP), point)
    }

    /// The place is taken up to the point.
    fn set(&mut self, place: usize, last: u32)
        requires { place < length self.old }
        ensures { self.new ≡ slice_set self.old place last }
    {
        self.last[place] = last;
        let group = place / GROUP;
        self.least[group] = least_from(self.last.as_slice(), group * GROUP);
    }

    /// A new place is taken up to the point.
    fn grow(&mut self, last: u32) -> Result<(), NoMemory>
        ensures { OnOk result (self.new ≡ self.old ++ last ∷ []) }
    {
        let group = self.last.len() / GROUP;
        lower(&mut self.least, group, last)?;
        push(&mut self.last, last)
    }

    /// Takes the first place that is free at the point, up to a last point; none where that isn't below the limit.
    pub fn take(&mut self, point: u32, last: u32, limit: usize) -> Result<Option<usize>, NoMemory>
        ensures { IfOk result (λ taken. MatchOption taken (IsFull point limit self.old) (λ k. Takes point last limit self.old k self.new)) }
    {
        let place = self.free_place(point);
        if limit <= place {
            return Ok(None);
        }
        if place < self.last.len() {
            self.set(place, last);
            return Ok(Some(place));
        }
        self.grow(last)?;
        Ok(Some(place))
    }
}

// Two threads count side by side: what both counted is known from outside.
ghost use Rattle.std.specs.Prelude.{◌≡◌, ◌<◌, All, IfSome};
ghost use Rattle.entry_counts.specs.Seats.{IsSeatOf};

use crate::{CountSeat, Counts};
use rj_num::NoMemory;
use std::thread;
use std::thread::Threads;

fn count(seat: &mut CountSeat)
    requires { 1 < seat.old.counts.now.symbols }
    ensures { seat.new.counts ≡ seat.old.counts }
{
    for entry in 0..3000u32 {
        seat.count(if entry % 3 == 0 { 0 } else { 1 });
    }
}

fn count_all<R: Threads + Sync>(rt: &R, counts: &Counts, seats: &mut [CountSeat<'_>])
    requires symbols { 1 < counts.now.symbols }
    requires seats { All (IsSeatOf counts.now) seats.old }
    ensures { All (IsSeatOf counts.now) seats.new }
{
    thread::for_each_mut(rt, seats, 2, &|_, seat| count(seat));
}

fn last<'a>(counts: &'a Counts, seats: &mut Vec<CountSeat<'a>>) -> Option<CountSeat<'a>>
    requires { All (IsSeatOf counts.now) seats.old.items }
    ensures seat { IfSome result (IsSeatOf counts.now) }
    ensures seats { All (IsSeatOf counts.now) seats.new.items }
{
    seats.pop()
}

#[test]
fn two_threads_count(rt: HostRuntime) -> Result<(), NoMemory> {
    let alloc = rt.alloc();
    let (counts, opening) = Counts::new(alloc, 4)?;
    let mut seats = counts.seats(alloc, opening, 2)?;
    count_all(&rt, &counts, seats.as_mut_slice());
    let (Some(mut first), Some(second)) = (last(&counts, &mut seats), last(&counts, &mut seats))
    else {
        panic!(rt; "two seats");
    };
    assert!(rt; first.own(0) == 1000 && first.own(1) == 2000 && first.own(2) == 0);
    assert!(rt; first.total(1) == 4000);
    first.join(second);
    assert!(rt; first.total(0) == 2000 && first.total(3) == 0);
    assert!(rt; first.hot(0, 2001) == Some(1) && first.hot(2, 1).is_none());
    Ok(())
}

// One thread puts jobs through a queue of eight places and another takes them: each comes out once.
use crate::{Job, QueueSeat, ReoptQueue};
use rj_num::NoMemory;
use std::sync::Wait;
use std::thread;

const JOBS: u32 = 1000;

fn job(symbol: u32) -> Job {
    Job { symbol, level: 2 }
}

fn put_all<R: Wait>(rt: &R, seat: &mut QueueSeat) {
    let mut next = 0;
    for _ in rt.forever() {
        if next >= JOBS {
            break;
        }
        match seat.put(rt, job(next)) {
            Ok(()) => next += 1,
            Err(_) => thread::yield_now(),
        }
    }
}

// The sum of the symbols of as many jobs as were put.
fn take_all<R: Wait>(rt: &R, seat: &mut QueueSeat) -> u64 {
    let mut taken = 0;
    let mut sum: u64 = 0;
    for _ in rt.forever() {
        if taken >= JOBS {
            break;
        }
        match seat.take(rt) {
            Some(job) => {
                sum = sum.wrapping_add(u64::from(job.symbol));
                taken += 1;
            }
            None => thread::yield_now(),
        }
    }
    sum
}

#[test]
fn jobs_of_two_threads(rt: HostRuntime) -> Result<(), NoMemory> {
    let alloc = rt.alloc();
    let (queue, opening) = ReoptQueue::new(alloc, 4)?;
    let mut seats = queue.seats(alloc, opening, 2)?;
    let (Some(mut first), Some(mut second)) = (seats.pop(), seats.pop()) else {
        panic!(rt; "two seats");
    };
    let ((), sum) = thread::join(
        &rt,
        || put_all(&rt, &mut first),
        || take_all(&rt, &mut second),
    );
    assert!(rt; sum == 499_500);
    assert!(rt; second.take(&rt).is_none());
    for symbol in 0..8 {
        assert!(rt; first.put(&rt, job(symbol)).is_ok(), "at {symbol}");
    }
    assert!(rt; first.put(&rt, job(8)) == Err(job(8)));
    assert!(rt; second.take(&rt) == Some(job(0)));
    Ok(())
}

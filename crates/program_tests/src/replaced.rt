//! A function is replaced between two entries of one call, while another call runs.
use crate::program::{Given, NAMES, Wanted, comes_to_by};
use jit_session::{Gate, Point};
use std::sync::atomic::{AtomicBool, AtomicU64, Ordering};
use std::test::Fail;
use std::thread;

/// `@many(n)` is the sum of twice the numbers below n, by a call for each.
const MANY: &str =
    "define i64 @twice(i64 %a) {\nentry:\n  %b = add i64 %a, %a\n  br label %out\nout:\n  ret i64 %b\n}\ndefine i64 @many(i64 %n) {\nentry:\n  br label %loop\nloop:\n  %i = phi i64 [ 0, %entry ], [ %j, %loop ]\n  %s = phi i64 [ 0, %entry ], [ %t, %loop ]\n  %d = call i64 @twice(i64 %i)\n  %t = add i64 %s, %d\n  %j = add i64 %i, 1\n  %c = icmp ult i64 %j, %n\n  br i1 %c, label %loop, label %out\nout:\n  ret i64 %t\n}\n";

/// How often a call that is held up looks whether it may go on.
const POLLS: u32 = 10_000_000;

/// The base of the first version of `@twice`, behind its header in the first word of the table.
const QUICK: u64 = 0x0100_0004;

/// Holds the second call at its first entry until the first has come to its fifth entry of `@twice`, and the first there until the second
/// has ended and level 2 of `@twice` is linked. Keeps the bases of the fifth and of the sixth entry.
#[derive(Drop)]
struct Replaced {
    entries: AtomicU64,
    second_has_ended: AtomicBool,
    linked: AtomicU64,
    fifth: AtomicU64,
    sixth: AtomicU64,
}

impl Replaced {
    /// The first call enters `@twice`.
    fn enter_first(&self, base: u64) {
        let before = self.entries.fetch_add(1, Ordering::SeqCst);
        if before == 4 {
            self.fifth.store(base, Ordering::SeqCst);
            self.hold_first();
        }
        if before == 5 {
            self.sixth.store(base, Ordering::SeqCst);
        }
    }

    fn hold_first(&self) {
        for _poll in 0..POLLS {
            let linked = self.linked.load(Ordering::SeqCst);
            if linked != 0 && self.second_has_ended.load(Ordering::SeqCst) {
                return;
            }
            thread::yield_now();
        }
    }

    fn hold_second(&self) {
        for _poll in 0..POLLS {
            if self.entries.load(Ordering::SeqCst) >= 5 {
                return;
            }
            thread::yield_now();
        }
    }
}

impl Gate for Replaced {
    fn at(&self, point: Point) {
        match point {
            Point::Entry {
                hart: _,
                call,
                symbol,
                base,
            } => {
                if call == 1 {
                    self.hold_second();
                } else if symbol == 0 {
                    self.enter_first(base);
                }
            }
            Point::Ended { hart: _, call } => {
                if call == 1 {
                    self.second_has_ended.store(true, Ordering::SeqCst);
                }
            }
            Point::Linked {
                symbol,
                level,
                base,
            } => {
                if symbol == 0 && level == 2 {
                    self.linked.store(base, Ordering::SeqCst);
                }
            }
        }
    }
}

/// What a session does that runs its harts and its worker at the same time, and none that runs them one after another.
#[test]
fn while_callers_run(rt: HostRuntime) -> Result<(), Fail> {
    let gate = Replaced {
        entries: AtomicU64::new(0),
        second_has_ended: AtomicBool::new(false),
        linked: AtomicU64::new(0),
        fifth: AtomicU64::new(0),
        sixth: AtomicU64::new(0),
    };
    let given = Given {
        words: "run a.ll c.txt --harts 2 --workers 1",
        names: NAMES,
        module: MANY,
        calls: "@many(i64 10)\n@many(i64 20)\n",
        failing: &[],
    };
    let wanted = Wanted {
        status: 0,
        out: "@many(10) = 90\n@many(20) = 380\n",
        err: "",
    };
    comes_to_by(&rt, rt.alloc(), &given, &wanted, 10, &gate)?;
    let linked = gate.linked.load(Ordering::SeqCst);
    let sixth = gate.sixth.load(Ordering::SeqCst);
    assert_eq!(rt; gate.fifth.load(Ordering::SeqCst), QUICK, "the fifth entry");
    assert!(rt; linked != 0 && linked != QUICK, "the base of level 2");
    assert_eq!(rt; sixth, linked, "the sixth entry");
    Ok(())
}

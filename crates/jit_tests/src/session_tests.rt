// Sessions with 1, 2, 7 and 16 harts, and a gate that two harts meet at.
ghost use Rattle.std.specs.Prelude.{◌≤◌};

use crate::quick::{open, prepare};
use code_epochs::OpenRefusal;
use ir_meaning::calls::Ended;
use jit_session::{Gate, NoGate, Point, Setup};
use reopt_policy::Quiet;
use session_types::Settled;
use sqlite_items::Items;
use std::alloc::Global;
use std::sync::Wait;
use std::sync::atomic::{AtomicBool, Ordering};
use std::thread;
use std::thread::Threads;

const ADD: &[u8] = b"define i64 @add(i64 %a, i64 %b) {\n%s = add i64 %a, %b\nret i64 %s\n}\n";

const SHIFT: &[u8] = b"define i8 @s(i8 %a) {\n%x = shl i8 %a, 9\nret i8 1\n}\n";

const QUOTIENT: &[u8] = b"define i8 @q(i8 %a, i8 %b) {\n%x = sdiv i8 %a, %b\nret i8 %x\n}\n";

const NARROW: &[u8] = b"define i5 @u(i5 %a, i5 %b) {\n%x = udiv i5 %a, %b\nret i5 %x\n}\n";

const SWAP: &[u8] =
    b"define i64 @swap(i64 %a, i64 %b) {\nentry:\nbr label %loop\nloop:\n%x = phi i64 [ %a, %entry ], [ %y, %loop ]\n%y = phi i64 [ %b, %entry ], [ %x, %loop ]\n%i = phi i64 [ 0, %entry ], [ %j, %loop ]\n%j = add i64 %i, 1\n%c = icmp eq i64 %j, 3\nbr i1 %c, label %out, label %loop\nout:\n%r = sub i64 %x, %y\nret i64 %r\n}\n";

const DOWN: &[u8] =
    b"define i64 @down(i64 %n) {\n%z = icmp eq i64 %n, 0\nbr i1 %z, label %done, label %more\nmore:\n%m = sub i64 %n, 1\n%r = call i64 @down(i64 %m)\nret i64 %r\ndone:\nret i64 7\n}\n";

const SPIN: &[u8] = b"define void @spin() {\nbr label %loop\nloop:\nbr label %loop\n}\n";

const TWICE: &[u8] =
    b"define i64 @twice(i64 %a) {\nentry:\n%b = add i64 %a, %a\nbr label %out\nout:\nret i64 %b\n}\n";

const CODE_WORDS: u32 = 4096;

// What the calls come to on so many harts, where there is room for the code.
fn ended<R: Threads + Wait + Sync, G: Gate + Sync>(
    rt: &R,
    alloc: Global,
    module: &[u8],
    calls: &[u8],
    harts: u32,
    gate: &G,
) -> Option<Settled>
    requires { (1 ≤ harts) × (harts ≤ 16) }
{
    let setup = Setup {
        harts,
        workers: 0,
        code_words: CODE_WORDS,
    };
    open(
        rt,
        alloc,
        prepare(alloc, module, calls)?,
        setup,
        Quiet,
        gate,
    )
    .ok()
}

// Whether each end is the wanted one at its place. Where none is wanted, any will do.
fn are_wanted(ends: &[Ended], wanted: &[Option<Ended>]) -> bool {
    if ends.len() != wanted.len() {
        return false;
    }
    for (end, want) in ends.iter().zip(wanted.iter()) {
        if let Some(want) = want
            && end != want
        {
            return false;
        }
    }
    true
}

// A module's text, calls of it, and how they end.
type Row = (&'static [u8], &'static [u8], &'static [Option<Ended>]);

const ROWS: &[Row] = &[
    (
        ADD,
        b"@add(i64 2, i64 3)\n@add(i64 9223372036854775807, i64 1)\n",
        &[
            Some(Ended::Value(5)),
            Some(Ended::Value(9_223_372_036_854_775_808)),
        ],
    ),
    (SHIFT, b"@s(i8 3)\n", &[Some(Ended::Value(1))]),
    (
        QUOTIENT,
        b"@q(i8 -128, i8 -1)\n@q(i8 -7, i8 2)\n",
        &[None, Some(Ended::Value(253))],
    ),
    (NARROW, b"@u(i5 31, i5 3)\n", &[Some(Ended::Value(10))]),
    (
        SWAP,
        b"@swap(i64 10, i64 3) turns 23\n",
        &[Some(Ended::Value(7))],
    ),
    (
        DOWN,
        b"@down(i64 32767)\n@down(i64 32768)\n",
        &[Some(Ended::Value(7)), Some(Ended::Stack)],
    ),
    (
        SPIN,
        b"@spin() turns 100\n",
        &[Some(Ended::Fuel { spent: 25_600 })],
    ),
];

// Whether the calls of a row end as wanted on so many harts, each of which has its row of counts.
fn ends_so<R: Threads + Wait + Sync>(rt: &R, alloc: Global, row: &Row, harts: u32) -> bool
    requires { (1 ≤ harts) × (harts ≤ 16) }
{
    let (module, calls, wanted) = *row;
    match ended(rt, alloc, module, calls, harts, &NoGate) {
        Some(s) => s.by_hart.len() == harts as usize && are_wanted(s.answers.as_slice(), wanted),
        None => false,
    }
}

#[test]
fn calls_end_as_their_evaluations(rt: HostRuntime) {
    for row in ROWS {
        assert!(rt; ends_so(&rt, rt.alloc(), row, 1));
        assert!(rt; ends_so(&rt, rt.alloc(), row, 2));
        assert!(rt; ends_so(&rt, rt.alloc(), row, 7));
        assert!(rt; ends_so(&rt, rt.alloc(), row, 16));
    }
}

// How often a hart counted the first symbol.
fn number_at(by_hart: &[Items<u64>], hart: usize) -> Option<u64> {
    match by_hart.get(hart) {
        Some(row) => row.as_slice().first().copied(),
        None => None,
    }
}

#[test]
fn counts(rt: HostRuntime) {
    let calls = b"@down(i64 4)\n@down(i64 0)\n@down(i64 2)\n";
    let Some(s) = ended(&rt, rt.alloc(), DOWN, calls, 2, &NoGate) else {
        panic!(rt; "there is memory");
    };
    assert!(rt; s.by_hart.len() == 2 && s.rows.len() == 1);
    assert!(rt; number_at(s.by_hart.as_slice(), 0) == Some(8));
    assert!(rt; number_at(s.by_hart.as_slice(), 1) == Some(1));
    let Some(row) = s.rows.as_slice().first() else {
        panic!(rt; "there is a row");
    };
    assert!(rt; row.entries == 9 && row.level == 1 && s.used == row.words.wrapping_add(1));
}

// The session of a call of `@twice` on two harts with so many code words. Its code takes 19 words, and a header.
fn twice<R: Threads + Wait + Sync>(
    rt: &R,
    alloc: Global,
    code_words: u32,
) -> Option<Result<Settled, OpenRefusal>>
    requires { (1 ≤ code_words) × (code_words ≤ 4194304) }
{
    let setup = Setup {
        harts: 2,
        workers: 0,
        code_words,
    };
    let prepared = prepare(alloc, TWICE, b"@twice(i64 21)\n")?;
    Some(open(rt, alloc, prepared, setup, Quiet, &NoGate))
}

#[test]
fn code_fits_or_not(rt: HostRuntime) {
    let Some(Err(OpenRefusal::NoRoom { needed, room })) = twice(&rt, rt.alloc(), 19) else {
        panic!(rt; "there is no room");
    };
    assert!(rt; needed == 20 && room == 19);
    let Some(Ok(s)) = twice(&rt, rt.alloc(), 20) else {
        panic!(rt; "there is room");
    };
    assert!(rt; are_wanted(s.answers.as_slice(), &[Some(Ended::Value(42))]) && s.used == 20);
}

// How often a hart looks for the other.
const LOOKS: u32 = 1 << 22;

// Two harts wait for each other in a call, so long as the looks last.
#[derive(Drop)]
struct Meeting {
    first: AtomicBool,
    second: AtomicBool,
    met: AtomicBool,
}

impl Meeting {
    fn of(&self, hart: u32) -> (&AtomicBool, &AtomicBool) {
        if hart == 0 {
            (&self.first, &self.second)
        } else {
            (&self.second, &self.first)
        }
    }

    // A hart is in a call, and looks for the other one.
    fn enter(&self, hart: u32) {
        let (mine, other) = self.of(hart);
        mine.store(true, Ordering::SeqCst);
        for _look in 0..LOOKS {
            if other.load(Ordering::SeqCst) {
                self.met.store(true, Ordering::SeqCst);
                return;
            }
            thread::yield_now();
        }
    }

    fn leave(&self, hart: u32) {
        self.of(hart).0.store(false, Ordering::SeqCst);
    }
}

impl Gate for Meeting {
    fn at(&self, point: Point) {
        match point {
            Point::Entry {
                hart,
                call: _,
                symbol: _,
                base: _,
            } => self.enter(hart),
            Point::Ended { hart, call: _ } => self.leave(hart),
            Point::Linked {
                symbol: _,
                level: _,
                base: _,
            } => {}
        }
    }
}

// One hart sees the other in a call while it is in one itself.
#[test]
fn two_harts_meet(rt: HostRuntime) {
    let gate = Meeting {
        first: AtomicBool::new(false),
        second: AtomicBool::new(false),
        met: AtomicBool::new(false),
    };
    let calls = b"@add(i64 1, i64 2)\n@add(i64 3, i64 4)\n";
    let Some(s) = ended(&rt, rt.alloc(), ADD, calls, 2, &gate) else {
        panic!(rt; "there is memory");
    };
    assert!(rt;
        are_wanted(
            s.answers.as_slice(),
            &[Some(Ended::Value(3)), Some(Ended::Value(7))]
        )
    );
    assert!(rt; gate.met.load(Ordering::SeqCst));
}

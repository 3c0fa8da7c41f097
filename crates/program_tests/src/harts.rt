//! Calls on many harts: each begins with the first data memory, and their answers stand in the order of the list.
use crate::program::answers;
use crate::texts::{ADD, DOWN, KEEPS, TWO};
use std::test::Fail;

#[test]
fn in_order(rt: HostRuntime) -> Result<(), Fail> {
    let rows = [
        ("", "", 0, "", ""),
        (
            KEEPS,
            "@keep(i32 10)\n@keep(i32 20)\n@keep(i32 7)\n@keep(i32 -1)\n",
            0,
            "@keep(10) = 3\n@keep(20) = 13\n@keep(7) = 0\n@keep(-1) = -8\n",
            "",
        ),
        (
            DOWN,
            "@down(i64 32768)\n@down(i64 9) turns 1\n@down(i64 0)\n",
            1,
            "@down(32768) = stack\n@down(9) = fuel 256\n@down(0) = 7\n",
            "",
        ),
        (
            ADD,
            "@add(i64 2)\n",
            2,
            "",
            "reopt: calls: line 1: wrong arguments\n",
        ),
    ];
    for row in rows {
        answers(&rt, rt.alloc(), "run a.ll c.txt", row)?;
        answers(&rt, rt.alloc(), "run a.ll c.txt --harts 2", row)?;
        answers(&rt, rt.alloc(), "run a.ll c.txt --harts 7", row)?;
        answers(&rt, rt.alloc(), "run a.ll c.txt --harts 16", row)?;
    }
    Ok(())
}

/// The rows of a session behind its answers.
#[test]
fn with_rows(rt: HostRuntime) -> Result<(), Fail> {
    let out =
        "@two(40) = 42\n@inc(1) = 2\n@two entries 1 level 1 words 23\n@inc entries 3 level 1 words 19\ncode words 44\n";
    let row = (TWO, "@two(i64 40)\n@inc(i64 1)\n", 0, out, "");
    answers(&rt, rt.alloc(), "run a.ll c.txt --report", row)?;
    answers(&rt, rt.alloc(), "run --report a.ll c.txt --harts=2", row)
}

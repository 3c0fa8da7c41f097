//! Modules, calls, and their answers.
use crate::program::answers;
use crate::texts::{
    ADD, ALLOCATES, DEEP, DOWN, FIBONACCI, FIVE_BITS, NARROW, NINE, OTHERS, PARTS, QUOTIENT,
    SHIFTED, SPIN, SUM, SWAP, SWITCHES, TWO, UNASSIGNED, UNREACHED,
};
use std::test::Fail;

/// Rows that `run` and `eval` answer in the same way.
#[test]
fn by_both(rt: HostRuntime) -> Result<(), Fail> {
    let rows = [
        ("", "", 0, "", ""),
        (ADD, "", 0, "", ""),
        (ADD, "@add(i64 2, i64 3)", 0, "@add(2, 3) = 5\n", ""),
        (
            ADD,
            "; two calls\r\n@add(i64 2, i64 3)\r\n\n@add(i64 9223372036854775807, i64 1)",
            0,
            "@add(2, 3) = 5\n@add(9223372036854775807, 1) = -9223372036854775808\n",
            "",
        ),
        (SHIFTED, "@s(i8 3)", 0, "@s(3) = 1\n", ""),
        (QUOTIENT, "@q(i8 -7, i8 2)\n", 0, "@q(-7, 2) = -3\n", ""),
        (FIVE_BITS, "@u(i5 31, i5 3)", 0, "@u(-1, 3) = 10\n", ""),
        (
            SWAP,
            "@swap(i64 10, i64 3) turns 23\n",
            0,
            "@swap(10, 3) = 7\n",
            "",
        ),
        (
            DOWN,
            "@down(i64 32767)\n@down(i64 32768)\n",
            1,
            "@down(32767) = 7\n@down(32768) = stack\n",
            "",
        ),
        (UNREACHED, "@v()\n", 0, "@v() = 4\n", ""),
        (
            OTHERS,
            "@f(i64 -7, i64 18446744073709551615)\n",
            0,
            "@f(-7, -1) = -37\n",
            "",
        ),
        (
            TWO,
            "@two(i64 40)\n@inc(i64 -1) turns 4",
            0,
            "@two(40) = 42\n@inc(-1) = 0\n",
            "",
        ),
        (
            FIBONACCI,
            "@loop(i64 0)\n@loop(i64 90)\n@calls(i64 12)\n",
            0,
            "@loop(0) = 0\n@loop(90) = 2880067194370816120\n@calls(12) = 144\n",
            "",
        ),
        (
            NARROW,
            "@mean(i8 -7, i8 -4)\n@half(i32 -9, i32 5)\n@none(i64 1)\n",
            0,
            "@mean(-7, -4) = -5\n@half(-9, 5) = -5\n@none(1) = void\n",
            "",
        ),
        (
            SWITCHES,
            "@d(i8 7)\n@d(i8 255)\n@d(i8 3)\n",
            0,
            "@d(7) = 7\n@d(-1) = 10\n@d(3) = 20\n",
            "",
        ),
        (ALLOCATES, "@d()\n", 0, "@d() = 3\n", ""),
        (PARTS, "@d()\n", 0, "@d() = 3\n", ""),
        (
            "define float @f() {\n  ret float 0\n}\n",
            "",
            2,
            "",
            "reopt: module: left out at 7: float\n",
        ),
        (
            "define i64 @f() {\n  ret i64 %x\n}\n",
            "",
            2,
            "",
            "reopt: module: name at 28: %x\n",
        ),
        (SUM, "@sum(i32 1) turns 53", 0, "@sum(1) = -2\n", ""),
        (
            UNASSIGNED,
            "",
            2,
            "",
            "reopt: verify: @w: value 1 not assigned on 0 2 3\n",
        ),
        (NINE, "", 2, "", "reopt: module: limit parameters 9\n"),
        (
            ADD,
            "@add(i64 2)",
            2,
            "",
            "reopt: calls: line 1: wrong arguments\n",
        ),
        (
            ADD,
            "\n@nope()",
            2,
            "",
            "reopt: calls: line 2: no such function\n",
        ),
        (
            ADD,
            "@add(i64 2, i64 3) turns 0",
            2,
            "",
            "reopt: calls: line 1: syntax\n",
        ),
        (
            "define i64 @f(i64 %a) {\n  %x = add i64 %a,",
            "",
            2,
            "",
            "reopt: module: syntax at 42\n",
        ),
        (
            "@g = global [131073 x i64] zeroinitializer\n",
            "",
            2,
            "",
            "reopt: image: needs 1048592 bytes, has 1048576\n",
        ),
    ];
    for row in rows {
        answers(&rt, rt.alloc(), "run a.ll c.txt", row)?;
        answers(&rt, rt.alloc(), "run a.ll c.txt --harts 2", row)?;
        answers(&rt, rt.alloc(), "run a.ll c.txt --harts 7", row)?;
        answers(&rt, rt.alloc(), "run a.ll c.txt --harts 16", row)?;
        answers(&rt, rt.alloc(), "eval a.ll c.txt", row)?;
    }
    Ok(())
}

/// A call that doesn't end spends all of its fuel, and one that calls itself without an end comes to the end of its stack or of its fuel.
#[test]
fn by_run(rt: HostRuntime) -> Result<(), Fail> {
    let rows = [
        (SPIN, "@spin() turns 100\n", 1, "@spin() = fuel 25600\n", ""),
        (
            DEEP,
            "@r(i64 1)\n@r(i64 1) turns 100\n",
            1,
            "@r(1) = stack\n@r(1) = fuel 25600\n",
            "",
        ),
    ];
    for row in rows {
        answers(&rt, rt.alloc(), "run a.ll c.txt", row)?;
        answers(&rt, rt.alloc(), "run a.ll c.txt --harts 16", row)?;
    }
    Ok(())
}

/// Answers that `eval` alone gives: the exact turns, and calls without a meaning.
#[test]
fn by_eval(rt: HostRuntime) -> Result<(), Fail> {
    let rows = [
        (
            QUOTIENT,
            "@q(i8 -128, i8 -1)\n@q(i8 -7, i8 2)\n",
            1,
            "@q(-128, -1) = undefined\n@q(-7, 2) = -3\n",
            "",
        ),
        (
            SWAP,
            "@swap(i64 10, i64 3) turns 22\n",
            1,
            "@swap(10, 3) = not ended\n",
            "",
        ),
        (SPIN, "@spin() turns 100", 1, "@spin() = not ended\n", ""),
        (
            ADD,
            "@add(i64 2, i64 3) turns 4\n@add(i64 2, i64 3) turns 3\n",
            1,
            "@add(2, 3) = 5\n@add(2, 3) = not ended\n",
            "",
        ),
        (SUM, "@sum(i32 1) turns 52", 1, "@sum(1) = not ended\n", ""),
    ];
    for row in rows {
        answers(&rt, rt.alloc(), "eval a.ll c.txt", row)?;
    }
    Ok(())
}

/// Ends of lines, and texts of nothing.
#[test]
fn ends_of_lines(rt: HostRuntime) -> Result<(), Fail> {
    let rows = [
        (
            "define i64 @f(i64 %a) {\r\n  ret i64 %a\r\n}\r\n",
            "@f(i64 1)\r\n@f(i64 2)\r\n",
            0,
            "@f(1) = 1\n@f(2) = 2\n",
            "",
        ),
        (ADD, "", 0, "", ""),
        (ADD, "\r\n\r\n", 0, "", ""),
        (ADD, "@add(i64 1, i64 2)", 0, "@add(1, 2) = 3\n", ""),
        (
            ADD,
            "@add(i64 1, i64 2)\r",
            2,
            "",
            "reopt: calls: line 1: syntax\n",
        ),
        (
            ADD,
            "@add(i64 1, i64 2)\r\r\n",
            2,
            "",
            "reopt: calls: line 1: syntax\n",
        ),
        (
            ADD,
            "; a list\n @add(i64 1, i64 2)\n",
            2,
            "",
            "reopt: calls: line 2: syntax\n",
        ),
        (
            "",
            "@add(i64 1, i64 2)\n",
            2,
            "",
            "reopt: calls: line 1: no such function\n",
        ),
        ("; only\r\n", "; this\n", 0, "", ""),
        ("add\n", "", 2, "", "reopt: module: syntax at 0\n"),
    ];
    for row in rows {
        answers(&rt, rt.alloc(), "eval a.ll c.txt", row)?;
        answers(&rt, rt.alloc(), "run a.ll c.txt", row)?;
    }
    Ok(())
}

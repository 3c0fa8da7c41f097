//! The commands that the README of the repository shows.
use crate::program::{Given, written};
use crate::texts::{ADD, TWICE};
use std::test::Fail;

/// The README's block of commands: the two files, and what each command writes.
const SHOWN: &str =
    "$ cat examples/add.ll\ndefine i64 @add(i64 %a, i64 %b) {\n  %s = add i64 %a, %b\n  ret i64 %s\n}\n$ cat examples/add.calls\n@add(i64 2, i64 3)\n$ ./reopt run examples/add.ll examples/add.calls\n@add(2, 3) = 5\n$ ./reopt run examples/add.ll examples/add.calls --harts 4 --report\n@add(2, 3) = 5\n@add entries 1 level 1 words 20\ncode words 21\n$ ./reopt eval examples/add.ll examples/add.calls\n@add(2, 3) = 5\n$ ./reopt sim examples/add.ll examples/add.calls --steps 0\n@add(2, 3) = 5\nversions 1\n$ ./reopt big 6400 --harts 4 --workers 2\ncalls 6400 value 6400 void 0 stack 0 fuel 0 fault 0 sum 667680000\n$ ./reopt dump examples/twice.ll\n@twice level 1 words 19\n00100293 addi t0,x0,1\n00000313 addi t1,x0,0\n00000073 ecall\nf4010293 addi t0,sp,-192\n400003b7 lui t2,0x40000\n0072f663 bgeu t0,t2,12\n00200293 addi t0,x0,2\n00000073 ecall\nf4010113 addi sp,sp,-192\n0a113c23 sd ra,184(sp)\n00a13023 sd a0,0(sp)\n00013283 ld t0,0(sp)\n00013303 ld t1,0(sp)\n006282b3 add t0,t0,t1\n02513023 sd t0,32(sp)\n02013503 ld a0,32(sp)\n0b813083 ld ra,184(sp)\n0c010113 addi sp,sp,192\n00008067 jalr x0,0(ra)\n";

/// The list of calls.
const CALLS: &str = "@add(i64 2, i64 3)\n";

/// The files that a command is shown with.
fn names(words: &str) -> [&'static str; 2] {
    if words.contains("twice") {
        ["examples/twice.ll", "examples/add.calls"]
    } else {
        ["examples/add.ll", "examples/add.calls"]
    }
}

/// The module in the first of them.
fn module(words: &str) -> &'static str {
    if words.contains("twice") { TWICE } else { ADD }
}

#[test]
fn shows_what_is_written(rt: HostRuntime) -> Result<(), Fail> {
    let alloc = rt.alloc();
    let mut page: Vec<u8> = Vec::new(alloc);
    page.extend_from_slice(b"$ cat examples/add.ll\n")?;
    page.extend_from_slice(ADD.as_bytes())?;
    page.extend_from_slice(b"$ cat examples/add.calls\n")?;
    page.extend_from_slice(CALLS.as_bytes())?;
    for words in [
        "run examples/add.ll examples/add.calls",
        "run examples/add.ll examples/add.calls --harts 4 --report",
        "eval examples/add.ll examples/add.calls",
        "sim examples/add.ll examples/add.calls --steps 0",
        "big 6400 --harts 4 --workers 2",
        "dump examples/twice.ll",
    ] {
        let given = Given {
            words,
            names: names(words),
            module: module(words),
            calls: CALLS,
            failing: &[],
        };
        let out = written(&rt, alloc, &given)?;
        let command = format!(in alloc; "$ ./reopt {words}\n")?;
        page.extend_from_slice(command.as_bytes())?;
        page.extend_from_slice(out.bytes())?;
    }
    assert_eq!(rt; page.as_slice(), SHOWN.as_bytes());
    Ok(())
}

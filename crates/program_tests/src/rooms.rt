//! Room for code and for data, that is enough and that isn't.
use crate::program::answers;
use crate::texts::TWICE;
use std::test::Fail;

/// The calls of `@twice`.
const CALLS: &str = "@twice(i64 21)\n";

/// What is said where the table of code has a word too few.
const NO_ROOM: &str = "reopt: code: needs 20 words, has 19\n";

/// 19 words and a header, and nothing that another version fits in; 64 functions, of 15 words and then of 23 each, and their headers.
#[test]
fn for_code(rt: HostRuntime) -> Result<(), Fail> {
    let many = "reopt: code: needs 1528 words, has 1527\n";
    let counts = "calls 1 value 1 void 0 stack 0 fuel 0 fault 0 sum 0\n";
    let drawn = "@twice(21) = 42\nversions 1\n";
    let rows = [
        ("run a.ll c.txt --code-words 19", 7, "", NO_ROOM),
        ("run a.ll c.txt --code-words 19 --harts 16", 7, "", NO_ROOM),
        ("run a.ll c.txt --code-words 20", 0, "@twice(21) = 42\n", ""),
        ("sim a.ll c.txt --code-words 19", 7, "", NO_ROOM),
        ("sim a.ll c.txt --code-words 20", 0, drawn, ""),
        ("big 1 --code-words 1527", 7, "", many),
        ("big 1 --code-words 1528", 0, counts, ""),
    ];
    for (words, status, out, err) in rows {
        answers(&rt, rt.alloc(), words, (TWICE, CALLS, status, out, err))?;
    }
    Ok(())
}

/// A global of 4,800 bytes.
#[test]
fn for_data(rt: HostRuntime) -> Result<(), Fail> {
    let module = "@g = global [600 x i64] zeroinitializer\n";
    let few = "reopt: image: needs 4800 bytes, has 4096\n";
    let rows = [
        ("run a.ll c.txt --room 512", 3, "", "reopt: usage\n"),
        ("run a.ll c.txt --room 4096", 2, "", few),
        ("eval a.ll c.txt --room 4096", 2, "", few),
        ("sim a.ll c.txt --room 4096", 2, "", few),
        ("run a.ll c.txt --room 4800", 0, "", ""),
        ("eval a.ll c.txt --room 4800", 0, "", ""),
        ("sim a.ll c.txt --room 4800", 0, "versions 0\n", ""),
    ];
    for (words, status, out, err) in rows {
        answers(&rt, rt.alloc(), words, (module, "", status, out, err))?;
    }
    Ok(())
}

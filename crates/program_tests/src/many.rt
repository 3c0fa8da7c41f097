//! Many calls on harts.
use crate::program::{Given, NAMES, Wanted, answers, comes_to};
use std::alloc::{AllocError, Global};
use std::test::Fail;

/// The line of 6,400 calls.
const COUNTS: &str = "calls 6400 value 6400 void 0 stack 0 fuel 0 fault 0 sum 667680000\n";

/// The report of 6,400 calls, a hundred of each function, which enter it and all before it. The first function has 15 words; each other
/// has four more for its call, and four for its sum.
fn report(alloc: Global) -> Result<String, AllocError> {
    let mut text = String::from_str(alloc, COUNTS)?;
    text.push_str("@f0 entries 6400 level 1 words 15\n")?;
    for place in 1..64u32 {
        let entries = 100 * (64 - place);
        let row = format!(in alloc; "@f{place} entries {entries} level 1 words 23\n")?;
        text.push_str(&row)?;
    }
    text.push_str("code words 1528\n")?;
    Ok(text)
}

#[test]
fn with_rows(rt: HostRuntime) -> Result<(), Fail> {
    let text = report(rt.alloc())?;
    for words in [
        "big 6400 --report",
        "big 6400 --harts 2 --report",
        "big --harts 7 6400 --report",
        "big --report --harts=16 -- 6400",
    ] {
        answers(&rt, rt.alloc(), words, ("", "", 0, &text, ""))?;
    }
    Ok(())
}

/// One call, and as many as there may be.
#[test]
fn with_counts(rt: HostRuntime) -> Result<(), Fail> {
    let rows = [
        (
            "big 1",
            "calls 1 value 1 void 0 stack 0 fuel 0 fault 0 sum 0\n",
        ),
        ("big 6400 --harts 4 --workers 2", COUNTS),
        (
            "big 65536 --harts 4",
            "calls 65536 value 65536 void 0 stack 0 fuel 0 fault 0 sum 69814517760\n",
        ),
    ];
    for (words, out) in rows {
        answers(&rt, rt.alloc(), words, ("", "", 0, out, ""))?;
    }
    Ok(())
}

/// No file is read.
#[test]
fn without_files(rt: HostRuntime) -> Result<(), Fail> {
    let given = Given {
        words: "big 6400",
        names: NAMES,
        module: "",
        calls: "",
        failing: &[0, 1],
    };
    let wanted = Wanted {
        status: 0,
        out: COUNTS,
        err: "",
    };
    comes_to(&rt, rt.alloc(), &given, &wanted)
}

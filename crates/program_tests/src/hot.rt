//! Functions that are hot: what a session of any number of harts and workers settles at.
use crate::program::{Given, NAMES, Wanted, comes_to_by};
use crate::texts::TWICE;
use jit_session::NoGate;
use std::alloc::{AllocError, Global};
use std::process::Abort;
use std::sync::Wait;
use std::test::Fail;
use std::thread::Threads;

/// The calls of `@twice` of the numbers from 0 to 999, a line each.
fn calls(alloc: Global) -> Result<String, AllocError> {
    let mut text = String::new(alloc);
    for i in 0..1000u32 {
        let line = format!(in alloc; "@twice(i64 {i})\n")?;
        text.push_str(&line)?;
    }
    Ok(text)
}

/// The answers to these calls, and these rows behind them.
fn report(alloc: Global, rows: &str) -> Result<String, AllocError> {
    let mut text = String::new(alloc);
    for i in 0..1000u32 {
        let line = format!(in alloc; "@twice({i}) = {}\n", 2 * i)?;
        text.push_str(&line)?;
    }
    text.push_str(rows)?;
    Ok(text)
}

/// Runs the calls by these words, and compares all that goes out.
fn on<'a>(
    rt: &(impl Abort + Threads + Wait + Sync),
    alloc: Global,
    words: &'a str,
    calls: &'a str,
    out: &'a str,
) -> Result<(), Fail> {
    let given = Given {
        words,
        names: NAMES,
        module: TWICE,
        calls,
        failing: &[],
    };
    let wanted = Wanted {
        status: 0,
        out,
        err: "",
    };
    comes_to_by(rt, alloc, &given, &wanted, 10, &NoGate)
}

/// Runs the calls on 1, 2, 7 and 16 harts with these options, and compares all that goes out.
fn on_harts(
    rt: &(impl Abort + Threads + Wait + Sync),
    alloc: Global,
    options: &str,
    calls: &str,
    out: &str,
) -> Result<(), Fail> {
    for harts in [1, 2, 7, 16] {
        let words = format!(in alloc; "run a.ll c.txt --harts {harts} {options}")?;
        on(rt, alloc, &words, calls, out)?;
    }
    Ok(())
}

/// With room, the function comes to its second level, and the words of its first version are free again.
#[test]
fn with_room(rt: HostRuntime) -> Result<(), Fail> {
    let alloc = rt.alloc();
    let calls = calls(alloc)?;
    let out = report(
        alloc,
        "@twice entries 1000 level 2 words 19\ncode words 20\n",
    )?;
    on_harts(&rt, alloc, "--workers 0 --report", &calls, &out)?;
    on_harts(&rt, alloc, "--workers 3 --report", &calls, &out)
}

/// Without room for a second version, the job is refused, and the answers are the same.
#[test]
fn without_room(rt: HostRuntime) -> Result<(), Fail> {
    let alloc = rt.alloc();
    let calls = calls(alloc)?;
    let out = report(
        alloc,
        "@twice entries 1000 level 1 words 19\nrefused @twice level 2 no room 20 0\ncode words 20\n",
    )?;
    let options = "--code-words 20 --report --workers";
    let without = format!(in alloc; "{options} 0")?;
    on_harts(&rt, alloc, &without, &calls, &out)?;
    let with = format!(in alloc; "{options} 3")?;
    on_harts(&rt, alloc, &with, &calls, &out)
}

/// The rows of 6,400 calls of the module of many calls, whose last function is entered a hundred times: each is hot.
fn many(alloc: Global) -> Result<String, AllocError> {
    let mut text = String::from_str(
        alloc,
        "calls 6400 value 6400 void 0 stack 0 fuel 0 fault 0 sum 667680000\n@f0 entries 6400 level 2 words 15\n",
    )?;
    for place in 1..64u32 {
        let entries = 100 * (64 - place);
        let row = format!(in alloc; "@f{place} entries {entries} level 2 words 23\n")?;
        text.push_str(&row)?;
    }
    text.push_str("code words 1528\n")?;
    Ok(text)
}

#[test]
fn each_of_many(rt: HostRuntime) -> Result<(), Fail> {
    let alloc = rt.alloc();
    let out = many(alloc)?;
    for words in [
        "big 6400 --report",
        "big 6400 --harts 4 --workers 2 --report",
    ] {
        let given = Given {
            words,
            names: NAMES,
            module: "",
            calls: "",
            failing: &[],
        };
        let wanted = Wanted {
            status: 0,
            out: &out,
            err: "",
        };
        comes_to_by(&rt, alloc, &given, &wanted, 100, &NoGate)?;
    }
    Ok(())
}

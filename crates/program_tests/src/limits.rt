//! Texts at their limits, and one past them.
use crate::program::answers;
use std::alloc::{AllocError, Global};
use std::process::Abort;
use std::sync::Wait;
use std::test::Fail;
use std::thread::Threads;

/// So many functions.
fn functions(alloc: Global, many: u32) -> Result<String, AllocError> {
    let mut text = String::new(alloc);
    for number in 0..many {
        let function = format!(in alloc; "define void @f{number}() {{\n  ret void\n}}\n")?;
        text.push_str(&function)?;
    }
    Ok(text)
}

/// So many globals.
fn globals(alloc: Global, many: u32) -> Result<String, AllocError> {
    let mut text = String::new(alloc);
    for number in 0..many {
        let global = format!(in alloc; "@g{number} = global i8 0\n")?;
        text.push_str(&global)?;
    }
    Ok(text)
}

/// A function of so many units, and the one of its return.
fn units(alloc: Global, many: u32) -> Result<String, AllocError> {
    let mut text = String::from_str(alloc, "define void @f(i64 %a) {\n")?;
    for number in 0..many {
        let inst = format!(in alloc; "  %v{number} = add i64 %a, 1\n")?;
        text.push_str(&inst)?;
    }
    text.push_str("  ret void\n}\n")?;
    Ok(text)
}

/// A piece so often.
fn often(alloc: Global, piece: &str, many: u32) -> Result<String, AllocError> {
    let mut text = String::new(alloc);
    for _number in 0..many {
        text.push_str(piece)?;
    }
    Ok(text)
}

const RUN: &str = "run a.ll c.txt";

/// What the text of a module comes to, on no calls.
fn reads(
    rt: &(impl Abort + Threads + Wait + Sync),
    alloc: Global,
    text: &str,
    status: u8,
    err: &str,
) -> Result<(), Fail> {
    answers(rt, alloc, RUN, (text, "", status, "", err))
}

#[test]
fn of_modules(rt: HostRuntime) -> Result<(), Fail> {
    let alloc = rt.alloc();
    reads(&rt, alloc, &functions(alloc, 1024)?, 0, "")?;
    reads(
        &rt,
        alloc,
        &functions(alloc, 1025)?,
        2,
        "reopt: module: limit functions 1025\n",
    )?;
    reads(&rt, alloc, &globals(alloc, 4096)?, 0, "")?;
    reads(
        &rt,
        alloc,
        &globals(alloc, 4097)?,
        2,
        "reopt: module: limit globals 4097\n",
    )?;
    reads(&rt, alloc, &units(alloc, 16_383)?, 0, "")?;
    reads(
        &rt,
        alloc,
        &units(alloc, 16_384)?,
        2,
        "reopt: module: limit units 16385\n",
    )?;
    reads(&rt, alloc, &often(alloc, " ", 4_194_304)?, 0, "")?;
    reads(
        &rt,
        alloc,
        &often(alloc, " ", 4_194_305)?,
        2,
        "reopt: module: limit bytes 4194305\n",
    )
}

#[test]
fn of_lists(rt: HostRuntime) -> Result<(), Fail> {
    let alloc = rt.alloc();
    let module = "define void @f() {\n  ret void\n}\n";
    let calls = often(alloc, "@f()\n", 65_536)?;
    let lines = often(alloc, "@f() = void\n", 65_536)?;
    answers(&rt, alloc, RUN, (module, &calls, 0, &lines, ""))?;
    let calls = often(alloc, "@f()\n", 65_537)?;
    answers(
        &rt,
        alloc,
        RUN,
        (module, &calls, 2, "", "reopt: calls: limit 65537\n"),
    )
}

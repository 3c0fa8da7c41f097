//! The program over files and sinks in memory.
use jit_main::{reopt, serial};
use jit_session::{Gate, NoGate};
use reopt_policy::{Marks, Quiet, ReoptPolicy};
use rj_io::{MemFiles, MemSink};
use std::alloc::{AllocError, Global};
use std::process::Abort;
use std::sync::Wait;
use std::test::Fail;
use std::thread::Threads;

/// The names of the two files that are there.
pub const NAMES: [&str; 2] = ["a.ll", "c.txt"];

/// What a command is run on: files of these names with the texts of a module and of its calls, and the numbers of the loads that fail.
#[derive(Drop)]
pub struct Given<'a> {
    pub words: &'a str,
    pub names: [&'a str; 2],
    pub module: &'a str,
    pub calls: &'a str,
    pub failing: &'a [u64],
}

/// What a command comes to: its status, and what `out` and `err` take.
#[derive(Drop)]
pub struct Wanted<'a> {
    pub status: u8,
    pub out: &'a str,
    pub err: &'a str,
}

/// The bytes that a sink takes.
const MOST: usize = 1_000_000;

fn words_of(alloc: Global, line: &str) -> Result<Vec<String>, AllocError> {
    let mut words = Vec::new(alloc);
    for word in line.split_whitespace() {
        words.push(String::from_str(alloc, word)?)?;
    }
    Ok(words)
}

fn files_of(alloc: Global, given: &Given<'_>) -> Result<MemFiles, AllocError> {
    let mut held = Vec::new(alloc);
    held.push((
        String::from_str(alloc, given.names[0])?,
        given.module.as_bytes().to_vec(alloc)?,
    ))?;
    held.push((
        String::from_str(alloc, given.names[1])?,
        given.calls.as_bytes().to_vec(alloc)?,
    ))?;
    Ok(MemFiles::new(held, given.failing.to_vec(alloc)?))
}

/// Carries out a command into these sinks, and answers its status.
pub fn carry_out(
    rt: &(impl Threads + Wait + Sync),
    alloc: Global,
    given: &Given<'_>,
    out: &mut MemSink,
    err: &mut MemSink,
) -> Result<u8, AllocError> {
    carry_out_by(rt, alloc, given, out, err, Quiet, &NoGate)
}

/// The same by this policy, with a gate.
pub fn carry_out_by<P: ReoptPolicy + Send, G: Gate + Sync>(
    rt: &(impl Threads + Wait + Sync),
    alloc: Global,
    given: &Given<'_>,
    out: &mut MemSink,
    err: &mut MemSink,
    policy: P,
    gate: &G,
) -> Result<u8, AllocError> {
    let mut files = files_of(alloc, given)?;
    let words = words_of(alloc, given.words)?;
    Ok(reopt(rt, alloc, &words, &mut files, out, err, policy, gate))
}

/// Carries out a command by a policy of one mark, with a gate, and compares all that it leaves.
pub fn comes_to_by<G: Gate + Sync>(
    rt: &(impl Abort + Threads + Wait + Sync),
    alloc: Global,
    given: &Given<'_>,
    wanted: &Wanted<'_>,
    mark: u64,
    gate: &G,
) -> Result<(), Fail> {
    let mut out = MemSink::new(alloc, MOST, MOST, Vec::new(alloc))?;
    let mut err = MemSink::new(alloc, MOST, MOST, Vec::new(alloc))?;
    let Some(marks) = Marks::new(vec![in alloc; mark]?) else {
        panic!(rt; "one mark is none");
    };
    let status = carry_out_by(rt, alloc, given, &mut out, &mut err, marks, gate)?;
    let words = given.words;
    assert_eq!(rt; status, wanted.status, "the status of {words}");
    assert_eq!(rt; out.bytes(), wanted.out.as_bytes(), "the output of {words}");
    assert_eq!(rt; err.bytes(), wanted.err.as_bytes(), "what {words} says");
    Ok(())
}

/// What `serial` answers, and what goes out.
pub fn alone(alloc: Global, given: &Given<'_>) -> Result<(Option<u8>, MemSink), AllocError> {
    let mut files = files_of(alloc, given)?;
    let mut out = MemSink::new(alloc, MOST, MOST, Vec::new(alloc))?;
    let mut err = MemSink::new(alloc, MOST, MOST, Vec::new(alloc))?;
    let words = words_of(alloc, given.words)?;
    let status = serial(alloc, &words, &mut files, &mut out, &mut err);
    Ok((status, out))
}

/// Carries out a command that answers all and says nothing: what goes out.
pub fn written(
    rt: &(impl Abort + Threads + Wait + Sync),
    alloc: Global,
    given: &Given<'_>,
) -> Result<MemSink, Fail> {
    let mut out = MemSink::new(alloc, MOST, MOST, Vec::new(alloc))?;
    let mut err = MemSink::new(alloc, MOST, MOST, Vec::new(alloc))?;
    let status = carry_out(rt, alloc, given, &mut out, &mut err)?;
    let words = given.words;
    assert_eq!(rt; status, 0, "the status of {words}");
    assert_eq!(rt; err.bytes(), b"".as_slice(), "what {words} says");
    Ok(out)
}

/// Carries out a command, and compares all that it leaves.
pub fn comes_to(
    rt: &(impl Abort + Threads + Wait + Sync),
    alloc: Global,
    given: &Given<'_>,
    wanted: &Wanted<'_>,
) -> Result<(), Fail> {
    let mut out = MemSink::new(alloc, MOST, MOST, Vec::new(alloc))?;
    let mut err = MemSink::new(alloc, MOST, MOST, Vec::new(alloc))?;
    let status = carry_out(rt, alloc, given, &mut out, &mut err)?;
    let words = given.words;
    assert_eq!(rt; status, wanted.status, "the status of {words}");
    assert_eq!(rt; out.bytes(), wanted.out.as_bytes(), "the output of {words}");
    assert_eq!(rt; err.bytes(), wanted.err.as_bytes(), "what {words} says");
    Ok(())
}

/// Carries out a command on a module and its calls, and compares all that it leaves.
pub fn answers<'a>(
    rt: &(impl Abort + Threads + Wait + Sync),
    alloc: Global,
    words: &'a str,
    row: (&'a str, &'a str, u8, &'a str, &'a str),
) -> Result<(), Fail> {
    let (module, calls, status, out, err) = row;
    let given = Given {
        words,
        names: NAMES,
        module,
        calls,
        failing: &[],
    };
    comes_to(rt, alloc, &given, &Wanted { status, out, err })
}

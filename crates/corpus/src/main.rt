//! The program `reopt` on a corpus of modules, on rows of the meaning and on bad input, and the translator to generic machine code on
//! the same modules: a command a line of standard input.
#![tactic(auto)]

use ir_reader::read;
use ir_translator::translate::translate;
use ir_verify::checked::Checked;
use ir_verify::verdict::verify;
use jit_main::reopt;
use jit_session::NoGate;
use reopt_policy::Quiet;
use rj_io::{Files, RealFiles, RealSink};
use std::alloc::{AllocError, Global};
use std::io;
use std::sync::Wait;
use std::thread::Threads;

/// The words of a line.
fn words(alloc: Global, line: &str) -> Result<Vec<String>, AllocError> {
    let mut words = Vec::new(alloc);
    for word in line.split_whitespace() {
        words.push(String::from_str(alloc, word)?)?;
    }
    Ok(words)
}

/// Carries out the command of these words, and answers its status. What it says goes to the output too.
fn carry_out(threads: &(impl Threads + Wait + Sync), rt: HostRuntime, words: &[String]) -> u8 {
    let mut files = RealFiles::new(rt);
    let mut out = RealSink::new(rt.stdout());
    let mut err = RealSink::new(rt.stdout());
    reopt(
        threads,
        rt.alloc(),
        words,
        &mut files,
        &mut out,
        &mut err,
        Quiet,
        &NoGate,
    )
}

/// The module of a file, if it passes the verifier.
fn checked(rt: HostRuntime, name: &str) -> Option<Checked> {
    let alloc = rt.alloc();
    let mut files = RealFiles::new(rt);
    let Ok(text) = files.load(alloc, name, 4194304) else {
        return None;
    };
    let Ok(module) = read(alloc, text.as_slice()) else {
        return None;
    };
    match verify(alloc, module, 1 << 20) {
        Ok(checked) => Some(checked),
        Err(_) => None,
    }
}

/// How many functions of a module are translated to generic machine code, up to the first that isn't.
fn count_translated(alloc: Global, module: &Checked) -> usize {
    let all = module.module();
    for symbol in 0..all.functions.len() {
        if symbol >= 1 << 20 || translate(alloc, module, symbol as u32).is_err() {
            return symbol;
        }
    }
    all.functions.len()
}

/// Says how many functions of a file's module are translated, of how many.
fn translate_all(rt: HostRuntime, name: &str) -> io::Result<()> {
    match checked(rt, name) {
        Some(module) => {
            let many = module.module().functions.len();
            let translated = count_translated(rt.alloc(), &module);
            println!(rt; "{translated} of {many} functions")
        }
        None => println!(rt; "no module"),
    }
}

/// Carries out one command after another; each is shown before what it says, and its status behind it.
fn main(rt: HostRuntime) -> io::Result<()> {
    let alloc = rt.alloc();
    for line in rt.lines(alloc) {
        let line = line?;
        if let Some(name) = line.strip_prefix("translate ") {
            println!(rt; "$ translate {name}")?;
            translate_all(rt, name)?;
            continue;
        }
        println!(rt; "$ reopt {line}")?;
        let status = carry_out(&rt, rt, &words(alloc, &line)?);
        println!(rt; "status {status}")?;
    }
    Ok(())
}

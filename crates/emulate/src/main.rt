//! Reads a task a line from standard input, and prints what words of RV64IM spell, what one does to the registers, and how
//! a call of words ends on a hart.
#![tactic(auto)]

ghost use Rattle.std.specs.Prelude.{◌≡◌};
ghost use Rattle.hart.specs.declared.hart.Hart.{Hart};

use hart::Hart;
use std::alloc::Global;
use std::io::{self, BufRead, BufReader};
use std::process::ExitCode;

mod call;
mod show;
mod task;

use call::{MOST_TURNS, MOST_WORDS, call_words, hart_of_one};
use show::{show_ended, show_spelled, show_step};
use task::{Task, read_task};

// Does one task.
fn run(rt: &HostRuntime, alloc: Global, hart: &mut Hart, line: &str) -> io::Result<()>
    requires { hart.old.functions ≡ 1 }
    ensures { hart.new.functions ≡ 1 }
{
    match read_task(alloc, line)? {
        Some(Task::Spell(word)) => show_spelled(rt, alloc, word),
        Some(Task::Step(word, a1, a2)) => show_step(rt, word, a1, a2),
        Some(Task::Call(turns, a0, words)) => run_words(rt, alloc, hart, turns, a0, words),
        None => println!(rt; "no task"),
    }
}

// Runs a call, and prints how it ends.
fn run_words(
    rt: &HostRuntime,
    alloc: Global,
    hart: &mut Hart,
    turns: u64,
    a0: u64,
    words: Vec<u32>,
) -> io::Result<()>
    requires { hart.old.functions ≡ 1 }
    ensures { hart.new.functions ≡ 1 }
{
    if words.len() > MOST_WORDS || turns > MOST_TURNS {
        println!(rt; "no task")
    } else {
        match call_words(alloc, hart, turns, a0, words) {
            Ok(ended) => show_ended(rt, ended),
            Err(_) => println!(rt; "no memory"),
        }
    }
}

// Does the tasks of standard input in order.
fn run_all(rt: &HostRuntime, alloc: Global, hart: &mut Hart) -> io::Result<()>
    requires { hart.old.functions ≡ 1 }
{
    for line in BufReader::new(alloc, rt.reader())?.lines(alloc) {
        let line = line?;
        run(rt, alloc, hart, &line)?;
    }
    Ok(())
}

fn main(rt: HostRuntime) -> ExitCode {
    let alloc = rt.alloc();
    match hart_of_one(alloc) {
        Ok(hart) => {
            let mut hart = hart;
            match run_all(&rt, alloc, &mut hart) {
                Ok(()) => ExitCode::from(0),
                Err(_) => ExitCode::from(1),
            }
        }
        Err(_) => ExitCode::from(2),
    }
}

//! Many calls of a module of the program's own.
ghost use Rattle.std.specs.Prelude.{◌≡◌, ◌++◌, [], IfOk, IfErr, if◌then◌else◌};
ghost use Rattle.command_words.specs.Ranges.{AreRunOptions, IsBetween};
ghost use Rattle.jit_calls.specs.Reports.{rows_text};
ghost use Rattle.jit_text.specs.Counts.{counts_line as line_of_counts};
ghost use Rattle.jit_text.specs.ManyCallsTexts as many;
ghost use Rattle.jit_main.specs.Run.{Counted};
ghost use Rattle.jit_main.specs.Ends.{RunStop};

use crate::answered::Answered;
use crate::memory::OutOfMemory;
use crate::run::{Session, session_of};
use crate::stop::Stop;
use command_words::RunOptions;
use jit_calls::{any_unanswered, settled_text};
use jit_session::Gate;
use jit_text::{counts_line, generate};
use reopt_policy::ReoptPolicy;
use std::alloc::Global;
use std::sync::Wait;
use std::thread::Threads;

/// The line of the counts of a session's answers, and the rows behind it where they are asked for.
fn counts_text(alloc: Global, session: &Session, rows: bool) -> Result<Vec<u8>, OutOfMemory>
    ensures { IfOk result (λ text. text.items ≡ line_of_counts session.now.settled.answers ++ (if rows then rows_text session.now.checked.module_.functions session.now.settled else [])) }
{
    let mut text = counts_line(alloc, session.settled.answers.as_slice())?;
    if rows {
        let behind = settled_text(alloc, &session.checked, &session.settled)?;
        text.extend_from_slice(&behind)?;
    }
    Ok(text)
}

/// What a session of so many calls of the module of many calls writes, or why nothing.
pub fn big_text<'a, R: Threads + Wait + Sync, P: ReoptPolicy + Send, G: Gate + Sync>(
    rt: &R,
    alloc: Global,
    calls: u32,
    options: RunOptions,
    policy: P,
    gate: &G,
) -> Result<Answered, Stop<'a>>
    requires calls { IsBetween 1 65536 calls }
    requires options { AreRunOptions options }
    ensures text { IfOk result (λ a. Counted (P.marks policy) calls options a.text.items a.is_unanswered) }
    ensures stop { IfErr result (λ stop. RunStop many.module_text (many.calls_text calls) options.room options.code_words stop) }
{
    let (module_text, calls_text) = match generate(alloc, calls) {
        Ok(texts) => texts,
        Err(_) => return Err(Stop::NoMemory),
    };
    let session = match session_of(rt, alloc, &module_text, &calls_text, options, policy, gate) {
        Ok(session) => session,
        Err(stop) => return Err(stop),
    };
    match counts_text(alloc, &session, options.report) {
        Ok(text) => Ok(Answered {
            text,
            is_unanswered: any_unanswered(session.settled.answers.as_slice()),
        }),
        Err(OutOfMemory) => Err(Stop::NoMemory),
    }
}

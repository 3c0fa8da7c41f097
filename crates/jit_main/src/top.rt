ghost use Rattle.std.specs.Prelude.{◌≡◌, ◌≢◌, ◌<◌, ◌⊎◌, List, [], ℕ, Bool, true, false, Some, None, IfOk, OnOk, IfErr, IfSome};
ghost use Rattle.rj_io.specs.Faults.{Rose};
ghost use Rattle.rj_io.specs.Sinks.{Took};
ghost use Rattle.command_words.specs.Commands.{words_of, line_of, command_of};
ghost use Rattle.command_words.specs.Ranges.{IsInRange};
ghost use Rattle.jit_main.specs.Commands.{is_run};
ghost use Rattle.jit_main.specs.Complete.{Must};
ghost use Rattle.jit_main.specs.Ends.{LineWrites, LineCause, Answers, Stops, TextRefused, Cause, status_of, text_of, TookFront, Said, Wrote, Written, StoppedWhy, Finished};
ghost use Rattle.jit_main.specs.declared.stop.Stop.TheVariants.{NoRoom};

use crate::answered::Answered;
use crate::big::big_text;
use crate::command::runs;
use crate::files::{dump_file, eval_files, run_files, sim_files};
use crate::stop::Stop;
use crate::tell::report;
use command_words::{CommandLine, read_words};
use fast_isel::module_laws::quick_need_is_one;
use jit_session::Gate;
use reopt_policy::ReoptPolicy;
use rj_io::{Files, Sink, write_all};
use rj_num::NoMemory;
use std::alloc::Global;
use std::sync::Wait;
use std::thread::Threads;

/// Writes the answers.
fn write_out<S: Sink>(out: &mut S, answered: &Answered) -> u8
    ensures { Wrote answered.now.text.items answered.now.is_unanswered (S.taken out.old) (S.taken out.new) (S.faults out.old) (S.faults out.new) result }
{
    match write_all(out, &answered.text) {
        Ok(()) => answered.status(),
        Err(_) => 5,
    }
}

/// Writes the answers, or says why there are none, and gives the status.
fn finish<S: Sink, T: Sink>(
    alloc: Global,
    out: &mut S,
    err: &mut T,
    ended: &Result<Answered, Stop>,
) -> u8
    ensures wrote { IfOk ended.now (λ a. Written a.text.items a.is_unanswered result (record { out_old = S.taken out.old; out_new = S.taken out.new; out_before = S.faults out.old; out_now = S.faults out.new; err_old = T.taken err.old; err_new = T.taken err.new; err_before = T.faults err.old; err_now = T.faults err.new })) }
    ensures stopped { IfErr ended.now (λ stop. StoppedWhy stop result (record { out_old = S.taken out.old; out_new = S.taken out.new; out_before = S.faults out.old; out_now = S.faults out.new; err_old = T.taken err.old; err_new = T.taken err.new; err_before = T.faults err.old; err_now = T.faults err.new })) }
{
    match ended {
        Ok(answered) => write_out(out, answered),
        Err(stop) => report(alloc, err, stop),
    }
}

/// What a command that needs no harts writes, or why nothing.
fn serial_writes<'a, F: Files>(
    alloc: Global,
    files: &mut F,
    line: CommandLine<'a>,
) -> Result<Answered, Stop<'a>>
    requires range { IsInRange line }
    requires serial { is_run (Some (line_of line)) ≡ false }
    ensures text { (marks : List ℕ) → IfOk result (λ a. LineWrites marks (line_of line.entry) (F.told files.old) a.text.items a.is_unanswered) }
    ensures told { (name : List ℕ) → F.told files.new name ≡ F.told files.old name }
    ensures kept { OnOk result (F.faults files.new ≡ F.faults files.old) }
    ensures stop { IfErr result (λ stop. LineCause (line_of line.entry) (F.told files.old) (F.faults files.old) (F.faults files.new) stop) }
{
    match line {
        CommandLine::Eval {
            module_name,
            calls_name,
            room,
        } => eval_files(alloc, files, module_name, calls_name, room),
        CommandLine::Sim {
            module_name,
            calls_name,
            options,
        } => sim_files(alloc, files, module_name, calls_name, options),
        CommandLine::Dump { module_name, .. } => dump_file(alloc, files, module_name),
        CommandLine::Run { .. } => Err(Stop::NoMemory),
        CommandLine::Big { .. } => Err(Stop::NoMemory),
    }
}

/// What a command writes, or why nothing.
fn writes<'a, R: Threads + Wait + Sync, P: ReoptPolicy + Send, F: Files, G: Gate + Sync>(
    rt: &R,
    alloc: Global,
    files: &mut F,
    line: CommandLine<'a>,
    policy: P,
    gate: &G,
) -> Result<Answered, Stop<'a>>
    requires { IsInRange line }
    ensures text { IfOk result (λ a. LineWrites (P.marks policy) (line_of line.entry) (F.told files.old) a.text.items a.is_unanswered) }
    ensures told { (name : List ℕ) → F.told files.new name ≡ F.told files.old name }
    ensures kept { OnOk result (F.faults files.new ≡ F.faults files.old) }
    ensures stop { IfErr result (λ stop. LineCause (line_of line.entry) (F.told files.old) (F.faults files.old) (F.faults files.new) stop) }
{
    match line {
        CommandLine::Run {
            module_name,
            calls_name,
            options,
        } => run_files(
            rt,
            alloc,
            files,
            module_name,
            calls_name,
            options,
            policy,
            gate,
        ),
        CommandLine::Big { calls, options } => big_text(rt, alloc, calls, options, policy, gate),
        other => serial_writes(alloc, files, other),
    }
}

/// The program but for `run` and `big`, in one record.
fn alone<F: Files, S: Sink, T: Sink>(
    alloc: Global,
    words: &[String],
    files: &mut F,
    out: &mut S,
    err: &mut T,
) -> Option<u8>
    ensures none { result ≡ None → is_run (command_of (words_of words.now)) ≡ true }
    ensures none_told { is_run (command_of (words_of words.now)) ≡ true → (result ≡ None) ⊎ (result ≡ Some 6) }
    ensures kept { result ≡ None → (files.new ≡ files.old) × (out.new ≡ out.old) × (err.new ≡ err.old) }
    ensures finished { IfSome result (λ status. Finished [] (words_of words.now) (F.told files.old) (F.faults files.old) (F.faults files.new) (record { out_old = S.taken out.old; out_new = S.taken out.new; out_before = S.faults out.old; out_now = S.faults out.new; err_old = T.taken err.old; err_new = T.taken err.new; err_before = T.faults err.old; err_now = T.faults err.new }) status) }
    ensures told { (name : List ℕ) → F.told files.new name ≡ F.told files.old name }
{
    match read_words(alloc, words) {
        Ok(Some(line)) => {
            if runs(&line) {
                return None;
            }
            let ended = serial_writes(alloc, files, line);
            Some(finish(alloc, out, err, &ended))
        }
        Ok(None) => Some(finish(alloc, out, err, &Err(Stop::Usage))),
        Err(NoMemory) => Some(finish(alloc, out, err, &Err(Stop::NoMemory))),
    }
}

/// The program but for `run` and `big`: carries out the command of these words, and answers the status. None, and nothing is done,
/// only where they are a command line of `run` or `big`, and there always where there is memory to read the words.
pub fn serial<F: Files, S: Sink, T: Sink>(
    alloc: Global,
    words: &[String],
    files: &mut F,
    out: &mut S,
    err: &mut T,
) -> Option<u8>
    ensures none { result ≡ None → is_run (command_of (words_of words.now)) ≡ true }
    ensures none_told { is_run (command_of (words_of words.now)) ≡ true → (result ≡ None) ⊎ (result ≡ Some 6) }
    ensures kept { result ≡ None → (files.new ≡ files.old) × (out.new ≡ out.old) × (err.new ≡ err.old) }
    ensures must { IfSome result (λ status. Must (words_of words.now) (F.told files.old) (F.faults files.old) (F.faults files.new) (record { out_old = S.taken out.old; out_new = S.taken out.new; out_before = S.faults out.old; out_now = S.faults out.new; err_old = T.taken err.old; err_new = T.taken err.new; err_before = T.faults err.old; err_now = T.faults err.new }) status) }
    ensures finished { IfSome result (λ status. Finished [] (words_of words.now) (F.told files.old) (F.faults files.old) (F.faults files.new) (record { out_old = S.taken out.old; out_new = S.taken out.new; out_before = S.faults out.old; out_now = S.faults out.new; err_old = T.taken err.old; err_new = T.taken err.new; err_before = T.faults err.old; err_now = T.faults err.new }) status) }
    ensures told { (name : List ℕ) → F.told files.new name ≡ F.told files.old name }
{
    quick_need_is_one();
    alone(alloc, words, files, out, err)
}

/// The program, in one record.
fn program<
    R: Threads + Wait + Sync,
    P: ReoptPolicy + Send,
    F: Files,
    S: Sink,
    T: Sink,
    G: Gate + Sync,
>(
    rt: &R,
    alloc: Global,
    words: &[String],
    files: &mut F,
    out: &mut S,
    err: &mut T,
    policy: P,
    gate: &G,
) -> u8
    ensures finished { Finished (P.marks policy) (words_of words.now) (F.told files.old) (F.faults files.old) (F.faults files.new) (record { out_old = S.taken out.old; out_new = S.taken out.new; out_before = S.faults out.old; out_now = S.faults out.new; err_old = T.taken err.old; err_new = T.taken err.new; err_before = T.faults err.old; err_now = T.faults err.new }) result }
    ensures told { (name : List ℕ) → F.told files.new name ≡ F.told files.old name }
{
    match read_words(alloc, words) {
        Ok(Some(line)) => {
            let ended = writes(rt, alloc, files, line, policy, gate);
            finish(alloc, out, err, &ended)
        }
        Ok(None) => finish(alloc, out, err, &Err(Stop::Usage)),
        Err(NoMemory) => finish(alloc, out, err, &Err(Stop::NoMemory)),
    }
}

/// The program: carries out the command of these words, and answers the status. Harts and workers run on threads of `rt`, `policy` tells
/// which functions are hot, and `gate` hears what harts and workers come to.
pub fn reopt<
    R: Threads + Wait + Sync,
    P: ReoptPolicy + Send,
    F: Files,
    S: Sink,
    T: Sink,
    G: Gate + Sync,
>(
    rt: &R,
    alloc: Global,
    words: &[String],
    files: &mut F,
    out: &mut S,
    err: &mut T,
    policy: P,
    gate: &G,
) -> u8
    // 0 and 1: `out` took one line per call with its answer, and 1 where one is no value and not void; or one part per function.
    ensures answered { result ≡ 0 → (text : List ℕ) × Answers (P.marks policy) (words_of words.now) (F.told files.old) text false × Took (S.taken out.old) (S.taken out.new) text }
    ensures unanswered { result ≡ 1 → (text : List ℕ) × Answers (P.marks policy) (words_of words.now) (F.told files.old) text true × Took (S.taken out.old) (S.taken out.new) text }
    // 5: `out` failed, and took a front of that text.
    ensures front { result ≡ 5 → (text : List ℕ) × (b : Bool) × Answers (P.marks policy) (words_of words.now) (F.told files.old) text b × TookFront (S.taken out.old) (S.taken out.new) text }
    ensures write { result ≡ 5 → Rose (S.faults out.old) (S.faults out.new) }
    ensures write_told { S.faults out.old < S.faults out.new → result ≡ 5 }
    ensures quiet { (result ≡ 0) ⊎ (result ≡ 1) ⊎ (result ≡ 5) → T.taken err.new ≡ T.taken err.old }
    // Any other status: its cause, nothing is written to `out`, and `err` took its text, or a front of it where `err` failed.
    ensures stop { result ≢ 0 → result ≢ 1 → result ≢ 5 → (stop : Stop) × (status_of stop ≡ result)
        × Cause (words_of words.now) (F.told files.old) (F.faults files.old) (F.faults files.new) stop
        × (S.taken out.new ≡ S.taken out.old)
        × Said (T.taken err.old) (T.taken err.new) (T.faults err.old) (T.faults err.new) (text_of stop) }
    ensures usage { result ≡ 3 → command_of (words_of words.now) ≡ None }
    ensures usage_told { command_of (words_of words.now) ≡ None → (result ≡ 3) ⊎ (result ≡ 6) }
    ensures load { result ≡ 4 → Rose (F.faults files.old) (F.faults files.new) }
    ensures load_told { F.faults files.old < F.faults files.new → result ≡ 4 }
    ensures form { result ≡ 2 → TextRefused (words_of words.now) (F.told files.old) }
    ensures room { result ≡ 7 → (needed had : ℕ) × Stops (words_of words.now) (F.told files.old) (NoRoom needed had) }
    // Where no fault was counted: 0 or 1 where the command has all that it needs, 7 where the quick code doesn't fit, 2 where its texts are
    // refused; or 6, for want of memory.
    ensures must { Must (words_of words.now) (F.told files.old) (F.faults files.old) (F.faults files.new) (record { out_old = S.taken out.old; out_new = S.taken out.new; out_before = S.faults out.old; out_now = S.faults out.new; err_old = T.taken err.old; err_new = T.taken err.new; err_before = T.faults err.old; err_now = T.faults err.new }) result }
    ensures told { (name : List ℕ) → F.told files.new name ≡ F.told files.old name }
{
    quick_need_is_one();
    program(rt, alloc, words, files, out, err, policy, gate)
}

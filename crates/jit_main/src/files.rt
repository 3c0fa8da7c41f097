ghost use Rattle.std.specs.Prelude.{◌≡◌, ◌⊎◌, List, ℕ, IfOk, IfErr, OnOk};
ghost use Rattle.command_words.specs.Commands.{run, eval, sim, dump};
ghost use Rattle.command_words.specs.Ranges.{IsRoom, AreRunOptions, AreSimOptions};
ghost use Rattle.jit_main.specs.Commands.{IsText};
ghost use Rattle.jit_main.specs.Ends.{LineWrites, LineCause, LoadStop};

use crate::answered::Answered;
use crate::dump::dumped;
use crate::eval::eval_texts;
use crate::run::run_texts;
use crate::sim::sim_texts;
use crate::stop::Stop;
use command_words::{RunOptions, SimOptions};
use jit_session::Gate;
use reopt_policy::ReoptPolicy;
use rj_io::{Files, LoadRefusal};
use std::alloc::Global;
use std::sync::Wait;
use std::thread::Threads;

/// A load takes at most one byte more than a text may have.
const MOST: usize = 4_194_305;

/// The text of a file.
fn loaded<'a, F: Files>(alloc: Global, files: &mut F, name: &'a str) -> Result<Vec<u8>, Stop<'a>>
    ensures text { IfOk result (λ text. IsText (F.told files.old name.now) text.items) }
    ensures told { (name : List ℕ) → F.told files.new name ≡ F.told files.old name }
    ensures kept { OnOk result (F.faults files.new ≡ F.faults files.old) }
    ensures stop { IfErr result (λ stop. LoadStop name.now (F.faults files.old) (F.faults files.new) stop) }
{
    match files.load(alloc, name, MOST) {
        Ok(text) => Ok(text),
        Err(LoadRefusal::Failed) => Err(Stop::CannotRead(name)),
        Err(LoadRefusal::NoMemory) => Err(Stop::NoMemory),
    }
}

/// The texts of a module and of its calls, or why there are none.
fn texts<'a, F: Files>(
    alloc: Global,
    files: &mut F,
    module_name: &'a str,
    calls_name: &'a str,
) -> Result<(Vec<u8>, Vec<u8>), Stop<'a>>
    ensures module_text { IfOk result (λ t. IsText (F.told files.old module_name.now) t.0.items) }
    ensures calls_text { IfOk result (λ t. IsText (F.told files.old calls_name.now) t.1.items) }
    ensures told { (name : List ℕ) → F.told files.new name ≡ F.told files.old name }
    ensures kept { OnOk result (F.faults files.new ≡ F.faults files.old) }
    ensures stop { IfErr result (λ stop. LoadStop module_name.now (F.faults files.old) (F.faults files.new) stop ⊎ LoadStop calls_name.now (F.faults files.old) (F.faults files.new) stop) }
{
    let module_text = match loaded(alloc, files, module_name) {
        Ok(text) => text,
        Err(stop) => return Err(stop),
    };
    match loaded(alloc, files, calls_name) {
        Ok(calls_text) => Ok((module_text, calls_text)),
        Err(stop) => Err(stop),
    }
}

/// What a run of the calls in these files writes, or why nothing.
pub fn run_files<'a, R: Threads + Wait + Sync, P: ReoptPolicy + Send, F: Files, G: Gate + Sync>(
    rt: &R,
    alloc: Global,
    files: &mut F,
    module_name: &'a str,
    calls_name: &'a str,
    options: RunOptions,
    policy: P,
    gate: &G,
) -> Result<Answered, Stop<'a>>
    requires { AreRunOptions options }
    ensures text { IfOk result (λ a. LineWrites (P.marks policy) (run module_name.now calls_name.now options) (F.told files.old) a.text.items a.is_unanswered) }
    ensures told { (name : List ℕ) → F.told files.new name ≡ F.told files.old name }
    ensures kept { OnOk result (F.faults files.new ≡ F.faults files.old) }
    ensures stop { IfErr result (λ stop. LineCause (run module_name.now calls_name.now options) (F.told files.old) (F.faults files.old) (F.faults files.new) stop) }
{
    let (module_text, calls_text) = match texts(alloc, files, module_name, calls_name) {
        Ok(texts) => texts,
        Err(stop) => return Err(stop),
    };
    match run_texts(rt, alloc, &module_text, &calls_text, options, policy, gate) {
        Ok(answered) => Ok(answered),
        Err(why) => Err(why),
    }
}

/// What the evaluation of the calls in these files writes, or why nothing.
pub fn eval_files<'a, F: Files>(
    alloc: Global,
    files: &mut F,
    module_name: &'a str,
    calls_name: &'a str,
    room: u64,
) -> Result<Answered, Stop<'a>>
    requires { IsRoom room }
    ensures text { (marks : List ℕ) → IfOk result (λ a. LineWrites marks (eval module_name.now calls_name.now room) (F.told files.old) a.text.items a.is_unanswered) }
    ensures told { (name : List ℕ) → F.told files.new name ≡ F.told files.old name }
    ensures kept { OnOk result (F.faults files.new ≡ F.faults files.old) }
    ensures stop { IfErr result (λ stop. LineCause (eval module_name.now calls_name.now room) (F.told files.old) (F.faults files.old) (F.faults files.new) stop) }
{
    let (module_text, calls_text) = match texts(alloc, files, module_name, calls_name) {
        Ok(texts) => texts,
        Err(stop) => return Err(stop),
    };
    match eval_texts(alloc, &module_text, &calls_text, room) {
        Ok(answered) => Ok(answered),
        Err(why) => Err(why),
    }
}

/// What a run over drawn events of the calls in these files writes, or why nothing.
pub fn sim_files<'a, F: Files>(
    alloc: Global,
    files: &mut F,
    module_name: &'a str,
    calls_name: &'a str,
    options: SimOptions,
) -> Result<Answered, Stop<'a>>
    requires { AreSimOptions options }
    ensures text { (marks : List ℕ) → IfOk result (λ a. LineWrites marks (sim module_name.now calls_name.now options) (F.told files.old) a.text.items a.is_unanswered) }
    ensures told { (name : List ℕ) → F.told files.new name ≡ F.told files.old name }
    ensures kept { OnOk result (F.faults files.new ≡ F.faults files.old) }
    ensures stop { IfErr result (λ stop. LineCause (sim module_name.now calls_name.now options) (F.told files.old) (F.faults files.old) (F.faults files.new) stop) }
{
    let (module_text, calls_text) = match texts(alloc, files, module_name, calls_name) {
        Ok(texts) => texts,
        Err(stop) => return Err(stop),
    };
    match sim_texts(alloc, &module_text, &calls_text, options) {
        Ok(answered) => Ok(answered),
        Err(why) => Err(why),
    }
}

/// The listing of the module in this file, or why there is none.
pub fn dump_file<'a, F: Files>(
    alloc: Global,
    files: &mut F,
    module_name: &'a str,
) -> Result<Answered, Stop<'a>>
    ensures text { (marks : List ℕ) → IfOk result (λ a. LineWrites marks (dump module_name.now 1) (F.told files.old) a.text.items a.is_unanswered) }
    ensures told { (name : List ℕ) → F.told files.new name ≡ F.told files.old name }
    ensures kept { OnOk result (F.faults files.new ≡ F.faults files.old) }
    ensures stop { IfErr result (λ stop. LineCause (dump module_name.now 1) (F.told files.old) (F.faults files.old) (F.faults files.new) stop) }
{
    let module_text = match loaded(alloc, files, module_name) {
        Ok(text) => text,
        Err(stop) => return Err(stop),
    };
    match dumped(alloc, &module_text) {
        Ok(text) => Ok(Answered {
            text,
            is_unanswered: false,
        }),
        Err(why) => Err(why),
    }
}

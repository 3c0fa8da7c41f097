//! A run of the calls of a module over harts on threads.
ghost use Rattle.std.specs.Prelude.{◌≡◌, ◌+◌, ◌≤◌, length, IfOk, IfErr};
ghost use Rattle.command_words.specs.Ranges.{AreRunOptions};
ghost use Rattle.jit_calls.specs.Answers.{any_unanswered as is_one_unanswered};
ghost use Rattle.jit_calls.specs.Listed.{AllListed};
ghost use Rattle.jit_calls.specs.Reports.{report_lines};
ghost use Rattle.jit_main.specs.Run.{IsImageFor, QuickStop, HasSettled, HasRun, Ran};
ghost use Rattle.jit_main.specs.Ends.{RunStop};

use crate::answered::Answered;
use crate::front::{Front, front_of};
use crate::images::image_for_harts;
use crate::stop::Stop;
use code_epochs::OpenRefusal;
use command_words::RunOptions;
use fast_isel::compile::QuickMaker;
use fast_isel::quick_versions;
use ir_data::image::Image;
use ir_meaning::calls::ListedCall;
use ir_verify::checked::Checked;
use jit_calls::{any_unanswered, report_text};
use jit_session::{Gate, Setup, run};
use reopt_policy::ReoptPolicy;
use rj_num::NoMemory;
use session_types::Settled;
use sqlite_items::Items;
use std::alloc::Global;
use std::sync::Wait;
use std::thread::Threads;

/// A module, its list of calls, and what a session of these calls came to.
#[derive(Drop)]
pub struct Session {
    pub checked: Checked,
    pub calls: Items<ListedCall>,
    pub settled: Settled,
}

/// A maker for each of so many workers, and one more, by which the session settles.
fn makers_for(alloc: Global, workers: u32) -> Result<Vec<QuickMaker>, NoMemory>
    requires { workers ≤ 8 }
    ensures { IfOk result (λ makers. length makers.items ≡ workers + 1) }
{
    vec![in alloc; QuickMaker; workers as usize + 1].map_err(|_| NoMemory)
}

/// What a session of the calls of a module comes to, or why there is none.
fn settled_by<'a, R: Threads + Wait + Sync, P: ReoptPolicy + Send, G: Gate + Sync>(
    rt: &R,
    alloc: Global,
    checked: &Checked,
    first: Image,
    calls: &[ListedCall],
    options: RunOptions,
    policy: P,
    gate: &G,
) -> Result<Settled, Stop<'a>>
    requires image { IsImageFor checked.now first }
    requires calls { AllListed checked.now.module_.functions calls.now }
    requires few { length calls.now ≤ 65536 }
    requires options { AreRunOptions options }
    ensures settled { IfOk result (HasSettled (P.marks policy) checked.now calls.now options) }
    ensures stop { IfErr result (QuickStop checked.now options.code_words) }
{
    let versions = match quick_versions(alloc, checked) {
        Ok(versions) => versions,
        Err(NoMemory) => return Err(Stop::NoMemory),
    };
    let _ = checked.module();
    let image = image_for_harts(first);
    let makers = match makers_for(alloc, options.workers) {
        Ok(makers) => makers,
        Err(NoMemory) => return Err(Stop::NoMemory),
    };
    let setup = Setup {
        harts: options.harts,
        workers: options.workers,
        code_words: options.code_words,
    };
    match run(
        rt, alloc, checked, &image, calls, setup, versions, policy, makers, gate,
    ) {
        Ok(settled) => Ok(settled),
        Err(OpenRefusal::NoRoom { needed, room }) => Err(Stop::NoRoom(needed, room)),
        Err(OpenRefusal::NoMemory) => Err(Stop::NoMemory),
    }
}

/// A session of the calls of two texts, a module's and its calls'; or why there is none.
pub fn session_of<'a, R: Threads + Wait + Sync, P: ReoptPolicy + Send, G: Gate + Sync>(
    rt: &R,
    alloc: Global,
    module_text: &[u8],
    calls_text: &[u8],
    options: RunOptions,
    policy: P,
    gate: &G,
) -> Result<Session, Stop<'a>>
    requires { AreRunOptions options }
    ensures session { IfOk result (λ s. HasRun (P.marks policy) module_text.now calls_text.now options s.checked s.calls s.settled) }
    ensures stop { IfErr result (λ stop. RunStop module_text.now calls_text.now options.room options.code_words stop) }
{
    let Front {
        checked,
        image,
        calls,
    } = match front_of(alloc, module_text, calls_text, options.room) {
        Ok(front) => front,
        Err(stop) => return Err(stop),
    };
    match settled_by(
        rt,
        alloc,
        &checked,
        image,
        calls.as_slice(),
        options,
        policy,
        gate,
    ) {
        Ok(settled) => Ok(Session {
            checked,
            calls,
            settled,
        }),
        Err(stop) => Err(stop),
    }
}

/// The lines of a session.
fn session_text(alloc: Global, session: &Session, rows: bool) -> Result<Answered, NoMemory>
    requires { length session.now.settled.answers ≡ length session.now.calls }
    ensures lines { IfOk result (λ a. a.text.items ≡ report_lines session.now.checked.module_.functions session.now.calls session.now.settled rows) }
    ensures status { IfOk result (λ a. a.is_unanswered ≡ is_one_unanswered session.now.settled.answers) }
{
    let text = report_text(
        alloc,
        &session.checked,
        session.calls.as_slice(),
        &session.settled,
        rows,
    )?;
    Ok(Answered {
        text,
        is_unanswered: any_unanswered(session.settled.answers.as_slice()),
    })
}

/// What a run of two texts writes, a module's and its calls', or why nothing.
pub fn run_texts<'a, R: Threads + Wait + Sync, P: ReoptPolicy + Send, G: Gate + Sync>(
    rt: &R,
    alloc: Global,
    module_text: &[u8],
    calls_text: &[u8],
    options: RunOptions,
    policy: P,
    gate: &G,
) -> Result<Answered, Stop<'a>>
    requires { AreRunOptions options }
    ensures text { IfOk result (λ a. Ran (P.marks policy) module_text.now calls_text.now options a.text.items a.is_unanswered) }
    ensures stop { IfErr result (λ stop. RunStop module_text.now calls_text.now options.room options.code_words stop) }
{
    let session = match session_of(rt, alloc, module_text, calls_text, options, policy, gate) {
        Ok(session) => session,
        Err(stop) => return Err(stop),
    };
    match session_text(alloc, &session, options.report) {
        Ok(answered) => Ok(answered),
        Err(NoMemory) => Err(Stop::NoMemory),
    }
}

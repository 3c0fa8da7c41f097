//! A core that is made, goes over drawn events, and is finished.
ghost use Rattle.std.specs.Prelude.{◌≡◌, ◌<◌, ◌≤◌, ℕ, List, length, map, IfOk, IfErr, OnOk};
ghost use Rattle.ir_meaning.specs.Meaning.{meaning};
ghost use Rattle.hart.specs.Calls.{HasRoomFor};
ghost use Rattle.jit_core.specs.Events.{Told};
ghost use Rattle.jit_core.specs.Cores.{IsKept, IsSameCore, meaning_of};
ghost use Rattle.jit_core.specs.Seats.{AreCalls};
ghost use Rattle.jit_core.specs.First.{AreQuick, IsOpenCause, words_of};
ghost use Rattle.jit_core.specs.Simulated.{MakesAll, event_of};
ghost use Rattle.jit_core.specs.Finished.{HasAnswered};
ghost use Rattle.jit_core.specs.Drawn.{next_draw, choice, event_for, drawn};
ghost use Rattle.jit_core.specs.Ran.{Ran, AreAnswers};

use crate::draw::{copy, event, next};
use crate::ending::finish;
use crate::state_machine::Core;
use code_epochs::OpenRefusal;
use hart::Image;
use ir_meaning::calls::{Ended, ListedCall};
use ir_verify::checked::Checked;
use rj_num::NoMemory;
use rv_play::version::Version;
use std::alloc::Global;

/// What a run is: the number from which its events are drawn, how many draws there are, and how many harts and code words.
#[derive(Clone, Copy)]
pub struct Plan {
    pub draw: u64,
    pub steps: u32,
    pub harts: u32,
    pub code_words: u32,
}

/// What a run has led to: the answers of the calls in order, and how many versions there are.
#[derive(Drop)]
pub struct Report {
    pub answers: Vec<Ended>,
    pub versions: u32,
}

// The same versions in memory of their own.
fn copy_all(alloc: Global, versions: &[Version]) -> Result<Vec<Version>, NoMemory>
    ensures { IfOk result (λ v. v.items ≡ versions.now) }
{
    let mut copies = Vec::new(alloc);
    for version in versions {
        let version = copy(alloc, version)?;
        copies.push(version).map_err(|_| NoMemory)?;
    }
    Ok(copies)
}

// Makes the event of one draw happen, if it is one.
fn step(
    alloc: Global,
    core: &mut Core<'_>,
    versions: &[Version],
    harts: u32,
    draw: u64,
) -> Result<(), NoMemory>
    requires kept { IsKept core.old }
    requires harts { (harts ≤ 16) × (harts ≡ length core.old.seats.items) }
    requires versions { AreQuick (meaning_of core.old) versions.now }
    ensures kept { OnOk result (IsKept core.new) }
    ensures same { OnOk result (IsSameCore core.old core.new) }
    ensures makes { OnOk result ((told : List Told) × (map event_of told ≡ event_for versions.now harts (choice draw)) × MakesAll core.old told core.new) }
{
    match event(alloc, versions, harts, draw >> 33)? {
        Some(event) => {
            let _ = core.step(alloc, event);
            Ok(())
        }
        None => Ok(()),
    }
}

// Makes the drawn events happen.
fn go(alloc: Global, core: &mut Core<'_>, versions: &[Version], plan: Plan) -> Result<(), NoMemory>
    requires kept { IsKept core.old }
    requires harts { (plan.harts ≤ 16) × (plan.harts ≡ length core.old.seats.items) }
    requires versions { AreQuick (meaning_of core.old) versions.now }
    ensures kept { OnOk result (IsKept core.new) }
    ensures same { OnOk result (IsSameCore core.old core.new) }
    ensures makes { OnOk result ((told : List Told) × (map event_of told ≡ drawn versions.now plan.harts plan.draw plan.steps) × MakesAll core.old told core.new) }
{
    let mut draw = plan.draw;
    for _ in 0..plan.steps {
        draw = next(draw);
        step(alloc, core, versions, plan.harts, draw)?;
    }
    Ok(())
}

// The answers of so many calls, all of which have ended.
fn answers(alloc: Global, core: &Core<'_>, count: u32) -> Result<Vec<Ended>, NoMemory>
    requires kept { IsKept core.now }
    requires ended { (place : ℕ) → place < count → HasAnswered core.now place }
    ensures { IfOk result (λ ends. AreAnswers core.now count ends.items) }
{
    let mut ends = Vec::with_capacity(alloc, count as usize).map_err(|_| NoMemory)?;
    for call in 0..count {
        let Some(end) = core.answer(call) else {
            unreachable!()
        };
        ends.push_reserved(end);
    }
    Ok(ends)
}

/// Makes a core of these versions, one of each symbol in order, lets the drawn events happen, and finishes the harts.
pub fn run_drawn(
    alloc: Global,
    all: &Checked,
    image: &Image,
    calls: &[ListedCall],
    versions: &[Version],
    plan: Plan,
) -> Result<Report, OpenRefusal>
    requires harts { (1 ≤ plan.harts) × (plan.harts ≤ 16) }
    requires code { plan.code_words ≤ 4194304 }
    requires versions { AreQuick (meaning all.now) versions.now }
    requires image { HasRoomFor all.now.room image.now }
    requires calls { AreCalls (length all.now.module_.functions) calls.now × (length calls.now ≤ 65536) }
    ensures ran { IfOk result (Ran all.now image.now calls.now versions.now plan) }
    ensures fits { OnOk result (words_of versions.now ≤ plan.code_words) }
    ensures cause { IfErr result (IsOpenCause plan.code_words versions.now) }
{
    let Ok(first) = copy_all(alloc, versions) else {
        return Err(OpenRefusal::NoMemory);
    };
    let mut core = match Core::new(alloc, all, image, calls, first, plan.harts, plan.code_words) {
        Ok(core) => core,
        Err(refusal) => return Err(refusal),
    };
    let Ok(()) = go(alloc, &mut core, versions, plan) else {
        return Err(OpenRefusal::NoMemory);
    };
    finish(&mut core);
    let Ok(answers) = answers(alloc, &core, calls.len() as u32) else {
        return Err(OpenRefusal::NoMemory);
    };
    Ok(Report {
        answers,
        versions: core.versions(),
    })
}

//! A run of the calls of a module over drawn events.
ghost use Rattle.std.specs.Prelude.{◌≡◌, ◌++◌, ◌≤◌, length, IfOk, IfErr, OnOk};
ghost use Rattle.command_words.specs.Ranges.{AreSimOptions};
ghost use Rattle.jit_calls.specs.Listed.{AllListed};
ghost use Rattle.jit_calls.specs.Answers.{answer_lines, any_unanswered as is_one_unanswered};
ghost use Rattle.jit_main.specs.Run.{IsImageFor, QuickStop};
ghost use Rattle.jit_session.specs.Runs.{AllRight};
ghost use Rattle.jit_main.specs.Sims.{plan_of, versions_line, RanDrawn, Simulated};
ghost use Rattle.jit_main.specs.Ends.{RunStop};

use crate::answered::Answered;
use crate::front::{Front, front_of};
use crate::images::image_for_harts;
use crate::memory::OutOfMemory;
use crate::stop::Stop;
use code_epochs::OpenRefusal;
use command_words::SimOptions;
use fast_isel::quick_versions;
use ir_data::image::Image;
use ir_meaning::calls::ListedCall;
use ir_print_names::Page;
use ir_verify::checked::Checked;
use jit_calls::{answer_text, any_unanswered};
use jit_core::{Plan, Report, run_drawn};
use rj_num::NoMemory;
use rv_play::version::Version;
use std::alloc::Global;

fn plan(options: SimOptions) -> Plan
    ensures { result ≡ plan_of options }
{
    Plan {
        draw: options.draw,
        steps: options.steps,
        harts: options.harts,
        code_words: options.code_words,
    }
}

/// What a run over drawn events led to, from the quick code of a module.
fn drawn_report<'a>(
    alloc: Global,
    checked: &Checked,
    first: Image,
    calls: &[ListedCall],
    options: SimOptions,
) -> Result<Report, Stop<'a>>
    requires image { IsImageFor checked.now first }
    requires calls { AllListed checked.now.module_.functions calls.now }
    requires few { length calls.now ≤ 65536 }
    requires options { AreSimOptions options }
    ensures report { IfOk result (RanDrawn checked.now calls.now options) }
    ensures stop { IfErr result (QuickStop checked.now options.code_words) }
{
    let versions = match quick_versions(alloc, checked) {
        Ok(versions) => versions,
        Err(NoMemory) => return Err(Stop::NoMemory),
    };
    let _ = checked.module();
    let image = image_for_harts(first);
    match run_drawn(alloc, checked, &image, calls, &versions, plan(options)) {
        Ok(report) => Ok(report),
        Err(OpenRefusal::NoRoom { needed, room }) => Err(Stop::NoRoom(needed, room)),
        Err(OpenRefusal::NoMemory) => Err(Stop::NoMemory),
    }
}

/// The line with the number of versions.
fn versions_text(alloc: Global, versions: u32) -> Result<Vec<u8>, NoMemory>
    ensures { IfOk result (λ text. text.items ≡ versions_line versions) }
{
    let mut page = Page::new(alloc);
    page.write(b"versions ")?;
    page.number(u128::from(versions))?;
    page.write(b"\n")?;
    Ok(page.into_bytes())
}

/// The lines of the answers, and the line with the number of versions.
fn report_lines(
    alloc: Global,
    checked: &Checked,
    calls: &[ListedCall],
    report: &Report,
) -> Result<Answered, OutOfMemory>
    requires { AllRight checked.now calls.now report.now.answers.items }
    ensures lines { IfOk result (λ a. a.text.items ≡ answer_lines checked.now.module_.functions calls.now report.now.answers.items ++ versions_line report.now.versions) }
    ensures status { IfOk result (λ a. a.is_unanswered ≡ is_one_unanswered report.now.answers.items) }
{
    let functions = checked.module().functions.as_slice();
    let mut text = answer_text(alloc, functions, calls, &report.answers)?;
    let last = versions_text(alloc, report.versions)?;
    text.extend_from_slice(&last)?;
    Ok(Answered {
        text,
        is_unanswered: any_unanswered(&report.answers),
    })
}

/// The answers over drawn events to two texts, a module's and its calls', or why there are none.
pub fn sim_texts<'a>(
    alloc: Global,
    module_text: &[u8],
    calls_text: &[u8],
    options: SimOptions,
) -> Result<Answered, Stop<'a>>
    requires { AreSimOptions options }
    ensures text { IfOk result (λ a. Simulated module_text.now calls_text.now options a.text.items a.is_unanswered) }
    ensures stop { IfErr result (λ stop. RunStop module_text.now calls_text.now options.room options.code_words stop) }
{
    let Front {
        checked,
        image,
        calls,
    } = match front_of(alloc, module_text, calls_text, options.room) {
        Ok(front) => front,
        Err(stop) => return Err(stop),
    };
    let report = match drawn_report(alloc, &checked, image, calls.as_slice(), options) {
        Ok(report) => report,
        Err(stop) => return Err(stop),
    };
    match report_lines(alloc, &checked, calls.as_slice(), &report) {
        Ok(answered) => Ok(answered),
        Err(OutOfMemory) => Err(Stop::NoMemory),
    }
}

ghost use Rattle.std.specs.Prelude.{◌≡◌, IfOk, IfErr, map};
ghost use Rattle.command_words.specs.Ranges.{IsRoom};
ghost use Rattle.jit_calls.specs.Listed.{AllListed, IsListed};
ghost use Rattle.jit_calls.specs.Answers.{outcome_lines, any_no_answer};
ghost use Rattle.jit_main.specs.Run.{IsImageFor};
ghost use Rattle.jit_main.specs.Evals.{outcome_of_call, outcomes, Evaluated};
ghost use Rattle.jit_main.specs.Ends.{FrontStop};

use crate::answered::Answered;
use crate::front::{Front, front_of};
use crate::memory::OutOfMemory;
use crate::stop::Stop;
use ir_data::image::Image;
use ir_eval::evaluating::evaluate;
use ir_meaning::calls::{ListedCall, Outcome};
use ir_verify::checked::Checked;
use jit_calls::{any_no_answer, eval_text};
use rj_num::NoMemory;
use std::alloc::Global;

/// How the evaluation of a call ends.
#[tactic(auto, using(crate::proofs::Listing::is_call))]
fn outcome_of(
    alloc: Global,
    checked: &Checked,
    image: &Image,
    call: &ListedCall,
) -> Result<Outcome, NoMemory>
    requires image { IsImageFor checked.now image.now }
    requires call { IsListed checked.now.module_.functions call.now }
    ensures { IfOk result (λ outcome. outcome ≡ outcome_of_call checked.now call.now) }
{
    evaluate(alloc, checked, image, call)
}

/// How the evaluation of each call ends.
fn outcomes_of(
    alloc: Global,
    checked: &Checked,
    image: &Image,
    calls: &[ListedCall],
) -> Result<Vec<Outcome>, OutOfMemory>
    requires image { IsImageFor checked.now image.now }
    requires calls { AllListed checked.now.module_.functions calls.now }
    ensures { IfOk result (λ all. all.items ≡ outcomes checked.now calls.now) }
{
    let mut all = Vec::new(alloc);
    for call in calls {
        all.push(outcome_of(alloc, checked, image, call)?)?;
    }
    Ok(all)
}

/// The lines of the evaluation of two texts, a module's and its calls', or why there are none.
pub fn eval_texts<'a>(
    alloc: Global,
    module_text: &[u8],
    calls_text: &[u8],
    room: u64,
) -> Result<Answered, Stop<'a>>
    requires { IsRoom room }
    ensures text { IfOk result (λ a. Evaluated module_text.now calls_text.now room a.text.items a.is_unanswered) }
    ensures stop { IfErr result (λ stop. FrontStop module_text.now calls_text.now room stop) }
{
    let Front {
        checked,
        image,
        calls,
    } = match front_of(alloc, module_text, calls_text, room) {
        Ok(front) => front,
        Err(stop) => return Err(stop),
    };
    match eval_answers(alloc, &checked, &image, calls.as_slice()) {
        Ok(answered) => Ok(answered),
        Err(OutOfMemory) => Err(Stop::NoMemory),
    }
}

/// The lines of the evaluation of these calls.
fn eval_answers(
    alloc: Global,
    checked: &Checked,
    image: &Image,
    calls: &[ListedCall],
) -> Result<Answered, OutOfMemory>
    requires image { IsImageFor checked.now image.now }
    requires calls { AllListed checked.now.module_.functions calls.now }
    ensures lines { IfOk result (λ a. a.text.items ≡ outcome_lines checked.now.module_.functions calls.now (outcomes checked.now calls.now)) }
    ensures status { IfOk result (λ a. a.is_unanswered ≡ any_no_answer (outcomes checked.now calls.now)) }
{
    let all = outcomes_of(alloc, checked, image, calls)?;
    let text = eval_text(alloc, checked, calls, &all)?;
    Ok(Answered {
        text,
        is_unanswered: any_no_answer(&all),
    })
}

// From generic machine code to target code, and to words.
ghost use Rattle.std.specs.Prelude.{◌≡◌, ◌^◌, ◌<◌, ◌≤◌, IfOk, IfErr};
ghost use Rattle.gmir.specs.Formed.{IsFormed};
ghost use Rattle.mir.specs.WellFormed.{IsWellFormed};
ghost use Rattle.legal_code.specs.Legal.{HasWideAddresses, legalized};
ghost use Rattle.selected_code.specs.Selected.{selected as selected_code};
ghost use Rattle.gisel.specs.Size.{IsSmall};
ghost use Rattle.gisel.specs.Good.{AreGoodFor, IsCrowded};

use crate::placed::placed;
use gmir::code::GFunction;
use inst_select::select::select;
use legal_code::laws::{legal_forms_are_formed, legal_forms_are_legal, legal_forms_refine};
use legalizer::legalize::legalize;
use mir::code::MFunction;
use regbank::banks::choose;
use rj_num::NoMemory;
use rv_play::version::MakeRefusal;
use selected_code::laws::selected_refines;
use sqlite_items::Items;
use std::alloc::Global;

/// The target code of a function of generic machine code: that of its legal form.
fn selected(alloc: Global, function: &GFunction) -> Result<MFunction, NoMemory>
    requires formed { IsFormed function.now }
    requires addresses { HasWideAddresses function.now }
    requires small { IsSmall function.now }
    ensures exact { IfOk result (λ code. code ≡ selected_code (legalized function.now)) }
    ensures formed { IfOk result IsWellFormed }
{
    let legal = legalize(alloc, function)?;
    let banks = choose(alloc, &legal)?;
    select(alloc, &legal, banks.kept.as_slice())
}

/// Words of a function of generic machine code: where it refines a function of a typed module with at most eight parameters, they are a
/// good version of that. Takes time in the length of the function, and in the spans of its registers.
///
/// # Errors
/// `Crowded` only where more registers are live at the shown point than there are places, and else `NoMemory`.
pub fn words_of(alloc: Global, function: &GFunction) -> Result<Items<u32>, MakeRefusal>
    requires formed { IsFormed function.now }
    requires addresses { HasWideAddresses function.now }
    requires small { IsSmall function.now }
    requires end { function.now.end < 2 ^ 64 }
    requires values { function.now.values ≤ 32764 }
    requires symbol { function.now.symbol < 1024 }
    ensures good { IfOk result (AreGoodFor function.now) }
    ensures crowded { IfErr result (IsCrowded function.now.values) }
{
    legal_forms_are_legal();
    legal_forms_are_formed();
    legal_forms_refine();
    selected_refines();
    match selected(alloc, function) {
        Ok(code) => placed(alloc, code),
        Err(NoMemory) => Err(MakeRefusal::NoMemory),
    }
}

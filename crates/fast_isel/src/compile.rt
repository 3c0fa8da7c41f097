// The quick compiler for functions of several blocks.
ghost use Rattle.std.specs.Prelude.{◌≡◌, ◌<◌, ◌≤◌, ◌^◌, true, false, length, IfOk, IfErr};
ghost use Rattle.ir_meaning.specs.Meaning.{meaning};
ghost use Rattle.ir_core.specs.Units.{values};
ghost use Rattle.rv_play.specs.Good.{Good};
ghost use Rattle.rv_play.specs.Versions.{IsVersion, Allows};
ghost use Rattle.rv_asm.specs.Layout.{IsAssembly};
ghost use Rattle.rv_asm.specs.Runs.{RunsAs};
ghost use Rattle.quick_code.specs.Blocks.{label_count};
ghost use Rattle.quick_code.specs.Assembly.{code_of as code_of_function};
ghost use Rattle.fast_isel.specs.Written.{AreLimited, AreQuickWords};
ghost use Rattle.quick_code.specs.Forms.{IsFlow};
ghost use Rattle.fast_isel.specs.Taken.{is_taken};

use crate::blocks::code_of;
use ir_core::program::Function;
use ir_core::units::values_of;
use ir_data::addresses::Places;
use ir_verify::checked::Checked;
use rj_num::NoMemory;
use rv_play::version::{MakeRefusal, Version};
use session_types::Maker;
use sqlite_items::Items;
use std::alloc::Global;

/// A good version of a function of a module that passed the verifier, of level 1: each value stands in its slot on the control stack.
pub fn quick(alloc: Global, module: &Checked, symbol: u32) -> Result<Version, NoMemory>
    requires { symbol < length «module».now.module_.functions }
    ensures version { IfOk result (λ version. IsVersion «module».now symbol 1 version) }
    ensures words { IfOk result (λ version. AreQuickWords «module».now symbol version.words) }
{
    let globals = Places::new(alloc, module)?;
    quick_flow(alloc, module, &globals, symbol)
}

/// The same, where the module's globals are handed in with their addresses, which are the same for each function.
pub fn quick_flow(
    alloc: Global,
    module: &Checked,
    globals: &Places,
    symbol: u32,
) -> Result<Version, NoMemory>
    requires globals { globals.now ≡ «module».now.module_.globals }
    requires exists { symbol < length «module».now.module_.functions }
    ensures version { IfOk result (λ version. IsVersion «module».now symbol 1 version) }
    ensures words { IfOk result (λ version. AreQuickWords «module».now symbol version.words) }
{
    let words = words_of(alloc, module, globals, symbol)?;
    Ok(Version {
        symbol,
        level: 1,
        words,
    })
}

/// Makes quick code under any level, and never refuses a function as crowded.
#[derive(Clone, Copy, Drop)]
pub struct QuickMaker;

impl Maker for QuickMaker {
    ghost may_crowd = { λ _ _ _ _. false };

    fn make(
        &mut self,
        alloc: Global,
        module: &Checked,
        symbol: u32,
        level: u8,
    ) -> Result<Version, MakeRefusal>
        requires exists { symbol < length «module».now.module_.functions }
        requires level { (1 ≤ level) × (level ≤ 3) }
        ensures version { IfOk result (λ version. IsVersion «module».now symbol level version) }
        ensures words { IfOk result (λ version. AreQuickWords «module».now symbol version.words) }
        ensures refused { IfErr result (λ refusal. Allows false refusal) }
    {
        match words_alone(alloc, module, symbol) {
            Ok(words) => Ok(Version {
                symbol,
                level,
                words,
            }),
            Err(NoMemory) => Err(MakeRefusal::NoMemory),
        }
    }
}

// The words of the quick code of a function, where the addresses of globals are computed for it alone.
fn words_alone(alloc: Global, module: &Checked, symbol: u32) -> Result<Items<u32>, NoMemory>
    requires { symbol < length «module».now.module_.functions }
    ensures value { IfOk result (λ words. AreQuickWords «module».now symbol words) }
    ensures good { IfOk result (λ words. Good (meaning «module».now) symbol words) }
{
    let globals = Places::new(alloc, module)?;
    words_of(alloc, module, &globals, symbol)
}

// The words of the quick code of a function.
fn words_of(
    alloc: Global,
    module: &Checked,
    globals: &Places,
    symbol: u32,
) -> Result<Items<u32>, NoMemory>
    requires globals { globals.now ≡ «module».now.module_.globals }
    requires exists { symbol < length «module».now.module_.functions }
    ensures value { IfOk result (λ words. AreQuickWords «module».now symbol words) }
    ensures good { IfOk result (λ words. Good (meaning «module».now) symbol words) }
{
    let all = module.module();
    let function = &all.functions.as_slice()[symbol as usize];
    let words = function_words(alloc, globals, function, module.room(), symbol)?;
    Ok(Items::from_vec(words))
}

// The words of a function that is taken.
fn function_words(
    alloc: Global,
    globals: &Places,
    function: &Function,
    room: u64,
    symbol: u32,
) -> Result<Vec<u32>, NoMemory>
    requires flow { IsFlow function.now }
    requires limited { AreLimited function.now }
    requires taken { is_taken function.now ≡ true }
    requires room { room ≤ 67108864 }
    requires labels { label_count function.now ≤ 32768 }
    requires symbol { symbol < 1024 }
    ensures words { IfOk result (λ words. IsAssembly (code_of_function globals.now symbol function.now room) words.items) }
    ensures runs { IfOk result (λ words. length words.items ≤ 2 ^ 22 → RunsAs (code_of_function globals.now symbol function.now room) words.items) }
{
    let values = count_of(function);
    let asm = code_of(alloc, globals, function, room, symbol, values)?;
    asm.finish(alloc)
}

// How many values a function has that is taken.
#[tactic(auto, using(crate::proofs::Forms::few_values))]
fn count_of(function: &Function) -> u32
    requires { is_taken function.now ≡ true }
    ensures { result ≡ values function.now }
{
    values_of(function) as u32
}

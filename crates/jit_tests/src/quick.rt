// A session of two texts, a module's and its calls', over the quick compiler's versions.
ghost use Rattle.std.specs.Prelude.{◌+◌, ◌≤◌, length, IfSome};
ghost use Rattle.ir_data.specs.Image.{IsFirstImage};
ghost use Rattle.ir_meaning.specs.Memory.{data_start};
ghost use Rattle.jit_calls.specs.Listed.{AllListed};
ghost use Rattle.jit_session.specs.Runs.{IsImage};

use code_epochs::OpenRefusal;
use fast_isel::compile::QuickMaker;
use fast_isel::quick_versions;
use hart::Image;
use ir_data::image::{Image as FirstImage, first_image};
use ir_meaning::calls::ListedCall;
use ir_reader::read;
use ir_verify::checked::Checked;
use ir_verify::verdict::verify;
use jit_calls::read_calls;
use jit_session::{Gate, Setup, run};
use reopt_policy::ReoptPolicy;
use rj_num::NoMemory;
use session_types::Settled;
use sqlite_items::Items;
use std::alloc::Global;
use std::sync::Wait;
use std::thread::Threads;

const ROOM: u64 = 65_536;

/// What two texts say.
#[derive(Drop)]
pub struct Prepared {
    pub checked: Checked,
    first: FirstImage,
    calls: Items<ListedCall>,
}

// The image as harts take it.
fn image_of(checked: &Checked, first: FirstImage) -> Image
    requires { IsFirstImage checked.now.module_.globals first × (first.top ≤ data_start + checked.now.room) }
    ensures { IsImage checked.now result }
{
    let _ = checked;
    Image {
        bytes: first.bytes,
        top: first.top,
    }
}

/// What two texts say, a module's and its calls', or nothing where one doesn't say what it should.
pub fn prepare(alloc: Global, module_text: &[u8], calls_text: &[u8]) -> Option<Prepared>
    ensures image { IfSome result (λ p. IsFirstImage p.checked.module_.globals p.first × (p.first.top ≤ data_start + p.checked.room)) }
    ensures listed { IfSome result (λ p. AllListed p.checked.module_.functions p.calls) }
    ensures few { IfSome result (λ p. length p.calls ≤ 65536) }
{
    let Ok(module) = read(alloc, module_text) else {
        return None;
    };
    let Ok(checked) = verify(alloc, module, ROOM) else {
        return None;
    };
    let Ok(first) = first_image(alloc, &checked) else {
        return None;
    };
    let Ok(calls) = read_calls(alloc, calls_text, &checked) else {
        return None;
    };
    if calls.len() > 65_536 {
        return None;
    }
    Some(Prepared {
        checked,
        first,
        calls,
    })
}

/// The session of a module's calls over its quick code. No other function opens one.
pub fn open<R: Threads + Wait + Sync, P: ReoptPolicy + Send, G: Gate + Sync>(
    rt: &R,
    alloc: Global,
    prepared: Prepared,
    setup: Setup,
    policy: P,
    gate: &G,
) -> Result<Settled, OpenRefusal>
    requires image { IsFirstImage prepared.checked.module_.globals prepared.first × (prepared.first.top ≤ data_start + prepared.checked.room) }
    requires listed { AllListed prepared.checked.module_.functions prepared.calls }
    requires few { length prepared.calls ≤ 65536 }
    requires harts { (1 ≤ setup.harts) × (setup.harts ≤ 16) }
    requires workers { setup.workers ≤ 8 }
    requires code { (1 ≤ setup.code_words) × (setup.code_words ≤ 4194304) }
{
    let Prepared {
        checked,
        first,
        calls,
    } = prepared;
    let versions = match quick_versions(alloc, &checked) {
        Ok(versions) => versions,
        Err(NoMemory) => return Err(OpenRefusal::NoMemory),
    };
    let _ = checked.module();
    let image = image_of(&checked, first);
    let calls = calls.as_slice();
    let Ok(makers) = vec![in alloc; QuickMaker; setup.workers as usize + 1] else {
        return Err(OpenRefusal::NoMemory);
    };
    run(
        rt, alloc, &checked, &image, calls, setup, versions, policy, makers, gate,
    )
}

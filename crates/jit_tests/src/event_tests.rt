// The life of versions of one function, event by event, as worked out by hand from the order of the keeper's steps: the first version
// stands in words 0 to 19, the second in 20 to 39, and one word is left.
ghost use Rattle.std.specs.Prelude.{◌≡◌, ◌<◌, ◌≤◌, ◌∷◌, [], IfOk, length};
ghost use Rattle.ir_meaning.specs.Meaning.{meaning};
ghost use Rattle.hart.specs.Calls.{IsCall};
ghost use Rattle.fast_isel.specs.Taken.{IsTaken};
ghost use Rattle.jit_core.specs.Cores.{IsKept, IsSameCore, meaning_of};
ghost use Rattle.jit_core.specs.First.{AreQuick};

use code_epochs::PublishRefusal;
use fast_isel::compile::quick;
use fast_isel::taken::takes;
use hart::Image;
use ir_core::code::{BinOp, Block, Flags, Inst, Op, Operand};
use ir_core::program::{Function, Module};
use ir_core::types::Ty;
use ir_meaning::calls::{Ended, ListedCall};
use ir_verify::checked::Checked;
use ir_verify::verdict::verify;
use jit_core::{Core, Event, Stepped, finish, simulate};
use rj_num::NoMemory;
use rv_play::version::Version;
use sqlite_items::Items;
use std::alloc::{AllocError, Global};

const WORD: Ty = Ty::Int(64);

fn twice(alloc: Global) -> Result<Module, AllocError> {
    let flags = Flags {
        nuw: false,
        nsw: false,
        exact: false,
        disjoint: false,
        nneg: false,
        samesign: false,
    };
    let sum = Inst {
        gives: WORD,
        op: Op::Binary(BinOp::Add, flags, Operand::Value(0), Operand::Value(0)),
    };
    let back = Inst {
        gives: Ty::Void,
        op: Op::Ret(Some(Operand::Value(1))),
    };
    let block = Block {
        insts: Items::from_vec(vec![in alloc; sum, back]?),
    };
    let function = Function {
        name: Items::new(alloc),
        params: Items::from_vec(vec![in alloc; WORD]?),
        ret: WORD,
        blocks: Items::from_vec(vec![in alloc; block]?),
    };
    Ok(Module {
        globals: Items::new(alloc),
        functions: Items::from_vec(vec![in alloc; function]?),
    })
}

fn one(alloc: Global, version: Version) -> Result<Vec<Version>, AllocError>
    ensures { IfOk result (λ v. v.items ≡ version ∷ []) }
{
    Ok(vec![in alloc; version]?)
}

// The first version of the module's one function, as a list.
fn one_version(alloc: Global, all: &Checked) -> Result<Vec<Version>, NoMemory>
    requires taken { IsTaken all.now.module_ }
    requires one { length all.now.module_.functions ≡ 1 }
    ensures { IfOk result (λ v. AreQuick (meaning all.now) v.items) }
{
    let version = quick(alloc, all, 0)?;
    match one(alloc, version) {
        Ok(versions) => Ok(versions),
        Err(_) => Err(NoMemory),
    }
}

// What an order was answered.
#[derive(Clone, Copy, PartialEq, Eq)]
enum Answer {
    Taken,
    Busy,
    NoRoom { needed: u64, largest: u32 },
    Other,
}

fn answer_of(stepped: &Stepped) -> Answer {
    match stepped {
        Stepped::Taken => Answer::Taken,
        Stepped::Busy(_) => Answer::Busy,
        Stepped::Refused(_, PublishRefusal::NoRoom { needed, largest }) => Answer::NoRoom {
            needed: *needed,
            largest: *largest,
        },
        _ => Answer::Other,
    }
}

// Orders a version of the module's one function.
fn order(alloc: Global, core: &mut Core<'_>, all: &Checked) -> Answer
    requires kept { IsKept core.old }
    requires module { meaning_of core.old ≡ meaning all.now }
    requires taken { IsTaken all.now.module_ }
    requires one { length all.now.module_.functions ≡ 1 }
    ensures kept { IsKept core.new }
    ensures same { IsSameCore core.old core.new }
{
    let Ok(version) = quick(alloc, all, 0) else {
        return Answer::Other;
    };
    let stepped = core.order(alloc, version);
    answer_of(&stepped)
}

// One where a step was made.
fn count(stepped: &Stepped) -> u32
    ensures { result ≤ 1 }
{
    match stepped {
        Stepped::Moved => 1,
        _ => 0,
    }
}

// How many steps one event of the keeper makes.
fn keeper_step(core: &mut Core<'_>) -> u32
    requires kept { IsKept core.old }
    ensures kept { IsKept core.new }
    ensures same { IsSameCore core.old core.new }
    ensures most { result ≤ 1 }
{
    let stepped = core.step_keeper();
    count(&stepped)
}

// How many steps one event of the first hart makes.
fn hart_step(core: &mut Core<'_>) -> u32
    requires kept { IsKept core.old }
    ensures kept { IsKept core.new }
    ensures same { IsSameCore core.old core.new }
    ensures most { result ≤ 1 }
{
    let stepped = core.step_hart(0);
    count(&stepped)
}

// How many of so many events of the keeper make a step.
fn keeper_steps(core: &mut Core<'_>, events: u32) -> u32
    requires kept { IsKept core.old }
    ensures kept { IsKept core.new }
    ensures same { IsSameCore core.old core.new }
{
    let mut steps = 0;
    for _ in 0..events {
        steps += keeper_step(core);
    }
    steps
}

// How many of so many events of the first hart make a step.
fn hart_steps(core: &mut Core<'_>, events: u32) -> u32
    requires kept { IsKept core.old }
    ensures kept { IsKept core.new }
    ensures same { IsSameCore core.old core.new }
{
    let mut steps = 0;
    for _ in 0..events {
        steps += hart_step(core);
    }
    steps
}

// `@twice(i64 21)`
fn listed(alloc: Global) -> Result<ListedCall, AllocError>
    ensures { IfOk result (IsCall 1) }
{
    Ok(ListedCall {
        symbol: 0,
        args: Items::from_slice(alloc, &[21])?,
        turns: 1_000_000,
    })
}

// The first version is replaced while a call runs over it: nothing is left to do for the keeper before the order, and the order
// before the last has to wait until the call has ended.
fn replaced(alloc: Global, core: &mut Core<'_>, all: &Checked) -> bool
    requires kept { IsKept core.old }
    requires module { meaning_of core.old ≡ meaning all.now }
    requires taken { IsTaken all.now.module_ }
    requires one { length all.now.module_.functions ≡ 1 }
    ensures kept { IsKept core.new }
    ensures same { IsSameCore core.old core.new }
{
    // Nothing is to be done. The epoch is loaded and announced, and the cell is loaded.
    if keeper_steps(core, 1) != 0 || hart_steps(core, 3) != 3 {
        return false;
    }
    let taken = order(alloc, core, all);
    let busy = order(alloc, core, all);
    if taken != Answer::Taken || busy != Answer::Busy {
        return false;
    }
    // The header and 19 words, the swap, the raise, and a look that finds 1.
    if keeper_steps(core, 23) != 23 || core.answer(0).is_some() {
        return false;
    }
    let refused = order(alloc, core, all);
    refused
        == Answer::NoRoom {
            needed: 20,
            largest: 1,
        }
}

// Once the call has ended the first version is given up, and its words are taken for a third one.
fn given_up(alloc: Global, core: &mut Core<'_>, all: &Checked) -> bool
    requires kept { IsKept core.old }
    requires module { meaning_of core.old ≡ meaning all.now }
    requires taken { IsTaken all.now.module_ }
    requires one { length all.now.module_.functions ≡ 1 }
    ensures kept { IsKept core.new }
    ensures same { IsSameCore core.old core.new }
{
    // 17 words are fetched, since the guard's two words for a full stack are passed over, and the pass ends.
    if hart_steps(core, 30) != 18 {
        return false;
    }
    if !matches!(core.answer(0), Some(Ended::Value(42))) {
        return false;
    }
    // A look that finds 0, and the header is cleared; nothing is left to do.
    if keeper_steps(core, 4) != 2 {
        return false;
    }
    let taken = order(alloc, core, all);
    // 20 words, the swap and the raise, a look that finds 0, and the second version's header.
    let steps = keeper_steps(core, 30);
    taken == Answer::Taken && steps == 24 && core.versions() == 3
}

#[test]
fn two_versions_are_replaced(rt: HostRuntime) {
    let alloc = rt.alloc();
    let Ok(module) = twice(alloc) else {
        panic!(rt; "there is memory");
    };
    let Ok(all) = verify(alloc, module, 4096) else {
        panic!(rt; "the module verifies");
    };
    assert!(rt; takes(&all) && all.module().functions.len() == 1);
    let Ok(first) = one_version(alloc, &all) else {
        panic!(rt; "there is memory");
    };
    let Ok(call) = listed(alloc) else {
        panic!(rt; "there is memory");
    };
    let calls = [call];
    let image = Image {
        bytes: Items::new(alloc),
        top: 0x1000_0000,
    };
    let Ok(mut core) = Core::new(alloc, &all, &image, &calls, first, 1, 41) else {
        panic!(rt; "there is room");
    };
    let replaced = replaced(alloc, &mut core, &all);
    assert!(rt; replaced);
    let given_up = given_up(alloc, &mut core, &all);
    assert!(rt; given_up);
}

#[test]
fn rounds_answer_every_call(rt: HostRuntime) {
    let alloc = rt.alloc();
    let Ok(module) = twice(alloc) else {
        panic!(rt; "there is memory");
    };
    let Ok(all) = verify(alloc, module, 4096) else {
        panic!(rt; "the module verifies");
    };
    assert!(rt; takes(&all) && all.module().functions.len() == 1);
    let Ok(first) = one_version(alloc, &all) else {
        panic!(rt; "there is memory");
    };
    let (Ok(one), Ok(two), Ok(three)) = (listed(alloc), listed(alloc), listed(alloc)) else {
        panic!(rt; "there is memory");
    };
    let calls = [one, two, three];
    let image = Image {
        bytes: Items::new(alloc),
        top: 0x1000_0000,
    };
    let Ok(mut core) = Core::new(alloc, &all, &image, &calls, first, 2, 20) else {
        panic!(rt; "there is room");
    };
    let Ok(events) = vec![in alloc; Event::Hart(1), Event::Keeper, Event::Hart(0)] else {
        panic!(rt; "there is memory");
    };
    simulate(alloc, &mut core, events);
    finish(&mut core);
    assert!(rt; matches!(core.answer(0), Some(Ended::Value(42))));
    assert!(rt; matches!(core.answer(1), Some(Ended::Value(42))));
    assert!(rt; matches!(core.answer(2), Some(Ended::Value(42))));
    assert!(rt; core.versions() == 1);
}

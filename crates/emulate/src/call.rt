// Calls of words on a hart.
ghost use Rattle.std.specs.Prelude.{◌≡◌, ◌<◌, ◌≤◌, ◌^◌, IfOk, length, slice_index, ℕ};
ghost use Rattle.hart.specs.Fixed.{AreVersions};

use hart::{FixedFabric, Hart, Image};
use ir_core::code::{Block, Inst, Op, Operand};
use ir_core::program::{Function, Module};
use ir_core::types::Ty;
use ir_meaning::calls::{Ended, ListedCall};
use ir_verify::checked::Checked;
use ir_verify::verdict::verify;
use rj_num::NoMemory;
use rv_play::version::Version;
use sqlite_items::Items;
use std::alloc::{AllocError, Global};

// The bytes of data memory.
const ROOM: u64 = 2_097_152;

/// The most words of a call.
pub const MOST_WORDS: usize = 1000;

/// The most turns of a call.
pub const MOST_TURNS: u64 = 1 << 32;

/// A hart that knows one function, of a number of 64 bits, with two megabytes of data memory.
pub fn hart_of_one(alloc: Global) -> Result<Hart, NoMemory>
    ensures { IfOk result (λ (hart : Hart). hart.functions ≡ 1) }
{
    let module = match one_function(alloc) {
        Ok(module) => module,
        Err(_) => return Err(NoMemory),
    };
    match verify(alloc, module, ROOM) {
        Ok(checked) => knowing(alloc, &checked),
        Err(_) => Err(NoMemory),
    }
}

fn knowing(alloc: Global, checked: &Checked) -> Result<Hart, NoMemory>
    requires one { length checked.now.module_.functions ≡ 1 }
    requires room { checked.now.room ≡ 2097152 }
    ensures { IfOk result (λ (hart : Hart). hart.functions ≡ 1) }
{
    let mut hart = Hart::new(alloc, ROOM)?;
    hart.widths(alloc, checked)?;
    Ok(hart)
}

/// How a call of the words ends after at most so many turns of 256 instructions, on memory as the last call left it.
pub fn call_words(
    alloc: Global,
    hart: &mut Hart,
    turns: u64,
    a0: u64,
    words: Vec<u32>,
) -> Result<Ended, NoMemory>
    requires one { hart.old.functions ≡ 1 }
    requires words { length words.items ≤ 1000 }
    requires turns { turns ≤ 2 ^ 32 }
    ensures { hart.new.functions ≡ 1 }
{
    let mut fabric = FixedFabric::new(alloc, one_version(alloc, words)?)?;
    let call = one_call(alloc, turns, a0)?;
    let image = Image {
        bytes: Items::new(alloc),
        top: 0x1000_0000,
    };
    Ok(hart.run_call(&mut fabric, &image, &call))
}

// A call of the one function.
fn one_call(alloc: Global, turns: u64, a0: u64) -> Result<ListedCall, NoMemory>
    requires { turns ≤ 2 ^ 32 }
    ensures symbol { IfOk result (λ (call : ListedCall). call.symbol ≡ 0) }
    ensures argument { IfOk result (λ (call : ListedCall). (i : ℕ) → slice_index call.args i < 2 ^ 64) }
    ensures turns { IfOk result (λ (call : ListedCall). call.turns ≡ turns) }
{
    match Items::from_slice(alloc, &[a0 as u128]) {
        Ok(args) => Ok(ListedCall {
            symbol: 0,
            args,
            turns,
        }),
        Err(_) => Err(NoMemory),
    }
}

// The words as the version of the one function.
fn one_version(alloc: Global, words: Vec<u32>) -> Result<Vec<Version>, NoMemory>
    requires { length words.items ≤ 1000 }
    ensures versions { IfOk result (λ versions. AreVersions versions.items) }
    ensures one { IfOk result (λ versions. length versions.items ≡ 1) }
{
    let version = Version {
        symbol: 0,
        level: 1,
        words: Items::from_vec(words),
    };
    match vec![in alloc; version] {
        Ok(versions) => Ok(versions),
        Err(_) => Err(NoMemory),
    }
}

// A module of one function from a number of 64 bits to another one.
fn one_function(alloc: Global) -> Result<Module, AllocError>
    ensures one { IfOk result (λ (m : Module). length m.functions ≡ 1) }
{
    let ret = Inst {
        gives: Ty::Void,
        op: Op::Ret(Some(Operand::Value(0))),
    };
    let block = Block {
        insts: Items::from_vec(vec![in alloc; ret]?),
    };
    let function = Function {
        name: Items::new(alloc),
        params: Items::from_vec(vec![in alloc; Ty::Int(64)]?),
        ret: Ty::Int(64),
        blocks: Items::from_vec(vec![in alloc; block]?),
    };
    Ok(Module {
        globals: Items::new(alloc),
        functions: Items::from_vec(vec![in alloc; function]?),
    })
}

// The entry of a function.
ghost use Rattle.std.specs.Prelude.{◌≡◌, ℕ, ◌^◌, ◌<◌, ◌∷◌, [], slice_index, IfOk};
ghost use Rattle.ir_core.specs.Units.{values as value_count};
ghost use Rattle.ir_eval.specs.Code.{program_with};
ghost use Rattle.ir_eval.specs.Fits.{IsUsable};
ghost use Rattle.ir_eval.specs.Runs.{Counted, Enters};
ghost use Rattle.ir_meaning.specs.Step.{first_values as first_values_of};

use crate::edges::pay;
use crate::ends::{End, Entered};
use ir_core::program::{Function, Module};
use ir_core::units::{frame_of, values_of};
use ir_meaning::activation::Activation;
use ir_ops::memory::DataMemory;
use sqlite_items::Items;
use std::alloc::AllocError;

/// The start of the control stack, and its end.
pub const STACK_START: u64 = 0x4000_0000;

pub const STACK_END: u64 = 0x4080_0000;

/// Counts an entry of a symbol.
fn count_entry(counts: &mut Items<u64>, symbol: u32)
    requires { (k : ℕ) → slice_index counts.old k < 2 ^ 63 }
    ensures { Counted (symbol ∷ []) counts.old counts.new }
{
    let at = symbol as usize;
    if at < counts.len() {
        let count = counts.as_slice()[at];
        counts.set(at, count + 1);
    }
}

/// Parameters have the arguments, other values aren't known yet.
fn first_values(
    function: &Function,
    given: Items<Option<u128>>,
) -> Result<Items<Option<u128>>, AllocError>
    requires { value_count function.now < 2 ^ 32 }
    ensures { IfOk result (λ values. values ≡ first_values_of function.now given) }
{
    let mut values = given;
    let missing = values_of(function).saturating_sub(values.len() as u64);
    for _ in 0..missing {
        values.push(None)?;
    }
    Ok(values)
}

/// Enters a function: the symbol is counted first, then the entry is paid for, then its frame is looked at.
pub fn enter(
    all: &Module,
    room: u64,
    symbol: u32,
    given: Items<Option<u128>>,
    memory: &DataMemory,
    sp: u64,
    counts: &mut Items<u64>,
    left: &mut u64,
) -> Result<Entered, AllocError>
    requires usable { IsUsable (program_with all.now room) }
    requires few { (k : ℕ) → slice_index counts.old k < 2 ^ 63 }
    ensures counted { IfOk result (λ entered. Counted (symbol ∷ []) counts.old counts.new) }
    ensures enters { IfOk result (λ entered. Enters (program_with all.now room) symbol given memory.now sp left.old entered left.new) }
{
    count_entry(counts, symbol);
    if !pay(left, 2) {
        return Ok(Entered::Ends(End::NotEnded));
    }
    let function = match all.functions.get(symbol as usize) {
        None => return Ok(Entered::Ends(End::Undefined)),
        Some(function) => function,
    };
    let frame = frame_of(function);
    if sp < STACK_START + frame {
        return Ok(Entered::Ends(End::Stack));
    }
    let values = first_values(function, given)?;
    Ok(Entered::Opens(Activation {
        symbol,
        block: 0,
        place: 0,
        values,
        entry_length: memory.len() as u64,
        sp: sp - frame,
    }))
}

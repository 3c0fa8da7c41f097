// How often each register is read.
ghost use Rattle.std.specs.Prelude.{◌≡◌, ℕ, ◌<◌, length, replicate, IfOk, if◌then◌else◌, ◌==◌};
ghost use Rattle.gmir.specs.Formed.{times};
ghost use Rattle.regbank.specs.Counts.{uses_in, uses_in_blocks, uses_of, AreCounts, Counts};

use gmir::code::{GFunction, GInst};
use rj_num::NoMemory;
use sqlite_items::Items;
use std::alloc::Global;

/// Counts one use of a register, unless there is none of that number.
fn count_use(counts: &mut Vec<u32>, register: u32)
    ensures { Counts (λ r. if register == r then 1 else 0) counts.old.items counts.new.items }
{
    let at = register as usize;
    if at < counts.len() {
        counts[at] = counts[at].saturating_add(1);
    }
}

fn count_uses(counts: &mut Vec<u32>, registers: &[u32])
    ensures { Counts (λ r. times r registers.now) counts.old.items counts.new.items }
{
    for register in registers {
        count_use(counts, *register);
    }
}

fn count_block(counts: &mut Vec<u32>, insts: &[GInst])
    ensures { Counts (λ r. uses_in r insts.now) counts.old.items counts.new.items }
{
    for inst in insts {
        count_uses(counts, inst.uses.as_slice());
    }
}

fn count_blocks(counts: &mut Vec<u32>, blocks: &[Items<GInst>])
    ensures { Counts (λ r. uses_in_blocks r blocks.now) counts.old.items counts.new.items }
{
    for block in blocks {
        count_block(counts, block.as_slice());
    }
}

fn zeros(alloc: Global, count: usize) -> Result<Vec<u32>, NoMemory>
    ensures { IfOk result (λ zeros. zeros.items ≡ replicate count 0) }
{
    vec![in alloc; 0u32; count].map_err(|_| NoMemory)
}

/// How often each register is read, up to the greatest `u32`.
pub fn counts_of(alloc: Global, function: &GFunction) -> Result<Vec<u32>, NoMemory>
    ensures long { IfOk result (λ counts. length counts.items ≡ length function.now.types) }
    ensures counts { IfOk result (λ counts. AreCounts (uses_of function.now) counts.items) }
{
    let mut counts = zeros(alloc, function.types.len())?;
    count_blocks(&mut counts, function.blocks.as_slice());
    Ok(counts)
}

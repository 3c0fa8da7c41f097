// The numbers of blocks' first instructions, and where each block is entered from.
ghost use Rattle.std.specs.Prelude.{◌≡◌, ℕ, ◌+◌, ◌<◌, ◌^◌, [], ◌∷◌, ◌++◌, length, replicate, IfOk, OnOk};
ghost use Rattle.std.specs.List.{Contains};
ghost use Rattle.liveness.specs.Scan.{IsNumbering, HasTargets, AddsSource, AreSources, last_targets};

use mir::code::MInst;
use mir::operands::put_targets;
use rj_num::NoMemory;
use sqlite_items::Items;
use std::alloc::Global;

/// Points of fewer instructions than this are below 2 ^ 32.
pub const LIMIT: usize = 2147483648;

fn push(numbers: &mut Vec<u32>, number: u32) -> Result<(), NoMemory>
    ensures { OnOk result (numbers.new.items ≡ numbers.old.items ++ number ∷ []) }
{
    match numbers.push(number) {
        Ok(()) => Ok(()),
        Err(_) => Err(NoMemory),
    }
}

/// Puts the number of the next block's first instruction behind the list, and gives it.
fn push_next(numbers: &mut Vec<u32>, number: usize, count: usize) -> Result<usize, NoMemory>
    requires { number < 2147483648 }
    ensures next { IfOk result (λ next. next ≡ number + count) }
    ensures below { IfOk result (λ next. next < 2147483648) }
    ensures pushed { IfOk result (λ next. numbers.new.items ≡ numbers.old.items ++ next ∷ []) }
{
    if count >= LIMIT - number {
        return Err(NoMemory);
    }
    push(numbers, (number + count) as u32)?;
    Ok(number + count)
}

/// How many instructions come before each block, and behind all of them; as for want of memory where points can't count them.
pub fn numbers(alloc: Global, blocks: &[Items<MInst>]) -> Result<Vec<u32>, NoMemory>
    ensures { IfOk result (λ numbers. IsNumbering blocks.now (length blocks.now) numbers.items) }
{
    let mut numbers = Vec::new(alloc);
    push(&mut numbers, 0)?;
    let mut number = 0;
    for block in blocks {
        number = push_next(&mut numbers, number, block.len())?;
    }
    Ok(numbers)
}

/// Puts the targets of a block's last instruction behind the list.
fn put_last_targets(list: &mut Vec<u32>, block: &[MInst]) -> Result<(), NoMemory>
    ensures { OnOk result (list.new.items ≡ list.old.items ++ last_targets block.now) }
{
    match block.last() {
        Some(inst) => put_targets(list, inst),
        None => Ok(()),
    }
}

/// A list without items for each block.
fn empty_lists(alloc: Global, count: usize) -> Result<Vec<Items<u32>>, NoMemory>
    ensures { IfOk result (λ lists. lists.items ≡ replicate count []) }
{
    let mut lists = Vec::new(alloc);
    for _ in 0..count {
        if lists.push(Items::new(alloc)).is_err() {
            return Err(NoMemory);
        }
    }
    Ok(lists)
}

fn add(list: &mut Items<u32>, number: u32) -> Result<(), NoMemory>
    ensures { OnOk result (list.new ≡ list.old ++ number ∷ []) }
{
    match list.push(number) {
        Ok(()) => Ok(()),
        Err(_) => Err(NoMemory),
    }
}

/// Adds the block to the list of each target.
fn add_source(sources: &mut Vec<Items<u32>>, targets: &[u32], from: u32) -> Result<(), NoMemory>
    requires { (to : ℕ) → Contains targets.now to → to < length sources.old.items }
    ensures { OnOk result (AddsSource sources.old.items targets.now from sources.new.items) }
{
    for to in targets {
        add(&mut sources[*to as usize], from)?;
    }
    Ok(())
}

/// For each block those that go there.
pub fn sources(alloc: Global, blocks: &[Items<MInst>]) -> Result<Vec<Items<u32>>, NoMemory>
    requires count { length blocks.now < 2 ^ 32 }
    requires targets { HasTargets blocks.now }
    ensures { IfOk result (λ sources. AreSources blocks.now (length blocks.now) sources.items) }
{
    let mut sources = empty_lists(alloc, blocks.len())?;
    let mut targets = Vec::new(alloc);
    for from in 0..blocks.len() {
        targets.clear();
        put_last_targets(&mut targets, blocks[from].as_slice())?;
        add_source(&mut sources, targets.as_slice(), from as u32)?;
    }
    Ok(sources)
}

// The reads and writes of each block.
ghost use Rattle.std.specs.Prelude.{◌≡◌, ℕ, ◌+◌, ◌*◌, ◌<◌, ◌≤◌, ◌⊎◌, ◌^◌, true, [], ◌∷◌, ◌++◌, length, slice_index_or, IfOk, OnOk};
ghost use Rattle.std.specs.List.{Contains};
ghost use Rattle.rj_num.specs.Sets.{has};
ghost use Rattle.mir.specs.Code.{reads, writes};
ghost use Rattle.liveness.specs.Search.{HasPoint, IsFound, Extends, Adds, IsSized};
ghost use Rattle.liveness.specs.Scan.{NotesReads, NotesWrites, ReadsInst, HasRegisters, IsRead, IsReadFirst, IsUsedIn, IsNeeded, IsUse, IsNumbering, AreRead, HaveSizes};

use crate::search::Search;
use mir::code::MInst;
use mir::operands::{put_reads, put_writes};
use rj_num::NoMemory;
use rj_num::sets::ValueSet;
use sqlite_items::Items;
use std::alloc::Global;

/// Registers that are read at a point: each that isn't written before in its block is live where the block begins.
fn note_reads(
    search: &mut Search,
    written: &ValueSet,
    registers: &[u32],
    block: u32,
    point: u32,
) -> Result<(), NoMemory>
    requires sized { IsSized search.old (length search.old.live.items) (length written.now) }
    requires block { block < length search.old.live.items }
    requires registers { (r : ℕ) → Contains registers.now r → r < length written.now }
    ensures { OnOk result (NotesReads search.old written.now registers.now block point search.new) }
{
    for register in registers {
        search.hold(*register, point);
        search.reach_unless(written, *register, block)?;
    }
    Ok(())
}

/// Registers that are written at a point.
fn note_writes(search: &mut Search, written: &mut ValueSet, registers: &[u32], point: u32)
    requires size { length search.old.spans.items ≡ length written.old }
    requires registers { (r : ℕ) → Contains registers.now r → r < length written.old }
    ensures { NotesWrites search.old written.old registers.now point search.new written.new }
{
    for register in registers {
        search.hold(*register, point);
        written.insert(*register);
    }
}

/// Reads the instruction of that number, with the list at hand for its registers.
fn read_inst(
    search: &mut Search,
    written: &mut ValueSet,
    list: &mut Vec<u32>,
    inst: &MInst,
    block: u32,
    number: u32,
) -> Result<(), NoMemory>
    requires sized { IsSized search.old (length search.old.live.items) (length written.old) }
    requires block { block < length search.old.live.items }
    requires reads { (r : ℕ) → Contains (reads inst.now) r → r < length written.old }
    requires writes { (r : ℕ) → Contains (writes inst.now) r → r < length written.old }
    requires number { number < 2147483648 }
    ensures { OnOk result (ReadsInst search.old written.old inst.now block (2 * number) search.new written.new) }
{
    list.clear();
    put_reads(list, inst)?;
    note_reads(search, written, list.as_slice(), block, 2 * number)?;
    list.clear();
    put_writes(list, inst)?;
    note_writes(search, written, list.as_slice(), 2 * number + 1);
    Ok(())
}

/// Reads the instructions of a block from the first to the last, and gives the registers that it writes.
/// `first` is the number of its first instruction.
fn scan_block(
    alloc: Global,
    search: &mut Search,
    list: &mut Vec<u32>,
    insts: &[MInst],
    block: u32,
    first: u32,
    regs: u32,
) -> Result<ValueSet, NoMemory>
    requires sized { IsSized search.old (length search.old.live.items) regs }
    requires block { block < length search.old.live.items }
    requires registers { HasRegisters regs insts.now }
    requires points { first + length insts.now < 2147483648 }
    ensures extends { OnOk result (Extends search.old search.new) }
    ensures size { IfOk result (λ written. length written ≡ regs) }
    ensures read { IfOk result (λ written. IsRead search.new written insts.now block (length insts.now) first) }
    ensures adds { OnOk result (Adds (IsUsedIn insts.now (length insts.now) first) (λ b r. (b ≡ block) × IsReadFirst insts.now (length insts.now) r) search.old search.new) }
{
    let mut written = ValueSet::new(alloc, regs)?;
    for place in 0..insts.len() {
        let number = first + place as u32;
        read_inst(search, &mut written, list, &insts[place], block, number)?;
    }
    Ok(written)
}

fn push_set(sets: &mut Vec<ValueSet>, set: ValueSet) -> Result<(), NoMemory>
    ensures { OnOk result (sets.new.items ≡ sets.old.items ++ set ∷ []) }
{
    match sets.push(set) {
        Ok(()) => Ok(()),
        Err(_) => Err(NoMemory),
    }
}

/// Reads each block, and gives for each the registers that it writes.
pub fn scan(
    alloc: Global,
    search: &mut Search,
    blocks: &[Items<MInst>],
    numbers: &[u32],
    regs: u32,
) -> Result<Vec<ValueSet>, NoMemory>
    requires numbers { IsNumbering blocks.now (length blocks.now) numbers.now }
    requires count { length blocks.now < 2 ^ 32 }
    requires sized { IsSized search.old (length blocks.now) regs }
    requires registers { (b : ℕ) → HasRegisters regs (slice_index_or blocks.now b []) }
    ensures extends { OnOk result (Extends search.old search.new) }
    ensures sizes { IfOk result (λ written. HaveSizes (length blocks.now) regs written.items) }
    ensures read { IfOk result (λ written. AreRead search.new written.items blocks.now (length blocks.now)) }
    ensures adds { OnOk result (Adds (IsUse blocks.now) (λ b r. IsNeeded blocks.now r b) search.old search.new) }
{
    let mut list = Vec::new(alloc);
    let mut written = Vec::new(alloc);
    for block in 0..blocks.len() {
        let insts = blocks[block].as_slice();
        let set = scan_block(
            alloc,
            search,
            &mut list,
            insts,
            block as u32,
            numbers[block],
            regs,
        )?;
        push_set(&mut written, set)?;
    }
    Ok(written)
}

// What comes before the blocks where registers are live.
ghost use Rattle.std.specs.Prelude.{◌≡◌, ℕ, ◌+◌, ◌*◌, ◌-◌, ◌<◌, ◌≤◌, ◌^◌, true, false, [], length, slice_index, slice_index_or, IfOk, OnOk};
ghost use Rattle.std.specs.List.{Contains};
ghost use Rattle.liveness.specs.Search.{IsFound, IsEnd, Grows, looks_left, IsSized};
ghost use Rattle.liveness.specs.Scan.{IsNumbering, AreSources, HaveSizes, KnowsWritten, LooksAt, LooksBack, IsDone, IsUse, Searches};

use crate::search::Search;
use mir::code::MInst;
use rj_num::NoMemory;
use rj_num::sets::ValueSet;
use sqlite_items::Items;

/// The register is live behind each of these blocks, and where each begins unless that writes it.
fn look_at(
    search: &mut Search,
    written: &[ValueSet],
    sources: &[u32],
    numbers: &[u32],
    register: u32,
) -> Result<(), NoMemory>
    requires register { register < length search.old.spans.items }
    requires sized { IsSized search.old (length written.now) (length search.old.spans.items) }
    requires sizes { HaveSizes (length written.now) (length search.old.spans.items) written.now }
    requires sources { (from : ℕ) → Contains sources.now from → from < length written.now }
    requires numbers { length numbers.now ≡ length written.now + 1 }
    requires most { (b : ℕ) → b ≤ length written.now → slice_index numbers.now b < 2147483648 }
    ensures { OnOk result (LooksAt search.old written.now sources.now numbers.now register search.new) }
{
    for from in sources {
        let place = *from as usize;
        search.hold(register, (2 * numbers[place + 1]).saturating_sub(1));
        search.reach_unless(&written[place], register, *from)?;
    }
    Ok(())
}

/// A register is live where a block begins: it is in the span there, and it is live behind each block that goes there.
fn look_back(
    search: &mut Search,
    written: &[ValueSet],
    sources: &[Items<u32>],
    numbers: &[u32],
    register: u32,
    block: u32,
) -> Result<(), NoMemory>
    requires block { (block < length written.now) × (length sources.now ≡ length written.now) }
    requires register { register < length search.old.spans.items }
    requires sized { IsSized search.old (length written.now) (length search.old.spans.items) }
    requires sizes { HaveSizes (length written.now) (length search.old.spans.items) written.now }
    requires sources { (from : ℕ) → Contains (slice_index_or sources.now block []) from → from < length written.now }
    requires numbers { length numbers.now ≡ length written.now + 1 }
    requires most { (b : ℕ) → b ≤ length written.now → slice_index numbers.now b < 2147483648 }
    ensures { OnOk result (LooksBack search.old written.now (slice_index_or sources.now block []) numbers.now register (2 * slice_index numbers.now block) search.new) }
{
    let place = block as usize;
    search.hold(register, 2 * numbers[place]);
    let from = sources[place].as_slice();
    look_at(search, written, from, numbers, register)?;
    Ok(())
}

/// Looks back from the last block of the list of work, and says whether there was one.
fn look_once(
    search: &mut Search,
    written: &[ValueSet],
    blocks: &[Items<MInst>],
    sources: &[Items<u32>],
    numbers: &[u32],
) -> Result<bool, NoMemory>
    requires numbers { IsNumbering blocks.now (length blocks.now) numbers.now }
    requires sources { AreSources blocks.now (length blocks.now) sources.now }
    requires sized { IsSized search.old (length blocks.now) (length search.old.spans.items) }
    requires sizes { HaveSizes (length blocks.now) (length search.old.spans.items) written.now }
    requires written { KnowsWritten blocks.now written.now }
    requires searches { Searches blocks.now sources.now written.now search.old }
    ensures grows { OnOk result (Grows search.old search.new) }
    ensures searches { OnOk result (Searches blocks.now sources.now written.now search.new) }
    ensures ended { IfOk result (λ more. more ≡ false → search.new.work.items ≡ []) }
    ensures falls { IfOk result (λ more. more ≡ true → looks_left search.new < looks_left search.old) }
{
    match search.take_work() {
        Some(pair) => {
            look_back(search, written, sources, numbers, pair.0, pair.1)?;
            Ok(true)
        }
        None => Ok(false),
    }
}

/// Looks back from each block where a register was found live, until nothing is left.
pub fn spread(
    search: &mut Search,
    written: &[ValueSet],
    blocks: &[Items<MInst>],
    sources: &[Items<u32>],
    numbers: &[u32],
) -> Result<(), NoMemory>
    requires numbers { IsNumbering blocks.now (length blocks.now) numbers.now }
    requires sources { AreSources blocks.now (length blocks.now) sources.now }
    requires sized { IsSized search.old (length blocks.now) (length search.old.spans.items) }
    requires sizes { HaveSizes (length blocks.now) (length search.old.spans.items) written.now }
    requires written { KnowsWritten blocks.now written.now }
    requires searches { Searches blocks.now sources.now written.now search.old }
    ensures grows { OnOk result (Grows search.old search.new) }
    ensures done { OnOk result ((b r : ℕ) → IsFound search.new b r → IsDone blocks.now sources.now written.now search.new b r) }
    ensures ends { OnOk result ((r point : ℕ) → IsEnd search.new r point → IsUse blocks.now r point) }
{
    loop {
        let is_more = look_once(search, written, blocks, sources, numbers)?;
        if !is_more {
            return Ok(());
        }
    }
}

//! Each kind of step.
ghost use Rattle.std.specs.Prelude.{◌≡◌, ◌<◌, ◌≤◌, ◌+◌, ◌-◌, ◌*◌, ◌/◌, ◌==◌, ◌⊎◌, ◌↔◌, OnOk, true, ℕ, List, ◌++◌, ◌∷◌, [], length, map, slice_set, slice_index, slice_index_or, vec_len, vec_capacity};
ghost use Rattle.code_epochs.specs.Sound.{At, Whole, Sound, Backed, start_of};
ghost use Rattle.ir_meaning.specs.Plays.{Meaning};
ghost use Rattle.code_epochs.specs.declared.parts.Draft.{Draft};
ghost use Rattle.code_epochs.specs.declared.parts.HartPart.{HartPart};
ghost use Rattle.code_epochs.specs.declared.parts.Book.{Book};
ghost use Rattle.code_epochs.specs.declared.parts.Item.{Item};
ghost use Rattle.code_epochs.specs.declared.state.VersionState.{VersionState};
ghost use Rattle.code_epochs.specs.Steps.{LoadsCell, LoadsWord, LoadsEpoch, Announces, GoesIdle, CanBegin, draft_begun, IsNext, word_stored, IsComplete, cell_swapped, AllLinked, hart_split, IsUnlinked, epoch_raised, IsPending, Marks, hart_looked, AllPassed, header_cleared, IsIdle, hart_joined, StoresHeader, StoresNext, SwapsCell, RaisesEpoch, LooksAtHart, ClearsHeader, no_version, marked_by, unlinked, with_status};
ghost use Rattle.code_epochs.specs.declared.state.Status.TheVariants.{Linked, Pending, GivenUp};

use crate::state::{CodeState, Status, VersionState};
use rj_num::NoMemory;
use rv_play::version::Version;
use std::alloc::Global;

/// The hart loads the cell of a symbol.
pub fn load_cell(state: &mut CodeState, hart: u32, symbol: u32) -> u64
    requires { symbol < length state.old.cells.items }
    ensures same { state.new ≡ state.old }
    ensures found { At state.old.cells.items symbol result }
    ensures sound { LoadsCell state.old state.new hart symbol result }
{
    let _ = hart;
    state.cells[symbol as usize]
}

/// The hart loads the code word at an index.
pub fn load_word(state: &mut CodeState, hart: u32, index: u32) -> u32
    requires { index < length state.old.code.items }
    ensures same { state.new ≡ state.old }
    ensures found { At state.old.code.items index result }
    ensures sound { LoadsWord state.old state.new hart index result }
{
    let _ = hart;
    state.code[index as usize]
}

/// The hart loads the epoch.
pub fn load_epoch(state: &mut CodeState, hart: u32) -> u64
    ensures same { state.new ≡ state.old }
    ensures found { result ≡ state.old.epoch }
    ensures sound { LoadsEpoch state.old state.new hart result }
{
    let _ = hart;
    state.epoch
}

/// The hart announces the epoch that it loaded.
pub fn announce(state: &mut CodeState, hart: u32, epoch: u64)
    requires { hart < length state.old.harts.items }
    ensures change { state.new.harts.items ≡ slice_set state.old.harts.items hart epoch }
    ensures frame { (state.new.cells ≡ state.old.cells) × (state.new.epoch ≡ state.old.epoch) × (state.new.code ≡ state.old.code) × (state.new.versions ≡ state.old.versions) }
    ensures sound { Announces state.old state.new hart epoch }
{
    state.harts[hart as usize] = epoch;
}

/// The hart goes idle, and its pass ends.
pub fn go_idle(state: &mut CodeState, hart: u32)
    requires { hart < length state.old.harts.items }
    ensures change { state.new.harts.items ≡ slice_set state.old.harts.items hart 0 }
    ensures frame { (state.new.cells ≡ state.old.cells) × (state.new.epoch ≡ state.old.epoch) × (state.new.code ≡ state.old.code) × (state.new.versions ≡ state.old.versions) }
    ensures sound { GoesIdle state.old state.new hart }
{
    state.harts[hart as usize] = 0;
}

/// Stores the header of the draft at the index before its base, or its word at another index of its range.
pub fn store_word(state: &mut CodeState, draft: &Version, base: u64, index: u32)
    requires base { 16777220 ≤ base }
    requires range { (start_of base ≤ index) × (index ≤ start_of base + length draft.now.words) × (index < length state.old.code.items) }
    requires room { length state.old.versions.items < 1048576 }
    ensures frame { (state.new.cells ≡ state.old.cells) × (state.new.epoch ≡ state.old.epoch) × (state.new.harts ≡ state.old.harts) × (state.new.versions ≡ state.old.versions) }
    ensures header_word { index ≡ start_of base → state.new.code.items ≡ slice_set state.old.code.items index (length state.old.versions.items + 1) }
    ensures next_word { start_of base < index → state.new.code.items ≡ slice_set state.old.code.items index (slice_index draft.now.words (index - start_of base - 1)) }
    ensures header { index ≡ start_of base → StoresHeader state.old state.new draft.now base }
    ensures next { start_of base < index → StoresNext state.old state.new draft.now base index (slice_index draft.now.words (index - start_of base - 1)) }
{
    let start = (base - 0x100_0004) / 4;
    let at = u64::from(index);
    let word = if at == start {
        state.versions.len() as u32 + 1
    } else {
        draft.words.as_slice()[(at - start - 1) as usize]
    };
    state.code[index as usize] = word;
}

// The version, which isn't linked any more if it is of this symbol.
fn unlink(version: VersionState, symbol: u32) -> VersionState
    ensures { result ≡ unlinked symbol version }
{
    let status = match version.status {
        Status::Linked if version.symbol == symbol => Status::Unlinked,
        status => status,
    };
    VersionState { status, ..version }
}

/// Each version of this symbol isn't linked any more.
pub fn unlink_all(versions: &mut [VersionState], symbol: u32)
    ensures { versions.new ≡ map (unlinked symbol) versions.old }
{
    for version in versions.iter_mut() {
        *version = unlink(*version, symbol);
    }
}

/// Makes room in the list of versions for one more.
pub fn reserve_version(_alloc: Global, state: &mut CodeState) -> Result<(), NoMemory>
    ensures room { OnOk result (vec_len state.new.versions < vec_capacity state.new.versions) }
    ensures frame { (state.new.cells ≡ state.old.cells) × (state.new.epoch ≡ state.old.epoch) × (state.new.harts ≡ state.old.harts) × (state.new.code ≡ state.old.code) × (state.new.versions.items ≡ state.old.versions.items) }
{
    state.versions.reserve(1).map_err(|_| NoMemory)
}

/// Swaps the cell of the draft's symbol, which links the draft. Gives the old cell.
pub fn swap_cell(state: &mut CodeState, draft: &Version, base: u64) -> u64
    requires symbol { draft.now.symbol < length state.old.cells.items }
    requires room { (vec_len state.old.versions < vec_capacity state.old.versions) × (length state.old.versions.items < 1048576) × (length draft.now.words < 4294967296) }
    ensures found { At state.old.cells.items draft.now.symbol result }
    ensures frame { (state.new.epoch ≡ state.old.epoch) × (state.new.harts ≡ state.old.harts) × (state.new.code ≡ state.old.code) }
    ensures cell { state.new.cells.items ≡ slice_set state.old.cells.items draft.now.symbol base }
    ensures versions { state.new.versions.items ≡ map (unlinked draft.now.symbol) state.old.versions.items ++ record { number = length state.old.versions.items; symbol = draft.now.symbol; level = draft.now.level; base = base; words = length draft.now.words; status = Linked } ∷ [] }
    ensures sound { SwapsCell state.old state.new draft.now base }
{
    let number = state.versions.len() as u32;
    let old = state.cells[draft.symbol as usize];
    state.cells[draft.symbol as usize] = base;
    unlink_all(state.versions.as_mut_slice(), draft.symbol);
    state.versions.push_reserved(VersionState {
        number,
        symbol: draft.symbol,
        level: draft.level,
        base,
        words: draft.words.len() as u32,
        status: Status::Linked,
    });
    old
}

/// Raises the epoch for an unlinked version, which is pending then. Gives the epoch before.
pub fn raise_epoch(state: &mut CodeState, version: u32) -> u64
    requires version { version < length state.old.versions.items }
    requires room { state.old.epoch + 1 < 18446744073709551616 }
    ensures found { result ≡ state.old.epoch }
    ensures frame { (state.new.cells ≡ state.old.cells) × (state.new.harts ≡ state.old.harts) × (state.new.code ≡ state.old.code) }
    ensures epoch { state.new.epoch ≡ state.old.epoch + 1 }
    ensures pending { (v : VersionState) → At state.old.versions.items version v → state.new.versions.items ≡ slice_set state.old.versions.items version (with_status v (Pending (state.old.epoch + 1) 0)) }
    ensures sound { RaisesEpoch state.old state.new version }
{
    let old = state.epoch;
    state.epoch = old + 1;
    state.versions[version as usize].status = Status::Pending {
        tag: old + 1,
        passed: 0,
    };
    old
}

/// The marks after a look that found this word.
pub fn marks(tag: u64, passed: u32, hart: u32, found: u64) -> u32
    requires { hart < 32 }
    ensures { result ≡ marked_by tag passed hart found }
{
    if found == 0 {
        passed | 1 << hart
    } else if found < tag {
        passed
    } else {
        passed | 1 << hart
    }
}

// A hart with this word has passed a version with this tag.
fn passes(tag: u64, found: u64) -> bool
    ensures { (result ≡ true) ↔ ((found ≡ 0) ⊎ (tag ≤ found)) }
{
    found == 0 || found >= tag
}

/// Looks at a hart's word for a pending version: true where the hart has passed it.
pub fn look(state: &mut CodeState, version: u32, hart: u32) -> bool
    requires version { version < length state.old.versions.items }
    requires hart { (hart < length state.old.harts.items) × (hart < 32) }
    ensures frame { (state.new.cells ≡ state.old.cells) × (state.new.epoch ≡ state.old.epoch) × (state.new.harts ≡ state.old.harts) × (state.new.code ≡ state.old.code) }
    ensures looked { (v : VersionState) (tag passed found : ℕ) → At state.old.versions.items version v → v.status ≡ Pending tag passed → At state.old.harts.items hart found → state.new.versions.items ≡ slice_set state.old.versions.items version (with_status v (Pending tag (marked_by tag passed hart found))) }
    ensures passed { (v : VersionState) (tag passed found : ℕ) → At state.old.versions.items version v → v.status ≡ Pending tag passed → At state.old.harts.items hart found → (result ≡ true) ↔ ((found ≡ 0) ⊎ (tag ≤ found)) }
    ensures sound { LooksAtHart state.old state.new version hart result }
{
    let found = state.harts[hart as usize];
    let at = version as usize;
    let Status::Pending { tag, passed } = state.versions[at].status else {
        return false;
    };
    let passed = marks(tag, passed, hart, found);
    state.versions[at].status = Status::Pending { tag, passed };
    passes(tag, found)
}

/// Clears the header of a pending version that all harts have passed, which gives it up.
pub fn clear_header(state: &mut CodeState, version: u32)
    requires version { version < length state.old.versions.items }
    requires header { start_of (slice_index_or state.old.versions.items version no_version).base < length state.old.code.items }
    requires base { 16777220 ≤ (slice_index_or state.old.versions.items version no_version).base }
    ensures frame { (state.new.cells ≡ state.old.cells) × (state.new.epoch ≡ state.old.epoch) × (state.new.harts ≡ state.old.harts) }
    ensures cleared { (v : VersionState) → At state.old.versions.items version v → (state.new.code.items ≡ slice_set state.old.code.items (start_of v.base) 0) × (state.new.versions.items ≡ slice_set state.old.versions.items version (with_status v GivenUp)) }
    ensures sound { ClearsHeader state.old state.new version }
{
    let place = (state.versions[version as usize].base - 0x100_0004) / 4;
    state.code[place as usize] = 0;
    state.versions[version as usize].status = Status::GivenUp;
}

// Two versions, one after the other, in a region of nine words with one hart, as worked out by hand. What a call asks is asserted.
use crate::{
    CodeState, Status, announce, clear_header, go_idle, load_cell, load_epoch, load_word, look,
    raise_epoch, reserve_version, store_word, swap_cell,
};
use rj_num::NoMemory;
use rv_play::version::Version;
use sqlite_items::Items;
use std::alloc::Global;
use std::process::Abort;

fn version(alloc: Global, words: &[u32]) -> Result<Version, NoMemory> {
    let words = Items::from_slice(alloc, words).map_err(|_| NoMemory)?;
    Ok(Version {
        symbol: 0,
        level: 1,
        words,
    })
}

fn nothing_yet(alloc: Global) -> Result<CodeState, NoMemory> {
    Ok(CodeState {
        cells: vec![in alloc; 0u64].map_err(|_| NoMemory)?,
        epoch: 1,
        harts: vec![in alloc; 0u64].map_err(|_| NoMemory)?,
        code: vec![in alloc; 0u32; 9].map_err(|_| NoMemory)?,
        versions: Vec::new(alloc),
    })
}

fn store(rt: &impl Abort, state: &mut CodeState, version: &Version, base: u64, start: u32) {
    for index in start..9 {
        assert!(rt; base >= 0x100_0004 && (base - 0x100_0004) / 4 == u64::from(start));
        assert!(rt; (index as usize) < state.code.len() && state.versions.len() < 1_048_576);
        if (index - start) as usize > version.words.len() {
            return;
        }
        store_word(state, version, base, index);
    }
}

fn publish(
    rt: &impl Abort,
    alloc: Global,
    state: &mut CodeState,
    version: &Version,
    base: u64,
) -> Result<u64, NoMemory> {
    reserve_version(alloc, state)?;
    assert!(rt; (version.symbol as usize) < state.cells.len());
    assert!(rt; state.versions.len() < 1_048_576 && version.words.len() < 1_048_576);
    Ok(swap_cell(state, version, base))
}

fn begin(rt: &impl Abort, state: &mut CodeState) -> (u64, u32) {
    let epoch = load_epoch(state, 0);
    assert!(rt; !state.harts.is_empty());
    announce(state, 0, epoch);
    assert!(rt; !state.cells.is_empty() && state.code.len() > 2);
    (load_cell(state, 0, 0), load_word(state, 0, 2))
}

fn end(rt: &impl Abort, state: &mut CodeState) {
    assert!(rt; !state.harts.is_empty());
    go_idle(state, 0);
}

fn raise(rt: &impl Abort, state: &mut CodeState) -> u64 {
    assert!(rt; !state.versions.is_empty() && state.epoch < 1000);
    raise_epoch(state, 0)
}

fn passed(rt: &impl Abort, state: &mut CodeState) -> bool {
    assert!(rt; !state.versions.is_empty() && !state.harts.is_empty());
    look(state, 0, 0)
}

fn clear(rt: &impl Abort, state: &mut CodeState) {
    assert!(rt; !state.versions.is_empty());
    let base = state.versions[0].base;
    assert!(rt; base >= 0x100_0004 && (base - 0x100_0004) / 4 < state.code.len() as u64);
    clear_header(state, 0);
}

#[test]
fn two_versions(rt: HostRuntime) -> Result<(), NoMemory> {
    let alloc = rt.alloc();
    let mut state = nothing_yet(alloc)?;
    let (first, second) = (version(alloc, &[7, 8, 9])?, version(alloc, &[4, 5])?);
    store(&rt, &mut state, &first, 0x100_0004, 0);
    assert!(rt; publish(&rt, alloc, &mut state, &first, 0x100_0004)? == 0);
    assert!(rt; begin(&rt, &mut state) == (0x100_0004, 8));
    store(&rt, &mut state, &second, 0x100_0014, 4);
    assert!(rt; state.code.as_slice() == [1, 7, 8, 9, 2, 4, 5, 0, 0].as_slice());
    assert!(rt; publish(&rt, alloc, &mut state, &second, 0x100_0014)? == 0x100_0004);
    assert!(rt; raise(&rt, &mut state) == 1 && state.epoch == 2);
    assert!(rt; !passed(&rt, &mut state));
    end(&rt, &mut state);
    assert!(rt; passed(&rt, &mut state));
    clear(&rt, &mut state);
    assert!(rt; state.code.as_slice() == [0, 7, 8, 9, 2, 4, 5, 0, 0].as_slice());
    assert!(rt;
        matches!(state.versions.as_slice(), [old, _] if matches!(old.status, Status::GivenUp))
    );
    Ok(())
}

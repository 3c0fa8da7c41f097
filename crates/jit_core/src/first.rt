//! A core's first versions and harts.
ghost use Rattle.std.specs.Prelude.{◌≡◌, ◌↔◌, ◌<◌, ◌≤◌, ◌+◌, ◌*◌, [], ℕ, List, length, min, replicate, None, IfOk, IfErr, OnOk, vec_len, vec_capacity};
ghost use Rattle.ir_meaning.specs.Meaning.{meaning};
ghost use Rattle.rv_play.specs.declared.version.Version.{Version};
ghost use Rattle.hart.specs.Calls.{HasRoomFor};
ghost use Rattle.code_epochs.specs.Sound.{At};
ghost use Rattle.code_space.specs.Space.{IsFree, Space};
ghost use Rattle.jit_core.specs.Cores.{Stands, IsKept};
ghost use Rattle.jit_core.specs.Laying.{CanLay};
ghost use Rattle.jit_core.specs.Seated.{IsSameSize};
ghost use Rattle.jit_core.specs.Seats.{AreCalls};
ghost use Rattle.jit_core.specs.First.{words_of, AreQuick, laid, Publishes, Opens, IsNewSeat, AreNewSeats, IsOpened, IsOpenCause, IsBehind};

use crate::laying::Laying;
use crate::seat::{Seat, Stage, Work};
use crate::state_machine::Core;
use code_epochs::{CodeState, OpenRefusal, reserve_version};
use code_space::CodeSpace;
use hart::{Hart, Image};
use ir_meaning::calls::ListedCall;
use ir_verify::checked::Checked;
use rj_num::NoMemory;
use rv_play::version::Version;
use std::alloc::Global;

// The code words that versions need, with their headers.
fn words_needed(versions: &[Version]) -> u64
    ensures { result ≡ min (words_of versions.now) 18446744073709551615 }
{
    let mut needed: u64 = 0;
    for version in versions {
        let words = version.words.len() as u64;
        needed = needed.saturating_add(words).saturating_add(1);
    }
    needed
}

// So many words that are 0.
fn zeros(alloc: Global, count: usize) -> Result<Vec<u64>, NoMemory>
    ensures { IfOk result (λ v. v.items ≡ replicate count 0) }
{
    vec![in alloc; 0u64; count].map_err(|_| NoMemory)
}

// A state without versions: cells and words are 0, and the epoch is 1.
fn nothing_yet(
    alloc: Global,
    functions: usize,
    harts: u32,
    code_words: u32,
) -> Result<CodeState, NoMemory>
    ensures cells { IfOk result (λ s. s.cells.items ≡ replicate functions 0) }
    ensures epoch { IfOk result (λ s. s.epoch ≡ 1) }
    ensures harts { IfOk result (λ s. s.harts.items ≡ replicate harts 0) }
    ensures code { IfOk result (λ s. s.code.items ≡ replicate code_words 0) }
    ensures versions { IfOk result (λ s. s.versions.items ≡ []) }
{
    let cells = zeros(alloc, functions)?;
    let words = zeros(alloc, harts as usize)?;
    let code = vec![in alloc; 0u32; code_words as usize].map_err(|_| NoMemory)?;
    Ok(CodeState {
        cells,
        epoch: 1,
        harts: words,
        code,
        versions: Vec::new(alloc),
    })
}

// Stores all of a version, and links it.
fn store_all(state: &mut CodeState, mut laying: Laying, place: u32)
    requires fits { CanLay laying state.old }
    requires first { laying.stored ≡ 0 }
    requires base { laying.base ≡ 16777220 + 4 * place }
    ensures publishes { Publishes state.old state.new laying.version place }
    ensures count { length state.new.versions.items ≡ length state.old.versions.items + 1 }
    ensures size { IsSameSize state.old state.new }
{
    while !laying.is_complete() {
        laying.store_next(state);
    }
    laying.link(state);
}

// Publishes a version whose header is to stand at a place. Gives the place behind it.
fn publish(
    alloc: Global,
    state: &mut CodeState,
    version: Version,
    place: u32,
) -> Result<u32, NoMemory>
    requires range { place + length version.words < length state.old.code.items }
    requires code { length state.old.code.items ≤ 4194304 }
    requires symbol { version.symbol < length state.old.cells.items }
    requires count { length state.old.versions.items < 1048576 }
    ensures publishes { OnOk result (Publishes state.old state.new version place) }
    ensures next { IfOk result (λ next. next ≡ place + (length version.words + 1)) }
    ensures count { OnOk result (length state.new.versions.items ≡ length state.old.versions.items + 1) }
    ensures size { IsSameSize state.old state.new }
{
    reserve_version(alloc, state)?;
    let next = place + version.words.len() as u32 + 1;
    let base = 0x100_0004 + 4 * u64::from(place);
    let laying = Laying {
        version,
        base,
        stored: 0,
    };
    store_all(state, laying, place);
    Ok(next)
}

// Publishes the first versions one after another. Gives the first code word behind them.
fn publish_all(
    alloc: Global,
    state: &mut CodeState,
    versions: Vec<Version>,
) -> Result<u32, NoMemory>
    requires room { words_of versions.items ≤ length state.old.code.items }
    requires code { length state.old.code.items ≤ 4194304 }
    requires symbols { (k : ℕ) (v : Version) → At versions.items k v → v.symbol < length state.old.cells.items }
    requires none { state.old.versions.items ≡ [] }
    requires few { length versions.items ≤ 1024 }
    ensures opens { OnOk result (Opens state.old state.new versions.items versions.items) }
    ensures next { IfOk result (λ next. next ≡ words_of versions.items) }
    ensures count { OnOk result (length state.new.versions.items ≡ length versions.items) }
    ensures size { IsSameSize state.old state.new }
{
    let mut next = 0;
    for version in versions {
        next = publish(alloc, state, version, next)?;
    }
    Ok(next)
}

// How many functions a module has.
fn function_count(all: &Checked) -> usize
    ensures value { result ≡ length all.now.module_.functions }
    ensures few { result ≤ 1024 }
{
    all.module().functions.len()
}

// A state with these versions.
fn opened(
    alloc: Global,
    all: &Checked,
    versions: Vec<Version>,
    harts: u32,
    code_words: u32,
) -> Result<CodeState, NoMemory>
    requires harts { harts ≤ 16 }
    requires code { code_words ≤ 4194304 }
    requires room { words_of versions.items ≤ code_words }
    requires quick { AreQuick (meaning all.now) versions.items }
    ensures { IfOk result (IsOpened (meaning all.now) harts code_words versions.items) }
{
    let mut state = nothing_yet(alloc, function_count(all), harts, code_words)?;
    publish_all(alloc, &mut state, versions)?;
    Ok(state)
}

// A hart that makes no call yet, with room for its answers.
fn new_seat(alloc: Global, all: &Checked, harts: u32, calls: usize) -> Result<Seat, NoMemory>
    requires harts { 1 ≤ harts }
    requires calls { calls ≤ 65536 }
    ensures { IfOk result (IsNewSeat (meaning all.now) harts calls) }
{
    let mut hart = Hart::new(alloc, all.room())?;
    hart.widths(alloc, all)?;
    let answers = Vec::with_capacity(alloc, calls / harts as usize + 1).map_err(|_| NoMemory)?;
    Ok(Seat {
        hart,
        stage: Stage::Idle,
        answers,
    })
}

// So many harts that make no call yet.
fn new_seats(alloc: Global, all: &Checked, harts: u32, calls: usize) -> Result<Vec<Seat>, NoMemory>
    requires harts { 1 ≤ harts }
    requires calls { calls ≤ 65536 }
    ensures count { IfOk result (λ v. length v.items ≡ harts) }
    ensures seats { IfOk result (λ v. AreNewSeats (meaning all.now) harts calls v.items) }
{
    let mut seats = Vec::with_capacity(alloc, harts as usize).map_err(|_| NoMemory)?;
    for _ in 0..harts {
        seats.push_reserved(new_seat(alloc, all, harts, calls)?);
    }
    Ok(seats)
}

// The space without its first words, which are taken.
fn behind(mut space: CodeSpace, words: u32) -> CodeSpace
    requires free { (w : ℕ) → IsFree space.ranges w ↔ (w < space.size) }
    requires fits { words ≤ space.size }
    ensures behind { IsBehind space.size words space.spare result }
{
    if words == 0 {
        return space;
    }
    let _ = space.take(words);
    space
}

// A space of so many words, of which the first are taken, with room for so many gives.
fn space_behind(alloc: Global, words: u32, taken: u32, gives: u32) -> Result<CodeSpace, NoMemory>
    requires { taken ≤ words }
    ensures { IfOk result (IsBehind words taken gives) }
{
    let mut space = CodeSpace::new(alloc, words)?;
    space.reserve(alloc, gives)?;
    Ok(behind(space, taken))
}

impl<'a> Core<'a> {
    /// A core of a module with these first versions, one of each symbol in order, stored one after another in so many code words.
    /// Of so many harts, each makes the calls whose places in the list leave its number as remainder. No event has happened yet.
    pub fn new(
        alloc: Global,
        all: &'a Checked,
        image: &'a Image,
        calls: &'a [ListedCall],
        versions: Vec<Version>,
        harts: u32,
        code_words: u32,
    ) -> Result<Core<'a>, OpenRefusal>
        requires harts { (1 ≤ harts) × (harts ≤ 16) }
        requires code { code_words ≤ 4194304 }
        requires versions { AreQuick (meaning all.now) versions.items }
        requires image { HasRoomFor all.now.room image.now }
        requires calls { AreCalls (length all.now.module_.functions) calls.now × (length calls.now ≤ 65536) }
        ensures stands { IfOk result (λ c. Stands c []) }
        ensures kept { IfOk result (λ c. IsKept c) }
        ensures work { IfOk result (λ c. (c.all ≡ all.entry) × (c.work.image ≡ image.entry) × (c.work.calls ≡ calls.entry) × (c.work.harts ≡ harts)) }
        ensures versions { IfOk result (λ c. (c.state.versions.items ≡ laid versions.items 0 0) × (c.publishing ≡ None) × (c.looked ≡ None) × IsBehind code_words (words_of versions.items) (length versions.items) c.space × (length c.state.code.items ≡ code_words)) }
        ensures seats { IfOk result (λ c. (length c.seats.items ≡ harts) × AreNewSeats (meaning all.now) harts (length calls.now) c.seats.items) }
        ensures fits { OnOk result (words_of versions.items ≤ code_words) }
        ensures cause { IfErr result (λ e. IsOpenCause code_words versions.items e) }
    {
        let needed = words_needed(versions.as_slice());
        if needed > u64::from(code_words) {
            return Err(OpenRefusal::NoRoom {
                needed,
                room: code_words,
            });
        }
        let gives = versions.len() as u32;
        let Ok(space) = space_behind(alloc, code_words, needed as u32, gives) else {
            return Err(OpenRefusal::NoMemory);
        };
        let Ok(state) = opened(alloc, all, versions, harts, code_words) else {
            return Err(OpenRefusal::NoMemory);
        };
        let Ok(seats) = new_seats(alloc, all, harts, calls.len()) else {
            return Err(OpenRefusal::NoMemory);
        };
        let work = Work {
            image,
            calls,
            harts,
        };
        Ok(Core {
            all,
            work,
            state,
            seats,
            space,
            publishing: None,
            looked: None,
        })
    }
}

//! A hart of the core, and its steps on shared words.
ghost use Rattle.std.specs.Prelude.{◌≡◌, ℕ, true, false, ◌+◌, ◌*◌, ◌<◌, ◌≤◌, ◌++◌, List, length, vec_len, vec_capacity};
ghost use Rattle.ir_meaning.specs.Plays.{Meaning};
ghost use Rattle.rv_play.specs.Ending.{Item};
ghost use Rattle.hart.specs.Standing.{IsGiven, IsSameCall, item_of, turns_left};
ghost use Rattle.hart.specs.Calls.{Origin, Stands, HasRoomFor};
ghost use Rattle.jit_core.specs.Seats.{WaitsFor, GoesOn, AreCalls, place_of};
ghost use Rattle.jit_core.specs.Left.{seat_left};
ghost use Rattle.jit_core.specs.Seated.{Steps, IsSameSize, IsReady, HasNoCall};

use code_epochs::{CodeState, announce, go_idle, load_cell, load_epoch, load_word};
use hart::{Given, Hart, Image, Wanted};
use ir_meaning::calls::{Ended, ListedCall};

/// What a hart's next step on a shared word is.
#[derive(Clone, Copy)]
pub enum Stage {
    /// To load the epoch, where it has another call.
    Idle,
    /// To announce the epoch that it loaded.
    Loaded(u64),
    /// To load the cell of a symbol.
    Cell(u32),
    /// To load the code word at an address.
    Fetch(u64),
    /// To end its pass.
    End,
}

/// A hart, what its next step is, and the answers of its calls that have ended.
#[derive(Drop)]
pub struct Seat {
    pub(crate) hart: Hart,
    pub(crate) stage: Stage,
    pub(crate) answers: Vec<Ended>,
}

// Goes on with what was given, past what is counted, up to the next step on a shared word.
pub(crate) fn go_on(hart: &mut Hart, given: Given) -> Stage
    requires given { IsGiven hart.old.phase given }
    requires goes { GoesOn hart.old.phase }
    ensures waits { WaitsFor hart.new result }
    ensures stands { (m : Meaning) (o : Origin) (pass : List Item) (counted : List ℕ) → Stands m o hart.old pass counted → (all : List ℕ) × Stands m o hart.new (pass ++ item_of hart.old hart.old.phase given) all }
    ensures same { IsSameCall hart.old hart.new }
    ensures fewer { turns_left hart.new hart.new.phase < turns_left hart.old hart.old.phase }
{
    let mut wanted = hart.turn(given);
    loop {
        match wanted {
            Wanted::Cell(symbol) => return Stage::Cell(symbol),
            Wanted::Fetch(address) => return Stage::Fetch(address),
            Wanted::End => return Stage::End,
            _ => wanted = hart.turn(Given::Nothing),
        }
    }
}

/// The image from which each call starts, and the list of calls. Of so many harts, each makes the calls whose places leave its
/// number as remainder.
#[derive(Clone, Copy)]
pub struct Work<'a> {
    pub image: &'a Image,
    pub calls: &'a [ListedCall],
    pub harts: u32,
}

impl Seat {
    /// The hart's next step on a shared word. False where its calls have ended.
    pub fn step(&mut self, state: &mut CodeState, number: u32, work: Work<'_>) -> bool
        requires { IsReady self.old state.old work number }
        ensures steps { result ≡ true → Steps state.old state.new self.old self.new work.entry number }
        ensures over { result ≡ false → (self.new ≡ self.old) × (state.new ≡ state.old) × HasNoCall self.old work.entry number }
        ensures fewer { result ≡ true → seat_left work.entry self.new < seat_left work.entry self.old }
        ensures going { result ≡ true → ¬ HasNoCall self.old work.entry number }
        ensures ready { IsReady self.new state.new work.entry number }
        ensures size { IsSameSize state.old state.new }
        ensures versions { state.new.versions ≡ state.old.versions }
    {
        match self.stage {
            Stage::Idle => {
                let place = number as usize + work.harts as usize * self.answers.len();
                if place >= work.calls.len() {
                    return false;
                }
                self.load(state, number, work);
                true
            }
            Stage::Loaded(epoch) => {
                self.begin(state, number, epoch, work);
                true
            }
            Stage::Cell(symbol) => {
                self.take_base(state, number, symbol, work);
                true
            }
            Stage::Fetch(address) => {
                self.take_word(state, number, address, work);
                true
            }
            Stage::End => {
                self.end(state, number, work);
                true
            }
        }
    }

    // Loads the epoch, before the next call.
    fn load(&mut self, state: &mut CodeState, number: u32, work: Work<'_>)
        requires stage { self.old.stage ≡ Stage.Idle }
        requires more { place_of work.harts number (length self.old.answers.items) < length work.calls.now }
        requires ready { IsReady self.old state.old work number }
        ensures steps { Steps state.old state.new self.old self.new work.entry number }
        ensures fewer { seat_left work.entry self.new < seat_left work.entry self.old }
        ensures ready { IsReady self.new state.new work.entry number }
        ensures size { IsSameSize state.old state.new }
        ensures versions { state.new.versions ≡ state.old.versions }
    {
        let _ = work;
        self.stage = Stage::Loaded(load_epoch(state, number));
    }

    // Takes the base that a symbol's cell holds.
    fn take_base(&mut self, state: &mut CodeState, number: u32, symbol: u32, work: Work<'_>)
        requires stage { self.old.stage ≡ Stage.Cell symbol }
        requires waits { WaitsFor self.old.hart (Stage.Cell symbol) }
        requires cells { self.old.hart.functions ≡ length state.old.cells.items }
        requires ready { IsReady self.old state.old work number }
        ensures steps { Steps state.old state.new self.old self.new work.entry number }
        ensures fewer { seat_left work.entry self.new < seat_left work.entry self.old }
        ensures ready { IsReady self.new state.new work.entry number }
        ensures size { IsSameSize state.old state.new }
        ensures versions { state.new.versions ≡ state.old.versions }
    {
        let _ = work;
        let base = load_cell(state, number, symbol);
        self.stage = go_on(&mut self.hart, Given::Cell(base));
    }

    // Takes the code word at an address.
    fn take_word(&mut self, state: &mut CodeState, number: u32, address: u64, work: Work<'_>)
        requires stage { self.old.stage ≡ Stage.Fetch address }
        requires waits { WaitsFor self.old.hart (Stage.Fetch address) }
        requires code { self.old.hart.code_words ≡ length state.old.code.items }
        requires ready { IsReady self.old state.old work number }
        ensures steps { Steps state.old state.new self.old self.new work.entry number }
        ensures fewer { seat_left work.entry self.new < seat_left work.entry self.old }
        ensures ready { IsReady self.new state.new work.entry number }
        ensures size { IsSameSize state.old state.new }
        ensures versions { state.new.versions ≡ state.old.versions }
    {
        let _ = work;
        let place = ((address - 0x100_0000) / 4) as u32;
        let word = load_word(state, number, place);
        self.stage = go_on(&mut self.hart, Given::Word(word));
    }

    // Ends the pass of the call, which has its answer then.
    fn end(&mut self, state: &mut CodeState, number: u32, work: Work<'_>)
        requires stage { self.old.stage ≡ Stage.End }
        requires waits { WaitsFor self.old.hart Stage.End }
        requires number { number < length state.old.harts.items }
        requires room { vec_len self.old.answers < vec_capacity self.old.answers }
        requires ready { IsReady self.old state.old work number }
        ensures steps { Steps state.old state.new self.old self.new work.entry number }
        ensures fewer { seat_left work.entry self.new < seat_left work.entry self.old }
        ensures ready { IsReady self.new state.new work.entry number }
        ensures size { IsSameSize state.old state.new }
        ensures versions { state.new.versions ≡ state.old.versions }
    {
        let _ = work;
        go_idle(state, number);
        match self.hart.turn(Given::Nothing) {
            Wanted::Done(ended) => {
                self.answers.push_reserved(ended);
                self.stage = Stage::Idle;
            }
            _ => unreachable!(),
        }
    }

    // Announces the epoch that was loaded, and starts the next call.
    fn begin(&mut self, state: &mut CodeState, number: u32, epoch: u64, work: Work<'_>)
        requires stage { self.old.stage ≡ Stage.Loaded epoch }
        requires number { number < length state.old.harts.items }
        requires image { HasRoomFor (vec_len self.old.hart.bytes) work.image.now }
        requires calls { AreCalls self.old.hart.functions work.calls.now }
        requires more { place_of work.harts number (length self.old.answers.items) < length work.calls.now }
        requires few { length work.calls.now ≤ 65536 }
        requires code { length state.old.code.items ≤ 4194304 }
        requires ready { IsReady self.old state.old work number }
        ensures steps { Steps state.old state.new self.old self.new work.entry number }
        ensures fewer { seat_left work.entry self.new < seat_left work.entry self.old }
        ensures ready { IsReady self.new state.new work.entry number }
        ensures size { IsSameSize state.old state.new }
        ensures versions { state.new.versions ≡ state.old.versions }
    {
        announce(state, number, epoch);
        let place = number as usize + work.harts as usize * self.answers.len();
        let code_words = state.code.len() as u32;
        self.hart.start(work.image, &work.calls[place], code_words);
        let _ = self.hart.turn(Given::Nothing);
        self.stage = go_on(&mut self.hart, Given::Nothing);
    }
}

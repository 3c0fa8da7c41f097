// A call's turns: the hart goes on with what it was given, up to where it wants something again.
ghost use Rattle.std.specs.Prelude.{◌≡◌, ◌≢◌, ◌≤◌, ◌<◌, ◌+◌, ◌*◌, ◌++◌, [], ◌∷◌, ℕ, length, List, Option, MatchOption, true};
ghost use Rattle.ir_meaning.specs.Plays.{Meaning};
ghost use Rattle.rv_core.specs.Step.{view, read};
ghost use Rattle.rv_core.specs.declared.reg.Reg.TheVariants.{A0};
ghost use Rattle.rv_play.specs.Ending.{Item, Saw, Held, answer, goes_to};
ghost use Rattle.rv_encode.specs.Reading.{instr_of};
ghost use Rattle.hart.specs.declared.hart.Did.{Did};
ghost use Rattle.hart.specs.Standing.{IsFor, IsSameCall, IsAllowed, IsAsked, Continues, Waits, Turns, machine_of, run_of, next_of, goes_on, rest_of, wanted_by, with_counted, at_of, turns_left, HasGone, HasTurned, WantsSome, IsGiven, IsNext, Turned, item_of};
ghost use Rattle.hart.specs.Calls.{Origin, Stands};
ghost use Rattle.hart.specs.Steps.{standing_at};

use crate::hart::{Did, Given, Hart, Phase, Wanted};
use crate::map::{At, CODE, EXIT, STUBS, stub_word};
use crate::words::instr_at;
use ir_meaning::calls::Ended;
use rv_core::reg::Reg;

impl Hart {
    /// Goes on with what was wanted last, up to where the call wants something again.
    pub fn turn(&mut self, given: Given) -> Wanted
        requires { IsGiven self.old.phase given }
        ensures stands { (m : Meaning) (o : Origin) (pass : List Item) (counted : List ℕ) → Stands m o self.old pass counted → Stands m o self.new (pass ++ item_of self.old self.old.phase given) (with_counted self.new.phase counted) }
        ensures wanted { wanted_by self.new self.new.phase result }
        ensures next { IsNext self.old.phase self.new result }
        ensures same { IsSameCall self.old self.new }
        ensures fewer { turns_left self.new self.new.phase < turns_left self.old self.old.phase }
    {
        self.advance(given)
    }

    #[inline]
    fn advance(&mut self, given: Given) -> Wanted
        requires { IsGiven self.old.phase given }
        ensures { Turned self.old self.new given result }
    {
        match given {
            Given::Word(word) => self.take_word(word),
            Given::Cell(base) => match self.phase {
                Phase::Cell(rd, symbol) => self.take_base(rd, symbol, base),
                _ => unreachable!(),
            },
            Given::Nothing => self.take_nothing(),
        }
    }

    // Nothing was wanted: the call begins, goes on or is over.
    #[inline(never)]
    fn take_nothing(&mut self) -> Wanted
        requires { IsGiven self.old.phase Given.Nothing }
        ensures { Turned self.old self.new Given.Nothing result }
    {
        match self.phase {
            Phase::Start => {
                self.phase = Phase::Begin;
                Wanted::Begin
            }
            Phase::End(ended) => {
                self.phase = Phase::Done(ended);
                Wanted::Done(ended)
            }
            _ => self.go_on(),
        }
    }

    // Where the instruction at the program counter stands.
    #[inline(always)]
    fn standing(&self) -> At
        ensures at { result ≡ at_of self.now }
    {
        let pc = self.regs.pc;
        if pc == EXIT {
            At::Exit
        } else if self.left == 0 {
            At::Spent
        } else if STUBS <= pc && pc < STUBS + 16 * self.functions as u64 && pc % 4 == 0 {
            At::Stub(((pc - STUBS) / 16) as u32, (pc - STUBS) % 16 / 4)
        } else if CODE <= pc && pc < CODE + 4 * self.code_words as u64 && pc % 4 == 0 {
            At::Code
        } else {
            At::Nowhere
        }
    }

    // The answer at the exit.
    #[inline(never)]
    fn answer(&self) -> Ended
        ensures { result ≡ answer self.now.width (view self.now.regs) }
    {
        let value = self.regs.read(Reg::A0);
        match self.width {
            None => Ended::Void,
            Some(width) => if width < 64 {
                Ended::Value((value % (1 << width)) as u128)
            } else {
                Ended::Value(value as u128)
            },
        }
    }

    // Waits for what an instruction has led to.
    #[inline(never)]
    fn wait(&mut self, did: Did) -> Wanted
        requires asks { did ≢ Did.On }
        requires allowed { IsAllowed self.old did }
        ensures goes { (m : Meaning) (counted : List ℕ) (pass : List Item) → goes_to (goes_on m self.old) (next_of self.old counted pass did) ≡ rest_of m self.new self.new.phase (with_counted self.new.phase counted) pass }
        ensures wanted { wanted_by self.new self.new.phase result }
        ensures asked { IsAsked self.new result }
        ensures keeps { IsSameCall self.old self.new }
        ensures fewer { turns_left self.new self.new.phase ≤ 2 * self.old.left + 2 }
    {
        match did {
            Did::On => unreachable!(),
            Did::Cell(rd, symbol) => {
                self.phase = Phase::Cell(rd, symbol);
                Wanted::Cell(symbol)
            }
            Did::Count(symbol) => {
                self.phase = Phase::Count(symbol);
                Wanted::Count(symbol)
            }
            Did::Overflow => self.end(Ended::Stack),
            Did::Fault => self.end(Ended::Fault { pc: self.regs.pc }),
        }
    }

    // Waits for the end of the call.
    #[inline]
    fn end(&mut self, ended: Ended) -> Wanted
        ensures phase { self.new.phase ≡ Phase.End ended }
        ensures machine { machine_of self.new ≡ machine_of self.old }
        ensures wanted { result ≡ Wanted.End }
        ensures keeps { IsSameCall self.old self.new }
    {
        self.phase = Phase::End(ended);
        Wanted::End
    }

    // Begins the instruction at the program counter, if one is run. None where it was one of a stub's, and the call goes on
    // behind it.
    #[inline(always)]
    fn begin_instr(&mut self) -> Option<Wanted>
        ensures { MatchOption result (Continues self.old self.new) (Waits self.old self.new) }
    {
        match self.standing() {
            At::Exit => Some(self.end(self.answer())),
            At::Spent => Some(self.end(Ended::Fuel { spent: self.fuel })),
            At::Stub(symbol, place) => self.run_stub(symbol, place),
            At::Code => {
                self.left -= 1;
                self.phase = Phase::Fetch;
                Some(Wanted::Fetch(self.regs.pc))
            }
            At::Nowhere => Some(self.end(Ended::Fault { pc: self.regs.pc })),
        }
    }

    // Runs one instruction of a stub.
    #[inline(never)]
    fn run_stub(&mut self, symbol: u32, place: u64) -> Option<Wanted>
        requires { at_of self.old ≡ At.Stub symbol place }
        ensures { MatchOption result (Continues self.old self.new) (Waits self.old self.new) }
    {
        self.left -= 1;
        match self.execute(stub_word(symbol, place)) {
            Did::On => None,
            did => Some(self.wait(did)),
        }
    }

    // Goes on to where the hart wants something.
    #[inline(never)]
    fn go_on(&mut self) -> Wanted
        ensures { Waits self.old self.new result }
    {
        loop {
            if let Some(wanted) = self.begin_instr() {
                return wanted;
            }
        }
    }

    // Goes on to where the hart wants something. It waits for a word, and answers whether it wants the next one.
    #[inline(always)]
    fn go_to_word(&mut self) -> bool
        requires { self.old.phase ≡ Phase.Fetch }
        ensures waits { HasGone self.old self.new }
        ensures word { result ≡ true → self.new.phase ≡ Phase.Fetch }
    {
        match self.standing() {
            At::Code => {
                self.left -= 1;
                true
            }
            _ => {
                let _ = self.go_on();
                false
            }
        }
    }

    // The word at the program counter has been given. Answers whether the next one is wanted.
    #[inline(always)]
    pub(crate) fn take_next(&mut self, word: u32) -> bool
        requires { self.old.phase ≡ Phase.Fetch }
        ensures turned { HasTurned self.old self.new (Saw self.old.regs.pc word ∷ []) }
        ensures word { result ≡ true → self.new.phase ≡ Phase.Fetch }
    {
        match instr_at(word) {
            Some(instr) => match self.execute(instr) {
                Did::On => self.go_to_word(),
                did => {
                    let _ = self.wait(did);
                    false
                }
            },
            None => {
                let _ = self.take_unknown(word);
                false
            }
        }
    }

    // The same for a hart that stands at an address, with so many instructions left.
    #[inline(never)]
    pub(crate) fn take_next_at(&mut self, pc: u64, left: u64, word: u32) -> bool
        requires { self.old.phase ≡ Phase.Fetch }
        ensures turned { HasTurned (standing_at pc left self.old) self.new (Saw pc word ∷ []) }
        ensures word { result ≡ true → self.new.phase ≡ Phase.Fetch }
    {
        self.regs.pc = pc;
        self.left = left;
        self.take_next(word)
    }

    // Goes on from an address, with so many instructions left, to where the hart wants something.
    #[inline(never)]
    pub(crate) fn go_on_at(&mut self, pc: u64, left: u64) -> Wanted
        ensures { Waits (standing_at pc left self.old) self.new result }
    {
        self.regs.pc = pc;
        self.left = left;
        self.go_on()
    }

    // The word at the program counter has been given, and spells nothing.
    fn take_unknown(&mut self, word: u32) -> Wanted
        requires phase { self.old.phase ≡ Phase.Fetch }
        requires unknown { instr_of word ≡ Option.None }
        ensures { Turns self.old self.new (Saw self.old.regs.pc word ∷ []) result }
    {
        self.end(Ended::Fault { pc: self.regs.pc })
    }

    // The word at the program counter has been given.
    fn take_word(&mut self, word: u32) -> Wanted
        requires { self.old.phase ≡ Phase.Fetch }
        ensures { Turns self.old self.new (Saw self.old.regs.pc word ∷ []) result }
    {
        let _ = self.take_next(word);
        self.wanted()
    }

    // What the hart waits for.
    pub(crate) fn wanted(&self) -> Wanted
        requires { WantsSome self.now }
        ensures { wanted_by self.now self.now.phase result }
    {
        match self.phase {
            Phase::Begin => Wanted::Begin,
            Phase::Fetch => Wanted::Fetch(self.regs.pc),
            Phase::Cell(_, symbol) => Wanted::Cell(symbol),
            Phase::Count(symbol) => Wanted::Count(symbol),
            Phase::End(_) => Wanted::End,
            Phase::Done(ended) => Wanted::Done(ended),
            Phase::Idle => unreachable!(),
            Phase::Start => unreachable!(),
        }
    }

    // The base that a symbol's cell holds has been given, for a register.
    #[inline(never)]
    fn take_base(&mut self, rd: Reg, symbol: u32, base: u64) -> Wanted
        requires { self.old.phase ≡ Phase.Cell rd symbol }
        ensures { Turns self.old self.new (Held symbol base ∷ []) result }
    {
        self.regs.write(rd, base);
        self.go_on()
    }
}

// A call over a fabric.
ghost use Rattle.std.specs.Prelude.{◌≡◌, ◌≢◌, ◌<◌, ◌≤◌, ◌+◌, ◌*◌, ℕ, List, MatchOption, vec_len, true, false};
ghost use Rattle.rv_core.specs.Step.{view, write};
ghost use Rattle.rv_play.specs.Good.{IsBytes};
ghost use Rattle.rv_play.specs.Machine.{code_base};
ghost use Rattle.hart.specs.declared.hart.Hart.{Hart};
ghost use Rattle.hart.specs.Standing.{IsSameCall, IsAsked, IsCodeAddress, wanted_by, turns_left};
ghost use Rattle.hart.specs.Steps.{HasLeft, HasEntered};
ghost use Rattle.hart.specs.Calls.{HasRoomFor, IsCall, Origin, Both, Asked, Answers, IsQuestion, HasEnded, Knows, origin_of};

use crate::fabric::Fabric;
use crate::hart::{Given, Hart, Image, Phase, Wanted};
use crate::map::{CODE, STUBS, is_code, is_stub};
use ir_meaning::calls::{Ended, ListedCall};
use rv_core::reg::Reg;
use rv_core::step::add_offset;

// Asks a fabric what a hart wants.
#[inline(always)]
fn ask<F: Fabric>(fabric: &mut F, wanted: Wanted) -> Given
    requires begun { F.is_begun fabric.old ≡ true }
    requires question { IsQuestion (F.symbol_count fabric.old) (F.code_word_count fabric.old) wanted }
    ensures begun { F.is_begun fabric.new ≡ true }
    ensures symbols { F.symbol_count fabric.new ≡ F.symbol_count fabric.old }
    ensures code_words { F.code_word_count fabric.new ≡ F.code_word_count fabric.old }
    ensures asked { Asked F.stands fabric.old fabric.new wanted result }
{
    match wanted {
        Wanted::Fetch(address) => Given::Word(fabric.fetch(address)),
        Wanted::Cell(symbol) => Given::Cell(fabric.cell(symbol)),
        Wanted::Count(symbol) => {
            fabric.count(symbol);
            Given::Nothing
        }
        _ => unreachable!(),
    }
}

impl Hart {
    /// Runs a call over a fabric, from its image. Fuel comes only once 256 instructions a turn were run.
    pub fn run_call<F: Fabric>(&mut self, fabric: &mut F, image: &Image, call: &ListedCall) -> Ended
        requires image { HasRoomFor (vec_len self.old.bytes) image.now }
        requires call { IsCall self.old.functions call.now }
        requires idle { F.is_begun fabric.old ≡ false }
        requires symbols { F.symbol_count fabric.old ≡ self.old.functions }
        requires code { F.code_word_count fabric.old ≤ 4194304 }
        ensures answers { Answers F.stands fabric.old fabric.new self.old (origin_of self.old image.now call.now (F.code_word_count fabric.old)) result self.new }
        ensures idle { F.is_begun fabric.new ≡ false }
        ensures symbols { F.symbol_count fabric.new ≡ F.symbol_count fabric.old }
        ensures code_words { F.code_word_count fabric.new ≡ F.code_word_count fabric.old }
        ensures known { Knows self.old self.new }
        ensures in_range { IsBytes (origin_of self.old image.now call.now (F.code_word_count fabric.old)).bytes × IsBytes (origin_of self.old image.now call.now (F.code_word_count fabric.old)).control }
    {
        self.start(image, call, fabric.code_words());
        let _ = self.turn(Given::Nothing);
        fabric.begin();
        self.serve_call(fabric);
        fabric.end();
        match self.turn(Given::Nothing) {
            Wanted::Done(ended) => ended,
            _ => unreachable!(),
        }
    }

    // Runs a call that has begun up to its end.
    fn serve_call<F: Fabric>(&mut self, fabric: &mut F)
        requires phase { self.old.phase ≡ Phase.Begin }
        requires begun { F.is_begun fabric.old ≡ true }
        requires symbols { F.symbol_count fabric.old ≡ self.old.functions }
        requires code { F.code_word_count fabric.old ≡ self.old.code_words }
        ensures ended { HasEnded self.new.phase }
        ensures both { (since : F) (known : Hart) (o : Origin) → Both F.stands since fabric.old known o self.old → Both F.stands since fabric.new known o self.new }
        ensures begun { F.is_begun fabric.new ≡ true }
        ensures symbols { F.symbol_count fabric.new ≡ F.symbol_count fabric.old }
        ensures code_words { F.code_word_count fabric.new ≡ F.code_word_count fabric.old }
        ensures same { IsSameCall self.old self.new }
    {
        let mut wanted = self.turn(Given::Nothing);
        loop {
            if let Wanted::End = wanted {
                return;
            }
            wanted = self.serve_wish(fabric, wanted);
        }
    }

    // Serves what the hart wants, up to something else.
    fn serve_wish<F: Fabric>(&mut self, fabric: &mut F, wanted: Wanted) -> Wanted
        requires wanted { wanted_by self.old self.old.phase wanted }
        requires asked { IsAsked self.old wanted }
        requires goes { wanted ≢ Wanted.End }
        requires begun { F.is_begun fabric.old ≡ true }
        requires symbols { F.symbol_count fabric.old ≡ self.old.functions }
        requires code { F.code_word_count fabric.old ≡ self.old.code_words }
        ensures wanted { wanted_by self.new self.new.phase result }
        ensures asked { IsAsked self.new result }
        ensures both { (since : F) (known : Hart) (o : Origin) → Both F.stands since fabric.old known o self.old → Both F.stands since fabric.new known o self.new }
        ensures begun { F.is_begun fabric.new ≡ true }
        ensures symbols { F.symbol_count fabric.new ≡ F.symbol_count fabric.old }
        ensures code_words { F.code_word_count fabric.new ≡ F.code_word_count fabric.old }
        ensures same { IsSameCall self.old self.new }
        ensures fewer { turns_left self.new self.new.phase < turns_left self.old self.old.phase }
    {
        match wanted {
            Wanted::Fetch(_) => self.run_words(fabric),
            _ => {
                let given = ask(fabric, wanted);
                self.turn(given)
            }
        }
    }

    // Runs code words one after another, up to where something else is wanted.
    fn run_words<F: Fabric>(&mut self, fabric: &mut F) -> Wanted
        requires phase { self.old.phase ≡ Phase.Fetch }
        requires inside { IsCodeAddress self.old.code_words self.old.regs.pc }
        requires begun { F.is_begun fabric.old ≡ true }
        requires symbols { F.symbol_count fabric.old ≡ self.old.functions }
        requires code { F.code_word_count fabric.old ≡ self.old.code_words }
        ensures wanted { wanted_by self.new self.new.phase result }
        ensures asked { IsAsked self.new result }
        ensures both { (since : F) (known : Hart) (o : Origin) → Both F.stands since fabric.old known o self.old → Both F.stands since fabric.new known o self.new }
        ensures begun { F.is_begun fabric.new ≡ true }
        ensures symbols { F.symbol_count fabric.new ≡ F.symbol_count fabric.old }
        ensures code_words { F.code_word_count fabric.new ≡ F.code_word_count fabric.old }
        ensures same { IsSameCall self.old self.new }
        ensures fewer { turns_left self.new self.new.phase < turns_left self.old self.old.phase }
    {
        let limit = CODE + 4 * self.code_words as u64;
        let mut pc = self.regs.pc;
        let mut left = self.left;
        loop {
            let word = fabric.fetch(pc);
            let form = self.forms.read(pc, word);
            match self.run_form(pc, form) {
                Some(next) => {
                    if left == 0 {
                        return self.go_on_at(next, left);
                    }
                    if is_code(limit, next) {
                        pc = next;
                        left -= 1;
                    } else {
                        match self.enter(fabric, limit, next, left) {
                            Some(base) => {
                                pc = base;
                                left -= 4;
                            }
                            None => return self.wanted(),
                        }
                    }
                }
                None => match self.counted_at(limit, pc, left, word) {
                    Some(symbol) => {
                        fabric.count(symbol);
                        pc = add_offset(pc, 4);
                        left -= 1;
                    }
                    None => {
                        if !self.take_next_at(pc, left, word) {
                            return self.wanted();
                        }
                        pc = self.regs.pc;
                        left = self.left;
                    }
                },
            }
        }
    }

    // Goes on at an address at which no code word stands, with so many instructions left. A stub whose cell holds a code word's
    // address leads there, and the answer is that address; none where the hart wants something else.
    #[inline(never)]
    fn enter<F: Fabric>(
        &mut self,
        fabric: &mut F,
        limit: u64,
        address: u64,
        left: u64,
    ) -> Option<u64>
        requires phase { self.old.phase ≡ Phase.Fetch }
        requires limit { limit ≡ code_base + 4 * self.old.code_words }
        requires begun { F.is_begun fabric.old ≡ true }
        requires symbols { F.symbol_count fabric.old ≡ self.old.functions }
        ensures entered { MatchOption result (HasLeft F.stands fabric.old fabric.new self.old self.new address left) (HasEntered F.stands fabric.old fabric.new self.old self.new address left) }
        ensures begun { F.is_begun fabric.new ≡ true }
        ensures symbols { F.symbol_count fabric.new ≡ F.symbol_count fabric.old }
        ensures code_words { F.code_word_count fabric.new ≡ F.code_word_count fabric.old }
        ensures same { IsSameCall self.old self.new }
    {
        if left > 3 {
            if is_stub(self.functions, address) {
                let base = fabric.cell(((address - STUBS) / 16) as u32);
                self.set_base(base);
                let target = base - base % 2;
                if is_code(limit, target) {
                    return Some(target);
                }
                let _ = self.go_on_at(target, left - 3);
                return None;
            }
        }
        let _ = self.go_on_at(address, left);
        None
    }

    // Puts a base where a stub loads it.
    #[inline(always)]
    fn set_base(&mut self, base: u64)
        ensures regs { view self.new.regs ≡ write (view self.old.regs) Reg.T1 base }
        ensures bytes { self.new.bytes.items ≡ self.old.bytes.items }
        ensures control { self.new.control.items ≡ self.old.control.items }
        ensures phase { self.new.phase ≡ self.old.phase }
        ensures same { IsSameCall self.old self.new }
    {
        self.regs.write(Reg::T1, base);
    }
}

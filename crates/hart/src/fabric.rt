// What serves a hart, and a call over it.
ghost use Rattle.std.specs.Prelude.{◌≡◌, ◌<◌, ◌≤◌, ◌++◌, ◌∷◌, [], ℕ, List, vec_len, Bool, true, false};
ghost use Rattle.ir_meaning.specs.Plays.{Meaning};
ghost use Rattle.rv_play.specs.Ending.{Item, Held, Saw};
ghost use Rattle.hart.specs.Standing.{IsFor, IsSameCall, IsCodeAddress};
ghost use Rattle.hart.specs.Calls.{HasRoomFor, IsCall, EndedOver, origin_of};

use crate::hart::{Given, Hart, Image, Wanted};
use ir_meaning::calls::{Ended, ListedCall};

/// What serves a hart: cells, code words and counts. It is begun before a call and ended after it. It stands for two lists since
/// the state that the last beginning found: what was held and seen, in one order, and the symbols that were counted.
pub trait Fabric {
    /// How many symbols and code words there are, and whether it is begun.
    ghost symbol_count: { Self → ℕ };

    ghost code_word_count: { Self → ℕ };

    ghost is_begun: { Self → Bool };

    /// Since a state, in another, what was held and seen and what was counted.
    ghost stands: { Self → Self → List Item → List ℕ → Type 0 };

    fn symbols(&self) -> u32
        ensures { result ≡ symbol_count self.now };

    fn code_words(&self) -> u32
        ensures { result ≡ code_word_count self.now };

    fn begin(&mut self)
        requires { is_begun self.old ≡ false }
        ensures begun { is_begun self.new ≡ true }
        ensures symbols { symbol_count self.new ≡ symbol_count self.old }
        ensures code_words { code_word_count self.new ≡ code_word_count self.old }
        ensures stands { stands self.old self.new [] [] };

    /// The base that a symbol's cell holds.
    fn cell(&mut self, symbol: u32) -> u64
        requires begun { is_begun self.old ≡ true }
        requires below { symbol < symbol_count self.old }
        ensures begun { is_begun self.new ≡ true }
        ensures symbols { symbol_count self.new ≡ symbol_count self.old }
        ensures code_words { code_word_count self.new ≡ code_word_count self.old }
        ensures stands { (since : Self) (pass : List Item) (counted : List ℕ) → stands since self.old pass counted → stands since self.new (pass ++ Held symbol result ∷ []) counted };

    /// The code word at an address.
    fn fetch(&mut self, address: u64) -> u32
        requires begun { is_begun self.old ≡ true }
        requires inside { IsCodeAddress (code_word_count self.old) address }
        ensures begun { is_begun self.new ≡ true }
        ensures symbols { symbol_count self.new ≡ symbol_count self.old }
        ensures code_words { code_word_count self.new ≡ code_word_count self.old }
        ensures stands { (since : Self) (pass : List Item) (counted : List ℕ) → stands since self.old pass counted → stands since self.new (pass ++ Saw address result ∷ []) counted };

    /// Counts an entry of a symbol.
    fn count(&mut self, symbol: u32)
        requires begun { is_begun self.old ≡ true }
        requires below { symbol < symbol_count self.old }
        ensures begun { is_begun self.new ≡ true }
        ensures symbols { symbol_count self.new ≡ symbol_count self.old }
        ensures code_words { code_word_count self.new ≡ code_word_count self.old }
        ensures stands { (since : Self) (pass : List Item) (counted : List ℕ) → stands since self.old pass counted → stands since self.new pass (counted ++ symbol ∷ []) };

    fn end(&mut self)
        requires { is_begun self.old ≡ true }
        ensures begun { is_begun self.new ≡ false }
        ensures symbols { symbol_count self.new ≡ symbol_count self.old }
        ensures code_words { code_word_count self.new ≡ code_word_count self.old }
        ensures stands { (since : Self) (pass : List Item) (counted : List ℕ) → stands since self.old pass counted → stands since self.new pass counted };
}

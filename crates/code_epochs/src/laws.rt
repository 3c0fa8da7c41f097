//! What holds of all of the code state: each function's contract is a law, and its body does nothing.
ghost use Rattle.std.specs.Prelude.{◌≡◌, ◌<◌, ◌≤◌, ℕ, List, ◌++◌, length};
ghost use Rattle.ir_meaning.specs.Plays.{Meaning};
ghost use Rattle.rv_play.specs.Link.{Backed as BacksAll};
ghost use Rattle.code_epochs.specs.declared.parts.Item.{Item};
ghost use Rattle.code_epochs.specs.declared.parts.Draft.{Draft};
ghost use Rattle.code_epochs.specs.declared.parts.HartPart.{HartPart};
ghost use Rattle.code_epochs.specs.declared.parts.Book.{Book};
ghost use Rattle.code_epochs.specs.declared.state.VersionState.{VersionState};
ghost use Rattle.code_epochs.specs.Sound.{At, Has, Whole, Sound, Backed, AreMade, HoldsStaying};
ghost use Rattle.code_epochs.specs.Passes.{items_of};
ghost use Rattle.code_epochs.specs.Steps.{IsActive, IsIdle, cell_held, word_seen, epoch_loaded, epoch_announced, gone_idle, CanBegin, draft_begun, IsNext, word_stored, IsComplete, cell_swapped, AllLinked, hart_split, hart_joined, IsUnlinked, epoch_raised, IsPending, Marks, hart_looked, AllPassed, header_cleared, first_whole};

/// A state without versions and harts is sound.
pub fn first_state()
    ensures { (m : Meaning) (harts code_words : ℕ) → harts ≤ 16 → code_words ≤ 4194304 → Sound m (first_whole m harts code_words) }
{}

/// Each kind of step of a hart keeps the state sound.
pub fn hart_steps()
    ensures load_cell { (m : Meaning) (x : Whole) (h : ℕ) (p : HartPart) (word symbol base : ℕ) → Sound m x → IsActive x h p word → At x.cells symbol base → Sound m (cell_held x h p symbol base) }
    ensures load_word { (m : Meaning) (x : Whole) (h : ℕ) (p : HartPart) (word place found : ℕ) → Sound m x → IsActive x h p word → At x.code place found → Sound m (word_seen x h p place found) }
    ensures load_epoch { (m : Meaning) (x : Whole) (h : ℕ) (p : HartPart) → Sound m x → IsIdle x h p → ¬ Has x.book.gone h → Sound m (epoch_loaded x h p x.epoch) }
    ensures announce { (m : Meaning) (x : Whole) (h : ℕ) (p : HartPart) → Sound m x → IsIdle x h p → ¬ Has x.book.gone h → Sound m (epoch_announced x h p) }
    ensures go_idle { (m : Meaning) (x : Whole) (h : ℕ) (p : HartPart) (word : ℕ) → Sound m x → IsActive x h p word → Sound m (gone_idle x h p) }
{}

/// Each kind of step of the keeper keeps the state sound.
pub fn keeper_steps()
    ensures header { (m : Meaning) (x : Whole) (symbol level base : ℕ) (words : List ℕ) → Sound m x → CanBegin m x symbol base words → Sound m (draft_begun x symbol level base words) }
    ensures next { (m : Meaning) (x : Whole) (d : Draft) (word : ℕ) → Sound m x → IsNext x d word → Sound m (word_stored x d word) }
    ensures swap { (m : Meaning) (x : Whole) (d : Draft) → Sound m x → IsComplete x d → Sound m (cell_swapped x d) }
    ensures split { (m : Meaning) (x : Whole) → Sound m x → x.book.seated < length x.announced → AllLinked m.functions x.book → Sound m (hart_split x) }
    ensures join { (m : Meaning) (x : Whole) (h : ℕ) (p : HartPart) → Sound m x → IsIdle x h p → Sound m (hart_joined x h p) }
    ensures raise { (m : Meaning) (x : Whole) (i : ℕ) (v : VersionState) → Sound m x → IsUnlinked x i v → Sound m (epoch_raised x i v) }
    ensures look { (m : Meaning) (x : Whole) (i : ℕ) (v : VersionState) (tag passed marked hart found : ℕ) → Sound m x → IsPending x i v tag passed → At x.announced hart found → Marks tag passed hart found marked → Sound m (hart_looked x i v tag marked hart found) }
    ensures clear { (m : Meaning) (x : Whole) (i : ℕ) (v : VersionState) (tag passed : ℕ) → Sound m x → IsPending x i v tag passed → AllPassed x passed → Sound m (header_cleared x i v) }
{}

/// The pass of a hart is backed at each step, and no version that it holds is given up; an ended one stays backed when its hart is gone;
/// and a backed pass is one over good versions that stand apart. Each version's words are good, also once it is given up.
pub fn backed_passes()
    ensures now { (m : Meaning) (x : Whole) (h : ℕ) (p : HartPart) (word : ℕ) → Sound m x → IsActive x h p word → Backed m (length x.code) x.book p.pass }
    ensures stays { (m : Meaning) (x : Whole) (h : ℕ) (p : HartPart) (word : ℕ) → Sound m x → IsActive x h p word → HoldsStaying x.book p.pass }
    ensures made { (m : Meaning) (x : Whole) → Sound m x → AreMade m x.book }
    ensures joined { (m : Meaning) (x : Whole) → Sound m x → (i : ℕ) (p : HartPart) → At x.book.joined i p → (e : ℕ) (pass : List Item) → At p.ended e pass → Backed m (length x.code) x.book pass }
    ensures rest { (m : Meaning) (n : ℕ) (book : Book) (first rest : List Item) → Backed m n book (first ++ rest) → Backed m n book rest }
    ensures good { (m : Meaning) (n : ℕ) (book : Book) (pass : List Item) → n ≤ 4194304 → Backed m n book pass → BacksAll m n (items_of pass) }
{}

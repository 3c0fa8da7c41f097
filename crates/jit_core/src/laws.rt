//! What holds of every list of events: each function's contract is a law, and its body does nothing.
ghost use Rattle.std.specs.Prelude.{◌≡◌, ℕ, List, [], length};
ghost use Rattle.ir_core.specs.Program.{Program};
ghost use Rattle.ir_meaning.specs.declared.calls.Ended.{Ended};
ghost use Rattle.ir_meaning.specs.declared.calls.ListedCall.{ListedCall};
ghost use Rattle.ir_meaning.specs.Memory.{Memory};
ghost use Rattle.ir_meaning.specs.Meaning.{meaning};
ghost use Rattle.ir_meaning.specs.Plays.{Meaning};
ghost use Rattle.ir_meaning.specs.Right.{RightFrom};
ghost use Rattle.rv_play.specs.ListedCalls.{Follows};
ghost use Rattle.code_epochs.specs.declared.parts.HartPart.{HartPart};
ghost use Rattle.code_epochs.specs.declared.parts.Item.{Item};
ghost use Rattle.code_epochs.specs.Sound.{At, Whole, Sound, Backed};
ghost use Rattle.code_epochs.specs.Passes.{items_of};
ghost use Rattle.hart.specs.declared.hart.Hart.{Hart};
ghost use Rattle.hart.specs.declared.hart.Image.{Image};
ghost use Rattle.hart.specs.Standing.{run_of};
ghost use Rattle.hart.specs.Calls.{EndedOver, origin_of};
ghost use Rattle.hart.specs.Right.{IsListedOn};
ghost use Rattle.jit_core.specs.declared.event.Event.{Event};
ghost use Rattle.jit_core.specs.declared.event.Event.TheVariants as event;
ghost use Rattle.jit_core.specs.declared.event.Stepped.{Stepped};
ghost use Rattle.jit_core.specs.Events.{Leads, Told, Runs, OneWord, IsOwn};

/// Every list of events keeps the code state sound.
pub fn events_keep_sound()
    ensures { (m : Meaning) (x y : Whole) (told : List Told) → Sound m x → Runs m x told y → Sound m y }
{}

/// Each event changes one shared word at most, and a hart's event nothing that another hart or the keeper knows.
pub fn events_make_one_step()
    ensures word { (m : Meaning) (x y : Whole) (event : Event) (answer : Stepped) → Leads m x event answer y → OneWord x y }
    ensures own { (m : Meaning) (x y : Whole) (h : ℕ) (answer : Stepped) → Leads m x (event.Hart h) answer y → IsOwn x y h }
{}

/// After every list of events each pass that ended is backed by the versions, and a call that ended over it has the right answer.
pub fn passes_answer_right()
    ensures backed { (m : Meaning) (x y : Whole) (told : List Told) (h i : ℕ) (p : HartPart) (pass : List Item) (word : ℕ) → Sound m x → Runs m x told y → At y.harts h p → At y.announced h word → At p.ended i pass → Backed m (length y.code) y.book pass }
    ensures right { (program : Program) (x y : Whole) (told : List Told) (h i : ℕ) (p : HartPart) (pass : List Item) (word : ℕ) (call : ListedCall) (memory : Memory) (image : Image) (before after : Hart) (counted : List ℕ) (end : Ended) → Sound (meaning program) x → Runs (meaning program) x told y → At y.harts h p → At y.announced h word → At p.ended i pass → IsListedOn program call memory image before → EndedOver (meaning program) (origin_of before image call (length y.code)) (items_of pass) end after counted → RightFrom program call memory end × Follows program call memory (run_of after counted []) call.turns }
{}

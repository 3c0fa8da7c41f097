// What makes versions.
ghost use Rattle.std.specs.Prelude.{◌≡◌, ◌<◌, ◌≤◌, ℕ, Bool, length, IfOk, IfErr};
ghost use Rattle.ir_core.specs.Program.{Program};
ghost use Rattle.rv_play.specs.Versions.{IsVersion, Allows};

use ir_verify::checked::Checked;
use rv_play::version::{MakeRefusal, Version};
use std::alloc::Global;

/// Makes versions of a module's functions.
pub trait Maker: Drop {
    /// Whether a function of a module, by its symbol, may be refused as crowded at a level.
    ghost may_crowd: { Self → Program → ℕ → ℕ → Bool };

    /// A good version of the symbol, with this level from 1 to 3.
    fn make(
        &mut self,
        alloc: Global,
        all: &Checked,
        symbol: u32,
        level: u8,
    ) -> Result<Version, MakeRefusal>
        requires exists { symbol < length all.now.module_.functions }
        requires level { (1 ≤ level) × (level ≤ 3) }
        ensures version { IfOk result (λ version. IsVersion all.now symbol level version) }
        ensures refused { IfErr result (λ refusal. Allows (may_crowd self.old all.now symbol level) refusal) }
        ensures same { may_crowd self.new ≡ may_crowd self.old };
}

//! What is read off a core.
ghost use Rattle.std.specs.Prelude.{◌≡◌, length};
ghost use Rattle.jit_core.specs.Cores.{IsKept};

use crate::state_machine::Core;

impl Core<'_> {
    /// How many versions there are, with those that were replaced: at most 1,048,576.
    pub fn versions(&self) -> u32
        requires kept { IsKept self.now }
        ensures { result ≡ length self.now.state.versions.items }
    {
        self.state.versions.len() as u32
    }
}

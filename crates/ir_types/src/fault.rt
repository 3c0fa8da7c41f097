ghost use Rattle.std.specs.Prelude.{◌≡◌};
ghost use Rattle.ir_types.specs.declared.fault.Fault.TheVariants.{NoMemory};

use ir_core::program::What;
use std::alloc::{AllocError, AllocFailed};

/// Why a tree has no module; a place is how many bytes are left from it on.
#[derive(Clone, Copy, Debug, PartialEq, Eq, Drop)]
pub enum Fault {
    NoMemory,
    /// What stands there doesn't fit.
    Syntax(usize),
    /// An item that is left out stands there.
    LeftOut(usize),
    /// The name that stands there isn't defined, is defined twice, or is that of a type that holds itself.
    Name(usize),
    Limit(What, u64),
}

impl From<AllocError> for Fault {
    ghost from_gives = { λ _ e. e ≡ NoMemory };

    fn from(_: AllocError) -> Fault {
        Fault::NoMemory
    }
}

impl<T: Drop> From<AllocFailed<T>> for Fault {
    ghost from_gives = { λ _ e. e ≡ NoMemory };

    fn from(_: AllocFailed<T>) -> Fault {
        Fault::NoMemory
    }
}

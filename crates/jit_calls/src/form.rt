ghost use Rattle.std.specs.Prelude.{◌≡◌};
ghost use Rattle.jit_calls.specs.declared.form.Refusal.TheVariants.{NoMemory};

use rj_num::NoMemory as OutOfMemory;
use std::alloc::{AllocError, AllocFailed};

/// Why a text wasn't read.
#[derive(Clone, Copy, PartialEq, Eq)]
pub enum Refusal {
    /// The text doesn't have the form.
    Form,
    NoMemory,
}

impl From<AllocError> for Refusal {
    ghost from_gives = { λ _ refusal. refusal ≡ NoMemory };

    fn from(_: AllocError) -> Refusal {
        Refusal::NoMemory
    }
}

impl<T: Drop> From<AllocFailed<T>> for Refusal {
    ghost from_gives = { λ _ refusal. refusal ≡ NoMemory };

    fn from(_: AllocFailed<T>) -> Refusal {
        Refusal::NoMemory
    }
}

impl From<OutOfMemory> for Refusal {
    ghost from_gives = { λ _ refusal. refusal ≡ NoMemory };

    fn from(_: OutOfMemory) -> Refusal {
        Refusal::NoMemory
    }
}

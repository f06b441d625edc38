//! Why the parser answers no tree.
ghost use Rattle.std.specs.Prelude.{◌≡◌};
ghost use Rattle.hush_syntax.specs.declared.refusal.Refusal.TheVariants.{Memory};

use std::alloc::{AllocError, AllocFailed};

/// Why there is no tree. Where and why a text is no script is found only then, by another reading of it.
#[derive(Clone, Copy, Debug)]
pub(crate) enum Refusal {
    /// The text is no script.
    NoScript,
    /// Memory was refused.
    Memory,
}

impl From<AllocError> for Refusal {
    ghost from_gives = { λ _ refusal. refusal ≡ Memory };

    fn from(_refused: AllocError) -> Refusal {
        Refusal::Memory
    }
}

impl<T: Drop> From<AllocFailed<T>> for Refusal {
    ghost from_gives = { λ _ refusal. refusal ≡ Memory };

    fn from(_refused: AllocFailed<T>) -> Refusal {
        Refusal::Memory
    }
}

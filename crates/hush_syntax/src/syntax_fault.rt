//! What can be wrong with a script, and where.
ghost use Rattle.std.specs.Prelude.{◌≡◌};
ghost use Rattle.hush_syntax.specs.Faults.{word_fault, memory_refused, is_missing};

use std::alloc::{AllocError, AllocFailed};
use thiserror::Error;

/// Why a text isn't a script (docs/scripts.md, "Faults").
#[derive(Clone, Copy, Debug, PartialEq, Eq)]
pub enum FaultKind {
    /// A quote that isn't closed.
    Quote,
    /// An unquoted `\` at the end of the text.
    Backslash,
    /// A `$` before what it can't begin, or braces without a name or without an end.
    Substitution,
    /// A single `&` or `|`.
    Operator,
    /// A token that can't be where it is.
    Unexpected,
    /// The end of the text where something must still come.
    Missing,
    /// An if, for, while or until inside 64 others.
    Nest,
    /// A word after an assignment.
    Assignment,
    /// A byte 0.
    Nul,
    /// No memory for the tree. More of the text or of the tree than 32 bits can count, which is another thing, is
    /// reported as this too.
    Memory,
}

impl FaultKind {
    /// The text ends where something must still come.
    pub(crate) fn is_missing(self) -> bool
        ensures { result ≡ is_missing self }
    {
        matches!(self, FaultKind::Missing)
    }
}

/// What keeps a text from being a script, and where.
#[derive(Clone, Copy, Debug, PartialEq, Eq, Error)]
#[error("{kind:?} at byte {place}")]
pub struct SyntaxFault {
    /// How many bytes of the text are before the token, quote, `$`, `\` or byte at fault; 0 for `Memory`.
    pub place: usize,
    /// What is wrong.
    pub kind: FaultKind,
}

impl From<hush_words::Fault> for SyntaxFault {
    ghost from_gives = { λ fault given. given ≡ word_fault fault };

    fn from(fault: hush_words::Fault) -> SyntaxFault {
        let kind = match fault.kind {
            hush_words::FaultKind::Quote => FaultKind::Quote,
            hush_words::FaultKind::Backslash => FaultKind::Backslash,
            hush_words::FaultKind::Substitution => FaultKind::Substitution,
            hush_words::FaultKind::Operator => FaultKind::Operator,
            hush_words::FaultKind::Nul => FaultKind::Nul,
        };
        SyntaxFault {
            place: fault.place,
            kind,
        }
    }
}

impl From<AllocError> for SyntaxFault {
    ghost from_gives = { λ _ fault. fault ≡ memory_refused };

    fn from(_refused: AllocError) -> SyntaxFault {
        SyntaxFault {
            place: 0,
            kind: FaultKind::Memory,
        }
    }
}

impl<T: Drop> From<AllocFailed<T>> for SyntaxFault {
    ghost from_gives = { λ _ fault. fault ≡ memory_refused };

    fn from(_refused: AllocFailed<T>) -> SyntaxFault {
        SyntaxFault {
            place: 0,
            kind: FaultKind::Memory,
        }
    }
}

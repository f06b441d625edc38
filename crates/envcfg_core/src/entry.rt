//! The entries of texts, and their faults.
ghost use Rattle.std.specs.Prelude.{◌≡◌, option_copied, option_map};
ghost use Rattle.envcfg_core.specs.declared.entry.TextFault.TheVariants.{Memory};
ghost use Rattle.envcfg_core.specs.Bytes.{some_unless_empty};

use std::alloc::{AllocError, AllocFailed};
use thiserror::Error;

/// One entry of a text for import or of a set script.
#[derive(Debug, Drop)]
pub struct TextEntry {
    /// The name's bytes: one or more.
    pub name: Vec<u8>,
    /// The value's bytes, one or more, or no value if the entry deletes.
    pub value: Option<Vec<u8>>,
    /// The line in which the entry begins; lines count from 1.
    pub line: usize,
}

impl TextEntry {
    /// The value's bytes, or `None` if the entry deletes.
    pub fn value_bytes(&self) -> Option<&[u8]>
        ensures { option_copied result ≡ option_map (λ v. v.items) self.now.value }
    {
        match &self.value {
            Some(value) => Some(value),
            None => None,
        }
    }
}

/// Why a text for import or a set script is refused (docs/texts.md).
#[derive(Clone, Copy, Debug, PartialEq, Eq, Error)]
pub enum TextFault {
    /// An entry has an empty name; the number is the line in which it begins.
    #[error("EmptyName in line {0}")]
    EmptyName(usize),
    /// The text holds a 0 byte.
    #[error("Nul")]
    Nul,
    /// A growth was refused.
    #[error("Memory")]
    Memory,
}

impl From<AllocError> for TextFault {
    ghost from_gives = { λ _ fault. fault ≡ Memory };

    fn from(_error: AllocError) -> TextFault {
        TextFault::Memory
    }
}

impl<T: Drop> From<AllocFailed<T>> for TextFault {
    ghost from_gives = { λ _ fault. fault ≡ Memory };

    fn from(_error: AllocFailed<T>) -> TextFault {
        TextFault::Memory
    }
}

/// The value, or `None` if it is empty.
pub(crate) fn some_unless_empty(value: Vec<u8>) -> Option<Vec<u8>>
    ensures { option_map (λ v. v.items) result ≡ some_unless_empty value.items }
{
    if value.is_empty() { None } else { Some(value) }
}

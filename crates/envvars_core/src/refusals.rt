//! Why a write is refused (docs/variables.md, "The checks of a write").
ghost use Rattle.std.specs.Prelude.{◌≡◌};
ghost use Rattle.envvars_core.specs.Refusals.{before_name, after_name};

use std::alloc::{AllocError, AllocFailed};
use std::error::Error;
use std::fmt;

/// Memory ran out.
#[derive(Clone, Copy, Debug, PartialEq, Eq)]
pub struct Memory;

impl fmt::Display for Memory {
    ghost use Rattle.std.specs.Prelude.{Some, codes};

    ghost output = { λ _. Some (codes "out of memory") };

    fn fmt<W: fmt::Write>(&self, f: &mut fmt::Formatter<W>) -> fmt::Result {
        write!(f, "out of memory")
    }
}

impl Error for Memory {}

impl From<AllocError> for Memory {
    fn from(_refused: AllocError) -> Memory {
        Memory
    }
}

impl<T: Drop> From<AllocFailed<T>> for Memory {
    fn from(_refused: AllocFailed<T>) -> Memory {
        Memory
    }
}

/// Why a write is refused: the first of these that applies, in this order.
#[derive(Clone, Copy, Debug, PartialEq, Eq)]
pub enum Refusal {
    /// The name is empty or holds a 0 byte or a `=`, or the value holds a 0 byte.
    BadForm,
    /// The value does not have the type of the variable.
    BadType,
    /// The access forbids to create the variable.
    NoCreate,
    /// The access forbids to delete the variable.
    NoDelete,
    /// The access forbids to overwrite the variable.
    NoOverwrite,
    /// The variables would take more than the room.
    Full,
    /// Memory ran out.
    Memory,
}

impl From<Memory> for Refusal {
    ghost use Rattle.std.specs.Prelude.{◌≡◌};
    ghost use Rattle.envvars_core.specs.declared.refusals.Refusal as refusal;
    ghost use Rattle.envvars_core.specs.declared.refusals.Refusal.TheVariants as variant;

    ghost from_gives = { λ _ r. r ≡ variant.Memory };

    fn from(_refused: Memory) -> Refusal {
        Refusal::Memory
    }
}

impl Refusal {
    /// What its text has before the name that was to be written.
    pub fn before_name(self) -> &'static [u8]
        ensures { result.now ≡ before_name self }
    {
        match self {
            Refusal::BadForm => b"## Error: bad name or value for \"",
            Refusal::BadType => b"## Error: type check failure for \"",
            Refusal::NoCreate => b"## Error: Can't create \"",
            Refusal::NoDelete => b"## Error: Can't delete \"",
            Refusal::NoOverwrite => b"## Error: Can't overwrite \"",
            Refusal::Full => b"## Error: no room for \"",
            Refusal::Memory => b"## Error: out of memory for \"",
        }
    }

    /// What its text has after the name.
    pub fn after_name(self) -> &'static [u8]
        ensures { result.now ≡ after_name self }
    {
        b"\"\n"
    }
}

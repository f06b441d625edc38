//! Why a source is refused.
ghost use Rattle.std.specs.Prelude.{◌≡◌};
ghost use Rattle.env_source.specs.Faults.{flaw_text};
ghost use Rattle.env_source.specs.declared.source_fault.Flaw.TheVariants.{Memory};

use std::alloc::{AllocError, AllocFailed};

/// What is wrong with a line of a source (docs/texts.md, "A source of U-Boot").
#[derive(Clone, Copy, Debug, PartialEq, Eq)]
pub enum Flaw {
    /// It has a byte 0.
    Nul,
    /// It has a carriage return.
    CarriageReturn,
    /// It begins with `#`, and the preprocessor didn't write it.
    Directive,
    /// It begins with `/*`.
    Comment,
    /// It has a backslash.
    Backslash,
    /// The name has a tab.
    Tab,
    /// The name begins with a digit from 0 to 7.
    Digit,
    /// Nothing is before `+=`.
    NoName,
    /// Nothing is behind `+=`.
    NoAddition,
    /// It goes on, and no variable is before it.
    NoVariable,
    /// It defines the last of two variables without a value at the end of the text.
    Lost,
    /// A growth was refused.
    Memory,
}

impl Flaw {
    /// What is wrong, as a message says it.
    pub fn text(self) -> &'static [u8]
        ensures { result.now ≡ flaw_text self }
    {
        match self {
            Flaw::Nul => b"a byte 0",
            Flaw::CarriageReturn => b"a carriage return",
            Flaw::Directive => b"a line for the C preprocessor, which has to be run before",
            Flaw::Comment => b"a comment for the C preprocessor, which has to be run before",
            Flaw::Backslash => b"a backslash, which U-Boot's build changes",
            Flaw::Tab => b"a tab in the name",
            Flaw::Digit =>
                b"a name that begins with a digit from 0 to 7, which U-Boot's build loses",
            Flaw::NoName => b"no name before +=",
            Flaw::NoAddition => b"nothing after +=",
            Flaw::NoVariable => b"no variable before this line",
            Flaw::Lost =>
                b"two variables without a value at the end, by which U-Boot's build loses all",
            Flaw::Memory => b"out of memory",
        }
    }
}

impl From<AllocError> for Flaw {
    ghost from_gives = { λ _ flaw. flaw ≡ Memory };

    fn from(_refused: AllocError) -> Flaw {
        Flaw::Memory
    }
}

impl<T: Drop> From<AllocFailed<T>> for Flaw {
    ghost from_gives = { λ _ flaw. flaw ≡ Memory };

    fn from(_refused: AllocFailed<T>) -> Flaw {
        Flaw::Memory
    }
}

/// Why a source is refused, and where.
#[derive(Clone, Copy, Debug, PartialEq, Eq)]
pub struct SourceFault {
    /// The line at fault, counted from 1; for `Memory` the one that was being read, 0 behind the last.
    pub line: usize,
    /// What is wrong with it.
    pub flaw: Flaw,
}

impl From<AllocError> for SourceFault {
    ghost from_gives = { λ _ fault. fault ≡ record { line = 0; flaw = Memory } };

    fn from(_refused: AllocError) -> SourceFault {
        SourceFault {
            line: 0,
            flaw: Flaw::Memory,
        }
    }
}

impl<T: Drop> From<AllocFailed<T>> for SourceFault {
    ghost from_gives = { λ _ fault. fault ≡ record { line = 0; flaw = Memory } };

    fn from(_refused: AllocFailed<T>) -> SourceFault {
        SourceFault {
            line: 0,
            flaw: Flaw::Memory,
        }
    }
}

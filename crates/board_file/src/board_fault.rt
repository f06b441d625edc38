//! Why a board file is refused.
ghost use Rattle.std.specs.Prelude.{◌≡◌};
ghost use Rattle.board_file.specs.BoardFiles.{fault_text};

use std::alloc::{AllocError, AllocFailed};
use thiserror::Error;

/// What is wrong with a line of a board file (docs/runs.md, "Board files").
#[derive(Clone, Copy, Debug, PartialEq, Eq)]
pub enum LineFault {
    /// It has a byte 0.
    Nul,
    /// It has more than 4,096 bytes.
    Long,
    /// It has no `->`, and isn't a name and perhaps a status.
    Form,
    /// Nothing is before `->`.
    NoPattern,
    /// Its pattern has more than 256 words.
    Words,
    /// Its first word begins with `-`, and it isn't `-` and the name of a builtin alone.
    Minus,
    /// A builtin answers all of its calls.
    Builtin,
    /// Nothing is behind `->`.
    NoAnswer,
    /// Its answer is `?`.
    Open,
    /// Its answer isn't a script.
    NoScript,
    /// Its answer to `test -e` isn't a status.
    NoStatus,
    /// It is one rule more than 512.
    Many,
    /// An earlier line answers all of its calls.
    Unreachable,
    /// A growth was refused.
    Memory,
}

impl LineFault {
    /// What is wrong, as a message says it.
    pub fn text(self) -> &'static [u8]
        ensures { result.now ≡ fault_text self }
    {
        match self {
            LineFault::Nul => b"a byte 0",
            LineFault::Long => b"more than 4096 bytes",
            LineFault::Form => {
                b"neither a name, perhaps with a status, nor a pattern, -> and an answer"
            }
            LineFault::NoPattern => b"no pattern before ->",
            LineFault::Words => b"a pattern of more than 256 words",
            LineFault::Minus => b"a - is for the name of a builtin alone",
            LineFault::Builtin => b"a builtin answers this itself",
            LineFault::NoAnswer => b"no answer after ->",
            LineFault::Open => b"? is not an answer of a single run",
            LineFault::NoScript => b"what is after -> is not a script",
            LineFault::NoStatus => b"test -e is answered by a status alone",
            LineFault::Many => b"more than 512 rules",
            LineFault::Unreachable => b"an earlier line answers all of these calls",
            LineFault::Memory => b"out of memory",
        }
    }
}

impl From<AllocError> for LineFault {
    ghost use Rattle.board_file.specs.declared.board_fault.LineFault.TheVariants.{Memory};

    ghost from_gives = { λ _ fault. fault ≡ Memory };

    fn from(_refused: AllocError) -> LineFault {
        LineFault::Memory
    }
}

impl<T: Drop> From<AllocFailed<T>> for LineFault {
    ghost use Rattle.board_file.specs.declared.board_fault.LineFault.TheVariants.{Memory};

    ghost from_gives = { λ _ fault. fault ≡ Memory };

    fn from(_refused: AllocFailed<T>) -> LineFault {
        LineFault::Memory
    }
}

/// Why a board file is refused, and where.
#[derive(Clone, Copy, Debug, PartialEq, Eq, Error)]
#[error("{kind:?} in line {line}")]
pub struct BoardFault {
    /// The line at fault, counted from 1; for `Memory` the one that was being read, 0 behind the last.
    pub line: usize,
    /// What is wrong with it.
    pub kind: LineFault,
}

impl From<AllocError> for BoardFault {
    ghost use Rattle.board_file.specs.declared.board_fault.LineFault.TheVariants.{Memory};

    ghost from_gives = { λ _ fault. fault ≡ record { line = 0; kind = Memory } };

    fn from(_refused: AllocError) -> BoardFault {
        BoardFault {
            line: 0,
            kind: LineFault::Memory,
        }
    }
}

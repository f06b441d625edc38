//! How a run ends.
ghost use Rattle.std.specs.Prelude.{◌≡◌, ◌≤◌, length};
ghost use Rattle.hush_run.specs.Runs.{ending_name};

use hush_commands::{ExpansionFault, PrintFault};
use std::alloc::AllocError;

/// How a run ended. The meaning of a script has the same endings except `Memory`, which it doesn't know (`Reason` of
/// specs/Meaning.antt).
#[derive(Clone, Copy, Debug, PartialEq, Eq)]
pub enum Ending {
    /// The script was run to its end.
    Finished,
    /// A command `exit` ended it, or a stand-in that boots.
    Exited,
    /// A step was due and as many were counted as the limit allows.
    Steps,
    /// A variable was to be started and as many were running inside one another as the limit allows.
    Depth,
    /// A word was larger than the limit.
    Word,
    /// A text would have brought what was printed past the limit.
    Output,
    /// A growth was refused; the step that was due isn't counted and has changed nothing.
    Memory,
}

impl Ending {
    /// Its name, as it is printed: `Finished`, `Exited`, `Steps`, `Depth`, `Word`, `Output` or `Memory`.
    pub fn name(self) -> &'static [u8]
        ensures name { result.now ≡ ending_name self }
        ensures short { length result.now ≤ 8 }
    {
        match self {
            Ending::Finished => b"Finished",
            Ending::Exited => b"Exited",
            Ending::Steps => b"Steps",
            Ending::Depth => b"Depth",
            Ending::Word => b"Word",
            Ending::Output => b"Output",
            Ending::Memory => b"Memory",
        }
    }
}

impl From<ExpansionFault> for Ending {
    ghost use Rattle.std.specs.Prelude.{◌≡◌};
    ghost use Rattle.hush_run.specs.Steps.{ending_of_expansion};

    ghost from_gives = { λ fault ending. ending ≡ ending_of_expansion fault };

    fn from(fault: ExpansionFault) -> Ending {
        match fault {
            ExpansionFault::Word => Ending::Word,
            ExpansionFault::Memory => Ending::Memory,
        }
    }
}

impl From<PrintFault> for Ending {
    ghost use Rattle.std.specs.Prelude.{◌≡◌};
    ghost use Rattle.hush_run.specs.Steps.{ending_of_print};

    ghost from_gives = { λ fault ending. ending ≡ ending_of_print fault };

    fn from(fault: PrintFault) -> Ending {
        match fault {
            PrintFault::Output => Ending::Output,
            PrintFault::Memory => Ending::Memory,
        }
    }
}

impl From<AllocError> for Ending {
    ghost use Rattle.std.specs.Prelude.{◌≡◌};
    ghost use Rattle.hush_run.specs.declared.ending.Ending.TheVariants.{Memory};

    ghost from_gives = { λ _ ending. ending ≡ Memory };

    fn from(_refused: AllocError) -> Ending {
        Ending::Memory
    }
}

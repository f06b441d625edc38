//! Why a subcommand ends before its work.
ghost use Rattle.std.specs.Prelude.{◌≡◌};
ghost use Rattle.fw_files.specs.declared.stop.Stop.TheVariants.{Memory};
ghost use Rattle.fw_tools.specs.HaltLines.{IsAt};
ghost use Rattle.fw_tools.specs.ScriptRuns.{IsNoScript};
ghost use Rattle.fw_tools.specs.declared.halt.Halt.TheVariants.{Files};

use fw_files::{FileFault, Stop};
use hush_syntax::SyntaxFault;
use std::alloc::AllocError;

/// Why a subcommand ends before its work: what standard error gets, once.
#[derive(Drop)]
pub(crate) enum Halt<'a> {
    /// It can't go on with its files, or memory ran out.
    Files(Stop<'a>),
    /// The text of this name isn't a script.
    Script(&'a str, Vec<u8>, SyntaxFault),
    /// No stand-in has this name, of which an option says how it leaves the board: what is said behind the name.
    NoStandIn(&'a str, &'static [u8]),
}

impl<'a> Halt<'a> {
    /// The file at this path can't be used.
    pub(crate) fn at(path: &'a str, fault: FileFault) -> Halt<'a>
        ensures at { IsAt path.now fault result }
        ensures other { IsNoScript result }
    {
        Halt::Files(Stop::File(path, fault))
    }
}

impl<'a> From<Stop<'a>> for Halt<'a> {
    ghost from_gives = { λ stop halt. halt ≡ Files stop };

    fn from(stop: Stop<'a>) -> Halt<'a> {
        Halt::Files(stop)
    }
}

impl<'a> From<AllocError> for Halt<'a> {
    ghost from_gives = { λ _ halt. halt ≡ Files Memory };

    fn from(_refused: AllocError) -> Halt<'a> {
        Halt::Files(Stop::Memory)
    }
}

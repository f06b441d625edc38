//! Why a file can not be used.
ghost use Rattle.std.specs.Prelude.{◌≡◌};
ghost use Rattle.std.specs.IoError.{error_kind};
ghost use Rattle.fw_files.specs.Files.{reason_by};
ghost use Rattle.fw_files.specs.declared.file_fault.FileFault.TheVariants.{CannotRead, Memory};

use crate::foreign_texts::Foreign;
use crate::reasons::Reason;
use board_file::BoardFault;
use env_source::SourceFault;
use envcfg_core::{ConfigFault, TextFault};
use envvars_core::Refusal;
use hush_commands::StubFault;
use std::alloc::AllocError;
use std::io;

/// Why a file can not be used.
#[derive(Clone, Copy, Debug)]
pub enum FileFault {
    /// It can't be opened or read, or it is longer than a file that is read whole may be.
    CannotRead(Reason),
    /// It can't be opened for writing, written, or flushed to storage.
    CannotWrite(Reason),
    /// The copy isn't wholly inside it.
    TooShort,
    /// Memory ran out.
    Memory,
    /// It is a configuration that is refused.
    Config(ConfigFault),
    /// It is something else in the place of a text.
    Foreign(Foreign),
    /// It is a configuration in YAML, as newer libubootenv has.
    Yaml,
    /// It is the name of a UBI volume, as U-Boot's tools have.
    UbiVolume,
    /// It is a text for import or a set script that is refused.
    Text(TextFault),
    /// It is a stand-in file that is refused.
    Stubs(StubFault),
    /// It is a board file that is refused.
    Board(BoardFault),
    /// It is a source of U-Boot that is refused.
    Source(SourceFault),
    /// It is a list of names, and this line is none.
    NoName(usize),
    /// It is a default environment, and the entry in this line has no `=`.
    Bare(usize),
    /// It is a default environment, and the entry in this line is refused.
    Default(usize, Refusal),
}

impl From<AllocError> for FileFault {
    ghost from_gives = { λ _ fault. fault ≡ Memory };

    fn from(_refused: AllocError) -> FileFault {
        FileFault::Memory
    }
}

impl From<io::Error> for FileFault {
    ghost from_gives = { λ error fault. fault ≡ CannotRead (reason_by (error_kind error)) };

    fn from(error: io::Error) -> FileFault {
        FileFault::CannotRead(Reason::by(error.kind()))
    }
}

//! Why a subcommand can't go on with its files.
ghost use Rattle.fw_files.specs.declared.stop.Stop.TheVariants.{Memory};
ghost use Rattle.std.specs.Prelude.{◌≡◌};

use crate::file_fault::FileFault;
use crate::opened_devices::CopyFault;
use crate::reasons::Reason;
use envcfg_core::Config;
use envimg_core::CopyState;
use std::alloc::AllocError;

/// Why a subcommand can't go on with its files: what is to be reported, once.
#[derive(Drop)]
pub enum Stop<'a> {
    /// Memory ran out.
    Memory,
    /// The file at this path can't be used.
    File(&'a str, FileFault),
    /// A copy that this configuration names can't be read.
    Copy(Config, CopyFault),
    /// Both copies share a byte of one device.
    Overlap,
    /// The copy that is asked for isn't good; `true`: it is the second one.
    BadCopy(bool, CopyState),
    /// The second copy is asked for, and there is none.
    NoSecondCopy,
    /// One copy has to be good; the states of both, or of the only one.
    NoGoodCopy(CopyState, Option<CopyState>),
    /// The default environment at this path can't be used. Before that a warning is due, which is empty if a copy is good.
    Defaults(&'a str, FileFault, &'static [u8]),
    /// A copy is good in another way than the configuration has it: the line about it.
    Misread(Vec<u8>),
    /// The lock file in this folder can't be locked.
    NotLocked(&'a str, Reason),
}

impl<'a> From<AllocError> for Stop<'a> {
    ghost from_gives = { λ _ stop. stop ≡ Memory };

    fn from(_refused: AllocError) -> Stop<'a> {
        Stop::Memory
    }
}

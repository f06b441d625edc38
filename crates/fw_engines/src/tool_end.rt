//! How a tool ends.
ghost use Rattle.std.specs.Prelude.{◌≡◌, Some, None};
ghost use Rattle.fw_engines.specs.Tool.{PrintsText};

use crate::streams::write_text;
use std::io::Write;

/// The end of a tool: its exit status, and the fault of a stream or of memory that stopped it.
#[derive(Clone, Copy, Debug, PartialEq, Eq)]
pub struct ToolEnd {
    /// The exit status: 0 or 1.
    pub status: u8,
    /// What stopped the tool before its end, if anything did; the status is then 1.
    pub fault: Option<StreamFault>,
}

/// What stops a tool before its end.
#[derive(Clone, Copy, Debug, PartialEq, Eq)]
pub enum StreamFault {
    /// The reader failed. Nothing was written.
    Read,
    /// A writer failed, or took no byte of a text that was not empty. A prefix of the text was written.
    Write,
    /// Memory ran out. Nothing was written.
    Memory,
}

impl ToolEnd {
    /// An end by itself, with this status.
    pub fn done(status: u8) -> ToolEnd
        ensures { (result.status ≡ status) × (result.fault ≡ None) }
    {
        ToolEnd {
            status,
            fault: None,
        }
    }

    /// An end by a fault.
    pub fn stopped(fault: StreamFault) -> ToolEnd
        ensures { (result.status ≡ 1) × (result.fault ≡ Some fault) }
    {
        ToolEnd {
            status: 1,
            fault: Some(fault),
        }
    }
}

/// Writes a whole text, and ends with this status.
pub(crate) fn print_text<W: Write>(writer: &mut W, text: &[u8], status: u8) -> ToolEnd
    ensures { PrintsText (W.contents writer.old) (W.contents writer.new) text.now status result }
{
    if write_text(writer, text) {
        ToolEnd::done(status)
    } else {
        ToolEnd::stopped(StreamFault::Write)
    }
}

//! What is reported of a subcommand that ended before its work, or was stopped, and its exit status.
ghost use Rattle.std.specs.Prelude.{◌≡◌, IfErr, IfOk};
ghost use Rattle.fw_tools.specs.HaltLines.{SaysHalt};
ghost use Rattle.fw_tools.specs.Said.{Says, message_of};

use crate::explains::Explains;
use crate::halt::Halt;
use crate::halt_lines::say_halt;
use fw_engines::streams::say;
use fw_engines::{OUT_OF_MEMORY, StreamFault, ToolEnd};
use std::io::Write;

/// The exit status that a subcommand came to; or it is reported why it ended before its work, and the status is that of one
/// which `halted`.
pub(crate) fn status_or_say<E: Write>(
    errors: &mut E,
    explains: Explains,
    outcome: Result<u8, Halt<'_>>,
    halted: u8,
) -> u8
    ensures done { IfOk outcome.entry (λ status. (result ≡ status) × (E.contents errors.new ≡ E.contents errors.old)) }
    ensures halted { IfErr outcome.entry (λ halt. (result ≡ halted) × SaysHalt explains halt (E.contents errors.old) (E.contents errors.new)) }
{
    match outcome {
        Ok(status) => status,
        Err(halt) => {
            say_halt(errors, explains, &halt);
            halted
        }
    }
}

/// Prints on `errors` which fault stopped a tool, if one did, and answers the exit status.
pub(crate) fn report<E: Write>(end: ToolEnd, errors: &mut E) -> u8
    ensures status { result ≡ end.status }
    ensures said { Says end.fault (E.contents errors.old) (E.contents errors.new) }
{
    if let Some(fault) = end.fault {
        say(errors, message_of(fault));
    }
    end.status
}

/// The text on standard error for what stopped a tool.
pub(crate) fn message_of(fault: StreamFault) -> &'static [u8]
    ensures { result.now ≡ message_of fault }
{
    match fault {
        StreamFault::Read => b"fwenv: cannot read standard input\n",
        StreamFault::Write => b"fwenv: cannot write standard output\n",
        StreamFault::Memory => OUT_OF_MEMORY,
    }
}

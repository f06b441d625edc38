//! What tools print: variables in a way, and whole texts.
ghost use Rattle.std.specs.Prelude.{Some, MatchResult, map};
ghost use Rattle.fw_tools.specs.Subcommands.{printed_so};
ghost use Rattle.fw_arguments.specs.Calls.{texts};
ghost use Rattle.fw_tools.specs.Said.{AreSame};
ghost use Rattle.fw_engines.specs.Tool.{Printed, Prints, PrintsText};

use crate::task_work::bytes_of;
use env_session::Session;
use fw_arguments::Printing;
use fw_engines::streams::write_text;
use fw_engines::{StreamFault, ToolEnd, print_values, printenv};
use std::alloc::{AllocError, Global};
use std::io::Write;

/// Prints a text, and ends with this status.
pub(crate) fn print_text<W: Write>(text: &[u8], status: u8, output: &mut W) -> ToolEnd
    ensures { PrintsText (W.contents output.old) (W.contents output.new) text.now status result }
{
    if write_text(output, text) {
        ToolEnd::done(status)
    } else {
        ToolEnd::stopped(StreamFault::Write)
    }
}

/// `printenv [-n] [NAMES]`
pub(crate) fn print<W: Write, E: Write>(
    alloc: Global,
    session: &Session,
    names: Option<&[&str]>,
    printing: Printing,
    output: &mut W,
    errors: &mut E,
) -> Result<ToolEnd, AllocError>
    ensures { MatchResult result (λ end. Printed end.fault (record { output = W.contents output.old; errors = E.contents errors.old })
        (record { output = W.contents output.new; errors = E.contents errors.new })
        (printed_so printing session.now.now.env (texts names.entry)) end.status)
        (λ _. AreSame (record { output = W.contents output.old; errors = E.contents errors.old })
        (record { output = W.contents output.new; errors = E.contents errors.new })) }
{
    let names = bytes_of(alloc, names)?;
    let mut text = Vec::new(alloc);
    let mut messages = Vec::new(alloc);
    let end = print_so(session, &names, printing, &mut text, &mut messages);
    match end.fault {
        Some(_) => Ok(ToolEnd::stopped(StreamFault::Memory)),
        None => Ok(write_both(&text, &messages, end.status, output, errors)),
    }
}

/// Prints names in a way.
fn print_so(
    session: &Session,
    names: &[&[u8]],
    printing: Printing,
    text: &mut Vec<u8>,
    messages: &mut Vec<u8>,
) -> ToolEnd
    ensures { Prints (record { output = Some text.old.items; errors = Some messages.old.items })
        (record { output = Some text.new.items; errors = Some messages.new.items })
        (printed_so printing session.now.now.env (map (λ n. n.now) names.now)) result }
{
    match printing {
        Printing::Lines => printenv(session, names, false, text, messages),
        Printing::OneValue => printenv(session, names, true, text, messages),
        Printing::Values => print_values(session, names, text, messages),
    }
}

/// Writes a whole text on each writer, and ends with this status.
fn write_both<W: Write, E: Write>(
    text: &[u8],
    messages: &[u8],
    status: u8,
    output: &mut W,
    errors: &mut E,
) -> ToolEnd
    ensures { Prints (record { output = W.contents output.old; errors = E.contents errors.old })
        (record { output = W.contents output.new; errors = E.contents errors.new })
        (record { output = text.now; errors = messages.now; status = status }) result }
{
    if !write_text(output, text) {
        return ToolEnd::stopped(StreamFault::Write);
    }
    if !write_text(errors, messages) {
        return ToolEnd::stopped(StreamFault::Write);
    }
    ToolEnd::done(status)
}

//! Commands that write variables (docs/runs.md, "Commands").
ghost use Rattle.std.specs.Prelude.{◌≡◌};
ghost use Rattle.text_parts.specs.Words.{spaced};
ghost use Rattle.hush_commands.specs.Writing.{CarriesOut, message_of, write_of, calculated_of};
ghost use Rattle.hush_commands.specs.Carrying.{Carries, deletion_of};

use crate::messages::Message;
use crate::output::{Output, PrintFault};
use env_session::Session;
use envvars_core::{Memory, Refusal};
use hush_calc::{Fields, SetexprFault, setexpr};
use std::alloc::Global;

/// What a command says when it fails: a message, and the name that it is about.
#[derive(Clone, Copy, Debug, PartialEq, Eq)]
pub(crate) struct Complaint<'a> {
    /// The message.
    pub(crate) message: Message,
    /// The name.
    pub(crate) name: &'a [u8],
}

/// `setexpr`: writes what its words evaluate to.
pub(crate) fn calculate<'a>(
    session: &mut Session,
    called: &'a [u8],
    words: Fields<'a>,
) -> Result<Option<Complaint<'a>>, Memory>
    ensures { CarriesOut (calculated_of session.old called.now words.entry) session.old session.new result }
{
    match setexpr(words) {
        Ok(calculated) => write(session, calculated.name, calculated.value.as_bytes(), false),
        Err(SetexprFault::WrongUse) => Ok(Some(Complaint {
            message: Message::WrongUse,
            name: called,
        })),
        Err(SetexprFault::DivisionByZero) => Ok(Some(Complaint {
            message: Message::DivisionByZero,
            name: b"",
        })),
    }
}

/// Writes a text.
fn write<'a>(
    session: &mut Session,
    name: &'a [u8],
    text: &[u8],
    force: bool,
) -> Result<Option<Complaint<'a>>, Memory>
    ensures { CarriesOut (write_of session.old name.now text.now force) session.old session.new result }
{
    match session.write(name, Some(text), force) {
        Ok(()) => Ok(None),
        Err(refusal) => match message_of(refusal) {
            Some(message) => Ok(Some(Complaint { message, name })),
            None => Err(Memory),
        },
    }
}

/// Deletes a name of `env delete`: returns the status, which is 1 if this or an earlier name of the command failed.
/// If its message doesn't fit or memory is refused, nothing has changed.
pub fn delete(
    session: &mut Session,
    name: &[u8],
    force: bool,
    failed: bool,
    output: &mut Output,
) -> Result<u8, PrintFault>
    ensures { Carries (deletion_of session.old name.now force failed)
        session.old session.new output.old output.new result }
{
    if session.vars().get(name).is_none() {
        Message::NotDefined.tell(name, output)?;
        return Ok(1);
    }
    match write(session, name, b"", force) {
        Ok(None) => {
            // Does nothing: it tells the prover that what was printed is within the limit.
            let _printed = output.text();
            Ok(if failed { 1 } else { 0 })
        }
        Ok(Some(complaint)) => {
            complaint.message.tell(complaint.name, output)?;
            Ok(1)
        }
        Err(Memory) => Err(PrintFault::Memory),
    }
}

/// `setenv`: writes words, joined by one space; an empty text deletes.
pub(crate) fn write_words<'a>(
    alloc: Global,
    session: &mut Session,
    name: &'a [u8],
    words: Fields<'_>,
    force: bool,
) -> Result<Option<Complaint<'a>>, Memory>
    ensures { CarriesOut (write_of session.old name.now (spaced words.entry) force)
        session.old session.new result }
{
    let text = words.joined(alloc)?;
    write(session, name, &text, force)
}

/// The message about a refused write; out of memory has none.
fn message_of(refusal: Refusal) -> Option<Message>
    ensures { result ≡ message_of refusal }
{
    match refusal {
        Refusal::Memory => None,
        _ => Some(Message::Refused(refusal)),
    }
}

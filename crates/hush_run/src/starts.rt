//! The steps that start a text: that of a variable, or one that answers a call (docs/runs.md, "Steps").
ghost use Rattle.std.specs.Prelude.{◌≡◌};
ghost use Rattle.env_session.specs.Session.{Held};
ghost use Rattle.hush_syntax.specs.Scripts.{tree_of};
ghost use Rattle.hush_run.specs.Meaning.{bodies_of, started_status};
ghost use Rattle.hush_run.specs.Steps.{state_of, rules_of, Started, Answered};

use crate::ending::Ending;
use crate::progress::{Given, Progress};
use crate::steps::called_in;
use env_session::Session;
use hush_commands::{Bytes, FieldQueue, Message, Shell, kept_status};
use hush_syntax::{Bodies, FaultKind, Script};

/// The start of a variable when this many levels may still be opened: the script that is to be run, or `None` if a
/// message says why there is none.
pub(crate) fn start_step(
    given: &Given<'_>,
    session: &Session,
    progress: &mut Progress,
    name: &[u8],
    levels: u32,
) -> Result<Option<Script>, Ending>
    ensures { Started (rules_of given.now) levels name.now (state_of session.now progress.old) (state_of session.now progress.new) result }
{
    progress.may_step(given)?;
    let Some(value) = session.vars().get(name) else {
        progress.fail(Message::NotDefined, name)?;
        return Ok(None);
    };
    if levels == 0 {
        return Err(Ending::Depth);
    }
    match Script::parse_in(
        given.alloc,
        Vec::from_slice(given.alloc, value)?,
        bodies_of(given.shell),
    ) {
        Ok(script) => {
            progress.status = started_status(given.shell, &script, progress.status);
            progress.steps += 1;
            Ok(Some(script))
        }
        Err(fault) => match fault.kind {
            FaultKind::Memory => Err(Ending::Memory),
            _ => {
                progress.fail(Message::NoScript, name)?;
                Ok(None)
            }
        },
    }
}

/// Which bodies a script may have that a shell runs (docs/scripts.md, "Grammar").
pub fn bodies_of(shell: Shell) -> Bodies
    ensures { result ≡ bodies_of shell }
{
    match shell {
        Shell::Strict => Bodies::Full,
        Shell::Board => Bodies::MayBeEmpty,
    }
}

/// The start of the text that answers a call of these words, when this many levels may still be opened: the script that
/// is to be run, or `None` if it is no script.
pub(crate) fn answer_step(
    given: &Given<'_>,
    progress: &mut Progress,
    words: &FieldQueue,
    text: Bytes,
    levels: u32,
) -> Result<Option<Script>, Ending>
    ensures { (held : Held) → Answered (rules_of given.now) levels words.now text (state_of held progress.old) (state_of held progress.new) result }
{
    progress.may_step(given)?;
    if levels == 0 {
        return Err(Ending::Depth);
    }
    match Script::parse_in(given.alloc, text.into_vec(), bodies_of(given.shell)) {
        Ok(script) => {
            let locals = progress.locals.with_words(given.alloc, words.fields())?;
            progress.locals = locals;
            progress.status = started_status(given.shell, &script, progress.status);
            progress.steps += 1;
            Ok(Some(script))
        }
        Err(fault) => match fault.kind {
            FaultKind::Memory => Err(Ending::Memory),
            _ => {
                progress.fail(Message::NoScript, called_in(words))?;
                Ok(None)
            }
        },
    }
}

/// The status at the start of a text.
fn started_status(shell: Shell, script: &Script, status: u8) -> u8
    ensures { result ≡ started_status shell (tree_of script.now) status }
{
    match script.root() {
        Some(_root) => kept_status(shell, status),
        None => 0,
    }
}

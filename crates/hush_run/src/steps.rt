//! The steps of a run (docs/runs.md, "Steps"). Each counts one, or stops with nothing changed.
ghost use Rattle.std.specs.Prelude.{◌≡◌, ℕ, List, [], ◌∷◌, get_or, map, if◌then◌else◌};
ghost use Rattle.hush_words.specs.Parts.{word_atoms};
ghost use Rattle.hush_syntax.specs.Trees.{name_in};
ghost use Rattle.hush_run.specs.Meaning.{State, Goes, ◌then◌, simple, follows, leave_of, have_value, fields_of, list_of, step, assigned, called, is_call, refuses, for, bindings, bound_status, deletions};
ghost use Rattle.hush_run.specs.Steps.{state_of, rules_of, Meant, Did};

use crate::asked_saves::{asks_save, leave_asking};
use crate::ending::Ending;
use crate::name_words::read_name;
use crate::progress::{Given, Progress};
use crate::values::have_value;
use env_session::Session;
use hush_commands::{FieldQueue, Follow, Message, Shell, carry_out, delete};
use hush_syntax::{Text, Word};

/// A simple command of these words: what comes after it.
#[inline(always)]
pub(crate) fn simple_step(
    given: &Given<'_>,
    session: &mut Session,
    progress: &mut Progress,
    text: &Text,
    words: &[Word],
) -> Result<Follow, Ending>
    ensures { Did (rules_of given.now)
        (λ rules begin s. simple rules begin (have_value (map (word_atoms text.now) words.now)) (fields_of rules (map (word_atoms text.now) words.now) s) s)
        (λ follow rules begin. follows rules begin follow) (state_of session.old progress.old)
        (state_of session.new progress.new) result }
{
    progress.expand(given, session, text, words)?;
    if asks_save(given, progress) {
        return Err(leave_asking(given, progress));
    }
    let carried = carry_out(
        given.alloc,
        session,
        given.shell,
        given.stand_ins,
        given.board,
        &progress.fields,
        progress.status,
        &mut progress.output,
    )?;
    progress.status = carried.0;
    progress.steps += 1;
    match carried.1 {
        Follow::End(departure) => {
            progress.departure = departure;
            Err(Ending::Exited)
        }
        Follow::Leaves => Ok(leave_of(have_value(text, words))),
        follow => Ok(follow),
    }
}

/// What follows an `exit` of a board: none that has a value among its words leaves its text.
fn leave_of(has_value: bool) -> Follow
    ensures { result ≡ leave_of has_value }
{
    if has_value {
        Follow::Next
    } else {
        Follow::Leaves
    }
}

/// An assignment.
pub(crate) fn assign_step(
    given: &Given<'_>,
    session: &Session,
    progress: &mut Progress,
    text: &Text,
    name: Word,
    value: Word,
) -> Result<(), Ending>
    ensures { Did (rules_of given.now)
        (λ rules begin. step rules (assigned rules (name_in text.now name) (word_atoms text.now value)))
        (λ u rules begin. Goes) (state_of session.now progress.old) (state_of session.now progress.new) result }
{
    progress.expand_value(given, session, text, name, value)?;
    read_name(text, name, &mut progress.name)?;
    if is_call(given.shell, &progress.name) {
        return call_step(given, session, progress, text, name, value);
    }
    if refuses(given, session, &progress.name) {
        return progress.refuse_name(Message::IsVariable);
    }
    let Some(value) = progress.fields.fields().next() else {
        unreachable!()
    };
    progress.locals.set(given.alloc, &progress.name, value)?;
    progress.status = 0;
    progress.steps += 1;
    Ok(())
}

/// An assignment that calls a command, of which none has its word as its name.
fn call_step(
    given: &Given<'_>,
    session: &Session,
    progress: &mut Progress,
    text: &Text,
    name: Word,
    value: Word,
) -> Result<(), Ending>
    ensures { Did (rules_of given.now)
        (λ rules begin. step rules (called rules (name_in text.now name) (word_atoms text.now value)))
        (λ u rules begin. Goes) (state_of session.now progress.old) (state_of session.now progress.new) result }
{
    let mut front = Vec::new(given.alloc);
    read_name(text, name, &mut front)?;
    front.extend_from_slice(b"=")?;
    progress.expand_after(given, session, text, &front, value)?;
    let fields = progress.fields.take(given.alloc);
    progress.fail(Message::UnknownCommand, called_in(&fields))
}

/// The head of a `for` over these words: the fields that are to be bound. Without fields the loop's status is 0.
pub(crate) fn head_step(
    given: &Given<'_>,
    session: &Session,
    progress: &mut Progress,
    text: &Text,
    words: &[Word],
) -> Result<FieldQueue, Ending>
    ensures { (name : List ℕ) (body : Meant) → Did (rules_of given.now)
        (λ rules begin s. for rules name (list_of rules (map (word_atoms text.now) words.now) s) (body rules begin) s)
        (λ fields rules begin. bindings rules name (body rules begin) fields) (state_of session.now progress.old)
        (state_of session.now progress.new) result }
{
    progress.expand_list(given, session, text, words)?;
    let made = progress.fields.take(given.alloc);
    let fields = made.list_by(given.alloc, given.shell)?;
    progress.steps += 1;
    if fields.is_empty() {
        progress.status = 0;
        return Ok(fields);
    }
    Ok(fields)
}

/// The binding of a field to the variable of a `for`: whether it was accepted.
pub(crate) fn bind_step(
    given: &Given<'_>,
    session: &Session,
    progress: &mut Progress,
    text: &Text,
    name: Word,
    field: &[u8],
) -> Result<bool, Ending>
    ensures { (rest : List (List ℕ)) (body : Meant) → Did (rules_of given.now)
        (λ rules begin. bindings rules (name_in text.now name) (body rules begin) (field.now ∷ rest))
        (λ bound rules begin. if bound
        then (body rules begin then bindings rules (name_in text.now name) (body rules begin) rest) else Goes)
        (state_of session.now progress.old) (state_of session.now progress.new) result }
{
    progress.may_step(given)?;
    progress
        .trace
        .note_assignment(given.alloc, text, name, field);
    read_name(text, name, &mut progress.name)?;
    if refuses(given, session, &progress.name) {
        progress.refuse_name(Message::IsVariable)?;
        return Ok(false);
    }
    if is_call(given.shell, &progress.name) {
        progress.refuse_binding(field)?;
        return Ok(true);
    }
    progress.locals.set(given.alloc, &progress.name, field)?;
    progress.status = bound_status(given.shell, progress.status);
    progress.steps += 1;
    Ok(true)
}

/// The deletion of a name of `env delete`: whether this or an earlier one failed.
pub(crate) fn delete_step(
    given: &Given<'_>,
    session: &mut Session,
    progress: &mut Progress,
    name: &[u8],
    force: bool,
    failed: bool,
) -> Result<bool, Ending>
    ensures { (rest : List (List ℕ)) → Did (rules_of given.now)
        (λ rules begin. deletions rules force failed (name.now ∷ rest))
        (λ failed rules begin. deletions rules force failed rest) (state_of session.old progress.old)
        (state_of session.new progress.new) result }
{
    progress.may_step(given)?;
    progress.status = delete(session, name, force, failed, &mut progress.output)?;
    progress.steps += 1;
    Ok(progress.status != 0)
}

/// The first of the words of a call.
pub(crate) fn called_in(words: &FieldQueue) -> &[u8]
    ensures { result.now ≡ get_or words.now 0 [] }
{
    match words.fields().next() {
        Some(called) => called,
        None => &[],
    }
}

/// Whether an assignment to a name is refused.
fn refuses(given: &Given<'_>, session: &Session, name: &[u8]) -> bool
    ensures { (s : State) → s.held ≡ session.now → result ≡ refuses given.now.shell s name.now }
{
    match given.shell {
        Shell::Strict => session.vars().get(name).is_some(),
        Shell::Board => false,
    }
}

/// Whether an assignment to a name calls a command.
fn is_call(shell: Shell, name: &[u8]) -> bool
    ensures { result ≡ is_call shell name.now }
{
    match shell {
        Shell::Strict => false,
        Shell::Board => match name.first() {
            Some(first) => *first == b'_',
            None => false,
        },
    }
}

/// The status after a binding of a `for`.
fn bound_status(shell: Shell, status: u8) -> u8
    ensures { result ≡ bound_status shell status }
{
    match shell {
        Shell::Strict => status,
        Shell::Board => 0,
    }
}

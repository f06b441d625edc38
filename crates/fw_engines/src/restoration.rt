//! The variables of a session, replaced by those of a text.
ghost use Rattle.std.specs.Prelude.{◌≡◌, ◌++◌, true, map, IfOk, OnErr, MatchBool};
ghost use Rattle.std.specs.List.{flat_map};
ghost use Rattle.std.specs.Io.KnownBytes.{Appends};
ghost use Rattle.env_session.specs.Requests.{refusal_in, write_done};
ghost use Rattle.envcfg_core.specs.Entries.{entry_view};
ghost use Rattle.fw_engines.specs.Changes.{Changes, text_in_line};
ghost use Rattle.fw_engines.specs.Restoration.{IsForcedChange, LacksMemoryToForce, LacksMemoryToRestore, deletion, flags_last, forced_effect, is_flags, kept, names_of, restore_effect, restoring, write_view};
ghost use Rattle.fw_engines.specs.Streams.{AppendsPart};
ghost use Rattle.fw_engines.specs.Tool.{PrintsText};

use crate::changes::save;
use crate::streams::{write_decimal, write_text, write_three};
use crate::tool_end::{StreamFault, ToolEnd, print_text};
use crate::tool_texts::{NEWLINE, NO_ENTRY, QUOTE_IN_LINE};
use env_session::Session;
use envcfg_core::TextEntry;
use envvars_core::{Memory, Refusal, Vars};
use std::alloc::Global;
use std::io::Write;

/// The name of the variable that gives the attributes.
const FLAGS: &[u8] = b".flags";

/// A forced write of a restore.
#[derive(Clone, Copy)]
struct ForcedWrite<'a> {
    name: &'a [u8],
    /// The value; `None` to delete the variable.
    value: Option<&'a [u8]>,
    /// The line of its entry in the text, counted from 1; 0 for a variable that is deleted before the text's entries.
    line: usize,
}

/// Deletes every variable, writes the entries in their order but for `.flags`, which comes last, and saves: so the variables
/// are those of the text, and no others. All writes are forced: the access isn't checked. The first refusal ends it: its text
/// is printed on `errors` with the line of its entry, status 1, and nothing is saved. Nor is it without an entry, which is
/// reported.
///
/// At the fault `Memory` nothing is printed, no copy has changed, and a prefix of the writes is done, none of which is
/// refused; nor is the next, if there is one.
pub fn restore<E: Write>(
    alloc: Global,
    session: &mut Session,
    entries: &[TextEntry],
    errors: &mut E,
) -> ToolEnd
    ensures { Changes (record { session = session.old; errors = E.contents errors.old })
        (record { session = session.new; errors = E.contents errors.new })
        (restore_effect session.old (map entry_view entries.now))
        (LacksMemoryToRestore session.old (map entry_view entries.now)) result }
{
    if entries.is_empty() {
        return print_text(errors, NO_ENTRY, 1);
    }
    match names_of(alloc, session.vars()) {
        Err(_) => ToolEnd::stopped(StreamFault::Memory),
        Ok(names) => restore_over(alloc, session, &names, entries, errors),
    }
}

/// Deletes the variables of these names, writes the entries, `.flags` last, and saves.
fn restore_over<E: Write>(
    alloc: Global,
    session: &mut Session,
    names: &[Vec<u8>],
    entries: &[TextEntry],
    errors: &mut E,
) -> ToolEnd
    requires { map (λ n. n.items) names.now ≡ names_of session.old.now.env }
    ensures { Changes (record { session = session.old; errors = E.contents errors.old })
        (record { session = session.new; errors = E.contents errors.new })
        (forced_effect session.old (restoring session.old.now.env (map entry_view entries.now)))
        (LacksMemoryToRestore session.old (map entry_view entries.now)) result }
{
    match writes_of(alloc, names, entries) {
        Err(_) => ToolEnd::stopped(StreamFault::Memory),
        Ok(writes) => force_all(session, &writes, errors),
    }
}

/// The forced writes in their order.
fn writes_of<'a>(
    alloc: Global,
    names: &'a [Vec<u8>],
    entries: &'a [TextEntry],
) -> Result<Vec<ForcedWrite<'a>>, Memory>
    ensures { IfOk result (λ writes. map write_view writes.items
        ≡ map deletion (map (λ n. n.items) names.now) ++ flags_last (map entry_view entries.now)) }
{
    let mut writes = Vec::new(alloc);
    for name in names {
        writes.push(ForcedWrite {
            name,
            value: None,
            line: 0,
        })?;
    }
    push_entries(&mut writes, entries, false)?;
    push_entries(&mut writes, entries, true)?;
    Ok(writes)
}

/// Appends the entries named `.flags`, or those that aren't.
fn push_entries<'a>(
    writes: &mut Vec<ForcedWrite<'a>>,
    entries: &'a [TextEntry],
    flags: bool,
) -> Result<(), Memory>
    ensures { IfOk result (λ _. map write_view writes.new.items ≡ map write_view writes.old.items
        ++ flat_map (kept flags) (map entry_view entries.now)) }
{
    for entry in entries {
        push_entry(writes, entry, flags)?;
    }
    Ok(())
}

/// Appends an entry, if it is named `.flags`, or if it isn't.
fn push_entry<'a>(
    writes: &mut Vec<ForcedWrite<'a>>,
    entry: &'a TextEntry,
    flags: bool,
) -> Result<(), Memory>
    ensures { IfOk result (λ _. map write_view writes.new.items ≡ map write_view writes.old.items
        ++ kept flags (entry_view entry.now)) }
{
    if is_flags(entry) != flags {
        return Ok(());
    }
    writes.push(ForcedWrite {
        name: &entry.name,
        value: entry.value_bytes(),
        line: entry.line,
    })?;
    Ok(())
}

/// Whether an entry is named `.flags`.
fn is_flags(entry: &TextEntry) -> bool
    ensures { result ≡ is_flags (entry_view entry.now) }
{
    entry.name.as_slice() == FLAGS
}

/// The names of the variables, in memory of their own.
fn names_of(alloc: Global, vars: &Vars) -> Result<Vec<Vec<u8>>, Memory>
    ensures { IfOk result (λ names. map (λ n. n.items) names.items ≡ names_of vars.now.env) }
{
    let mut names = Vec::new(alloc);
    for (name, _value) in vars.iter() {
        names.push(Vec::from_slice(alloc, name)?)?;
    }
    Ok(names)
}

/// Takes these writes in their order, and saves; the first refusal ends it.
fn force_all<E: Write>(session: &mut Session, writes: &[ForcedWrite<'_>], errors: &mut E) -> ToolEnd
    ensures { Changes (record { session = session.old; errors = E.contents errors.old })
        (record { session = session.new; errors = E.contents errors.new })
        (forced_effect session.old (map write_view writes.now))
        (LacksMemoryToForce session.old (map write_view writes.now)) result }
{
    for write in writes {
        match force(session, write) {
            Err(_) => return ToolEnd::stopped(StreamFault::Memory),
            Ok(Some(refusal)) => return print_refusal(errors, refusal, write),
            Ok(None) => {}
        }
    }
    save(session)
}

/// A forced write, and what refuses it, if anything does.
fn force(session: &mut Session, write: &ForcedWrite<'_>) -> Result<Option<Refusal>, Memory>
    ensures refusal { IfOk result (λ r. r ≡ refusal_in session.old (write_view write.now).name (write_view write.now).value true) }
    ensures done { IfOk result (λ _. session.new ≡ write_done session.old (write_view write.now).name (write_view write.now).value true) }
    ensures unchanged { OnErr result (session.new ≡ session.old) }
    ensures growing { OnErr result (IsForcedChange session.old (write_view write.now)) }
{
    match session.write(write.name, write.value, true) {
        Ok(()) => Ok(None),
        Err(Refusal::Memory) => Err(Memory),
        Err(refusal) => Ok(Some(refusal)),
    }
}

/// Prints a refusal's text with the line of its entry, status 1.
fn print_refusal<E: Write>(errors: &mut E, refusal: Refusal, write: &ForcedWrite<'_>) -> ToolEnd
    ensures { PrintsText (E.contents errors.old) (E.contents errors.new) (text_in_line refusal (write_view write.now)) 1 result }
{
    if write_refusal(errors, refusal, write) {
        ToolEnd::done(1)
    } else {
        ToolEnd::stopped(StreamFault::Write)
    }
}

/// Writes a refusal's text with the line of its entry.
fn write_refusal<E: Write>(errors: &mut E, refusal: Refusal, write: &ForcedWrite<'_>) -> bool
    ensures { MatchBool result
        (Appends (E.contents errors.old) (E.contents errors.new) (text_in_line refusal (write_view write.now)))
        (AppendsPart (E.contents errors.old) (E.contents errors.new) (text_in_line refusal (write_view write.now))) }
{
    if !write_three(errors, refusal.before_name(), write.name, QUOTE_IN_LINE) {
        return false;
    }
    if !write_decimal(errors, write.line) {
        return false;
    }
    write_text(errors, NEWLINE)
}

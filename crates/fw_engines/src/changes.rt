//! The variables of a session, set and saved.
ghost use Rattle.std.specs.Prelude.{◌≡◌, ◌⊎◌, ◌<◌, ◌++◌, [], ◌∷◌, length, map, option_copied, false, IfOk, OnErr, IsTrue, Some, is_some, MatchBool, MatchOption};
ghost use Rattle.std.specs.Fmt.{decimal};
ghost use Rattle.std.specs.Io.KnownBytes.{Appends};
ghost use Rattle.env_session.specs.Requests.{IsChange, entry_in, imported, refusal_in, write_done};
ghost use Rattle.env_session.specs.Session.{last_saved, saved, side_of};
ghost use Rattle.envcfg_core.specs.Entries.{entry_view};
ghost use Rattle.envvars_core.specs.Refusals.{refusal_text};
ghost use Rattle.fw_engines.specs.Changes.{Changes, LacksMemory, LacksMemoryToImport, LacksMemoryToName, LacksMemoryToSet, count_status, count_text, import_effect, named_import_effect, pair_of, refused_line, refused_lines, script_effect, set_effect, text_in_line};
ghost use Rattle.fw_engines.specs.Streams.{AppendsPart};
ghost use Rattle.text_parts.specs.Words.{spaced};
ghost use Rattle.fw_engines.specs.Tool.{PrintsText};

use crate::copy_words::push_all;
use crate::streams::{write_decimal, write_text, write_three};
use crate::tool_end::{StreamFault, ToolEnd};
use crate::tool_texts::{ENTRIES_REFUSED, ERROR, NEWLINE, QUOTE_IN_LINE};
use env_session::{ImportEnding, Session};
use envcfg_core::TextEntry;
use envvars_core::{Memory, Refusal};
use itoa::Buffer;
use std::alloc::Global;
use std::io::Write;
use text_parts::joined;

/// Writes the words, joined by one space, as the value of a name, and saves; without words the variable is deleted. The
/// write is unforced. An accepted one is saved even if it changed nothing; a refused one prints its text on `errors`,
/// status 1, and nothing is saved.
///
/// At the fault `Memory` nothing is printed, no copy has changed, and the write may have been done. This is possible if
/// several words are joined, or if no check refuses the write.
pub fn setenv<E: Write>(
    alloc: Global,
    session: &mut Session,
    name: &[u8],
    words: &[&[u8]],
    errors: &mut E,
) -> ToolEnd
    ensures { Changes (record { session = session.old; errors = E.contents errors.old })
        (record { session = session.new; errors = E.contents errors.new })
        (set_effect session.old name.now (spaced (map (λ w. w.now) words.now)))
        (LacksMemoryToSet session.old name.now (map (λ w. w.now) words.now)) result }
{
    if words.is_empty() {
        return set_value(session, name, b"", errors);
    }
    if words.len() == 1 {
        return set_value(session, name, words[0], errors);
    }
    match joined(alloc, words.iter().copied()) {
        Err(_) => ToolEnd::stopped(StreamFault::Memory),
        Ok(value) => set_value(session, name, &value, errors),
    }
}

/// Takes the lines of a set script in their order as unforced writes, and saves once at the end, even if there is no
/// line. The first refusal ends it: its text is printed on `errors`, status 1, nothing is saved, and the lines before it
/// stay written in the session's variables.
///
/// At the fault `Memory` nothing is printed, no copy has changed, and a prefix of the lines is done, none of which is
/// refused; nor is the next, if there is one.
pub fn set_script<E: Write>(session: &mut Session, entries: &[TextEntry], errors: &mut E) -> ToolEnd
    ensures { Changes (record { session = session.old; errors = E.contents errors.old })
        (record { session = session.new; errors = E.contents errors.new })
        (script_effect session.old (map entry_in entries.now)) (LacksMemory session.old (map entry_in entries.now) 0) result }
{
    for entry in entries {
        match write_entry(session, entry) {
            Err(_) => return ToolEnd::stopped(StreamFault::Memory),
            Ok(Some(refusal)) => return print_refusal(errors, refusal, &entry.name),
            Ok(None) => {}
        }
    }
    save(session)
}

/// Takes each entry in its order as an unforced write, saves, and prints on `errors` how many were refused, if any
/// were; the status is then 1.
///
/// At the fault `Memory` nothing is printed, no copy has changed, and a prefix of the entries is done; the next, if
/// there is one, is not refused.
pub fn import<E: Write>(session: &mut Session, entries: &[TextEntry], errors: &mut E) -> ToolEnd
    ensures { Changes (record { session = session.old; errors = E.contents errors.old })
        (record { session = session.new; errors = E.contents errors.new })
        (import_effect session.old (map entry_in entries.now)) (LacksMemoryToImport session.old (map entry_in entries.now)) result }
{
    let report = session.import(entries);
    match report.ending {
        ImportEnding::Memory => ToolEnd::stopped(StreamFault::Memory),
        ImportEnding::Done => match session.save() {
            Err(_) => ToolEnd::stopped(StreamFault::Memory),
            Ok(_side) => print_refused(errors, b"", report.refused),
        },
    }
}

/// The same, and before the count the text of each refusal is printed, with the line of its entry.
///
/// At the fault `Memory` nothing is printed, no copy has changed, and a prefix of the entries is done.
pub fn import_named<E: Write>(
    alloc: Global,
    session: &mut Session,
    entries: &[TextEntry],
    errors: &mut E,
) -> ToolEnd
    ensures { Changes (record { session = session.old; errors = E.contents errors.old })
        (record { session = session.new; errors = E.contents errors.new })
        (named_import_effect session.old (map entry_view entries.now))
        (LacksMemoryToName session.old (map pair_of (map entry_view entries.now))) result }
{
    let mut lines = Vec::new(alloc);
    match import_all(session, entries, &mut lines) {
        Err(_) => ToolEnd::stopped(StreamFault::Memory),
        Ok(refused) => match session.save() {
            Err(_) => ToolEnd::stopped(StreamFault::Memory),
            Ok(_side) => print_refused(errors, &lines, refused),
        },
    }
}

/// Takes each entry in its order as an unforced write, appends a line for each that is refused, and answers how many
/// those are.
fn import_all(
    session: &mut Session,
    entries: &[TextEntry],
    lines: &mut Vec<u8>,
) -> Result<usize, Memory>
    ensures done { IfOk result (λ refused. (session.new, refused) ≡ imported session.old (map entry_in entries.now)) }
    ensures lines { IfOk result (λ _. lines.new.items ≡ lines.old.items ++ refused_lines session.old (map entry_view entries.now)) }
    ensures lacking { OnErr result (LacksMemoryToName session.old (map entry_in entries.now) session.new) }
{
    let mut refused = 0;
    for entry in entries {
        match import_entry(session, entry, lines) {
            Ok(no) => refused += usize::from(no),
            Err(Memory) => return Err(Memory),
        }
    }
    Ok(refused)
}

/// Takes one entry as an unforced write, appends its line if it is refused, and answers whether it is.
fn import_entry(
    session: &mut Session,
    entry: &TextEntry,
    lines: &mut Vec<u8>,
) -> Result<bool, Memory>
    ensures refused { IfOk result (λ no. no ≡ is_some (refusal_in session.old (entry_in entry.now).0 (entry_in entry.now).1 false)) }
    ensures done { IfOk result (λ _. session.new ≡ write_done session.old (entry_in entry.now).0 (entry_in entry.now).1 false) }
    ensures line { IfOk result (λ _. lines.new.items ≡ lines.old.items
        ++ refused_line (refusal_in session.old (entry_in entry.now).0 (entry_in entry.now).1 false) (entry_view entry.now)) }
    ensures unchanged { OnErr result (session.new ≡ session.old) }
    ensures lacking { OnErr result (IsChange session.old (entry_in entry.now)
        ⊎ IsTrue (is_some (refusal_in session.old (entry_in entry.now).0 (entry_in entry.now).1 false))) }
{
    match write_entry(session, entry) {
        Ok(None) => Ok(false),
        Ok(Some(refusal)) => match push_refusal(lines, refusal, entry) {
            Ok(()) => Ok(true),
            Err(Memory) => Err(Memory),
        },
        Err(Memory) => Err(Memory),
    }
}

/// Appends a refusal's text with the line of its entry.
fn push_refusal(lines: &mut Vec<u8>, refusal: Refusal, entry: &TextEntry) -> Result<(), Memory>
    ensures { IfOk result (λ _. lines.new.items ≡ lines.old.items ++ text_in_line refusal (entry_view entry.now)) }
{
    let mut digits = Buffer::new();
    push_all(lines, &[refusal.before_name()])?;
    push_all(
        lines,
        &[
            entry.name.as_slice(),
            QUOTE_IN_LINE,
            digits.format(entry.line).as_bytes(),
            NEWLINE,
        ],
    )
}

/// Writes a value and saves.
fn set_value<E: Write>(session: &mut Session, name: &[u8], value: &[u8], errors: &mut E) -> ToolEnd
    ensures { Changes (record { session = session.old; errors = E.contents errors.old })
        (record { session = session.new; errors = E.contents errors.new }) (set_effect session.old name.now value.now)
        (LacksMemory session.old ((name.now, Some value.now) ∷ []) 0) result }
{
    match write(session, name, Some(value)) {
        Err(_) => ToolEnd::stopped(StreamFault::Memory),
        Ok(Some(refusal)) => print_refusal(errors, refusal, name),
        Ok(None) => save(session),
    }
}

/// An unforced write, and what refuses it, if anything does.
fn write(session: &mut Session, name: &[u8], new: Option<&[u8]>) -> Result<Option<Refusal>, Memory>
    ensures refusal { IfOk result (λ r. r ≡ refusal_in session.old name.now (option_copied new.entry) false) }
    ensures done { IfOk result (λ _. session.new ≡ write_done session.old name.now (option_copied new.entry) false) }
    ensures unchanged { OnErr result (session.new ≡ session.old) }
    ensures growing { OnErr result (IsChange session.old (name.now, option_copied new.entry)) }
{
    match session.write(name, new, false) {
        Ok(()) => Ok(None),
        Err(Refusal::Memory) => Err(Memory),
        Err(refusal) => Ok(Some(refusal)),
    }
}

/// One entry as an unforced write, and what refuses it, if anything does.
fn write_entry(session: &mut Session, entry: &TextEntry) -> Result<Option<Refusal>, Memory>
    ensures refusal { IfOk result (λ r. r ≡ refusal_in session.old (entry_in entry.now).0 (entry_in entry.now).1 false) }
    ensures done { IfOk result (λ _. session.new ≡ write_done session.old (entry_in entry.now).0 (entry_in entry.now).1 false) }
    ensures unchanged { OnErr result (session.new ≡ session.old) }
    ensures growing { OnErr result (IsChange session.old (entry_in entry.now)) }
{
    // A match although the answer alone would do: it has the prover look at the two outcomes separately.
    match write(session, &entry.name, entry.value_bytes()) {
        Ok(refusal) => Ok(refusal),
        Err(Memory) => Err(Memory),
    }
}

/// Saves, and prints nothing.
pub(crate) fn save(session: &mut Session) -> ToolEnd
    ensures { MatchOption result.fault ((session.new ≡ saved session.old) × (result.status ≡ 0))
        (λ fault. (fault ≡ StreamFault.Memory) × (session.new ≡ session.old)
        × (last_saved (side_of session.old) session.old.marks ≡ false) × (result.status ≡ 1)) }
{
    match session.save() {
        Err(_) => ToolEnd::stopped(StreamFault::Memory),
        Ok(_side) => ToolEnd::done(0),
    }
}

/// Prints a refusal's text, status 1.
fn print_refusal<E: Write>(errors: &mut E, refusal: Refusal, name: &[u8]) -> ToolEnd
    ensures { PrintsText (E.contents errors.old) (E.contents errors.new) (refusal_text refusal name.now) 1 result }
{
    if write_three(errors, refusal.before_name(), name, refusal.after_name()) {
        ToolEnd::done(1)
    } else {
        ToolEnd::stopped(StreamFault::Write)
    }
}

/// Prints these lines about refused entries and how many there are, if any were refused; the status is then 1.
fn print_refused<E: Write>(errors: &mut E, lines: &[u8], refused: usize) -> ToolEnd
    ensures { PrintsText (E.contents errors.old) (E.contents errors.new) (lines.now ++ count_text refused) (count_status refused) result }
{
    if !write_text(errors, lines) {
        return ToolEnd::stopped(StreamFault::Write);
    }
    if refused == 0 {
        return ToolEnd::done(0);
    }
    if write_count(errors, refused) {
        ToolEnd::done(1)
    } else {
        ToolEnd::stopped(StreamFault::Write)
    }
}

/// Writes how many entries were refused.
fn write_count<E: Write>(errors: &mut E, refused: usize) -> bool
    requires { 0 < refused }
    ensures { MatchBool result (Appends (E.contents errors.old) (E.contents errors.new) (count_text refused))
        (AppendsPart (E.contents errors.old) (E.contents errors.new) (count_text refused)) }
{
    if !write_text(errors, ERROR) {
        return false;
    }
    if !write_decimal(errors, refused) {
        return false;
    }
    write_text(errors, ENTRIES_REFUSED)
}

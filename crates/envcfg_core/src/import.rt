//! The text for import. What a text is read as is defined by the steps of a reader (`specs/Import.antt`); the law
//! `spelled_texts_are_read` says that entries are read back from any of their spellings (`specs/Spelling.antt`).
ghost use Rattle.std.specs.Prelude.{◌≡◌, ◌+◌, ◌^◌, ◌<◌, ◌≤◌, length, map, IfOk, IfErr, Ok, false};
ghost use Rattle.std.specs.List.{position_or_len, after_first};
ghost use Rattle.envcfg_core.specs.Entries.{entry_view, with_first, IsFaultOf};
ghost use Rattle.text_parts.specs.Bytes.{begins, is_newline};
ghost use Rattle.envcfg_core.specs.Import.{import_of, ends_name, entries_from, is_skipped};

use crate::entry::{TextEntry, TextFault, some_unless_empty};
use crate::spelled::read_behind_name;
use memchr::{memchr, memchr2};
use std::alloc::Global;
use text_parts::contains_byte;

/// What is left of a text, and the line in which it begins.
#[derive(Clone, Copy)]
struct Rest<'a> {
    text: &'a [u8],
    line: usize,
}

/// Reads a text for import: entries `name=value`, one in a line, in which `\` makes the next byte of a value
/// literal (docs/texts.md, "Text for import and export").
///
/// `Nul` if there is a 0 byte anywhere, else `EmptyName` with the line of the first entry that has no name;
/// `Memory` if a growth was refused.
pub fn parse_import(alloc: Global, text: &[u8]) -> Result<Vec<TextEntry>, TextFault>
    ensures read { IfOk result (λ entries. import_of text.now ≡ Ok (map entry_view entries.items)) }
    ensures refused { IfErr result (IsFaultOf (import_of text.now)) }
{
    if contains_byte(0, text) {
        return Err(TextFault::Nul);
    }
    let mut entries = Vec::new(alloc);
    let mut rest = skip_to_entry(Rest { text, line: 1 });
    while !rest.text.is_empty() {
        let (entry, behind) = read_entry(alloc, rest)?;
        entries.push(entry)?;
        rest = skip_to_entry(behind);
    }
    Ok(entries)
}

/// Reads the entry at the front of the text, and returns what follows it too.
fn read_entry(alloc: Global, rest: Rest<'_>) -> Result<(TextEntry, Rest<'_>), TextFault>
    requires place { begins is_skipped rest.text.now ≡ false }
    requires some { 0 < length rest.text.now }
    requires fits { rest.line + length rest.text.now < 2 ^ 64 }
    ensures read { IfOk result (λ found. entries_from rest.entry.line rest.entry.text.now
        ≡ with_first (entry_view found.0) (entries_from found.1.line found.1.text.now)) }
    ensures within { IfOk result (λ found. found.1.line + length found.1.text.now ≤ rest.entry.line + length rest.entry.text.now) }
    ensures shorter { IfOk result (λ found. length found.1.text.now < length rest.entry.text.now) }
    ensures refused { IfErr result (IsFaultOf (entries_from rest.entry.line rest.entry.text.now)) }
{
    let (name, behind) = rest.text.split_at(name_len(rest.text));
    if name.is_empty() {
        return Err(TextFault::EmptyName(rest.line));
    }
    let name = Vec::from_slice(alloc, name)?;
    let value = read_behind_name(alloc, behind)?;
    let follows = Rest {
        text: value.rest,
        line: rest.line + value.newlines,
    };
    let value = some_unless_empty(value.bytes);
    Ok((
        TextEntry {
            name,
            value,
            line: rest.line,
        },
        follows,
    ))
}

/// How many bytes a name at the front of the text has: those before the first `=` or newline.
fn name_len(text: &[u8]) -> usize
    ensures value { result ≡ position_or_len ends_name text.now }
    ensures within { result ≤ length text.now }
{
    memchr2(b'=', b'\n', text).unwrap_or(text.len())
}

/// Skips the blanks, newlines and comments at an entry's place.
fn skip_to_entry(place: Rest<'_>) -> Rest<'_>
    requires { place.line + length place.text.now < 2 ^ 64 }
    ensures same { entries_from place.entry.line place.entry.text.now ≡ entries_from result.line result.text.now }
    ensures reached { begins is_skipped result.text.now ≡ false }
    ensures within { result.line + length result.text.now ≤ place.entry.line + length place.entry.text.now }
    ensures no_longer { length result.text.now ≤ length place.entry.text.now }
{
    let mut rest = place;
    while let Some((first, others)) = rest.text.split_first() {
        rest = match *first {
            b' ' | b'\t' => Rest {
                text: others,
                line: rest.line,
            },
            b'\n' => Rest {
                text: others,
                line: rest.line + 1,
            },
            b'#' => Rest {
                text: after_line(others),
                line: rest.line + 1,
            },
            _ => return rest,
        };
    }
    rest
}

/// What is after the first newline, or nothing if there is no newline.
fn after_line(text: &[u8]) -> &[u8]
    ensures rest { result.now ≡ after_first is_newline text.now }
    ensures shorter { length result.now ≤ length text.now }
{
    match memchr(b'\n', text) {
        Some(at) => &text[at + 1..],
        None => &[],
    }
}

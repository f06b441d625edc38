//! The set script.
ghost use Rattle.std.specs.Prelude.{◌≡◌, map, option_map, IfOk, IfErr, Ok};
ghost use Rattle.std.specs.List.{before_first, after_first};
ghost use Rattle.envcfg_core.specs.Entries.{entry_view, IsFaultOf};
ghost use Rattle.envcfg_core.specs.SetScript.{set_script_of, line_outcome, is_skipped_line, ends_key};

use crate::entry::{TextEntry, TextFault, some_unless_empty};
use memchr::memchr3;
use std::alloc::Global;
use text_parts::{
    begins_with_byte, contains_byte, numbered_lines, strip_carriage_return, without_blanks,
};

/// Reads a set script: in each line a key, blanks or `=`, and a value (docs/texts.md, "Set scripts").
///
/// `Nul` if there is a 0 byte anywhere, else `EmptyName` with the first line that has no key; `Memory` if a
/// growth was refused.
pub fn parse_set_script(alloc: Global, text: &[u8]) -> Result<Vec<TextEntry>, TextFault>
    ensures read { IfOk result (λ entries. set_script_of text.now ≡ Ok (map entry_view entries.items)) }
    ensures refused { IfErr result (IsFaultOf (set_script_of text.now)) }
{
    if contains_byte(0, text) {
        return Err(TextFault::Nul);
    }
    let mut entries = Vec::new(alloc);
    for (number, line) in numbered_lines(text) {
        if let Some(entry) = read_line(alloc, number, strip_carriage_return(line))? {
            entries.push(entry)?;
        }
    }
    Ok(entries)
}

/// Reads a line, or skips it.
fn read_line(alloc: Global, number: usize, line: &[u8]) -> Result<Option<TextEntry>, TextFault>
    ensures read { IfOk result (λ found. line_outcome number line.now ≡ Ok (option_map entry_view found)) }
    ensures refused { IfErr result (IsFaultOf (line_outcome number line.now)) }
{
    if is_skipped_line(line) {
        return Ok(None);
    }
    let (key, value) = cut_key(without_blanks(line));
    if key.is_empty() {
        return Err(TextFault::EmptyName(number));
    }
    let name = Vec::from_slice(alloc, key)?;
    let value = Vec::from_slice(alloc, without_blanks(value))?;
    let value = some_unless_empty(value);
    Ok(Some(TextEntry {
        name,
        value,
        line: number,
    }))
}

/// Whether the line is empty, blanks alone or a comment.
fn is_skipped_line(line: &[u8]) -> bool
    ensures { result ≡ is_skipped_line line.now }
{
    begins_with_byte(b'#', line) || without_blanks(line).is_empty()
}

/// Cuts a line at the first blank or `=`.
fn cut_key(line: &[u8]) -> (&[u8], &[u8])
    ensures key { result.0.now ≡ before_first ends_key line.now }
    ensures value { result.1.now ≡ after_first ends_key line.now }
{
    match memchr3(b' ', b'\t', b'=', line) {
        Some(at) => (&line[..at], &line[at + 1..]),
        None => (line, &[]),
    }
}

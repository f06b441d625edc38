//! The lines of a configuration that count.
ghost use Rattle.std.specs.Prelude.{◌≡◌, ◌∷◌, [], length, MatchOption, option_map, false};
ghost use Rattle.envcfg_core.specs.ConfigSteps.{candidate_view};
ghost use Rattle.text_parts.specs.Bytes.{begins};
ghost use Rattle.envcfg_core.specs.Config.{accepted_line, fields, is_space};

use crate::offsets::{copy_size, read_offset, read_size};
use memchr::memchr3;
use text_parts::begins_with_byte;

/// A line with three readable fields.
#[derive(Clone, Copy)]
pub(crate) struct Candidate<'a> {
    /// The line's number, counted from 1.
    pub(crate) line: usize,
    /// The bytes of the device's path.
    pub(crate) device: &'a [u8],
    /// The offset, as `Place` has it.
    pub(crate) offset: i64,
    /// The size, or no value if no image may have it.
    pub(crate) size: Option<u32>,
}

/// Reads a line, or skips it: a comment, or a line without three readable fields.
pub(crate) fn accept_line(number: usize, line: &[u8]) -> Option<Candidate<'_>>
    ensures { option_map candidate_view result ≡ accepted_line (number, line.now) }
{
    if begins_with_byte(b'#', line) {
        return None;
    }
    let (device, rest) = next_field(line)?;
    let (offset, rest) = next_field(rest)?;
    let (size, _) = next_field(rest)?;
    let offset = read_offset(offset)?;
    let size = copy_size(read_size(size)?);
    Some(Candidate {
        line: number,
        device,
        offset,
        size,
    })
}

/// The first field of a line, and what follows it.
fn next_field(text: &[u8]) -> Option<(&[u8], &[u8])>
    ensures { MatchOption result (fields text.now ≡ []) (λ found. fields text.now ≡ found.0.now ∷ fields found.1.now) }
{
    let text = skip_spaces(text);
    if text.is_empty() {
        return None;
    }
    match memchr3(b' ', b'\t', b'\r', text) {
        Some(at) => Some((&text[..at], &text[at + 1..])),
        None => Some((text, &[])),
    }
}

/// The text without the spaces, tabs and carriage returns at its start.
fn skip_spaces(text: &[u8]) -> &[u8]
    ensures same { fields result.now ≡ fields text.now }
    ensures reached { begins is_space result.now ≡ false }
{
    let mut rest = text;
    while let Some((first, others)) = rest.split_first() {
        if *first != b' ' && *first != b'\t' && *first != b'\r' {
            return rest;
        }
        rest = others;
    }
    rest
}

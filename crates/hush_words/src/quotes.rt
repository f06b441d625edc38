//! Pairs of quotes (docs/scripts.md, "Words").

ghost use Rattle.std.specs.Prelude.{◌+◌, Some};
ghost use Rattle.hush_words.specs.Bytes.{double_quote, single_quote, backslash};
ghost use Rattle.hush_words.specs.Ranges.{IsShort};
ghost use Rattle.hush_words.specs.Steps.{StandsAt, ReadsInner, ReadsPiece, FitsInner};

use crate::classes::{Class, byte_at, is_escaped, place_of, run_end, stands_at};
use crate::dollars::{byte_part, dollar};
use crate::reads::InnerRead;
use crate::{Fault, FaultKind, Part, Span};

/// Where a pair of single quotes ends that opens at the place.
pub(crate) fn single(source: &[u8], place: usize) -> Result<usize, Fault>
    requires few { IsShort source.now }
    requires here { StandsAt source.now place single_quote }
    ensures { ReadsPiece source.now place result }
{
    let end = place_of(b'\'', source, place + 1);
    if end == source.len() {
        return Err(Fault {
            kind: FaultKind::Quote,
            place,
        });
    }
    Ok(end + 1)
}

/// Where a pair of double quotes ends that opens at the place.
pub(crate) fn double(source: &[u8], place: usize) -> Result<usize, Fault>
    requires few { IsShort source.now }
    requires here { StandsAt source.now place double_quote }
    ensures { ReadsPiece source.now place result }
{
    let mut at = place + 1;
    while let Some(read) = inner(source, at) {
        at = read.end;
    }
    if stands_at(source, at, b'"') {
        Ok(at + 1)
    } else if at < source.len() {
        Err(Fault {
            kind: FaultKind::Substitution,
            place: at,
        })
    } else {
        Err(Fault {
            kind: FaultKind::Quote,
            place,
        })
    }
}

/// Reads what is at the place between double quotes; `None` if nothing can be.
pub(crate) fn inner(source: &[u8], at: usize) -> Option<InnerRead>
    requires few { IsShort source.now }
    ensures reads { ReadsInner source.now at result }
    ensures fits { FitsInner source.now result }
{
    match byte_at(source, at) {
        Some(first) => inner_from(source, at, first),
        None => None,
    }
}

/// Reads what begins with this byte between double quotes.
fn inner_from(source: &[u8], at: usize, first: u8) -> Option<InnerRead>
    requires few { IsShort source.now }
    requires here { StandsAt source.now at first }
    ensures reads { ReadsInner source.now at result }
    ensures fits { FitsInner source.now result }
{
    if first == b'$' {
        match dollar(source, at, true) {
            Some(read) => Some(InnerRead {
                part: Some(read.part),
                end: read.end,
            }),
            None => None,
        }
    } else if first == b'\\' {
        Some(backslash(source, at))
    } else if first == b'"' {
        None
    } else {
        let end = run_end(Class::Inner, source, at);
        Some(InnerRead {
            part: Some(Part::Quoted(Span::new(at, end))),
            end,
        })
    }
}

/// Reads a `\` between double quotes, and the byte after it if it vanishes before that.
fn backslash(source: &[u8], at: usize) -> InnerRead
    requires few { IsShort source.now }
    requires here { StandsAt source.now at backslash }
    ensures reads { ReadsInner source.now at (Some result) }
    ensures fits { FitsInner source.now (Some result) }
{
    match byte_at(source, at + 1) {
        Some(next) => backslash_before(source, at, next),
        None => InnerRead {
            part: Some(byte_part(at, true).part),
            end: at + 1,
        },
    }
}

/// Reads a `\` between double quotes before this byte.
fn backslash_before(source: &[u8], at: usize, next: u8) -> InnerRead
    requires few { IsShort source.now }
    requires backslash { StandsAt source.now at backslash }
    requires next { StandsAt source.now (at + 1) next }
    ensures reads { ReadsInner source.now at (Some result) }
    ensures fits { FitsInner source.now (Some result) }
{
    let start = at + 1;
    if is_escaped(next) {
        InnerRead {
            part: Some(byte_part(start, true).part),
            end: start + 1,
        }
    } else if next == b'\n' {
        InnerRead {
            part: None,
            end: start + 1,
        }
    } else {
        InnerRead {
            part: Some(byte_part(at, true).part),
            end: start,
        }
    }
}

//! A line of a stand-in file.
ghost use Rattle.std.specs.Prelude.{◌≡◌, [], ◌∷◌, MatchOption};
ghost use Rattle.std.specs.Str.Lines.{strip_carriage_return};
ghost use Rattle.hush_commands.specs.Statuses.{status_of};
ghost use Rattle.hush_commands.specs.StandInLines.{line_view, read_line, rest_status, words_of};

use crate::builtins::Builtin;
use memchr::memchr2;
use std::alloc::{AllocError, AllocFailed};
use text_parts::{
    Base, begins_with_byte, contains_byte, numeral, strip_carriage_return, without_blanks,
};
use thiserror::Error;

/// Why a stand-in file is refused (docs/runs.md, "Stand-ins"). Lines count from 1.
#[derive(Clone, Copy, Debug, PartialEq, Eq, Error)]
pub enum StubFault {
    /// The line isn't a name and perhaps a status, or it holds a 0 byte.
    #[error("Line in line {0}")]
    Line(usize),
    /// The name is that of a builtin.
    #[error("Builtin in line {0}")]
    Builtin(usize),
    /// An earlier line has the name.
    #[error("Twice in line {0}")]
    Twice(usize),
    /// A growth was refused.
    #[error("Memory")]
    Memory,
}

impl From<AllocError> for StubFault {
    ghost use Rattle.hush_commands.specs.declared.stand_in_line.StubFault.TheVariants.{Memory};

    ghost from_gives = { λ _ fault. fault ≡ Memory };

    fn from(_refused: AllocError) -> StubFault {
        StubFault::Memory
    }
}

impl<T: Drop> From<AllocFailed<T>> for StubFault {
    ghost use Rattle.hush_commands.specs.declared.stand_in_line.StubFault.TheVariants.{Memory};

    ghost from_gives = { λ _ fault. fault ≡ Memory };

    fn from(_refused: AllocFailed<T>) -> StubFault {
        StubFault::Memory
    }
}

/// Reads a line: the name of a stand-in and its status, 0 if none is given; nothing if it is empty, blanks
/// alone or a comment.
pub(crate) fn read_line(number: usize, line: &[u8]) -> Result<Option<(&[u8], u8)>, StubFault>
    ensures { line_view result ≡ read_line number (strip_carriage_return line.now) }
{
    let line = strip_carriage_return(line);
    if contains_byte(0, line) {
        return Err(StubFault::Line(number));
    }
    if begins_with_byte(b'#', line) {
        return Ok(None);
    }
    match first_word(line) {
        Some((name, rest)) => match read_rest(rest) {
            Some(_) if Builtin::of(name).is_some() => Err(StubFault::Builtin(number)),
            Some(status) => Ok(Some((name, status))),
            None => Err(StubFault::Line(number)),
        },
        None => Ok(None),
    }
}

/// Reads what is after a name: a status or nothing, which is 0; `None` if it is anything else.
fn read_rest(rest: &[u8]) -> Option<u8>
    ensures { result ≡ rest_status (words_of rest.now) }
{
    match first_word(rest) {
        Some((digits, behind)) => match first_word(behind) {
            Some(_) => None,
            None => read_status(digits),
        },
        None => Some(0),
    }
}

/// Reads a status: decimal digits, one or more, that spell 0 to 255; leading zeros are fine.
pub(crate) fn read_status(text: &[u8]) -> Option<u8>
    ensures { result ≡ status_of text.now }
{
    let status = numeral(Base::Decimal, text, 256)?;
    if status > 255 {
        return None;
    }
    Some(status as u8)
}

/// The first word of a line, and what follows it.
fn first_word(line: &[u8]) -> Option<(&[u8], &[u8])>
    ensures { MatchOption result (words_of line.now ≡ [])
        (λ found. words_of line.now ≡ found.0.now ∷ words_of found.1.now) }
{
    let text = without_blanks(line);
    if text.is_empty() {
        return None;
    }
    match memchr2(b' ', b'\t', text) {
        Some(at) => Some((&text[..at], &text[at + 1..])),
        None => Some((text, &[])),
    }
}

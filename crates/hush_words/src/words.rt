//! Words, one piece after the other (docs/scripts.md, "Words").

ghost use Rattle.std.specs.Prelude.{◌≡◌, ◌+◌, ◌&&◌, not, true, false, drop, IfOk, IfSome};
ghost use Rattle.hush_words.specs.Bytes.{newline, hash, dollar, backslash};
ghost use Rattle.hush_words.specs.Words.{ends_word, is_special, is_bare, next};
ghost use Rattle.hush_words.specs.Ranges.{IsShort};
ghost use Rattle.hush_words.specs.Views.{BeginsAt};
ghost use Rattle.hush_words.specs.Steps.{StandsAt, ReadsPiece, ReadsPieces, EndsPlain, ReadsLexeme, begins};

use crate::classes::{Class, byte_at, ends_word, is_special, run_end};
use crate::dollars::dollar;
use crate::quotes::{double, single};
use crate::reads::LexemeRead;
use crate::{Fault, FaultKind, TokenKind, Word};

/// Reads a word, which opens with this byte.
#[inline(always)]
pub(crate) fn word(source: &[u8], start: usize, first: u8) -> Result<LexemeRead, Fault>
    requires few { IsShort source.now }
    requires here { StandsAt source.now start first }
    requires inside { ends_word first ≡ false }
    requires no_comment { first ≡ hash → ⊥ }
    requires no_line { begins backslash (drop start source.now) && begins newline (drop (start + 1) source.now) ≡ false }
    ensures reads { ReadsLexeme source.now start result }
    ensures starts { IfOk result (λ r. IfSome r.kind (BeginsAt start)) }
{
    let mut at = run_end(Class::Plain, source, start);
    while let Some(end) = special_pieces(source, at)? {
        at = end;
    }
    Ok(LexemeRead {
        kind: Some(TokenKind::Word(Word::new(start, at))),
        end: at,
    })
}

/// Where the plain bytes after the piece at the place end; `None` if the word ends at the place.
fn special_pieces(source: &[u8], at: usize) -> Result<Option<usize>, Fault>
    requires few { IsShort source.now }
    requires behind { next (λ b. not (is_bare b)) (drop at source.now) ≡ true }
    ensures reads { ReadsPieces source.now at result }
    ensures plain { EndsPlain source.now result }
{
    match byte_at(source, at) {
        Some(first) => special_pieces_from(source, at, first),
        None => Ok(None),
    }
}

/// The same if this byte is at the place.
fn special_pieces_from(source: &[u8], at: usize, first: u8) -> Result<Option<usize>, Fault>
    requires few { IsShort source.now }
    requires here { StandsAt source.now at first }
    requires behind { is_bare first ≡ false }
    ensures reads { ReadsPieces source.now at result }
    ensures plain { EndsPlain source.now result }
{
    if ends_word(first) {
        return Ok(None);
    }
    let end = piece(source, at, first)?;
    Ok(Some(run_end(Class::Plain, source, end)))
}

/// The end of the piece that begins with this byte, one of `$`, `\` and the quotes.
pub(crate) fn piece(source: &[u8], at: usize, first: u8) -> Result<usize, Fault>
    requires few { IsShort source.now }
    requires here { StandsAt source.now at first }
    requires special { is_special first ≡ true }
    ensures { ReadsPiece source.now at result }
{
    if first == b'$' {
        dollar_piece(source, at)
    } else if first == b'\\' {
        backslash(source, at)
    } else if first == b'\'' {
        single(source, at)
    } else {
        double(source, at)
    }
}

/// The end of what an unquoted `$` begins.
fn dollar_piece(source: &[u8], at: usize) -> Result<usize, Fault>
    requires few { IsShort source.now }
    requires here { StandsAt source.now at dollar }
    ensures { ReadsPiece source.now at result }
{
    match dollar(source, at, false) {
        Some(read) => Ok(read.end),
        None => Err(Fault {
            kind: FaultKind::Substitution,
            place: at,
        }),
    }
}

/// The end of an unquoted `\` and the byte after it.
fn backslash(source: &[u8], at: usize) -> Result<usize, Fault>
    requires few { IsShort source.now }
    requires here { StandsAt source.now at backslash }
    ensures { ReadsPiece source.now at result }
{
    match byte_at(source, at + 1) {
        Some(_) => Ok(at + 2),
        None => Err(Fault {
            kind: FaultKind::Backslash,
            place: at,
        }),
    }
}

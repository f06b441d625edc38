//! How a text begins and ends, what is in it, and words joined to a text.
ghost use Rattle.std.specs.Prelude.{◌≡◌, ℕ, List, Some, map, IfOk, OnErr};
ghost use Rattle.std.specs.Borrow.{Bor};
ghost use Rattle.std.specs.Iterator.{Drains, IsFinite};
ghost use Rattle.std.specs.List.{list_any};
ghost use Rattle.std.specs.Str.Lines.{strip_carriage_return};
ghost use Rattle.memchr.specs.Find.{is_byte};
ghost use Rattle.text_parts.specs.Bytes.{begins_with, without_blanks};
ghost use Rattle.text_parts.specs.Words.{spaced, texts};

use memchr::memchr;
use std::alloc::{AllocError, Global};

/// Whether the byte is in the text.
pub fn contains_byte(byte: u8, text: &[u8]) -> bool
    ensures { result ≡ list_any (is_byte byte) text.now }
{
    memchr(byte, text).is_some()
}

/// Whether the text begins with the byte.
pub fn begins_with_byte(byte: u8, text: &[u8]) -> bool
    ensures { result ≡ begins_with byte text.now }
{
    match text.split_first() {
        Some((first, _)) => *first == byte,
        None => false,
    }
}

/// The text without the spaces and tabs at its front.
pub fn without_blanks(text: &[u8]) -> &[u8]
    ensures { result.now ≡ without_blanks text.now }
{
    let mut rest = text;
    while let Some((first, others)) = rest.split_first() {
        if *first != b' ' && *first != b'\t' {
            return rest;
        }
        rest = others;
    }
    rest
}

/// The line without the one carriage return at its end, if it has one.
pub fn strip_carriage_return(line: &[u8]) -> &[u8]
    ensures { result.now ≡ strip_carriage_return line.now }
{
    match line.split_last() {
        Some((last, front)) if *last == b'\r' => front,
        _ => line,
    }
}

/// Words joined by one space, in memory of their own; without words nothing is taken.
pub fn joined<'a, I: Iterator<Item = &'a [u8]> + Drop>(
    alloc: Global,
    words: I,
) -> Result<Vec<u8>, AllocError>
    requires can { I.can_next words }
    requires ends { IsFinite (I.remaining words) }
    ensures joined { IfOk result (λ text. (ws : List (Bor (List ℕ))) × Drains I.next_gives words ws × (text.items ≡ spaced (texts ws))) }
{
    let mut text = Vec::new(alloc);
    let mut is_first = true;
    for word in words {
        if !is_first {
            text.push(b' ')?;
        }
        text.extend_from_slice(word)?;
        is_first = false;
    }
    Ok(text)
}

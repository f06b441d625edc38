//! What a block or a dot line asks for, and what each dot line does.
ghost use Rattle.std.specs.Prelude.{◌≡◌, take, drop};
ghost use Rattle.fw_session.specs.Asked.{asked_by_line, asked_by_word, asked_with_name, is_end_blank};
ghost use Rattle.fw_session.specs.Views.{asked_view};

use crate::mark_names::{Name, name_in};
use env_requests::Request;

/// What a block or a dot line asks for.
#[derive(Drop)]
pub(crate) enum Asked {
    /// Nothing is asked for, and this is printed.
    Text(&'static [u8]),
    /// A request, and the name of the mark if it makes one.
    Request(Request, Option<Name>),
    /// An undo to the last mark of this name.
    UndoTo(Name),
}

/// What a dot line asks for.
pub(crate) fn asked_by_line(line: &[u8]) -> Asked
    ensures { asked_view result ≡ asked_by_line line.now }
{
    let mut length = line.len();
    while length > 0 && is_end_blank(line[length - 1]) {
        length -= 1;
    }
    asked_by_word(&line[..length])
}

/// The same for a line without the blanks at its end.
fn asked_by_word(word: &[u8]) -> Asked
    ensures { asked_view result ≡ asked_by_word word.now }
{
    if word == b".undo".as_slice() {
        Asked::Request(Request::Undo, None)
    } else if word == b".save".as_slice() {
        Asked::Request(Request::Save, None)
    } else if word == b".print".as_slice() {
        Asked::Request(Request::Print, None)
    } else {
        asked_with_name(word)
    }
}

/// The same for a line with a name, if it has one.
fn asked_with_name(word: &[u8]) -> Asked
    ensures { asked_view result ≡ asked_with_name word.now }
{
    let prefix = prefix_of(word);
    if prefix == b".mark".as_slice() {
        match name_in(rest_of(word)) {
            Some(name) => Asked::Request(Request::Mark, Some(name)),
            None => Asked::Text(b"[Unknown]\n"),
        }
    } else if prefix == b".undo".as_slice() {
        match name_in(rest_of(word)) {
            Some(name) => Asked::UndoTo(name),
            None => Asked::Text(b"[Unknown]\n"),
        }
    } else {
        Asked::Text(b"[Unknown]\n")
    }
}

/// The first five bytes.
fn prefix_of(word: &[u8]) -> &[u8]
    ensures { result.now ≡ take 5 word.now }
{
    &word[..word.len().min(5)]
}

/// What is after the first five bytes.
fn rest_of(word: &[u8]) -> &[u8]
    ensures { result.now ≡ drop 5 word.now }
{
    &word[word.len().min(5)..]
}

/// Whether a byte is dropped at the end of a dot line.
fn is_end_blank(byte: u8) -> bool
    ensures { result ≡ is_end_blank byte }
{
    byte == b' ' || byte == b'\t' || byte == b'\r' || byte == b'\n'
}
